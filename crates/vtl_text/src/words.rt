// Words, reserved words and names.
ghost use Rattle.std.specs.Prelude.{◌≡◌, chars};
ghost use Rattle.vtl_text.specs.Words.{fits_name, starts_with_letter, is_word_character, is_word, is_reserved, reserved_place, is_name, is_component_character, is_component_name};

// The most bytes of a word or a name.
const MAX_NAME_BYTES: usize = 64;

// The words that the grammar gives a meaning.
const RESERVED_WORDS: [&str; 115] = [
    "abs",
    "aggr",
    "all",
    "all_measures",
    "always_null",
    "always_zero",
    "and",
    "as",
    "asc",
    "attribute",
    "avg",
    "between",
    "by",
    "calc",
    "cast",
    "ceil",
    "check",
    "check_datapoint",
    "check_hierarchy",
    "computed",
    "count",
    "cross_join",
    "current",
    "data",
    "datapoint",
    "dataset",
    "date",
    "define",
    "desc",
    "drop",
    "else",
    "end",
    "errorcode",
    "errorlevel",
    "except",
    "exists_in",
    "false",
    "fill_time_series",
    "filter",
    "first_value",
    "floor",
    "flow_to_stock",
    "following",
    "full_join",
    "group",
    "having",
    "hierarchical",
    "hierarchy",
    "if",
    "imbalance",
    "in",
    "inner_join",
    "instr",
    "intersect",
    "invalid",
    "is",
    "isnull",
    "keep",
    "lag",
    "last_value",
    "lead",
    "left_join",
    "length",
    "ltrim",
    "max",
    "measure",
    "median",
    "min",
    "mod",
    "non_null",
    "non_zero",
    "not",
    "not_in",
    "null",
    "nvl",
    "or",
    "order",
    "over",
    "partial_null",
    "partial_zero",
    "partition",
    "pivot",
    "point",
    "points",
    "preceding",
    "rank",
    "ratio_to_report",
    "rename",
    "replace",
    "round",
    "rtrim",
    "rule",
    "rule_priority",
    "ruleset",
    "setdiff",
    "single",
    "stock_to_flow",
    "sub",
    "substr",
    "sum",
    "symdiff",
    "then",
    "time_period",
    "timeshift",
    "to",
    "trim",
    "true",
    "trunc",
    "unbounded",
    "union",
    "unpivot",
    "using",
    "variable",
    "when",
    "xor",
];

fn fits_name(text: &str) -> bool
    ensures { result ≡ fits_name (chars text.now) }
{
    text.len() <= MAX_NAME_BYTES
}

/// Whether `text` is a word: a letter A-Z or a-z, then letters, digits, `_` and `.`; at most 64 bytes.
pub fn is_word(text: &str) -> bool
    ensures { result ≡ is_word (chars text.now) }
{
    fits_name(text) && starts_with_letter(text) && text.chars().all(is_word_character)
}

fn starts_with_letter(text: &str) -> bool
    ensures { result ≡ starts_with_letter (chars text.now) }
{
    text.chars().next().is_some_and(|c| c.is_ascii_alphabetic())
}

fn is_word_character(c: char) -> bool
    ensures { result ≡ is_word_character c }
{
    c.is_ascii_alphanumeric() || c == '_' || c == '.'
}

/// Whether `text` is one of the words that the grammar gives a meaning, with letters as the grammar writes them.
pub fn is_reserved(text: &str) -> bool
    ensures { result ≡ is_reserved (chars text.now) }
{
    RESERVED_WORDS.iter().any(|word| *word == text)
}

/// The place of `text` among the words that the grammar gives a meaning, from 0 and in the order of their letters, if
/// it is one.
pub fn reserved_place(text: &str) -> Option<usize>
    ensures { result ≡ reserved_place (chars text.now) }
{
    RESERVED_WORDS.iter().position(|word| *word == text)
}

/// Whether `text` is a name: a word that is not reserved. Data sets, rulesets, rules and aliases have such names.
pub fn is_name(text: &str) -> bool
    ensures { result ≡ is_name (chars text.now) }
{
    is_word(text) && !is_reserved(text)
}

/// Whether `text` may name a component: 1 to 64 bytes without `'` and without control characters.
pub fn is_component_name(text: &str) -> bool
    ensures { result ≡ is_component_name (chars text.now) }
{
    fits_name(text) && !text.is_empty() && text.chars().all(is_component_character)
}

fn is_component_character(c: char) -> bool
    ensures { result ≡ is_component_character c }
{
    c != '\'' && !c.is_control()
}
