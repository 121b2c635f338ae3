// The words of the grammar.
ghost use Rattle.std.specs.Prelude.{◌≡◌, Some, false, chars, MatchOption, slice_get};
ghost use Rattle.vtl_text.specs.Words.{is_reserved};
ghost use Rattle.vtl_lexer.specs.Keywords.{place_of, same_keyword, word_of};

use vtl_text::reserved_place;

/// A reserved word.
#[derive(Clone, Copy, Debug, PartialEq, Eq)]
pub enum Keyword {
    /// `abs`
    Abs,
    /// `aggr`
    Aggr,
    /// `all`
    All,
    /// `all_measures`
    AllMeasures,
    /// `always_null`
    AlwaysNull,
    /// `always_zero`
    AlwaysZero,
    /// `and`
    And,
    /// `as`
    As,
    /// `asc`
    Asc,
    /// `attribute`
    Attribute,
    /// `avg`
    Avg,
    /// `between`
    Between,
    /// `by`
    By,
    /// `calc`
    Calc,
    /// `cast`
    Cast,
    /// `ceil`
    Ceil,
    /// `check`
    Check,
    /// `check_datapoint`
    CheckDatapoint,
    /// `check_hierarchy`
    CheckHierarchy,
    /// `computed`
    Computed,
    /// `count`
    Count,
    /// `cross_join`
    CrossJoin,
    /// `current`
    Current,
    /// `data`
    Data,
    /// `datapoint`
    Datapoint,
    /// `dataset`
    Dataset,
    /// `date`
    Date,
    /// `define`
    Define,
    /// `desc`
    Desc,
    /// `drop`
    Drop,
    /// `else`
    Else,
    /// `end`
    End,
    /// `errorcode`
    Errorcode,
    /// `errorlevel`
    Errorlevel,
    /// `except`
    Except,
    /// `exists_in`
    ExistsIn,
    /// `false`
    False,
    /// `fill_time_series`
    FillTimeSeries,
    /// `filter`
    Filter,
    /// `first_value`
    FirstValue,
    /// `floor`
    Floor,
    /// `flow_to_stock`
    FlowToStock,
    /// `following`
    Following,
    /// `full_join`
    FullJoin,
    /// `group`
    Group,
    /// `having`
    Having,
    /// `hierarchical`
    Hierarchical,
    /// `hierarchy`
    Hierarchy,
    /// `if`
    If,
    /// `imbalance`
    Imbalance,
    /// `in`
    In,
    /// `inner_join`
    InnerJoin,
    /// `instr`
    Instr,
    /// `intersect`
    Intersect,
    /// `invalid`
    Invalid,
    /// `is`
    Is,
    /// `isnull`
    Isnull,
    /// `keep`
    Keep,
    /// `lag`
    Lag,
    /// `last_value`
    LastValue,
    /// `lead`
    Lead,
    /// `left_join`
    LeftJoin,
    /// `length`
    Length,
    /// `ltrim`
    Ltrim,
    /// `max`
    Max,
    /// `measure`
    Measure,
    /// `median`
    Median,
    /// `min`
    Min,
    /// `mod`
    Mod,
    /// `non_null`
    NonNull,
    /// `non_zero`
    NonZero,
    /// `not`
    Not,
    /// `not_in`
    NotIn,
    /// `null`
    Null,
    /// `nvl`
    Nvl,
    /// `or`
    Or,
    /// `order`
    Order,
    /// `over`
    Over,
    /// `partial_null`
    PartialNull,
    /// `partial_zero`
    PartialZero,
    /// `partition`
    Partition,
    /// `pivot`
    Pivot,
    /// `point`
    Point,
    /// `points`
    Points,
    /// `preceding`
    Preceding,
    /// `rank`
    Rank,
    /// `ratio_to_report`
    RatioToReport,
    /// `rename`
    Rename,
    /// `replace`
    Replace,
    /// `round`
    Round,
    /// `rtrim`
    Rtrim,
    /// `rule`
    Rule,
    /// `rule_priority`
    RulePriority,
    /// `ruleset`
    Ruleset,
    /// `setdiff`
    Setdiff,
    /// `single`
    Single,
    /// `stock_to_flow`
    StockToFlow,
    /// `sub`
    Sub,
    /// `substr`
    Substr,
    /// `sum`
    Sum,
    /// `symdiff`
    Symdiff,
    /// `then`
    Then,
    /// `time_period`
    TimePeriod,
    /// `timeshift`
    Timeshift,
    /// `to`
    To,
    /// `trim`
    Trim,
    /// `true`
    True,
    /// `trunc`
    Trunc,
    /// `unbounded`
    Unbounded,
    /// `union`
    Union,
    /// `unpivot`
    Unpivot,
    /// `using`
    Using,
    /// `variable`
    Variable,
    /// `when`
    When,
    /// `xor`
    Xor,
}

// The reserved words, by their places.
const KEYWORDS: [Keyword; 115] = [
    Keyword::Abs,
    Keyword::Aggr,
    Keyword::All,
    Keyword::AllMeasures,
    Keyword::AlwaysNull,
    Keyword::AlwaysZero,
    Keyword::And,
    Keyword::As,
    Keyword::Asc,
    Keyword::Attribute,
    Keyword::Avg,
    Keyword::Between,
    Keyword::By,
    Keyword::Calc,
    Keyword::Cast,
    Keyword::Ceil,
    Keyword::Check,
    Keyword::CheckDatapoint,
    Keyword::CheckHierarchy,
    Keyword::Computed,
    Keyword::Count,
    Keyword::CrossJoin,
    Keyword::Current,
    Keyword::Data,
    Keyword::Datapoint,
    Keyword::Dataset,
    Keyword::Date,
    Keyword::Define,
    Keyword::Desc,
    Keyword::Drop,
    Keyword::Else,
    Keyword::End,
    Keyword::Errorcode,
    Keyword::Errorlevel,
    Keyword::Except,
    Keyword::ExistsIn,
    Keyword::False,
    Keyword::FillTimeSeries,
    Keyword::Filter,
    Keyword::FirstValue,
    Keyword::Floor,
    Keyword::FlowToStock,
    Keyword::Following,
    Keyword::FullJoin,
    Keyword::Group,
    Keyword::Having,
    Keyword::Hierarchical,
    Keyword::Hierarchy,
    Keyword::If,
    Keyword::Imbalance,
    Keyword::In,
    Keyword::InnerJoin,
    Keyword::Instr,
    Keyword::Intersect,
    Keyword::Invalid,
    Keyword::Is,
    Keyword::Isnull,
    Keyword::Keep,
    Keyword::Lag,
    Keyword::LastValue,
    Keyword::Lead,
    Keyword::LeftJoin,
    Keyword::Length,
    Keyword::Ltrim,
    Keyword::Max,
    Keyword::Measure,
    Keyword::Median,
    Keyword::Min,
    Keyword::Mod,
    Keyword::NonNull,
    Keyword::NonZero,
    Keyword::Not,
    Keyword::NotIn,
    Keyword::Null,
    Keyword::Nvl,
    Keyword::Or,
    Keyword::Order,
    Keyword::Over,
    Keyword::PartialNull,
    Keyword::PartialZero,
    Keyword::Partition,
    Keyword::Pivot,
    Keyword::Point,
    Keyword::Points,
    Keyword::Preceding,
    Keyword::Rank,
    Keyword::RatioToReport,
    Keyword::Rename,
    Keyword::Replace,
    Keyword::Round,
    Keyword::Rtrim,
    Keyword::Rule,
    Keyword::RulePriority,
    Keyword::Ruleset,
    Keyword::Setdiff,
    Keyword::Single,
    Keyword::StockToFlow,
    Keyword::Sub,
    Keyword::Substr,
    Keyword::Sum,
    Keyword::Symdiff,
    Keyword::Then,
    Keyword::TimePeriod,
    Keyword::Timeshift,
    Keyword::To,
    Keyword::Trim,
    Keyword::True,
    Keyword::Trunc,
    Keyword::Unbounded,
    Keyword::Union,
    Keyword::Unpivot,
    Keyword::Using,
    Keyword::Variable,
    Keyword::When,
    Keyword::Xor,
];

// The place among the words.
fn place(k: Keyword) -> u8
    ensures { result ≡ place_of k }
{
    k as u8
}

/// Whether they are one word.
pub fn is_same_keyword(a: Keyword, b: Keyword) -> bool
    ensures { result ≡ same_keyword a b }
{
    place(a) == place(b)
}

/// The reserved word that `word` is, if it is one. Its letters are as the grammar writes them.
pub fn keyword_of(word: &str) -> Option<Keyword>
    ensures { MatchOption result (is_reserved (chars word.now) ≡ false)
        (λ keyword. chars word.now ≡ word_of keyword) }
{
    Some(KEYWORDS[reserved_place(word)?])
}
