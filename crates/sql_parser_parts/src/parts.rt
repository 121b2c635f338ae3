// Names, texts, numbers, columns and constants.
ghost use Rattle.grammar_forms.specs.Forms.{after, listed};
ghost use Rattle.sql_lexer.specs.declared.token.Word.TheVariants as word;
ghost use Rattle.sql_parser_parts.specs.Answers.{Answers, AnswersBy, AnswersTokens, kinds, vec_items};
ghost use Rattle.sql_tree.specs.Grammar.{column, columns, const, constant_words_table, dec, equality, in_brackets, int, items_after, key, given, lit, literal_words_table, lits, name, names, number, of_table, one, series, signed_number, source, spans_table, text, texts, two_keys};

use crate::front::{Front, Tokens, Unread, next, optional};
use crate::lists::{Commas, ListKind, Part, listed};
use crate::words::{flag, key, two_keys};
use sql_lexer::{TokenKind, Word};
use sql_tree::{Column, Constant, Equality, Literal, Numeral, Series, Source, Span};
use std::alloc::Global;
use vtl_text::{List, Txt};

/// A name.
pub fn name(tokens: Tokens<'_>) -> Result<Front<'_, Txt>, Unread>
    ensures { Answers (name.reads (kinds tokens.now)) result }
{
    match next(tokens) {
        Some((TokenKind::Name(name), rest)) => Ok(Front {
            part: name.share()?,
            rest,
        }),
        _ => Err(Unread::Absent),
    }
}

fn text(tokens: Tokens<'_>) -> Result<Front<'_, Txt>, Unread>
    ensures { Answers (text.reads (kinds tokens.now)) result }
{
    match next(tokens) {
        Some((TokenKind::Text(text), rest)) => Ok(Front {
            part: text.share()?,
            rest,
        }),
        _ => Err(Unread::Absent),
    }
}

/// The digits of an integer.
pub fn int(tokens: Tokens<'_>) -> Result<Front<'_, Txt>, Unread>
    ensures { Answers (int.reads (kinds tokens.now)) result }
{
    match next(tokens) {
        Some((TokenKind::Int(digits), rest)) => Ok(Front {
            part: digits.share()?,
            rest,
        }),
        _ => Err(Unread::Absent),
    }
}

fn dec(tokens: Tokens<'_>) -> Result<Front<'_, Txt>, Unread>
    ensures { Answers (dec.reads (kinds tokens.now)) result }
{
    match next(tokens) {
        Some((TokenKind::Dec(digits), rest)) => Ok(Front {
            part: digits.share()?,
            rest,
        }),
        _ => Err(Unread::Absent),
    }
}

/// `name "." name`
#[tactic(auto, unfolding(sql_tree::specs::Grammar::column))]
pub fn column(tokens: Tokens<'_>) -> Result<Front<'_, Column>, Unread>
    ensures { Answers (column.reads (kinds tokens.now)) result }
{
    let source = name(tokens)?;
    let name = name(key(source.rest, Word::Dot)?)?;
    Ok(Front {
        part: Column {
            source: source.part,
            name: name.part,
        },
        rest: name.rest,
    })
}

// `["BY" "(" name { "," name } ")"]`
fn names_after_by(alloc: Global, tokens: Tokens<'_>) -> Result<Front<'_, Vec<Txt>>, Unread>
    ensures { AnswersBy vec_items ((items_after (key word.By) (in_brackets names)).reads (kinds tokens.now)) result }
{
    match key(tokens, Word::By) {
        Ok(behind) => bracketed_names(alloc, behind),
        Err(_) => Ok(Front {
            part: Vec::new(alloc),
            rest: tokens,
        }),
    }
}

// `"SINGLE" | "ALL"`
#[tactic(auto, using(crate::proofs::Tables::tables))]
fn span(tokens: Tokens<'_>) -> Result<Front<'_, Span>, Unread>
    ensures { Answers ((of_table spans_table).reads (kinds tokens.now)) result }
{
    if let Ok(rest) = key(tokens, Word::Single) {
        return Ok(Front {
            part: Span::Single,
            rest,
        });
    }
    let rest = key(tokens, Word::All)?;
    Ok(Front {
        part: Span::All,
        rest,
    })
}

// `"ON" name ["BY" "(" name { "," name } ")"] ("SINGLE" | "ALL")`
#[tactic(auto, unfolding(sql_tree::specs::Grammar::series))]
fn series(alloc: Global, tokens: Tokens<'_>) -> Result<Front<'_, Series>, Unread>
    ensures { Answers (series.reads (kinds tokens.now)) result }
{
    let on = name(key(tokens, Word::On)?)?;
    let by = names_after_by(alloc, on.rest)?;
    let span = span(by.rest)?;
    Ok(Front {
        part: Series {
            on: on.part,
            by: List::of(by.part),
            span: span.part,
        },
        rest: span.rest,
    })
}

// `name | "SERIES" name series`
#[tactic(auto, unfolding(sql_tree::specs::Grammar::given))]
fn given(alloc: Global, tokens: Tokens<'_>) -> Result<Front<'_, (Txt, Option<Series>)>, Unread>
    ensures { Answers (given.reads (kinds tokens.now)) result }
{
    if let Some(table) = optional(name(tokens))? {
        return Ok(Front {
            part: (table.part, None),
            rest: table.rest,
        });
    }
    let table = name(key(tokens, Word::Series)?)?;
    let series = series(alloc, table.rest)?;
    Ok(Front {
        part: (table.part, Some(series.part)),
        rest: series.rest,
    })
}

/// `name "AS" name`, or `"SERIES" name "ON" name ["BY" "(" name { "," name } ")"] ("SINGLE" | "ALL") "AS" name`
#[tactic(auto, unfolding(sql_tree::specs::Grammar::source))]
pub fn source(alloc: Global, tokens: Tokens<'_>) -> Result<Front<'_, Source>, Unread>
    ensures { Answers (source.reads (kinds tokens.now)) result }
{
    let given = given(alloc, tokens)?;
    let alias = name(key(given.rest, Word::As)?)?;
    let (table, series) = given.part;
    Ok(Front {
        part: Source {
            table,
            series,
            alias: alias.part,
        },
        rest: alias.rest,
    })
}

// `column "=" column`
#[tactic(auto, unfolding(sql_tree::specs::Grammar::equality))]
fn equality(tokens: Tokens<'_>) -> Result<Front<'_, Equality>, Unread>
    ensures { Answers (equality.reads (kinds tokens.now)) result }
{
    let left = column(tokens)?;
    let right = column(key(left.rest, Word::Equal)?)?;
    Ok(Front {
        part: Equality {
            left: left.part,
            right: right.part,
        },
        rest: right.rest,
    })
}

// `int | dec`
#[tactic(auto, unfolding(sql_tree::specs::Grammar::number))]
fn number(tokens: Tokens<'_>) -> Result<Front<'_, Numeral>, Unread>
    ensures { Answers (number.reads (kinds tokens.now)) result }
{
    if let Some(digits) = optional(int(tokens))? {
        return Ok(Front {
            part: Numeral::Int(digits.part),
            rest: digits.rest,
        });
    }
    let digits = dec(tokens)?;
    Ok(Front {
        part: Numeral::Dec(digits.part),
        rest: digits.rest,
    })
}

// A text after a word.
fn text_after(tokens: Tokens<'_>, mark: Word) -> Result<Front<'_, Txt>, Unread>
    ensures { Answers ((after (key mark) text).reads (kinds tokens.now)) result }
{
    text(key(tokens, mark)?)
}

// `"TRUE" | "FALSE" | "NULL"`
#[tactic(auto, using(crate::proofs::Tables::tables))]
fn constant_word(tokens: Tokens<'_>) -> Result<Front<'_, Constant>, Unread>
    ensures { Answers ((of_table constant_words_table).reads (kinds tokens.now)) result }
{
    if let Ok(rest) = key(tokens, Word::True) {
        return Ok(Front {
            part: Constant::True,
            rest,
        });
    }
    if let Ok(rest) = key(tokens, Word::False) {
        return Ok(Front {
            part: Constant::False,
            rest,
        });
    }
    let rest = key(tokens, Word::Null)?;
    Ok(Front {
        part: Constant::Null,
        rest,
    })
}

/// A constant.
pub fn constant(tokens: Tokens<'_>) -> Result<Front<'_, Constant>, Unread>
    ensures { Answers (const.reads (kinds tokens.now)) result }
{
    if let Some(number) = optional(number(tokens))? {
        return Ok(Front {
            part: Constant::Number(number.part),
            rest: number.rest,
        });
    }
    if let Some(text) = optional(text(tokens))? {
        return Ok(Front {
            part: Constant::Text(text.part),
            rest: text.rest,
        });
    }
    if let Some(word) = optional(constant_word(tokens))? {
        return Ok(word);
    }
    if let Some(date) = optional(text_after(tokens, Word::Date))? {
        return Ok(Front {
            part: Constant::Date(date.part),
            rest: date.rest,
        });
    }
    let period = text_after(tokens, Word::Period)?;
    Ok(Front {
        part: Constant::Period(period.part),
        rest: period.rest,
    })
}

// `["-"] (int | dec)`
#[tactic(auto, unfolding(sql_tree::specs::Grammar::signed_number))]
fn signed_number(tokens: Tokens<'_>) -> Result<Front<'_, Literal>, Unread>
    ensures { Answers (signed_number.reads (kinds tokens.now)) result }
{
    let sign = flag(tokens, Word::Minus);
    let number = number(sign.rest)?;
    Ok(Front {
        part: Literal::Number {
            negative: sign.part,
            number: number.part,
        },
        rest: number.rest,
    })
}

// `"TRUE" | "FALSE"`
#[tactic(auto, using(crate::proofs::Tables::tables))]
fn literal_word(tokens: Tokens<'_>) -> Result<Front<'_, Literal>, Unread>
    ensures { Answers ((of_table literal_words_table).reads (kinds tokens.now)) result }
{
    if let Ok(rest) = key(tokens, Word::True) {
        return Ok(Front {
            part: Literal::True,
            rest,
        });
    }
    let rest = key(tokens, Word::False)?;
    Ok(Front {
        part: Literal::False,
        rest,
    })
}

// A literal.
#[tactic(auto, unfolding(sql_tree::specs::Grammar::lit))]
pub(crate) fn literal(tokens: Tokens<'_>) -> Result<Front<'_, Literal>, Unread>
    ensures { Answers (lit.reads (kinds tokens.now)) result }
{
    if let Some(number) = optional(signed_number(tokens))? {
        return Ok(number);
    }
    if let Some(text) = optional(text(tokens))? {
        return Ok(Front {
            part: Literal::Text(text.part),
            rest: text.rest,
        });
    }
    if let Some(word) = optional(literal_word(tokens))? {
        return Ok(word);
    }
    if let Some(date) = optional(text_after(tokens, Word::Date))? {
        return Ok(Front {
            part: Literal::Date(date.part),
            rest: date.rest,
        });
    }
    let period = text_after(tokens, Word::Period)?;
    Ok(Front {
        part: Literal::Period(period.part),
        rest: period.rest,
    })
}

// The digit 1 alone.
pub(crate) fn one(tokens: Tokens<'_>) -> Result<Tokens<'_>, Unread>
    ensures { AnswersTokens (one.reads (kinds tokens.now)) result }
{
    match next(tokens) {
        Some((TokenKind::Int(digits), rest)) if digits.as_str() == "1" => Ok(rest),
        _ => Err(Unread::Absent),
    }
}

struct NamePart;

impl Part for NamePart {
    ghost use Rattle.sql_parser_parts.specs.Answers.{same};
    ghost use Rattle.sql_tree.specs.Grammar.{name};
    ghost use Rattle.sql_tree.specs.Trees.{Text};

    type Item = Txt;

    ghost Tree = { Text };

    ghost view = { same };

    ghost reads = { name.reads };

    fn read(_: Global, tokens: Tokens<'_>) -> Result<Front<'_, Txt>, Unread> {
        name(tokens)
    }
}

/// `name { "," name }`
#[tactic(auto, using(crate::proofs::Tables::same_items), unfolding(sql_tree::specs::Grammar::names))]
pub fn names(alloc: Global, tokens: Tokens<'_>) -> Result<Front<'_, Vec<Txt>>, Unread>
    ensures { AnswersBy vec_items (names.reads (kinds tokens.now)) result }
{
    listed::<Commas<NamePart>>(alloc, tokens)
}

// `"(" name { "," name } ")"`
fn bracketed_names(alloc: Global, tokens: Tokens<'_>) -> Result<Front<'_, Vec<Txt>>, Unread>
    ensures { AnswersBy vec_items ((in_brackets names).reads (kinds tokens.now)) result }
{
    let names = names(alloc, key(tokens, Word::Open)?)?;
    let rest = key(names.rest, Word::Close)?;
    Ok(Front {
        part: names.part,
        rest,
    })
}

struct TextPart;

impl Part for TextPart {
    ghost use Rattle.sql_parser_parts.specs.Answers.{same};
    ghost use Rattle.sql_tree.specs.Grammar.{text};
    ghost use Rattle.sql_tree.specs.Trees.{Text};

    type Item = Txt;

    ghost Tree = { Text };

    ghost view = { same };

    ghost reads = { text.reads };

    fn read(_: Global, tokens: Tokens<'_>) -> Result<Front<'_, Txt>, Unread> {
        text(tokens)
    }
}

/// `"(" text { "," text } ")"`
#[tactic(auto, using(crate::proofs::Tables::same_items), unfolding(sql_tree::specs::Grammar::texts))]
pub fn bracketed_texts(alloc: Global, tokens: Tokens<'_>) -> Result<Front<'_, Vec<Txt>>, Unread>
    ensures { AnswersBy vec_items ((in_brackets texts).reads (kinds tokens.now)) result }
{
    let texts = listed::<Commas<TextPart>>(alloc, key(tokens, Word::Open)?)?;
    let rest = key(texts.rest, Word::Close)?;
    Ok(Front {
        part: texts.part,
        rest,
    })
}

struct ColumnPart;

impl Part for ColumnPart {
    ghost use Rattle.sql_parser_parts.specs.Answers.{same};
    ghost use Rattle.sql_tree.specs.Grammar.{column};
    ghost use Rattle.sql_tree.specs.declared.parts.Column.{Column};

    type Item = Column;

    ghost Tree = { Column };

    ghost view = { same };

    ghost reads = { column.reads };

    fn read(_: Global, tokens: Tokens<'_>) -> Result<Front<'_, Column>, Unread> {
        column(tokens)
    }
}

/// Columns after two words, or none where the words do not stand there.
#[tactic(auto, using(crate::proofs::Tables::same_items), unfolding(sql_tree::specs::Grammar::columns))]
pub fn columns_after(
    alloc: Global,
    tokens: Tokens<'_>,
    first: Word,
    second: Word,
) -> Result<Front<'_, Vec<Column>>, Unread>
    ensures { AnswersBy vec_items ((items_after (two_keys first second) columns).reads (kinds tokens.now)) result }
{
    match two_keys(tokens, first, second) {
        Ok(behind) => listed::<Commas<ColumnPart>>(alloc, behind),
        Err(_) => Ok(Front {
            part: Vec::new(alloc),
            rest: tokens,
        }),
    }
}

struct LiteralPart;

impl Part for LiteralPart {
    ghost use Rattle.sql_parser_parts.specs.Answers.{same};
    ghost use Rattle.sql_tree.specs.Grammar.{lit};
    ghost use Rattle.sql_tree.specs.declared.parts.Literal.{Literal};

    type Item = Literal;

    ghost Tree = { Literal };

    ghost view = { same };

    ghost reads = { lit.reads };

    fn read(_: Global, tokens: Tokens<'_>) -> Result<Front<'_, Literal>, Unread> {
        literal(tokens)
    }
}

// `"(" literal { "," literal } ")"`
#[tactic(auto, using(crate::proofs::Tables::same_items), unfolding(sql_tree::specs::Grammar::lits))]
pub(crate) fn bracketed_literals(
    alloc: Global,
    tokens: Tokens<'_>,
) -> Result<Front<'_, Vec<Literal>>, Unread>
    ensures { AnswersBy vec_items ((in_brackets lits).reads (kinds tokens.now)) result }
{
    let literals = listed::<Commas<LiteralPart>>(alloc, key(tokens, Word::Open)?)?;
    let rest = key(literals.rest, Word::Close)?;
    Ok(Front {
        part: literals.part,
        rest,
    })
}

struct EqualityList;

impl ListKind for EqualityList {
    ghost use Rattle.grammar_forms.specs.Forms.{after};
    ghost use Rattle.sql_lexer.specs.declared.token.Word.TheVariants.{And};
    ghost use Rattle.sql_parser_parts.specs.Answers.{same};
    ghost use Rattle.sql_tree.specs.Grammar.{equality, key};
    ghost use Rattle.sql_tree.specs.declared.parts.Equality.{Equality};

    type Item = Equality;

    ghost Tree = { Equality };

    ghost view = { same };

    ghost first = { equality.reads };

    ghost step = { (after (key And) equality).reads };

    fn first(_: Global, tokens: Tokens<'_>) -> Result<Front<'_, Equality>, Unread> {
        equality(tokens)
    }

    fn step(_: Global, tokens: Tokens<'_>) -> Result<Front<'_, Equality>, Unread> {
        equality(key(tokens, Word::And)?)
    }
}

// Equalities after `WHERE`, or none
#[tactic(auto, using(crate::proofs::Tables::same_items))]
pub(crate) fn equalities(
    alloc: Global,
    tokens: Tokens<'_>,
) -> Result<Front<'_, Vec<Equality>>, Unread>
    ensures { AnswersBy vec_items ((items_after (key word.Where) (listed (key word.And) equality)).reads (kinds tokens.now)) result }
{
    match key(tokens, Word::Where) {
        Ok(behind) => listed::<EqualityList>(alloc, behind),
        Err(_) => Ok(Front {
            part: Vec::new(alloc),
            rest: tokens,
        }),
    }
}
