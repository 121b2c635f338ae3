// Statements.
ghost use Rattle.grammar_forms.specs.Forms.{after, before, maybe, «as»};
ghost use Rattle.sql_lexer.specs.declared.token.Word.TheVariants as word;
ghost use Rattle.sql_parser_parts.specs.Answers.{Answers, AnswersBy, item_views, kinds, vec_items};
ghost use Rattle.sql_parser.specs.Parts.{setting_view};
ghost use Rattle.sql_tree.specs.Grammar.{commas, create, export, in_brackets, input, input_column, items_after, items_or_none, key, name, names, not_null, query, setting, statement, texts, two_keys};
ghost use Rattle.sql_tree.specs.View.{select_tree, statement_tree};

use crate::queries::query;
use sql_lexer::Word;
use sql_parser_parts::{
    Commas, Front, Part, Tokens, Unread, before, bracketed_texts, int, key, listed, name, names,
    optional, two_keys, word,
};
use sql_tree::{InputColumn, Query, Select, SqlCreate, SqlExport, SqlInput, Statement};
use std::alloc::Global;
use vtl_cell::Kind;
use vtl_decimal::Rounding;
use vtl_text::{List, Txt};

// A name after a word
fn name_after(tokens: Tokens<'_>, mark: Word) -> Result<Front<'_, Txt>, Unread>
    ensures { Answers ((after (key mark) name).reads (kinds tokens.now)) result }
{
    name(key(tokens, mark)?)
}

// Codes after `CODES`, or none
fn codes(alloc: Global, tokens: Tokens<'_>) -> Result<Front<'_, Vec<Txt>>, Unread>
    ensures { AnswersBy vec_items ((items_after (key word.Codes) (in_brackets texts)).reads (kinds tokens.now)) result }
{
    match key(tokens, Word::Codes) {
        Ok(behind) => bracketed_texts(alloc, behind),
        Err(_) => Ok(Front {
            part: Vec::new(alloc),
            rest: tokens,
        }),
    }
}

// `["NOT" "NULL"]`
#[tactic(auto, unfolding(sql_tree::specs::Grammar::not_null))]
fn not_null(tokens: Tokens<'_>) -> Result<Front<'_, bool>, Unread>
    ensures { Answers (not_null.reads (kinds tokens.now)) result }
{
    match two_keys(tokens, Word::Not, Word::Null) {
        Ok(rest) => Ok(Front { part: true, rest }),
        Err(_) => Ok(Front {
            part: false,
            rest: tokens,
        }),
    }
}

// A column of an input
#[tactic(auto, unfolding(sql_tree::specs::Grammar::input_column))]
fn input_column(alloc: Global, tokens: Tokens<'_>) -> Result<Front<'_, InputColumn>, Unread>
    ensures { Answers (input_column.reads (kinds tokens.now)) result }
{
    let name = name(tokens)?;
    let table = [
        (Word::Boolean, Kind::Bool),
        (Word::Integer, Kind::Int),
        (Word::Number, Kind::Num),
        (Word::Text, Kind::Text),
        (Word::Date, Kind::Day),
        (Word::Period, Kind::Period),
    ];
    let kind = word(name.rest, &table).ok_or(Unread::Absent)?;
    let not_null = not_null(kind.rest)?;
    let codes = codes(alloc, not_null.rest)?;
    Ok(Front {
        part: InputColumn {
            name: name.part,
            kind: kind.part,
            not_null: not_null.part,
            codes: List::of(codes.part),
        },
        rest: codes.rest,
    })
}

struct InputColumnPart;

impl Part for InputColumnPart {
    ghost use Rattle.sql_parser_parts.specs.Answers.{same};
    ghost use Rattle.sql_tree.specs.Grammar.{input_column};
    ghost use Rattle.sql_tree.specs.declared.statements.InputColumn.{InputColumn};

    type Item = InputColumn;

    ghost Tree = { InputColumn };

    ghost view = { same };

    ghost reads = { input_column.reads };

    fn read(alloc: Global, tokens: Tokens<'_>) -> Result<Front<'_, InputColumn>, Unread> {
        input_column(alloc, tokens)
    }
}

// `"(" column { "," column } ")"`
#[tactic(auto, using(sql_parser_parts::proofs::Tables::same_items))]
fn bracketed_columns(
    alloc: Global,
    tokens: Tokens<'_>,
) -> Result<Front<'_, Vec<InputColumn>>, Unread>
    ensures { AnswersBy vec_items ((in_brackets (commas input_column)).reads (kinds tokens.now)) result }
{
    let columns = listed::<Commas<InputColumnPart>>(alloc, key(tokens, Word::Open)?)?;
    let rest = key(columns.rest, Word::Close)?;
    Ok(Front {
        part: columns.part,
        rest,
    })
}

// Names, or none
fn names_if_any(alloc: Global, tokens: Tokens<'_>) -> Result<Front<'_, Vec<Txt>>, Unread>
    ensures { AnswersBy vec_items ((«as» items_or_none (maybe names)).reads (kinds tokens.now)) result }
{
    if let Some(names) = optional(names(alloc, tokens))? {
        return Ok(names);
    }
    Ok(Front {
        part: Vec::new(alloc),
        rest: tokens,
    })
}

// `"KEY" "(" names ")"`
fn table_key(alloc: Global, tokens: Tokens<'_>) -> Result<Front<'_, Vec<Txt>>, Unread>
    ensures { AnswersBy vec_items ((after (key word.Key) (in_brackets («as» items_or_none (maybe names)))).reads (kinds tokens.now)) result }
{
    let names = names_if_any(alloc, two_keys(tokens, Word::Key, Word::Open)?)?;
    let rest = key(names.rest, Word::Close)?;
    Ok(Front {
        part: names.part,
        rest,
    })
}

#[tactic(auto, unfolding(sql_tree::specs::Grammar::input))]
fn input(alloc: Global, tokens: Tokens<'_>) -> Result<Front<'_, Statement>, Unread>
    ensures { AnswersBy statement_tree (input.reads (kinds tokens.now)) result }
{
    let name = name_after(tokens, Word::Input)?;
    let columns = bracketed_columns(alloc, name.rest)?;
    let table_key = table_key(alloc, columns.rest)?;
    let rest = key(table_key.rest, Word::Semicolon)?;
    Ok(Front {
        part: Statement::Input(SqlInput {
            name: name.part,
            columns: List::of(columns.part),
            key: List::of(table_key.part),
        }),
        rest,
    })
}

// `"AS" query ";"`
fn query_after(alloc: Global, tokens: Tokens<'_>) -> Result<Front<'_, Vec<Select>>, Unread>
    ensures { AnswersBy (item_views select_tree) ((before (after (key word.As) query) (key word.Semicolon)).reads (kinds tokens.now)) result }
{
    before(query(alloc, key(tokens, Word::As)?)?, Word::Semicolon)
}

#[tactic(auto, unfolding(sql_tree::specs::Grammar::create))]
fn create(alloc: Global, tokens: Tokens<'_>) -> Result<Front<'_, Statement>, Unread>
    ensures { AnswersBy statement_tree (create.reads (kinds tokens.now)) result }
{
    let name = name(two_keys(tokens, Word::Create, Word::Table)?)?;
    let query = query_after(alloc, name.rest)?;
    Ok(Front {
        part: Statement::Create(SqlCreate {
            name: name.part,
            query: Query {
                selects: List::of(query.part),
            },
        }),
        rest: query.rest,
    })
}

// Names after `ORDER BY`, or none
fn order(alloc: Global, tokens: Tokens<'_>) -> Result<Front<'_, Vec<Txt>>, Unread>
    ensures { AnswersBy vec_items ((items_after (two_keys word.Order word.By) names).reads (kinds tokens.now)) result }
{
    match two_keys(tokens, Word::Order, Word::By) {
        Ok(behind) => names(alloc, behind),
        Err(_) => Ok(Front {
            part: Vec::new(alloc),
            rest: tokens,
        }),
    }
}

#[tactic(auto, unfolding(sql_tree::specs::Grammar::export))]
fn export(alloc: Global, tokens: Tokens<'_>) -> Result<Front<'_, Statement>, Unread>
    ensures { AnswersBy statement_tree (export.reads (kinds tokens.now)) result }
{
    let name = name_after(tokens, Word::Export)?;
    let order = order(alloc, name.rest)?;
    let rest = key(order.rest, Word::Semicolon)?;
    Ok(Front {
        part: Statement::Export(SqlExport {
            name: name.part,
            order: List::of(order.part),
        }),
        rest,
    })
}

// SET
#[tactic(auto, unfolding(sql_tree::specs::Grammar::setting))]
pub(crate) fn setting(tokens: Tokens<'_>) -> Result<Front<'_, (Txt, Rounding)>, Unread>
    ensures { AnswersBy setting_view (setting.reads (kinds tokens.now)) result }
{
    let scale = int(two_keys(tokens, Word::Set, Word::Scale)?)?;
    let table = [
        (Word::HalfUp, Rounding::HalfUp),
        (Word::HalfEven, Rounding::HalfEven),
        (Word::Down, Rounding::Down),
    ];
    let rounding = word(key(scale.rest, Word::Rounding)?, &table).ok_or(Unread::Absent)?;
    let rest = key(rounding.rest, Word::Semicolon)?;
    Ok(Front {
        part: (scale.part, rounding.part),
        rest,
    })
}

// A statement after SET
#[tactic(auto, unfolding(sql_tree::specs::Grammar::statement))]
pub(crate) fn statement(alloc: Global, tokens: Tokens<'_>) -> Result<Front<'_, Statement>, Unread>
    ensures { AnswersBy statement_tree (statement.reads (kinds tokens.now)) result }
{
    if let Some(input) = optional(input(alloc, tokens))? {
        return Ok(input);
    }
    if let Some(create) = optional(create(alloc, tokens))? {
        return Ok(create);
    }
    export(alloc, tokens)
}
