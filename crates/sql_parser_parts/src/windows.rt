// Windows.
//
// A window and an expression may begin alike: their choice is made by a call and the OVER after it (`led-law-by`).
ghost use Rattle.std.specs.Prelude.{◌≡◌, Some};
ghost use Rattle.grammar_forms.specs.Forms.{after, before, maybe, seq, «as»};
ghost use Rattle.sql_lexer.specs.declared.token.Word.TheVariants as word;
ghost use Rattle.sql_parser_parts.specs.Answers.{Answers, AnswersBy, front_view, kinds, same, vec_items};
ghost use Rattle.sql_tree.specs.Grammar.{bound_of, column, column_aggregate, column_shift, column_value, commas, default, directions_table, frame, in_brackets, int, items_after, key, of_table, over, rank, sides_table, two_keys, wcall, wkey};
ghost use Rattle.sql_tree.specs.declared.windows.Bound.TheVariants as bound;

use crate::front::{Front, Tokens, Unread, optional};
use crate::lists::{Commas, Part, listed};
use crate::parts::{column, columns_after, int, literal};
use crate::words::{key, two_keys, word};
use sql_lexer::Word;
use sql_tree::{
    Bound, Column, Direction, Frame, Literal, Over, ShiftFunction, Side, ValueFunction, WindowCall,
    WindowKey,
};
use std::alloc::Global;
use vtl_cell::AggKind;
use vtl_text::List;

// `"(" column ")"`
fn bracketed_column(tokens: Tokens<'_>) -> Result<Front<'_, Column>, Unread>
    ensures { Answers ((in_brackets column).reads (kinds tokens.now)) result }
{
    let column = column(key(tokens, Word::Open)?)?;
    let rest = key(column.rest, Word::Close)?;
    Ok(Front {
        part: column.part,
        rest,
    })
}

// An aggregate of a column
#[tactic(auto, unfolding(sql_tree::specs::Grammar::column_aggregate))]
fn column_aggregate(tokens: Tokens<'_>) -> Result<Front<'_, WindowCall>, Unread>
    ensures { Answers (column_aggregate.reads (kinds tokens.now)) result }
{
    let table = [
        (Word::Sum, AggKind::Sum),
        (Word::Avg, AggKind::Avg),
        (Word::Count, AggKind::Count),
        (Word::Min, AggKind::Min),
        (Word::Max, AggKind::Max),
    ];
    let function = word(tokens, &table).ok_or(Unread::Absent)?;
    let column = bracketed_column(function.rest)?;
    Ok(Front {
        part: WindowCall::Aggregate {
            function: function.part,
            column: column.part,
        },
        rest: column.rest,
    })
}

// A function of a column
#[tactic(auto, unfolding(sql_tree::specs::Grammar::column_value))]
fn column_value(tokens: Tokens<'_>) -> Result<Front<'_, WindowCall>, Unread>
    ensures { Answers (column_value.reads (kinds tokens.now)) result }
{
    let table = [
        (Word::FirstValue, ValueFunction::FirstValue),
        (Word::LastValue, ValueFunction::LastValue),
        (Word::RatioToReport, ValueFunction::RatioToReport),
    ];
    let function = word(tokens, &table).ok_or(Unread::Absent)?;
    let column = bracketed_column(function.rest)?;
    Ok(Front {
        part: WindowCall::Value {
            function: function.part,
            column: column.part,
        },
        rest: column.rest,
    })
}

// A literal, or nothing as `NULL`
#[tactic(auto, unfolding(sql_tree::specs::Grammar::default))]
fn default(tokens: Tokens<'_>) -> Result<Front<'_, Option<Literal>>, Unread>
    ensures { Answers (default.reads (kinds tokens.now)) result }
{
    if let Some(literal) = optional(literal(tokens))? {
        return Ok(Front {
            part: Some(literal.part),
            rest: literal.rest,
        });
    }
    let rest = key(tokens, Word::Null)?;
    Ok(Front { part: None, rest })
}

// The value of a column in another row
#[tactic(auto, unfolding(sql_tree::specs::Grammar::column_shift))]
fn column_shift(tokens: Tokens<'_>) -> Result<Front<'_, WindowCall>, Unread>
    ensures { Answers (column_shift.reads (kinds tokens.now)) result }
{
    let table = [
        (Word::Lag, ShiftFunction::Lag),
        (Word::Lead, ShiftFunction::Lead),
    ];
    let function = word(tokens, &table).ok_or(Unread::Absent)?;
    let column = column(key(function.rest, Word::Open)?)?;
    let rows = int(key(column.rest, Word::Comma)?)?;
    let default = default(key(rows.rest, Word::Comma)?)?;
    let rest = key(default.rest, Word::Close)?;
    Ok(Front {
        part: WindowCall::Shift {
            function: function.part,
            column: column.part,
            rows: rows.part,
            default: default.part,
        },
        rest,
    })
}

// `"RANK" "(" ")"`
#[tactic(auto, unfolding(sql_tree::specs::Grammar::rank))]
fn rank(tokens: Tokens<'_>) -> Result<Front<'_, WindowCall>, Unread>
    ensures { Answers (rank.reads (kinds tokens.now)) result }
{
    let rest = two_keys(key(tokens, Word::Rank)?, Word::Open, Word::Close)?;
    Ok(Front {
        part: WindowCall::Rank,
        rest,
    })
}

// What a window computes
#[tactic(auto, unfolding(sql_tree::specs::Grammar::wcall))]
fn call(tokens: Tokens<'_>) -> Result<Front<'_, WindowCall>, Unread>
    ensures { Answers (wcall.reads (kinds tokens.now)) result }
{
    if let Some(call) = optional(column_aggregate(tokens))? {
        return Ok(call);
    }
    if let Some(call) = optional(column_value(tokens))? {
        return Ok(call);
    }
    if let Some(call) = optional(column_shift(tokens))? {
        return Ok(call);
    }
    rank(tokens)
}

fn direction(tokens: Tokens<'_>) -> Front<'_, Option<Direction>>
    ensures { (maybe (of_table directions_table)).reads (kinds tokens.now) ≡ Some (front_view same result) }
{
    let table = [
        (Word::Asc, Direction::Ascending),
        (Word::Desc, Direction::Descending),
    ];
    match word(tokens, &table) {
        Some(direction) => Front {
            part: Some(direction.part),
            rest: direction.rest,
        },
        None => Front {
            part: None,
            rest: tokens,
        },
    }
}

// A column by which rows are sorted
#[tactic(auto, unfolding(sql_tree::specs::Grammar::wkey))]
fn window_key(tokens: Tokens<'_>) -> Result<Front<'_, WindowKey>, Unread>
    ensures { Answers (wkey.reads (kinds tokens.now)) result }
{
    let column = column(tokens)?;
    let direction = direction(column.rest);
    Ok(Front {
        part: WindowKey {
            column: column.part,
            direction: direction.part,
        },
        rest: direction.rest,
    })
}

struct KeyPart;

impl Part for KeyPart {
    ghost use Rattle.sql_parser_parts.specs.Answers.{same};
    ghost use Rattle.sql_tree.specs.Grammar.{wkey};
    ghost use Rattle.sql_tree.specs.declared.windows.WindowKey.{WindowKey};

    type Item = WindowKey;

    ghost Tree = { WindowKey };

    ghost view = { same };

    ghost reads = { wkey.reads };

    fn read(_: Global, tokens: Tokens<'_>) -> Result<Front<'_, WindowKey>, Unread> {
        window_key(tokens)
    }
}

// `["ORDER" "BY" key {"," key}]`
#[tactic(auto, using(crate::proofs::Tables::same_items))]
fn order(alloc: Global, tokens: Tokens<'_>) -> Result<Front<'_, Vec<WindowKey>>, Unread>
    ensures { AnswersBy vec_items ((items_after (two_keys word.Order word.By) (commas wkey)).reads (kinds tokens.now)) result }
{
    match two_keys(tokens, Word::Order, Word::By) {
        Ok(keys) => listed::<Commas<KeyPart>>(alloc, keys),
        Err(_) => Ok(Front {
            part: Vec::new(alloc),
            rest: tokens,
        }),
    }
}

fn side(tokens: Tokens<'_>) -> Result<Front<'_, Side>, Unread>
    ensures { Answers ((of_table sides_table).reads (kinds tokens.now)) result }
{
    let table = [
        (Word::Preceding, Side::Preceding),
        (Word::Following, Side::Following),
    ];
    word(tokens, &table).ok_or(Unread::Absent)
}

// An end of a frame that is a number of rows away
fn rows(tokens: Tokens<'_>) -> Result<Front<'_, Bound>, Unread>
    ensures { Answers ((«as» (λ p. bound.Rows p.0 p.1) (seq int (of_table sides_table))).reads (kinds tokens.now)) result }
{
    let count = int(tokens)?;
    let side = side(count.rest)?;
    Ok(Front {
        part: Bound::Rows {
            count: count.part,
            side: side.part,
        },
        rest: side.rest,
    })
}

// An end of a frame without a limit
fn unbounded(tokens: Tokens<'_>) -> Result<Front<'_, Bound>, Unread>
    ensures { Answers ((«as» bound.Unbounded (after (key word.Unbounded) (of_table sides_table))).reads (kinds tokens.now)) result }
{
    let side = side(key(tokens, Word::Unbounded)?)?;
    Ok(Front {
        part: Bound::Unbounded(side.part),
        rest: side.rest,
    })
}

// An end of a frame
#[tactic(auto, unfolding(sql_tree::specs::Grammar::bound_of))]
fn bound(tokens: Tokens<'_>) -> Result<Front<'_, Bound>, Unread>
    ensures { Answers (bound_of.reads (kinds tokens.now)) result }
{
    if let Some(bound) = optional(unbounded(tokens))? {
        return Ok(bound);
    }
    if let Some(bound) = optional(rows(tokens))? {
        return Ok(bound);
    }
    let rest = two_keys(tokens, Word::Current, Word::Row)?;
    Ok(Front {
        part: Bound::CurrentRow,
        rest,
    })
}

// `"ROWS" "BETWEEN" bound "AND" bound`
#[tactic(auto, unfolding(sql_tree::specs::Grammar::frame))]
fn frame(tokens: Tokens<'_>) -> Result<Front<'_, Frame>, Unread>
    ensures { Answers (frame.reads (kinds tokens.now)) result }
{
    let first = bound(two_keys(tokens, Word::Rows, Word::Between)?)?;
    let last = bound(key(first.rest, Word::And)?)?;
    Ok(Front {
        part: Frame {
            first: first.part,
            last: last.part,
        },
        rest: last.rest,
    })
}

// A frame, if one stands there
fn frame_if_any(tokens: Tokens<'_>) -> Result<Front<'_, Option<Frame>>, Unread>
    ensures { Answers ((maybe frame).reads (kinds tokens.now)) result }
{
    Ok(match optional(frame(tokens))? {
        Some(frame) => Front {
            part: Some(frame.part),
            rest: frame.rest,
        },
        None => Front {
            part: None,
            rest: tokens,
        },
    })
}

// Over which rows
#[tactic(auto, unfolding(sql_tree::specs::Grammar::over))]
fn rows_over(alloc: Global, tokens: Tokens<'_>) -> Result<Front<'_, Over>, Unread>
    ensures { Answers (over.reads (kinds tokens.now)) result }
{
    let partition = columns_after(alloc, tokens, Word::Partition, Word::By)?;
    let order = order(alloc, partition.rest)?;
    let frame = frame_if_any(order.rest)?;
    Ok(Front {
        part: Over {
            partition: List::of(partition.part),
            order: List::of(order.part),
            frame: frame.part,
        },
        rest: frame.rest,
    })
}

/// What a window computes, with `OVER` after it.
pub fn call_over(tokens: Tokens<'_>) -> Result<Front<'_, WindowCall>, Unread>
    ensures { Answers ((before wcall (key word.Over)).reads (kinds tokens.now)) result }
{
    let call = call(tokens)?;
    let rest = key(call.rest, Word::Over)?;
    Ok(Front {
        part: call.part,
        rest,
    })
}

/// What stands in brackets after `OVER`: over which rows.
pub fn bracketed_over(alloc: Global, tokens: Tokens<'_>) -> Result<Front<'_, Over>, Unread>
    ensures { Answers ((in_brackets over).reads (kinds tokens.now)) result }
{
    let over = rows_over(alloc, key(tokens, Word::Open)?)?;
    let rest = key(over.rest, Word::Close)?;
    Ok(Front {
        part: over.part,
        rest,
    })
}
