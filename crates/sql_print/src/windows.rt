// The tokens of windows.
ghost use Rattle.std.specs.Prelude.{◌≡◌, ◌++◌, OnOk};
ghost use Rattle.sql_tree.specs.Printing.{commas, items_after, two_words, written_bound, written_call, written_column, written_default, maybe_written, written_frame, written_key, written_over, written_window};
ghost use Rattle.sql_lexer.specs.declared.token.Word.TheVariants as w;
ghost use Rattle.sql_print.specs.Tails.{column_call};

use crate::parts::int;
use crate::word_groups::{aggregate_word, direction_word, shift_word, side_word, value_word};
use crate::writing::{Printed, Written, parted, two_words, word};
use sql_lexer::{TokenKind, Word};
use sql_tree::{Bound, Column, Frame, Literal, Over, Window, WindowCall, WindowKey};

// The columns after two words, where there are any.
pub(crate) fn columns_after(
    out: &mut Vec<TokenKind>,
    first: Word,
    second: Word,
    columns: &[Column],
) -> Printed
    ensures { OnOk result (out.new.items ≡ out.old.items ++ items_after (two_words first second) (commas written_column) columns.now) }
{
    if columns.is_empty() {
        return Ok(());
    }
    two_words(out, first, second)?;
    parted(out, Word::Comma, columns)
}

fn default(out: &mut Vec<TokenKind>, default: &Option<Literal>) -> Printed
    ensures { OnOk result (out.new.items ≡ out.old.items ++ written_default default.now) }
{
    match default {
        None => word(out, Word::Null),
        Some(value) => value.write(out),
    }
}

fn call(out: &mut Vec<TokenKind>, call: &WindowCall) -> Printed
    ensures { OnOk result (out.new.items ≡ out.old.items ++ written_call call.now) }
{
    match call {
        WindowCall::Aggregate { function, column } => {
            of_column(out, aggregate_word(*function), column)
        }
        WindowCall::Value { function, column } => of_column(out, value_word(*function), column),
        WindowCall::Shift {
            function,
            column,
            rows,
            default: value,
        } => {
            two_words(out, shift_word(*function), Word::Open)?;
            column.write(out)?;
            word(out, Word::Comma)?;
            int(out, rows)?;
            word(out, Word::Comma)?;
            default(out, value)?;
            word(out, Word::Close)
        }
        WindowCall::Rank => {
            two_words(out, Word::Rank, Word::Open)?;
            word(out, Word::Close)
        }
    }
}

fn of_column(out: &mut Vec<TokenKind>, function: Word, column: &Column) -> Printed
    ensures { OnOk result (out.new.items ≡ out.old.items ++ column_call function column.now) }
{
    two_words(out, function, Word::Open)?;
    column.write(out)?;
    word(out, Word::Close)
}

impl Written for WindowKey {
    ghost use Rattle.sql_tree.specs.Printing.{written_key};

    ghost tokens = { written_key };

    fn write(&self, out: &mut Vec<TokenKind>) -> Printed {
        self.column.write(out)?;
        if let Some(direction) = self.direction {
            word(out, direction_word(direction))?;
        }
        Ok(())
    }
}

fn bound(out: &mut Vec<TokenKind>, bound: &Bound) -> Printed
    ensures { OnOk result (out.new.items ≡ out.old.items ++ written_bound bound.now) }
{
    match bound {
        Bound::Unbounded(side) => two_words(out, Word::Unbounded, side_word(*side)),
        Bound::Rows { count, side } => {
            int(out, count)?;
            word(out, side_word(*side))
        }
        Bound::CurrentRow => two_words(out, Word::Current, Word::Row),
    }
}

fn frame(out: &mut Vec<TokenKind>, frame: &Frame) -> Printed
    ensures { OnOk result (out.new.items ≡ out.old.items ++ written_frame frame.now) }
{
    two_words(out, Word::Rows, Word::Between)?;
    bound(out, &frame.first)?;
    word(out, Word::And)?;
    bound(out, &frame.last)
}

fn keys_after(out: &mut Vec<TokenKind>, keys: &[WindowKey]) -> Printed
    ensures { OnOk result (out.new.items ≡ out.old.items ++ items_after (two_words w.Order w.By) (commas written_key) keys.now) }
{
    if keys.is_empty() {
        return Ok(());
    }
    two_words(out, Word::Order, Word::By)?;
    parted(out, Word::Comma, keys)
}

fn maybe_frame(out: &mut Vec<TokenKind>, limits: &Option<Frame>) -> Printed
    ensures { OnOk result (out.new.items ≡ out.old.items ++ maybe_written written_frame limits.now) }
{
    match limits {
        None => Ok(()),
        Some(limits) => frame(out, limits),
    }
}

fn over(out: &mut Vec<TokenKind>, over: &Over) -> Printed
    ensures { OnOk result (out.new.items ≡ out.old.items ++ written_over over.now) }
{
    columns_after(out, Word::Partition, Word::By, over.partition.as_slice())?;
    keys_after(out, over.order.as_slice())?;
    maybe_frame(out, &over.frame)
}

pub(crate) fn window(out: &mut Vec<TokenKind>, window: &Window) -> Printed
    ensures { OnOk result (out.new.items ≡ out.old.items ++ written_window window.now) }
{
    call(out, &window.call)?;
    two_words(out, Word::Over, Word::Open)?;
    over(out, &window.over)?;
    word(out, Word::Close)
}
