// The text and the level of an error, as constants.
//
// What is not written is a null of its kind. Where a truth value is asked for each time, it is asked only for what is written.
ghost use Rattle.std.specs.Prelude.{◌≡◌, pos, [], IfOk};
ghost use Rattle.sql_tree.specs.View.{expr_tree};
ghost use Rattle.rules_to_sql.specs.Items.{level_as, null_like, text_as, written_as};

use selects_to_sql::{Writer, when};
use sql_tree::{Constant, SqlExpr};
use std::alloc::{AllocError, Global};
use vtl_cell::Cell;
use vtl_text::Txt;

/// A null of the kind of a value. It fails only if memory runs out.
pub(crate) fn null_like(alloc: Global, value: SqlExpr) -> Result<SqlExpr, AllocError>
    ensures { IfOk result (λ e. expr_tree e ≡ null_like (expr_tree value)) }
{
    let never = SqlExpr::Constant(Constant::False);
    when(alloc, never, value, Constant::Null)
}

/// A text. It fails only if memory runs out.
pub fn text_as(text: &Txt) -> Result<SqlExpr, AllocError>
    ensures { IfOk result (λ e. expr_tree e ≡ text_as text.now) }
{
    Ok(SqlExpr::Constant(Constant::Text(text.share()?)))
}

/// A level. It fails only if memory runs out.
pub fn level_as(alloc: Global, writer: &Writer, level: i64) -> Result<SqlExpr, AllocError>
    ensures { IfOk result (λ e. expr_tree e ≡ level_as level) }
{
    writer.constant(alloc, &Cell::Int(level))
}

/// No text. It fails only if memory runs out.
pub fn no_code(alloc: Global) -> Result<SqlExpr, AllocError>
    ensures { IfOk result (λ e. expr_tree e ≡ null_like (text_as [])) }
{
    let empty = Txt::new(alloc, "")?;
    let value = text_as(&empty)?;
    null_like(alloc, value)
}

/// No level. It fails only if memory runs out.
pub fn no_level(alloc: Global, writer: &Writer) -> Result<SqlExpr, AllocError>
    ensures { IfOk result (λ e. expr_tree e ≡ null_like (level_as (pos 0))) }
{
    let zero = level_as(alloc, writer, 0)?;
    null_like(alloc, zero)
}

/// The text of an error. It fails only if memory runs out.
pub fn code(alloc: Global, code: &Option<Txt>) -> Result<SqlExpr, AllocError>
    ensures { IfOk result (λ e. expr_tree e ≡ written_as text_as [] code.now) }
{
    match code {
        None => no_code(alloc),
        Some(text) => text_as(text),
    }
}

/// The level of an error. It fails only if memory runs out.
pub fn level(alloc: Global, writer: &Writer, level: Option<i64>) -> Result<SqlExpr, AllocError>
    ensures { IfOk result (λ e. expr_tree e ≡ written_as level_as (pos 0) level) }
{
    match level {
        None => no_level(alloc, writer),
        Some(level) => level_as(alloc, writer, level),
    }
}
