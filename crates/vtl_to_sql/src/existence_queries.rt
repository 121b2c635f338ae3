// The query of `exists_in`, over the tables of its operands.
//
// `exists_in` is a select with EXISTS as an item; where only one answer is kept, EXISTS stands in WHERE instead, and
// the item is this answer as a constant, so that each row is asked once.
ghost use Rattle.std.specs.Prelude.{◌≡◌, ◌++◌, ◌∷◌, [], map, IfOk};
ghost use Rattle.std.specs.Option.{option_map};
ghost use Rattle.vtl_tree.specs.Shown.{shown};
ghost use Rattle.vtl_tree.specs.Structure.{columns_of};
ghost use Rattle.vtl_tree.specs.Columns.{identifiers_of};
ghost use Rattle.sql_tree.specs.View.{expr_tree, item_tree, query_tree};
ghost use Rattle.vtl_to_sql.specs.Existences.{retained_matches, shown_matches};
ghost use Rattle.selects_to_sql.specs.NamedItems.{own_columns};
ghost use Rattle.vtl_to_sql.specs.Sets.{existence_query};
ghost use Rattle.selects_to_sql.specs.Queries.{items_as};

use crate::set_queries::is_matched;
use selects_to_sql::{Operand, Writer, from_one, one_select, push_next, push_own};
use sql_tree::{Constant, Item, Query, SqlExpr};
use std::alloc::{AllocError, Global};
use vtl_syntax::Retain;
use vtl_text::Txt;
use vtl_tree::{Component, Structure, common_identifiers};

// The identifiers of a result and an answer, as its columns.
fn answered_items(
    alloc: Global,
    writer: &Writer,
    s: &Structure,
    answer: SqlExpr,
) -> Result<Vec<Item>, AllocError>
    ensures { IfOk result (λ v. map item_tree v.items ≡ items_as (own_columns (identifiers_of s.now) ++ expr_tree answer ∷ []) (columns_of s.now)) }
{
    let identifiers = s.identifiers(alloc)?;
    let columns = s.columns(alloc)?;
    let mut items = Vec::with_capacity(alloc, columns.len())?;
    push_own(writer, &mut items, &identifiers, &columns)?;
    push_next(&mut items, answer, &columns)?;
    Ok(items)
}

// The condition of the points whose answer is retained.
fn retained(
    alloc: Global,
    writer: &Writer,
    kept: Retain,
    identifiers: &[&Component],
    other: &Txt,
) -> Result<Option<SqlExpr>, AllocError>
    ensures { IfOk result (λ o. option_map expr_tree o ≡ retained_matches kept (shown identifiers.now) other.now) }
{
    let wanted = match kept {
        Retain::All => return Ok(None),
        Retain::True => true,
        Retain::False => false,
    };
    Ok(Some(is_matched(alloc, writer, wanted, identifiers, other)?))
}

// The answer as a column: where the points of one answer alone are retained, it is that answer.
fn answer_shown(
    alloc: Global,
    writer: &Writer,
    kept: Retain,
    identifiers: &[&Component],
    other: &Txt,
) -> Result<SqlExpr, AllocError>
    ensures { IfOk result (λ e. expr_tree e ≡ shown_matches kept (shown identifiers.now) other.now) }
{
    match kept {
        Retain::All => is_matched(alloc, writer, true, identifiers, other),
        Retain::True => Ok(SqlExpr::Constant(Constant::True)),
        Retain::False => Ok(SqlExpr::Constant(Constant::False)),
    }
}

/// `exists_in`: for each point whether the second operand has one that agrees on the identifiers that both have. It
/// fails only if memory runs out.
pub(crate) fn existence_query(
    alloc: Global,
    writer: &Writer,
    kept: Retain,
    a: &Operand<'_>,
    b: &Operand<'_>,
    s: &Structure,
) -> Result<Query, AllocError>
    ensures { IfOk result (λ q. query_tree q ≡ existence_query writer.now kept a.now.structure.now b.now.structure.now s.now a.now.table.now b.now.table.now) }
{
    let common = common_identifiers(alloc, a.structure, b.structure)?;
    let answer = answer_shown(alloc, writer, kept, &common, b.table)?;
    let items = answered_items(alloc, writer, s, answer)?;
    let condition = retained(alloc, writer, kept, &common, b.table)?;
    one_select(alloc, from_one(alloc, writer, items, condition, a.table)?)
}
