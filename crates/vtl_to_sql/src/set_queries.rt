// The queries of the set operators and of `exists_in`, over the tables of two operands.
//
// Set operators of many operands go two by two, each step in a table of its own: the text grows by a select for each
// operand and no query deepens. One UNION ALL would ask of each operand that no earlier one has the point, which is a
// square of conditions.
ghost use Rattle.std.specs.Prelude.{◌≡◌, ◌++◌, ◌∷◌, [], map, IfOk, OnOk};
ghost use Rattle.std.specs.Option.{option_map};
ghost use Rattle.vtl_tree.specs.Shown.{shown};
ghost use Rattle.vtl_tree.specs.Structure.{names_of};
ghost use Rattle.vtl_tree.specs.declared.structure.Structure.{Structure as StructureOf};
ghost use Rattle.vtl_tree.specs.Names.{is_among};
ghost use Rattle.vtl_tree.specs.Columns.{common_identifiers};
ghost use Rattle.sql_tree.specs.View.{expr_tree, query_tree, select_tree};
ghost use Rattle.vtl_to_sql.specs.Combined.{combined_query};
ghost use Rattle.vtl_to_sql.specs.Sets.{answered, is_matched, matched_select, shown_select, tied};

use crate::set_operators::SetOperator;
use selects_to_sql::{Writer, from_one, one_select, renamed_items, two_selects};
use sql_tree::{Equality, Query, Select, SqlExpr};
use std::alloc::{AllocError, Global};
use vtl_cell::ScalarOp;
use vtl_text::{List, Txt};
use vtl_tree::{Component, Structure};

// An identifier has the same value in the inner table as in the outer one.
fn tied(writer: &Writer, identifier: &Component) -> Result<Equality, AllocError>
    ensures { IfOk result (λ x. x ≡ tied identifier.now) }
{
    Ok(Equality {
        left: writer.second(&identifier.name)?,
        right: writer.first(&identifier.name)?,
    })
}

fn all_tied(
    alloc: Global,
    writer: &Writer,
    identifiers: &[&Component],
) -> Result<List<Equality>, AllocError>
    ensures { IfOk result (λ l. l ≡ map tied (shown identifiers.now)) }
{
    let mut equalities = Vec::with_capacity(alloc, identifiers.len())?;
    for identifier in identifiers {
        equalities.push(tied(writer, identifier)?)?;
    }
    Ok(List::of(equalities))
}

// A condition, or that it does not hold.
fn answered(alloc: Global, wanted: bool, condition: SqlExpr) -> Result<SqlExpr, AllocError>
    ensures { IfOk result (λ e. expr_tree e ≡ answered wanted (expr_tree condition)) }
{
    if wanted {
        return Ok(condition);
    }
    Ok(SqlExpr::Unary {
        op: ScalarOp::Not,
        operand: Box::new(alloc, condition)?,
    })
}

/// Another table has a row with the same values of these identifiers, or has none. It fails only if memory runs out.
pub(crate) fn is_matched(
    alloc: Global,
    writer: &Writer,
    wanted: bool,
    identifiers: &[&Component],
    other: &Txt,
) -> Result<SqlExpr, AllocError>
    ensures { IfOk result (λ e. expr_tree e ≡ is_matched wanted (shown identifiers.now) other.now) }
{
    let source = writer.other_source(other)?;
    let equalities = all_tied(alloc, writer, identifiers)?;
    answered(alloc, wanted, SqlExpr::Exists { source, equalities })
}

// The columns of a result, from the table of an operand.
fn shown_select(
    alloc: Global,
    writer: &Writer,
    s: &Structure,
    table: &Txt,
    condition: Option<SqlExpr>,
) -> Result<Select, AllocError>
    ensures { IfOk result (λ x. (a : StructureOf) → select_tree x ≡ shown_select writer.now a s.now table.now (option_map expr_tree condition)) }
{
    let items = renamed_items(alloc, writer, s, s)?;
    from_one(alloc, writer, items, condition, table)
}

// The points for which another operand has a point, or has none.
fn matched_select(
    alloc: Global,
    writer: &Writer,
    wanted: bool,
    s: &Structure,
    table: &Txt,
    other: &Txt,
) -> Result<Select, AllocError>
    ensures { IfOk result (λ x. (a : StructureOf) → select_tree x ≡ matched_select writer.now wanted a s.now table.now other.now) }
{
    let identifiers = s.identifiers(alloc)?;
    let condition = is_matched(alloc, writer, wanted, &identifiers, other)?;
    shown_select(alloc, writer, s, table, Some(condition))
}

/// A set operator on two operands of which each has the columns of the result.
pub(crate) fn set_query(
    alloc: Global,
    writer: &Writer,
    operator: SetOperator,
    s: &Structure,
    first: &Txt,
    second: &Txt,
) -> Result<Query, AllocError>
    ensures { IfOk result (λ q. (a b : StructureOf) → query_tree q ≡ combined_query operator writer.now a b s.now first.now second.now) }
{
    match operator {
        SetOperator::Union => {
            let all = shown_select(alloc, writer, s, first, None)?;
            let others = matched_select(alloc, writer, false, s, second, first)?;
            two_selects(alloc, all, others)
        }
        SetOperator::Intersection => {
            one_select(
                alloc,
                matched_select(alloc, writer, true, s, first, second)?,
            )
        }
        SetOperator::Difference => {
            one_select(
                alloc,
                matched_select(alloc, writer, false, s, first, second)?,
            )
        }
        SetOperator::SymmetricDifference => {
            let ours = matched_select(alloc, writer, false, s, first, second)?;
            let theirs = matched_select(alloc, writer, false, s, second, first)?;
            two_selects(alloc, ours, theirs)
        }
    }
}
