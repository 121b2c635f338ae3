// Parts of WHERE, and when they are tried.
//
// A part that is tried early is tried again with all of WHERE: so a plan's rows are told without taking WHERE apart,
// and what is tried twice is a comparison of rows that are there. `exec` gives the rows of the plan exactly, and that
// these are the rows of the query, in any order, is used once, from what each plan keeps (`IsPlan`). A plan lists
// entries in any order, so each is put to its join once: a select takes no time with the product of both.
ghost use Rattle.std.specs.Option.{option_map};
ghost use Rattle.std.specs.Prelude.{◌≡◌, ◌+◌, ◌++◌, length, IfOk, OnOk};
ghost use Rattle.sql_tree.specs.View.{expr_tree, select_tree};
ghost use Rattle.sql_meaning.specs.Plans.{conjuncts, conjuncts_of};
ghost use Rattle.sql_from.specs.Conditions.{AreDue, all_of, parts_at, trees_of};
ghost use Rattle.sql_from.specs.PlacedLists.{AreLists};

use crate::placed_lists::{no_lists, put_at};
use sql_meaning::Early;
use sql_tree::{Select, SqlExpr};
use std::alloc::{AllocError, Global};
use vtl_cell::ScalarOp;

// Puts the parts that AND joins in a condition behind others.
#[cycle(parted)]
fn push_conjuncts<'e>(
    parts: &mut Vec<&'e SqlExpr>,
    condition: &'e SqlExpr,
) -> Result<(), AllocError>
    ensures { OnOk result (trees_of parts.new.items ≡ trees_of parts.old.items ++ conjuncts (expr_tree condition.now)) }
{
    match condition {
        SqlExpr::Binary {
            left,
            op: ScalarOp::And,
            right,
        } => {
            push_conjuncts(parts, left)?;
            push_conjuncts(parts, right)
        }
        _ => {
            parts.push(condition)?;
            Ok(())
        }
    }
}

/// The parts that AND joins in a condition, from the left. It fails only if memory runs out.
pub(crate) fn conjuncts_of(
    alloc: Global,
    condition: &Option<SqlExpr>,
) -> Result<Vec<&SqlExpr>, AllocError>
    ensures { IfOk result (λ v. trees_of v.items ≡ conjuncts_of (option_map expr_tree condition.now)) }
{
    let mut parts = Vec::new(alloc);
    if let Some(condition) = condition {
        push_conjuncts(&mut parts, condition)?;
    }
    Ok(parts)
}

// The parts that entries have tried before each of so many joins, of all of these.
fn parts_by_join<'e>(
    alloc: Global,
    parts: &[&'e SqlExpr],
    early: &[Early],
    count: usize,
) -> Result<Vec<Vec<&'e SqlExpr>>, AllocError>
    ensures many { IfOk result (λ v. length v.items ≡ count) }
    ensures lists { IfOk result (λ v. AreLists (parts_at parts.now early.now) count v.items) }
{
    let mut lists = no_lists(alloc, count)?;
    for entry in early {
        if let Some(part) = parts.get(entry.conjunct) {
            put_at(&mut lists, entry.join, *part)?;
        }
    }
    Ok(lists)
}

// All of a condition.
fn all_of(alloc: Global, condition: &Option<SqlExpr>) -> Result<Vec<&SqlExpr>, AllocError>
    ensures { IfOk result (λ v. trees_of v.items ≡ all_of (option_map expr_tree condition.now)) }
{
    let mut all = Vec::new(alloc);
    if let Some(condition) = condition {
        all.push(condition)?;
    }
    Ok(all)
}

/// What is tried of WHERE, of which these are the parts, before each join, by place: what entries have tried there, and
/// behind the last join all of it. It takes time for the joins and the entries, whatever order these have. It fails only if
/// memory runs out.
pub(crate) fn due_parts<'e>(
    alloc: Global,
    select: &'e Select,
    parts: &[&'e SqlExpr],
    early: &[Early],
) -> Result<Vec<Vec<&'e SqlExpr>>, AllocError>
    requires { trees_of parts.now ≡ conjuncts_of (select_tree select.now).condition }
    ensures many { IfOk result (λ v. length v.items ≡ length (select_tree select.now).joins + 1) }
    ensures due { IfOk result (λ v. AreDue (select_tree select.now) early.now v.items) }
{
    let mut due = parts_by_join(alloc, parts, early, select.joins.as_slice().len())?;
    due.push(all_of(alloc, &select.condition)?)?;
    Ok(due)
}
