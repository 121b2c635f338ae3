// The parts of WHERE that are tried early.
//
// A part of WHERE is tried early once, before the first join before which it may be: each later join keeps of a row
// all columns that the part names, so it would pass again.
ghost use Rattle.std.specs.Prelude.{◌≡◌, ◌++◌, map, IfOk, OnOk};
ghost use Rattle.sql_tree.specs.View.{expr_tree, select_tree};
ghost use Rattle.sql_meaning.specs.Plans.{conjuncts, conjuncts_of};
ghost use Rattle.sql_plan.specs.EarlyChosen.{early_parts, early_parts_in, entries_from, first_join};
ghost use Rattle.sql_plan.specs.Reach.{first_join_by};

use crate::safety::is_safe_select;
use crate::standing::Standing;
use sql_meaning::Early;
use sql_tree::{Select, SqlExpr};
use std::alloc::{AllocError, Global};
use vtl_cell::ScalarOp;

// Puts for each part of a condition the first join before which it may be tried behind others.
#[cycle(parted)]
fn push_firsts(
    firsts: &mut Vec<Option<usize>>,
    standing: &Standing,
    condition: &SqlExpr,
) -> Result<(), AllocError>
    ensures { OnOk result (firsts.new.items ≡ firsts.old.items ++ map (first_join_by standing.now) (conjuncts (expr_tree condition.now))) }
{
    match condition {
        SqlExpr::Binary {
            left,
            op: ScalarOp::And,
            right,
        } => {
            push_firsts(firsts, standing, left)?;
            push_firsts(firsts, standing, right)
        }
        _ => {
            firsts.push(standing.first_join(condition))?;
            Ok(())
        }
    }
}

// For each part of the WHERE of a select the first join before which it may be tried.
fn first_joins(alloc: Global, select: &Select) -> Result<Vec<Option<usize>>, AllocError>
    ensures { IfOk result (λ v. v.items ≡ map (first_join (select_tree select.now)) (conjuncts_of (select_tree select.now).condition)) }
{
    let mut firsts = Vec::new(alloc);
    if let Some(condition) = &select.condition {
        let standing = Standing::of(alloc, select)?;
        push_firsts(&mut firsts, &standing, condition)?;
    }
    Ok(firsts)
}

// Puts the parts of a select that have a join behind others.
fn push_entries(
    early: &mut Vec<Early>,
    select: usize,
    firsts: &[Option<usize>],
) -> Result<(), AllocError>
    ensures { OnOk result (early.new.items ≡ early.old.items ++ entries_from select 0 firsts.now) }
{
    for conjunct in 0..firsts.len() {
        if let Some(join) = firsts[conjunct] {
            early.push(Early {
                select,
                conjunct,
                join,
            })?;
        }
    }
    Ok(())
}

// Puts the parts of the select at a place that are tried early behind others.
fn push_parts(
    alloc: Global,
    early: &mut Vec<Early>,
    place: usize,
    select: &Select,
) -> Result<(), AllocError>
    ensures { OnOk result (early.new.items ≡ early.old.items ++ early_parts_in place (select_tree select.now)) }
{
    if !is_safe_select(select) {
        return Ok(());
    }
    let firsts = first_joins(alloc, select)?;
    push_entries(early, place, firsts.as_slice())
}

/// Puts the parts of a query that are tried early behind others, by select and then by part. It fails only if memory runs
/// out.
pub(crate) fn push_early(
    alloc: Global,
    early: &mut Vec<Early>,
    selects: &[Select],
) -> Result<(), AllocError>
    ensures { OnOk result (early.new.items ≡ early.old.items ++ early_parts (map select_tree selects.now)) }
{
    for place in 0..selects.len() {
        push_parts(alloc, early, place, &selects[place])?;
    }
    Ok(())
}
