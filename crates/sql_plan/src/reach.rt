// How far to the right the sources of a part of WHERE stand.
//
// How far right the sources of a part stand is one number: a part may be tried before a join exactly where that
// number, and the first join behind the last FULL one, are not greater than the join's place. So a select takes one
// walk of its parts and a look-up for each column, and not a test for each part and join.
ghost use Rattle.std.specs.List.{flat_map};
ghost use Rattle.std.specs.Prelude.{◌≡◌, map, max, option_map};
ghost use Rattle.sql_tree.specs.Trees.{branches_of, exps_of};
ghost use Rattle.sql_tree.specs.View.{branch_tree, expr_tree};
ghost use Rattle.sql_check_parts.specs.Scopes.{value_among};
ghost use Rattle.sql_meaning.specs.Early.{columns_in, columns_of, columns_within, outer_columns, outer_of};
ghost use Rattle.sql_plan.specs.Reach.{reach};

use sql_tree::{Branch, Column, Equality, Source, SqlExpr};
use vtl_text::ByName;

/// The place of the last source that an expression names, at least `from`; none where a source is not there. It takes no
/// memory.
#[cycle(reached)]
#[tactic(auto, using(crate::proofs::Views::views, crate::proofs::Reaches::reach_both))]
pub(crate) fn reach(places: &ByName<usize>, from: usize, expression: &SqlExpr) -> Option<usize>
    ensures { result ≡ reach places.now from (columns_in (expr_tree expression.now)) }
{
    match expression {
        SqlExpr::Binary { left, right, .. } => {
            let from = reach(places, from, left)?;
            reach(places, from, right)
        }
        SqlExpr::Unary { operand, .. } => reach(places, from, operand),
        SqlExpr::IsNull { operand, .. } => reach(places, from, operand),
        SqlExpr::InList { operand, .. } => reach(places, from, operand),
        SqlExpr::Aggregate { operand, .. } => reach(places, from, operand),
        SqlExpr::Constant(_) | SqlExpr::CountAll => Some(from),
        SqlExpr::Column(column) => reach_column(places, from, column),
        SqlExpr::Call { operands, .. } => reach_operands(places, from, operands),
        SqlExpr::Case { branches, other } => {
            let from = reach_branches(places, from, branches)?;
            reach(places, from, other)
        }
        SqlExpr::Exists { source, equalities } => {
            reach_outer(places, from, source, equalities.as_slice())
        }
    }
}

#[cycle(reached)]
#[tactic(auto, using(crate::proofs::Views::views, crate::proofs::Reaches::reach_both))]
fn reach_operands(places: &ByName<usize>, from: usize, operands: &[SqlExpr]) -> Option<usize>
    ensures { result ≡ reach places.now from (columns_of (exps_of (map expr_tree operands.now))) }
{
    let mut last = from;
    for operand in operands {
        last = reach(places, last, operand)?;
    }
    Some(last)
}

#[cycle(reached)]
#[tactic(auto, using(crate::proofs::Views::views, crate::proofs::Reaches::reach_both))]
fn reach_branches(places: &ByName<usize>, from: usize, branches: &[Branch]) -> Option<usize>
    ensures { result ≡ reach places.now from (columns_within (branches_of (map branch_tree branches.now))) }
{
    let mut last = from;
    for branch in branches {
        last = reach(places, last, &branch.condition)?;
        last = reach(places, last, &branch.value)?;
    }
    Some(last)
}

fn reach_column(places: &ByName<usize>, from: usize, column: &Column) -> Option<usize>
    ensures { result ≡ option_map (max from) (value_among places.now column.now.source) }
{
    let place = *places.get(&column.source)?;
    Some(from.max(place))
}

// The columns of a side of an equality in EXISTS: those of its own table are not of the select.
fn reach_side(places: &ByName<usize>, from: usize, source: &Source, side: &Column) -> Option<usize>
    ensures { result ≡ reach places.now from (outer_of source.now.alias side.now) }
{
    if side.source == source.alias {
        Some(from)
    } else {
        reach_column(places, from, side)
    }
}

fn reach_outer(
    places: &ByName<usize>,
    from: usize,
    source: &Source,
    equalities: &[Equality],
) -> Option<usize>
    ensures { result ≡ reach places.now from (flat_map (outer_columns source.now.alias) equalities.now) }
{
    let mut last = from;
    for equality in equalities {
        last = reach_side(places, last, source, &equality.left)?;
        last = reach_side(places, last, source, &equality.right)?;
    }
    Some(last)
}
