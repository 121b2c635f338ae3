// The joins that go by an index.
ghost use Rattle.std.specs.List.{list_all};
ghost use Rattle.std.specs.Prelude.{◌≡◌, ◌++◌, map, OnOk};
ghost use Rattle.sql_tree.specs.View.{expr_tree, join_tree, select_tree};
ghost use Rattle.sql_meaning.specs.Plans.{are_sides, conjuncts, is_side_equality};
ghost use Rattle.sql_plan.specs.Chosen.{equality_joins, equality_joins_from, is_equality_join};

use sql_meaning::Indexed;
use sql_tree::{Join, Select, Source, SqlExpr};
use std::alloc::AllocError;
use vtl_cell::ScalarOp;

// Whether both are columns, and just one of them is of this source.
fn are_sides(source: &Source, left: &SqlExpr, right: &SqlExpr) -> bool
    ensures { result ≡ are_sides source.now.alias (expr_tree left.now) (expr_tree right.now) }
{
    match (left, right) {
        (SqlExpr::Column(x), SqlExpr::Column(y)) => {
            (x.source == source.alias) != (y.source == source.alias)
        }
        _ => false,
    }
}

// Whether a condition is a conjunction of equalities of a column of this source and of one of another source. AND joins
// its parts in any order of brackets.
#[cycle(conjoined)]
fn equates_sides(source: &Source, condition: &SqlExpr) -> bool
    ensures { result ≡ list_all (is_side_equality source.now.alias) (conjuncts (expr_tree condition.now)) }
{
    match condition {
        SqlExpr::Binary {
            left,
            op: ScalarOp::And,
            right,
        } => equates_sides(source, left) && equates_sides(source, right),
        SqlExpr::Binary {
            left,
            op: ScalarOp::Equal,
            right,
        } => are_sides(source, left, right),
        _ => false,
    }
}

fn is_equality_join(join: &Join) -> bool
    ensures { result ≡ is_equality_join (join_tree join.now) }
{
    match join {
        Join::On {
            source,
            condition,
            ..
        } => equates_sides(source, condition),
        Join::Cross(_) => false,
    }
}

// Puts those of the joins of a select that go by an index behind others.
fn push_joins(indexed: &mut Vec<Indexed>, select: usize, joins: &[Join]) -> Result<(), AllocError>
    ensures { OnOk result (indexed.new.items ≡ indexed.old.items ++ equality_joins_from select 0 (map join_tree joins.now)) }
{
    for join in 0..joins.len() {
        if is_equality_join(&joins[join]) {
            indexed.push(Indexed { select, join })?;
        }
    }
    Ok(())
}

/// Puts the joins of a query that go by an index behind others, by select and then by join. It fails only if memory runs
/// out.
pub(crate) fn push_indexed(indexed: &mut Vec<Indexed>, selects: &[Select]) -> Result<(), AllocError>
    ensures { OnOk result (indexed.new.items ≡ indexed.old.items ++ equality_joins (map select_tree selects.now)) }
{
    for select in 0..selects.len() {
        push_joins(indexed, select, selects[select].joins.as_slice())?;
    }
    Ok(())
}
