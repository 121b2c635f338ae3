// Expressions, operands first.
ghost use Rattle.std.specs.Option.{option_copied};
ghost use Rattle.std.specs.Prelude.{◌≡◌, ◌<◌, [], IfOk, length, slice_get};
ghost use Rattle.vtl_tree.specs.NodeView.{node_tree};
ghost use Rattle.vtl_sources.specs.Lineage.{sources_named};
ghost use Rattle.vtl_sources.specs.Table.{of_points, points_of_all};
ghost use Rattle.vtl_walks.specs.Operands.{operands_in};
ghost use Rattle.vtl_lineage.specs.Lines.{node_line, operand, traced_node};
ghost use Rattle.vtl_lineage.specs.Numbers.{merged};

use crate::joins::{join, set};
use crate::lines::{
    check, choose, datapoint, filter, left, measured, on_measures, pair, pivot, points_alone,
};
use crate::made::{aggregate, analytic, calculated};
use crate::numbers::nothing;
use crate::operand::{Found, Operand};
use crate::parts::points_of_all;
use std::alloc::{AllocError, Global};
use vtl_text::{ByName, Txt};
use vtl_tree::{Node, NodeForm, Structure};
use vtl_walks::operands;

/// What data sets depend on, by name: those that are read, and the results so far.
pub type Known = ByName<Found>;

// What a data set of this name depends on.
fn named(alloc: Global, known: &Known, name: &Txt) -> Result<Found, AllocError>
    ensures { IfOk result (λ f. f ≡ sources_named [] name.now known.now) }
{
    match known.get(name) {
        Some(found) => found.share(alloc),
        None => Ok(Found::of(nothing(alloc)?, Vec::new(alloc))),
    }
}

fn nth<'b, 'a>(given: &'b [Operand<'a>], i: usize) -> &'b Operand<'a>
    requires { i < length given.now }
    ensures { result.now ≡ operand given.now i }
{
    &given[i]
}

fn second<'b, 'a>(given: &'b [Operand<'a>]) -> Option<&'b Operand<'a>>
    ensures { option_copied result ≡ slice_get given.now 1 }
{
    given.get(1)
}

// `exists_in`: points alone, of both operands.
fn existence(alloc: Global, given: &[Operand], made: &Structure) -> Result<Found, AllocError>
    ensures { IfOk result (λ f. f ≡ of_points merged [] (points_of_all merged [] given.now) made.now) }
{
    let none = nothing(alloc)?;
    points_alone(alloc, points_of_all(alloc, given)?, &none, made)
}

// What the data set of a node depends on, where these are its operands.
fn line(alloc: Global, known: &Known, node: &Node, given: &[Operand]) -> Result<Found, AllocError>
    requires { length given.now ≡ length (operands_in (node_tree node.now)) }
    ensures { IfOk result (λ f. f ≡ node_line known.now (node_tree node.now) given.now) }
{
    let made = &node.structure;
    match &node.form {
        NodeForm::Named(name) => named(alloc, known, name),
        NodeForm::Measures { op, .. } => on_measures(alloc, nth(given, 0), op, made),
        NodeForm::Pair { .. } => pair(alloc, nth(given, 0), nth(given, 1), made),
        NodeForm::Choose { .. } => {
            choose(alloc, nth(given, 0), nth(given, 1), nth(given, 2), made)
        }
        NodeForm::Member { .. } => left(alloc, nth(given, 0), made),
        NodeForm::Filter { c, .. } => filter(alloc, nth(given, 0), c),
        NodeForm::Calc { items, .. } => calculated(alloc, nth(given, 0), items.as_slice(), made),
        NodeForm::Keep { .. } => left(alloc, nth(given, 0), made),
        NodeForm::DropNamed { .. } => left(alloc, nth(given, 0), made),
        NodeForm::Rename { .. } => nth(given, 0).found().share(alloc),
        NodeForm::Sub { .. } => left(alloc, nth(given, 0), made),
        NodeForm::Pivot { m, .. } => pivot(alloc, nth(given, 0), m, made),
        NodeForm::Unpivot { .. } => measured(alloc, nth(given, 0), made),
        NodeForm::Join { .. } => join(alloc, given),
        NodeForm::Union(_) => set(alloc, given, made),
        NodeForm::Intersect(_) => set(alloc, given, made),
        NodeForm::SetDiff { .. } => set(alloc, given, made),
        NodeForm::SymDiff { .. } => set(alloc, given, made),
        NodeForm::ExistsIn { .. } => existence(alloc, given, made),
        NodeForm::Aggregate { spec, .. } => aggregate(alloc, nth(given, 0), spec, made),
        NodeForm::Analytic { spec, .. } => analytic(alloc, nth(given, 0), spec, made),
        NodeForm::Time { .. } => left(alloc, nth(given, 0), made),
        NodeForm::Check { .. } => check(alloc, nth(given, 0), second(given)),
        NodeForm::CheckDatapoint { rules, out, .. } => {
            datapoint(alloc, nth(given, 0), rules.rules.as_slice(), *out)
        }
        NodeForm::CheckHierarchy { .. } => measured(alloc, nth(given, 0), made),
        NodeForm::Hierarchy { .. } => measured(alloc, nth(given, 0), made),
    }
}

/// The data set of an expression, with what it depends on.
#[cycle(traced)]
#[tactic(auto, using(crate::proofs::Walks::by_operands, crate::proofs::Walks::traced_next, crate::proofs::Walks::all_traced, crate::proofs::Walks::as_many))]
pub fn trace<'a>(alloc: Global, known: &Known, node: &'a Node) -> Result<Operand<'a>, AllocError>
    ensures { IfOk result (λ o. o ≡ traced_node known.now (node_tree node.now)) }
{
    let below = operands(node);
    let mut given = Vec::new(alloc);
    for i in 0..below.len() {
        given.push(trace(alloc, known, below.nth(i))?)?;
    }
    let found = line(alloc, known, node, &given)?;
    Operand::of(alloc, &node.structure, found)
}
