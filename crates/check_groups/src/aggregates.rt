// Aggregates: of the measures of a data set, and of one component over groups.
//
// In the operand of an aggregate each component is among the grouping names (`in_aggregate`): so the one test of a
// component that stands alone serves there too, and `count()` and aggregates inside it still know that they stand
// over groups.
ghost use Rattle.std.specs.Option.{option_map};
ghost use Rattle.std.specs.Prelude.{◌≡◌, Ok, true};
ghost use Rattle.check_faults.specs.Answers.{Answers};
ghost use Rattle.vtl_syntax.specs.Trees.{maybe_exp};
ghost use Rattle.vtl_syntax.specs.View.{expr_tree};
ghost use Rattle.vtl_tree.specs.Trees.{aggregate};
ghost use Rattle.vtl_tree.specs.NodeView.{form_tree};
ghost use Rattle.check_shapes.specs.Measures.{measured_form};
ghost use Rattle.vtl_tree.specs.View.{comp_exp_of};
ghost use Rattle.check_operators.specs.Typed.{boxed_tree, typed_tree};
ghost use Rattle.check_values.specs.Groupings.{grouping_choice, grouping_names};
ghost use Rattle.check_groups.specs.Aggregates.{agg_kind, aggregate_node, count_call, group_call, group_call_by, is_group, is_misused, of_measure, outcome_of, outside_rule, aggregate_value};

use crate::arguments::{operand_name, share_name};
use crate::kinds::{agg_kind, aggregate_kind, count_kind};
use check_faults::{Rule, TypeErr, broken};
use check_operators::{Inside, Place, Typed, made_of};
use check_shapes::{Operator, measured};
use check_values::{grouping_choice, grouping_names, grouping_of};
use std::alloc::Global;
use vtl_cell::Kind;
use vtl_syntax::{AggregateName, Expr, GroupPart};
use vtl_text::{List, Txt};
use vtl_tree::{AggCall, AggItems, AggSpec, CompExpr, Node, NodeForm, Outcome, Structure, kind};

fn group_call(function: AggregateName, component: Option<Txt>, kind: Kind) -> Typed
    ensures { Ok (typed_tree result) ≡ group_call function component kind }
{
    Typed::Value(CompExpr::Aggregate {
        call: AggCall {
            kind: agg_kind(function),
            component,
        },
        kind,
    })
}

fn group_call_by(
    function: AggregateName,
    component: Option<Txt>,
    grouped: bool,
    kind: Option<Kind>,
) -> Result<Typed, TypeErr>
    ensures { Answers typed_tree result (group_call_by function component grouped kind) }
{
    let Some(kind) = kind else {
        return Err(TypeErr::Broken(Rule::WrongKind));
    };
    broken(Rule::AggregateMisuse, grouped)?;
    Ok(group_call(function, component, kind))
}

fn is_misused(inside: &Inside, grouped: bool, component: &Option<Txt>) -> bool
    ensures { result ≡ is_misused inside.now grouped component.now }
{
    grouped || inside.grouping.is_none() || component.is_none()
}

fn outside_rule(kind: Option<Kind>) -> Rule
    ensures { result ≡ outside_rule kind }
{
    match kind {
        Some(_) => Rule::DatasetOrValue,
        None => Rule::WrongKind,
    }
}

/// An aggregate of a value: in a target of `aggr` or in `having` it is of a component, and has no groups of its own.
/// It breaks `WrongKind` where the kind does not fit, outside `DatasetOrValue`, and otherwise `AggregateMisuse`.
pub fn aggregate_value(
    place: &Place,
    function: AggregateName,
    grouped: bool,
    operand: Option<&Expr>,
    value: &CompExpr,
) -> Result<Typed, TypeErr>
    ensures { Answers typed_tree result (aggregate_value place.now function grouped (maybe_exp (option_map (λ e. expr_tree e.now) operand.entry)) (comp_exp_of value.now)) }
{
    let given = aggregate_kind(function, kind(value));
    match place {
        Place::Outside => Err(TypeErr::Broken(outside_rule(given))),
        Place::Inside(inside) => {
            let component = share_name(operand_name(operand, value))?;
            let is_misused = is_misused(inside, grouped, &component);
            group_call_by(function, component, is_misused, given)
        }
    }
}

// An aggregate of each measure, by the kinds that it takes and gives.
#[derive(Drop)]
struct OfMeasure {
    function: AggregateName,
}

impl Operator for OfMeasure {
    ghost use Rattle.check_groups.specs.Aggregates.{of_measure};

    ghost gives = { λ operator. of_measure operator.function };

    fn gives(&self, measure: Kind, _: Kind) -> Option<Kind> {
        aggregate_kind(self.function, measure)
    }
}

fn outcome_of(function: AggregateName) -> Outcome
    ensures { result ≡ outcome_of function }
{
    match function {
        AggregateName::Count => Outcome::Count,
        _ => Outcome::All,
    }
}

fn aggregated(
    alloc: Global,
    function: AggregateName,
    group: &Option<GroupPart>,
    structure: &Structure,
) -> Result<Structure, TypeErr>
    ensures { Answers (λ s. s) result (measured_form (outcome_of function) (of_measure function) true (grouping_choice group.now) (grouping_names group.now) structure.now.components) }
{
    let names = grouping_names(alloc, group)?;
    measured(
        alloc,
        outcome_of(function),
        &OfMeasure { function },
        true,
        grouping_choice(group),
        &names,
        structure,
    )
}

fn aggregate_form(
    function: AggregateName,
    operand: Box<Node>,
    grouping: List<Txt>,
    having: Option<CompExpr>,
) -> NodeForm
    ensures { form_tree result ≡ aggregate (boxed_tree operand) (record { items = AggItems.Measures (agg_kind function); grouping = grouping; having = option_map comp_exp_of having }) }
{
    let spec = AggSpec {
        items: AggItems::Measures(agg_kind(function)),
        grouping,
        having,
    };
    NodeForm::Aggregate { a: operand, spec }
}

/// An aggregate of each measure of a data set. It breaks `WrongKind` where the kind of a measure does not fit, and
/// `ComponentCount` where nothing is left.
#[tactic(auto, unfolding(crate::specs::Aggregates::aggregate_node))]
pub fn aggregate(
    alloc: Global,
    function: AggregateName,
    group: &Option<GroupPart>,
    operand: Box<Node>,
    having: Option<CompExpr>,
) -> Result<Typed, TypeErr>
    ensures { Answers typed_tree result (aggregate_node function group.now (boxed_tree operand) (option_map comp_exp_of having)) }
{
    let structure = aggregated(alloc, function, group, &operand.structure)?;
    let grouping = grouping_of(alloc, operand.structure.components.as_slice(), group)?;
    let form = aggregate_form(function, operand, grouping, having);
    made_of(alloc, structure, form)
}

fn is_group(place: &Place) -> bool
    ensures { result ≡ is_group place.now }
{
    match place {
        Place::Outside => false,
        Place::Inside(inside) => inside.grouping.is_some(),
    }
}

/// An aggregate without an operand: over groups `count()` is the number of points, where it has none of its own
/// (`AggregateMisuse`); anything else breaks `WrongKind`.
pub fn count_call(place: &Place, function: AggregateName, grouped: bool) -> Result<Typed, TypeErr>
    ensures { Answers typed_tree result (count_call place.now function grouped) }
{
    if is_group(place) {
        group_call_by(function, None, grouped, count_kind(function))
    } else {
        Err(TypeErr::Broken(Rule::WrongKind))
    }
}
