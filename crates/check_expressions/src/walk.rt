// The typing of expressions.
//
// One recursion types values and data sets (`typed`), and the place tells what names stand for. So each form has one
// clause. An operator on data sets inside a component expression is typed as outside and then breaks rule 14; an
// analytic call there breaks 14 itself, which is less than the 16 that it would break.
//
// A data set is kept in a box from the moment it is typed, and what follows it is a function that takes it and
// finishes: a large tree beside a `?` is dear to prove.
ghost use Rattle.std.specs.Option.{is_some, option_map};
ghost use Rattle.std.specs.Prelude.{◌||◌, ◌∷◌, [], Bool, None, Some, map};
ghost use Rattle.vtl_tree.specs.NodeView.{item_tree, node_tree, value_tree};
ghost use Rattle.check_faults.specs.Answers.{Answers};
ghost use Rattle.vtl_syntax.specs.Trees.{calcs_of, exps_of, maybe_targets, parts_of};
ghost use Rattle.vtl_syntax.specs.View.{calc_tree, clause_tree, expr_tree, part_tree, targets_tree};
ghost use Rattle.vtl_tree.specs.View.{comp_exp_of};
ghost use Rattle.check_operators.specs.Places.{at_groups, in_aggregate};
ghost use Rattle.check_operators.specs.Typed.{boxed_tree, dataset_in, typed_tree, typed_trees};
ghost use Rattle.check_operators.specs.declared.places.Place.TheVariants as at;
ghost use Rattle.check_clauses.specs.JoinView.{operands_view, parts_view};
ghost use Rattle.check_clauses.specs.TargetsView.{items_view};
ghost use Rattle.check_expressions.specs.Rulings.{sight_in};
ghost use Rattle.check_expressions.specs.Typing.{aggrs_typed, calc_value, calcs_typed, check_typed, clause_typed, difference_typed, exists_typed, filter_step, filter_typed, filtered_join, grouped_of, has_exp, having_typed, join_end, maybe_typed, next_typed, operands_typed, over_operand, own_groups, parts_typed, targets_step, targets_typed, typed};
ghost use Rattle.check_expressions.specs.WalkView.{maybe_tree};

use crate::Rulesets;
use crate::join::{body_end, seen_by_body};
use crate::value::{function, opened, scalar_value, with_operand};
use check_clauses::{
    Made, Part, aggr, aggr_name, calc, calc_name, filter, joined_node, keeping,
    operands as joined_operands, pivot, push_item, push_made, push_part, renaming, sub, unpivot,
};
use check_faults::TypeErr;
use check_groups::{aggregate, aggregate_value, count_call, over, target};
use check_operators::{
    Joined, Place, Scope, Typed, check, check_spec, condition, constant, difference, exists,
    groups, in_aggregate, member, member_inside, name, operator, points, regrouped, set, sets,
    written,
};
use check_times::time;
use check_values::{binary_operator, grouping, grouping_of, unary_operator};
use std::alloc::{AllocError, Global};
use vtl_cell::ScalarOp;
use vtl_syntax::{
    AggregateName, BasicOut, CalcPart, Clause, Comp, DifferenceName, ErrorPart, Expr, GroupPart,
    JoinKind, JoinPart, Keeping, RenamePart, Retain, Targets,
};
use vtl_text::{List, Txt};
use vtl_tree::{CalcItem, CalcValue, CompExpr, JoinOperand, Node};

// One more operand after others.
#[cycle(typing)]
fn next<R: Rulesets>(
    alloc: Global,
    scope: &Scope,
    rulesets: &R,
    place: &Place,
    e: &Expr,
    operands: Vec<Typed>,
) -> Result<Vec<Typed>, TypeErr>
    ensures { Answers typed_trees result (next_typed (sight_in scope.now (R.called rulesets.now)) place.now (typed_trees operands) (expr_tree e.now)) }
{
    let operand = typing(alloc, scope, rulesets, place, e)?;
    Ok(with_operand(operands, operand)?)
}

// All operands.
#[cycle(typing)]
fn all<R: Rulesets>(
    alloc: Global,
    scope: &Scope,
    rulesets: &R,
    place: &Place,
    es: &[Expr],
) -> Result<Vec<Typed>, TypeErr>
    ensures { Answers typed_trees result (operands_typed (sight_in scope.now (R.called rulesets.now)) place.now [] (exps_of (map expr_tree es.now))) }
{
    let mut operands = Vec::new(alloc);
    for e in es {
        operands = next(alloc, scope, rulesets, place, e, operands)?;
    }
    Ok(operands)
}

// An operand, if there is one.
#[cycle(typing)]
fn maybe<R: Rulesets>(
    alloc: Global,
    scope: &Scope,
    rulesets: &R,
    place: &Place,
    e: &Option<Box<Expr>>,
) -> Result<Option<Typed>, TypeErr>
    ensures { Answers (option_map typed_tree) result (maybe_typed (sight_in scope.now (R.called rulesets.now)) place.now (maybe_tree e.now)) }
{
    match e {
        Some(e) => Ok(Some(typing(alloc, scope, rulesets, place, e)?)),
        None => Ok(None),
    }
}

// Where a data set is needed.
#[cycle(typing)]
fn outside<R: Rulesets>(
    alloc: Global,
    scope: &Scope,
    rulesets: &R,
    e: &Expr,
) -> Result<Typed, TypeErr>
    ensures { Answers typed_tree result (typed (sight_in scope.now (R.called rulesets.now)) at.Outside (expr_tree e.now)) }
{
    let place = Place::Outside;
    typing(alloc, scope, rulesets, &place, e)
}

// `setdiff` and `symdiff` after their first operand.
#[cycle(typing)]
fn difference_behind<R: Rulesets>(
    alloc: Global,
    scope: &Scope,
    rulesets: &R,
    e: &Expr,
    operator: DifferenceName,
    first: Typed,
) -> Result<Typed, TypeErr>
    ensures { Answers typed_tree result (difference_typed (sight_in scope.now (R.called rulesets.now)) operator (typed_tree first) (expr_tree e.now)) }
{
    let second = outside(alloc, scope, rulesets, e)?;
    difference(alloc, operator, first, second)
}

// `exists_in` after its first operand.
#[cycle(typing)]
fn exists_behind<R: Rulesets>(
    alloc: Global,
    scope: &Scope,
    rulesets: &R,
    e: &Expr,
    retain: Option<Retain>,
    first: Typed,
) -> Result<Typed, TypeErr>
    ensures { Answers typed_tree result (exists_typed (sight_in scope.now (R.called rulesets.now)) retain (typed_tree first) (expr_tree e.now)) }
{
    let second = outside(alloc, scope, rulesets, e)?;
    exists(alloc, retain, first, second)
}

// The condition of groups, where one is written.
#[cycle(typing)]
fn having<R: Rulesets>(
    alloc: Global,
    scope: &Scope,
    rulesets: &R,
    having: &Option<Box<Expr>>,
    place: &Place,
) -> Result<Option<CompExpr>, TypeErr>
    ensures { Answers (option_map comp_exp_of) result (having_typed (sight_in scope.now (R.called rulesets.now)) place.now (maybe_tree having.now)) }
{
    match having {
        Some(e) => {
            let value = typing(alloc, scope, rulesets, place, e)?;
            Ok(Some(condition(value)?))
        }
        None => Ok(None),
    }
}

// The same over the groups of a data set.
#[cycle(typing)]
fn having_groups<R: Rulesets>(
    alloc: Global,
    scope: &Scope,
    rulesets: &R,
    condition: &Option<Box<Expr>>,
    joined: &Option<Joined>,
    node: &Node,
    names: List<Txt>,
) -> Result<Option<CompExpr>, TypeErr>
    ensures { Answers (option_map comp_exp_of) result (having_typed (sight_in scope.now (R.called rulesets.now)) (at.Inside (at_groups joined.now (node_tree node.now) names)) (maybe_tree condition.now)) }
{
    let place = groups(alloc, joined, node, names)?;
    having(alloc, scope, rulesets, condition, &place)
}

// The operand of an aggregate, if there is one.
#[cycle(typing)]
fn aggregate_operand<R: Rulesets>(
    alloc: Global,
    scope: &Scope,
    rulesets: &R,
    place: &Place,
    e: &Option<Box<Expr>>,
) -> Result<Option<Typed>, TypeErr>
    ensures { Answers (option_map typed_tree) result (maybe_typed (sight_in scope.now (R.called rulesets.now)) (in_aggregate place.now) (maybe_tree e.now)) }
{
    let place = in_aggregate(alloc, place)?;
    maybe(alloc, scope, rulesets, &place, e)
}

// The groups of its own of an aggregate that is of no data set: outside its names stand for nothing.
#[cycle(typing)]
fn own_groups<R: Rulesets>(
    alloc: Global,
    scope: &Scope,
    rulesets: &R,
    place: &Place,
    condition: &Option<Box<Expr>>,
    group: &Option<GroupPart>,
) -> Result<(), TypeErr>
    ensures { Answers (λ done. done) result (own_groups place.now group.now (λ groups. having_typed (sight_in scope.now (R.called rulesets.now)) groups (maybe_tree condition.now))) }
{
    match place {
        Place::Outside => Ok(()),
        Place::Inside(inside) => {
            let names = grouping(alloc, inside.components.as_slice(), group)?;
            let groups = regrouped(alloc, inside, names)?;
            having(alloc, scope, rulesets, condition, &groups)?;
            Ok(())
        }
    }
}

// An aggregate after its operand: the names of the grouping, the condition, and then the call.
#[cycle(typing)]
fn grouped<R: Rulesets>(
    alloc: Global,
    scope: &Scope,
    rulesets: &R,
    place: &Place,
    condition: &Option<Box<Expr>>,
    function: AggregateName,
    written: &Option<Box<Expr>>,
    group: &Option<GroupPart>,
    operand: Option<Typed>,
) -> Result<Typed, TypeErr>
    ensures { Answers typed_tree result (grouped_of place.now function (maybe_tree written.now) group.now (is_some group.now || has_exp (maybe_tree condition.now)) (λ groups. having_typed (sight_in scope.now (R.called rulesets.now)) groups (maybe_tree condition.now)) (option_map typed_tree operand)) }
{
    let has_groups = group.is_some() || condition.is_some();
    match operand {
        Some(Typed::Dataset(node)) => {
            let names = grouping(alloc, node.structure.components.as_slice(), group)?;
            let joined = None;
            let condition = having_groups(
                alloc, scope, rulesets, condition, &joined, &node, names,
            )?;
            aggregate(alloc, function, group, node, condition)
        }
        Some(Typed::Value(value)) => {
            own_groups(alloc, scope, rulesets, place, condition, group)?;
            aggregate_value(place, function, has_groups, opened(written), &value)
        }
        None => {
            own_groups(alloc, scope, rulesets, place, condition, group)?;
            count_call(place, function, has_groups)
        }
    }
}

// A clause of a data set.
#[cycle(typing)]
fn clause_typing<R: Rulesets>(
    alloc: Global,
    scope: &Scope,
    rulesets: &R,
    clause: &Clause,
    node: Box<Node>,
) -> Result<Box<Node>, TypeErr>
    ensures { Answers boxed_tree result (clause_typed (sight_in scope.now (R.called rulesets.now)) (boxed_tree node) (clause_tree clause.now)) }
{
    let joined = None;
    match clause {
        Clause::Filter(e) => filter_typing(alloc, scope, rulesets, e, &joined, node),
        Clause::Targets(targets) => targets_typing(alloc, scope, rulesets, targets, &joined, node),
        Clause::Keeping(kept) => keeping(alloc, &joined, node, kept),
        Clause::Rename(renames) => renaming(alloc, &joined, node, renames.as_slice()),
        Clause::Sub(parts) => sub(alloc, &scope.profile, node, parts.as_slice()),
        Clause::Pivot {
            identifier,
            measure,
        } => pivot(alloc, identifier, measure, node),
        Clause::Unpivot {
            identifier,
            measure,
        } => unpivot(alloc, identifier, measure, node),
    }
}

#[cycle(typing)]
fn filter_typing<R: Rulesets>(
    alloc: Global,
    scope: &Scope,
    rulesets: &R,
    e: &Expr,
    joined: &Option<Joined>,
    node: Box<Node>,
) -> Result<Box<Node>, TypeErr>
    ensures { Answers boxed_tree result (filter_typed (sight_in scope.now (R.called rulesets.now)) joined.now (boxed_tree node) (expr_tree e.now)) }
{
    let place = points(alloc, joined, &node)?;
    let condition = typing(alloc, scope, rulesets, &place, e)?;
    filter(alloc, node, condition)
}

// `calc` and `aggr`.
#[cycle(typing)]
fn targets_typing<R: Rulesets>(
    alloc: Global,
    scope: &Scope,
    rulesets: &R,
    targets: &Targets,
    joined: &Option<Joined>,
    node: Box<Node>,
) -> Result<Box<Node>, TypeErr>
    ensures { Answers boxed_tree result (targets_typed (sight_in scope.now (R.called rulesets.now)) joined.now (boxed_tree node) (targets_tree targets.now)) }
{
    match targets {
        Targets::Calc(parts) => {
            let place = points(alloc, joined, &node)?;
            let items = items(alloc, scope, rulesets, &place, parts, &node)?;
            calc(alloc, node, items)
        }
        Targets::Aggr {
            parts,
            group,
            having: condition,
        } => {
            let names = grouping_of(alloc, node.structure.components.as_slice(), group)?;
            let place = groups(alloc, joined, &node, names)?;
            let made = made(alloc, scope, rulesets, &place, parts)?;
            let names = grouping(alloc, node.structure.components.as_slice(), group)?;
            let condition = having_groups(alloc, scope, rulesets, condition, joined, &node, names)?;
            aggr(alloc, group, node, made, condition)
        }
    }
}

// The targets of `calc`: each name, then its value.
#[cycle(typing)]
fn items<R: Rulesets>(
    alloc: Global,
    scope: &Scope,
    rulesets: &R,
    place: &Place,
    parts: &[CalcPart],
    node: &Node,
) -> Result<Vec<CalcItem>, TypeErr>
    ensures { Answers items_view result (calcs_typed (sight_in scope.now (R.called rulesets.now)) place.now (node_tree node.now) [] (calcs_of (map calc_tree parts.now))) }
{
    let mut items = Vec::new(alloc);
    for part in parts {
        calc_name(node, &items, &part.component)?;
        let value = item_value(alloc, scope, rulesets, place, &part.value)?;
        push_item(&mut items, part.role, &part.component, value)?;
    }
    Ok(items)
}

// The value of a target of `calc`.
#[cycle(typing)]
fn item_value<R: Rulesets>(
    alloc: Global,
    scope: &Scope,
    rulesets: &R,
    place: &Place,
    e: &Expr,
) -> Result<CalcValue, TypeErr>
    ensures { Answers value_tree result (calc_value scope.now.profile place.now (expr_tree e.now) (typed (sight_in scope.now (R.called rulesets.now)) place.now (expr_tree e.now)) (over_operand (sight_in scope.now (R.called rulesets.now)) place.now (expr_tree e.now))) }
{
    match e {
        Expr::AggregateOver { operand, .. } => {
            let operand = maybe(alloc, scope, rulesets, place, operand)?;
            target(alloc, &scope.profile, place, e, operand)
        }
        Expr::ValueWindow { operand, .. } => {
            let operand = typing(alloc, scope, rulesets, place, operand)?;
            target(alloc, &scope.profile, place, e, Some(operand))
        }
        Expr::Shift { operand, .. } => {
            let operand = typing(alloc, scope, rulesets, place, operand)?;
            target(alloc, &scope.profile, place, e, Some(operand))
        }
        Expr::Rank(_) => target(alloc, &scope.profile, place, e, None),
        _ => scalar_value(typing(alloc, scope, rulesets, place, e)?),
    }
}

// The targets of `aggr`.
#[cycle(typing)]
fn made<R: Rulesets>(
    alloc: Global,
    scope: &Scope,
    rulesets: &R,
    place: &Place,
    parts: &[CalcPart],
) -> Result<Vec<Made>, TypeErr>
    ensures { Answers (λ v. v.items) result (aggrs_typed (sight_in scope.now (R.called rulesets.now)) place.now [] (calcs_of (map calc_tree parts.now))) }
{
    let mut made = Vec::new(alloc);
    for part in parts {
        aggr_name(&made, &part.component)?;
        let value = typing(alloc, scope, rulesets, place, &part.value)?;
        push_made(&mut made, part.role, &part.component, &part.value, value)?;
    }
    Ok(made)
}

// The operands of a join.
#[cycle(typing)]
fn join_parts<R: Rulesets>(
    alloc: Global,
    scope: &Scope,
    rulesets: &R,
    written: &[JoinPart],
) -> Result<Vec<Part>, TypeErr>
    ensures { Answers parts_view result (parts_typed (sight_in scope.now (R.called rulesets.now)) [] (parts_of (map part_tree written.now))) }
{
    let mut parts = Vec::new(alloc);
    for part in written {
        let operand = outside(alloc, scope, rulesets, &part.operand)?;
        push_part(&mut parts, &part.operand, &part.alias, operand)?;
    }
    Ok(parts)
}

// The filter of a join's body.
#[cycle(typing)]
fn filter_part<R: Rulesets>(
    alloc: Global,
    scope: &Scope,
    rulesets: &R,
    condition: &Option<Box<Expr>>,
    joined: &Option<Joined>,
    node: Box<Node>,
) -> Result<Box<Node>, TypeErr>
    ensures { Answers boxed_tree result (filter_step (sight_in scope.now (R.called rulesets.now)) joined.now (boxed_tree node) (maybe_tree condition.now)) }
{
    match condition {
        Some(e) => filter_typing(alloc, scope, rulesets, e, joined, node),
        None => Ok(node),
    }
}

// The joined set with the filter of the body.
#[cycle(typing)]
fn filtered_join<R: Rulesets>(
    alloc: Global,
    scope: &Scope,
    rulesets: &R,
    condition: &Option<Box<Expr>>,
    kind: JoinKind,
    using: &Option<List<Comp>>,
    operands: Vec<JoinOperand>,
    joined: &Option<Joined>,
) -> Result<Box<Node>, TypeErr>
    ensures { Answers boxed_tree result (filtered_join (sight_in scope.now (R.called rulesets.now)) joined.now (maybe_tree condition.now) kind «using».now (operands_view operands)) }
{
    let node = joined_node(alloc, kind, using, operands)?;
    filter_part(alloc, scope, rulesets, condition, joined, node)
}

// The body of a join after its filter.
#[cycle(typing)]
fn join_end<R: Rulesets>(
    alloc: Global,
    scope: &Scope,
    rulesets: &R,
    targets: &Option<Targets>,
    kept: &Option<Keeping>,
    renames: &Option<List<RenamePart>>,
    joined: Option<Joined>,
    node: Box<Node>,
) -> Result<Typed, TypeErr>
    ensures { Answers typed_tree result (join_end (sight_in scope.now (R.called rulesets.now)) joined (maybe_targets (option_map targets_tree targets.now)) kept.now renames.now (boxed_tree node)) }
{
    let node = targets_part(alloc, scope, rulesets, targets, &joined, node)?;
    body_end(alloc, &joined, kept, renames, node)
}

// `calc` or `aggr` of a join's body.
#[cycle(typing)]
fn targets_part<R: Rulesets>(
    alloc: Global,
    scope: &Scope,
    rulesets: &R,
    targets: &Option<Targets>,
    joined: &Option<Joined>,
    node: Box<Node>,
) -> Result<Box<Node>, TypeErr>
    ensures { Answers boxed_tree result (targets_step (sight_in scope.now (R.called rulesets.now)) joined.now (boxed_tree node) (maybe_targets (option_map targets_tree targets.now))) }
{
    match targets {
        Some(targets) => targets_typing(alloc, scope, rulesets, targets, joined, node),
        None => Ok(node),
    }
}

// `check` after its operand.
#[cycle(typing)]
fn check_behind<R: Rulesets>(
    alloc: Global,
    scope: &Scope,
    rulesets: &R,
    imbalance: &Option<Box<Expr>>,
    error: &ErrorPart,
    output: Option<BasicOut>,
    operand: Typed,
) -> Result<Typed, TypeErr>
    ensures { Answers typed_tree result (check_typed (sight_in scope.now (R.called rulesets.now)) error.now output (maybe_tree imbalance.now) (typed_tree operand)) }
{
    let place = Place::Outside;
    let spec = check_spec(&scope.profile, error, output)?;
    let imbalance = maybe(alloc, scope, rulesets, &place, imbalance)?;
    check(alloc, spec, operand, imbalance)
}

/// The typing of an expression at a place: its parts in written order, operands before operators. The first part that
/// breaks a rule is the fault, with the least rule that it breaks.
#[cycle(typing)]
pub fn typing<R: Rulesets>(
    alloc: Global,
    scope: &Scope,
    rulesets: &R,
    place: &Place,
    e: &Expr,
) -> Result<Typed, TypeErr>
    ensures { Answers typed_tree result (typed (sight_in scope.now (R.called rulesets.now)) place.now (expr_tree e.now)) }
{
    match e {
        Expr::If {
            condition,
            then,
            other,
        } => {
            let operands = next(alloc, scope, rulesets, place, condition, Vec::new(alloc))?;
            let operands = next(alloc, scope, rulesets, place, then, operands)?;
            let operands = next(alloc, scope, rulesets, place, other, operands)?;
            operator(alloc, place, ScalarOp::If, true, true, operands)
        }
        Expr::Binary { left, op, right } => {
            let operands = next(alloc, scope, rulesets, place, left, Vec::new(alloc))?;
            let operands = next(alloc, scope, rulesets, place, right, operands)?;
            operator(alloc, place, binary_operator(*op), true, true, operands)
        }
        Expr::InSet {
            operand,
            negated,
            literals,
        } => {
            let operand = typing(alloc, scope, rulesets, place, operand)?;
            set(
                alloc,
                &scope.profile,
                place,
                *negated,
                literals.as_slice(),
                operand,
            )
        }
        Expr::Unary { op, operand } => {
            let operands = next(alloc, scope, rulesets, place, operand, Vec::new(alloc))?;
            operator(alloc, place, unary_operator(*op), true, true, operands)
        }
        Expr::WithClause { operand, clause } => {
            let node = outside(alloc, scope, rulesets, operand)?.dataset()?;
            Ok(Typed::Dataset(clause_typing(alloc, scope, rulesets, clause, node)?))
        }
        Expr::Member { operand, component } => match member_inside(place, operand, component) {
            Some((inside, name)) => written(alloc, inside, name),
            None => {
                let node = outside(alloc, scope, rulesets, operand)?.dataset()?;
                member(alloc, component, node)
            }
        },
        Expr::Component(component) => name(alloc, scope, place, component),
        Expr::Constant(literal) => constant(alloc, &scope.profile, literal),
        Expr::Brackets(inner) => typing(alloc, scope, rulesets, place, inner),
        Expr::Function {
            function: called,
            operands: es,
        } => {
            let operands = all(alloc, scope, rulesets, place, es)?;
            function(alloc, &scope.profile, place, *called, es, operands)
        }
        Expr::Aggregate {
            function,
            operand,
            group,
            having,
        } => {
            let typed = aggregate_operand(alloc, scope, rulesets, place, operand)?;
            grouped(
                alloc, scope, rulesets, place, having, *function, operand, group, typed,
            )
        }
        Expr::AggregateOver { operand, .. } => {
            let operand = maybe(alloc, scope, rulesets, place, operand)?;
            over(alloc, &scope.profile, place, e, operand)
        }
        Expr::ValueWindow { operand, .. } => {
            let operand = typing(alloc, scope, rulesets, place, operand)?;
            over(alloc, &scope.profile, place, e, Some(operand))
        }
        Expr::Shift { operand, .. } => {
            let operand = typing(alloc, scope, rulesets, place, operand)?;
            over(alloc, &scope.profile, place, e, Some(operand))
        }
        Expr::Rank(_) => over(alloc, &scope.profile, place, e, None),
        Expr::SetOp {
            operator,
            operands: es,
        } => {
            let place = Place::Outside;
            let operands = all(alloc, scope, rulesets, &place, es)?;
            sets(alloc, *operator, operands)
        }
        Expr::Difference {
            operator,
            left,
            right,
        } => {
            let left = outside(alloc, scope, rulesets, left)?;
            difference_behind(alloc, scope, rulesets, right, *operator, left)
        }
        Expr::ExistsIn {
            left,
            right,
            retain,
        } => {
            let left = outside(alloc, scope, rulesets, left)?;
            exists_behind(alloc, scope, rulesets, right, *retain, left)
        }
        Expr::Time { operand, call } => {
            let operand = outside(alloc, scope, rulesets, operand)?;
            time(alloc, &scope.profile, call, operand)
        }
        Expr::Check {
            operand,
            error,
            imbalance,
            output,
        } => {
            let operand = outside(alloc, scope, rulesets, operand)?;
            check_behind(alloc, scope, rulesets, imbalance, error, *output, operand)
        }
        Expr::CheckDatapoint {
            operand,
            ruleset,
            output,
        } => {
            let operand = outside(alloc, scope, rulesets, operand)?;
            rulesets.datapoint(alloc, scope, ruleset, *output, operand)
        }
        Expr::CheckHierarchy {
            operand,
            ruleset,
            rule,
            mode,
            output,
            ..
        } => {
            let operand = outside(alloc, scope, rulesets, operand)?;
            rulesets.check_hierarchy(alloc, ruleset, rule, *mode, *output, operand)
        }
        Expr::Hierarchy {
            operand,
            ruleset,
            rule,
            mode,
            input,
            output,
        } => {
            let operand = outside(alloc, scope, rulesets, operand)?;
            rulesets.hierarchy(alloc, ruleset, rule, *mode, *input, *output, operand)
        }
        Expr::Join {
            kind,
            operands,
            using,
            filter,
            targets,
            keeping,
            renames,
        } => {
            let parts = join_parts(alloc, scope, rulesets, operands)?;
            let operands = joined_operands(alloc, parts)?;
            let joined = seen_by_body(alloc, *kind, &operands)?;
            let node = filtered_join(
                alloc, scope, rulesets, filter, *kind, using, operands, &joined,
            )?;
            join_end(
                alloc, scope, rulesets, targets, keeping, renames, joined, node,
            )
        }
    }
}
