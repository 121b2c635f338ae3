// The targets of `aggr`, once their values are typed.
ghost use Rattle.std.specs.Option.{option_map};
ghost use Rattle.std.specs.Prelude.{◌≡◌, IfOk, OnErr, map};
ghost use Rattle.vtl_tree.specs.Trees as tree;
ghost use Rattle.vtl_tree.specs.NodeView.{agg_tree, node_tree};
ghost use Rattle.check_clauses.specs.Clauses.{made_of};
ghost use Rattle.check_faults.specs.Answers.{Answers};
ghost use Rattle.vtl_syntax.specs.View.{expr_tree};
ghost use Rattle.vtl_tree.specs.View.{comp_exp_of};
ghost use Rattle.check_operators.specs.Typed.{boxed_tree, typed_tree};
ghost use Rattle.check_values.specs.Groupings.{grouping_choice as choice_by, grouping_names as names_by};
ghost use Rattle.check_shapes.specs.Clauses.{aggr_form};
ghost use Rattle.vtl_tree.specs.Names.{is_among as among};
ghost use Rattle.check_clauses.specs.Targets.{aggr_clause, aggr_name, call_in, grouped, is_aggregate, made_as, made_names, made_target, targets_in, with_made};
ghost use Rattle.check_clauses.specs.TargetsView.{AnswersLeft};

use crate::Made;
use crate::targets::role_of;
use check_faults::{Rule, TypeErr, broken};
use check_operators::{Typed, made_node};
use check_values::{grouping_choice, grouping_names, grouping_of, name};
use std::alloc::{AllocError, Global};
use vtl_cell::Kind;
use vtl_syntax::{Comp, Expr, GroupPart, WrittenRole};
use vtl_text::{List, Txt};
use vtl_tree::{
    AggCall, AggItems, AggSpec, AggTarget, CompExpr, Node, NodeForm, Structure, Target,
};

fn is_target(name: &Txt, done: &[Made]) -> bool
    ensures { result ≡ among name.now (made_names done.now) }
{
    for made in done {
        if made.target.target == *name {
            return true;
        }
    }
    false
}

/// The name of a target of `aggr` after others: it breaks `RepeatedName` where it stands there already.
pub fn aggr_name(done: &[Made], component: &Comp) -> Result<(), TypeErr>
    ensures { Answers (λ done. done) result (aggr_name done.now component.now) }
{
    broken(Rule::RepeatedName, is_target(name(component), done))
}

fn is_aggregate(e: &Expr) -> bool
    ensures { result ≡ is_aggregate (expr_tree e.now) }
{
    match e {
        Expr::Aggregate { .. } => true,
        _ => false,
    }
}

// The call that a target is, where it is written as one.
fn call_in(is_call: bool, e: &CompExpr) -> Result<(AggCall, Kind), TypeErr>
    ensures { Answers (λ call. call) result (call_in is_call (comp_exp_of e.now)) }
{
    match e {
        CompExpr::Aggregate { call, kind } if is_call => Ok((call.share()?, *kind)),
        _ => Err(TypeErr::Broken(Rule::AggregateMisuse)),
    }
}

fn made_as(
    role: Option<WrittenRole>,
    component: &Comp,
    call: (AggCall, Kind),
) -> Result<Made, AllocError>
    ensures { IfOk result (λ made. made ≡ made_as role component.now call) }
{
    let target = name(component).share()?;
    let (call, kind) = call;
    let target = AggTarget {
        role: role_of(role),
        target,
        call,
    };
    Ok(Made { target, kind })
}

/// One more target of `aggr` after others: it breaks `DatasetOrValue` where it is a data set, and `AggregateMisuse`
/// where it is no aggregate call. If it fails, the others are left as they were.
#[tactic(auto, unfolding(crate::specs::Targets::with_made))]
pub fn push_made(
    done: &mut Vec<Made>,
    role: Option<WrittenRole>,
    component: &Comp,
    call: &Expr,
    value: Typed,
) -> Result<(), TypeErr>
    ensures typing { AnswersLeft (λ v. v.items) result done.new (with_made role component.now (expr_tree call.now) done.old.items (typed_tree value)) }
    ensures err { OnErr result (done.new.items ≡ done.old.items) }
{
    let value = value.value()?;
    let call = call_in(is_aggregate(call), &value)?;
    done.push(made_as(role, component, call)?)?;
    Ok(())
}

fn made_target(made: &Made) -> Result<Target, AllocError>
    ensures { IfOk result (λ t. t ≡ made_target made.now) }
{
    Ok(Target {
        name: made.target.target.share()?,
        role: made.target.role,
        kind: made.kind,
    })
}

fn made_targets(alloc: Global, made: &[Made]) -> Result<Vec<Target>, AllocError>
    ensures { IfOk result (λ v. v.items ≡ map made_target made.now) }
{
    let mut targets = Vec::new(alloc);
    for made in made {
        targets.push(made_target(made)?)?;
    }
    Ok(targets)
}

fn aggr_structure(
    alloc: Global,
    group: &Option<GroupPart>,
    structure: &Structure,
    made: &[Made],
) -> Result<Structure, TypeErr>
    ensures { Answers (λ s. s) result (aggr_form (choice_by group.now) (names_by group.now) (map made_target made.now) structure.now.components) }
{
    let names = grouping_names(alloc, group)?;
    let targets = made_targets(alloc, made)?;
    check_shapes::aggr(alloc, grouping_choice(group), &names, structure, &targets)
}

fn targets_in(alloc: Global, made: Vec<Made>) -> Result<Vec<AggTarget>, AllocError>
    ensures { IfOk result (λ v. v.items ≡ targets_in made.items) }
{
    let mut targets = Vec::new(alloc);
    for made in made {
        targets.push(made.target)?;
    }
    Ok(targets)
}

// The targets, the grouping and the condition of groups as the form of a data set.
fn made_aggregate(
    alloc: Global,
    structure: Structure,
    operand: Box<Node>,
    spec: AggSpec,
) -> Result<Box<Node>, TypeErr>
    ensures { Answers boxed_tree result (made_of (tree.aggregate (boxed_tree operand) (agg_tree spec)) structure) }
{
    made_node(alloc, structure, NodeForm::Aggregate { a: operand, spec })
}

fn aggr_spec(
    alloc: Global,
    grouping: List<Txt>,
    made: Vec<Made>,
    having: Option<CompExpr>,
) -> Result<AggSpec, AllocError>
    ensures { IfOk result (λ spec. agg_tree spec ≡ record { items = AggItems.Targets (targets_in made.items); grouping = grouping; having = option_map comp_exp_of having }) }
{
    let targets = targets_in(alloc, made)?;
    Ok(AggSpec {
        items: AggItems::Targets(List::of(targets)),
        grouping,
        having,
    })
}

fn aggregated(
    alloc: Global,
    structure: Structure,
    grouping: List<Txt>,
    operand: Box<Node>,
    made: Vec<Made>,
    having: Option<CompExpr>,
) -> Result<Box<Node>, TypeErr>
    ensures { Answers boxed_tree result (made_of (tree.aggregate (boxed_tree operand) (record { items = AggItems.Targets (targets_in made.items); grouping = grouping; having = option_map comp_exp_of having })) structure) }
{
    let spec = aggr_spec(alloc, grouping, made, having)?;
    made_aggregate(alloc, structure, operand, spec)
}

// The structure of an aggregate, and the identifiers by which it is grouped.
fn grouped(
    alloc: Global,
    group: &Option<GroupPart>,
    operand: &Node,
    made: &[Made],
) -> Result<(Structure, List<Txt>), TypeErr>
    ensures { Answers (λ of. of) result (grouped group.now (node_tree operand.now) made.now) }
{
    let structure = aggr_structure(alloc, group, &operand.structure, made)?;
    let names = grouping_of(alloc, operand.structure.components.as_slice(), group)?;
    Ok((structure, names))
}

/// `aggr`, once its targets, its grouping and the condition of groups are typed. It breaks `RepeatedComponent`,
/// `ComponentCount` and `NullKind`.
#[tactic(auto, unfolding(crate::specs::Targets::aggr_clause))]
pub fn aggr(
    alloc: Global,
    group: &Option<GroupPart>,
    operand: Box<Node>,
    made: Vec<Made>,
    having: Option<CompExpr>,
) -> Result<Box<Node>, TypeErr>
    ensures { Answers boxed_tree result (aggr_clause group.now (boxed_tree operand) made.items (option_map comp_exp_of having)) }
{
    let (structure, grouping) = grouped(alloc, group, &operand, &made)?;
    aggregated(alloc, structure, grouping, operand, made, having)
}
