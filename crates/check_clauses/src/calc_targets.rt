// The targets of `calc`, once their values are typed.
ghost use Rattle.std.specs.List.{list_any};
ghost use Rattle.std.specs.Prelude.{◌≡◌, IfOk, OnErr, map};
ghost use Rattle.vtl_tree.specs.NodeView.{form_tree, item_tree, node_tree, value_tree};
ghost use Rattle.check_faults.specs.Answers.{Answers};
ghost use Rattle.check_operators.specs.Typed.{boxed_tree};
ghost use Rattle.check_shapes.specs.Clauses.{calc_form};
ghost use Rattle.vtl_tree.specs.Names.{is_among};
ghost use Rattle.check_clauses.specs.Clauses.{made_of};
ghost use Rattle.check_clauses.specs.Targets.{calc_clause, calc_name, calc_tree, component_kind, is_analytic, item_names, role_of, target_of, value_kind, with_item};
ghost use Rattle.check_clauses.specs.TargetsView.{AnswersLeft, items_view};

use crate::targets::role_of;
use check_faults::{Rule, TypeErr, broken};
use check_operators::made_node;
use check_values::name;
use std::alloc::{AllocError, Global};
use vtl_cell::Kind;
use vtl_syntax::{Comp, WrittenRole};
use vtl_text::{List, Txt};
use vtl_tree::{
    AnalyticSpec, CalcItem, CalcValue, Component, Node, NodeForm, Structure, Target, component_of,
    given_kind, is_identifier_name, kind,
};

fn is_target(name: &Txt, done: &[CalcItem]) -> bool
    ensures { result ≡ is_among name.now (item_names (map item_tree done.now)) }
{
    for item in done {
        if item.target == *name {
            return true;
        }
    }
    false
}

/// The name of a target of `calc` after others: it breaks `RepeatedName` where it stands there already, and `WrongRole`
/// where it is that of an identifier.
pub fn calc_name(operand: &Node, done: &[CalcItem], component: &Comp) -> Result<(), TypeErr>
    ensures { Answers (λ done. done) result (calc_name (node_tree operand.now) (map item_tree done.now) component.now) }
{
    let name = name(component);
    broken(Rule::RepeatedName, is_target(name, done))?;
    broken(
        Rule::WrongRole,
        is_identifier_name(operand.structure.components.as_slice(), name),
    )
}

/// One more target of `calc` after others, which are left as they were if memory runs out.
pub fn push_item(
    done: &mut Vec<CalcItem>,
    role: Option<WrittenRole>,
    component: &Comp,
    value: CalcValue,
) -> Result<(), TypeErr>
    ensures typing { AnswersLeft items_view result done.new (with_item role component.now (items_view done.old) (value_tree value)) }
    ensures err { OnErr result (done.new.items ≡ done.old.items) }
{
    let target = name(component).share()?;
    done.push(CalcItem {
        role: role_of(role),
        target,
        value,
    })?;
    Ok(())
}

fn component_kind(components: &[Component], name: &Option<Txt>) -> Kind
    ensures { result ≡ component_kind components.now name.now }
{
    let Some(name) = name else {
        return Kind::Null;
    };
    match component_of(name, components) {
        Some(component) => component.kind,
        None => Kind::Null,
    }
}

fn value_kind(components: &[Component], value: &CalcValue) -> Kind
    ensures { result ≡ value_kind components.now (value_tree value.now) }
{
    match value {
        CalcValue::Scalar(e) => kind(e),
        CalcValue::Analytic(call) => {
            given_kind(&call.op, component_kind(components, &call.component))
        }
    }
}

fn target_of(components: &[Component], item: &CalcItem) -> Result<Target, AllocError>
    ensures { IfOk result (λ t. t ≡ target_of components.now (item_tree item.now)) }
{
    Ok(Target {
        name: item.target.share()?,
        role: item.role,
        kind: value_kind(components, &item.value),
    })
}

fn targets_of(
    alloc: Global,
    components: &[Component],
    items: &[CalcItem],
) -> Result<Vec<Target>, AllocError>
    ensures { IfOk result (λ v. v.items ≡ map (target_of components.now) (map item_tree items.now)) }
{
    let mut targets = Vec::new(alloc);
    for item in items {
        targets.push(target_of(components, item)?)?;
    }
    Ok(targets)
}

fn calc_structure(
    alloc: Global,
    structure: &Structure,
    items: &[CalcItem],
) -> Result<Structure, TypeErr>
    ensures { Answers (λ s. s) result (calc_form (map (target_of structure.now.components) (map item_tree items.now)) structure.now.components) }
{
    let targets = targets_of(alloc, structure.components.as_slice(), items)?;
    check_shapes::calc(alloc, structure, &targets)
}

fn is_analytic(item: &CalcItem) -> bool
    ensures { result ≡ is_analytic (item_tree item.now) }
{
    match item.value {
        CalcValue::Scalar(_) => false,
        CalcValue::Analytic(_) => true,
    }
}

fn any_analytic(items: &[CalcItem]) -> bool
    ensures { result ≡ list_any is_analytic (map item_tree items.now) }
{
    for item in items {
        if is_analytic(item) {
            return true;
        }
    }
    false
}

fn form_of(operand: Box<Node>, items: Vec<CalcItem>) -> NodeForm
    ensures { form_tree result ≡ calc_tree (boxed_tree operand) (items_view items) }
{
    let is_windowed = any_analytic(&items);
    let items = List::of(items);
    if is_windowed {
        NodeForm::Analytic {
            a: operand,
            spec: AnalyticSpec::Calc(items),
        }
    } else {
        NodeForm::Calc { a: operand, items }
    }
}

fn made_calc(
    alloc: Global,
    structure: Structure,
    operand: Box<Node>,
    items: Vec<CalcItem>,
) -> Result<Box<Node>, TypeErr>
    ensures { Answers boxed_tree result (made_of (calc_tree (boxed_tree operand) (items_view items)) structure) }
{
    made_node(alloc, structure, form_of(operand, items))
}

/// `calc`, once its targets are typed. It breaks `ComponentCount` and `NullKind`.
#[tactic(auto, using(crate::proofs::ClauseErrors::refused), unfolding(crate::specs::Targets::calc_clause))]
pub fn calc(alloc: Global, operand: Box<Node>, items: Vec<CalcItem>) -> Result<Box<Node>, TypeErr>
    ensures { Answers boxed_tree result (calc_clause (boxed_tree operand) (items_view items)) }
{
    match calc_structure(alloc, &operand.structure, &items) {
        Ok(structure) => made_calc(alloc, structure, operand, items),
        Err(error) => Err(error),
    }
}
