// The constants of a checked script are values that a program holds. A tree does not show it, so the program's own values
// are asked, one by one.
ghost use Rattle.std.specs.List.{AllByRecursion};
ghost use Rattle.std.specs.Option.{IfSome, option_map};
ghost use Rattle.std.specs.Prelude.{◌<◌, ◌^◌, length};
ghost use Rattle.vtl_cell.specs.Held.{IsHeld};
ghost use Rattle.vtl_cell.specs.declared.cell.Cell.TheVariants as c;
ghost use Rattle.vtl_tree.specs.Names.{name_of};
ghost use Rattle.vtl_tree.specs.RuleItems.{signed_item};
ghost use Rattle.vtl_tree.specs.View.{comp_exp_of};
ghost use Rattle.vtl_tree.specs.NodeView.{analytic_tree, node_tree, point_rule_tree, value_tree};
ghost use Rattle.vtl_meaning.specs.Operators.{value_exp};
ghost use Rattle.vtl_check.specs.Checked.{nodes_of};
ghost use Rattle.expressions_to_sql.specs.Held.{HoldsValues};
ghost use Rattle.rules_to_sql.specs.Writable.{AreErrorsHeld};
ghost use Rattle.vtl_to_sql.specs.Accepted.{AnalyticHoldsValues, AreHeld, HoldsParts, MadeHoldsValues, OperatorHoldsValue, RuleHoldsValues, RulesHoldTexts, SidesHoldTexts};

use std::alloc::Global;
use vtl_cell::{Cell, write_cell};
use vtl_check::Checked;
use vtl_decimal::Profile;
use vtl_syntax::{Comp, HierRule, SignedComp};
use vtl_text::Txt;
use vtl_tree::{
    AnalyticOp, AnalyticSpec, CalcItem, CalcValue, CompExpr, DatapointRule, JoinOperand, Node,
    NodeForm, SubItem,
};

// A value is one that a program holds, whether or not there is memory to write it.
fn cell_is_held(alloc: Global, cell: &Cell, p: &Profile)
    ensures { IsHeld cell.now }
{
    let mut text = Vec::new(alloc);
    let _written = write_cell(cell, p, &mut text);
}

#[cycle(expressions)]
fn expression_is_held(alloc: Global, e: &CompExpr, p: &Profile)
    ensures { HoldsValues (comp_exp_of e.now) }
{
    match e {
        CompExpr::Const(cell) => cell_is_held(alloc, cell, p),
        CompExpr::Apply { args, .. } => expressions_are_held(alloc, args, p),
        CompExpr::Column { .. } => {}
        CompExpr::Aggregate { .. } => {}
    }
}

#[cycle(expressions)]
fn expressions_are_held(alloc: Global, exps: &[CompExpr], p: &Profile)
    ensures { AllByRecursion (λ e. HoldsValues (comp_exp_of e)) exps.now }
{
    for e in exps {
        expression_is_held(alloc, e, p);
    }
}

// The default of `lag` and `lead`.
fn default_is_held(alloc: Global, op: &AnalyticOp, p: &Profile)
    ensures { OperatorHoldsValue op.now }
{
    match op {
        AnalyticOp::Lag { default, .. } | AnalyticOp::Lead { default, .. } => {
            cell_is_held(alloc, default, p)
        }
        _ => {}
    }
}

fn value_is_held(alloc: Global, value: &CalcValue, p: &Profile)
    ensures exp { HoldsValues (value_exp (value_tree value.now)) }
    ensures made { MadeHoldsValues (value_tree value.now) }
{
    match value {
        CalcValue::Scalar(e) => expression_is_held(alloc, e, p),
        CalcValue::Analytic(call) => default_is_held(alloc, &call.op, p),
    }
}

fn targets_are_held(alloc: Global, targets: &[CalcItem], p: &Profile)
    ensures exps { AllByRecursion (λ i. HoldsValues (value_exp (value_tree i.value))) targets.now }
    ensures made { AllByRecursion (λ i. MadeHoldsValues (value_tree i.value)) targets.now }
{
    for target in targets {
        value_is_held(alloc, &target.value, p);
    }
}

fn analytic_is_held(alloc: Global, spec: &AnalyticSpec, p: &Profile)
    ensures { AnalyticHoldsValues (analytic_tree spec.now) }
{
    match spec {
        AnalyticSpec::Measures { op, .. } => default_is_held(alloc, op, p),
        AnalyticSpec::Calc(targets) => targets_are_held(alloc, targets.as_slice(), p),
    }
}

fn values_are_held(alloc: Global, values: &[SubItem], p: &Profile)
    ensures { AllByRecursion (λ i. IsHeld i.value) values.now }
{
    for item in values {
        cell_is_held(alloc, &item.value, p);
    }
}

fn condition_is_held(alloc: Global, condition: &Option<CompExpr>, p: &Profile)
    ensures { IfSome (option_map comp_exp_of condition.now) HoldsValues }
{
    if let Some(e) = condition {
        expression_is_held(alloc, e, p);
    }
}

// A text is one that a program holds: its characters are read.
fn text_is_held(text: &Option<Txt>)
    ensures { IfSome text.now (λ t. IsHeld (c.Text t)) }
{
    if let Some(text) = text {
        let _characters = text.as_str();
    }
}

fn level_is_held(level: &Option<i64>)
    ensures { IfSome level.now (λ n. IsHeld (c.Int n)) }
{
    if let Some(level) = level {
        let _level = *level;
    }
}

fn errors_are_held(code: &Option<Txt>, level: &Option<i64>)
    ensures { AreErrorsHeld code.now level.now }
{
    text_is_held(code);
    level_is_held(level);
}

fn rule_is_held(alloc: Global, rule: &DatapointRule, p: &Profile)
    ensures { RuleHoldsValues (point_rule_tree rule.now) }
{
    text_is_held(&rule.name);
    condition_is_held(alloc, &rule.antecedent, p);
    expression_is_held(alloc, &rule.condition, p);
    errors_are_held(&rule.errorcode, &rule.errorlevel);
}

// They can be numbered, too.
fn rules_are_held(alloc: Global, rules: &[DatapointRule], p: &Profile)
    ensures rules { AllByRecursion (λ r. RuleHoldsValues (point_rule_tree r)) rules.now }
    ensures few { length rules.now < 2 ^ 64 }
{
    let _numbered = rules.len();
    for rule in rules {
        rule_is_held(alloc, rule, p);
    }
}

// The name of an item, quoted or not.
fn item_is_held(item: &Comp)
    ensures { IsHeld (c.Text (name_of item.now)) }
{
    match item {
        Comp::Name(name) | Comp::Quoted(name) => {
            let _characters = name.as_str();
        }
    }
}

fn items_are_held(items: &[SignedComp])
    ensures { AllByRecursion (λ x. IsHeld (c.Text (signed_item x))) items.now }
{
    for item in items {
        item_is_held(&item.item);
    }
}

// The texts of a hierarchical rule.
fn sides_are_held(rule: &HierRule)
    ensures { SidesHoldTexts rule.now }
{
    text_is_held(&rule.name);
    item_is_held(&rule.item);
    item_is_held(&rule.first);
    items_are_held(rule.others.as_slice());
    text_is_held(&rule.error.code);
}

// They can be numbered, too.
fn hierarchy_is_held(rules: &[HierRule])
    ensures { RulesHoldTexts rules.now }
{
    let _numbered = rules.len();
    for rule in rules {
        sides_are_held(rule);
    }
}

#[cycle(constants)]
fn node_is_held(alloc: Global, node: &Node, p: &Profile)
    ensures { HoldsParts (node_tree node.now) }
{
    match &node.form {
        NodeForm::Named(_) => {}
        NodeForm::Measures { op, a } => {
            expressions_are_held(alloc, op.before.as_slice(), p);
            expressions_are_held(alloc, op.after.as_slice(), p);
            node_is_held(alloc, a, p)
        }
        NodeForm::Filter { a, c } => {
            expression_is_held(alloc, c, p);
            node_is_held(alloc, a, p)
        }
        NodeForm::Calc { a, items } => {
            targets_are_held(alloc, items.as_slice(), p);
            node_is_held(alloc, a, p)
        }
        NodeForm::Sub { a, values } => {
            values_are_held(alloc, values.as_slice(), p);
            node_is_held(alloc, a, p)
        }
        NodeForm::Aggregate { a, spec } => {
            condition_is_held(alloc, &spec.having, p);
            node_is_held(alloc, a, p)
        }
        NodeForm::Analytic { a, spec } => {
            analytic_is_held(alloc, spec, p);
            node_is_held(alloc, a, p)
        }
        NodeForm::Time { a, .. } => node_is_held(alloc, a, p),
        NodeForm::Member { a, .. } => node_is_held(alloc, a, p),
        NodeForm::Keep { a, .. } => node_is_held(alloc, a, p),
        NodeForm::DropNamed { a, .. } => node_is_held(alloc, a, p),
        NodeForm::Rename { a, .. } => node_is_held(alloc, a, p),
        NodeForm::Pivot { a, .. } => node_is_held(alloc, a, p),
        NodeForm::Unpivot { a, .. } => node_is_held(alloc, a, p),
        NodeForm::Choose { c, a, b } => {
            node_is_held(alloc, c, p);
            node_is_held(alloc, a, p);
            node_is_held(alloc, b, p)
        }
        NodeForm::Pair { a, b, .. } => {
            node_is_held(alloc, a, p);
            node_is_held(alloc, b, p)
        }
        NodeForm::SetDiff { a, b } => {
            node_is_held(alloc, a, p);
            node_is_held(alloc, b, p)
        }
        NodeForm::SymDiff { a, b } => {
            node_is_held(alloc, a, p);
            node_is_held(alloc, b, p)
        }
        NodeForm::ExistsIn { a, b, .. } => {
            node_is_held(alloc, a, p);
            node_is_held(alloc, b, p)
        }
        NodeForm::Check { a, imbalance, spec } => {
            errors_are_held(&spec.errorcode, &spec.errorlevel);
            maybe_is_held(alloc, imbalance, p);
            node_is_held(alloc, a, p)
        }
        NodeForm::CheckDatapoint { a, rules, .. } => {
            rules_are_held(alloc, rules.rules.as_slice(), p);
            node_is_held(alloc, a, p)
        }
        NodeForm::Union(nodes) => nodes_are_held(alloc, nodes, p),
        NodeForm::Intersect(nodes) => nodes_are_held(alloc, nodes, p),
        NodeForm::Join { operands, .. } => {
            let _numbered = operands.len() + 1;
            operands_are_held(alloc, operands, p)
        }
        NodeForm::CheckHierarchy { a, rules, .. } => {
            hierarchy_is_held(rules.rules.as_slice());
            node_is_held(alloc, a, p)
        }
        NodeForm::Hierarchy { a, rules, .. } => {
            hierarchy_is_held(rules.rules.as_slice());
            node_is_held(alloc, a, p)
        }
    }
}

#[cycle(constants)]
fn maybe_is_held(alloc: Global, node: &Option<Box<Node>>, p: &Profile)
    ensures { IfSome node.now (λ n. HoldsParts (node_tree n.value)) }
{
    if let Some(node) = node {
        node_is_held(alloc, node, p);
    }
}

#[cycle(constants)]
fn operands_are_held(alloc: Global, operands: &[JoinOperand], p: &Profile)
    ensures { AllByRecursion (λ o. HoldsParts (node_tree o.node)) operands.now }
{
    for operand in operands {
        node_is_held(alloc, &operand.node, p);
    }
}

#[cycle(constants)]
fn nodes_are_held(alloc: Global, nodes: &[Node], p: &Profile)
    ensures { AllByRecursion (λ n. HoldsParts (node_tree n)) nodes.now }
{
    for node in nodes {
        node_is_held(alloc, node, p);
    }
}

/// The constants of a checked script are values that a program holds.
pub fn constants_are_held(alloc: Global, script: &Checked)
    ensures { AreHeld (nodes_of script.now) }
{
    nodes_are_held(alloc, script.nodes(), script.profile())
}
