// Calls of hierarchical rulesets.
ghost use Rattle.std.specs.Option.{option_map};
ghost use Rattle.std.specs.Prelude.{◌≡◌, map};
ghost use Rattle.vtl_syntax.specs.View.{statement_tree};
ghost use Rattle.check_faults.specs.Answers.{Answers};
ghost use Rattle.check_operators.specs.Typed.{boxed_tree, typed_tree};
ghost use Rattle.check_expressions.specs.Defined.{hier_definition_view};
ghost use Rattle.check_expressions.specs.Rulesets.{check_called, check_hierarchy_typed, hier_definition, hierarchy_called, hierarchy_typed, variable_of};

use check_faults::{Rule, TypeErr, broken};
use check_operators::{Typed, made_of};
use check_rules::{hierarchy_checked, hierarchy_made, hierarchy_order, share_rules};
use check_values::name;
use std::alloc::Global;
use vtl_syntax::{CheckOut, Comp, HierInput, HierOut, HierRule, Mode, Statement};
use vtl_text::Txt;
use vtl_tree::{HierRules, Node, NodeForm};

// The parts of a hierarchical ruleset that a call asks for.
#[derive(Clone, Copy)]
struct HierDefinition<'a> {
    item: &'a Txt,
    rules: &'a [HierRule],
}

fn hier_definition<'a>(statement: Option<&'a Statement>) -> Result<HierDefinition<'a>, TypeErr>
    ensures { Answers hier_definition_view result (hier_definition (option_map (λ s. statement_tree s.now) statement.entry)) }
{
    match statement {
        Some(Statement::Hierarchical { item, rules, .. }) => Ok(HierDefinition {
            item: name(item),
            rules: rules.as_slice(),
        }),
        _ => Err(TypeErr::Broken(Rule::UnknownRuleset)),
    }
}

// The component of the items, which the call may name.
fn variable_of(rule: &Option<Comp>, definition: &HierDefinition) -> Result<Txt, TypeErr>
    ensures { Answers (λ variable. variable) result (variable_of rule.now (hier_definition_view definition.now)) }
{
    if let Some(component) = rule {
        broken(Rule::UnknownRuleset, name(component) != definition.item)?;
    }
    Ok(definition.item.share()?)
}

fn check_typed(
    alloc: Global,
    mode: Mode,
    out: CheckOut,
    rules: &[HierRule],
    variable: Txt,
    node: Box<Node>,
) -> Result<Typed, TypeErr>
    ensures { Answers typed_tree result (check_hierarchy_typed mode out rules.now variable (boxed_tree node)) }
{
    let structure = hierarchy_checked(alloc, out, &variable, &node.structure)?;
    let rules = HierRules {
        variable,
        rules: share_rules(alloc, rules)?,
        order: None,
    };
    made_of(
        alloc,
        structure,
        NodeForm::CheckHierarchy {
            a: node,
            rules,
            mode,
            out,
        },
    )
}

fn hierarchy_typed(
    alloc: Global,
    mode: Mode,
    input: HierInput,
    out: HierOut,
    rules: &[HierRule],
    variable: Txt,
    node: Box<Node>,
) -> Result<Typed, TypeErr>
    ensures { Answers typed_tree result (hierarchy_typed mode input out rules.now variable (boxed_tree node)) }
{
    let structure = hierarchy_made(alloc, &variable, &node.structure)?;
    let order = hierarchy_order(alloc, rules)?;
    let rules = HierRules {
        variable,
        rules: share_rules(alloc, rules)?,
        order: Some(order),
    };
    made_of(
        alloc,
        structure,
        NodeForm::Hierarchy {
            a: node,
            rules,
            mode,
            input,
            out,
        },
    )
}

/// `check_hierarchy` of the hierarchical ruleset that a statement defines. It breaks `UnknownRuleset` where there is
/// none, where the statement defines one of data points, and where the call names another component than its variable.
pub(crate) fn check_called(
    alloc: Global,
    statement: Option<&Statement>,
    rule: &Option<Comp>,
    mode: Option<Mode>,
    output: Option<CheckOut>,
    operand: Typed,
) -> Result<Typed, TypeErr>
    ensures { Answers typed_tree result (check_called (option_map (λ s. statement_tree s.now) statement.entry) rule.now mode output (typed_tree operand)) }
{
    let definition = hier_definition(statement)?;
    let variable = variable_of(rule, &definition)?;
    let node = operand.dataset()?;
    let mode = mode.unwrap_or(Mode::NonNull);
    let out = output.unwrap_or(CheckOut::Invalid);
    check_typed(alloc, mode, out, definition.rules, variable, node)
}

/// `hierarchy` of the hierarchical ruleset that a statement defines. It breaks `UnknownRuleset` where `check_called`
/// does.
pub(crate) fn hierarchy_called(
    alloc: Global,
    statement: Option<&Statement>,
    rule: &Option<Comp>,
    mode: Option<Mode>,
    input: Option<HierInput>,
    output: Option<HierOut>,
    operand: Typed,
) -> Result<Typed, TypeErr>
    ensures { Answers typed_tree result (hierarchy_called (option_map (λ s. statement_tree s.now) statement.entry) rule.now mode input output (typed_tree operand)) }
{
    let definition = hier_definition(statement)?;
    let variable = variable_of(rule, &definition)?;
    let node = operand.dataset()?;
    let mode = mode.unwrap_or(Mode::NonNull);
    let input = input.unwrap_or(HierInput::Rule);
    let out = output.unwrap_or(HierOut::Computed);
    hierarchy_typed(alloc, mode, input, out, definition.rules, variable, node)
}
