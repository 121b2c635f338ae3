// Calls of datapoint rulesets.
//
// A condition is typed at each call, over the variables of its ruleset alone. It calls no ruleset.
ghost use Rattle.std.specs.Option.{option_map};
ghost use Rattle.std.specs.Prelude.{◌≡◌, IfOk, map};
ghost use Rattle.vtl_syntax.specs.View.{expr_tree, statement_tree};
ghost use Rattle.vtl_syntax.specs.View.{point_rule_tree as written_rule};
ghost use Rattle.vtl_tree.specs.NodeView.{node_tree, point_rule_tree};
ghost use Rattle.vtl_tree.specs.View.{comp_exp_of};
ghost use Rattle.check_faults.specs.Answers.{Answers};
ghost use Rattle.check_operators.specs.Places.{env_of};
ghost use Rattle.check_operators.specs.Sets.{level_typed};
ghost use Rattle.check_operators.specs.Typed.{boxed_tree, typed_tree};
ghost use Rattle.check_operators.specs.declared.places.Place.TheVariants as at;
ghost use Rattle.check_expressions.specs.Defined.{point_definition_view};
ghost use Rattle.check_expressions.specs.Rulesets.{antecedent_typed, at_variables, checked_points, condition_typed, datapoint_called, datapoint_typed, point_definition, point_rule_typed, point_rules_typed, seeing};

use crate::{NoRulesets, typing};
use check_faults::{Rule, TypeErr, broken};
use check_operators::{Inside, Place, Scope, Typed, condition, made_of, points};
use check_rules::{point_checked, seen_columns, sees_names, variables_known};
use check_values::share_text;
use std::alloc::{AllocError, Global};
use vtl_cell::integer_written;
use vtl_decimal::Profile;
use vtl_syntax::{CheckOut, Comp, Expr, PointRule, Statement};
use vtl_text::{List, Txt};
use vtl_tree::{CompExpr, DatapointRule, DatapointRules, Node, NodeForm};

// The parts of a datapoint ruleset that a call asks for.
#[derive(Clone, Copy)]
struct PointDefinition<'a> {
    variables: &'a [Comp],
    rules: &'a [PointRule],
}

fn point_definition<'a>(statement: Option<&'a Statement>) -> Result<PointDefinition<'a>, TypeErr>
    ensures { Answers point_definition_view result (point_definition (option_map (λ s. statement_tree s.now) statement.entry)) }
{
    match statement {
        Some(
            Statement::Datapoint {
                variables,
                rules,
                ..
            },
        ) => Ok(PointDefinition {
            variables: variables.as_slice(),
            rules: rules.as_slice(),
        }),
        _ => Err(TypeErr::Broken(Rule::UnknownRuleset)),
    }
}

// A place whose names are variables alone.
fn seeing(alloc: Global, names: &[Txt], place: Place) -> Result<Place, AllocError>
    ensures { IfOk result (λ at. at ≡ seeing names.now place) }
{
    match place {
        Place::Outside => Ok(Place::Outside),
        Place::Inside(inside) => Ok(Place::Inside(Inside {
            components: seen_columns(alloc, names, inside.components)?,
            grouping: inside.grouping,
            joined: inside.joined,
        })),
    }
}

// The points of an operand, as conditions see them.
fn at_variables(alloc: Global, names: &[Txt], node: &Node) -> Result<Place, AllocError>
    ensures { IfOk result (λ place. place ≡ at.Inside (at_variables names.now (node_tree node.now))) }
{
    let place = points(alloc, &None, node)?;
    seeing(alloc, names, place)
}

fn condition_typed(
    alloc: Global,
    scope: &Scope,
    place: &Place,
    e: &Expr,
) -> Result<CompExpr, TypeErr>
    ensures { Answers comp_exp_of result (condition_typed (env_of scope.now) place.now (expr_tree e.now)) }
{
    let condition = condition(typing(alloc, scope, &NoRulesets, place, e)?)?;
    broken(Rule::UnknownComponent, !sees_names(&condition))?;
    Ok(condition)
}

fn antecedent_typed(
    alloc: Global,
    scope: &Scope,
    place: &Place,
    when: &Option<Expr>,
) -> Result<Option<CompExpr>, TypeErr>
    ensures { Answers (option_map comp_exp_of) result (antecedent_typed (env_of scope.now) place.now (option_map expr_tree when.now)) }
{
    match when {
        Some(e) => Ok(Some(condition_typed(alloc, scope, place, e)?)),
        None => Ok(None),
    }
}

// The level of an error.
fn level(profile: &Profile, digits: &Option<Txt>) -> Result<Option<i64>, TypeErr>
    ensures { Answers (λ level. level) result (level_typed profile.now digits.now) }
{
    let Some(digits) = digits else {
        return Ok(None);
    };
    match integer_written(profile, digits) {
        Some(level) => Ok(Some(level)),
        None => Err(TypeErr::Broken(Rule::WrongLiteral)),
    }
}

fn rule_typed(
    alloc: Global,
    scope: &Scope,
    place: &Place,
    rule: &PointRule,
) -> Result<DatapointRule, TypeErr>
    ensures { Answers point_rule_tree result (point_rule_typed (env_of scope.now) place.now (written_rule rule.now)) }
{
    let antecedent = antecedent_typed(alloc, scope, place, &rule.when)?;
    let condition = condition_typed(alloc, scope, place, &rule.holds)?;
    let errorlevel = level(&scope.profile, &rule.error.level)?;
    let errorcode = share_text(&rule.error.code)?;
    let name = share_text(&rule.name)?;
    Ok(DatapointRule {
        name,
        antecedent,
        condition,
        errorcode,
        errorlevel,
    })
}

fn rules_typed(
    alloc: Global,
    scope: &Scope,
    place: &Place,
    rules: &[PointRule],
) -> Result<List<DatapointRule>, TypeErr>
    ensures { Answers (λ typed. map point_rule_tree typed) result (point_rules_typed (env_of scope.now) place.now (map written_rule rules.now)) }
{
    let mut typed = Vec::new(alloc);
    for rule in rules {
        typed.push(rule_typed(alloc, scope, place, rule)?)?;
    }
    Ok(List::of(typed))
}

// What the call gives, once its rules are typed.
fn checked_points(
    alloc: Global,
    out: CheckOut,
    node: Box<Node>,
    variables: List<Txt>,
    rules: List<DatapointRule>,
) -> Result<Typed, TypeErr>
    ensures { Answers typed_tree result (checked_points out (boxed_tree node) variables (map point_rule_tree rules)) }
{
    let structure = point_checked(alloc, out, &node.structure)?;
    let rules = DatapointRules { variables, rules };
    made_of(
        alloc,
        structure,
        NodeForm::CheckDatapoint {
            a: node,
            rules,
            out,
        },
    )
}

fn datapoint_typed(
    alloc: Global,
    scope: &Scope,
    output: Option<CheckOut>,
    definition: PointDefinition,
    node: Box<Node>,
) -> Result<Typed, TypeErr>
    ensures { Answers typed_tree result (datapoint_typed (env_of scope.now) output (point_definition_view definition.entry) (boxed_tree node)) }
{
    let names = variables_known(alloc, definition.variables, &node.structure)?;
    let place = at_variables(alloc, names.as_slice(), &node)?;
    let rules = rules_typed(alloc, scope, &place, definition.rules)?;
    let out = output.unwrap_or(CheckOut::Invalid);
    checked_points(alloc, out, node, names, rules)
}

/// A call of the datapoint ruleset that a statement defines. It breaks `UnknownRuleset` where there is none, and where
/// the statement defines a hierarchical one.
pub(crate) fn datapoint_called(
    alloc: Global,
    scope: &Scope,
    statement: Option<&Statement>,
    output: Option<CheckOut>,
    operand: Typed,
) -> Result<Typed, TypeErr>
    ensures { Answers typed_tree result (datapoint_called (option_map (λ s. statement_tree s.now) statement.entry) (env_of scope.now) output (typed_tree operand)) }
{
    let definition = point_definition(statement)?;
    let node = operand.dataset()?;
    datapoint_typed(alloc, scope, output, definition, node)
}
