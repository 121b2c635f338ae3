// The typing of statements, each over the declared data sets, and the results and rulesets before it.
ghost use Rattle.std.specs.Prelude.{◌≡◌, ◌≤◌, ◌+◌, ◌++◌, [], ◌∷◌, false, map, IfOk, OnOk};
ghost use Rattle.vtl_syntax.specs.View.{expr_tree, statement_tree};
ghost use Rattle.vtl_tree.specs.Structures.{has_name};
ghost use Rattle.vtl_tree.specs.NodeView.{node_tree};
ghost use Rattle.check_faults.specs.Answers.{Answers};
ghost use Rattle.check_faults.specs.Rules.{ruled};
ghost use Rattle.check_faults.specs.declared.rules.Rule.TheVariants as rule;
ghost use Rattle.check_operators.specs.Typed.{boxed_tree};
ghost use Rattle.check_expressions.specs.Defined.{definitions_of};
ghost use Rattle.check_expressions.specs.Rulesets.{is_defined};
ghost use Rattle.vtl_check.specs.Checked.{env_over};
ghost use Rattle.vtl_check.specs.Count.{count};
ghost use Rattle.vtl_check.specs.Script.{Checks, assigned, fault_at, is_taken, most_nodes, script_typed, value_typed};
ghost use Rattle.vtl_check.specs.Steps.{counted_ruleset, result_typed, standing_in, statement_typed, walked};

use crate::CheckErr;
use crate::count::{counted, sum};
use crate::known::{is_known, put};
use check_expressions::{Defined, typing};
use check_faults::{Rule, TypeErr};
use check_operators::{Place, Scope};
use check_rules::{datapoint_defined, hierarchical_defined};
use std::alloc::{AllocError, Global};
use vtl_syntax::{Expr, Statement};
use vtl_text::Txt;
use vtl_tree::{Node, share_structure};

/// A script behind some of its statements.
#[derive(Drop)]
pub(crate) struct Walk<'a> {
    /// The data sets that are known.
    scope: Scope,
    /// The rulesets that are defined.
    rulesets: Defined<'a>,
    /// How many nodes and rules there are.
    before: usize,
    /// The nodes of the assignments.
    nodes: Vec<Node>,
}

// The name of a result or a ruleset is no other's.
fn name_is_new(scope: &Scope, rulesets: &Defined, name: &Txt) -> Result<(), TypeErr>
    ensures tested { Answers (λ done. done) result (ruled ((rule.NameTaken, is_taken (standing_in scope.now rulesets.now) name.now) ∷ []) tt) }
    ensures data { IfOk result (λ done. has_name name.now scope.now.known ≡ false) }
    ensures ruleset { IfOk result (λ done. is_defined name.now (definitions_of rulesets.now) ≡ false) }
{
    if is_known(&scope.known, name) || rulesets.is_known(name) {
        return Err(TypeErr::Broken(Rule::NameTaken));
    }
    Ok(())
}

// The value of an assignment, where it is a data set.
fn value(alloc: Global, scope: &Scope, rulesets: &Defined, e: &Expr) -> Result<Box<Node>, TypeErr>
    ensures { Answers boxed_tree result (value_typed (standing_in scope.now rulesets.now) (expr_tree e.now)) }
{
    typing(alloc, scope, rulesets, &Place::Outside, e)?.dataset()
}

// The node of an assignment, with the number of nodes and rules so far and its own.
#[tactic(auto, unfolding(crate::specs::Script::assigned))]
fn assigned(alloc: Global, walk: &Walk, name: &Txt, e: &Expr) -> Result<(Box<Node>, usize), TypeErr>
    requires { walk.now.before ≤ most_nodes }
    ensures typing { Answers (λ r. boxed_tree r.0) result (assigned (standing_in walk.now.scope walk.now.rulesets) walk.now.before name.now (expr_tree e.now)) }
    ensures new_name { IfOk result (λ r. has_name name.now walk.now.scope.known ≡ false) }
    ensures sum { IfOk result (λ r. r.1 ≡ walk.now.before + count (boxed_tree r.0)) }
    ensures few { IfOk result (λ r. r.1 ≤ most_nodes) }
{
    name_is_new(&walk.scope, &walk.rulesets, name)?;
    let node = value(alloc, &walk.scope, &walk.rulesets, e)?;
    match counted(walk.before, &node) {
        Some(all) => Ok((node, all)),
        None => Err(TypeErr::Broken(Rule::TooManyNodes)),
    }
}

// Makes the result of an assignment known.
fn add_result(alloc: Global, scope: &mut Scope, name: &Txt, node: &Node) -> Result<(), AllocError>
    requires { has_name name.now scope.old.known ≡ false }
    ensures known { OnOk result (scope.new.known ≡ scope.old.known ++ (name.now, node.now.structure) ∷ []) }
    ensures settings { scope.new.profile ≡ scope.old.profile }
{
    let structure = share_structure(alloc, &node.structure)?;
    put(&mut scope.known, name, structure)
}

impl<'a> Walk<'a> {
    // An assignment.
    fn assign(&mut self, alloc: Global, name: &Txt, e: &Expr) -> Result<(), TypeErr>
        requires { self.old.before ≤ most_nodes }
        ensures typing { Answers (λ done. walked self.new) result (result_typed (walked self.old) name.now (expr_tree e.now)) }
        ensures few { OnOk result (self.new.before ≤ most_nodes) }
    {
        let (node, all) = assigned(alloc, self, name, e)?;
        add_result(alloc, &mut self.scope, name, &node)?;
        self.nodes.push(Box::into_inner(node))?;
        self.before = all;
        Ok(())
    }

    // A definition with so many rules, which has a new name and is what a ruleset has to be.
    fn define(&mut self, name: &Txt, rules: usize, statement: &'a Statement) -> Result<(), TypeErr>
        requires few { self.old.before ≤ most_nodes }
        requires new_name { is_defined name.now (definitions_of self.old.rulesets) ≡ false }
        ensures typing { Answers (λ done. walked self.new) result (counted_ruleset (walked self.old) name.now rules (statement_tree statement.now)) }
        ensures few { OnOk result (self.new.before ≤ most_nodes) }
    {
        let Some(all) = sum(self.before, rules) else {
            return Err(TypeErr::Broken(Rule::TooManyNodes));
        };
        self.rulesets.define(name, statement)?;
        self.before = all;
        Ok(())
    }

    // A statement.
    #[tactic(auto, unfolding(crate::specs::Script::defined))]
    fn step(&mut self, alloc: Global, statement: &'a Statement) -> Result<(), TypeErr>
        requires { self.old.before ≤ most_nodes }
        ensures typing { Answers (λ done. walked self.new) result (statement_typed (walked self.old) (statement_tree statement.now)) }
        ensures few { OnOk result (self.new.before ≤ most_nodes) }
    {
        match statement {
            Statement::Assignment { name, value, .. } => self.assign(alloc, name, value),
            Statement::Datapoint {
                name,
                variables,
                rules,
                ..
            } => {
                name_is_new(&self.scope, &self.rulesets, name)?;
                datapoint_defined(
                    alloc,
                    &self.scope.profile,
                    variables.as_slice(),
                    rules.as_slice(),
                )?;
                self.define(name, rules.as_slice().len(), statement)
            }
            Statement::Hierarchical { name, rules, .. } => {
                name_is_new(&self.scope, &self.rulesets, name)?;
                hierarchical_defined(alloc, &self.scope.profile, rules.as_slice())?;
                self.define(name, rules.as_slice().len(), statement)
            }
        }
    }
}

// A fault with the number of its statement.
fn fault(statement: usize, error: TypeErr) -> CheckErr
    ensures { result ≡ fault_at statement error }
{
    match error {
        TypeErr::Broken(rule) => CheckErr::Mistyped {
            statement,
            rule: rule.number(),
        },
        TypeErr::OutOfMemory => CheckErr::OutOfMemory,
    }
}

/// The nodes of the assignments among statements, or the first fault, with the number of its statement.
pub fn typed_statements(
    alloc: Global,
    scope: Scope,
    statements: &[Statement],
) -> Result<Vec<Node>, CheckErr>
    ensures { Checks (λ v. map node_tree v.items) result (script_typed (env_over scope.profile scope.known) (map statement_tree statements.now)) }
{
    let mut walk = Walk {
        scope,
        rulesets: Defined::new(alloc),
        before: 0,
        nodes: Vec::new(alloc),
    };
    for i in 0..statements.len() {
        match walk.step(alloc, &statements[i]) {
            Ok(()) => {}
            Err(error) => return Err(fault(i + 1, error)),
        }
    }
    Ok(walk.nodes)
}
