// What calls of rulesets give.
ghost use Rattle.check_faults.specs.Answers.{Answers};
ghost use Rattle.check_operators.specs.Places.{env_of};
ghost use Rattle.check_operators.specs.Typed.{typed_tree};
ghost use Rattle.check_expressions.specs.Rulings.{Rulings, no_rulings};

use check_faults::{Rule, TypeErr};
use check_operators::{Scope, Typed};
use std::alloc::Global;
use vtl_syntax::{CheckOut, Comp, HierInput, HierOut, Mode};
use vtl_text::Txt;

/// The rulesets that expressions may call, by name.
pub trait Rulesets {
    /// What a call gives of its typed operand.
    ghost called: { Self → Rulings };

    /// `check_datapoint` after its operand. The conditions of the ruleset are typed where the data sets of `scope` are
    /// known.
    fn datapoint(
        &self,
        alloc: Global,
        scope: &Scope,
        name: &Txt,
        output: Option<CheckOut>,
        operand: Typed,
    ) -> Result<Typed, TypeErr>
        ensures { Answers typed_tree result ((called self.now).datapoint (env_of scope.now) name.now output (typed_tree operand)) };

    /// `check_hierarchy` after its operand.
    fn check_hierarchy(
        &self,
        alloc: Global,
        name: &Txt,
        rule: &Option<Comp>,
        mode: Option<Mode>,
        output: Option<CheckOut>,
        operand: Typed,
    ) -> Result<Typed, TypeErr>
        ensures { Answers typed_tree result ((called self.now).check_hierarchy name.now rule.now mode output (typed_tree operand)) };

    /// `hierarchy` after its operand.
    fn hierarchy(
        &self,
        alloc: Global,
        name: &Txt,
        rule: &Option<Comp>,
        mode: Option<Mode>,
        input: Option<HierInput>,
        output: Option<HierOut>,
        operand: Typed,
    ) -> Result<Typed, TypeErr>
        ensures { Answers typed_tree result ((called self.now).hierarchy name.now rule.now mode input output (typed_tree operand)) };
}

/// No ruleset is known: each call breaks `UnknownRuleset`.
#[derive(Drop)]
pub struct NoRulesets;

impl Rulesets for NoRulesets {
    ghost called = { λ _. no_rulings };

    fn datapoint(
        &self,
        _alloc: Global,
        _scope: &Scope,
        _name: &Txt,
        _output: Option<CheckOut>,
        _operand: Typed,
    ) -> Result<Typed, TypeErr> {
        Err(TypeErr::Broken(Rule::UnknownRuleset))
    }

    fn check_hierarchy(
        &self,
        _alloc: Global,
        _name: &Txt,
        _rule: &Option<Comp>,
        _mode: Option<Mode>,
        _output: Option<CheckOut>,
        _operand: Typed,
    ) -> Result<Typed, TypeErr> {
        Err(TypeErr::Broken(Rule::UnknownRuleset))
    }

    fn hierarchy(
        &self,
        _alloc: Global,
        _name: &Txt,
        _rule: &Option<Comp>,
        _mode: Option<Mode>,
        _input: Option<HierInput>,
        _output: Option<HierOut>,
        _operand: Typed,
    ) -> Result<Typed, TypeErr> {
        Err(TypeErr::Broken(Rule::UnknownRuleset))
    }
}
