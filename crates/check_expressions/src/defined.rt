// The rulesets that a script defines.
ghost use Rattle.std.specs.Option.{option_map};
ghost use Rattle.std.specs.Prelude.{◌≡◌, ◌++◌, ◌∷◌, [], false, OnOk};
ghost use Rattle.vtl_syntax.specs.View.{statement_tree};
ghost use Rattle.check_expressions.specs.Defined.{definitions_of};
ghost use Rattle.check_expressions.specs.Rulesets.{definition_named, is_defined, rulings_of};

use crate::Rulesets;
use crate::datapoints::datapoint_called;
use crate::hierarchies::{check_called, hierarchy_called};
use check_faults::TypeErr;
use check_operators::{Scope, Typed};
use std::alloc::{AllocError, Global};
use vtl_syntax::{CheckOut, Comp, HierInput, HierOut, Mode, Statement};
use vtl_text::{ByName, Txt};

/// The rulesets that a script has defined so far.
#[derive(Drop)]
pub struct Defined<'a> {
    /// The statements that define them, by name.
    pub statements: ByName<&'a Statement>,
}

impl<'a> Defined<'a> {
    /// None yet.
    pub fn new(alloc: Global) -> Defined<'a>
        ensures { definitions_of result ≡ [] }
    {
        Defined {
            statements: ByName::new(alloc),
        }
    }

    /// Puts a definition after the others, under a name that none has yet. It fails only if memory runs out.
    pub fn define(&mut self, name: &Txt, statement: &'a Statement) -> Result<(), AllocError>
        requires { is_defined name.now (definitions_of self.old) ≡ false }
        ensures { OnOk result (definitions_of self.new ≡ definitions_of self.old ++ (name.now, statement_tree statement.now) ∷ []) }
    {
        self.statements.put(name.share()?, statement)
    }

    /// Whether a ruleset of this name is defined.
    pub fn is_known(&self, name: &Txt) -> bool
        ensures { result ≡ is_defined name.now (definitions_of self.now) }
    {
        self.statements.has(name)
    }

    // The definition of a name.
    fn named(&self, name: &Txt) -> Option<&'a Statement>
        ensures { option_map (λ s. statement_tree s.now) result ≡ definition_named (definitions_of self.now) name.now }
    {
        self.statements.get(name).copied()
    }
}

impl<'a> Rulesets for Defined<'a> {
    ghost called = { λ d. rulings_of (definitions_of d) };

    fn datapoint(
        &self,
        alloc: Global,
        scope: &Scope,
        name: &Txt,
        output: Option<CheckOut>,
        operand: Typed,
    ) -> Result<Typed, TypeErr> {
        datapoint_called(alloc, scope, self.named(name), output, operand)
    }

    fn check_hierarchy(
        &self,
        alloc: Global,
        name: &Txt,
        rule: &Option<Comp>,
        mode: Option<Mode>,
        output: Option<CheckOut>,
        operand: Typed,
    ) -> Result<Typed, TypeErr> {
        check_called(alloc, self.named(name), rule, mode, output, operand)
    }

    fn hierarchy(
        &self,
        alloc: Global,
        name: &Txt,
        rule: &Option<Comp>,
        mode: Option<Mode>,
        input: Option<HierInput>,
        output: Option<HierOut>,
        operand: Typed,
    ) -> Result<Typed, TypeErr> {
        hierarchy_called(alloc, self.named(name), rule, mode, input, output, operand)
    }
}
