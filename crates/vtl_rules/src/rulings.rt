// Rules as they are evaluated.
//
// A contract sees a rule by what it gives (`ruling`): no other one speaks of how its conditions are kept.
ghost use Rattle.std.specs.Prelude.{◌≡◌, IfOk, option_map};
ghost use Rattle.std.specs.Fmt.{decimal};
ghost use Rattle.vtl_tree.specs.Checks.{rule_id};
ghost use Rattle.vtl_expr.specs.Prepared.{prepared_exp};
ghost use Rattle.vtl_rules.specs.Rulings.{AreSame, ruling, ruling_of};
ghost use Rattle.vtl_scalar.specs.Answers.{Answers};
ghost use Rattle.vtl_tree.specs.NodeView.{point_rule_tree};
ghost use Rattle.vtl_tree.specs.View.{comp_exp_of};

use crate::outputs::Errors;
use std::alloc::{AllocError, Global};
use vtl_cell::Cell;
use vtl_decimal::Profile;
use vtl_expr::{Point, Prepared, prepare};
use vtl_scalar::ScalarErr;
use vtl_text::Txt;
use vtl_tree::{CompExpr, DatapointRule};

// A rule of a datapoint ruleset: its identifier, its conditions, which are prepared, and its errors.
pub(crate) struct Rule {
    pub(crate) id: Txt,
    antecedent: Option<Prepared>,
    condition: Prepared,
    pub(crate) errors: Errors,
}

// Written out, so that an owner sees one call.
impl Drop for Rule {
    fn drop(self) {
        let Rule {
            id: _id,
            antecedent: _antecedent,
            condition: _condition,
            errors: _errors,
        } = self;
    }
}

// A number as text.
fn number_text(alloc: Global, number: usize) -> Result<Txt, AllocError>
    ensures { IfOk result (λ t. t ≡ decimal number) }
{
    let text = format!(in alloc; "{}", number)?;
    Txt::new(alloc, &text)
}

// The identifier of the rule of a number: its name, where it has one.
pub(crate) fn rule_id(alloc: Global, number: usize, name: &Option<Txt>) -> Result<Txt, AllocError>
    ensures { IfOk result (λ t. t ≡ rule_id number name.now) }
{
    match name {
        Some(name) => name.share(),
        None => number_text(alloc, number),
    }
}

// An expression that may be absent, prepared.
fn prepare_some(alloc: Global, e: &Option<CompExpr>) -> Result<Option<Prepared>, AllocError>
    ensures { IfOk result (λ x. AreSame (option_map prepared_exp x) (option_map comp_exp_of e.now)) }
{
    match e {
        Some(e) => Ok(Some(prepare(alloc, e)?)),
        None => Ok(None),
    }
}

impl Rule {
    // The rule of a number, ready to be evaluated.
    pub(crate) fn of(alloc: Global, number: usize, rule: &DatapointRule) -> Result<Rule, AllocError>
        ensures { IfOk result (λ x. ruling x ≡ ruling_of (rule_id number rule.now.name, point_rule_tree rule.now)) }
    {
        Ok(Rule {
            id: rule_id(alloc, number, &rule.name)?,
            antecedent: prepare_some(alloc, &rule.antecedent)?,
            condition: prepare(alloc, &rule.condition)?,
            errors: Errors::of(&rule.errorcode, rule.errorlevel)?,
        })
    }

    // The truth value at a point, or its fault. The condition is evaluated only where the antecedent is true.
    pub(crate) fn truth(
        &self,
        alloc: Global,
        at: &Point<'_>,
        p: &Profile,
    ) -> Result<Cell, ScalarErr>
        ensures { Answers result ((ruling self.now).truth p.now at.now) }
    {
        let Some(antecedent) = &self.antecedent else {
            return at.cell(alloc, &self.condition, p);
        };
        match at.cell(alloc, antecedent, p)? {
            Cell::Bool(true) => at.cell(alloc, &self.condition, p),
            Cell::Bool(false) => Ok(Cell::Bool(true)),
            _ => Ok(Cell::Null),
        }
    }
}
