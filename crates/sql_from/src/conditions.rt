// Several conditions at the rows of sources.
ghost use Rattle.std.proofs.Props.{props};
ghost use Rattle.std.specs.List.{AllByRecursion};
ghost use Rattle.std.specs.Prelude.{◌≡◌, length, map, true, false, IfOk};
ghost use Rattle.sql_meaning.specs.Profiles.{IsLawful};
ghost use Rattle.sql_from.specs.Asking.{asks};
ghost use Rattle.sql_from.specs.Conditions.{conditions_at, trees_of};
ghost use Rattle.sql_from.specs.Held.{base_held};
ghost use Rattle.sql_from.specs.Joins.{in_turn};
ghost use Rattle.sql_from.specs.Tried.{value_of};

use crate::Sources;
use crate::condition::Condition;
use crate::source_condition::SourceCondition;
use sql_tree::SqlExpr;
use std::alloc::{AllocError, Global};
use std::sync::ledger::Ledger;
use vtl_decimal::Profile;
use vtl_index::Steps;
use vtl_scalar::ScalarErr;

/// Conditions at the rows of sources, each tried where all before it are true.
pub(crate) struct Conditions<'a> {
    pub(crate) sources: &'a Sources<'a>,
    pub(crate) parts: Vec<SourceCondition<'a>>,
    ghost are_of: { AllByRecursion (λ x. x.partners ≡ sources.now) parts.items } by { Prim.hlevel props },
}

// Written out, so that a proof sees one call and not the drop of each part.
impl Drop for Conditions<'_> {
    fn drop(self) {
        let Conditions {
            sources: _,
            parts: _parts,
        } = self;
    }
}

impl<'a> Conditions<'a> {
    /// These conditions, with look-ups for their EXISTS where they are wanted. Those that ask no EXISTS take no step. It
    /// fails only if memory runs out.
    pub(crate) fn of<L: Ledger>(
        alloc: Global,
        sources: &'a Sources<'a>,
        conditions: &[&SqlExpr],
        by_index: bool,
        p: &'a Profile,
        steps: &mut Steps<L>,
    ) -> Result<Conditions<'a>, AllocError>
        requires { by_index ≡ true → IsLawful (base_held p.now sources.now.held) }
        ensures sources { IfOk result (λ c. c.sources.now ≡ sources.now) }
        ensures test { IfOk result (λ c. in_turn (map value_of c.parts.items) ≡ conditions_at p.now sources.now (trees_of conditions.now)) }
        ensures steps { AllByRecursion (λ e. asks e ≡ false) (trees_of conditions.now) → steps.new ≡ steps.old }
    {
        let mut parts = Vec::new(alloc);
        for condition in conditions {
            parts.push(SourceCondition::of(alloc, sources, condition, by_index, p, steps)?)?;
        }
        Ok(Conditions { sources, parts })
    }
}

impl<'a> Condition for Conditions<'a> {
    ghost width = { λ c. length c.sources.now.sources };

    ghost value = { λ c. in_turn (map value_of c.parts.items) };

    fn width(&self) -> usize {
        self.sources.len()
    }

    fn is_always(&self) -> bool {
        self.parts.is_empty()
    }

    fn at(&self, alloc: Global, front: &[usize], last: usize) -> Result<bool, ScalarErr> {
        for part in &self.parts {
            if !part.at(alloc, front, last)? {
                return Ok(false);
            }
        }
        Ok(true)
    }
}
