// The EXISTS of a select, asked by look-ups that are made once.
//
// Look-ups for EXISTS are kept beside the sources (`Partners`), and found again by table and equalities
// (`TestPlaces`): an expression that is resolved once knows no tables.
ghost use Rattle.std.specs.List.{AllByRecursion};
ghost use Rattle.std.specs.Prelude.{◌≡◌, ◌+◌, ◌<◌, ◌++◌, ◌∷◌, [], IfOk, IfSome, length, OnOk};
ghost use Rattle.sql_eval.specs.Placed.{has_partner};
ghost use Rattle.sql_meaning.specs.Profiles.{IsLawful};
ghost use Rattle.sql_from.specs.Held.{base_held, rows_held};
ghost use Rattle.sql_from.specs.Joins.{with_number};
ghost use Rattle.sql_from.specs.Partners.{Answers};
ghost use Rattle.sql_from.specs.Rows.{combined};
ghost use Rattle.sql_from.specs.Sources.{parts_of};

use crate::partner_index::PartnerIndex;
use crate::test_places::TestPlaces;
use crate::{Sources, TupleRow};
use sql_eval::{Existence, Resolved};
use std::alloc::{AllocError, Global};
use std::marker::Model;
use std::sync::ledger::Ledger;
use vtl_decimal::Profile;
use vtl_index::Steps;

/// The sources of a select, and look-ups for the EXISTS of its expressions, made once for all rows. A contract sees the
/// sources.
pub struct Partners<'a> {
    sources: &'a Sources<'a>,
    indexes: Vec<PartnerIndex<'a>>,
    places: TestPlaces,
}

// Written out, so that a proof above sees one call and not the drop of each part.
impl Drop for Partners<'_> {
    fn drop(self) {
        let Partners {
            sources: _,
            indexes: _indexes,
            places: _places,
        } = self;
    }
}

impl<'a> Model for Partners<'a> {
    ghost use Rattle.std.specs.List.{AllByRecursion};
    ghost use Rattle.sql_from.specs.Partners.{Answers};
    ghost use Rattle.sql_from.specs.Sources.{Sourced};

    ghost Value = { Sourced };

    ghost view = { λ x. x.sources.now };

    ghost invariant = { λ x. AllByRecursion (Answers x.sources.now) x.indexes.items };
}

// Puts the look-up for an EXISTS behind others, where there can be one and none of them asks the same.
fn push_index<'a, L: Ledger>(
    alloc: Global,
    indexes: &mut Vec<PartnerIndex<'a>>,
    places: &mut TestPlaces,
    sources: &Sources<'a>,
    test: &Existence,
    p: &Profile,
    steps: &mut Steps<L>,
) -> Result<(), AllocError>
    requires lawful { IsLawful (base_held p.now sources.now.held) }
    requires before { AllByRecursion (Answers sources.now) indexes.old.items }
    ensures { OnOk result (AllByRecursion (Answers sources.now) indexes.new.items) }
{
    if places.place(test).is_some() {
        return Ok(());
    }
    if let Some(index) = PartnerIndex::of(alloc, sources, test, p, steps)? {
        places.put(alloc, test, indexes.len())?;
        indexes.push(index)?;
    }
    Ok(())
}

// Puts the look-ups for the EXISTS of an expression behind others.
#[cycle(indexed)]
fn push_indexes<'a, L: Ledger>(
    alloc: Global,
    indexes: &mut Vec<PartnerIndex<'a>>,
    places: &mut TestPlaces,
    sources: &Sources<'a>,
    e: &Resolved,
    p: &Profile,
    steps: &mut Steps<L>,
) -> Result<(), AllocError>
    requires lawful { IsLawful (base_held p.now sources.now.held) }
    requires before { AllByRecursion (Answers sources.now) indexes.old.items }
    ensures { OnOk result (AllByRecursion (Answers sources.now) indexes.new.items) }
{
    match e {
        Resolved::Exists(test) => push_index(alloc, indexes, places, sources, test, p, steps),
        Resolved::Membership { operand, .. } => {
            push_indexes(alloc, indexes, places, sources, operand, p, steps)
        }
        Resolved::Apply { args, .. } => {
            for arg in args {
                push_indexes(alloc, indexes, places, sources, arg, p, steps)?;
            }
            Ok(())
        }
        Resolved::Choose { branches, .. } => {
            for branch in branches {
                push_indexes(alloc, indexes, places, sources, &branch.condition, p, steps)?;
                push_indexes(alloc, indexes, places, sources, &branch.value, p, steps)?;
            }
            Ok(())
        }
        _ => Ok(()),
    }
}

impl<'a> Partners<'a> {
    /// No look-ups over the sources of a select.
    pub fn none(alloc: Global, sources: &'a Sources<'a>) -> Partners<'a>
        ensures { result ≡ sources.now }
    {
        Partners {
            sources,
            indexes: Vec::new(alloc),
            places: TestPlaces::new(alloc),
        }
    }

    /// With look-ups for the EXISTS of an expression: one for each of which an equality ties a column of its table and one
    /// of a source. Each takes a step for each row of its table and of the source.
    /// It fails only if memory runs out.
    pub fn with<L: Ledger>(
        self,
        alloc: Global,
        e: &Resolved,
        p: &Profile,
        steps: &mut Steps<L>,
    ) -> Result<Partners<'a>, AllocError>
        requires { IsLawful (base_held p.now self.held) }
        ensures { IfOk result (λ x. x ≡ self.entry) }
    {
        let Partners {
            sources,
            indexes,
            places,
        } = self;
        let mut indexes = indexes;
        let mut places = places;
        push_indexes(alloc, &mut indexes, &mut places, sources, e, p, steps)?;
        Ok(Partners {
            sources,
            indexes,
            places,
        })
    }

    /// The sources.
    pub fn sources(&self) -> &'a Sources<'a>
        ensures { result.now ≡ self.now }
    {
        self.sources
    }

    /// Whether a row of the table of EXISTS makes each of its equalities true, at a row of FROM over the sources; none where
    /// there is no look-up for it. It fails only if memory runs out.
    pub(crate) fn answer(
        &self,
        alloc: Global,
        test: &Existence,
        row: &TupleRow<'_>,
        p: &Profile,
    ) -> Result<Option<bool>, AllocError>
        requires { row.now.sources.now ≡ self.now }
        ensures { IfOk result (λ o. IfSome o (λ b. b ≡ has_partner p.now (rows_held self.now.held) test.now.table test.now.ties.items (combined (parts_of self.now.sources) (with_number row.now.front.now row.now.last)))) }
    {
        let Some(place) = self.places.place(test) else {
            return Ok(None);
        };
        if place < self.indexes.len() {
            let index = &self.indexes[place];
            if index.is_for(test, p) {
                return Ok(Some(index.has(alloc, row)?));
            }
        }
        Ok(None)
    }
}
