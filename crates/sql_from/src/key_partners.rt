// The EXISTS that are asked at groups, by look-ups that are made once.
//
// At a group EXISTS is asked with the key (`KeyPartners`), which holds the cells of GROUP BY as they stand: so no row
// of FROM is read, and the columns may be of several sources. All that a look-up wants of a key is that its integers
// are of the profile.
ghost use Rattle.std.specs.List.{AllByRecursion};
ghost use Rattle.std.specs.Prelude.{◌≡◌, ◌+◌, ◌<◌, IfOk, IfSome, OnOk, length};
ghost use Rattle.sql_eval.specs.Placed.{has_partner};
ghost use Rattle.sql_meaning.specs.Profiles.{IsLawful, IsRowOfProfile};
ghost use Rattle.sql_from.specs.Held.{base_held, rows_held};
ghost use Rattle.sql_from.specs.KeyPartners.{AnswersAt, asking_of};

use crate::Given;
use crate::key_index::KeyIndex;
use crate::partner_index::is_same_profile;
use crate::test_places::TestPlaces;
use sql_eval::Existence;
use std::alloc::{AllocError, Global};
use std::marker::Model;
use std::sync::ledger::Ledger;
use vtl_cell::Cell;
use vtl_decimal::Profile;
use vtl_index::Steps;

/// Look-ups for the EXISTS that are asked at groups, with their keys, made once for all groups. A contract sees the tables
/// that the program holds, and the profile of the keys.
pub struct KeyPartners<'a> {
    held: &'a Given<'a>,
    p: Profile,
    indexes: Vec<KeyIndex<'a>>,
    places: TestPlaces,
}

// Written out, so that a proof above sees one call and not the drop of each part.
impl Drop for KeyPartners<'_> {
    fn drop(self) {
        let KeyPartners {
            held: _,
            p: _,
            indexes: _indexes,
            places: _places,
        } = self;
    }
}

impl<'a> Model for KeyPartners<'a> {
    ghost use Rattle.std.specs.List.{AllByRecursion};
    ghost use Rattle.sql_from.specs.KeyPartners.{AnswersAt, Asking, asking_of};

    ghost Value = { Asking };

    ghost view = { λ x. asking_of x.held.now x.p };

    ghost invariant = { λ x. AllByRecursion (AnswersAt (asking_of x.held.now x.p)) x.indexes.items };
}

// Puts the look-up for an EXISTS behind others, where there can be one and none of them asks the same.
fn push_index<'a, L: Ledger>(
    alloc: Global,
    indexes: &mut Vec<KeyIndex<'a>>,
    places: &mut TestPlaces,
    held: &'a Given<'a>,
    test: &'a Existence,
    p: &Profile,
    steps: &mut Steps<L>,
) -> Result<(), AllocError>
    requires lawful { IsLawful (base_held p.now held.now) }
    requires before { AllByRecursion (AnswersAt (asking_of held.now p.now)) indexes.old.items }
    ensures { OnOk result (AllByRecursion (AnswersAt (asking_of held.now p.now)) indexes.new.items) }
{
    if places.place(test).is_some() {
        return Ok(());
    }
    if let Some(index) = KeyIndex::of(alloc, held, test, p, steps)? {
        places.put(alloc, test, indexes.len())?;
        indexes.push(index)?;
    }
    Ok(())
}

impl<'a> KeyPartners<'a> {
    /// No look-ups, over the tables that the program holds, for keys of a profile.
    pub fn none(alloc: Global, held: &'a Given<'a>, p: &Profile) -> KeyPartners<'a>
        ensures held { result.held ≡ held.now }
        ensures settings { result.settings ≡ p.now }
    {
        KeyPartners {
            held,
            p: *p,
            indexes: Vec::new(alloc),
            places: TestPlaces::new(alloc),
        }
    }

    /// With a look-up for an EXISTS, if each of its equalities ties a column of its table and one of the key. It takes a
    /// step for each row of the table. It fails only if memory runs out.
    pub fn with<L: Ledger>(
        self,
        alloc: Global,
        test: &'a Existence,
        steps: &mut Steps<L>,
    ) -> Result<KeyPartners<'a>, AllocError>
        requires { IsLawful (base_held self.settings self.held) }
        ensures { IfOk result (λ x. x ≡ self.entry) }
    {
        let KeyPartners {
            held,
            p,
            indexes,
            places,
        } = self;
        let mut indexes = indexes;
        let mut places = places;
        push_index(alloc, &mut indexes, &mut places, held, test, &p, steps)?;
        Ok(KeyPartners {
            held,
            p,
            indexes,
            places,
        })
    }

    /// Whether a row of the table of EXISTS makes each of its equalities true, at a key whose integers are of the profile;
    /// none where there is no look-up for it. It takes no memory.
    pub fn answer(&self, test: &Existence, key: &[Cell], p: &Profile) -> Option<bool>
        requires { IsRowOfProfile self.now.settings key.now }
        ensures { IfSome result (λ b. b ≡ has_partner p.now (rows_held self.now.held) test.now.table test.now.ties.items key.now) }
    {
        if !is_same_profile(&self.p, p) {
            return None;
        }
        let place = self.places.place(test)?;
        if place < self.indexes.len() {
            let index = &self.indexes[place];
            if index.is_for(test) {
                return Some(index.has(key));
            }
        }
        None
    }
}
