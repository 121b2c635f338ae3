// Partners of the key of a group in the table of EXISTS, by a look-up.
//
// All columns of a key count as numbers (`AsNumber`), so an integer meets a number that equals it. Over tables of the
// profile every integer has its number; this is all that a look-up wants of the tables, and where none is wanted it
// is not asked for.
ghost use Rattle.std.specs.List.{AllByRecursion};
ghost use Rattle.std.specs.Prelude.{◌≡◌, ◌<◌, ◌==◌, not, true, IfOk, IfSome, length};
ghost use Rattle.sql_meaning.specs.Profiles.{IsLawful};
ghost use Rattle.sql_eval.specs.Origins.{AreSame};
ghost use Rattle.sql_from.specs.Held.{base_held};
ghost use Rattle.sql_from.specs.KeyPartners.{AnswersAt, AreTiedAs, IsTiedAs, asking_of, found_for};

use crate::Given;
use crate::key_pairs::{KeyPair, asked_columns, own_columns};
use crate::ties::are_same_ties;
use sql_eval::{Existence, Side, Tie};
use std::alloc::{AllocError, Global};
use std::marker::Brand;
use std::sync::ledger::{Blank, Ledger};
use vtl_cell::Cell;
use vtl_decimal::Profile;
use vtl_index::{KeyColumn, NullKeys, RowIndex, Steps};

/// What an EXISTS asks, an index of the rows of its table, and the columns of a key by whose cells it is asked. A key
/// with null in these is not found.
pub(crate) struct KeyIndex<'a> {
    pub(crate) test: &'a Existence,
    pub(crate) asked: Vec<KeyColumn>,
    pub(crate) index: RowIndex<'a>,
}

// Written out, so that a proof sees one call and not the drop of each part.
impl Drop for KeyIndex<'_> {
    fn drop(self) {
        let KeyIndex {
            test: _,
            asked: _asked,
            index: _index,
        } = self;
    }
}

fn pair_of(own: usize, asked: usize) -> KeyPair
    ensures inner { IsTiedAs (record { left = Side.Inner own; right = Side.Outer asked }) result }
    ensures outer { IsTiedAs (record { left = Side.Outer asked; right = Side.Inner own }) result }
{
    KeyPair { own, asked }
}

// The columns that an equality ties: one of the table of EXISTS, and one of the key.
fn tied_pair(tie: Tie) -> Option<KeyPair>
    ensures { IfSome result (IsTiedAs tie) }
{
    match (tie.left, tie.right) {
        (Side::Inner(own), Side::Outer(asked)) => Some(pair_of(own, asked)),
        (Side::Outer(asked), Side::Inner(own)) => Some(pair_of(own, asked)),
        _ => None,
    }
}

// The columns that equalities tie, if each ties a column of the table of EXISTS and one of the key.
fn tied_pairs(alloc: Global, ties: &[Tie]) -> Result<Option<Vec<KeyPair>>, AllocError>
    ensures { IfOk result (λ o. IfSome o (λ v. AreTiedAs ties.now v.items)) }
{
    let mut keys = Vec::new(alloc);
    for tie in ties {
        match tied_pair(*tie) {
            Some(pair) => keys.push(pair)?,
            None => return Ok(None),
        }
    }
    Ok(Some(keys))
}

impl<'a> KeyIndex<'a> {
    /// The index for an EXISTS, where it has equalities, each ties a column of its table and one of the key, and the table is
    /// found; else none. It takes a step for each row of the table. It fails only if memory runs out.
    pub(crate) fn of<L: Ledger>(
        alloc: Global,
        held: &'a Given<'a>,
        test: &'a Existence,
        p: &Profile,
        steps: &mut Steps<L>,
    ) -> Result<Option<KeyIndex<'a>>, AllocError>
        requires { IsLawful (base_held p.now held.now) }
        ensures { IfOk result (λ o. IfSome o (AnswersAt (asking_of held.now p.now))) }
    {
        if test.ties.is_empty() {
            return Ok(None);
        }
        let Some(own) = held.found(&test.table) else {
            return Ok(None);
        };
        match tied_pairs(alloc, &test.ties)? {
            Some(keys) => {
                let columns = own_columns(alloc, &keys)?;
                let asked = asked_columns(alloc, &keys)?;
                let index = RowIndex::of(
                    alloc,
                    own.table(),
                    columns,
                    NullKeys::NotFound,
                    p,
                    steps,
                )?;
                Ok(Some(KeyIndex { test, asked, index }))
            }
            None => Ok(None),
        }
    }

    /// Whether it is known to be the index for an EXISTS.
    pub(crate) fn is_for(&self, test: &Existence) -> bool
        ensures table { result ≡ true → AreSame self.now.test.now.table test.now.table }
        ensures ties { result ≡ true → self.now.test.now.ties.items ≡ test.now.ties.items }
    {
        self.test.table.is_same(&test.table) && are_same_ties(&self.test.ties, &test.ties)
    }

    /// Whether a row of the table is found for a key. It takes no memory.
    pub(crate) fn has(&self, key: &[Cell]) -> bool
        ensures { result ≡ not (length (found_for self.now key.now) == 0) }
    {
        let blank = Blank::new(1);
        self.is_found::<Brand>(key, blank)
    }

    fn is_found<L: Ledger>(&self, key: &[Cell], blank: Blank) -> bool
        requires name { blank.name ≡ L.name }
        requires parts { blank.parts ≡ L.parts }
        requires some { 0 < L.parts }
        ensures { result ≡ not (length (found_for self.now key.now) == 0) }
    {
        let mut steps: Steps<L> = Steps::new(blank);
        let found = self.index.probe(key, &self.asked, &mut steps);
        !found.is_empty()
    }
}
