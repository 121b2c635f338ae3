// Partners of a row of FROM in the table of EXISTS, by a look-up.
ghost use Rattle.std.specs.List.{AllByRecursion};
ghost use Rattle.std.specs.Prelude.{◌≡◌, ◌+◌, ◌<◌, true, IfOk, IfSome, length};
ghost use Rattle.sql_meaning.specs.Profiles.{IsLawful};
ghost use Rattle.sql_eval.specs.Origins.{AreSame};
ghost use Rattle.sql_eval.specs.Placed.{has_partner};
ghost use Rattle.sql_from.specs.Held.{base_held, rows_held};
ghost use Rattle.sql_from.specs.Joins.{with_number};
ghost use Rattle.sql_from.specs.Partners.{Answers, partners_at};
ghost use Rattle.sql_from.specs.Rows.{combined};
ghost use Rattle.sql_from.specs.Sources.{parts_of};

use crate::existence::is_among;
use crate::key_lookup::{KeyLookup, keyed};
use crate::test_places::copied;
use crate::ties::{are_same_ties, lead_of_ties, tied_columns};
use crate::{Sources, TupleRow};
use sql_eval::{Existence, Origin, Tie};
use std::alloc::{AllocError, Global};
use std::sync::ledger::Ledger;
use vtl_decimal::Profile;
use vtl_index::Steps;
use vtl_rows::Table;

/// What an EXISTS asks, its table, and an index of the table's rows by the equalities that ask one source. Where all ask this
/// source, the index is whole; else the others are tried on the rows that are found.
pub(crate) struct PartnerIndex<'a> {
    pub(crate) table: Origin,
    pub(crate) ties: Vec<Tie>,
    pub(crate) p: Profile,
    pub(crate) rows: &'a Table,
    pub(crate) keys: KeyLookup<'a>,
    pub(crate) is_whole: bool,
}

// Written out, so that a proof sees one call and not the drop of each part.
impl Drop for PartnerIndex<'_> {
    fn drop(self) {
        let PartnerIndex {
            table: _table,
            ties: _ties,
            p: _,
            rows: _,
            keys: _keys,
            is_whole: _,
        } = self;
    }
}

impl<'a> PartnerIndex<'a> {
    /// The index for an EXISTS, where one of its equalities ties a column of its table and one of a source, and the table is
    /// found; else none. It takes a step for each row of both tables. It fails only if memory runs out.
    pub(crate) fn of<L: Ledger>(
        alloc: Global,
        sources: &Sources<'a>,
        test: &Existence,
        p: &Profile,
        steps: &mut Steps<L>,
    ) -> Result<Option<PartnerIndex<'a>>, AllocError>
        requires { IsLawful (base_held p.now sources.now.held) }
        ensures { IfOk result (λ o. IfSome o (Answers sources.now)) }
    {
        let Some(lead) = lead_of_ties(sources, &test.ties) else {
            return Ok(None);
        };
        let Some(own) = sources.held().found(&test.table) else {
            return Ok(None);
        };
        let rows = own.table();
        let (keys, is_whole) = tied_columns(alloc, sources, lead, &test.ties)?;
        let table = sources.table(lead);
        Ok(Some(PartnerIndex {
            table: test.table.copy(alloc)?,
            ties: copied(alloc, &test.ties)?,
            p: *p,
            rows,
            keys: keyed(alloc, rows, lead, table, &keys, p, steps)?,
            is_whole,
        }))
    }

    /// Whether it is known to be the index for an EXISTS.
    pub(crate) fn is_for(&self, test: &Existence, p: &Profile) -> bool
        ensures table { result ≡ true → AreSame self.now.table test.now.table }
        ensures ties { result ≡ true → self.now.ties.items ≡ test.now.ties.items }
        ensures p { result ≡ true → self.now.p ≡ p.now }
    {
        self.table.is_same(&test.table)
            && are_same_ties(&self.ties, &test.ties)
            && is_same_profile(&self.p, p)
    }

    // The rows of the table that are found for a tuple, rising. It takes no memory.
    fn found(&self, front: &[usize], last: usize) -> &[usize]
        requires { self.now.keys.lead < length front.now + 1 }
        ensures { result.now ≡ partners_at self.now front.now last }
    {
        let lead = self.keys.lead;
        let number = if lead < front.len() {
            front[lead]
        } else {
            last
        };
        self.keys.matches.rows(number)
    }

    /// Whether a row of the table makes each equality true, at a row of FROM. It fails only if memory runs out.
    pub(crate) fn has(&self, alloc: Global, row: &TupleRow<'_>) -> Result<bool, AllocError>
        requires { Answers row.now.sources.now self.now }
        ensures { IfOk result (λ b. b ≡ has_partner self.now.p (rows_held row.now.sources.now.held) self.now.table self.now.ties.items (combined (parts_of row.now.sources.now.sources) (with_number row.now.front.now row.now.last))) }
    {
        let found = self.found(row.front, row.last);
        if self.is_whole {
            return Ok(!found.is_empty());
        }
        is_among(alloc, self.rows, found, &self.ties, row, &self.p)
    }
}

/// Whether two profiles are the same.
pub(crate) fn is_same_profile(a: &Profile, b: &Profile) -> bool
    ensures { result ≡ true → a.now ≡ b.now }
{
    a.scale() == b.scale() && a.rounding() == b.rounding()
}
