// Points that are asked a condition a block at a time.
ghost use Rattle.std.specs.Prelude.{◌≡◌, ◌+◌, ◌<◌, ◌∷◌, [], length, IfErr, IfOk, OnOk};
ghost use Rattle.vtl_cell.specs.Outcome.{unless};
ghost use Rattle.vtl_scalar.specs.Answers.{AnswersBy};
ghost use Rattle.vtl_scalar.specs.Seen.{seen_of};
ghost use Rattle.vtl_sets.specs.TableOf.{table_columns};
ghost use Rattle.vtl_tree.specs.Structure.{IsStructure};
ghost use Rattle.vtl_join.specs.Gatherings.{point_of, points_of, width_of};
ghost use Rattle.vtl_join_filter.specs.Sifting.{IsEmpty, IsReady, asked_of, so_far};

use std::alloc::{AllocError, Global};
use vtl_clause::keep_rows;
use vtl_decimal::Profile;
use vtl_expr::Prepared;
use vtl_join::Gathering;
use vtl_rows::Table;
use vtl_scalar::{ScalarErr, Seen};
use vtl_sets::new_table;
use vtl_tree::Structure;

// How many tuples wait before their points are made.
const TUPLES: usize = 1_024;

// What points are gathered from, and the condition that is asked at each.
pub(crate) struct Asked<'a> {
    pub(crate) gathering: Gathering<'a>,
    pub(crate) condition: Prepared,
    pub(crate) profile: &'a Profile,
}

// Written out, so that a proof sees one call and not the drop of each part.
impl Drop for Asked<'_> {
    fn drop(self) {
        let Asked {
            gathering: _gathering,
            condition: _condition,
            profile: _,
        } = self;
    }
}

// The points that are kept, the fault seen so far, and tuples whose points are still to be asked, one after the other.
pub(crate) struct Sieve {
    pub(crate) kept: Table,
    pub(crate) seen: Seen,
    pub(crate) waiting: Vec<usize>,
}

// Written out, so that a proof sees one call and not the drop of each part.
impl Drop for Sieve {
    fn drop(self) {
        let Sieve {
            kept: _kept,
            seen: _,
            waiting: _waiting,
        } = self;
    }
}

impl Sieve {
    // With no points, below the columns of a structure.
    pub(crate) fn new(alloc: Global, made: &Structure) -> Result<Sieve, AllocError>
        requires { IsStructure made.now }
        ensures columns { IfOk result (λ s. s.kept.columns ≡ table_columns made.now) }
        ensures empty { IfOk result IsEmpty }
    {
        Ok(Sieve {
            kept: new_table(alloc, made)?,
            seen: Seen::Nothing,
            waiting: Vec::new(alloc),
        })
    }

    // Asks the condition at the points of all tuples that wait.
    fn settle(&mut self, alloc: Global, asked: &Asked<'_>) -> Result<(), ScalarErr>
        requires { IsReady asked.now self.old }
        ensures ready { OnOk result (IsReady asked.now self.new) }
        ensures empty { OnOk result (self.new.waiting.items ≡ []) }
        ensures found { OnOk result (so_far asked.now self.new ≡ so_far asked.now self.old) }
        ensures err { IfErr result (λ e. e ≡ ScalarErr.OutOfMemory) }
    {
        let points = asked.gathering.points(alloc, &self.waiting)?;
        let seen = keep_rows(
            alloc,
            &mut self.kept,
            self.seen,
            &asked.condition,
            &points,
            asked.profile,
        )?;
        self.seen = seen;
        self.waiting.clear();
        Ok(())
    }

    // Adds a tuple.
    pub(crate) fn add(
        &mut self,
        alloc: Global,
        asked: &Asked<'_>,
        tuple: &[usize],
    ) -> Result<(), ScalarErr>
        requires ready { IsReady asked.now self.old }
        requires wide { length tuple.now ≡ width_of asked.now.gathering }
        ensures ready { OnOk result (IsReady asked.now self.new) }
        ensures found { OnOk result (so_far asked.now self.new ≡ asked_of asked.now (so_far asked.now self.old) (point_of asked.now.gathering tuple.now ∷ [])) }
        ensures err { IfErr result (λ e. e ≡ ScalarErr.OutOfMemory) }
    {
        self.waiting.extend_from_slice(tuple)?;
        if self.waiting.len() < tuple.len().saturating_mul(TUPLES) {
            return Ok(());
        }
        self.settle(alloc, asked)
    }

    // Adds tuples that stand one after the other.
    pub(crate) fn add_each(
        &mut self,
        alloc: Global,
        asked: &Asked<'_>,
        tuples: &[usize],
    ) -> Result<(), ScalarErr>
        requires { IsReady asked.now self.old }
        ensures ready { OnOk result (IsReady asked.now self.new) }
        ensures found { OnOk result (so_far asked.now self.new ≡ asked_of asked.now (so_far asked.now self.old) (points_of asked.now.gathering tuples.now)) }
        ensures err { IfErr result (λ e. e ≡ ScalarErr.OutOfMemory) }
    {
        for tuple in tuples.chunks_exact(asked.gathering.width()) {
            self.add(alloc, asked, tuple)?;
        }
        Ok(())
    }

    // The points that are kept, or the fault.
    pub(crate) fn finish(self, alloc: Global, asked: &Asked<'_>) -> Result<Table, ScalarErr>
        requires { IsReady asked.now self }
        ensures columns { IfOk result (λ t. t.columns ≡ asked.now.gathering.columns) }
        ensures rows { AnswersBy (λ t. t.rows) result (unless (so_far asked.now self).fault (so_far asked.now self).rows) }
    {
        let mut sieve = self;
        sieve.settle(alloc, asked)?;
        sieve.ended()
    }

    // What is kept where no tuple waits.
    fn ended(self) -> Result<Table, ScalarErr>
        ensures columns { IfOk result (λ t. t.columns ≡ self.kept.columns) }
        ensures rows { AnswersBy (λ t. t.rows) result (unless (seen_of self.seen) self.kept.rows) }
    {
        let Sieve {
            kept,
            seen,
            waiting: _waiting,
        } = self;
        seen.unless(kept)
    }
}
