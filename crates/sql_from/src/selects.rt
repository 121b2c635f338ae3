// FROM and WHERE of a select.
ghost use Rattle.std.specs.List.{AllByRecursion};
ghost use Rattle.std.specs.Option.{option_copied};
ghost use Rattle.std.specs.Prelude.{◌≡◌, ℕ, ◌+◌, ◌<◌, ◌≤◌, ◌++◌, ◌∷◌, [], fold, length, true, false, IfErr, IfOk, IfSome, IsSome};
ghost use Rattle.vtl_cell.specs.Outcome.{join, unless};
ghost use Rattle.vtl_decimal.specs.Settings.{Settings};
ghost use Rattle.vtl_scalar.specs.Answers.{AnswersBy};
ghost use Rattle.vtl_scalar.specs.Seen.{seen_of};
ghost use Rattle.sql_tree.specs.View.{join_tree, select_tree};
ghost use Rattle.sql_check_parts.specs.Queries.{join_source, scope_of};
ghost use Rattle.sql_check_laws.specs.Selects.{IsSelectTyped, IsSourceTyped};
ghost use Rattle.sql_meaning.specs.Profiles.{IsLawful};
ghost use Rattle.sql_meaning.specs.From.{Joined, first_of, source_rows, with_join};
ghost use Rattle.sql_meaning.specs.Plans.{planned_source_rows, try_early};
ghost use Rattle.sql_from.specs.Asking.{asks};
ghost use Rattle.sql_from.specs.Columns.{source_columns};
ghost use Rattle.sql_from.specs.Conditions.{AreSound, conditions_at, filtered, kind_of, on_of, trees_of};
ghost use Rattle.sql_from.specs.FromTables.{from_given, maybe_given};
ghost use Rattle.sql_from.specs.Held.{base_held, tables_held};
ghost use Rattle.sql_from.specs.Keys.{AreLinked, last_of, linked_count};
ghost use Rattle.sql_from.specs.Lookups.{Finds};
ghost use Rattle.sql_from.specs.Joins.{joined_tuples, kept_fault, kept_tuples};
ghost use Rattle.sql_from.specs.Sources.{scope_held, table_given};
ghost use Rattle.sql_from.specs.Standing.{MayLookUp, StandsFor, rows_for, sight_of};
ghost use Rattle.sql_from.specs.Together.{IsJoinedBy};
ghost use Rattle.sql_from.specs.Steps.{IsPlainJoin, JoinsTwo, is_listed, most_steps, two_counts};

use crate::conditions::Conditions;
use crate::counting::count_pairs;
use crate::early::{conjuncts_of, due_parts};
use crate::from_tables::source_of;
use crate::joining::{join_each, join_found, keep};
use crate::key_lookup::{JoinLookup, lookup_of};
use crate::pairs::Walked;
use crate::{FromTables, Given, HeldTable, Sources, TupleRows, Tuples};
use sql_meaning::Early;
use sql_tree::{Join, JoinKind, Select, Source, SqlExpr};
use std::alloc::{AllocError, Global};
use std::sync::ledger::Ledger;
use vtl_decimal::Profile;
use vtl_index::Steps;
use vtl_rows::Table;
use vtl_scalar::{ScalarErr, Seen};

/// Why there are no rows: the fault of an expression, or want of memory.
pub type ExecErr = ScalarErr;

// The look-up of the rows of the last source, where it is wanted and there is one.
fn wanted_lookup<'a, L: Ledger>(
    alloc: Global,
    by_index: bool,
    sources: &Sources<'a>,
    conditions: &[&SqlExpr],
    p: &Profile,
    steps: &mut Steps<L>,
) -> Result<Option<JoinLookup<'a>>, AllocError>
    requires { by_index ≡ true → IsLawful (base_held p.now sources.now.held) }
    ensures rows { IfOk result (λ o. IfSome o (λ l. l.keys.count ≡ length (last_of sources.now).rows)) }
    ensures some { by_index ≡ true → (lead : ℕ) → AreLinked sources.now lead (trees_of conditions.now) → IfOk result IsSome }
    ensures whole { (lead : ℕ) → AreLinked sources.now lead (trees_of conditions.now) → IfOk result (λ o. IfSome o (λ l. l.is_whole ≡ true)) }
    ensures steps { by_index ≡ true → (lead : ℕ) → AreLinked sources.now lead (trees_of conditions.now) → steps.new ≤ steps.old + linked_count sources.now lead }
    ensures sound { IfOk result (λ o. IfSome o (λ l. AreSound p.now sources.now (trees_of conditions.now))) }
    ensures finds { IfOk result (λ o. IfSome o (Finds (length sources.now.sources) (conditions_at p.now sources.now (trees_of conditions.now)))) }
{
    if by_index {
        lookup_of(alloc, sources, conditions, p, steps)
    } else {
        Ok(None)
    }
}

// These conditions, and then these.
fn both<'e>(
    alloc: Global,
    conditions: &[&'e SqlExpr],
    parts: &[&'e SqlExpr],
) -> Result<Vec<&'e SqlExpr>, AllocError>
    ensures { IfOk result (λ v. trees_of v.items ≡ trees_of conditions.now ++ trees_of parts.now) }
{
    let mut all = Vec::with_capacity(alloc, conditions.len())?;
    all.extend_from_slice(conditions)?;
    all.extend_from_slice(parts)?;
    Ok(all)
}

// Joins the tuples with the rows of a further source, which is the last one, by a look-up for conditions on all sources, where
// it is wanted and there is one, and keeps the tuples at which parts of WHERE are true. It takes a step for each row of both
// sources of the look-up and for each row that is found of a tuple.
fn found_by_on<L: Ledger>(
    alloc: Global,
    kind: JoinKind,
    conditions: &[&SqlExpr],
    parts: &[&SqlExpr],
    by_index: bool,
    sources: &Sources<'_>,
    left: &Walked,
    marks: &[usize],
    p: &Profile,
    steps: &mut Steps<L>,
) -> Result<Option<Walked>, ScalarErr>
    requires width { length sources.now.sources ≡ left.now.rows.width + 1 }
    requires marks { length marks.now ≡ left.now.rows.width }
    requires lawful { by_index ≡ true → IsLawful (base_held p.now sources.now.held) }
    ensures joined { IfOk result (λ o. IfSome o (IsJoinedBy p.now sources.now kind (trees_of conditions.now) (trees_of parts.now) marks.now left.now)) }
    ensures some { by_index ≡ true → (lead : ℕ) → AreLinked sources.now lead (trees_of conditions.now) → IfOk result IsSome }
    ensures steps { by_index ≡ true → AllByRecursion (λ e. asks e ≡ false) (trees_of parts.now) → (lead : ℕ) → AreLinked sources.now lead (trees_of conditions.now) → steps.new ≤ steps.old + linked_count sources.now lead + length (joined_tuples kind (conditions_at p.now sources.now (trees_of conditions.now)) marks.now (length (last_of sources.now).rows) left.now.rows.tuples) }
    ensures err { IfErr result (λ e. e ≡ ScalarErr.OutOfMemory) }
{
    let Some(rows) = wanted_lookup(alloc, by_index, sources, conditions, p, steps)? else {
        return Ok(None);
    };
    let on = Conditions::of(alloc, sources, conditions, by_index, p, steps)?;
    let filter = Conditions::of(alloc, sources, parts, by_index, p, steps)?;
    Ok(Some(join_found(alloc, kind, &on, &filter, &rows, left, marks, steps)?))
}

// The same for an INNER join, by a look-up for ON and parts of WHERE together: a tuple that is not found is not kept, and
// nothing can have a fault.
fn found_by_all<L: Ledger>(
    alloc: Global,
    conditions: &[&SqlExpr],
    parts: &[&SqlExpr],
    by_index: bool,
    sources: &Sources<'_>,
    left: &Walked,
    marks: &[usize],
    p: &Profile,
    steps: &mut Steps<L>,
) -> Result<Option<Walked>, ScalarErr>
    requires width { length sources.now.sources ≡ left.now.rows.width + 1 }
    requires marks { length marks.now ≡ left.now.rows.width }
    requires lawful { by_index ≡ true → IsLawful (base_held p.now sources.now.held) }
    ensures joined { IfOk result (λ o. IfSome o (IsJoinedBy p.now sources.now JoinKind.Inner (trees_of conditions.now) (trees_of parts.now) marks.now left.now)) }
    ensures err { IfErr result (λ e. e ≡ ScalarErr.OutOfMemory) }
{
    let all = both(alloc, conditions, parts)?;
    let Some(rows) = wanted_lookup(alloc, by_index, sources, &all, p, steps)? else {
        return Ok(None);
    };
    let on = Conditions::of(alloc, sources, &all, by_index, p, steps)?;
    let none = Conditions::of(alloc, sources, &[], by_index, p, steps)?;
    let kind = JoinKind::Inner;
    Ok(Some(join_found(alloc, kind, &on, &none, &rows, left, marks, steps)?))
}

// The same for any join, where each pair is tried. It takes a step for each.
fn each_joined<L: Ledger>(
    alloc: Global,
    kind: JoinKind,
    conditions: &[&SqlExpr],
    parts: &[&SqlExpr],
    by_index: bool,
    sources: &Sources<'_>,
    left: &Walked,
    marks: &[usize],
    p: &Profile,
    steps: &mut Steps<L>,
) -> Result<Walked, ScalarErr>
    requires width { length sources.now.sources ≡ left.now.rows.width + 1 }
    requires marks { length marks.now ≡ left.now.rows.width }
    requires lawful { by_index ≡ true → IsLawful (base_held p.now sources.now.held) }
    ensures joined { IfOk result (IsJoinedBy p.now sources.now kind (trees_of conditions.now) (trees_of parts.now) marks.now left.now) }
    ensures err { IfErr result (λ e. e ≡ ScalarErr.OutOfMemory) }
{
    let on = Conditions::of(alloc, sources, conditions, by_index, p, steps)?;
    let filter = Conditions::of(alloc, sources, parts, by_index, p, steps)?;
    let count = sources.last_count();
    count_pairs(left.rows.len(), count, steps);
    Ok(join_each(alloc, kind, &on, &filter, left, marks, count)?)
}

// Joins the tuples with the rows of a further source, which is the last one, by conditions on all sources, and keeps those
// at which parts of WHERE are true. Rows are looked up where that is wanted and they can be.
fn joined_with<L: Ledger>(
    alloc: Global,
    kind: JoinKind,
    conditions: &[&SqlExpr],
    parts: &[&SqlExpr],
    by_index: bool,
    sources: &Sources<'_>,
    left: &Walked,
    marks: &[usize],
    p: &Profile,
    steps: &mut Steps<L>,
) -> Result<Walked, ScalarErr>
    requires width { length sources.now.sources ≡ left.now.rows.width + 1 }
    requires marks { length marks.now ≡ left.now.rows.width }
    requires lawful { by_index ≡ true → IsLawful (base_held p.now sources.now.held) }
    ensures joined { IfOk result (IsJoinedBy p.now sources.now kind (trees_of conditions.now) (trees_of parts.now) marks.now left.now) }
    ensures steps { by_index ≡ true → AllByRecursion (λ e. asks e ≡ false) (trees_of parts.now) → (lead : ℕ) → AreLinked sources.now lead (trees_of conditions.now) → steps.new ≤ steps.old + linked_count sources.now lead + length (joined_tuples kind (conditions_at p.now sources.now (trees_of conditions.now)) marks.now (length (last_of sources.now).rows) left.now.rows.tuples) }
    ensures err { IfErr result (λ e. e ≡ ScalarErr.OutOfMemory) }
{
    let found = found_by_on(
        alloc, kind, conditions, parts, by_index, sources, left, marks, p, steps,
    )?;
    if let Some(joined) = found {
        return Ok(joined);
    }
    if let JoinKind::Inner = kind {
        let found = found_by_all(
            alloc, conditions, parts, by_index, sources, left, marks, p, steps,
        )?;
        if let Some(joined) = found {
            return Ok(joined);
        }
    }
    each_joined(
        alloc, kind, conditions, parts, by_index, sources, left, marks, p, steps,
    )
}

// The tuples at which conditions are true.
fn kept<L: Ledger>(
    alloc: Global,
    conditions: &[&SqlExpr],
    by_index: bool,
    sources: &Sources<'_>,
    from: &Walked,
    p: &Profile,
    steps: &mut Steps<L>,
) -> Result<Walked, ScalarErr>
    requires width { length sources.now.sources ≡ from.now.rows.width }
    requires lawful { by_index ≡ true → IsLawful (base_held p.now sources.now.held) }
    ensures width { IfOk result (λ w. w.rows.width ≡ from.now.rows.width) }
    ensures rows { IfOk result (λ w. w.rows.tuples ≡ kept_tuples (conditions_at p.now sources.now (trees_of conditions.now)) from.now.rows.tuples) }
    ensures seen { IfOk result (λ w. seen_of w.seen ≡ join (seen_of from.now.seen) (kept_fault (conditions_at p.now sources.now (trees_of conditions.now)) from.now.rows.tuples)) }
    ensures steps { AllByRecursion (λ e. asks e ≡ false) (trees_of conditions.now) → steps.new ≡ steps.old }
    ensures err { IfErr result (λ e. e ≡ ScalarErr.OutOfMemory) }
{
    let filter = Conditions::of(alloc, sources, conditions, by_index, p, steps)?;
    keep(alloc, &filter, from)
}

// The kind of a join; CROSS is INNER without a condition.
fn kind_of(join: &Join) -> JoinKind
    ensures { result ≡ kind_of (join_tree join.now) }
{
    match join {
        Join::On { kind, .. } => *kind,
        Join::Cross(_) => JoinKind::Inner,
    }
}

// The condition of a join, if it has one.
fn on_of(alloc: Global, join: &Join) -> Result<Vec<&SqlExpr>, AllocError>
    ensures { IfOk result (λ v. trees_of v.items ≡ on_of (join_tree join.now)) }
{
    let mut conditions = Vec::new(alloc);
    if let Join::On { condition, .. } = join {
        conditions.push(condition)?;
    }
    Ok(conditions)
}

// The sources so far, their tuples, and the fault so far.
struct Joining<'a> {
    sources: Sources<'a>,
    walked: Walked,
}

// Written out, so that a proof sees one call and not the drop of each part.
impl Drop for Joining<'_> {
    fn drop(self) {
        let Joining {
            sources: _sources,
            walked: _walked,
        } = self;
    }
}

// The first source, of this table, with a tuple for each of its rows.
fn first_source<'a>(
    alloc: Global,
    source: &Source,
    table: Option<&'a HeldTable>,
    tables: &'a Given<'a>,
) -> Result<Joining<'a>, AllocError>
    requires typed { IsSourceTyped (tables_held tables.now) [] source.now }
    requires table { option_copied table ≡ maybe_given tables.now source.now }
    ensures held { IfOk result (λ j. j.sources.held ≡ tables.now) }
    ensures source { IfOk result (λ j. j.sources.sources ≡ (source.now.alias, table_given tables.now source.now) ∷ []) }
    ensures stands { IfOk result (λ j. (p : Settings) → StandsFor (first_of (base_held p tables.now) source.now) j.sources j.walked.rows (seen_of j.walked.seen)) }
{
    let sources = Sources::over(alloc, tables).with(source, table)?;
    let count = sources.last_count();
    Ok(Joining {
        sources,
        walked: Walked {
            rows: Tuples::singles(alloc, count)?,
            seen: Seen::Nothing,
        },
    })
}

impl<'a> Joining<'a> {
    // With the source of a join, of this table, and of its tuples those at which conditions are true. Rows are looked up
    // where that is wanted, and so is what EXISTS asks.
    fn with_join<L: Ledger>(
        self,
        alloc: Global,
        join: &Join,
        table: Option<&'a HeldTable>,
        parts: &[&SqlExpr],
        by_index: bool,
        p: &Profile,
        steps: &mut Steps<L>,
    ) -> Result<Joining<'a>, ScalarErr>
        requires whole { self.walked.rows.width ≡ length self.sources.sources }
        requires source { IsSourceTyped (tables_held self.sources.held) (scope_held self.sources.sources) (join_source (join_tree join.now)) }
        requires table { option_copied table ≡ maybe_given self.sources.held (join_source (join_tree join.now)) }
        requires lawful { by_index ≡ true → IsLawful (base_held p.now self.sources.held) }
        ensures held { IfOk result (λ j. j.sources.held ≡ self.entry.sources.held) }
        ensures stands { IfOk result (λ j. (f : Joined) → StandsFor f self.entry.sources self.entry.walked.rows (seen_of self.entry.walked.seen) → StandsFor (fold (try_early (sight_of p.now j.sources)) (with_join (base_held p.now self.entry.sources.held) f (join_tree join.now)) (trees_of parts.now)) j.sources j.walked.rows (seen_of j.walked.seen)) }
        ensures steps { by_index ≡ true → AllByRecursion (λ e. asks e ≡ false) (trees_of parts.now) → (f : Joined) → StandsFor f self.entry.sources self.entry.walked.rows (seen_of self.entry.walked.seen) → JoinsTwo p.now self.entry.sources (join_tree join.now) → steps.new ≤ steps.old + two_counts self.entry.sources (join_tree join.now) + length (with_join (base_held p.now self.entry.sources.held) f (join_tree join.now)).rows }
        ensures err { IfErr result (λ e. e ≡ ScalarErr.OutOfMemory) }
    {
        let Joining { sources, walked } = self;
        let marks = sources.marks(alloc)?;
        let sources = sources.with(source_of(join), table)?;
        let conditions = on_of(alloc, join)?;
        let walked = joined_with(
            alloc,
            kind_of(join),
            &conditions,
            parts,
            by_index,
            &sources,
            &walked,
            &marks,
            p,
            steps,
        )?;
        Ok(Joining { sources, walked })
    }

    // With the tuples at which conditions are true, and their fault beside the one so far.
    fn with_parts<L: Ledger>(
        self,
        alloc: Global,
        parts: &[&SqlExpr],
        by_index: bool,
        p: &Profile,
        steps: &mut Steps<L>,
    ) -> Result<Joining<'a>, ScalarErr>
        requires whole { self.walked.rows.width ≡ length self.sources.sources }
        requires lawful { by_index ≡ true → IsLawful (base_held p.now self.sources.held) }
        ensures sources { IfOk result (λ j. j.sources ≡ self.entry.sources) }
        ensures stands { IfOk result (λ j. (f : Joined) → StandsFor f self.entry.sources self.entry.walked.rows (seen_of self.entry.walked.seen) → StandsFor (fold (try_early (sight_of p.now self.entry.sources)) f (trees_of parts.now)) self.entry.sources j.walked.rows (seen_of j.walked.seen)) }
        ensures steps { AllByRecursion (λ e. asks e ≡ false) (trees_of parts.now) → steps.new ≡ steps.old }
        ensures err { IfErr result (λ e. e ≡ ScalarErr.OutOfMemory) }
    {
        if parts.is_empty() {
            return Ok(self);
        }
        let Joining { sources, walked } = self;
        let walked = kept(alloc, parts, by_index, &sources, &walked, p, steps)?;
        Ok(Joining { sources, walked })
    }

    // The tuples, or the fault so far.
    fn finish(self) -> Result<TupleRows<'a>, ScalarErr>
        requires whole { self.walked.rows.width ≡ length self.sources.sources }
        ensures sources { IfOk result (λ r. r.sources ≡ self.entry.sources) }
        ensures rows { AnswersBy (λ r. rows_for r.sources r.tuples) result (unless (seen_of self.entry.walked.seen) (rows_for self.entry.sources self.entry.walked.rows)) }
    {
        let Joining { sources, walked } = self;
        Ok(TupleRows::of(sources, walked.finish()?))
    }
}

// The sources of a select and the tuples that FROM gives and WHERE keeps, with the fault of every ON, of what is tried early
// and of WHERE. Conditions are tried on the tuples of a join as they are made.
fn joined<'a, L: Ledger>(
    alloc: Global,
    select: &Select,
    from: &'a FromTables<'a>,
    tables: &'a Given<'a>,
    by_index: Option<&[usize]>,
    early: &[Early],
    p: &Profile,
    steps: &mut Steps<L>,
) -> Result<Joining<'a>, ScalarErr>
    requires typed { IsSelectTyped p.now (tables_held tables.now) (select_tree select.now) }
    requires from { from.now ≡ from_given tables.now (select_tree select.now) }
    requires lawful { MayLookUp (base_held p.now tables.now) by_index }
    ensures held { IfOk result (λ j. j.sources.held ≡ tables.now) }
    ensures stands { IfOk result (λ j. StandsFor (filtered (base_held p.now tables.now) (select_tree select.now) early.now) j.sources j.walked.rows (seen_of j.walked.seen)) }
    ensures steps { is_listed by_index.entry 0 ≡ true → IsPlainJoin (select_tree select.now) → steps.new ≤ steps.old + most_steps (base_held p.now tables.now) (select_tree select.now) }
    ensures err { IfErr result (λ e. e ≡ ScalarErr.OutOfMemory) }
{
    let joins = select.joins.as_slice();
    let looks_up = by_index.is_some();
    let parts = conjuncts_of(alloc, &select.condition)?;
    let due = due_parts(alloc, select, &parts, early)?;
    let first = first_source(alloc, &select.from, from.at(0), tables)?;
    let begun = &due[0];
    let mut so_far = first.with_parts(alloc, begun, looks_up, p, steps)?;
    for place in 0..joins.len() {
        let table = from.at(place + 1);
        let next = &due[place + 1];
        so_far = so_far.with_join(alloc, &joins[place], table, next, looks_up, p, steps)?;
    }
    Ok(so_far)
}

/// The rows that FROM gives and WHERE keeps, as tuples of row numbers, with the sources of the select, whose tables are
/// given (`FromTables`): over the tables that the program holds, for a select that is typed over their columns. A fault is the worst of those of every ON, at
/// each pair that it is tried on, and of WHERE, at each row of FROM: a division by zero, wherever it comes, and then
/// what is out of range. It takes memory for the tuples, and copies no cell.
///
/// Where joins are listed, by their places, a join goes by a look-up, in time for the rows of both and the pairs that are found,
/// if its ON can have no fault and one of its parts is an equality of a column of its own source and one of another one; ON is
/// tried on what is found. So does an INNER or CROSS join by an equality of ON or of what WHERE has tried behind it, if
/// none of both can have a fault. So does an EXISTS of an ON or of WHERE one of whose equalities ties a column of its table and
/// one of a source; the others are tried on what is found. Every other join tries each pair, and every other EXISTS walks over
/// its table; so do all of them where no list is given.
///
/// Each part of WHERE that is listed to be tried early is tried before its join too, one after the other: the join sees
/// the rows at which it is true, and its fault is told beside the others. WHERE is tried whole at the end. All of them are
/// tried on the tuples of a join as these are made, and what is not kept takes no memory.
///
/// A step is one row that is added to a look-up, one that asks it, or one pair of rows: each pair that a join by a look-up
/// gives, and each that any other join tries.
pub fn source_tuples<'a, L: Ledger>(
    alloc: Global,
    select: &Select,
    from: &'a FromTables<'a>,
    tables: &'a Given<'a>,
    by_index: Option<&[usize]>,
    early: &[Early],
    p: &Profile,
    steps: &mut Steps<L>,
) -> Result<TupleRows<'a>, ExecErr>
    requires typed { IsSelectTyped p.now (tables_held tables.now) (select_tree select.now) }
    requires from { from.now ≡ from_given tables.now (select_tree select.now) }
    requires lawful { MayLookUp (base_held p.now tables.now) by_index }
    ensures held { IfOk result (λ r. r.sources.held ≡ tables.now) }
    ensures scope { IfOk result (λ r. scope_held r.sources.sources ≡ scope_of (tables_held tables.now) (select_tree select.now)) }
    ensures rows { AnswersBy (λ r. rows_for r.sources r.tuples) result (planned_source_rows (base_held p.now tables.now) (select_tree select.now) [] early.now) }
    ensures steps { is_listed by_index.entry 0 ≡ true → IsPlainJoin (select_tree select.now) → steps.new ≤ steps.old + most_steps (base_held p.now tables.now) (select_tree select.now) }
{
    joined(alloc, select, from, tables, by_index, early, p, steps)?.finish()
}

/// The table of the rows that FROM gives and WHERE keeps: the columns of the sources in order, each named by the alias, a
/// line feed and its name. The select is typed over the columns of the tables that the program holds, and the tables of
/// its sources are given. Each join tries each pair. Faults are those of `source_tuples`; each cell is copied once.
pub fn source_rows<L: Ledger>(
    alloc: Global,
    select: &Select,
    from: &FromTables<'_>,
    tables: &Given<'_>,
    p: &Profile,
    steps: &mut Steps<L>,
) -> Result<Table, ExecErr>
    requires typed { IsSelectTyped p.now (tables_held tables.now) (select_tree select.now) }
    requires from { from.now ≡ from_given tables.now (select_tree select.now) }
    ensures columns { IfOk result (λ t. t.columns ≡ source_columns (scope_of (tables_held tables.now) (select_tree select.now))) }
    ensures rows { AnswersBy (λ t. t.rows) result (source_rows (base_held p.now tables.now) (select_tree select.now)) }
{
    Ok(source_tuples(alloc, select, from, tables, None, &[], p, steps)?.table(alloc)?)
}
