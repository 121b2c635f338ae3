// What the points of groups are made by.
ghost use Rattle.std.specs.Prelude.{◌≡◌, ◌<◌, ◌++◌, ◌∷◌, [], true, IfErr, OnOk, if◌then◌else◌, length, option_map};
ghost use Rattle.vtl_cell.specs.Outcome.{join};
ghost use Rattle.vtl_expr.specs.Prepared.{prepared_exp};
ghost use Rattle.vtl_scalar.specs.Seen.{seen_of};
ghost use Rattle.vtl_group.specs.Calls.{AreWithin, rows_at};
ghost use Rattle.vtl_group.specs.Points.{fault_for, faults_of_calls, passes, row_for, tested, values_of_calls};
ghost use Rattle.vtl_group.specs.Walks.{group_in};
ghost use Rattle.vtl_rows.specs.Tables.{fits};
ghost use Rattle.vtl_scalar.specs.Answers.{Answers};

use crate::calls::{Call, call_value};
use crate::condition::{Group, is_kept};
use std::alloc::{AllocError, Global};
use vtl_cell::Cell;
use vtl_decimal::Profile;
use vtl_expr::{Points, Prepared};
use vtl_rows::Table;
use vtl_scalar::ScalarErr;
use vtl_text::Txt;

/// What a point is made of, besides the rows of its group: the table, the grouping identifiers with their places, the
/// condition, and the aggregates.
pub(crate) struct Recipe<'a> {
    pub(crate) table: &'a Table,
    pub(crate) names: &'a [Txt],
    pub(crate) places: Vec<usize>,
    pub(crate) having: Option<Prepared>,
    pub(crate) calls: Vec<Call>,
}

// Written out, so that each owner sees one call and not the drop of each part.
impl Drop for Recipe<'_> {
    fn drop(self) {
        let Recipe {
            table: _,
            names: _,
            places: _places,
            having: _having,
            calls: _calls,
        } = self;
    }
}

// Puts the values of aggregates behind the cells of the next point.
fn put_values(
    alloc: Global,
    points: &mut Points,
    calls: &[Call],
    table: &Table,
    numbers: &[usize],
    p: &Profile,
) -> Result<(), ScalarErr>
    requires { AreWithin table.now.rows numbers.now }
    ensures table { points.new.table ≡ points.old.table }
    ensures cells { OnOk result (points.new.cells.items ≡ points.old.cells.items ++ values_of_calls p.now calls.now (rows_at table.now.rows numbers.now)) }
    ensures seen { OnOk result (seen_of points.new.seen ≡ join (seen_of points.old.seen) (faults_of_calls p.now calls.now (rows_at table.now.rows numbers.now))) }
    ensures err { IfErr result (λ e. e ≡ ScalarErr.OutOfMemory) }
{
    for call in calls {
        points.put(call_value(alloc, *call, table, numbers, p))?;
    }
    Ok(())
}

impl Recipe<'_> {
    // Begins the point of the group of these rows with the values of the grouping identifiers: those of the first row.
    fn begin(&self, points: &mut Points, numbers: &[usize]) -> Result<(), AllocError>
        requires some { 0 < length numbers.now }
        requires within { AreWithin self.now.table.now.rows numbers.now }
        ensures key { OnOk result (points.new.cells.items ≡ (group_in self.now numbers.now).key) }
        ensures table { points.new.table ≡ points.old.table }
        ensures seen { points.new.seen ≡ points.old.seen }
    {
        points.begin(self.table.row(numbers[0]), &self.places)
    }

    // Whether the group of these rows is kept. Its key is passed in.
    fn keeps(
        &self,
        alloc: Global,
        key: &[Cell],
        numbers: &[usize],
        p: &Profile,
    ) -> Result<bool, ScalarErr>
        requires within { AreWithin self.now.table.now.rows numbers.now }
        requires key { key.now ≡ (group_in self.now numbers.now).key }
        ensures { Answers result (tested p.now (group_in self.now numbers.now) (option_map prepared_exp self.now.having)) }
    {
        let group = Group::of(self.names, key, self.table, numbers);
        is_kept(alloc, &self.having, &group, p)
    }

    // Adds the point of a group that is kept, behind whose key the values are put.
    fn add_point(
        &self,
        alloc: Global,
        points: &mut Points,
        numbers: &[usize],
        p: &Profile,
    ) -> Result<(), ScalarErr>
        requires within { AreWithin self.now.table.now.rows numbers.now }
        requires key { points.old.cells.items ≡ (group_in self.now numbers.now).key }
        requires fits { fits points.old.table.columns (row_for p.now self.now.calls.items (group_in self.now numbers.now)) ≡ true }
        ensures columns { points.new.table.columns ≡ points.old.table.columns }
        ensures rows { OnOk result (points.new.table.rows ≡ points.old.table.rows ++ row_for p.now self.now.calls.items (group_in self.now numbers.now) ∷ []) }
        ensures seen { OnOk result (seen_of points.new.seen ≡ join (seen_of points.old.seen) (faults_of_calls p.now self.now.calls.items (rows_at self.now.table.now.rows numbers.now))) }
        ensures err { IfErr result (λ e. e ≡ ScalarErr.OutOfMemory) }
    {
        put_values(alloc, points, &self.calls, self.table, numbers, p)?;
        Ok(points.add()?)
    }

    /// Adds the point of the group of these rows to others, where it is kept.
    pub(crate) fn push(
        &self,
        alloc: Global,
        points: &mut Points,
        numbers: &[usize],
        p: &Profile,
    ) -> Result<(), ScalarErr>
        requires some { 0 < length numbers.now }
        requires within { AreWithin self.now.table.now.rows numbers.now }
        requires fits { fits points.old.table.columns (row_for p.now self.now.calls.items (group_in self.now numbers.now)) ≡ true }
        ensures columns { points.new.table.columns ≡ points.old.table.columns }
        ensures rows { OnOk result (points.new.table.rows ≡ points.old.table.rows ++ (if passes (tested p.now (group_in self.now numbers.now) (option_map prepared_exp self.now.having)) then row_for p.now self.now.calls.items (group_in self.now numbers.now) ∷ [] else [])) }
        ensures seen { OnOk result (seen_of points.new.seen ≡ join (seen_of points.old.seen) (fault_for p.now (option_map prepared_exp self.now.having) self.now.calls.items (group_in self.now numbers.now))) }
        ensures err { IfErr result (λ e. e ≡ ScalarErr.OutOfMemory) }
    {
        self.begin(points, numbers)?;
        match self.keeps(alloc, &points.cells, numbers, p) {
            Ok(true) => self.add_point(alloc, points, numbers, p),
            Ok(false) => Ok(()),
            Err(error) => {
                points.seen = points.seen.and(error)?;
                Ok(())
            }
        }
    }
}
