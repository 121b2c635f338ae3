// The condition of groups.
//
// The condition is prepared once and evaluated at each group as other expressions are at points: names are found at
// each group, which is little beside going over its rows, and an aggregate is computed only where the expression
// reaches it.
ghost use Rattle.std.specs.Prelude.{◌≡◌, option_map};
ghost use Rattle.std.specs.List.{position_or_len};
ghost use Rattle.vtl_meaning.specs.GroupExpressions.{grouped_cell};
ghost use Rattle.vtl_expr.specs.Prepared.{prepared_exp};
ghost use Rattle.vtl_group.specs.Calls.{AreWithin, rows_at};
ghost use Rattle.vtl_group.specs.Points.{called_in, tested};
ghost use Rattle.vtl_scalar.specs.Answers.{Answers};
ghost use Rattle.vtl_tree.specs.Structure.{same_name};

use crate::calls::{call_value, placed};
use std::alloc::Global;
use std::marker::Model;
use vtl_cell::Cell;
use vtl_decimal::Profile;
use vtl_expr::{Cells, Prepared, cell_at, value_at};
use vtl_rows::Table;
use vtl_scalar::{Given, ScalarErr};
use vtl_text::Txt;
use vtl_tree::AggCall;

/// A group, as its condition sees it: the names of the grouping identifiers with their values, and the numbers of its
/// rows in a table. All is lent.
pub(crate) struct Group<'a> {
    names: &'a [Txt],
    key: &'a [Cell],
    table: &'a Table,
    numbers: &'a [usize],
}

// Written out, so that an owner sees one call.
impl Drop for Group<'_> {
    fn drop(self) {
        let Group {
            names: _,
            key: _,
            table: _,
            numbers: _,
        } = self;
    }
}

impl<'a> Model for Group<'a> {
    ghost use Rattle.vtl_group.specs.Calls.{AreWithin, rows_at};
    ghost use Rattle.vtl_group.specs.Points as points;

    ghost Value = { points.Group };

    ghost view = { λ g. record { names = g.names.now; key = g.key.now; columns = g.table.now.columns; points = rows_at g.table.now.rows g.numbers.now } };

    ghost invariant = { λ g. AreWithin g.table.now.rows g.numbers.now };
}

// The place of a name among others, or their number where it is not among them.
fn place_among(names: &[Txt], name: &Txt) -> usize
    ensures { result ≡ position_or_len (same_name name.now) names.now }
{
    for i in 0..names.len() {
        if *name == names[i] {
            return i;
        }
    }
    names.len()
}

impl<'a> Group<'a> {
    /// The group of the rows with these numbers, whose values of the grouping identifiers are these.
    pub(crate) fn of(
        names: &'a [Txt],
        key: &'a [Cell],
        table: &'a Table,
        numbers: &'a [usize],
    ) -> Group<'a>
        requires { AreWithin table.now.rows numbers.now }
        ensures names { result.names ≡ names.now }
        ensures key { result.key ≡ key.now }
        ensures columns { result.columns ≡ table.now.columns }
        ensures points { result.points ≡ rows_at table.now.rows numbers.now }
    {
        Group {
            names,
            key,
            table,
            numbers,
        }
    }
}

impl<'a> Cells for Group<'a> {
    ghost columns = { λ g. grouped_cell g.names g.key };

    ghost aggregates = { λ g p. called_in p g };

    fn column(&self, _: usize, name: &Txt) -> Given<'_> {
        cell_at(self.key, place_among(self.names, name))
    }

    fn aggregate(&self, alloc: Global, call: &AggCall, p: &Profile) -> Result<Cell, ScalarErr> {
        let call = placed(self.table.columns(), call.kind, &call.component);
        call_value(alloc, call, self.table, self.numbers, p)
    }
}

/// Whether a group is kept: where the condition is true, or where there is none. The answer is the fault that the
/// condition has at the group; otherwise it fails only if memory runs out.
pub(crate) fn is_kept(
    alloc: Global,
    having: &Option<Prepared>,
    at: &Group<'_>,
    p: &Profile,
) -> Result<bool, ScalarErr>
    ensures { Answers result (tested p.now at.now (option_map prepared_exp having.now)) }
{
    match having {
        Some(condition) => {
            let value = value_at(alloc, condition, at, p)?;
            Ok(matches!(value.cell(), Cell::Bool(true)))
        }
        None => Ok(true),
    }
}
