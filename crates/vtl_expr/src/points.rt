// Points that are made one after the other.
//
// A result is filled through one list, which is emptied before each point and whose cells move into the table; the
// table has room for as many rows as the operand that leads.
//
// An evaluated row is put into the table also where it has a fault; the table is given up at the end.
ghost use Rattle.std.specs.Prelude.{◌≡◌, true, ◌++◌, ◌∷◌, [], map, IfOk, IfErr, OnOk, None};
ghost use Rattle.vtl_cell.specs.Outcome.{Outcome, fault_in, join, unless};
ghost use Rattle.vtl_cell.specs.declared.cell.Cell.{Cell};
ghost use Rattle.vtl_rows.specs.Tables.{cells_at, fits};
ghost use Rattle.vtl_scalar.specs.Answers.{Answers, AnswersBy};
ghost use Rattle.vtl_tree.specs.Structure.{IsStructure, columns_of};
ghost use Rattle.vtl_tree.specs.View.{comp_exp_of};
ghost use Rattle.vtl_sets.specs.TableOf.{table_columns};
ghost use Rattle.vtl_meaning.specs.Made.{AreFor};
ghost use Rattle.vtl_meaning.specs.Points.{cell_or_null, each_point, point_fault, point_of};
ghost use Rattle.vtl_expr.specs.Prepared.{prepared_exp};
ghost use Rattle.vtl_scalar.specs.Seen.{answer_of, seen_of};

use crate::places::push_cells;
use crate::point::Point;
use crate::prepared::{Prepared, prepare_all};
use std::alloc::{AllocError, Global};
use vtl_cell::Cell;
use vtl_decimal::Profile;
use vtl_rows::Table;
use vtl_scalar::{ScalarErr, Seen};
use vtl_sets::{DataSet, new_table};
use vtl_tree::{CompExpr, Structure};

/// A table of the points so far, the cells of the next one, and the fault of the values that were put there.
pub struct Points {
    /// The table of the points so far.
    pub table: Table,
    /// The cells of the next point.
    pub cells: Vec<Cell>,
    /// The fault of the values so far.
    pub seen: Seen,
}

// Written out, so that each owner sees one call and not the drop of each part.
impl Drop for Points {
    fn drop(self) {
        let Points {
            table: _table,
            cells: _cells,
            seen: _seen,
        } = self;
    }
}

impl Points {
    /// No points, with the columns of a structure and room for so many. It fails only if memory runs out.
    pub fn new(alloc: Global, made: &Structure, count: usize) -> Result<Points, AllocError>
        requires { IsStructure made.now }
        ensures columns { IfOk result (λ points. points.table.columns ≡ table_columns made.now) }
        ensures rows { IfOk result (λ points. points.table.rows ≡ []) }
        ensures seen { IfOk result (λ points. seen_of points.seen ≡ None) }
    {
        let mut table = new_table(alloc, made)?;
        table.reserve_rows(count)?;
        Ok(Points {
            table,
            cells: Vec::new(alloc),
            seen: Seen::Nothing,
        })
    }

    /// Begins the next point, with the cells at places of a row. It fails only if memory runs out.
    pub fn begin(&mut self, row: &[Cell], places: &[usize]) -> Result<(), AllocError>
        ensures cells { OnOk result (self.new.cells.items ≡ cells_at places.now row.now) }
        ensures table { self.new.table ≡ self.old.table }
        ensures seen { self.new.seen ≡ self.old.seen }
    {
        self.cells.clear();
        push_cells(&mut self.cells, row, places)
    }

    /// Puts a value behind the cells of the next point, or null where it has a fault, which is noted. It fails only if
    /// memory runs out.
    pub fn put(&mut self, value: Result<Cell, ScalarErr>) -> Result<(), ScalarErr>
        ensures table { self.new.table ≡ self.old.table }
        ensures cells { OnOk result ((m : Outcome Cell) → Answers value m → self.new.cells.items ≡ self.old.cells.items ++ cell_or_null m ∷ []) }
        ensures seen { OnOk result ((m : Outcome Cell) → Answers value m → seen_of self.new.seen ≡ join (seen_of self.old.seen) (fault_in m)) }
        ensures err { IfErr result (λ e. e ≡ ScalarErr.OutOfMemory) }
    {
        match value {
            Ok(cell) => self.cells.push(cell)?,
            Err(error) => {
                self.seen = self.seen.and(error)?;
                self.cells.push(Cell::Null)?;
            }
        }
        Ok(())
    }

    /// Adds the next point. It fails only if memory runs out.
    pub fn add(&mut self) -> Result<(), AllocError>
        requires { fits self.old.table.columns self.old.cells.items ≡ true }
        ensures columns { self.new.table.columns ≡ self.old.table.columns }
        ensures rows { OnOk result (self.new.table.rows ≡ self.old.table.rows ++ self.old.cells.items ∷ []) }
        ensures seen { self.new.seen ≡ self.old.seen }
    {
        self.table.push_moved(&mut self.cells)
    }

    /// The table, unless a value has a fault.
    pub fn finish(self) -> Result<Table, ScalarErr>
        ensures { result ≡ answer_of (unless (seen_of self.seen) self.table) }
    {
        let Points {
            table,
            cells: _cells,
            seen,
        } = self;
        seen.unless(table)
    }
}

// Puts the values of expressions at a point behind the cells of the next one.
fn put_values(
    alloc: Global,
    points: &mut Points,
    exps: &[Prepared],
    at: &Point<'_>,
    p: &Profile,
) -> Result<(), ScalarErr>
    ensures table { points.new.table ≡ points.old.table }
    ensures cells { OnOk result (points.new.cells.items ≡ points.old.cells.items ++ point_of p.now (map prepared_exp exps.now) at.now) }
    ensures seen { OnOk result (seen_of points.new.seen ≡ join (seen_of points.old.seen) (point_fault p.now (map prepared_exp exps.now) at.now)) }
    ensures err { IfErr result (λ e. e ≡ ScalarErr.OutOfMemory) }
{
    for e in exps {
        points.put(at.cell(alloc, e, p))?;
    }
    Ok(())
}

// Adds the point of the values of expressions at a point.
pub(crate) fn push_values(
    alloc: Global,
    points: &mut Points,
    exps: &[Prepared],
    at: &Point<'_>,
    p: &Profile,
) -> Result<(), ScalarErr>
    requires { fits points.old.table.columns (point_of p.now (map prepared_exp exps.now) at.now) ≡ true }
    ensures columns { points.new.table.columns ≡ points.old.table.columns }
    ensures rows { OnOk result (points.new.table.rows ≡ points.old.table.rows ++ point_of p.now (map prepared_exp exps.now) at.now ∷ []) }
    ensures seen { OnOk result (seen_of points.new.seen ≡ join (seen_of points.old.seen) (point_fault p.now (map prepared_exp exps.now) at.now)) }
    ensures err { IfErr result (λ e. e ≡ ScalarErr.OutOfMemory) }
{
    points.begin(&[], &[])?;
    put_values(alloc, points, exps, at, p)?;
    Ok(points.add()?)
}

/// A table of the values of expressions at each point, or their fault: division by zero where one of them has it,
/// otherwise out of range where one has it.
pub fn each_point(
    alloc: Global,
    exps: &[CompExpr],
    a: &DataSet,
    made: &Structure,
    p: &Profile,
) -> Result<Table, ScalarErr>
    requires structure { IsStructure made.now }
    requires expressions { AreFor p.now (columns_of a.now.structure) (map comp_exp_of exps.now) (columns_of made.now) }
    ensures columns { IfOk result (λ t. t.columns ≡ table_columns made.now) }
    ensures rows { AnswersBy (λ t. t.rows) result (each_point p.now (map comp_exp_of exps.now) a.now.points) }
{
    let prepared = prepare_all(alloc, exps)?;
    let table = a.table();
    let mut points = Points::new(alloc, made, table.len())?;
    for i in 0..table.len() {
        push_values(alloc, &mut points, &prepared, &Point::of(table.row(i)), p)?;
    }
    points.finish()
}
