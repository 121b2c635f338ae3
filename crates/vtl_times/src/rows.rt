// The table of columns, point by point.
ghost use Rattle.std.specs.Prelude.{◌≡◌, ◌<◌, ◌++◌, [], ◌∷◌, true, length, map, IfOk, IfErr, OnOk};
ghost use Rattle.vtl_cell.specs.Outcome.{join};
ghost use Rattle.vtl_rows.specs.Tables.{fits};
ghost use Rattle.vtl_scalar.specs.Answers.{AnswersBy};
ghost use Rattle.vtl_scalar.specs.Seen.{seen_of};
ghost use Rattle.vtl_sets.specs.TableOf.{table_columns};
ghost use Rattle.vtl_tree.specs.Structure.{IsStructure};
ghost use Rattle.vtl_times.specs.Columns.{FitEach, cells_of, column_value, fault_of, row_values, rows_of};

use crate::column::Column;
use std::alloc::Global;
use vtl_cell::Cell;
use vtl_decimal::Profile;
use vtl_expr::Points;
use vtl_rows::Table;
use vtl_scalar::ScalarErr;
use vtl_sets::DataSet;
use vtl_tree::Structure;

// Puts the values of columns at the point of a number behind the cells of the next one.
fn put_values(
    alloc: Global,
    points: &mut Points,
    columns: &[Column],
    row: &[Cell],
    i: usize,
    p: &Profile,
) -> Result<(), ScalarErr>
    ensures table { points.new.table ≡ points.old.table }
    ensures cells { OnOk result (points.new.cells.items ≡ points.old.cells.items ++ cells_of (map (column_value p.now row.now i) columns.now)) }
    ensures seen { OnOk result (seen_of points.new.seen ≡ join (seen_of points.old.seen) (fault_of (map (column_value p.now row.now i) columns.now))) }
    ensures err { IfErr result (λ e. e ≡ ScalarErr.OutOfMemory) }
{
    for column in columns {
        points.put(column.value(alloc, row, i, p))?;
    }
    Ok(())
}

// Adds the point of the values of columns.
fn push_values(
    alloc: Global,
    points: &mut Points,
    columns: &[Column],
    row: &[Cell],
    i: usize,
    p: &Profile,
) -> Result<(), ScalarErr>
    requires { fits points.old.table.columns (cells_of (map (column_value p.now row.now i) columns.now)) ≡ true }
    ensures columns { points.new.table.columns ≡ points.old.table.columns }
    ensures rows { OnOk result (points.new.table.rows ≡ points.old.table.rows ++ cells_of (map (column_value p.now row.now i) columns.now) ∷ []) }
    ensures seen { OnOk result (seen_of points.new.seen ≡ join (seen_of points.old.seen) (fault_of (map (column_value p.now row.now i) columns.now))) }
    ensures err { IfErr result (λ e. e ≡ ScalarErr.OutOfMemory) }
{
    points.begin(&[], &[])?;
    put_values(alloc, points, columns, row, i, p)?;
    Ok(points.add()?)
}

/// A table of the values of columns at each point, or their fault: division by zero where one of them has it, otherwise
/// out of range where one has it.
pub(crate) fn each_row(
    alloc: Global,
    columns: &[Column],
    a: &DataSet,
    made: &Structure,
    p: &Profile,
) -> Result<Table, ScalarErr>
    requires structure { IsStructure made.now }
    requires fits { FitEach (table_columns made.now) (row_values p.now columns.now a.now.points) (length a.now.points) }
    ensures columns { IfOk result (λ t. t.columns ≡ table_columns made.now) }
    ensures rows { AnswersBy (λ t. t.rows) result (rows_of (row_values p.now columns.now a.now.points) (length a.now.points)) }
{
    let table = a.table();
    let mut points = Points::new(alloc, made, table.len())?;
    for i in 0..table.len() {
        push_values(alloc, &mut points, columns, table.row(i), i, p)?;
    }
    points.finish()
}
