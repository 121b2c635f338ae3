// The points of an operand in the columns of a result.
ghost use Rattle.std.specs.List.{range_with_len};
ghost use Rattle.std.specs.Prelude.{◌≡◌, map, All, IfOk};
ghost use Rattle.vtl_rows.specs.Places.{row_at};
ghost use Rattle.vtl_tree.specs.DataSet.{IsDataSet};
ghost use Rattle.vtl_tree.specs.Structure.{columns_of, key_width};
ghost use Rattle.vtl_sets.specs.TableOf.{table_columns};
ghost use Rattle.vtl_tree.specs.Columns.{identifiers_of, places_in};
ghost use Rattle.vtl_meaning.specs.Operators.{left_of};
ghost use Rattle.vtl_combine.specs.Operands.{HasColumns, left_at, pick_at};

use std::alloc::{AllocError, Global};
use vtl_cell::Cell;
use vtl_expr::places_in;
use vtl_rows::{Pick, Table, gather_beside};
use vtl_sets::{DataSet, table_columns};
use vtl_tree::Structure;

// The numbers below a bound, rising.
pub(crate) fn numbers(alloc: Global, count: usize) -> Result<Vec<usize>, AllocError>
    ensures { IfOk result (λ v. v.items ≡ range_with_len 0 count) }
{
    let mut numbers = Vec::with_capacity(alloc, count)?;
    for i in 0..count {
        numbers.push(i)?;
    }
    Ok(numbers)
}

// The places of a structure's identifiers in its points, where they stand first.
pub(crate) fn own_key(alloc: Global, structure: &Structure) -> Result<Vec<usize>, AllocError>
    ensures { IfOk result (λ v. v.items ≡ range_with_len 0 (key_width structure.now)) }
{
    numbers(alloc, structure.key_width())
}

// The row of a number, or no cells past the last one.
pub(crate) fn row_or_none(table: &Table, row: usize) -> &[Cell]
    ensures { result.now ≡ row_at table.now.rows row }
{
    if row < table.len() {
        table.row(row)
    } else {
        &[]
    }
}

// The places of a result's identifiers in an operand.
pub(crate) fn key_places(
    alloc: Global,
    operand: &DataSet,
    made: &Structure,
) -> Result<Vec<usize>, AllocError>
    ensures { IfOk result (λ v. v.items ≡ places_in (columns_of operand.now.structure) (identifiers_of made.now)) }
{
    let identifiers = made.identifiers(alloc)?;
    places_in(alloc, operand.structure(), &identifiers)
}

// The places of a result's columns in an operand.
fn left_places(alloc: Global, operand: &DataSet, made: &Structure) -> Result<Vec<usize>, AllocError>
    ensures { IfOk result (λ v. v.items ≡ places_in (columns_of operand.now.structure) (columns_of made.now)) }
{
    let columns = made.columns(alloc)?;
    places_in(alloc, operand.structure(), &columns)
}

// All points of an operand.
pub(crate) fn all_rows(
    alloc: Global,
    operand: &DataSet,
    made: &Structure,
) -> Result<Table, AllocError>
    requires { HasColumns made.now operand.now.structure }
    ensures columns { IfOk result (λ t. t.columns ≡ table_columns made.now) }
    ensures rows { IfOk result (λ t. t.rows ≡ left_of operand.now made.now) }
{
    let places = left_places(alloc, operand, made)?;
    operand.table().project(alloc, &places)
}

// Cells at places of the only part.
fn picks(alloc: Global, places: &[usize]) -> Result<Vec<Pick>, AllocError>
    ensures { IfOk result (λ v. v.items ≡ map pick_at places.now) }
{
    places
        .iter()
        .map(|place| Pick {
            part: 0,
            column: *place,
        })
        .collect(alloc)
}

// The points of an operand that have these row numbers. Each cell is copied once.
pub(crate) fn chosen_rows(
    alloc: Global,
    operand: &DataSet,
    rows: &[usize],
    made: &Structure,
) -> Result<Table, AllocError>
    requires { HasColumns made.now operand.now.structure }
    ensures columns { IfOk result (λ t. t.columns ≡ table_columns made.now) }
    ensures rows { IfOk result (λ t. t.rows ≡ map (left_at operand.now made.now) rows.now) }
{
    let picks = picks(alloc, &left_places(alloc, operand, made)?)?;
    let columns = table_columns(alloc, made)?;
    gather_beside(alloc, &[operand.table()], rows, &picks, columns)
}

// Each operand is a data set, as it tells of itself.
pub(crate) fn are_data_sets(operands: &[&DataSet])
    ensures { All (λ d. IsDataSet d.now.structure d.now.points) operands.now }
{
    for operand in operands {
        operand.structure();
    }
}
