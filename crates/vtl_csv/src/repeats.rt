// The first repeat of identifiers. Where one identifier is a number that no other row has, there is none, and no row
// needs to be looked for among the others.
//
// Integers of an identifier that all differ leave no repeat (`first_repeat`): that is seen in one walk with a mark
// for each number, where they lie near together. Only where no identifier is of this kind are rows looked for among
// the others, by hash. A mark stands for a distance from the least number, and equal cells have equal distances; no
// more is proved of it.
ghost use Rattle.std.specs.Prelude.{◌≡◌, ◌<◌, length, All, IfOk};
ghost use Rattle.std.specs.Bool.{OnTrue};
ghost use Rattle.vtl_cell.specs.Row.{column_of};
ghost use Rattle.vtl_rows.specs.Keys.{FindsRepeat};
ghost use Rattle.vtl_csv.specs.Distinct.{AreDistinct, distance_of};

use std::alloc::{AllocError, Global};
use vtl_cell::Cell;
use vtl_rows::Table;

// Numbers that lie further apart than this are not looked at.
const MOST_FOR_A_ROW: usize = 4;

// The least and the greatest integer of a column that has nothing else.
fn bounds(table: &Table, column: usize) -> Option<(i64, i64)> {
    let mut least = i64::MAX;
    let mut most = i64::MIN;
    for i in 0..table.len() {
        match table.row(i).get(column) {
            Some(Cell::Int(n)) => {
                least = least.min(*n);
                most = most.max(*n);
            }
            _ => return None,
        }
    }
    Some((least, most))
}

// How far the integer of a row in a column is from another one.
fn distance_at(row: &[Cell], column: usize, from: i64) -> Option<usize>
    ensures { result ≡ distance_of from (column_of column row.now) }
{
    match row.get(column) {
        Some(Cell::Int(n)) => Some(n.abs_diff(from) as usize),
        _ => None,
    }
}

// Whether the cells of a column are integers of which no two are as far from one that is given; `met` has room for the
// distances that are met.
fn are_distinct(table: &Table, column: usize, from: i64, met: &mut [bool]) -> bool
    ensures { OnTrue result (AreDistinct column table.now.rows (length table.now.rows)) }
{
    for i in 0..table.len() {
        let Some(distance) = distance_at(table.row(i), column, from) else {
            return false;
        };
        if distance >= met.len() || met[distance] {
            return false;
        }
        met[distance] = true;
    }
    true
}

// Whether the cells of a column are integers, each another one, which lie near together.
fn has_distinct_integers(alloc: Global, table: &Table, column: usize) -> Result<bool, AllocError>
    ensures { IfOk result (λ b. OnTrue b (AreDistinct column table.now.rows (length table.now.rows))) }
{
    let Some((least, most)) = bounds(table, column) else {
        return Ok(false);
    };
    let count = (most.abs_diff(least) as usize).saturating_add(1);
    if count < table.len() || count / MOST_FOR_A_ROW > table.len() {
        return Ok(false);
    }
    let mut met = vec![in alloc; false; count]?;
    Ok(are_distinct(table, column, least, &mut met))
}

/// The first row that agrees in the columns of a key with one before it, if there is one. It fails only if memory runs
/// out.
pub(crate) fn first_repeat(
    alloc: Global,
    table: &Table,
    keys: &[usize],
) -> Result<Option<usize>, AllocError>
    requires { All (λ i. i < length table.now.columns) keys.now }
    ensures { IfOk result (FindsRepeat keys.now table.now.rows) }
{
    for key in keys {
        if has_distinct_integers(alloc, table, *key)? {
            return Ok(None);
        }
    }
    table.first_repeat(alloc, keys)
}
