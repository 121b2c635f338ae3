// Tables in the order of an export, or with their rows as they were made.
ghost use Rattle.std.specs.Prelude.{◌≡◌, ◌<◌, ◌++◌, ◌∷◌, [], All, IfOk, OnOk, Some, length, map};
ghost use Rattle.std.specs.List.{position_or_len, range_with_len};
ghost use Rattle.std.specs.Map.{keys_of};
ghost use Rattle.vtl_cell.specs.Sorted.{rising};
ghost use Rattle.vtl_text.specs.Texts.{same_text};
ghost use Rattle.vtl_rows.specs.Keys.{key_of};
ghost use Rattle.vtl_rows.specs.Tables.{listed};
ghost use Rattle.sql_check_laws.specs.Statements.{AreNames};
ghost use Rattle.sql_meaning.specs.Scripts.{sort_key};
ghost use Rattle.sql_meaning.specs.Tables.{column_entry};
ghost use Rattle.sql_engine.specs.Exported.{ordered_by, placed_by};

use std::alloc::{AllocError, Global};
use vtl_rows::{Column, SharedTable, SortKey, Table};
use vtl_text::Txt;

/// The order in which exports give their rows.
#[derive(Clone, Copy)]
pub(crate) enum RowOrder {
    /// By the columns that the export lists, and then by all.
    Sorted,
    /// As the rows were made.
    AsMade,
}

// The place of a column; of a name that is none their number.
fn place_of(columns: &[Column], name: &Txt) -> usize
    ensures { result ≡ position_or_len (same_text name.now) (keys_of (map column_entry columns.now)) }
{
    for (place, column) in columns.iter().enumerate() {
        if *name == column.name {
            return place;
        }
    }
    columns.len()
}

fn push_rising(keys: &mut Vec<SortKey>, column: usize) -> Result<(), AllocError>
    ensures { OnOk result (map key_of keys.new.items ≡ map key_of keys.old.items ++ rising column ∷ []) }
{
    keys.push(SortKey {
        column,
        falling: false,
    })?;
    Ok(())
}

// Adds the columns of these names as keys that rise.
fn push_listed(keys: &mut Vec<SortKey>, columns: &[Column], names: &[Txt]) -> Result<(), AllocError>
    ensures { OnOk result (map key_of keys.new.items ≡ map key_of keys.old.items ++ map (sort_key (map column_entry columns.now)) names.now) }
{
    for name in names {
        push_rising(keys, place_of(columns, name))?;
    }
    Ok(())
}

// Adds the first columns as keys that rise.
fn push_first(keys: &mut Vec<SortKey>, count: usize) -> Result<(), AllocError>
    ensures { OnOk result (map key_of keys.new.items ≡ map key_of keys.old.items ++ map rising (range_with_len 0 count)) }
{
    for column in 0..count {
        push_rising(keys, column)?;
    }
    Ok(())
}

// The keys of listed columns, and then of all.
fn sort_keys(alloc: Global, columns: &[Column], names: &[Txt]) -> Result<Vec<SortKey>, AllocError>
    ensures { IfOk result (λ keys. map key_of keys.items ≡ map (sort_key (map column_entry columns.now)) names.now ++ map rising (range_with_len 0 (length columns.now))) }
{
    let mut keys = Vec::new(alloc);
    push_listed(&mut keys, columns, names)?;
    push_first(&mut keys, columns.len())?;
    Ok(keys)
}

// The table with its rows in order: by listed columns, and then by all.
fn ordered(alloc: Global, table: SharedTable, names: &[Txt]) -> Result<Table, AllocError>
    requires { AreNames (map column_entry table.columns) names.now }
    ensures { IfOk result (λ t. listed t ≡ ordered_by names.now table) }
{
    let mut table = table.into_table(alloc)?;
    let keys = sort_keys(alloc, table.columns(), names)?;
    table.sort_by_columns(alloc, &keys)?;
    Ok(table)
}

/// The table with its rows in this order, where the names are those of the columns that are listed. Rows that stay as
/// they were made are not copied. It fails only if memory runs out.
pub(crate) fn placed(
    alloc: Global,
    table: SharedTable,
    names: &[Txt],
    order: RowOrder,
) -> Result<SharedTable, AllocError>
    requires { AreNames (map column_entry table.columns) names.now }
    ensures { IfOk result (λ t. t ≡ placed_by order names.now table) }
{
    match order {
        RowOrder::Sorted => {
            let sorted = ordered(alloc, table, names)?;
            SharedTable::of(alloc, sorted)
        }
        RowOrder::AsMade => Ok(table),
    }
}
