// Groups of the rows of a table by the cells in listed columns.
ghost use Rattle.std.specs.Prelude.{◌≡◌, map, IfOk};
ghost use Rattle.vtl_rows.specs.Tables.{cells_at};
ghost use Rattle.vtl_index.specs.Leads.{leads_of};
ghost use Rattle.vtl_index.specs.RowKeys.{as_it_is};

use crate::Groups;
use crate::finder::led_of;
use crate::row_keys::{KeyColumn, KeyForm, KeyedRows};
use std::alloc::{AllocError, Global};
use vtl_decimal::{Profile, Rounding};
use vtl_rows::Table;

// The columns of a key whose cells count as they are.
pub(crate) fn key_of_columns(alloc: Global, columns: &[usize]) -> Result<Vec<KeyColumn>, AllocError>
    ensures { IfOk result (λ key. key.items ≡ map as_it_is columns.now) }
{
    columns
        .iter()
        .map(|column| KeyColumn {
            column: *column,
            form: KeyForm::AsIs,
        })
        .collect(alloc)
}

// Some profile, for keys that make no numbers.
pub(crate) fn any_profile() -> Profile {
    match Profile::new(0, Rounding::Down) {
        Some(p) => p,
        None => unreachable!(),
    }
}

impl Groups {
    /// The groups of a table's rows by their cells in these columns, null being a value like any other; a row counts as
    /// null after its end. It fails only if memory runs out.
    pub fn by(alloc: Global, table: &Table, columns: &[usize]) -> Result<Groups, AllocError>
        ensures { IfOk result (λ g. g ≡ leads_of (cells_at columns.now) table.now.rows) }
    {
        let key = key_of_columns(alloc, columns)?;
        let p = any_profile();
        let led = led_of(
            alloc,
            &KeyedRows {
                table,
                columns: &key,
                p: &p,
            },
        )?;
        Groups::from_leads(alloc, led.into_leads())
    }
}
