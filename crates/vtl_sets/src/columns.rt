// The columns of the tables of data sets.
ghost use Rattle.std.specs.Prelude.{◌≡◌, [], IfOk};
ghost use Rattle.vtl_tree.specs.Structure.{IsStructure};
ghost use Rattle.vtl_sets.specs.TableOf.{column_for, table_columns};

use std::alloc::{AllocError, Global};
use vtl_rows::{Column, Table};
use vtl_tree::{Component, Structure};

/// The column of a component, whose name is shared. It fails only if memory runs out.
pub fn table_column(component: &Component) -> Result<Column, AllocError>
    ensures { IfOk result (λ column. column ≡ column_for component.now) }
{
    Ok(Column {
        name: component.name.share()?,
        kind: component.kind,
    })
}

/// The columns of the tables of a structure's data sets. It fails only if memory runs out.
pub fn table_columns(alloc: Global, structure: &Structure) -> Result<Vec<Column>, AllocError>
    ensures { IfOk result (λ v. v.items ≡ table_columns structure.now) }
{
    let columns = structure.columns(alloc)?;
    let mut table_columns = Vec::with_capacity(alloc, columns.len())?;
    for column in columns.as_slice() {
        table_columns.push(table_column(column)?)?;
    }
    Ok(table_columns)
}

/// A table of no rows below the columns of a structure. It fails only if memory runs out.
pub fn new_table(alloc: Global, structure: &Structure) -> Result<Table, AllocError>
    requires { IsStructure structure.now }
    ensures columns { IfOk result (λ t. t.columns ≡ table_columns structure.now) }
    ensures rows { IfOk result (λ t. t.rows ≡ []) }
{
    Ok(Table::new(alloc, table_columns(alloc, structure)?))
}
