// `rename`
ghost use Rattle.std.specs.Prelude.{◌≡◌, IfOk, List};
ghost use Rattle.vtl_sets.specs.DataSets.{data_set};
ghost use Rattle.vtl_meaning.specs.Made.{IsRenamed};
ghost use Rattle.vtl_meaning.specs.Shapes.{IsRenamedBy};
ghost use Rattle.vtl_tree.specs.declared.renaming.Renaming.{Renaming};
ghost use Rattle.vtl_sets.specs.TableOf.{IsTableOf};

use std::alloc::{AllocError, Global};
use vtl_rows::SharedTable;
use vtl_sets::{DataSet, table_columns};
use vtl_tree::Structure;

fn renamed_table(alloc: Global, a: &DataSet, made: &Structure) -> Result<SharedTable, AllocError>
    requires { IsRenamed a.now.structure made.now }
    ensures table { IfOk result (IsTableOf made.now) }
    ensures rows { IfOk result (λ t. t.rows ≡ a.now.points) }
{
    let columns = table_columns(alloc, made)?;
    let table = a.share_table()?;
    Ok(table.with_columns(columns))
}

/// The same points under the names that pairs of names give: their cells are shared, and none is copied. It fails only if
/// memory runs out.
pub fn rename(alloc: Global, a: &DataSet, made: &Structure) -> Result<DataSet, AllocError>
    requires made { IsRenamed a.now.structure made.now }
    requires pairs { (pairs : List Renaming) × IsRenamedBy pairs a.now.structure made.now }
    ensures { IfOk result (λ d. d ≡ data_set made.now a.now.points) }
{
    let table = renamed_table(alloc, a, made)?;
    DataSet::shared(alloc, made, table)
}
