// Some of the columns of a data set.
//
// `keep`, `drop` and `a#m` take the data set itself: where all columns stay in their order the table stays, and where
// nobody else owns it the cells that stay are moved. `rename` shares its cells.
ghost use Rattle.std.specs.Prelude.{◌≡◌, ℕ, IfOk, List};
ghost use Rattle.vtl_tree.specs.Structure.{columns_of};
ghost use Rattle.vtl_sets.specs.DataSets.{data_set};
ghost use Rattle.vtl_tree.specs.Columns.{places_in};
ghost use Rattle.vtl_tree.specs.declared.choices.Choice.{Choice};
ghost use Rattle.vtl_tree.specs.declared.names.Wanted.{Wanted};
ghost use Rattle.vtl_meaning.specs.Made.{IsLeft};
ghost use Rattle.vtl_meaning.specs.Operators.{left_of};
ghost use Rattle.vtl_meaning.specs.Shapes.{IsChosen};
ghost use Rattle.vtl_sets.specs.TableOf.{IsTableOf};

use crate::places::places_in;
use std::alloc::{AllocError, Global};
use vtl_rows::SharedTable;
use vtl_sets::DataSet;
use vtl_tree::Structure;

// The places of the columns of a structure.
fn kept_places(alloc: Global, a: &DataSet, made: &Structure) -> Result<Vec<usize>, AllocError>
    ensures { IfOk result (λ v. v.items ≡ places_in (columns_of a.now.structure) (columns_of made.now)) }
{
    let columns = made.columns(alloc)?;
    places_in(alloc, a.structure(), &columns)
}

// The table of the columns of a structure.
fn kept_table(alloc: Global, a: DataSet, made: &Structure) -> Result<SharedTable, AllocError>
    requires { IsLeft a.structure made.now }
    ensures table { IfOk result (IsTableOf made.now) }
    ensures rows { IfOk result (λ t. t.rows ≡ left_of a made.now) }
{
    let places = kept_places(alloc, &a, made)?;
    a.into_shared_table().into_projected(alloc, &places)
}

/// The points with the columns of this structure alone, which has all identifiers and what some names choose: `keep`,
/// `drop` and `a#m`. The table stays where these are all columns in their order. Else its cells are moved together where
/// it has no other owner and the columns keep their order, and are copied where not. It fails only if memory runs out.
pub fn keep_columns(alloc: Global, a: DataSet, made: &Structure) -> Result<DataSet, AllocError>
    requires left { IsLeft a.structure made.now }
    requires chosen { (w : Wanted) × (c : Choice) × (names : List (List ℕ)) × IsChosen w c names a.structure made.now }
    ensures { IfOk result (λ d. d ≡ data_set made.now (left_of a made.now)) }
{
    let table = kept_table(alloc, a, made)?;
    DataSet::shared(alloc, made, table)
}
