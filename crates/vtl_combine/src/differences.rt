// `setdiff` and `symdiff`
ghost use Rattle.std.specs.Prelude.{◌≡◌, [], ◌∷◌, IfOk};
ghost use Rattle.vtl_rows.specs.Tables.{listed};
ghost use Rattle.vtl_sets.specs.DataSets.{data_set};
ghost use Rattle.vtl_sets.specs.TableOf.{IsTableOf, table_columns};
ghost use Rattle.vtl_meaning.specs.Made.{IsCombined};
ghost use Rattle.vtl_meaning.specs.Sets.{difference_of, symmetric_difference_of};
ghost use Rattle.vtl_combine.specs.Operands.{HasColumns};

use crate::retaining::retained;
use crate::rows::{are_data_sets, chosen_rows, numbers};
use std::alloc::{AllocError, Global};
use vtl_rows::Table;
use vtl_sets::DataSet;
use vtl_syntax::Retain;
use vtl_tree::Structure;

// The points of an operand whose identifiers another one lacks.
pub(crate) fn reduced_rows(
    alloc: Global,
    a: &DataSet,
    b: &DataSet,
    made: &Structure,
) -> Result<Table, AllocError>
    requires { HasColumns made.now a.now.structure }
    ensures columns { IfOk result (λ t. t.columns ≡ table_columns made.now) }
    ensures rows { IfOk result (λ t. t.rows ≡ difference_of a.now b.now made.now) }
{
    let rows = numbers(alloc, a.table().len())?;
    let rows = retained(alloc, Retain::False, a, &rows, b, made)?;
    chosen_rows(alloc, a, &rows, made)
}

fn difference_table(
    alloc: Global,
    a: &DataSet,
    b: &DataSet,
    made: &Structure,
) -> Result<Table, AllocError>
    requires { IsCombined a.now.structure (b.now.structure ∷ []) made.now }
    ensures table { IfOk result (λ t. IsTableOf made.now (listed t)) }
    ensures rows { IfOk result (λ t. t.rows ≡ difference_of a.now b.now made.now) }
{
    are_data_sets(&[a, b]);
    reduced_rows(alloc, a, b, made)
}

/// The points of the first operand whose identifiers the second lacks; as a data set of the structure that typing
/// gives. It fails only if memory runs out.
pub fn setdiff(
    alloc: Global,
    a: &DataSet,
    b: &DataSet,
    made: &Structure,
) -> Result<DataSet, AllocError>
    requires { IsCombined a.now.structure (b.now.structure ∷ []) made.now }
    ensures { IfOk result (λ d. d ≡ data_set made.now (difference_of a.now b.now made.now)) }
{
    let table = difference_table(alloc, a, b, made)?;
    DataSet::of(alloc, made, table)
}

fn symmetric_difference_table(
    alloc: Global,
    a: &DataSet,
    b: &DataSet,
    made: &Structure,
) -> Result<Table, AllocError>
    requires { IsCombined a.now.structure (b.now.structure ∷ []) made.now }
    ensures table { IfOk result (λ t. IsTableOf made.now (listed t)) }
    ensures rows { IfOk result (λ t. t.rows ≡ symmetric_difference_of a.now b.now made.now) }
{
    are_data_sets(&[a, b]);
    let mut table = reduced_rows(alloc, a, b, made)?;
    table.append(reduced_rows(alloc, b, a, made)?)?;
    Ok(table)
}

/// The points of each operand whose identifiers the other one lacks; as a data set of the structure that typing gives.
/// It fails only if memory runs out.
pub fn symdiff(
    alloc: Global,
    a: &DataSet,
    b: &DataSet,
    made: &Structure,
) -> Result<DataSet, AllocError>
    requires { IsCombined a.now.structure (b.now.structure ∷ []) made.now }
    ensures { IfOk result (λ d. d ≡ data_set made.now (symmetric_difference_of a.now b.now made.now)) }
{
    let table = symmetric_difference_table(alloc, a, b, made)?;
    DataSet::of(alloc, made, table)
}
