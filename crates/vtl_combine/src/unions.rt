// `union`
//
// A `union` of two goes by a look-up, of more by groups: the second of two gives only the points that the first
// lacks, so each cell is copied once; of many, each would ask all that stand before it.
ghost use Rattle.std.specs.List.{flat_map};
ghost use Rattle.std.specs.Prelude.{◌≡◌, [], ◌∷◌, All, IfOk};
ghost use Rattle.vtl_rows.specs.Tables.{listed};
ghost use Rattle.vtl_tree.specs.Shown.{shown};
ghost use Rattle.vtl_tree.specs.Structure.{IsStructure};
ghost use Rattle.vtl_sets.specs.DataSets.{data_set};
ghost use Rattle.vtl_sets.specs.TableOf.{IsTableOf, table_columns};
ghost use Rattle.vtl_meaning.specs.Joined.{structures_of};
ghost use Rattle.vtl_meaning.specs.Made.{AreCombined, IsCombined};
ghost use Rattle.vtl_meaning.specs.Operators.{left_of};
ghost use Rattle.vtl_meaning.specs.Sets.{union_of};
ghost use Rattle.vtl_combine.specs.Operands.{HasColumns};

use crate::differences::reduced_rows;
use crate::firsts::once_by_key;
use crate::rows::{all_rows, are_data_sets};
use std::alloc::{AllocError, Global};
use vtl_rows::Table;
use vtl_sets::{DataSet, new_table};
use vtl_tree::Structure;

// The points of all operands, one operand after the other.
fn all_points(alloc: Global, operands: &[&DataSet], made: &Structure) -> Result<Table, AllocError>
    requires made { IsStructure made.now }
    requires columns { All (λ d. HasColumns made.now d.now.structure) operands.now }
    ensures columns { IfOk result (λ t. t.columns ≡ table_columns made.now) }
    ensures rows { IfOk result (λ t. t.rows ≡ flat_map (λ d. left_of d.now made.now) operands.now) }
{
    let mut all = new_table(alloc, made)?;
    for operand in operands {
        all.append(all_rows(alloc, operand, made)?)?;
    }
    Ok(all)
}

fn united_by_keys(
    alloc: Global,
    operands: &[&DataSet],
    made: &Structure,
) -> Result<Table, AllocError>
    requires { AreCombined (structures_of (shown operands.now)) made.now }
    ensures table { IfOk result (λ t. IsTableOf made.now (listed t)) }
    ensures rows { IfOk result (λ t. t.rows ≡ union_of (shown operands.now) made.now) }
{
    are_data_sets(operands);
    let all = all_points(alloc, operands, made)?;
    once_by_key(alloc, all, made.key_width())
}

// The points of the first of two operands, and those of the second whose identifiers the first lacks. Each cell is copied
// once.
fn united_pair(
    alloc: Global,
    a: &DataSet,
    b: &DataSet,
    made: &Structure,
) -> Result<Table, AllocError>
    requires { IsCombined a.now.structure (b.now.structure ∷ []) made.now }
    ensures table { IfOk result (λ t. IsTableOf made.now (listed t)) }
    ensures rows { IfOk result (λ t. t.rows ≡ union_of (a.now ∷ b.now ∷ []) made.now) }
{
    are_data_sets(&[a, b]);
    let behind = reduced_rows(alloc, b, a, made)?;
    let mut table = all_rows(alloc, a, made)?;
    table.append(behind)?;
    Ok(table)
}

fn union_table(alloc: Global, operands: &[&DataSet], made: &Structure) -> Result<Table, AllocError>
    requires { AreCombined (structures_of (shown operands.now)) made.now }
    ensures table { IfOk result (λ t. IsTableOf made.now (listed t)) }
    ensures rows { IfOk result (λ t. t.rows ≡ union_of (shown operands.now) made.now) }
{
    match operands {
        [a, b] => united_pair(alloc, a, b, made),
        _ => united_by_keys(alloc, operands, made),
    }
}

/// The points of all operands in order, without those whose identifiers an earlier one has; as a data set of the
/// structure that typing gives. It takes time that is linear in the number of all points. It fails only if memory runs
/// out.
pub fn union_all(
    alloc: Global,
    operands: &[&DataSet],
    made: &Structure,
) -> Result<DataSet, AllocError>
    requires { AreCombined (structures_of (shown operands.now)) made.now }
    ensures { IfOk result (λ d. d ≡ data_set made.now (union_of (shown operands.now) made.now)) }
{
    let table = union_table(alloc, operands, made)?;
    DataSet::of(alloc, made, table)
}

/// The same of two operands.
pub fn union(
    alloc: Global,
    a: &DataSet,
    b: &DataSet,
    made: &Structure,
) -> Result<DataSet, AllocError>
    requires { IsCombined a.now.structure (b.now.structure ∷ []) made.now }
    ensures { IfOk result (λ d. d ≡ data_set made.now (union_of (a.now ∷ b.now ∷ []) made.now)) }
{
    union_all(alloc, &[a, b], made)
}
