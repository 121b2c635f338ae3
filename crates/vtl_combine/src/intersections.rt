// `intersect`
ghost use Rattle.std.specs.List.{range_with_len};
ghost use Rattle.std.specs.Prelude.{◌≡◌, [], ◌∷◌, filter, length, IfOk};
ghost use Rattle.vtl_rows.specs.Tables.{listed};
ghost use Rattle.vtl_tree.specs.Shown.{shown};
ghost use Rattle.vtl_sets.specs.DataSets.{data_set};
ghost use Rattle.vtl_sets.specs.TableOf.{IsTableOf};
ghost use Rattle.vtl_meaning.specs.Joined.{structures_of};
ghost use Rattle.vtl_meaning.specs.Made.{AreCombined, IsCombined};
ghost use Rattle.vtl_meaning.specs.Sets.{intersection_of};
ghost use Rattle.vtl_combine.specs.Operands.{all_have};

use crate::retaining::retained;
use crate::rows::{are_data_sets, chosen_rows, numbers};
use std::alloc::{AllocError, Global};
use vtl_rows::Table;
use vtl_sets::DataSet;
use vtl_syntax::Retain;
use vtl_tree::Structure;

// The row numbers of an operand whose identifiers all others have. Each of the others is asked for the rows that the ones
// before it have, or for less than twice as many, so all questions are less than twice the points of all operands.
fn common_rows(
    alloc: Global,
    operand: &DataSet,
    others: &[&DataSet],
    made: &Structure,
) -> Result<Vec<usize>, AllocError>
    ensures { IfOk result (λ v. v.items ≡ filter (all_have operand.now (shown others.now) made.now) (range_with_len 0 (length operand.now.points))) }
{
    let mut rows = numbers(alloc, operand.table().len())?;
    for other in others {
        rows = retained(alloc, Retain::True, operand, &rows, other, made)?;
    }
    Ok(rows)
}

fn intersection_table(
    alloc: Global,
    operand: &DataSet,
    others: &[&DataSet],
    made: &Structure,
) -> Result<Table, AllocError>
    requires { IsCombined operand.now.structure (structures_of (shown others.now)) made.now }
    ensures table { IfOk result (λ t. IsTableOf made.now (listed t)) }
    ensures rows { IfOk result (λ t. t.rows ≡ intersection_of (operand.now ∷ shown others.now) made.now) }
{
    are_data_sets(&[operand]);
    are_data_sets(others);
    let rows = common_rows(alloc, operand, others, made)?;
    chosen_rows(alloc, operand, &rows, made)
}

/// The points of the first operand whose identifiers all others have; as a data set of the structure that typing
/// gives. It takes time that is linear in the number of all points. It fails only if memory runs out.
pub fn intersect_all(
    alloc: Global,
    operands: &[&DataSet],
    made: &Structure,
) -> Result<DataSet, AllocError>
    requires { AreCombined (structures_of (shown operands.now)) made.now }
    ensures { IfOk result (λ d. d ≡ data_set made.now (intersection_of (shown operands.now) made.now)) }
{
    let table = intersection_table(alloc, operands[0], &operands[1..], made)?;
    DataSet::of(alloc, made, table)
}

/// The same of two operands.
pub fn intersect(
    alloc: Global,
    a: &DataSet,
    b: &DataSet,
    made: &Structure,
) -> Result<DataSet, AllocError>
    requires { IsCombined a.now.structure (b.now.structure ∷ []) made.now }
    ensures { IfOk result (λ d. d ≡ data_set made.now (intersection_of (a.now ∷ b.now ∷ []) made.now)) }
{
    intersect_all(alloc, &[a, b], made)
}
