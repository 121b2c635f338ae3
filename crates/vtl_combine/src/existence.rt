// `exists_in`
ghost use Rattle.std.specs.Prelude.{◌≡◌, ◌<◌, true, ◌++◌, ◌∷◌, [], IfOk, OnOk};
ghost use Rattle.vtl_rows.specs.Tables.{cells_at, fits, listed};
ghost use Rattle.vtl_sets.specs.DataSets.{data_set};
ghost use Rattle.vtl_sets.specs.TableOf.{IsTableOf};
ghost use Rattle.vtl_tree.specs.Columns.{common_identifiers};
ghost use Rattle.vtl_meaning.specs.Made.{IsExistence};
ghost use Rattle.vtl_meaning.specs.Sets.{existence_of, is_retained};
ghost use Rattle.vtl_combine.specs.Existence.{answered, sought_common};

use crate::retaining::{answers, is_retained};
use crate::rows::own_key;
use std::alloc::{AllocError, Global};
use std::marker::Brand;
use std::sync::ledger::{Blank, Ledger};
use vtl_cell::Cell;
use vtl_expr::{places_in, push_cells};
use vtl_index::{Seeker, Steps};
use vtl_rows::Table;
use vtl_sets::{DataSet, new_table};
use vtl_syntax::Retain;
use vtl_tree::{Structure, common_identifiers};

// The points of a data set, as points of a structure ask for those that agree with them.
fn sought<'b, L: Ledger>(
    alloc: Global,
    a: &Structure,
    b: &'b DataSet,
    steps: &mut Steps<L>,
) -> Result<Seeker<'b>, AllocError>
    ensures { IfOk result (λ x. x ≡ sought_common a.now b.now) }
{
    let structure = b.structure();
    let common = common_identifiers(alloc, a, structure)?;
    let own = places_in(alloc, structure, &common)?;
    let asked = places_in(alloc, a, &common)?;
    Seeker::of(alloc, b.table(), &own, &asked, steps)
}

// Adds the identifiers of a row and the answer, where that is retained. They are put together in a list that is used
// for one row after the other.
fn push_answer(
    out: &mut Table,
    cells: &mut Vec<Cell>,
    retain: Retain,
    identifiers: &[usize],
    row: &[Cell],
    answer: bool,
) -> Result<(), AllocError>
    requires { is_retained retain answer ≡ true → fits out.old.columns (cells_at identifiers.now row.now ++ Cell.Bool answer ∷ []) ≡ true }
    ensures columns { out.new.columns ≡ out.old.columns }
    ensures rows { OnOk result (out.new.rows ≡ out.old.rows ++ answered retain identifiers.now row.now answer) }
{
    if is_retained(retain, answer) {
        cells.clear();
        push_cells(cells, row, identifiers)?;
        cells.push(Cell::Bool(answer))?;
        out.push_moved(cells)?;
    }
    Ok(())
}

fn existence_table<L: Ledger>(
    alloc: Global,
    a: &DataSet,
    b: &DataSet,
    retain: Retain,
    made: &Structure,
    blank: Blank,
) -> Result<Table, AllocError>
    requires name { blank.name ≡ L.name }
    requires parts { blank.parts ≡ L.parts }
    requires some { 0 < L.parts }
    requires made { IsExistence a.now.structure b.now.structure made.now }
    ensures table { IfOk result (λ t. IsTableOf made.now (listed t)) }
    ensures rows { IfOk result (λ t. t.rows ≡ existence_of a.now b.now retain) }
{
    let mut steps: Steps<L> = Steps::new(blank);
    let seeker = sought(alloc, a.structure(), b, &mut steps)?;
    let identifiers = own_key(alloc, a.structure())?;
    let table = a.table();
    let answers = answers(alloc, &seeker, table, &mut steps)?;
    let mut out = new_table(alloc, made)?;
    out.reserve_rows(table.len())?;
    let mut cells = Vec::new(alloc);
    for i in 0..table.len() {
        let row = table.row(i);
        push_answer(&mut out, &mut cells, retain, &identifiers, row, answers[i])?;
    }
    Ok(out)
}

/// For each point of the first operand its identifiers, and whether the second operand has a point with the same values
/// of the identifiers that both have; or the points with one of the answers alone. It is a data set of the structure
/// that typing gives. It takes time that is linear in the number of all points. It fails only if memory runs out.
pub fn exists_in(
    alloc: Global,
    a: &DataSet,
    b: &DataSet,
    retain: Retain,
    made: &Structure,
) -> Result<DataSet, AllocError>
    requires { IsExistence a.now.structure b.now.structure made.now }
    ensures { IfOk result (λ d. d ≡ data_set made.now (existence_of a.now b.now retain)) }
{
    let table = existence_table::<Brand>(alloc, a, b, retain, made, Blank::new(1))?;
    DataSet::of(alloc, made, table)
}
