// `unpivot`
ghost use Rattle.std.specs.List.{AllByRecursion, flat_map};
ghost use Rattle.std.specs.Option.{option_to_list};
ghost use Rattle.std.specs.Prelude.{◌≡◌, ℕ, true, ◌++◌, ◌∷◌, [], List, map, IfOk, IfSome, OnOk};
ghost use Rattle.vtl_rows.specs.Tables.{cells_at, fits, listed};
ghost use Rattle.vtl_tree.specs.Structure.{columns_of};
ghost use Rattle.vtl_sets.specs.DataSets.{data_set};
ghost use Rattle.vtl_sets.specs.TableOf.{IsTableOf};
ghost use Rattle.vtl_tree.specs.Columns.{measures_of};
ghost use Rattle.vtl_meaning.specs.Made.{IsUnpivoted};
ghost use Rattle.vtl_meaning.specs.Turned.{unpivot_of};
ghost use Rattle.vtl_combine.specs.Unpivots.{measure_by, measure_in, named_row, unpivoted};

use crate::rows::own_key;
use std::alloc::{AllocError, Global};
use vtl_cell::{Cell, clone_cell};
use vtl_expr::push_cells;
use vtl_rows::Table;
use vtl_sets::{DataSet, new_table};
use vtl_text::Txt;
use vtl_tree::{Role, Structure, is_same_role, place_of};

// A measure by its name and its place.
#[derive(Drop)]
pub(crate) struct NamedMeasure<'a> {
    pub(crate) name: &'a Txt,
    pub(crate) place: usize,
}

// The measures of a structure.
fn named_measures(alloc: Global, structure: &Structure) -> Result<Vec<NamedMeasure<'_>>, AllocError>
    ensures { IfOk result (λ v. map measure_by v.items ≡ map (measure_in (columns_of structure.now)) (measures_of structure.now)) }
{
    let columns = structure.columns(alloc)?;
    let mut measures = Vec::new(alloc);
    for component in structure.components.as_slice() {
        if is_same_role(component.role, Role::Measure) {
            measures.push(NamedMeasure {
                name: &component.name,
                place: place_of(&columns, &component.name),
            })?;
        }
    }
    Ok(measures)
}

// The identifiers of a row, the name of a measure, and a value.
fn push_named(
    cells: &mut Vec<Cell>,
    row: &[Cell],
    identifiers: &[usize],
    name: &Txt,
    value: &Cell,
) -> Result<(), AllocError>
    ensures { OnOk result (cells.new.items ≡ cells.old.items ++ (cells_at identifiers.now row.now ++ Cell.Text name.now ∷ value.now ∷ [])) }
{
    push_cells(cells, row, identifiers)?;
    cells.push(Cell::Text(name.share()?))?;
    cells.push(clone_cell(value)?)?;
    Ok(())
}

// Adds the point of a measure at a row, where it has a value. It is put together in a list that is used for one point
// after the other.
fn push_value(
    out: &mut Table,
    cells: &mut Vec<Cell>,
    row: &[Cell],
    identifiers: &[usize],
    measure: &NamedMeasure<'_>,
) -> Result<(), AllocError>
    requires { IfSome (named_row identifiers.now row.now (measure_by measure.now)) (λ q. fits out.old.columns q ≡ true) }
    ensures columns { out.new.columns ≡ out.old.columns }
    ensures rows { OnOk result (out.new.rows ≡ out.old.rows ++ option_to_list (named_row identifiers.now row.now (measure_by measure.now))) }
{
    match row.get(measure.place) {
        None | Some(Cell::Null) => Ok(()),
        Some(value) => {
            cells.clear();
            push_named(cells, row, identifiers, measure.name, value)?;
            out.push_moved(cells)
        }
    }
}

// Adds the points of all measures at a row.
fn push_unpivoted(
    out: &mut Table,
    cells: &mut Vec<Cell>,
    row: &[Cell],
    identifiers: &[usize],
    measures: &[NamedMeasure<'_>],
) -> Result<(), AllocError>
    requires { AllByRecursion (λ q. fits out.old.columns q ≡ true) (unpivoted identifiers.now (map measure_by measures.now) row.now) }
    ensures columns { out.new.columns ≡ out.old.columns }
    ensures rows { OnOk result (out.new.rows ≡ out.old.rows ++ unpivoted identifiers.now (map measure_by measures.now) row.now) }
{
    for measure in measures {
        push_value(out, cells, row, identifiers, measure)?;
    }
    Ok(())
}

fn unpivot_table(alloc: Global, a: &DataSet, made: &Structure) -> Result<Table, AllocError>
    requires { (id : List ℕ) × (measure : List ℕ) × IsUnpivoted id measure a.now.structure made.now }
    ensures table { IfOk result (λ t. IsTableOf made.now (listed t)) }
    ensures rows { IfOk result (λ t. t.rows ≡ unpivot_of a.now) }
{
    let structure = a.structure();
    let identifiers = own_key(alloc, structure)?;
    let measures = named_measures(alloc, structure)?;
    let table = a.table();
    let mut out = new_table(alloc, made)?;
    let mut cells = Vec::new(alloc);
    for i in 0..table.len() {
        push_unpivoted(&mut out, &mut cells, table.row(i), &identifiers, &measures)?;
    }
    Ok(out)
}

/// A point for each point of the operand and each of its measures that is not null: the identifiers, the name of the
/// measure, and its value; as a data set of the structure that typing gives. It fails only if memory runs out.
pub fn unpivot(alloc: Global, a: &DataSet, made: &Structure) -> Result<DataSet, AllocError>
    requires { (id : List ℕ) × (measure : List ℕ) × IsUnpivoted id measure a.now.structure made.now }
    ensures { IfOk result (λ d. d ≡ data_set made.now (unpivot_of a.now)) }
{
    let table = unpivot_table(alloc, a, made)?;
    DataSet::of(alloc, made, table)
}
