// `pivot`
ghost use Rattle.std.specs.Prelude.{◌≡◌, ◌<◌, true, ◌++◌, ◌∷◌, [], map, IfOk, OnOk};
ghost use Rattle.vtl_rows.specs.Tables.{cells_at, fits, listed};
ghost use Rattle.vtl_tree.specs.Shown.{shown};
ghost use Rattle.vtl_sets.specs.DataSets.{data_set};
ghost use Rattle.vtl_sets.specs.TableOf.{IsTableOf};
ghost use Rattle.vtl_meaning.specs.Made.{IsPivoted};
ghost use Rattle.vtl_meaning.specs.Turned.{codes_of, other_identifiers, pivot_of};
ghost use Rattle.vtl_combine.specs.Pivots.{AreCoded, coded, pivoted};

use crate::firsts::first_rows;
use crate::rows::{numbers, row_or_none};
use std::alloc::{AllocError, Global};
use std::marker::Brand;
use std::slice;
use std::sync::ledger::{Blank, Ledger};
use vtl_cell::Cell;
use vtl_expr::{places_in, push_cells};
use vtl_index::{Groups, Seeker, Steps};
use vtl_rows::Table;
use vtl_sets::{DataSet, new_table};
use vtl_text::Txt;
use vtl_tree::{Choice, Component, Structure, component_of, is_chosen, place_of};

// What a pivot takes its points from: a table, the places of the other identifiers, the rows by these and by the
// identifier behind them, its codes, and the place of the measure.
pub(crate) struct CodedPoints<'a> {
    pub(crate) table: &'a Table,
    pub(crate) others: Vec<usize>,
    pub(crate) seeker: Seeker<'a>,
    pub(crate) codes: &'a [Txt],
    pub(crate) measure: usize,
}

// Written out, so that each owner sees one call and not the drop of each part.
impl<'a> Drop for CodedPoints<'a> {
    fn drop(self) {
        let CodedPoints {
            table: _table,
            others: _others,
            seeker: _seeker,
            codes: _codes,
            measure: _measure,
        } = self;
    }
}

// The identifiers but one.
fn other_identifiers<'a>(
    alloc: Global,
    structure: &'a Structure,
    id: &Txt,
) -> Result<Vec<&'a Component>, AllocError>
    ensures { IfOk result (λ v. shown v.items ≡ other_identifiers id.now structure.now) }
{
    let mut others = Vec::new(alloc);
    for component in structure.components.as_slice() {
        if is_chosen(Choice::Except, slice::from_ref(id), component) {
            others.push(component)?;
        }
    }
    Ok(others)
}

// The codes of an identifier, in the order in which they are declared.
fn codes_of<'a>(structure: &'a Structure, id: &Txt) -> &'a [Txt]
    ensures { result.now ≡ codes_of id.now structure.now }
{
    let Some(component) = component_of(id, structure.components.as_slice()) else {
        return &[];
    };
    match &component.codes {
        Some(codes) => codes.as_slice(),
        None => &[],
    }
}

// The places of columns, and one more behind them.
fn with_last(alloc: Global, places: &[usize], last: usize) -> Result<Vec<usize>, AllocError>
    ensures { IfOk result (λ v. v.items ≡ places.now ++ last ∷ []) }
{
    let mut all = Vec::from_slice(alloc, places)?;
    all.push(last)?;
    Ok(all)
}

impl<'a> CodedPoints<'a> {
    fn of<L: Ledger>(
        alloc: Global,
        a: &'a DataSet,
        id: &Txt,
        measure: &Txt,
        steps: &mut Steps<L>,
    ) -> Result<CodedPoints<'a>, AllocError>
        ensures { IfOk result (AreCoded a.now id.now measure.now) }
    {
        let structure = a.structure();
        let columns = structure.columns(alloc)?;
        let others = places_in(alloc, structure, &other_identifiers(alloc, structure, id)?)?;
        let own = with_last(alloc, &others, place_of(&columns, id))?;
        let asked = numbers(alloc, own.len())?;
        let seeker = Seeker::of(alloc, a.table(), &own, &asked, steps)?;
        Ok(CodedPoints {
            table: a.table(),
            others,
            seeker,
            codes: codes_of(structure, id),
            measure: place_of(&columns, measure),
        })
    }

    // Puts the measure's value at a key and a code after others, or null where there is no such point. The key is left
    // as it was.
    fn push_value<L: Ledger>(
        &self,
        cells: &mut Vec<Cell>,
        key: &mut Vec<Cell>,
        code: &Txt,
        steps: &mut Steps<L>,
    ) -> Result<(), AllocError>
        ensures cells { OnOk result (cells.new.items ≡ cells.old.items ++ coded self.now key.old.items code.now ∷ []) }
        ensures key { OnOk result (key.new.items ≡ key.old.items) }
    {
        let width = key.len();
        key.push(Cell::Text(code.share()?))?;
        let row = self.seeker.first(key, steps);
        key.truncate(width);
        push_cells(cells, row_or_none(self.table, row), &[self.measure])
    }

    // Puts the values at a key and each code after others.
    fn push_values<L: Ledger>(
        &self,
        cells: &mut Vec<Cell>,
        key: &mut Vec<Cell>,
        steps: &mut Steps<L>,
    ) -> Result<(), AllocError>
        ensures { OnOk result (cells.new.items ≡ cells.old.items ++ map (coded self.now key.old.items) self.now.codes.now) }
    {
        for code in self.codes {
            self.push_value(cells, key, code, steps)?;
        }
        Ok(())
    }

    // Adds the point with the other identifiers of a row. It and its key are put together in lists that are used for
    // one point after the other.
    fn push_point<L: Ledger>(
        &self,
        out: &mut Table,
        cells: &mut Vec<Cell>,
        key: &mut Vec<Cell>,
        row: &[Cell],
        steps: &mut Steps<L>,
    ) -> Result<(), AllocError>
        requires { fits out.old.columns (pivoted self.now row.now) ≡ true }
        ensures columns { out.new.columns ≡ out.old.columns }
        ensures rows { OnOk result (out.new.rows ≡ out.old.rows ++ pivoted self.now row.now ∷ []) }
    {
        key.clear();
        push_cells(key, row, &self.others)?;
        cells.clear();
        push_cells(cells, row, &self.others)?;
        self.push_values(cells, key, steps)?;
        out.push_moved(cells)
    }
}

fn pivot_table<L: Ledger>(
    alloc: Global,
    a: &DataSet,
    id: &Txt,
    measure: &Txt,
    made: &Structure,
    blank: Blank,
) -> Result<Table, AllocError>
    requires name { blank.name ≡ L.name }
    requires parts { blank.parts ≡ L.parts }
    requires some { 0 < L.parts }
    requires made { IsPivoted id.now measure.now a.now.structure made.now }
    ensures table { IfOk result (λ t. IsTableOf made.now (listed t)) }
    ensures rows { IfOk result (λ t. t.rows ≡ pivot_of a.now id.now measure.now) }
{
    let mut steps: Steps<L> = Steps::new(blank);
    let pivot = CodedPoints::of(alloc, a, id, measure, &mut steps)?;
    let table = a.table();
    let firsts = first_rows(alloc, &Groups::by(alloc, table, &pivot.others)?)?;
    let mut out = new_table(alloc, made)?;
    out.reserve_rows(firsts.len())?;
    let mut cells = Vec::new(alloc);
    let mut key = Vec::new(alloc);
    for first in &firsts {
        let row = row_or_none(table, *first);
        pivot.push_point(&mut out, &mut cells, &mut key, row, &mut steps)?;
    }
    Ok(out)
}

/// A point for each tuple of the other identifiers, with the measure's value at each code of the identifier, or null
/// where there is no point with it; as a data set of the structure that typing gives. It takes time that is linear in
/// the number of points and of the result's cells. It fails only if memory runs out.
pub fn pivot(
    alloc: Global,
    a: &DataSet,
    id: &Txt,
    measure: &Txt,
    made: &Structure,
) -> Result<DataSet, AllocError>
    requires { IsPivoted id.now measure.now a.now.structure made.now }
    ensures { IfOk result (λ d. d ≡ data_set made.now (pivot_of a.now id.now measure.now)) }
{
    let table = pivot_table::<Brand>(alloc, a, id, measure, made, Blank::new(1))?;
    DataSet::of(alloc, made, table)
}
