// `if` on data sets.
ghost use Rattle.std.specs.Prelude.{◌≡◌, ◌<◌, ◌++◌, Ok, IfOk, OnOk};
ghost use Rattle.vtl_cell.specs.Outcomes.{is_true};
ghost use Rattle.vtl_cell.specs.Row.{column_of};
ghost use Rattle.vtl_rows.specs.Tables.{cells_at, listed};
ghost use Rattle.vtl_sets.specs.DataSets.{data_set};
ghost use Rattle.vtl_meaning.specs.Made.{IsChoice};
ghost use Rattle.vtl_meaning.specs.Operators.{choice_of};
ghost use Rattle.vtl_expr.specs.Choices.{Fits, IsAsked, IsBetween, chosen, taken};
ghost use Rattle.vtl_sets.specs.TableOf.{IsTableOf};

use crate::columns::measures;
use crate::partners::Partners;
use crate::places::{places_in, push_cells};
use std::alloc::{AllocError, Global};
use std::marker::Brand;
use std::sync::ledger::{Blank, Ledger};
use vtl_cell::Cell;
use vtl_index::Steps;
use vtl_rows::Table;
use vtl_sets::{DataSet, new_table};
use vtl_tree::Structure;

// How the condition's points find those of an operand, and the places of the measures that are taken.
#[derive(Drop)]
pub(crate) struct Alternative<'a> {
    pub(crate) partners: Partners<'a>,
    pub(crate) measures: Vec<usize>,
}

impl<'a> Alternative<'a> {
    fn of<L: Ledger>(
        alloc: Global,
        condition: &Structure,
        operand: &'a DataSet,
        made: &Structure,
        steps: &mut Steps<L>,
    ) -> Result<Alternative<'a>, AllocError>
        ensures { IfOk result (IsAsked condition.now operand.now made.now) }
    {
        let partners = Partners::of(alloc, condition, operand, steps)?;
        let measures = places_in(alloc, operand.structure(), &measures(alloc, made)?)?;
        Ok(Alternative { partners, measures })
    }
}

// Whether the cell at a place is true.
fn is_true_at(row: &[Cell], place: usize) -> bool
    ensures { result ≡ is_true (Ok (column_of place row.now)) }
{
    matches!(row.get(place), Some(Cell::Bool(true)))
}

// Adds the point that an operand has for a point of the condition, where it has one. It is made in a list that is
// used for one point after the other.
fn push_taken<L: Ledger>(
    out: &mut Table,
    cells: &mut Vec<Cell>,
    identifiers: &[usize],
    operand: &Alternative<'_>,
    row: &[Cell],
    steps: &mut Steps<L>,
) -> Result<(), AllocError>
    requires { Fits out.old.columns identifiers.now operand.now row.now }
    ensures columns { out.new.columns ≡ out.old.columns }
    ensures rows { OnOk result (out.new.rows ≡ out.old.rows ++ taken identifiers.now operand.now row.now) }
{
    if let Some(point) = operand.partners.find(row, steps) {
        cells.clear();
        push_cells(cells, row, identifiers)?;
        push_cells(cells, point, &operand.measures)?;
        out.push_moved(cells)?;
    }
    Ok(())
}

// What `if` takes its points from: the place of the test, those of the identifiers, and both operands.
#[derive(Drop)]
pub(crate) struct Choice<'a> {
    pub(crate) test: usize,
    pub(crate) identifiers: Vec<usize>,
    pub(crate) first: Alternative<'a>,
    pub(crate) second: Alternative<'a>,
}

impl<'a> Choice<'a> {
    fn of<L: Ledger>(
        alloc: Global,
        condition: &Structure,
        then: &'a DataSet,
        other: &'a DataSet,
        made: &Structure,
        steps: &mut Steps<L>,
    ) -> Result<Choice<'a>, AllocError>
        ensures { IfOk result (IsBetween condition.now then.now other.now made.now) }
    {
        Ok(Choice {
            test: condition.identifiers(alloc)?.len(),
            identifiers: places_in(alloc, condition, &made.identifiers(alloc)?)?,
            first: Alternative::of(alloc, condition, then, made, steps)?,
            second: Alternative::of(alloc, condition, other, made, steps)?,
        })
    }

    // Adds the point that is taken at a point of the condition, where there is one.
    fn push<L: Ledger>(
        &self,
        out: &mut Table,
        cells: &mut Vec<Cell>,
        row: &[Cell],
        steps: &mut Steps<L>,
    ) -> Result<(), AllocError>
        requires first { Fits out.old.columns self.now.identifiers.items self.now.first row.now }
        requires second { Fits out.old.columns self.now.identifiers.items self.now.second row.now }
        ensures columns { out.new.columns ≡ out.old.columns }
        ensures rows { OnOk result (out.new.rows ≡ out.old.rows ++ chosen self.now row.now) }
    {
        if is_true_at(row, self.test) {
            push_taken(out, cells, &self.identifiers, &self.first, row, steps)
        } else {
            push_taken(out, cells, &self.identifiers, &self.second, row, steps)
        }
    }
}

fn choice_table<L: Ledger>(
    alloc: Global,
    condition: &DataSet,
    then: &DataSet,
    other: &DataSet,
    made: &Structure,
    blank: Blank,
) -> Result<Table, AllocError>
    requires name { blank.name ≡ L.name }
    requires parts { blank.parts ≡ L.parts }
    requires some { 0 < L.parts }
    requires made { IsChoice condition.now.structure then.now.structure other.now.structure made.now }
    ensures table { IfOk result (λ t. IsTableOf made.now (listed t)) }
    ensures rows { IfOk result (λ t. t.rows ≡ choice_of condition.now then.now other.now made.now) }
{
    let mut steps: Steps<L> = Steps::new(blank);
    let choice = Choice::of(alloc, condition.structure(), then, other, made, &mut steps)?;
    let table = condition.table();
    let mut out = new_table(alloc, made)?;
    out.reserve_rows(table.len())?;
    let mut cells = Vec::new(alloc);
    for i in 0..table.len() {
        choice.push(&mut out, &mut cells, table.row(i), &mut steps)?;
    }
    Ok(out)
}

/// At each point of the condition the measures of the first operand's point where the condition is true, otherwise
/// those of the second's, where that operand has a point with these identifiers; as a data set of the structure that
/// typing gives. It fails only if memory runs out.
pub fn choose(
    alloc: Global,
    condition: &DataSet,
    then: &DataSet,
    other: &DataSet,
    made: &Structure,
) -> Result<DataSet, AllocError>
    requires { IsChoice condition.now.structure then.now.structure other.now.structure made.now }
    ensures { IfOk result (λ d. d ≡ data_set made.now (choice_of condition.now then.now other.now made.now)) }
{
    let table = choice_table::<Brand>(alloc, condition, then, other, made, Blank::new(1))?;
    DataSet::of(alloc, made, table)
}
