// What outputs show of a point: whether they show it, and the cells behind its identifiers.
//
// The text of an error is made a cell once for each rule, and shared by all points.
ghost use Rattle.std.specs.Prelude.{◌≡◌, ◌++◌, IfOk, OnOk};
ghost use Rattle.vtl_rows.specs.Tables.{cells_at};
ghost use Rattle.vtl_rulings.specs.Outputs.{code_cell, errors_at, is_basic_shown, is_false, is_shown, level_cell};
ghost use Rattle.vtl_tree.specs.Checks.{output_parts};

use std::alloc::AllocError;
use vtl_cell::{Cell, clone_cell};
use vtl_expr::push_cells;
use vtl_syntax::{BasicOut, CheckOut};
use vtl_text::Txt;

// Whether a truth value is false.
fn is_false(truth: &Cell) -> bool
    ensures { result ≡ is_false truth.now }
{
    matches!(truth, Cell::Bool(false))
}

// Whether an output shows a point with this truth value.
pub(crate) fn is_shown(out: CheckOut, truth: &Cell) -> bool
    ensures { result ≡ is_shown out truth.now }
{
    match out {
        CheckOut::Invalid => is_false(truth),
        CheckOut::All | CheckOut::AllMeasures => true,
    }
}

// The same of the outputs that have no measures.
pub(crate) fn is_basic_shown(out: BasicOut, truth: &Cell) -> bool
    ensures { result ≡ is_basic_shown out truth.now }
{
    match out {
        BasicOut::Invalid => is_false(truth),
        BasicOut::All => true,
    }
}

// The text and the level of an error.
pub(crate) struct Errors {
    pub(crate) code: Cell,
    pub(crate) level: Cell,
}

// Written out, so that an owner sees one call.
impl Drop for Errors {
    fn drop(self) {
        let Errors {
            code: _code,
            level: _level,
        } = self;
    }
}

impl Errors {
    // As they are written; null where they are not.
    pub(crate) fn of(code: &Option<Txt>, level: Option<i64>) -> Result<Errors, AllocError>
        ensures code { IfOk result (λ errors. errors.code ≡ code_cell code.now) }
        ensures level { IfOk result (λ errors. errors.level ≡ level_cell level) }
    {
        Ok(Errors {
            code: match code {
                Some(text) => Cell::Text(text.share()?),
                None => Cell::Null,
            },
            level: level.map_or(Cell::Null, Cell::Int),
        })
    }

    // Puts them behind other cells where the truth value is false, and nulls elsewhere.
    pub(crate) fn push(&self, cells: &mut Vec<Cell>, truth: &Cell) -> Result<(), AllocError>
        ensures { OnOk result (cells.new.items ≡ cells.old.items ++ errors_at self.now.code self.now.level truth.now) }
    {
        if is_false(truth) {
            cells.push(clone_cell(&self.code)?)?;
            cells.push(clone_cell(&self.level)?)?;
        } else {
            cells.push(Cell::Null)?;
            cells.push(Cell::Null)?;
        }
        Ok(())
    }
}

// Puts what an output shows behind the identifiers of a row behind other cells.
pub(crate) fn push_parts(
    cells: &mut Vec<Cell>,
    out: CheckOut,
    row: &[Cell],
    measures: &[usize],
    truth: &Cell,
    errors: &Errors,
) -> Result<(), AllocError>
    ensures { OnOk result (cells.new.items ≡ cells.old.items ++ output_parts out (cells_at measures.now row.now) truth.now (errors_at errors.now.code errors.now.level truth.now)) }
{
    match out {
        CheckOut::Invalid => push_cells(cells, row, measures)?,
        CheckOut::All => cells.push(clone_cell(truth)?)?,
        CheckOut::AllMeasures => {
            push_cells(cells, row, measures)?;
            cells.push(clone_cell(truth)?)?;
        }
    }
    errors.push(cells, truth)
}
