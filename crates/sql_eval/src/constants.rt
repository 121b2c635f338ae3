// Constants and sets of literals as values.
ghost use Rattle.std.specs.Prelude.{◌≡◌, IfOk, map, unwrap_or};
ghost use Rattle.vtl_cell.specs.declared.cell.Cell.TheVariants as c;
ghost use Rattle.sql_meaning.specs.Values.{constant_cell, literal_cell};

use sql_check_parts::{constant_value, literal_value};
use sql_tree::{Constant, Literal};
use std::alloc::{AllocError, Global};
use vtl_cell::Cell;
use vtl_decimal::Profile;

fn cell_or_null(value: Option<Cell>) -> Cell
    ensures { result ≡ unwrap_or value c.Null }
{
    match value {
        Some(value) => value,
        None => Cell::Null,
    }
}

/// The value of a constant, or null where it has none. It fails only if memory runs out.
pub(crate) fn constant_cell(
    alloc: Global,
    p: &Profile,
    constant: &Constant,
) -> Result<Cell, AllocError>
    ensures { IfOk result (λ v. v ≡ constant_cell p.now constant.now) }
{
    Ok(cell_or_null(constant_value(alloc, p, constant)?))
}

/// The values of literals. It fails only if memory runs out.
pub(crate) fn literal_cells(
    alloc: Global,
    p: &Profile,
    literals: &[Literal],
) -> Result<Vec<Cell>, AllocError>
    ensures { IfOk result (λ v. v.items ≡ map (literal_cell p.now) literals.now) }
{
    let mut cells = Vec::with_capacity(alloc, literals.len())?;
    for literal in literals {
        cells.push(cell_or_null(literal_value(alloc, p, literal)?))?;
    }
    Ok(cells)
}
