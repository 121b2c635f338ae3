// Cells that are equal to others.
ghost use Rattle.std.specs.Prelude.{◌≡◌, ◌%◌, ◌<◌, ◌++◌, length, IfOk, OnOk};

use std::alloc::{AllocError, Global};
use vtl_cell::{Cell, clone_cell};
use vtl_pages::Pages;

// Puts equal cells after others. On Err some may stand there.
pub(crate) fn append_copies(cells: &mut Vec<Cell>, row: &[Cell]) -> Result<(), AllocError>
    ensures { OnOk result (cells.new.items ≡ cells.old.items ++ row.now) }
{
    for cell in row {
        cells.push(clone_cell(cell)?)?;
    }
    Ok(())
}

// Equal cells in pages of the same width.
pub(crate) fn copied(alloc: Global, pages: &Pages<Cell>) -> Result<Pages<Cell>, AllocError>
    requires wide { 0 < pages.now.width }
    requires whole { length pages.now.items % pages.now.width ≡ 0 }
    ensures items { IfOk result (λ copy. copy.items ≡ pages.now.items) }
    ensures width { IfOk result (λ copy. copy.width ≡ pages.now.width) }
{
    let width = pages.width();
    let count = pages.len() / width;
    let mut copy = Pages::new(alloc, width);
    copy.reserve(pages.len())?;
    let mut row = Vec::with_capacity(alloc, width)?;
    for i in 0..count {
        append_copies(&mut row, pages.run(i))?;
        copy.push_run(&mut row);
    }
    Ok(copy)
}
