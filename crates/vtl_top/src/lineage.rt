// The links of a script as CSV.
ghost use Rattle.std.specs.Prelude.{◌≡◌, ◌∷◌, [], chars, map, IfOk};
ghost use Rattle.vtl_lineage.specs.Shown.{shown_link, shown_links};
ghost use Rattle.vtl_top.specs.Answered.{Takes};
ghost use Rattle.vtl_top.specs.Informed.{typed_view};
ghost use Rattle.vtl_top.specs.Linked.{lineage_step, lineage_text, link_column, link_columns, link_row};
ghost use Rattle.vtl_top.specs.RunView.{source_view};

use crate::run::read_typed;
use crate::words::Source;
use std::alloc::{AllocError, Global};
use vtl_cell::{Cell, Kind};
use vtl_check::Checked;
use vtl_csv::write_rows;
use vtl_files::Files;
use vtl_lineage::{Link, lineage};
use vtl_rows::{Column, Table};
use vtl_status::Status;
use vtl_text::Txt;

fn column(alloc: Global, name: &str) -> Result<Column, AllocError>
    ensures { IfOk result (λ c. c ≡ link_column name.now) }
{
    Ok(Column {
        name: Txt::new(alloc, name)?,
        kind: Kind::Text,
    })
}

fn columns(alloc: Global) -> Result<Vec<Column>, AllocError>
    ensures { IfOk result (λ v. v.items ≡ link_columns) }
{
    let mut columns = Vec::with_capacity(alloc, 4)?;
    columns.push(column(alloc, "output")?)?;
    columns.push(column(alloc, "component")?)?;
    columns.push(column(alloc, "dataset")?)?;
    columns.push(column(alloc, "source")?)?;
    Ok(columns)
}

fn row(alloc: Global, link: &Link) -> Result<Vec<Cell>, AllocError>
    ensures { IfOk result (λ v. v.items ≡ link_row (shown_link link.now)) }
{
    let mut cells = Vec::with_capacity(alloc, 4)?;
    cells.push(Cell::Text(link.output.share()?))?;
    cells.push(Cell::Text(link.component.share()?))?;
    cells.push(Cell::Text(link.dataset.share()?))?;
    cells.push(Cell::Text(link.source.share()?))?;
    Ok(cells)
}

// A row for each link, in order.
fn table_of(alloc: Global, links: &[Link]) -> Result<Table, AllocError>
    ensures columns { IfOk result (λ t. t.columns ≡ link_columns) }
    ensures rows { IfOk result (λ t. t.rows ≡ map link_row (shown_links links.now)) }
{
    let mut table = Table::new(alloc, columns(alloc)?);
    for link in links {
        table.push_row(row(alloc, link)?)?;
    }
    Ok(table)
}

fn text_of(alloc: Global, checked: &Checked) -> Result<Vec<u8>, AllocError>
    ensures { IfOk result (λ text. text.items ≡ lineage_text (typed_view checked.now)) }
{
    let links = lineage(alloc, checked)?;
    let table = table_of(alloc, &links)?;
    write_rows(alloc, &table, checked.profile())
}

/// The links of the script of a source, as CSV; or the first refusal, as that of a run before its inputs; or, at any
/// place, that memory ran out. No data set is read.
pub fn prepare_links<F: Files>(
    alloc: Global,
    files: &mut F,
    source: &Source<'_>,
) -> Result<Vec<u8>, Status>
    ensures { Takes F.Files files.old files.new (lineage_step (source_view source.now)) (λ text. text.items) result }
{
    let checked = read_typed(alloc, files, source)?;
    Ok(text_of(alloc, &checked)?)
}
