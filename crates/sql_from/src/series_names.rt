// The columns of the source of EXISTS by name, whatever rows it has.
ghost use Rattle.std.specs.List.{fold};
ghost use Rattle.std.specs.Prelude.{◌≡◌, [], length, IfOk, OnOk, Some, if◌then◌else◌};
ghost use Rattle.sql_check_parts.specs.Scopes.{Columns, columns_within, numbered, series_names};
ghost use Rattle.sql_meaning.specs.Tables.{place_among};
ghost use Rattle.sql_from.specs.Columns.{and_number};
ghost use Rattle.sql_from.specs.Held.{columns_held};

use crate::HeldTable;
use crate::series_places::place_of;
use sql_tree::Series;
use std::alloc::{AllocError, Global};
use vtl_text::{ByName, Txt};

// Puts a name behind others with its number, unless it is one of them.
fn put_once(names: &mut ByName<usize>, name: &Txt) -> Result<(), AllocError>
    ensures { OnOk result (names.new ≡ and_number names.old name.now) }
{
    if names.has(name) {
        return Ok(());
    }
    let number = names.len();
    names.put(name.share()?, number)?;
    Ok(())
}

// Names, each once, with their numbers.
fn numbered_names(alloc: Global, names: &[Txt]) -> Result<ByName<usize>, AllocError>
    ensures { IfOk result (λ numbers. numbers ≡ fold and_number [] names.now) }
{
    let mut numbers = ByName::new(alloc);
    for name in names {
        put_once(&mut numbers, name)?;
    }
    Ok(numbers)
}

// The names of a SERIES, as its columns stand.
fn names_of(alloc: Global, series: &Series) -> Result<Vec<Txt>, AllocError>
    ensures { IfOk result (λ names. names.items ≡ series_names series.now) }
{
    let mut names = Vec::new(alloc);
    for name in series.by.as_slice() {
        names.push(name.share()?)?;
    }
    names.push(series.on.share()?)?;
    Ok(names)
}

// The number of a name; of one that is not there, how many there are.
fn number_of(names: &ByName<usize>, name: &Txt) -> usize
    ensures { (columns : Columns) → names.now ≡ numbered 0 columns → result ≡ place_among columns name.now }
{
    match names.get(name) {
        Some(number) => *number,
        None => names.len(),
    }
}

/// The place of a column in a row of a SERIES, or how many columns that has, where the column is none of its own. It
/// fails only if memory runs out.
pub(crate) fn place_in_series(
    alloc: Global,
    series: &Series,
    name: &Txt,
    is_own: bool,
) -> Result<usize, AllocError>
    ensures { IfOk result (λ place. (columns : Columns) → place ≡ (if is_own then place_among (columns_within columns (Some series.now)) name.now else length (columns_within columns (Some series.now)))) }
{
    let names = names_of(alloc, series)?;
    let numbers = numbered_names(alloc, &names)?;
    if is_own {
        Ok(number_of(&numbers, name))
    } else {
        Ok(numbers.len())
    }
}

/// The place of a column in a row of a table, or how many columns that has, where the column is none of its own.
pub(crate) fn place_in_table(table: &HeldTable, name: &Txt, is_own: bool) -> usize
    ensures { result ≡ (if is_own then place_among (columns_held table.now) name.now else length (columns_held table.now)) }
{
    if is_own {
        place_of(table, name)
    } else {
        table.table().columns().len()
    }
}
