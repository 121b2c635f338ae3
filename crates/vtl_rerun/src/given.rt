// The tables that a part is given.
ghost use Rattle.std.specs.Option.{option_copied};
ghost use Rattle.std.specs.Prelude.{◌≡◌, IfOk, OnOk};
ghost use Rattle.vtl_rerun.specs.Operands.{given_all, held_at, table_from, with_table};

use crate::part::{Operand, Source};
use std::alloc::{AllocError, Global};
use vtl_rows::{Inputs, SharedTable, Tables};
use vtl_text::Txt;

/// The table that the part at a place holds.
pub(crate) fn held(results: &[Option<SharedTable>], place: usize) -> Option<&SharedTable>
    ensures { option_copied result ≡ held_at results.now place }
{
    results.get(place)?.as_ref()
}

// The table of an operand.
fn table_for<'a>(
    operand: &Operand,
    inputs: &'a Inputs,
    results: &'a [Option<SharedTable>],
) -> Option<&'a SharedTable>
    ensures { option_copied result ≡ table_from inputs.now results.now operand.now.name operand.now.source }
{
    match operand.source {
        Source::Input => inputs.shared(&operand.name),
        Source::Part(place) => held(results, place),
    }
}

/// Puts a table after the others, shared, where there is one and none has its name. It fails only if memory runs out.
pub(crate) fn put(
    tables: &mut Tables,
    name: &Txt,
    table: Option<&SharedTable>,
) -> Result<(), AllocError>
    ensures { OnOk result (tables.new ≡ with_table tables.old name.now (option_copied table.entry)) }
{
    match table {
        Some(table) if tables.shared(name).is_none() => {
            tables.put_shared(name.share()?, table.share()?)
        }
        _ => Ok(()),
    }
}

/// The tables of operands that are there, each once and shared. It fails only if memory runs out.
pub(crate) fn given(
    alloc: Global,
    operands: &[Operand],
    inputs: &Inputs,
    results: &[Option<SharedTable>],
) -> Result<Inputs, AllocError>
    ensures { IfOk result (λ tables. tables ≡ given_all inputs.now results.now operands.now) }
{
    let mut tables = Tables::new(alloc);
    for operand in operands {
        let table = table_for(operand, inputs, results);
        put(&mut tables, &operand.name, table)?;
    }
    Ok(tables)
}
