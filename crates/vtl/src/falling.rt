// A back end over an engine that hands back its tables in an order of its own: they are what the back end gives.
ghost use Rattle.std.specs.Prelude.{◌≡◌, ◌<◌, length, slice_index_or, IfOk};
ghost use Rattle.vtl_rows.specs.Tables.{listed};
ghost use Rattle.vtl.specs.Falling.{all_falling, falling};

use crate::tests::held;
use sql_back::{Bundled, SqlBack, TextEngine};
use std::alloc::{AllocError, Global};
use vtl_backend::Backend;
use vtl_cell::Cell;
use vtl_files::MemFiles;
use vtl_rows::{Inputs, Outputs, SortKey, Table};
use vtl_scalar::RunErr;
use vtl_status::Status;
use vtl_text::Txt;
use vtl_top::{Chosen, Source, read_inputs, read_typed};

const FALLING: SortKey = SortKey {
    column: 0,
    falling: true,
};

// Runs texts by the bundled engine, and sorts the rows of each table by its first column, the greatest first.
#[derive(Drop)]
struct Falling {
    bundled: Bundled,
}

impl TextEngine for Falling {
    ghost last = { λ f. f.bundled };

    fn run_text(
        &mut self,
        alloc: Global,
        text: String,
        inputs: &Inputs,
        out: &mut Outputs,
    ) -> Result<(), RunErr> {
        let mut tables = Outputs::new(alloc);
        if let Err(error) = self.bundled.run_text(alloc, text, inputs, &mut tables) {
            return Err(error);
        }
        *out = all_falling(alloc, &tables)?;
        Ok(())
    }
}

// The tables with their rows falling. It fails also where a name comes twice, as it does in no answer of an engine.
fn all_falling(alloc: Global, tables: &Outputs) -> Result<Outputs, AllocError>
    ensures { IfOk result (λ all. all ≡ all_falling tables.now) }
{
    let mut all = Outputs::new(alloc);
    for i in 0..tables.len() {
        let (name, table) = falling_at(alloc, tables, i)?;
        if all.get(&name).is_some() {
            return Err(AllocError);
        }
        all.put(alloc, name, table)?;
    }
    Ok(all)
}

// A copy of the table at a place, with its rows falling, and its name.
fn falling_at(alloc: Global, tables: &Outputs, i: usize) -> Result<(Txt, Table), AllocError>
    requires { i < length tables.now }
    ensures { IfOk result (λ t. (t.0, listed t.1) ≡ slice_index_or (all_falling tables.now) i (t.0, listed t.1)) }
{
    let (name, table) = tables.at(i);
    Ok((name.share()?, sorted_falling(alloc, table)?))
}

fn sorted_falling(alloc: Global, table: &Table) -> Result<Table, AllocError>
    ensures { IfOk result (λ t. listed t ≡ falling (listed table.now)) }
{
    // There is a first column.
    let _columns = table.columns();
    let mut copy = table.copy(alloc)?;
    copy.sort_by_columns(alloc, &[FALLING])?;
    Ok(copy)
}

// What a back end gives for the script over a data set of these lines.
fn given_by<B: Backend>(alloc: Global, back: &mut B, lines: &str) -> Result<Outputs, Status> {
    let mut files = MemFiles::new(alloc, held(alloc, lines)?, 8, Vec::new(alloc));
    let source = Source {
        script: "script.vtl",
        structures: "structures.csv",
        chosen: Chosen::new(None, None).unwrap(),
    };
    let checked = read_typed(alloc, &mut files, &source)?;
    let inputs = read_inputs(alloc, &mut files, "in", &checked)?;
    let mut given = Outputs::new(alloc);
    match back.run(alloc, &checked, &inputs, &mut given) {
        Ok(()) => Ok(given),
        Err(_) => Err(Status::Memory),
    }
}

fn is_row(table: &Table, i: usize, name: &str, value: i64) -> bool {
    i < table.len()
        && match table.row(i) {
            [Cell::Text(n), Cell::Int(v)] => n.as_str() == name && *v == value,
            _ => false,
        }
}

// Whether the tables are the one of the result, and its rows fall.
fn are_falling(given: &Outputs) -> bool {
    if given.len() != 1 {
        return false;
    }
    let (name, table) = given.at(0);
    name.as_str() == "DS_r"
        && table.len() == 2
        && is_row(table, 0, "b", 7)
        && is_row(table, 1, "a", 9)
}

// Whether the back end over the engine gives them, whatever the order of these lines.
fn gives_falling(alloc: Global, lines: &str) -> bool {
    let mut back = SqlBack::new(Falling {
        bundled: Bundled::new(),
    });
    match given_by(alloc, &mut back, lines) {
        Ok(given) => are_falling(&given),
        Err(_) => false,
    }
}

// The bundled engine gives the rows rising, and the interpreter as they stand in the file.
#[test]
fn a_back_end_gives_the_tables_of_its_engine(rt: HostRuntime) {
    assert!(rt; gives_falling(rt.alloc(), "Id_1,Me_1\nb,7\na,9\nc,3\n"));
    assert!(rt; gives_falling(rt.alloc(), "Id_1,Me_1\na,9\nb,7\nc,3\n"));
}
