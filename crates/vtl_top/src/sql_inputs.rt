// The data sets that an SQL script reads, from their files.
ghost use Rattle.std.specs.Prelude.{◌≡◌, [], map, IfOk};
ghost use Rattle.sql_tree.specs.View.{script_tree, statement_tree};
ghost use Rattle.sql_meaning.specs.Scripts.{Inputs};
ghost use Rattle.sql_check_parts.specs.Statements.{script_settings};
ghost use Rattle.sql_engine.specs.InputTables.{AreInputsInRange, HaveInputTables, rows_given};
ghost use Rattle.vtl_backend.specs.Inputs.{input_of};
ghost use Rattle.vtl_top.specs.Answered.{Takes};
ghost use Rattle.vtl_top.specs.Expected.{wanted_step};
ghost use Rattle.vtl_top.specs.InputsRead.{as_wanted};
ghost use Rattle.vtl_top.specs.SqlInputs.{input_structures, inputs_wanted, rows_by_name, wanted_by};

use crate::inputs::{Wanted, read_all_wanted};
use sql_check::SqlChecked;
use sql_engine::{not_null_of, structure_of};
use sql_tree::Statement;
use std::alloc::{AllocError, Global};
use vtl_files::Files;
use vtl_rows::Tables;
use vtl_status::Status;
use vtl_text::{List, Txt};
use vtl_tree::Structure;

// An INPUT: its name, the structure that it declares, and its NOT NULL columns.
#[derive(Drop)]
struct Input<'a> {
    name: &'a Txt,
    structure: Structure,
    not_null: List<Txt>,
}

// The INPUTs among statements, in order.
fn inputs_of(alloc: Global, statements: &[Statement]) -> Result<Vec<Input<'_>>, AllocError>
    ensures { IfOk result (λ inputs. map wanted_by inputs.items ≡ inputs_wanted (map statement_tree statements.now)) }
{
    let mut inputs = Vec::new(alloc);
    for statement in statements {
        if let Statement::Input(input) = statement {
            let structure = structure_of(alloc, input)?;
            let not_null = List::of(not_null_of(alloc, input)?);
            inputs.push(Input {
                name: &input.name,
                structure,
                not_null,
            })?;
        }
    }
    Ok(inputs)
}

fn wanted_of<'a>(alloc: Global, inputs: &'a [Input<'_>]) -> Result<Vec<Wanted<'a>>, AllocError>
    ensures { IfOk result (λ wanted. map as_wanted wanted.items ≡ map wanted_by inputs.now) }
{
    let mut wanted = Vec::with_capacity(alloc, inputs.len())?;
    for input in inputs {
        wanted.push(Wanted {
            name: input.name,
            structure: &input.structure,
            not_null: input.not_null.as_slice(),
        })?;
    }
    Ok(wanted)
}

/// The tables of the INPUTs of a script, each from its file in a folder, in the order in which they are written.
pub fn read_sql_inputs<F: Files>(
    alloc: Global,
    files: &mut F,
    folder: &str,
    checked: &SqlChecked,
) -> Result<Tables, Status>
    ensures takes { Takes F.Files files.old files.new (wanted_step folder.now checked.now.settings (inputs_wanted (script_tree checked.now.script))) (λ t. map (input_of t) (input_structures (script_tree checked.now.script))) result }
    ensures rows { IfOk result (λ t. rows_given t ≡ rows_by_name (map (input_of t) (input_structures (script_tree checked.now.script)))) }
    ensures tables { IfOk result (λ t. HaveInputTables t (script_tree checked.now.script)) }
    ensures ranges { IfOk result (λ t. AreInputsInRange checked.now.settings t (script_tree checked.now.script)) }
{
    let inputs = inputs_of(alloc, checked.script().statements.as_slice())?;
    let wanted = wanted_of(alloc, &inputs)?;
    read_all_wanted(alloc, files, folder, checked.profile(), &wanted)
}
