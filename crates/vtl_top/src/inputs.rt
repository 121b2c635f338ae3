// The data sets that are read, from their files.
//
// All inputs are read before any statement is carried out, in order of first use. They are let go after the run
// (`run_over`), before the first text is made.
ghost use Rattle.std.specs.Prelude.{◌≡◌, ◌<◌, [], true, None, Some, length, map, slice_index_or, IfOk, OnOk};
ghost use Rattle.std.specs.List.{AllByRecursion, list_any};
ghost use Rattle.std.specs.Map.{keys_of, lookup};
ghost use Rattle.vtl_rows.specs.Named.{table_of};
ghost use Rattle.vtl_rows.specs.Tables.{listed};
ghost use Rattle.vtl_tree.specs.DataSet.{AreOfProfile};
ghost use Rattle.vtl_tree.specs.Structure.{IsStructure, same_name};
ghost use Rattle.vtl_check.specs.Checked.{inputs_of as names_of};
ghost use Rattle.vtl_csv.specs.InputFile.{dataset_rows};
ghost use Rattle.vtl_backend.specs.Inputs.{AreInRange, AreInputs, Holds, environment_of, input_of, inputs_of, rows_named};
ghost use Rattle.vtl_meaning.specs.Profiles.{AllAreOfProfile};
ghost use Rattle.vtl_sets.specs.TableOf.{IsTableOf};
ghost use Rattle.vtl_top.specs.Answered.{Takes};
ghost use Rattle.vtl_top.specs.Expected.{dataset_step, folder_step, inputs_step};
ghost use Rattle.vtl_top.specs.InputsRead.{Adds, AreReadable, IsListed, all_wanted, all_wanted_from, as_wanted, rows_in, wanted_from};
ghost use Rattle.vtl_top.specs.Refusal.{IsTableRead};
ghost use Rattle.vtl_top.specs.ResultTables.{structure_named};
ghost use Rattle.vtl_top.specs.Wanted.{wanted_with};

use crate::reading::{file_in, read_file};
use crate::refusal::input_refusal;
use std::alloc::{AllocError, Global};
use vtl_check::Checked;
use vtl_csv::read_dataset;
use vtl_decimal::Profile;
use vtl_files::Files;
use vtl_rows::{Table, Tables};
use vtl_status::Status;
use vtl_text::Txt;
use vtl_tree::Structure;

const CSV_LIMIT: usize = 67_108_864;

/// A data set that is read.
#[derive(Clone, Copy)]
pub struct Wanted<'a> {
    /// The name.
    pub name: &'a Txt,
    /// The structure.
    pub structure: &'a Structure,
    /// The names of its not-null components.
    pub not_null: &'a [Txt],
}

// The table of a data set that the bytes of a file hold.
fn table_in(
    alloc: Global,
    wanted: &Wanted<'_>,
    bytes: &[u8],
    profile: &Profile,
) -> Result<Table, Status>
    requires { IsStructure wanted.now.structure.now }
    ensures table { IsTableRead wanted.now.name.now wanted.now.structure.now (dataset_rows profile.now wanted.now.structure.now wanted.now.not_null.now bytes.now) result }
    ensures ranges { IfOk result (λ t. AreOfProfile profile.now t.rows) }
{
    match read_dataset(alloc, bytes, wanted.structure, wanted.not_null, profile) {
        Ok(table) => Ok(table),
        Err(error) => Err(input_refusal(wanted.name, error)),
    }
}

// The table of a data set, from its file in a folder.
pub(crate) fn read_input<F: Files>(
    alloc: Global,
    files: &mut F,
    folder: &str,
    profile: &Profile,
    wanted: &Wanted<'_>,
) -> Result<Table, Status>
    requires { IsStructure wanted.now.structure.now }
    ensures takes { Takes F.Files files.old files.new (dataset_step profile.now (wanted_from folder.now wanted.now)) rows_in result }
    ensures table { IfOk result (λ t. IsTableOf wanted.now.structure.now (listed t)) }
    ensures ranges { IfOk result (λ t. AreOfProfile profile.now t.rows) }
{
    let path = file_in(alloc, folder, wanted.name)?;
    match read_file(alloc, files, path.as_str(), CSV_LIMIT) {
        Ok(bytes) => table_in(alloc, wanted, &bytes, profile),
        Err(status) => Err(status),
    }
}

// Reads one more data set, and puts its table after the others.
#[tactic(auto, using(crate::proofs::InputLemmas::takes_added))]
fn add_input<F: Files>(
    alloc: Global,
    files: &mut F,
    folder: &str,
    profile: &Profile,
    wanted: &Wanted<'_>,
    tables: &mut Tables,
) -> Result<(), Status>
    requires structure { IsStructure wanted.now.structure.now }
    requires new { table_of wanted.now.name.now tables.old ≡ None }
    ensures takes { Takes F.Files files.old files.new (dataset_step profile.now (wanted_from folder.now wanted.now)) (λ _. rows_named wanted.now.name.now tables.new) result }
    ensures put { OnOk result (Adds profile.now wanted.now.name.now wanted.now.structure.now tables.old tables.new) }
{
    match read_input(alloc, files, folder, profile, wanted) {
        Ok(table) => Ok(tables.put(alloc, wanted.name.share()?, table)?),
        Err(status) => Err(status),
    }
}

fn wanted_at<'a>(wanted: &[Wanted<'a>], i: usize) -> Wanted<'a>
    requires { i < length wanted.now }
    ensures { result ≡ slice_index_or wanted.now i result }
{
    wanted[i]
}

/// The tables of data sets, each from its file in a folder, in order.
pub fn read_all_wanted<F: Files>(
    alloc: Global,
    files: &mut F,
    folder: &str,
    profile: &Profile,
    wanted: &[Wanted<'_>],
) -> Result<Tables, Status>
    requires { AreReadable (all_wanted wanted.now) }
    ensures takes { Takes F.Files files.old files.new (inputs_step profile.now [] (all_wanted_from folder.now wanted.now)) (λ t. map (input_of t) (all_wanted wanted.now)) result }
    ensures names { IfOk result (λ t. keys_of t ≡ keys_of (all_wanted wanted.now)) }
    ensures inputs { IfOk result (λ t. AllByRecursion (λ e. Holds e.1 (table_of e.0 t)) (all_wanted wanted.now)) }
    ensures ranges { IfOk result (λ t. AllAreOfProfile profile.now (map (input_of t) (all_wanted wanted.now))) }
{
    let mut tables = Tables::new(alloc);
    for i in 0..wanted.len() {
        let one = wanted_at(wanted, i);
        match add_input(alloc, files, folder, profile, &one, &mut tables) {
            Ok(()) => {}
            Err(status) => return Err(status),
        }
    }
    Ok(tables)
}

// The name and the structure of the data set at a place among those that are read.
#[tactic(auto, using(crate::proofs::InputLemmas::key_within, crate::proofs::InputLemmas::input_there, crate::proofs::InputLemmas::input_not_missing))]
pub(crate) fn input_at(checked: &Checked, i: usize) -> (&Txt, &Structure)
    requires within { i < length (inputs_of checked.now) }
    ensures at { (result.0.now, result.1.now) ≡ slice_index_or (inputs_of checked.now) i (result.0.now, result.1.now) }
{
    let name = &checked.inputs()[i];
    match checked.structure(name) {
        Some(structure) => (name, structure),
        None => unreachable!(),
    }
}

// The data set of a name that a script reads.
pub(crate) fn wanted_named<'a>(checked: &'a Checked, name: &'a Txt) -> Wanted<'a>
    requires { list_any (same_name name.now) (names_of checked.now) ≡ true }
    ensures wanted { as_wanted result ≡ wanted_with checked.now.not_null (name.now, structure_named name.now (inputs_of checked.now)) }
    ensures found { lookup (same_name name.now) (inputs_of checked.now) ≡ Some result.structure.now }
    ensures structure { IsStructure result.structure.now }
{
    // The structures of what is declared are structures.
    let _nodes = checked.nodes();
    match checked.structure(name) {
        Some(structure) => Wanted {
            name,
            structure,
            not_null: checked.not_null(name),
        },
        None => unreachable!(),
    }
}

// The data sets that a script reads.
fn wanted_of(alloc: Global, checked: &Checked) -> Result<Vec<Wanted<'_>>, AllocError>
    ensures entries { IfOk result (λ wanted. all_wanted wanted.items ≡ inputs_of checked.now) }
    ensures listed { IfOk result (λ wanted. AllByRecursion (IsListed checked.now.not_null) wanted.items) }
{
    let mut wanted = Vec::new(alloc);
    for i in 0..checked.inputs().len() {
        let (name, structure) = input_at(checked, i);
        wanted.push(Wanted {
            name,
            structure,
            not_null: checked.not_null(name),
        })?;
    }
    Ok(wanted)
}

/// The tables of the data sets that a script reads, each from its file in a folder, in order of first use.
pub fn read_inputs<F: Files>(
    alloc: Global,
    files: &mut F,
    folder: &str,
    checked: &Checked,
) -> Result<Tables, Status>
    ensures takes { Takes F.Files files.old files.new (folder_step folder.now checked.now.settings checked.now.not_null (inputs_of checked.now)) (environment_of checked.now) result }
    ensures inputs { IfOk result (λ t. AreInputs checked.now t) }
    ensures ranges { IfOk result (λ t. AreInRange checked.now t) }
{
    // The nodes are typed over structures as they may be declared, whose names are distinct.
    let _nodes = checked.nodes();
    let wanted = wanted_of(alloc, checked)?;
    read_all_wanted(alloc, files, folder, checked.profile(), &wanted)
}
