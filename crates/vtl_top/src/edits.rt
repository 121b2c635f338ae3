// The edits file of a replay.
ghost use Rattle.std.specs.Prelude.{◌≡◌, ◌+◌, ◌++◌, [], ◌∷◌, chars, length, true, Some, None, IfOk, IfSome, OnOk, if◌then◌else◌};
ghost use Rattle.std.specs.List.{AllByRecursion, list_any};
ghost use Rattle.std.specs.Map.{keys_of};
ghost use Rattle.std.specs.Option.{option_map};
ghost use Rattle.sql_lexer.specs.Spelling.{has_no_control};
ghost use Rattle.vtl_rows.specs.Tables.{listed};
ghost use Rattle.vtl_tree.specs.DataSet.{AreOfProfile};
ghost use Rattle.vtl_tree.specs.Structure.{same_name};
ghost use Rattle.vtl_check.specs.Checked.{inputs_of};
ghost use Rattle.vtl_rerun.specs.Kept.{IsInputOf};
ghost use Rattle.vtl_top.specs.Answered.{Takes};
ghost use Rattle.vtl_top.specs.Edits.{edit_in, edits_in, edits_of, edits_or_fault, edits_step, is_edit, is_folder};
ghost use Rattle.vtl_top.specs.EditsView.{NamesInput, edit_view, edits_view};
ghost use Rattle.vtl_top.specs.Expected.{dataset_step};
ghost use Rattle.vtl_top.specs.Informed.{typed_view};
ghost use Rattle.vtl_top.specs.InputsRead.{rows_in};
ghost use Rattle.vtl_top.specs.Refusal.{SettlesBy};
ghost use Rattle.vtl_top.specs.Replayed.{edit_input};

use crate::inputs::{input_at, read_input, wanted_named};
use crate::reading::read_file;
use crate::refusal::not_text;
use crate::run::SCRIPT_LIMIT;
use std::alloc::{AllocError, Global};
use std::str;
use vtl_check::Checked;
use vtl_files::Files;
use vtl_rows::Table;
use vtl_status::Status;
use vtl_text::{ByName, Txt};

/// An input that is replaced, and the folder of its file.
#[derive(Drop)]
pub struct Edit {
    /// The name of the input.
    pub input: Txt,
    /// The folder.
    pub folder: String,
}

fn has_no_control(word: &str) -> bool
    ensures { result ≡ has_no_control (chars word.now) }
{
    word.chars().all(|c| !c.is_control())
}

// Whether a word names a folder: it is not empty, and has no control characters.
fn is_folder(word: &str) -> bool
    ensures { result ≡ is_folder word.now }
{
    !word.is_empty() && has_no_control(word)
}

// The names of the data sets that a script reads.
fn input_names(alloc: Global, checked: &Checked) -> Result<ByName<()>, AllocError>
    ensures { IfOk result (λ names. keys_of names ≡ inputs_of checked.now) }
{
    // The names of declared data sets are distinct.
    let _nodes = checked.nodes();
    let mut names = ByName::new(alloc);
    for i in 0..checked.inputs().len() {
        let (name, _) = input_at(checked, i);
        names.put(name.share()?, ())?;
    }
    Ok(names)
}

// The edit that a line is: the name of an input, one space, and a folder word.
fn edit_of(alloc: Global, inputs: &ByName<()>, line: &str) -> Result<Option<Edit>, AllocError>
    ensures edit { IfOk result (λ found. option_map edit_view found ≡ (if is_edit (keys_of inputs.now) (edit_in line.now) then Some (edit_in line.now) else None)) }
    ensures input { IfOk result (λ found. IfSome found (λ e. list_any (same_name e.input) (keys_of inputs.now) ≡ true)) }
{
    let Some((name, folder)) = line.split_once(' ') else {
        return Ok(None);
    };
    if !is_folder(folder) {
        return Ok(None);
    }
    let input = Txt::new(alloc, name)?;
    if !inputs.has(&input) {
        return Ok(None);
    }
    Ok(Some(Edit {
        input,
        folder: String::from_str(alloc, folder)?,
    }))
}

fn put(edits: &mut Vec<Edit>, edit: Edit) -> Result<(), AllocError>
    ensures { OnOk result (edits.new.items ≡ edits.old.items ++ edit ∷ []) }
{
    Ok(edits.push(edit)?)
}

// The edits of a text, a line for each, or the status of the first line that is none; or that memory ran out.
fn edits_in(alloc: Global, inputs: &ByName<()>, text: &str) -> Result<Vec<Edit>, Status>
    ensures edits { SettlesBy edits_view (edits_or_fault (edits_in (keys_of inputs.now) text.now)) result }
    ensures inputs { IfOk result (λ edits. AllByRecursion (λ e. list_any (same_name e.input) (keys_of inputs.now) ≡ true) edits.items) }
{
    let mut edits = Vec::new(alloc);
    let mut rest = text;
    while let Some((line, behind)) = rest.split_once('\n') {
        match edit_of(alloc, inputs, line)? {
            Some(edit) => put(&mut edits, edit)?,
            None => return Err(line_behind(&edits)),
        }
        rest = behind;
    }
    if !rest.is_empty() {
        return Err(line_behind(&edits));
    }
    Ok(edits)
}

// The status of the line behind those of these edits.
fn line_behind(edits: &[Edit]) -> Status
    ensures { result ≡ Status.Edits (length edits.now + 1) }
{
    Status::Edits {
        line: edits.len() as u64 + 1,
    }
}

// The edits of a text, each of a data set that a script reads.
fn edits_of_text(alloc: Global, checked: &Checked, text: &str) -> Result<Vec<Edit>, Status>
    ensures edits { SettlesBy edits_view (edits_or_fault (edits_in (inputs_of checked.now) text.now)) result }
    ensures inputs { IfOk result (λ edits. AllByRecursion (NamesInput checked.now) edits.items) }
{
    let names = input_names(alloc, checked)?;
    edits_in(alloc, &names, text)
}

// What the bytes of the file at a path say, or the status of their fault; or that memory ran out.
fn edits_of(alloc: Global, path: &str, checked: &Checked, bytes: &[u8]) -> Result<Vec<Edit>, Status>
    ensures edits { SettlesBy edits_view (edits_of path.now (inputs_of checked.now) bytes.now) result }
    ensures inputs { IfOk result (λ edits. AllByRecursion (NamesInput checked.now) edits.items) }
{
    match str::from_utf8(bytes) {
        Ok(text) => edits_of_text(alloc, checked, text),
        Err(_) => Err(not_text(alloc, path)),
    }
}

/// The edits of a file, each of a data set that the script reads. The file has the refusals of a script file; then comes
/// the first line that has not the form of an edit.
pub fn read_edits<F: Files>(
    alloc: Global,
    files: &mut F,
    path: &str,
    checked: &Checked,
) -> Result<Vec<Edit>, Status>
    ensures takes { Takes F.Files files.old files.new (edits_step path.now (inputs_of checked.now)) edits_view result }
    ensures inputs { IfOk result (λ edits. AllByRecursion (NamesInput checked.now) edits.items) }
{
    match read_file(alloc, files, path, SCRIPT_LIMIT) {
        Ok(bytes) => edits_of(alloc, path, checked, &bytes),
        Err(status) => Err(status),
    }
}

/// The table of the data set that an edit replaces, from its file.
pub fn read_edited<F: Files>(
    alloc: Global,
    files: &mut F,
    checked: &Checked,
    edit: &Edit,
) -> Result<Table, Status>
    requires { NamesInput checked.now edit.now }
    ensures takes { Takes F.Files files.old files.new (dataset_step checked.now.settings (edit_input (typed_view checked.now) (edit_view edit.now))) rows_in result }
    ensures input { IfOk result (λ t. IsInputOf checked.now edit.now.input (listed t)) }
    ensures ranges { IfOk result (λ t. AreOfProfile checked.now.settings t.rows) }
{
    let wanted = wanted_named(checked, &edit.input);
    read_input(
        alloc,
        files,
        edit.folder.as_str(),
        checked.profile(),
        &wanted,
    )
}
