// The INPUT statements of a script: one for each declared data set that it reads.
ghost use Rattle.std.specs.Map.{lookup};
ghost use Rattle.std.specs.Prelude.{◌≡◌, ◌++◌, ◌∷◌, [], map, unwrap_or, IfOk, OnOk, Some};
ghost use Rattle.vtl_tree.specs.Shown.{shown};
ghost use Rattle.vtl_tree.specs.Structure.{names_of, same_name};
ghost use Rattle.vtl_tree.specs.declared.structure.Structure.{Structure as StructureOf};
ghost use Rattle.vtl_check.specs.Checked.{known_of};
ghost use Rattle.vtl_backend.specs.Inputs.{inputs_of};
ghost use Rattle.sql_tree.specs.View.{statement_tree};
ghost use Rattle.vtl_to_sql.specs.Reads.{IsRead};
ghost use Rattle.vtl_to_sql.specs.Scripts.{input_column, input_for, input_of};

use selects_to_sql::Draft;
use sql_tree::{InputColumn, SqlInput, Statement};
use std::alloc::{AllocError, Global};
use vtl_check::Checked;
use vtl_text::{List, Shared, Txt};
use vtl_tree::{Component, Structure, is_among};

// The same texts, which are shared.
fn same_texts(alloc: Global, texts: &[Txt]) -> Result<List<Txt>, AllocError>
    ensures { IfOk result (λ l. l ≡ texts.now) }
{
    let mut same = Vec::with_capacity(alloc, texts.len())?;
    for text in texts {
        same.push(text.share()?)?;
    }
    Ok(List::of(same))
}

// The codes of a component; none where it lists none.
fn codes(alloc: Global, codes: &Option<Shared<Txt>>) -> Result<List<Txt>, AllocError>
    ensures { IfOk result (λ l. l ≡ unwrap_or codes.now []) }
{
    match codes {
        Some(codes) => same_texts(alloc, codes.as_slice()),
        None => Ok(List::of(Vec::new(alloc))),
    }
}

// The column of a component, where these names are those of the components that are never null.
fn input_column(
    alloc: Global,
    not_null: &[Txt],
    component: &Component,
) -> Result<InputColumn, AllocError>
    ensures { IfOk result (λ x. x ≡ input_column not_null.now component.now) }
{
    Ok(InputColumn {
        name: component.name.share()?,
        kind: component.kind,
        not_null: is_among(&component.name, not_null),
        codes: codes(alloc, &component.codes)?,
    })
}

fn input_columns(
    alloc: Global,
    not_null: &[Txt],
    components: &[&Component],
) -> Result<List<InputColumn>, AllocError>
    ensures { IfOk result (λ l. l ≡ map (input_column not_null.now) (shown components.now)) }
{
    let mut columns = Vec::with_capacity(alloc, components.len())?;
    for component in components {
        columns.push(input_column(alloc, not_null, component)?)?;
    }
    Ok(List::of(columns))
}

/// The names of components. It fails only if memory runs out.
pub(crate) fn names(alloc: Global, components: &[&Component]) -> Result<List<Txt>, AllocError>
    ensures { IfOk result (λ l. l ≡ names_of (shown components.now)) }
{
    let mut names = Vec::with_capacity(alloc, components.len())?;
    for component in components {
        names.push(component.name.share()?)?;
    }
    Ok(List::of(names))
}

fn input(alloc: Global, script: &Checked, name: &Txt, s: &Structure) -> Result<SqlInput, AllocError>
    ensures { IfOk result (λ x. x ≡ input_of script.now.not_null (name.now, s.now)) }
{
    let columns = s.columns(alloc)?;
    let identifiers = s.identifiers(alloc)?;
    Ok(SqlInput {
        name: name.share()?,
        columns: input_columns(alloc, script.not_null(name), &columns)?,
        key: names(alloc, &identifiers)?,
    })
}

// Adds the INPUT of a data set.
fn push_input(
    alloc: Global,
    draft: &mut Draft,
    script: &Checked,
    name: &Txt,
    s: &Structure,
) -> Result<(), AllocError>
    ensures { OnOk result (map statement_tree draft.new.statements.items ≡ map statement_tree draft.old.statements.items ++ input_for script.now.not_null (name.now, s.now) ∷ []) }
{
    draft.push(Statement::Input(input(alloc, script, name, s)?))
}

// Adds the INPUT of a data set that a script reads.
fn push_read(
    alloc: Global,
    draft: &mut Draft,
    script: &Checked,
    name: &Txt,
) -> Result<(), AllocError>
    requires { IsRead script.now name.now }
    ensures { OnOk result ((s : StructureOf) → lookup (same_name name.now) (known_of script.now) ≡ Some s → map statement_tree draft.new.statements.items ≡ map statement_tree draft.old.statements.items ++ input_for script.now.not_null (name.now, s) ∷ []) }
{
    match script.structure(name) {
        Some(s) => push_input(alloc, draft, script, name, s),
        None => unreachable!(),
    }
}

/// Adds the INPUTs of the data sets that a script reads, in order of first use. It fails only if memory runs out.
pub(crate) fn push_inputs(
    alloc: Global,
    draft: &mut Draft,
    script: &Checked,
) -> Result<(), AllocError>
    ensures { OnOk result (map statement_tree draft.new.statements.items ≡ map statement_tree draft.old.statements.items ++ map (input_for script.now.not_null) (inputs_of script.now)) }
{
    for name in script.inputs() {
        push_read(alloc, draft, script, name)?;
    }
    Ok(())
}
