// A typed script in SQL.
ghost use Rattle.std.specs.Fmt.{decimal};
ghost use Rattle.std.specs.Prelude.{◌≡◌, ◌≤◌, ◌++◌, ◌∷◌, [], map, length, IfOk, OnOk};
ghost use Rattle.vtl_syntax.specs.View.{statement_tree as vtl_statement_tree};
ghost use Rattle.vtl_tree.specs.NodeView.{node_tree};
ghost use Rattle.vtl_backend.specs.Inputs.{inputs_of};
ghost use Rattle.vtl_backend.specs.Statements.{statements_of, with_nodes};
ghost use Rattle.vtl_check.specs.Transformations.{transformations};
ghost use Rattle.sql_tree.specs.View.{script_tree, statement_tree};
ghost use Rattle.vtl_to_sql.specs.Accepted.{AreFew};
ghost use Rattle.vtl_to_sql.specs.Conditions.{HasFewTables, IsScript};
ghost use Rattle.vtl_to_sql.specs.Reads.{statement_of};
ghost use Rattle.selects_to_sql.specs.Tables.{create_for};
ghost use Rattle.vtl_to_sql.specs.Scripts.{export_for, ordered, script_for, statements_for, written_of};
ghost use Rattle.vtl_to_sql.specs.Tables.{script_tables, statement_tables};

use crate::constants::constants_are_held;
use crate::inputs::{names, push_inputs};
use crate::walk::query;
use selects_to_sql::{Draft, Writer};
use sql_tree::{SqlExport, SqlScript, Statement};
use std::alloc::{AllocError, Global};
use vtl_check::Checked;
use vtl_decimal::Profile;
use vtl_syntax::{AssignKind, Statement as Assigned};
use vtl_text::{List, Txt};
use vtl_tree::{Node, Structure};

// Adds the tables of a statement, of which the last one has the name of its result.
fn push_result(
    alloc: Global,
    writer: &Writer,
    draft: &mut Draft,
    name: &Txt,
    kind: AssignKind,
    node: &Node,
) -> Result<(), AllocError>
    ensures tables { OnOk result (map statement_tree draft.new.statements.items ≡ map statement_tree draft.old.statements.items ++ map create_for (statement_tables writer.now (statement_of name.now kind (node_tree node.now)))) }
    ensures few { OnOk result (HasFewTables writer.now (statement_of name.now kind (node_tree node.now))) }
{
    draft.begin();
    let query = query(alloc, writer, &node.form, &node.structure, name, draft)?;
    draft.create(name, query)
}

// Adds the tables of all statements. A definition has no node, and gives nothing.
fn push_results(
    alloc: Global,
    writer: &Writer,
    draft: &mut Draft,
    statements: &[Assigned],
    nodes: &[Node],
) -> Result<(), AllocError>
    requires { length nodes.now ≡ length (transformations (map vtl_statement_tree statements.now)) }
    ensures tables { OnOk result (map statement_tree draft.new.statements.items ≡ map statement_tree draft.old.statements.items ++ map create_for (script_tables writer.now (with_nodes (transformations (map vtl_statement_tree statements.now)) (map node_tree nodes.now)))) }
    ensures few { OnOk result (AreFew writer.now (with_nodes (transformations (map vtl_statement_tree statements.now)) (map node_tree nodes.now))) }
{
    let mut place = 0;
    for statement in statements {
        let Assigned::Assignment { name, kind, .. } = statement else {
            continue;
        };
        push_result(alloc, writer, draft, name, *kind, &nodes[place])?;
        place += 1;
    }
    Ok(())
}

fn export(alloc: Global, name: &Txt, s: &Structure) -> Result<SqlExport, AllocError>
    ensures { IfOk result (λ x. x ≡ ordered (name.now, s.now)) }
{
    let identifiers = s.identifiers(alloc)?;
    Ok(SqlExport {
        name: name.share()?,
        order: names(alloc, &identifiers)?,
    })
}

// Adds the EXPORT of a result, where it is written.
fn push_export(
    alloc: Global,
    draft: &mut Draft,
    name: &Txt,
    kind: AssignKind,
    node: &Node,
) -> Result<(), AllocError>
    ensures { OnOk result (map statement_tree draft.new.statements.items ≡ map statement_tree draft.old.statements.items ++ map export_for (written_of (statement_of name.now kind (node_tree node.now) ∷ []))) }
{
    match kind {
        AssignKind::Persistent => {
            draft.push(Statement::Export(export(alloc, name, &node.structure)?))
        }
        AssignKind::Temporary => Ok(()),
    }
}

// Adds the EXPORTs of the results that are written. A definition has no node, and gives nothing.
fn push_exports(
    alloc: Global,
    draft: &mut Draft,
    statements: &[Assigned],
    nodes: &[Node],
) -> Result<(), AllocError>
    requires { length nodes.now ≡ length (transformations (map vtl_statement_tree statements.now)) }
    ensures { OnOk result (map statement_tree draft.new.statements.items ≡ map statement_tree draft.old.statements.items ++ map export_for (written_of (with_nodes (transformations (map vtl_statement_tree statements.now)) (map node_tree nodes.now)))) }
{
    let mut place = 0;
    for statement in statements {
        let Assigned::Assignment { name, kind, .. } = statement else {
            continue;
        };
        push_export(alloc, draft, name, *kind, &nodes[place])?;
        place += 1;
    }
    Ok(())
}

// The statements of a script behind its settings.
fn statements(alloc: Global, script: &Checked) -> Result<Vec<Statement>, AllocError>
    ensures statements { IfOk result (λ v. map statement_tree v.items ≡ statements_for script.now.settings script.now.not_null (inputs_of script.now) (statements_of script.now)) }
    ensures few { IfOk result (λ v. AreFew script.now.settings (statements_of script.now)) }
{
    let writer = Writer::new(alloc, script.profile())?;
    let mut draft = Draft::new(alloc);
    push_inputs(alloc, &mut draft, script)?;
    push_results(
        alloc,
        &writer,
        &mut draft,
        script.statements(),
        script.nodes(),
    )?;
    push_exports(alloc, &mut draft, script.statements(), script.nodes())?;
    Ok(draft.into_statements())
}

// The scale as it is written.
fn scale(alloc: Global, p: &Profile) -> Result<Txt, AllocError>
    ensures text { IfOk result (λ t. t ≡ decimal p.now.scale) }
    ensures low { p.now.scale ≤ 9 }
{
    let digits = format!(in alloc; "{}", p.scale())?;
    Txt::new(alloc, &digits)
}

// The statements of a script behind its settings, with what the laws of translated scripts ask.
fn accepted_statements(alloc: Global, script: &Checked) -> Result<Vec<Statement>, AllocError>
    ensures statements { IfOk result (λ v. map statement_tree v.items ≡ statements_for script.now.settings script.now.not_null (inputs_of script.now) (statements_of script.now)) }
    ensures accepted { IfOk result (λ v. script.now.settings.scale ≤ 9 → IsScript script.now.settings (inputs_of script.now) (statements_of script.now)) }
{
    constants_are_held(alloc, script);
    let statements = statements(alloc, script)?;
    let _nodes = script.nodes();
    Ok(statements)
}

/// The script in SQL: its settings, an INPUT for each data set that is read, in order of first use, the tables of each
/// statement, and an EXPORT for each result that is written, in order. It meets what the laws of translated scripts ask,
/// so it means the same as the script. It fails only if memory runs out.
pub fn translate(alloc: Global, script: &Checked) -> Result<SqlScript, AllocError>
    ensures script { IfOk result (λ x. script_tree x ≡ script_for script.now.settings script.now.not_null (inputs_of script.now) (statements_of script.now)) }
    ensures accepted { IfOk result (λ x. IsScript script.now.settings (inputs_of script.now) (statements_of script.now)) }
{
    let profile = script.profile();
    let statements = accepted_statements(alloc, script)?;
    Ok(SqlScript {
        scale: scale(alloc, profile)?,
        rounding: profile.rounding(),
        statements: List::of(statements),
    })
}
