// The statements of a transformation as a script of its own.
ghost use Rattle.std.specs.Prelude.{◌≡◌, ◌++◌, true, map, Some, IfOk, OnOk};
ghost use Rattle.vtl_syntax.specs.View.{script_tree, statement_tree};
ghost use Rattle.vtl_syntax.specs.Written.{AreWritten};
ghost use Rattle.vtl_check.specs.Checked.{tree_of};
ghost use Rattle.rerun_laws.specs.Parts.{definitions_in, is_transformation, part_tree, persistent};

use std::alloc::{AllocError, Global};
use syntax_copies::{copy_expression, copy_statement};
use vtl_check::Checked;
use vtl_syntax::{AssignKind, Script, Statement};
use vtl_text::Shared;

// Copies of the definitions of rulesets among statements.
fn definitions(alloc: Global, statements: &[Statement]) -> Result<Vec<Statement>, AllocError>
    ensures { IfOk result (λ v. map statement_tree v.items ≡ definitions_in (map statement_tree statements.now)) }
{
    let mut definitions = Vec::new(alloc);
    for statement in statements {
        match statement {
            Statement::Assignment { .. } => {}
            definition => definitions.push(copy_statement(alloc, definition)?)?,
        }
    }
    Ok(definitions)
}

// Puts a transformation after other statements, written with `<-`. A definition is passed over.
fn push_persistent(
    alloc: Global,
    out: &mut Vec<Statement>,
    statement: &Statement,
) -> Result<(), AllocError>
    ensures { OnOk result (map statement_tree out.new.items ≡ map statement_tree out.old.items ++ persistent (Some (statement_tree statement.now))) }
{
    let Statement::Assignment { name, value, .. } = statement else {
        return Ok(());
    };
    let assignment = Statement::Assignment {
        name: name.share()?,
        kind: AssignKind::Persistent,
        value: copy_expression(alloc, value)?,
    };
    Ok(out.push(assignment)?)
}

/// A transformation of a typed script with the definitions of rulesets before it, written with `<-`.
pub fn script_at(alloc: Global, script: &Checked, number: usize) -> Result<Script, AllocError>
    requires { is_transformation number (tree_of script.now) ≡ true }
    ensures tree { IfOk result (λ part. script_tree part ≡ part_tree number (tree_of script.now)) }
    ensures written { IfOk result (λ part. AreWritten (script_tree part)) }
{
    let statements = script.statements();
    let _nodes = script.nodes();
    let mut part = definitions(alloc, &statements[..number - 1])?;
    push_persistent(alloc, &mut part, &statements[number - 1])?;
    Ok(Script {
        statements: Shared::of(part)?,
    })
}
