// The statements, one after the other.
//
// The table of a written result is put as soon as its statement is evaluated, shared with later statements; a data
// set is let go after the last statement that reads it, which is found in one pass beforehand.
ghost use Rattle.std.specs.Prelude.{◌≡◌, ◌∷◌, [], None, length, map, OnOk};
ghost use Rattle.vtl_syntax.specs.View.{statement_tree};
ghost use Rattle.vtl_tree.specs.NodeView.{node_tree};
ghost use Rattle.vtl_scripts.specs.Made.{IsMade};
ghost use Rattle.vtl_scripts.specs.Meaning.{meaning};
ghost use Rattle.vtl_tree.specs.Environment.{known_in};
ghost use Rattle.vtl_check.specs.Transformations.{transformations};
ghost use Rattle.vtl_rows.specs.Named.{table_of};
ghost use Rattle.vtl_backend.specs.Statements.{is_written, with_nodes};
ghost use Rattle.vtl_interp.specs.Evaluated.{Evaluates};
ghost use Rattle.vtl_interp.specs.Held.{HoldSame};
ghost use Rattle.vtl_interp.specs.Reads.{AreRead};
ghost use Rattle.vtl_interp.specs.Results.{Adds, AreReady, Faults, ShownBy, result_named};
ghost use Rattle.vtl_interp.specs.Written.{IsWritten};

use crate::evaluation::evaluate;
use crate::held::{Held, Known};
use crate::last_reads::{LastReads, last_reads, let_go};
use std::alloc::{AllocError, Global};
use vtl_decimal::Profile;
use vtl_rows::Outputs;
use vtl_scalar::{RunErr, ScalarErr};
use vtl_sets::DataSet;
use vtl_syntax::{AssignKind, Statement};
use vtl_text::Txt;
use vtl_tree::Node;

// The data set of an expression, owned.
fn result_of(alloc: Global, known: &Known, node: &Node, p: &Profile) -> Result<DataSet, ScalarErr>
    requires made { IsMade p.now (known_in known.now.entries) (node_tree node.now) }
    ensures { Evaluates (λ d. d) p.now known.now.entries (node_tree node.now) result }
{
    let value = evaluate(alloc, known, node, p)?;
    Ok(value.into_data(alloc)?)
}

// Puts the table of a result after the others, where it is written.
fn write(
    outputs: &mut Outputs,
    name: &Txt,
    kind: AssignKind,
    made: &DataSet,
) -> Result<(), AllocError>
    requires { table_of name.now outputs.old ≡ None }
    ensures { OnOk result (IsWritten (is_written kind) name.now made.now outputs.old outputs.new) }
{
    match kind {
        AssignKind::Persistent => outputs.put_shared(name.share()?, made.share_table()?),
        AssignKind::Temporary => Ok(()),
    }
}

// Holds a data set under a name.
fn hold(known: &mut Known, name: &Txt, made: DataSet) -> Result<(), AllocError>
    ensures { OnOk result (HoldSame known.new.entries ((name.now, made) ∷ known.old.entries)) }
{
    known.insert(name.share()?, made)?;
    Ok(())
}

// The fault of a statement, with the name of its result.
fn fault(name: &Txt, error: ScalarErr) -> RunErr
    ensures { Faults name.now error result }
{
    match (name.share(), error) {
        (Ok(name), ScalarErr::DivZero) => RunErr::DivZero(name),
        (Ok(name), ScalarErr::Range) => RunErr::Range(name),
        _ => RunErr::OutOfMemory,
    }
}

// Holds the data set of a statement with the others, and puts its table after the others where it is written.
fn add_result(
    alloc: Global,
    held: &mut Held,
    name: &Txt,
    kind: AssignKind,
    node: &Node,
    p: &Profile,
) -> Result<(), RunErr>
    requires made { IsMade p.now (known_in held.old.known.entries) (node_tree node.now) }
    requires new_name { table_of name.now held.old.outputs ≡ None }
    ensures { Adds p.now held.old held.new (result_named name.now kind (node_tree node.now)) result }
{
    match result_of(alloc, &held.known, node, p) {
        Ok(made) => {
            write(&mut held.outputs, name, kind, &made)?;
            hold(&mut held.known, name, made)?;
            Ok(())
        }
        Err(error) => Err(fault(name, error)),
    }
}

// The tables of the results that are written, or the first fault. Data sets that no later statement reads are released.
// A definition has no node, and gives nothing.
fn run_each(
    alloc: Global,
    known: Known,
    last: &LastReads,
    statements: &[Statement],
    nodes: &[Node],
    p: &Profile,
) -> Result<Outputs, RunErr>
    requires many { length nodes.now ≡ length (transformations (map statement_tree statements.now)) }
    requires reads { AreRead last.now.entries 0 (map node_tree nodes.now) }
    requires ready { AreReady p.now known.entries [] (with_nodes (transformations (map statement_tree statements.now)) (map node_tree nodes.now)) }
    ensures { ShownBy (meaning p.now (with_nodes (transformations (map statement_tree statements.now)) (map node_tree nodes.now)) known.entries) result }
{
    let mut held = Held {
        known,
        outputs: Outputs::new(alloc),
    };
    let mut place = 0;
    for statement in statements {
        let Statement::Assignment { name, kind, .. } = statement else {
            continue;
        };
        let node = &nodes[place];
        add_result(alloc, &mut held, name, *kind, node, p)?;
        let_go(alloc, &mut held.known, last, place, name, node)?;
        place += 1;
    }
    Ok(held.outputs)
}

/// The tables of the results that are written, or the first fault. Each expression is made over what is held then: the
/// data sets that are given and the results so far, as long as a later statement reads them.
pub fn run_statements(
    alloc: Global,
    known: Known,
    statements: &[Statement],
    nodes: &[Node],
    p: &Profile,
) -> Result<Outputs, RunErr>
    requires many { length nodes.now ≡ length (transformations (map statement_tree statements.now)) }
    requires ready { AreReady p.now known.entries [] (with_nodes (transformations (map statement_tree statements.now)) (map node_tree nodes.now)) }
    ensures { ShownBy (meaning p.now (with_nodes (transformations (map statement_tree statements.now)) (map node_tree nodes.now)) known.entries) result }
{
    let last = last_reads(alloc, nodes)?;
    run_each(alloc, known, &last, statements, nodes, p)
}
