// Parts of a script: what is known of each transformation, and where its data sets come from.
ghost use Rattle.std.specs.Map.{lookup};
ghost use Rattle.std.specs.Prelude.{◌≡◌, ◌<◌, length, map, slice_get, IfOk};
ghost use Rattle.vtl_tree.specs.NodeView.{node_tree};
ghost use Rattle.vtl_tree.specs.Structure.{same_name};
ghost use Rattle.vtl_backend.specs.Statements.{is_written};
ghost use Rattle.vtl_check.specs.Names.{names_of};
ghost use Rattle.vtl_rerun.specs.Operands.{operand_of, source_of};
ghost use Rattle.vtl_rerun.specs.Sessions.{AreParts};

use std::alloc::{AllocError, Global};
use vtl_check::{Checked, read_names};
use vtl_syntax::{AssignKind, Statement};
use vtl_text::{ByName, Txt};
use vtl_tree::Node;

/// Where a data set comes from.
#[derive(Clone, Copy)]
pub(crate) enum Source {
    /// It is an input of the script.
    Input,
    /// It is the result of the part at this place, which stands before.
    Part(usize),
}

/// A data set that a part reads.
pub(crate) struct Operand {
    pub(crate) name: Txt,
    pub(crate) source: Source,
}

// Written out, so that a proof sees one call and not the drop of each part.
impl Drop for Operand {
    fn drop(self) {
        let Operand {
            name: _name,
            source: _,
        } = self;
    }
}

/// A transformation of a script, which is run as a script of its own.
pub(crate) struct Part {
    /// Its number among all statements of the script, from 1.
    pub(crate) number: usize,
    /// The name of its result.
    pub(crate) name: Txt,
    /// Whether the script writes its result.
    pub(crate) is_written: bool,
    /// The data sets that it reads, as often as it names them.
    pub(crate) operands: Vec<Operand>,
}

// Written out, so that a proof sees one call and not the drop of each part.
impl Drop for Part {
    fn drop(self) {
        let Part {
            number: _,
            name: _name,
            is_written: _,
            operands: _operands,
        } = self;
    }
}

// Where the data set of a name comes from, over the places of the results before.
fn origin(places: &ByName<usize>, name: &Txt) -> Source
    ensures { result ≡ source_of (lookup (same_name name.now) places.now) }
{
    match places.get(name) {
        Some(place) => Source::Part(*place),
        None => Source::Input,
    }
}

// The data sets that nodes read, over the places of the results before.
fn operands(
    alloc: Global,
    nodes: &[Node],
    places: &ByName<usize>,
) -> Result<Vec<Operand>, AllocError>
    ensures { IfOk result (λ v. v.items ≡ map (operand_of places.now) (names_of (map node_tree nodes.now))) }
{
    let names = read_names(alloc, nodes)?;
    let mut operands = Vec::with_capacity(alloc, names.len())?;
    for name in &names {
        let source = origin(places, name);
        operands.push(Operand {
            name: name.share()?,
            source,
        })?;
    }
    Ok(operands)
}

fn writes(kind: AssignKind) -> bool
    ensures { result ≡ is_written kind }
{
    match kind {
        AssignKind::Persistent => true,
        AssignKind::Temporary => false,
    }
}

/// The parts of a script, one for each transformation, in order. It fails only if memory runs out.
pub(crate) fn parts_of(alloc: Global, script: &Checked) -> Result<Vec<Part>, AllocError>
    ensures { IfOk result (λ v. AreParts script.now v.items) }
{
    let statements = script.statements();
    let nodes = script.nodes();
    let mut parts = Vec::with_capacity(alloc, nodes.len())?;
    let mut places = ByName::new(alloc);
    for i in 0..statements.len() {
        let Statement::Assignment { name, kind, .. } = &statements[i] else {
            continue;
        };
        let place = parts.len();
        let operands = operands(alloc, &nodes[place..place + 1], &places)?;
        places.put(name.share()?, place)?;
        parts.push(Part {
            number: i + 1,
            name: name.share()?,
            is_written: writes(*kind),
            operands,
        })?;
    }
    Ok(parts)
}
