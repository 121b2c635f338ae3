// The structure that an INPUT declares.
//
// What an INPUT asks of its table is its columns and that its rows fit, not that it is a data set: an engine needs no
// more, and a table of the structure that the INPUT declares is one (`inputs_are_data_sets`).
ghost use Rattle.std.specs.Prelude.{◌≡◌, IfOk, map};
ghost use Rattle.sql_check_parts.specs.Scopes.{is_among};
ghost use Rattle.sql_engine.specs.Structures.{component_of, listed_codes, not_null_of, role_in, structure_of};

use sql_tree::{InputColumn, SqlInput};
use std::alloc::{AllocError, Global};
use vtl_text::{List, Shared, Txt};
use vtl_tree::{Component, Role, Structure};

// Whether a name is one of these. An INPUT that is typed has few columns, and so its KEY as many names.
fn is_among(name: &Txt, names: &[Txt]) -> bool
    ensures { result ≡ is_among name.now names.now }
{
    for other in names {
        if name == other {
            return true;
        }
    }
    false
}

fn role_in(key: &[Txt], column: &InputColumn) -> Role
    ensures { result ≡ role_in key.now column.now }
{
    if is_among(&column.name, key) {
        Role::Identifier
    } else {
        Role::Measure
    }
}

fn listed_codes(alloc: Global, codes: &[Txt]) -> Result<Option<Shared<Txt>>, AllocError>
    ensures { IfOk result (λ listed. listed ≡ listed_codes codes.now) }
{
    if codes.is_empty() {
        return Ok(None);
    }
    let mut listed = Vec::with_capacity(alloc, codes.len())?;
    for code in codes {
        listed.push(code.share()?)?;
    }
    Ok(Some(Shared::of(listed)?))
}

fn component_of(alloc: Global, key: &[Txt], column: &InputColumn) -> Result<Component, AllocError>
    ensures { IfOk result (λ component. component ≡ component_of key.now column.now) }
{
    Ok(Component {
        name: column.name.share()?,
        role: role_in(key, column),
        kind: column.kind,
        codes: listed_codes(alloc, column.codes.as_slice())?,
    })
}

/// The structure that an INPUT declares: a component for each column, in order; those of the KEY are identifiers, the
/// others measures. It fails only if memory runs out.
pub fn structure_of(alloc: Global, input: &SqlInput) -> Result<Structure, AllocError>
    ensures { IfOk result (λ structure. structure ≡ structure_of input.now) }
{
    let mut components = Vec::new(alloc);
    for column in input.columns.as_slice() {
        components.push(component_of(alloc, input.key.as_slice(), column)?)?;
    }
    Ok(Structure {
        components: List::of(components),
    })
}

/// The names of the columns of an INPUT that are NOT NULL, in order. It fails only if memory runs out.
pub fn not_null_of(alloc: Global, input: &SqlInput) -> Result<Vec<Txt>, AllocError>
    ensures { IfOk result (λ names. names.items ≡ not_null_of input.now) }
{
    let mut names = Vec::new(alloc);
    for column in input.columns.as_slice() {
        if column.not_null {
            names.push(column.name.share()?)?;
        }
    }
    Ok(names)
}
