// The operands of joins, under aliases, and which of them is the reference.
ghost use Rattle.std.specs.Prelude.{◌≡◌, ◌<◌, IfOk, length, map};
ghost use Rattle.vtl_tree.specs.Shown.{shown};
ghost use Rattle.vtl_meaning.specs.Joined.{contains_all, reference_place};
ghost use Rattle.joins_to_sql.specs.JoinItems.{aliased_around, aliased_of, number_around};

use selects_to_sql::Writer;
use std::alloc::{AllocError, Global};
use vtl_syntax::JoinKind;
use vtl_text::Txt;
use vtl_tree::{Structure, contains};

/// An operand of a join.
#[derive(Drop)]
pub(crate) struct Aliased<'a> {
    /// The alias of its source.
    pub(crate) alias: Txt,
    /// The table that stands for it.
    pub(crate) table: Txt,
    /// Its structure.
    pub(crate) structure: &'a Structure,
}

// The number of an operand, where the one at a place stands before all others.
fn number_around(place: usize, i: usize) -> usize
    ensures { result ≡ number_around place i }
{
    if i < place {
        i + 1
    } else if place < i {
        i
    } else {
        0
    }
}

/// Operands with the tables that stand for them, where the one at a place stands before all others. It fails only if
/// memory runs out.
pub(crate) fn with_aliases<'a>(
    alloc: Global,
    writer: &Writer,
    place: usize,
    structures: &[&'a Structure],
    tables: &[Txt],
) -> Result<Vec<Aliased<'a>>, AllocError>
    requires { length tables.now ≡ length structures.now }
    ensures { IfOk result (λ v. map aliased_of v.items ≡ aliased_around place 0 (shown structures.now) tables.now) }
{
    let mut operands = Vec::with_capacity(alloc, structures.len())?;
    for i in 0..structures.len() {
        operands.push(Aliased {
            alias: writer.alias(alloc, number_around(place, i))?,
            table: tables[i].share()?,
            structure: structures[i],
        })?;
    }
    Ok(operands)
}

fn contains_all(structures: &[&Structure], structure: &Structure) -> bool
    ensures { result ≡ contains_all (shown structures.now) structure.now }
{
    for other in structures {
        if !contains(structure, other) {
            return false;
        }
    }
    true
}

// The place of the structure that is left where each gives way to the next one that it does not contain.
fn left_over(structures: &[&Structure]) -> usize
    ensures { reference_place JoinKind.Inner (shown structures.now) < length structures.now → result ≡ reference_place JoinKind.Inner (shown structures.now) }
{
    let mut left = 0;
    for i in 1..structures.len() {
        if !contains(structures[left], structures[i]) {
            left = i;
        }
    }
    left
}

// The place of the first structure that contains all, or their number where none does.
fn containing(structures: &[&Structure]) -> usize
    ensures { result ≡ reference_place JoinKind.Inner (shown structures.now) }
{
    let left = left_over(structures);
    if left < structures.len() && contains_all(structures, structures[left]) {
        left
    } else {
        structures.len()
    }
}

/// The place of the reference, of which a join has the identifiers, or the number of operands where there is none.
pub(crate) fn reference_place(kind: JoinKind, structures: &[&Structure]) -> usize
    ensures { result ≡ reference_place kind (shown structures.now) }
{
    match kind {
        JoinKind::Inner => containing(structures),
        JoinKind::Left | JoinKind::Full | JoinKind::Cross => 0,
    }
}
