// The clause `rename`.
ghost use Rattle.std.specs.Prelude.{[]};
ghost use Rattle.check_faults.specs.Answers.{Answers};
ghost use Rattle.check_operators.specs.Typed.{boxed_tree};
ghost use Rattle.check_clauses.specs.Clauses.{old_names, renamed_of, renaming_form, renaming_known, renamings_typed};

use crate::clauses::name_known;
use check_faults::TypeErr;
use check_operators::{Joined, made_node};
use check_shapes::rename;
use check_values::name;
use std::alloc::Global;
use vtl_syntax::RenamePart;
use vtl_text::{List, Txt};
use vtl_tree::{Component, Node, NodeForm, Renaming, Wanted};

// The renamed data set. It breaks `RepeatedComponent` where a name would stand twice.
pub(crate) fn renamed(
    alloc: Global,
    operand: Box<Node>,
    renamings: Vec<Renaming>,
) -> Result<Box<Node>, TypeErr>
    ensures { Answers boxed_tree result (renamed_of (boxed_tree operand) renamings.items) }
{
    let structure = rename(alloc, &operand.structure, &renamings)?;
    let pairs = List::of(renamings);
    made_node(alloc, structure, NodeForm::Rename { a: operand, pairs })
}

// A renaming after others with these old names.
#[tactic(auto, unfolding(crate::specs::Clauses::renaming_known))]
fn renaming_known(
    alloc: Global,
    joined: &Option<Joined>,
    components: &[Component],
    before: &[Txt],
    part: &RenamePart,
) -> Result<Renaming, TypeErr>
    ensures { Answers (λ r. r) result (renaming_known joined.now components.now before.now part.now) }
{
    let from = name_known(alloc, joined, Wanted::Any, components, before, &part.from)?;
    let to = name(&part.to).share()?;
    Ok(Renaming { from, to })
}

fn renamings_typed(
    alloc: Global,
    joined: &Option<Joined>,
    components: &[Component],
    parts: &[RenamePart],
) -> Result<Vec<Renaming>, TypeErr>
    ensures { Answers (λ rs. rs.items) result (renamings_typed joined.now components.now parts.now) }
{
    let mut old_names = Vec::new(alloc);
    let mut renamings = Vec::new(alloc);
    for part in parts {
        let renaming = renaming_known(alloc, joined, components, &old_names, part)?;
        old_names.push(renaming.from.share()?)?;
        renamings.push(renaming)?;
    }
    Ok(renamings)
}

/// `rename`. An old name breaks `UnknownComponent` and `RepeatedName`, and the clause `RepeatedComponent` where a name
/// would stand twice.
#[tactic(auto, unfolding(crate::specs::Clauses::renaming_form))]
pub fn renaming(
    alloc: Global,
    joined: &Option<Joined>,
    operand: Box<Node>,
    renames: &[RenamePart],
) -> Result<Box<Node>, TypeErr>
    ensures { Answers boxed_tree result (renaming_form joined.now (boxed_tree operand) renames.now) }
{
    let components = operand.structure.components.as_slice();
    let renamings = renamings_typed(alloc, joined, components, renames)?;
    renamed(alloc, operand, renamings)
}
