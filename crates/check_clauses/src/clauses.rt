// The clauses `filter`, `keep` and `drop`.
ghost use Rattle.std.specs.Prelude.{◌≡◌, []};
ghost use Rattle.vtl_tree.specs.NodeView.{form_tree};
ghost use Rattle.vtl_tree.specs.View.{comp_exp_of};
ghost use Rattle.check_faults.specs.Answers.{Answers};
ghost use Rattle.vtl_tree.specs.declared.names.Wanted.TheVariants as wanted_role;
ghost use Rattle.check_operators.specs.Typed.{boxed_tree, typed_tree};
ghost use Rattle.check_clauses.specs.Clauses.{filter_form, keeping_choice, keeping_form, keeping_tree, name_known, names_typed, references_in};

use check_faults::TypeErr;
use check_operators::{Joined, Typed, made_node, name_written, written_by};
use check_shapes::{choose, known};
use std::alloc::Global;
use vtl_syntax::{Keeping, Reference};
use vtl_text::{List, Txt};
use vtl_tree::{Choice, Component, Node, NodeForm, Wanted, share_structure};

/// `filter`. The condition breaks `WrongKind` and `DatasetOrValue`.
#[tactic(auto, unfolding(crate::specs::Clauses::filter_form))]
pub fn filter(alloc: Global, operand: Box<Node>, condition: Typed) -> Result<Box<Node>, TypeErr>
    ensures { Answers boxed_tree result (filter_form (boxed_tree operand) (typed_tree condition)) }
{
    let c = check_operators::condition(condition)?;
    let structure = share_structure(alloc, &operand.structure)?;
    made_node(alloc, structure, NodeForm::Filter { a: operand, c })
}

// The name that a reference is, where it stands for a component of the wanted role after other names.
#[tactic(auto, unfolding(crate::specs::Clauses::name_known))]
pub(crate) fn name_known(
    alloc: Global,
    joined: &Option<Joined>,
    wanted: Wanted,
    components: &[Component],
    before: &[Txt],
    reference: &Reference,
) -> Result<Txt, TypeErr>
    ensures { Answers (λ name. name) result (name_known joined.now wanted components.now before.now reference.now) }
{
    let name = name_written(alloc, joined, written_by(reference))?;
    known(wanted, components, before, &name)?;
    Ok(name)
}

fn names_typed(
    alloc: Global,
    joined: &Option<Joined>,
    components: &[Component],
    references: &[Reference],
) -> Result<Vec<Txt>, TypeErr>
    ensures { Answers (λ names. names.items) result (names_typed joined.now wanted_role.Value components.now references.now) }
{
    let mut names = Vec::new(alloc);
    for reference in references {
        names.push(name_known(alloc, joined, Wanted::Value, components, &names, reference)?)?;
    }
    Ok(names)
}

fn choice(keeping: &Keeping) -> Choice
    ensures { result ≡ keeping_choice keeping.now }
{
    match keeping {
        Keeping::Keep(_) => Choice::Keep,
        Keeping::Drop(_) => Choice::Drop,
    }
}

fn references(keeping: &Keeping) -> &[Reference]
    ensures { result.now ≡ references_in keeping.now }
{
    match keeping {
        Keeping::Keep(references) => references.as_slice(),
        Keeping::Drop(references) => references.as_slice(),
    }
}

fn form(keeping: &Keeping, operand: Box<Node>, names: Vec<Txt>) -> NodeForm
    ensures { form_tree result ≡ keeping_tree keeping.now (boxed_tree operand) names.items }
{
    let names = List::of(names);
    match keeping {
        Keeping::Keep(_) => NodeForm::Keep { a: operand, names },
        Keeping::Drop(_) => NodeForm::DropNamed { a: operand, names },
    }
}

/// `keep` or `drop`. A name breaks `UnknownComponent`, `RepeatedName` and `WrongRole`, and the clause `ComponentCount`
/// where nothing is left.
#[tactic(auto, unfolding(crate::specs::Clauses::keeping_form))]
pub fn keeping(
    alloc: Global,
    joined: &Option<Joined>,
    operand: Box<Node>,
    keeping: &Keeping,
) -> Result<Box<Node>, TypeErr>
    ensures { Answers boxed_tree result (keeping_form joined.now (boxed_tree operand) keeping.now) }
{
    let components = operand.structure.components.as_slice();
    let names = names_typed(alloc, joined, components, references(keeping))?;
    let structure = choose(alloc, choice(keeping), &operand.structure, &names)?;
    made_node(alloc, structure, form(keeping, operand, names))
}
