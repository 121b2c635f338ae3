// Components as they are written, with an alias or without, and constants.
ghost use Rattle.std.specs.Prelude.{◌≡◌, option_map};
ghost use Rattle.check_faults.specs.Answers.{Answers};
ghost use Rattle.vtl_syntax.specs.View.{expr_tree};
ghost use Rattle.check_operators.specs.Places.{constant_form, inside_view, member_inside, member_name, member_written, name_written, plainly, with_alias, written_by, written_in, written_typed, written_view};
ghost use Rattle.check_operators.specs.Typed.{typed_tree};

use crate::scope::component_typed;
use crate::{Inside, Joined, Place, Typed};
use check_faults::{Rule, TypeErr};
use check_joins::member;
use check_values::{constant as constant_value, name};
use std::alloc::Global;
use vtl_decimal::Profile;
use vtl_syntax::{Comp, Constant, Expr, Reference};
use vtl_text::Txt;

/// A component as it is written.
#[derive(Clone, Copy)]
pub struct WrittenName<'a> {
    /// The alias of its operand, where one is written.
    pub alias: Option<&'a Txt>,
    /// Its name.
    pub name: &'a Txt,
}

fn plainly(component: &Comp) -> WrittenName<'_>
    ensures { written_view result ≡ plainly component.now }
{
    WrittenName {
        alias: None,
        name: name(component),
    }
}

fn with_alias<'a>(alias: &'a Txt, component: &'a Comp) -> WrittenName<'a>
    ensures { written_view result ≡ with_alias alias.now component.now }
{
    WrittenName {
        alias: Some(alias),
        name: name(component),
    }
}

// A name after an alias, where the operand is one.
fn member_written<'a>(operand: &'a Expr, component: &'a Comp) -> Option<WrittenName<'a>>
    ensures { option_map written_view result ≡ member_written (expr_tree operand.now) component.now }
{
    match operand {
        Expr::Component(Comp::Name(alias)) => Some(with_alias(alias, component)),
        _ => None,
    }
}

/// The component that an expression is: a name, or a name after an alias.
pub fn written_in(e: &Expr) -> Option<WrittenName<'_>>
    ensures { option_map written_view result ≡ written_in (expr_tree e.now) }
{
    match e {
        Expr::Component(component) => Some(plainly(component)),
        Expr::Member { operand, component } => member_written(operand, component),
        _ => None,
    }
}

/// The component that a reference is.
pub fn written_by(reference: &Reference) -> WrittenName<'_>
    ensures { written_view result ≡ written_by reference.now }
{
    match reference {
        Reference::Component(component) => plainly(component),
        Reference::Member { operand, component } => with_alias(operand, component),
    }
}

fn member_name(
    alloc: Global,
    joined: &Option<Joined>,
    alias: &Txt,
    name: &Txt,
) -> Result<Txt, TypeErr>
    ensures { Answers (λ name. name) result (member_name joined.now alias.now name.now) }
{
    match joined {
        Some(joined) => member(
            alloc,
            joined.kind,
            joined.operands.as_slice(),
            joined.held.as_slice(),
            alias,
            name,
        ),
        None => Err(TypeErr::Broken(Rule::UnknownComponent)),
    }
}

/// The name of a component. `alias#name` stands for a name of the joined set; outside of a join's body it breaks
/// `UnknownComponent`.
pub fn name_written(
    alloc: Global,
    joined: &Option<Joined>,
    written: WrittenName<'_>,
) -> Result<Txt, TypeErr>
    ensures { Answers (λ name. name) result (name_written joined.now (written_view written.entry)) }
{
    match written.alias {
        Some(alias) => member_name(alloc, joined, alias, written.name),
        None => Ok(written.name.share()?),
    }
}

/// A component as an expression.
#[tactic(auto, unfolding(crate::specs::Places::written_typed))]
pub fn written(alloc: Global, inside: &Inside, written: WrittenName<'_>) -> Result<Typed, TypeErr>
    ensures { Answers typed_tree result (written_typed inside.now (written_view written.entry)) }
{
    let name = name_written(alloc, &inside.joined, written)?;
    component_typed(inside, &name)
}

/// The component that `operand#component` is inside, where it is one.
pub fn member_inside<'a>(
    place: &'a Place,
    operand: &'a Expr,
    component: &'a Comp,
) -> Option<(&'a Inside, WrittenName<'a>)>
    ensures { option_map inside_view result ≡ member_inside place.now (expr_tree operand.now) component.now }
{
    match place {
        Place::Outside => None,
        Place::Inside(inside) => Some((inside, member_written(operand, component)?)),
    }
}

/// A constant as an expression.
pub fn constant(alloc: Global, profile: &Profile, constant: &Constant) -> Result<Typed, TypeErr>
    ensures { Answers typed_tree result (constant_form profile.now constant.now) }
{
    Ok(Typed::Value(constant_value(alloc, profile, constant)?))
}
