// The names of components, and the components that they stand for.
ghost use Rattle.std.specs.Prelude.{◌≡◌, IfOk};
ghost use Rattle.vtl_tree.specs.CompExp.{column};
ghost use Rattle.vtl_tree.specs.Structure.{same_name};
ghost use Rattle.vtl_tree.specs.View.{comp_exp_of};
ghost use Rattle.check_faults.specs.Answers.{Answers};
ghost use Rattle.check_values.specs.Columns.{column_typed};
ghost use Rattle.vtl_tree.specs.Names.{name_of};

use check_faults::{Rule, TypeErr};
use std::alloc::AllocError;
use vtl_syntax::Comp;
use vtl_text::Txt;
use vtl_tree::{CompExpr, Component};

/// The name of a component.
pub fn name(component: &Comp) -> &Txt
    ensures { result.now ≡ name_of component.now }
{
    match component {
        Comp::Name(name) => name,
        Comp::Quoted(name) => name,
    }
}

/// A text that may be missing, shared.
pub fn share_text(text: &Option<Txt>) -> Result<Option<Txt>, AllocError>
    ensures { IfOk result (λ copy. copy ≡ text.now) }
{
    match text {
        Some(text) => Ok(Some(text.share()?)),
        None => Ok(None),
    }
}

fn is_same_name(left: &Txt, right: &Txt) -> bool
    ensures { result ≡ same_name left.now right.now }
{
    left == right
}

fn column_at(place: usize, component: &Component) -> Result<CompExpr, AllocError>
    ensures { IfOk result (λ e. comp_exp_of e ≡ column place component.now.name component.now.kind) }
{
    Ok(CompExpr::Column {
        place,
        name: component.name.share()?,
        kind: component.kind,
    })
}

/// A component by its name, among the columns of the points.
pub fn column(name: &Txt, columns: &[Component]) -> Result<CompExpr, TypeErr>
    ensures { Answers comp_exp_of result (column_typed name.now columns.now) }
{
    for (place, component) in columns.iter().enumerate() {
        if is_same_name(&component.name, name) {
            return Ok(column_at(place, component)?);
        }
    }
    Err(TypeErr::Broken(Rule::UnknownComponent))
}
