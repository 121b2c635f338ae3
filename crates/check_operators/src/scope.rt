// What the names of a script are known to stand for.
ghost use Rattle.std.specs.Option.{option_copied};
ghost use Rattle.std.specs.Prelude.{◌≡◌};
ghost use Rattle.check_faults.specs.Answers.{Answers};
ghost use Rattle.vtl_tree.specs.View.{comp_exp_of};
ghost use Rattle.check_operators.specs.Places.{alone, component_typed, dataset_named, env_of, known_by, name_typed};
ghost use Rattle.check_operators.specs.Typed.{typed_tree};

use crate::typed::made_of;
use crate::{Inside, Place, Typed};
use check_faults::{Rule, TypeErr};
use check_values::{column, name as name_of};
use std::alloc::Global;
use vtl_decimal::Profile;
use vtl_syntax::Comp;
use vtl_text::{ByName, List, Txt};
use vtl_tree::{CompExpr, NodeForm, Structure, is_among, share_structure};

/// How numbers are read, and the data sets that are known: the declared ones, and then the results so far.
#[derive(Drop)]
pub struct Scope {
    /// The scale and the rounding of numbers.
    pub profile: Profile,
    /// The structures of the data sets, by name.
    pub known: ByName<Structure>,
}

fn known_by(alloc: Global, name: &Txt, structure: Option<&Structure>) -> Result<Typed, TypeErr>
    ensures { Answers typed_tree result (known_by name.now (option_copied structure.entry)) }
{
    let Some(structure) = structure else {
        return Err(TypeErr::Broken(Rule::UnknownDataset));
    };
    let structure = share_structure(alloc, structure)?;
    let name = name.share()?;
    made_of(alloc, structure, NodeForm::Named(name))
}

fn dataset_named(
    alloc: Global,
    known: &ByName<Structure>,
    component: &Comp,
) -> Result<Typed, TypeErr>
    ensures { Answers typed_tree result (dataset_named known.now component.now) }
{
    match component {
        Comp::Name(name) => known_by(alloc, name, known.get(name)),
        Comp::Quoted(_) => Err(TypeErr::Broken(Rule::DatasetOrValue)),
    }
}

// A component that stands alone, as an expression.
fn alone(grouping: &Option<List<Txt>>, name: &Txt, e: CompExpr) -> Result<Typed, TypeErr>
    ensures { Answers typed_tree result (alone grouping.now name.now (comp_exp_of e)) }
{
    match grouping {
        Some(names) if !is_among(name, names.as_slice()) => Err(TypeErr::Broken(
            Rule::AggregateMisuse,
        )),
        _ => Ok(Typed::Value(e)),
    }
}

/// The component of this name inside, as an expression.
pub(crate) fn component_typed(inside: &Inside, name: &Txt) -> Result<Typed, TypeErr>
    ensures { Answers typed_tree result (component_typed inside.now name.now) }
{
    let e = column(name, inside.components.as_slice())?;
    alone(&inside.grouping, name, e)
}

/// What a name stands for at a place: a data set, or a component. An unknown data set breaks `UnknownDataset`, an
/// unknown component `UnknownComponent`, a quoted name where a data set is needed `DatasetOrValue`, and a component
/// that is no grouping identifier, over groups, `AggregateMisuse`.
pub fn name(alloc: Global, scope: &Scope, place: &Place, component: &Comp) -> Result<Typed, TypeErr>
    ensures { Answers typed_tree result (name_typed (env_of scope.now) place.now component.now) }
{
    match place {
        Place::Outside => dataset_named(alloc, &scope.known, component),
        Place::Inside(inside) => component_typed(inside, name_of(component)),
    }
}
