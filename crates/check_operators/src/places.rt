// Where an expression stands, and what its names stand for there.
ghost use Rattle.std.specs.Prelude.{◌≡◌, ◌++◌, IfOk, OnOk};
ghost use Rattle.vtl_tree.specs.NodeView.{node_tree};
ghost use Rattle.vtl_tree.specs.Shown.{shown};
ghost use Rattle.std.specs.Option.{option_map};
ghost use Rattle.vtl_tree.specs.Structure.{columns_of, names_of};
ghost use Rattle.check_operators.specs.Places.{at_groups, at_points, columns_at, in_aggregate, regrouped};

use std::alloc::{AllocError, Global};
use vtl_syntax::JoinKind;
use vtl_text::{List, Shared, Txt};
use vtl_tree::{Component, Node, Operand, Structure, share_component};

/// Where an expression stands.
#[derive(Drop)]
pub enum Place {
    /// Where names stand for data sets.
    Outside,
    /// Where names stand for components.
    Inside(Inside),
}

/// What names stand for inside the brackets of a data set.
#[derive(Drop)]
pub struct Inside {
    /// The components, in column order.
    pub components: List<Component>,
    /// Over groups of points: the names that may stand alone, which are those by which the groups are formed, and in
    /// the operand of an aggregate all of them.
    pub grouping: Option<List<Txt>>,
    /// In the body of a join: its operands.
    pub joined: Option<Joined>,
}

/// The operands of a join, as its body sees them.
#[derive(Drop)]
pub struct Joined {
    /// The kind of the join.
    pub kind: JoinKind,
    /// Its operands.
    pub operands: Shared<Operand>,
    /// The names that operands hold, operand by operand.
    pub held: Shared<Txt>,
}

/// The components that names stand for at a place, in column order; outside there are none.
pub fn columns_at(place: &Place) -> &[Component]
    ensures { result.now ≡ columns_at place.now }
{
    match place {
        Place::Outside => &[],
        Place::Inside(inside) => inside.components.as_slice(),
    }
}

fn push_columns(out: &mut Vec<Component>, columns: &[&Component]) -> Result<(), AllocError>
    ensures { OnOk result (out.new.items ≡ out.old.items ++ shown columns.now) }
{
    for column in columns {
        out.push(share_component(column)?)?;
    }
    Ok(())
}

fn columns_of(alloc: Global, structure: &Structure) -> Result<List<Component>, AllocError>
    ensures { IfOk result (λ columns. columns ≡ columns_of structure.now) }
{
    let columns = structure.columns(alloc)?;
    let mut out = Vec::new(alloc);
    push_columns(&mut out, &columns)?;
    Ok(List::of(out))
}

fn share_joined(joined: &Joined) -> Result<Joined, AllocError>
    ensures { IfOk result (λ copy. copy ≡ joined.now) }
{
    let operands = joined.operands.share()?;
    let held = joined.held.share()?;
    Ok(Joined {
        kind: joined.kind,
        operands,
        held,
    })
}

fn share_any_joined(joined: &Option<Joined>) -> Result<Option<Joined>, AllocError>
    ensures { IfOk result (λ copy. copy ≡ joined.now) }
{
    match joined {
        Some(joined) => Ok(Some(share_joined(joined)?)),
        None => Ok(None),
    }
}

/// The place at each point of a data set, in the body of a join or elsewhere.
pub fn points(alloc: Global, joined: &Option<Joined>, node: &Node) -> Result<Place, AllocError>
    ensures { IfOk result (λ at. at ≡ Place.Inside (at_points joined.now (node_tree node.now))) }
{
    let components = columns_of(alloc, &node.structure)?;
    let joined = share_any_joined(joined)?;
    Ok(Place::Inside(Inside {
        components,
        grouping: None,
        joined,
    }))
}

/// The place at each group of points of a data set, with the names by which the groups are formed.
pub fn groups(
    alloc: Global,
    joined: &Option<Joined>,
    node: &Node,
    names: List<Txt>,
) -> Result<Place, AllocError>
    ensures { IfOk result (λ at. at ≡ Place.Inside (at_groups joined.now (node_tree node.now) names)) }
{
    let components = columns_of(alloc, &node.structure)?;
    let joined = share_any_joined(joined)?;
    Ok(Place::Inside(Inside {
        components,
        grouping: Some(names),
        joined,
    }))
}

fn share_components(alloc: Global, components: &[Component]) -> Result<List<Component>, AllocError>
    ensures { IfOk result (λ copy. copy ≡ components.now) }
{
    let mut out = Vec::new(alloc);
    for component in components {
        out.push(share_component(component)?)?;
    }
    Ok(List::of(out))
}

fn names_of(alloc: Global, components: &[Component]) -> Result<List<Txt>, AllocError>
    ensures { IfOk result (λ names. names ≡ names_of components.now) }
{
    let mut out = Vec::new(alloc);
    for component in components {
        out.push(component.name.share()?)?;
    }
    Ok(List::of(out))
}

fn all_names(
    alloc: Global,
    grouping: &Option<List<Txt>>,
    components: &[Component],
) -> Result<Option<List<Txt>>, AllocError>
    ensures { IfOk result (λ all. all ≡ option_map (λ names. names_of components.now) grouping.now) }
{
    match grouping {
        Some(_) => Ok(Some(names_of(alloc, components)?)),
        None => Ok(None),
    }
}

/// The place at each group of the points of a place, with the names by which the groups are formed.
pub fn regrouped(alloc: Global, inside: &Inside, names: List<Txt>) -> Result<Place, AllocError>
    ensures { IfOk result (λ at. at ≡ Place.Inside (regrouped inside.now names)) }
{
    let components = share_components(alloc, inside.components.as_slice())?;
    let joined = share_any_joined(&inside.joined)?;
    Ok(Place::Inside(Inside {
        components,
        grouping: Some(names),
        joined,
    }))
}

fn all_inside(alloc: Global, inside: &Inside) -> Result<Place, AllocError>
    ensures { IfOk result (λ at. at ≡ in_aggregate (Place.Inside inside.now)) }
{
    let components = share_components(alloc, inside.components.as_slice())?;
    let grouping = all_names(alloc, &inside.grouping, components.as_slice())?;
    let joined = share_any_joined(&inside.joined)?;
    Ok(Place::Inside(Inside {
        components,
        grouping,
        joined,
    }))
}

/// The place of the operand of an aggregate: over groups each component may stand there.
pub fn in_aggregate(alloc: Global, place: &Place) -> Result<Place, AllocError>
    ensures { IfOk result (λ at. at ≡ in_aggregate place.now) }
{
    match place {
        Place::Outside => Ok(Place::Outside),
        Place::Inside(inside) => all_inside(alloc, inside),
    }
}
