// Several operands: joins and set operators.
ghost use Rattle.std.specs.List.{flat_map};
ghost use Rattle.std.specs.Prelude.{◌≡◌, ◌++◌, [], IfOk, OnOk};
ghost use Rattle.vtl_sources.specs.Sources.{attribute_sources, measure_sources};
ghost use Rattle.vtl_sources.specs.Table.{of_join, of_set};
ghost use Rattle.vtl_lineage.specs.Numbers.{merged};

use crate::columns::{measures, others};
use crate::operand::{Found, Operand};
use crate::parts::{namesakes, points_of_all, push_named};
use std::alloc::{AllocError, Global};
use vtl_text::Shared;
use vtl_tree::{Role, Structure};

fn push_measures(
    alloc: Global,
    out: &mut Vec<Shared<usize>>,
    given: &[Operand],
) -> Result<(), AllocError>
    ensures { OnOk result (out.new.items ≡ out.old.items ++ flat_map (measure_sources merged []) given.now) }
{
    for a in given {
        push_named(out, a, &measures(alloc, a.structure())?)?;
    }
    Ok(())
}

fn push_attributes(
    alloc: Global,
    out: &mut Vec<Shared<usize>>,
    given: &[Operand],
) -> Result<(), AllocError>
    ensures { OnOk result (out.new.items ≡ out.old.items ++ flat_map (attribute_sources merged []) given.now) }
{
    for a in given {
        push_named(out, a, &a.structure().of_role(alloc, Role::Attribute)?)?;
    }
    Ok(())
}

/// A join: measures operand by operand, then attributes.
pub fn join(alloc: Global, given: &[Operand]) -> Result<Found, AllocError>
    ensures { IfOk result (λ f. f ≡ of_join merged [] given.now) }
{
    let points = points_of_all(alloc, given)?;
    let mut sets = Vec::new(alloc);
    push_measures(alloc, &mut sets, given)?;
    push_attributes(alloc, &mut sets, given)?;
    Ok(Found::of(points, sets))
}

/// A set operator.
pub fn set(alloc: Global, given: &[Operand], made: &Structure) -> Result<Found, AllocError>
    ensures { IfOk result (λ f. f ≡ of_set merged [] given.now made.now) }
{
    let points = points_of_all(alloc, given)?;
    let columns = others(alloc, made)?;
    let mut sets = Vec::new(alloc);
    for column in &columns {
        sets.push(namesakes(alloc, given, column)?)?;
    }
    Ok(Found::of(points, sets))
}
