// Sets that lines are made of: of components by name, of all measures, of all operands.
ghost use Rattle.std.specs.Prelude.{◌≡◌, ◌++◌, [], IfOk, OnOk, map};
ghost use Rattle.vtl_tree.specs.Shown.{shown};
ghost use Rattle.vtl_sources.specs.Sources.{each_source, source_named, with_names};
ghost use Rattle.vtl_sources.specs.Table.{namesakes, points_of_all, with_measures};
ghost use Rattle.vtl_lineage.specs.Copies.{copies};
ghost use Rattle.vtl_lineage.specs.Numbers.{merged};

use crate::columns::measures;
use crate::numbers::{joined, nothing};
use crate::operand::Operand;
use std::alloc::{AllocError, Global};
use vtl_text::{Shared, Txt};
use vtl_tree::{Component, OrderKey};

/// Puts the same set as often as there are components behind others.
pub fn push_copies(
    out: &mut Vec<Shared<usize>>,
    set: &Shared<usize>,
    columns: &[&Component],
) -> Result<(), AllocError>
    ensures { OnOk result (out.new.items ≡ out.old.items ++ copies set.now (shown columns.now)) }
{
    for _column in columns {
        out.push(set.share()?)?;
    }
    Ok(())
}

/// Puts what components of these names depend on behind others.
pub fn push_named(
    out: &mut Vec<Shared<usize>>,
    a: &Operand,
    columns: &[&Component],
) -> Result<(), AllocError>
    ensures { OnOk result (out.new.items ≡ out.old.items ++ each_source merged [] a.now (shown columns.now)) }
{
    for column in columns {
        out.push(a.source_named(&column.name).share()?)?;
    }
    Ok(())
}

/// Puts what the namesakes of components in two operands depend on behind others.
pub fn push_pairs(
    alloc: Global,
    out: &mut Vec<Shared<usize>>,
    a: &Operand,
    b: &Operand,
    columns: &[&Component],
) -> Result<(), AllocError>
    ensures { OnOk result (out.new.items ≡ out.old.items ++ map (λ x. merged (source_named merged [] a.now x.name) (source_named merged [] b.now x.name)) (shown columns.now)) }
{
    for column in columns {
        let set = joined(
            alloc,
            a.source_named(&column.name),
            b.source_named(&column.name),
        )?;
        out.push(set)?;
    }
    Ok(())
}

/// What was there, and the components of these names.
pub fn with_names(
    alloc: Global,
    a: &Operand,
    before: Shared<usize>,
    names: &[Txt],
) -> Result<Shared<usize>, AllocError>
    ensures { IfOk result (λ s. s ≡ with_names merged [] a.now before names.now) }
{
    let mut set = before;
    for name in names {
        set = joined(alloc, &set, a.source_named(name))?;
    }
    Ok(set)
}

/// What was there, and the components of an order.
pub fn with_order(
    alloc: Global,
    a: &Operand,
    before: Shared<usize>,
    order: &[OrderKey],
) -> Result<Shared<usize>, AllocError>
    ensures { IfOk result (λ s. s ≡ with_names merged [] a.now before (map (λ key. key.component) order.now)) }
{
    let mut set = before;
    for key in order {
        set = joined(alloc, &set, a.source_named(&key.component))?;
    }
    Ok(set)
}

/// The points, and all measures.
pub fn with_measures(alloc: Global, a: &Operand) -> Result<Shared<usize>, AllocError>
    ensures { IfOk result (λ s. s ≡ with_measures merged [] a.now) }
{
    let columns = measures(alloc, a.structure())?;
    let mut set = a.points().share()?;
    for column in &columns {
        set = joined(alloc, &set, a.source_named(&column.name))?;
    }
    Ok(set)
}

/// The points of all operands.
pub fn points_of_all(alloc: Global, given: &[Operand]) -> Result<Shared<usize>, AllocError>
    ensures { IfOk result (λ s. s ≡ points_of_all merged [] given.now) }
{
    let mut set = nothing(alloc)?;
    for a in given {
        set = joined(alloc, &set, a.points())?;
    }
    Ok(set)
}

/// The components of a name, of all operands.
pub fn namesakes(
    alloc: Global,
    given: &[Operand],
    column: &Component,
) -> Result<Shared<usize>, AllocError>
    ensures { IfOk result (λ s. s ≡ namesakes merged [] given.now column.now) }
{
    let mut set = nothing(alloc)?;
    for a in given {
        set = joined(alloc, &set, a.source_named(&column.name))?;
    }
    Ok(set)
}
