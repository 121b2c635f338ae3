// Components of structures.
ghost use Rattle.std.specs.Prelude.{◌≡◌, IfOk};
ghost use Rattle.vtl_tree.specs.Columns.{measures_of, others_of};
ghost use Rattle.vtl_tree.specs.Shown.{shown};
ghost use Rattle.vtl_sources.specs.Table.{becoming};

use std::alloc::{AllocError, Global};
use vtl_tree::{Component, Role, Structure};

/// The measures.
pub fn measures(alloc: Global, s: &Structure) -> Result<Vec<&Component>, AllocError>
    ensures { IfOk result (λ v. shown v.items ≡ measures_of s.now) }
{
    s.of_role(alloc, Role::Measure)
}

/// The components that are no identifiers, in column order.
pub fn others(alloc: Global, s: &Structure) -> Result<Vec<&Component>, AllocError>
    ensures { IfOk result (λ v. shown v.items ≡ others_of s.now) }
{
    let mut columns = s.of_role(alloc, Role::Measure)?;
    let attributes = s.of_role(alloc, Role::Attribute)?;
    columns.extend_from_slice(&attributes)?;
    Ok(columns)
}

/// The measures of an operand that become measures of the result.
pub fn becoming<'a>(
    alloc: Global,
    a: &'a Structure,
    s: &Structure,
) -> Result<Vec<&'a Component>, AllocError>
    ensures { IfOk result (λ v. shown v.items ≡ becoming a.now s.now) }
{
    let made = measures(alloc, s)?;
    let mut columns = measures(alloc, a)?;
    columns.truncate(made.len());
    Ok(columns)
}
