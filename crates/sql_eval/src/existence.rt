// EXISTS, with places in place of names.
ghost use Rattle.std.specs.Prelude.{◌≡◌, IfOk, map};
ghost use Rattle.sql_check_parts.specs.Exists.{inner_of};
ghost use Rattle.sql_eval.specs.Origins.{IsOriginOf};
ghost use Rattle.sql_eval.specs.Resolves.{place_at, side_of, tie_of};

use crate::names::place_at;
use crate::origin::origin_of;
use crate::{Existence, Level, Names, Side, Tie};
use sql_tree::{Column, Equality, Source};
use std::alloc::{AllocError, Global};

// A side of an equality: the inner source hides an outer one of its alias.
fn side<N: Names>(
    alloc: Global,
    names: &N,
    level: &Level<'_>,
    source: &Source,
    column: &Column,
) -> Result<Side, AllocError>
    ensures { IfOk result (λ s. s ≡ side_of (place_at (N.scope names.now) level.now) (inner_of (N.tables names.now) source.now) column.now) }
{
    if column.source == source.alias {
        Ok(Side::Inner(names.inner_place(alloc, source, column)?))
    } else {
        Ok(Side::Outer(place_at(names, level, column)))
    }
}

fn tie<N: Names>(
    alloc: Global,
    names: &N,
    level: &Level<'_>,
    source: &Source,
    equality: &Equality,
) -> Result<Tie, AllocError>
    ensures { IfOk result (λ t. t ≡ tie_of (place_at (N.scope names.now) level.now) (inner_of (N.tables names.now) source.now) equality.now) }
{
    Ok(Tie {
        left: side(alloc, names, level, source, &equality.left)?,
        right: side(alloc, names, level, source, &equality.right)?,
    })
}

fn ties<N: Names>(
    alloc: Global,
    names: &N,
    level: &Level<'_>,
    source: &Source,
    equalities: &[Equality],
) -> Result<Vec<Tie>, AllocError>
    ensures { IfOk result (λ v. v.items ≡ map (tie_of (place_at (N.scope names.now) level.now) (inner_of (N.tables names.now) source.now)) equalities.now) }
{
    let mut ties = Vec::with_capacity(alloc, equalities.len())?;
    for equality in equalities {
        ties.push(tie(alloc, names, level, source, equality)?)?;
    }
    Ok(ties)
}

/// What EXISTS asks. It fails only if memory runs out.
pub(crate) fn existence<N: Names>(
    alloc: Global,
    names: &N,
    level: &Level<'_>,
    source: &Source,
    equalities: &[Equality],
) -> Result<Existence, AllocError>
    ensures table { IfOk result (λ x. IsOriginOf (N.tables names.now) source.now x.table) }
    ensures ties { IfOk result (λ x. x.ties.items ≡ map (tie_of (place_at (N.scope names.now) level.now) (inner_of (N.tables names.now) source.now)) equalities.now) }
{
    Ok(Existence {
        table: origin_of(alloc, names, source)?,
        ties: ties(alloc, names, level, source, equalities)?,
    })
}
