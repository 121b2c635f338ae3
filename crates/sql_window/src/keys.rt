// The keys by which the rows of a window are sorted.
ghost use Rattle.std.specs.List.{range_with_len};
ghost use Rattle.std.specs.Prelude.{◌≡◌, ◌++◌, IfOk, OnOk, map};
ghost use Rattle.sql_from.specs.Sources.{scope_held};
ghost use Rattle.sql_window.specs.Keys.{falls, order_key, partition_key, rising_key, tie_breakers};

use sql_eval::Names;
use sql_from::Sources;
use sql_tree::{Column, Direction, ValueFunction, WindowCall, WindowKey};
use std::alloc::{AllocError, Global};
use vtl_rows::SortKey;

/// The columns of PARTITION BY as keys. It fails only if memory runs out.
pub(crate) fn partition_keys(
    alloc: Global,
    sources: &Sources<'_>,
    columns: &[Column],
) -> Result<Vec<SortKey>, AllocError>
    ensures { IfOk result (λ v. v.items ≡ map (partition_key (scope_held sources.now.sources)) columns.now) }
{
    let mut keys = Vec::with_capacity(alloc, columns.len())?;
    for column in columns {
        keys.push(SortKey {
            column: sources.place(column),
            falling: false,
        })?;
    }
    Ok(keys)
}

fn falls(direction: &Option<Direction>) -> bool
    ensures { result ≡ falls direction.now }
{
    matches!(direction, Some(Direction::Descending))
}

/// The keys of ORDER BY. It fails only if memory runs out.
pub(crate) fn order_keys(
    alloc: Global,
    sources: &Sources<'_>,
    order: &[WindowKey],
) -> Result<Vec<SortKey>, AllocError>
    ensures { IfOk result (λ v. v.items ≡ map (order_key (scope_held sources.now.sources)) order.now) }
{
    let mut keys = Vec::with_capacity(alloc, order.len())?;
    for key in order {
        keys.push(SortKey {
            column: sources.place(&key.column),
            falling: falls(&key.direction),
        })?;
    }
    Ok(keys)
}

// Puts keys behind others.
fn push_keys(all: &mut Vec<SortKey>, keys: &[SortKey]) -> Result<(), AllocError>
    ensures { OnOk result (all.new.items ≡ all.old.items ++ keys.now) }
{
    for key in keys {
        all.push(*key)?;
    }
    Ok(())
}

// Puts all columns behind other keys.
fn push_columns(all: &mut Vec<SortKey>, width: usize) -> Result<(), AllocError>
    ensures { OnOk result (all.new.items ≡ all.old.items ++ map rising_key (range_with_len 0 width)) }
{
    for column in 0..width {
        all.push(SortKey {
            column,
            falling: false,
        })?;
    }
    Ok(())
}

// Puts behind other keys what is looked at where rows tie by these: all columns, or nothing for a rank, which is one for
// rows that tie, and for a share of the total, which no order changes.
fn push_tie_breakers(
    all: &mut Vec<SortKey>,
    call: &WindowCall,
    width: usize,
) -> Result<(), AllocError>
    ensures { OnOk result (all.new.items ≡ all.old.items ++ tie_breakers call.now width) }
{
    match call {
        WindowCall::Rank => Ok(()),
        WindowCall::Value {
            function: ValueFunction::RatioToReport,
            ..
        } => Ok(()),
        _ => push_columns(all, width),
    }
}

/// The columns of PARTITION BY, the keys of ORDER BY, and what a call looks at where rows tie. It fails only if memory
/// runs out.
pub(crate) fn all_keys(
    alloc: Global,
    partition: &[SortKey],
    order: &[SortKey],
    call: &WindowCall,
    width: usize,
) -> Result<Vec<SortKey>, AllocError>
    ensures { IfOk result (λ v. v.items ≡ (partition.now ++ order.now) ++ tie_breakers call.now width) }
{
    let mut all = Vec::new(alloc);
    push_keys(&mut all, partition)?;
    push_keys(&mut all, order)?;
    push_tie_breakers(&mut all, call, width)?;
    Ok(all)
}
