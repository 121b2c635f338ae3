// The keys by which the points of a data set are sorted for a call.
ghost use Rattle.std.specs.Prelude.{◌≡◌, ◌++◌, IfOk, OnOk, map};
ghost use Rattle.vtl_tree.specs.Shown.{shown};
ghost use Rattle.vtl_tree.specs.Columns.{identifiers_of, place_of};
ghost use Rattle.vtl_window.specs.Sorted.{identifier_keys, order_keys, ordering_key, partition_keys, rising_key, sort_keys, tie_breakers};

use std::alloc::{AllocError, Global};
use vtl_rows::SortKey;
use vtl_text::Txt;
use vtl_tree::{AnalyticOp, Component, OrderKey, Structure, Window, place_of};

// A key that rises.
fn rising(column: usize) -> SortKey
    ensures { result ≡ rising_key column }
{
    SortKey {
        column,
        falling: false,
    }
}

// Puts the columns of names behind other keys.
fn push_names(
    keys: &mut Vec<SortKey>,
    columns: &[&Component],
    names: &[Txt],
) -> Result<(), AllocError>
    ensures { OnOk result (keys.new.items ≡ keys.old.items ++ map (λ name. rising_key (place_of name (shown columns.now))) names.now) }
{
    for name in names {
        keys.push(rising(place_of(columns, name)))?;
    }
    Ok(())
}

// Puts the listed order behind other keys.
fn push_order(
    keys: &mut Vec<SortKey>,
    columns: &[&Component],
    order: &[OrderKey],
) -> Result<(), AllocError>
    ensures { OnOk result (keys.new.items ≡ keys.old.items ++ map (ordering_key (shown columns.now)) order.now) }
{
    for key in order {
        keys.push(SortKey {
            column: place_of(columns, &key.component),
            falling: key.falling,
        })?;
    }
    Ok(())
}

// Puts identifiers behind other keys.
fn push_identifiers(
    keys: &mut Vec<SortKey>,
    columns: &[&Component],
    identifiers: &[&Component],
) -> Result<(), AllocError>
    ensures { OnOk result (keys.new.items ≡ keys.old.items ++ identifier_keys (shown columns.now) (shown identifiers.now)) }
{
    for identifier in identifiers {
        keys.push(rising(place_of(columns, &identifier.name)))?;
    }
    Ok(())
}

/// The keys of the partition. It fails only if memory runs out.
pub(crate) fn partition_keys(
    alloc: Global,
    columns: &[&Component],
    window: &Window,
) -> Result<Vec<SortKey>, AllocError>
    ensures { IfOk result (λ v. v.items ≡ partition_keys (shown columns.now) window.now) }
{
    let mut keys = Vec::new(alloc);
    push_names(&mut keys, columns, window.partition.as_slice())?;
    Ok(keys)
}

/// The keys of the listed order. It fails only if memory runs out.
pub(crate) fn order_keys(
    alloc: Global,
    columns: &[&Component],
    window: &Window,
) -> Result<Vec<SortKey>, AllocError>
    ensures { IfOk result (λ v. v.items ≡ order_keys (shown columns.now) window.now) }
{
    let mut keys = Vec::new(alloc);
    push_order(&mut keys, columns, window.order.as_slice())?;
    Ok(keys)
}

/// The identifiers that a sort for an operator looks at where points tie by the listed order: all of them, or none for
/// a rank, which is one for points that tie. It fails only if memory runs out.
pub(crate) fn tie_breakers<'a>(
    alloc: Global,
    structure: &'a Structure,
    op: &AnalyticOp,
) -> Result<Vec<&'a Component>, AllocError>
    ensures { IfOk result (λ v. shown v.items ≡ tie_breakers op.now (identifiers_of structure.now)) }
{
    match op {
        AnalyticOp::Rank => Ok(Vec::new(alloc)),
        _ => structure.identifiers(alloc),
    }
}

/// All keys of the sort, of which the last are these identifiers. It fails only if memory runs out.
pub(crate) fn sort_keys(
    alloc: Global,
    columns: &[&Component],
    identifiers: &[&Component],
    window: &Window,
) -> Result<Vec<SortKey>, AllocError>
    ensures { IfOk result (λ v. v.items ≡ sort_keys (shown columns.now) (shown identifiers.now) window.now) }
{
    let mut keys = Vec::new(alloc);
    push_names(&mut keys, columns, window.partition.as_slice())?;
    push_order(&mut keys, columns, window.order.as_slice())?;
    push_identifiers(&mut keys, columns, identifiers)?;
    Ok(keys)
}
