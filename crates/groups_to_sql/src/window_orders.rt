// The order of the points that an analytic call sees.
//
// Where the call sees the order, the ORDER BY lists behind the listed components the identifiers that the window does
// not name yet: SQL orders rows that tie by all columns of FROM, whose first are the identifiers, but another engine
// has no such rule. RANK has the listed ones alone, since its ties are told by them.
ghost use Rattle.std.specs.Prelude.{◌≡◌, ◌++◌, map, IfOk, OnOk};
ghost use Rattle.vtl_tree.specs.Shown.{shown};
ghost use Rattle.vtl_tree.specs.Names.{is_among};
ghost use Rattle.groups_to_sql.specs.Windowed.{direction_of, is_listed, key_names, key_to_sql, order_to_sql, rising_key, sees_order};
ghost use Rattle.groups_to_sql.specs.WindowItems.{unlisted_keys};

use selects_to_sql::Writer;
use sql_tree::{Direction, WindowKey};
use std::alloc::{AllocError, Global};
use vtl_text::Txt;
use vtl_tree::{AnalyticOp, Component, OrderKey, Structure, Window as Seen, is_among};

// Whether the order of a partition is seen.
fn sees_order(op: &AnalyticOp, seen: &Seen) -> bool
    ensures { result ≡ sees_order op.now seen.now }
{
    match op {
        AnalyticOp::FirstValue
        | AnalyticOp::LastValue
        | AnalyticOp::Lag { .. }
        | AnalyticOp::Lead { .. } => true,
        AnalyticOp::Rank | AnalyticOp::RatioToReport => false,
        _ => !seen.order.as_slice().is_empty() || seen.frame.is_some(),
    }
}

// Whether a name is that of a key.
fn is_key(name: &Txt, keys: &[OrderKey]) -> bool
    ensures { result ≡ is_among name.now (key_names keys.now) }
{
    for key in keys {
        if key.component == *name {
            return true;
        }
    }
    false
}

// Whether the partition or the order holds the name of a component already.
fn is_listed(seen: &Seen, component: &Component) -> bool
    ensures { result ≡ is_listed seen.now component.now }
{
    let name = &component.name;
    is_among(name, seen.partition.as_slice()) || is_key(name, seen.order.as_slice())
}

fn direction(falling: bool) -> Option<Direction>
    ensures { result ≡ direction_of falling }
{
    if falling {
        Some(Direction::Descending)
    } else {
        None
    }
}

// A key as it is listed.
fn listed_key(writer: &Writer, key: &OrderKey) -> Result<WindowKey, AllocError>
    ensures { IfOk result (λ k. k ≡ key_to_sql key.now) }
{
    Ok(WindowKey {
        column: writer.first(&key.component)?,
        direction: direction(key.falling),
    })
}

// A component as a key that rises.
fn rising_key(writer: &Writer, component: &Component) -> Result<WindowKey, AllocError>
    ensures { IfOk result (λ k. k ≡ rising_key component.now) }
{
    Ok(WindowKey {
        column: writer.first(&component.name)?,
        direction: None,
    })
}

// The keys as they are listed.
fn listed_keys(
    alloc: Global,
    writer: &Writer,
    order: &[OrderKey],
) -> Result<Vec<WindowKey>, AllocError>
    ensures { IfOk result (λ v. v.items ≡ map key_to_sql order.now) }
{
    let mut keys = Vec::with_capacity(alloc, order.len())?;
    for key in order {
        keys.push(listed_key(writer, key)?)?;
    }
    Ok(keys)
}

// Adds the components that are not listed yet.
fn push_unlisted(
    writer: &Writer,
    keys: &mut Vec<WindowKey>,
    seen: &Seen,
    components: &[&Component],
) -> Result<(), AllocError>
    ensures { OnOk result (keys.new.items ≡ keys.old.items ++ unlisted_keys seen.now (shown components.now)) }
{
    for component in components {
        if !is_listed(seen, component) {
            keys.push(rising_key(writer, component)?)?;
        }
    }
    Ok(())
}

/// The order of a partition: where it is seen, no two points stand at one place. It fails only if memory runs out.
pub(crate) fn order(
    alloc: Global,
    writer: &Writer,
    a: &Structure,
    op: &AnalyticOp,
    seen: &Seen,
) -> Result<Vec<WindowKey>, AllocError>
    ensures { IfOk result (λ v. v.items ≡ order_to_sql a.now op.now seen.now) }
{
    let mut keys = listed_keys(alloc, writer, seen.order.as_slice())?;
    if sees_order(op, seen) {
        let identifiers = a.identifiers(alloc)?;
        push_unlisted(writer, &mut keys, seen, &identifiers)?;
    }
    Ok(keys)
}
