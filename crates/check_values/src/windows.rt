// The windows of analytic calls, over the components of an operand.
ghost use Rattle.std.specs.Prelude.{◌≡◌, [], IfOk};
ghost use Rattle.std.specs.List.{list_any};
ghost use Rattle.vtl_tree.specs.Structure.{same_name};
ghost use Rattle.check_faults.specs.Answers.{Answers};
ghost use Rattle.vtl_tree.specs.Names.{name_of};
ghost use Rattle.check_values.specs.Windows.{bound_typed, frame_alone, frame_typed, is_falling, is_known, key_of, key_typed, name_form, or_none, order_typed, partition_typed, points_at, points_typed, unbounded_at, window_typed};

use crate::name;
use check_faults::{Rule, TypeErr};
use std::alloc::{AllocError, Global};
use vtl_cell::{LONGEST_REACH, integer_written};
use vtl_decimal::Profile;
use vtl_syntax::{Comp, DataPoints, Direction, Limit, OrderPart, OverPart, Side};
use vtl_text::{List, Txt};
use vtl_tree::{Bound, Component, Frame, OrderKey, Window};

fn is_known(name: &Txt, columns: &[Component]) -> bool
    ensures { result ≡ is_known name.now columns.now }
{
    for column in columns {
        if &column.name == name {
            return true;
        }
    }
    false
}

fn is_repeated(name: &Txt, names: &[Txt]) -> bool
    ensures { result ≡ list_any (same_name name.now) names.now }
{
    for other in names {
        if name == other {
            return true;
        }
    }
    false
}

fn is_repeated_key(name: &Txt, keys: &[OrderKey]) -> bool
    ensures { result ≡ list_any (λ x. same_name name.now x.component) keys.now }
{
    for key in keys {
        if name == &key.component {
            return true;
        }
    }
    false
}

fn named(known: bool, repeated: bool) -> Result<(), TypeErr>
    ensures { Answers (λ done. done) result (name_form known repeated) }
{
    if !known {
        Err(TypeErr::Broken(Rule::UnknownComponent))
    } else if repeated {
        Err(TypeErr::Broken(Rule::RepeatedName))
    } else {
        Ok(())
    }
}

fn partition(alloc: Global, columns: &[Component], parts: &[Comp]) -> Result<List<Txt>, TypeErr>
    ensures { Answers (λ names. names) result (partition_typed columns.now parts.now) }
{
    let mut names = Vec::new(alloc);
    for part in parts {
        named(
            is_known(name(part), columns),
            is_repeated(name(part), &names),
        )?;
        names.push(name(part).share()?)?;
    }
    Ok(List::of(names))
}

fn is_falling(direction: Option<Direction>) -> bool
    ensures { result ≡ is_falling direction }
{
    match direction {
        Some(Direction::Descending) => true,
        Some(Direction::Ascending) => false,
        None => false,
    }
}

fn key_of(part: &OrderPart) -> Result<OrderKey, AllocError>
    ensures { IfOk result (λ key. key ≡ key_of part.now) }
{
    Ok(OrderKey {
        component: name(&part.component).share()?,
        falling: is_falling(part.direction),
    })
}

// A key after others.
fn key(columns: &[Component], keys: &[OrderKey], part: &OrderPart) -> Result<OrderKey, TypeErr>
    ensures { Answers (λ key. key) result (key_typed columns.now keys.now part.now) }
{
    let component = name(&part.component);
    named(
        is_known(component, columns),
        is_repeated_key(component, keys),
    )?;
    Ok(key_of(part)?)
}

fn order(
    alloc: Global,
    columns: &[Component],
    parts: &[OrderPart],
) -> Result<List<OrderKey>, TypeErr>
    ensures { Answers (λ keys. keys) result (order_typed columns.now parts.now) }
{
    let mut keys = Vec::new(alloc);
    for part in parts {
        keys.push(key(columns, &keys, part)?)?;
    }
    Ok(List::of(keys))
}

/// The number of points that digits write.
pub fn points(profile: &Profile, digits: &Txt) -> Result<u32, TypeErr>
    ensures { Answers (λ n. n) result (points_typed profile.now digits.now) }
{
    match integer_written(profile, digits) {
        Some(n) if 0 <= n && n <= LONGEST_REACH => Ok(n as u32),
        _ => Err(TypeErr::Broken(Rule::WrongLiteral)),
    }
}

fn points_at(side: Side, points: u32) -> Bound
    ensures { result ≡ points_at side points }
{
    match side {
        Side::Preceding => Bound::Preceding(points),
        Side::Following => Bound::Following(points),
    }
}

fn unbounded_at(side: Side) -> Bound
    ensures { result ≡ unbounded_at side }
{
    match side {
        Side::Preceding => Bound::UnboundedPreceding,
        Side::Following => Bound::UnboundedFollowing,
    }
}

fn bound(profile: &Profile, limit: &Limit) -> Result<Bound, TypeErr>
    ensures { Answers (λ bound. bound) result (bound_typed profile.now limit.now) }
{
    match limit {
        Limit::Unbounded(side) => Ok(unbounded_at(*side)),
        Limit::Points {
            points: digits,
            side,
        } => Ok(points_at(*side, points(profile, digits)?)),
        Limit::Current => Ok(Bound::Current),
    }
}

fn frame(profile: &Profile, frame: &Option<DataPoints>) -> Result<Option<Frame>, TypeErr>
    ensures { Answers (λ frame. frame) result (frame_typed profile.now frame.now) }
{
    match frame {
        Some(points) => Ok(Some(Frame {
            start: bound(profile, &points.from)?,
            end: bound(profile, &points.to)?,
        })),
        None => Ok(None),
    }
}

fn or_none<T>(list: &Option<List<T>>) -> &[T]
    ensures { result.now ≡ or_none list.now }
{
    match list {
        Some(items) => items.as_slice(),
        None => &[],
    }
}

/// A window over the columns of an operand.
pub fn window(
    alloc: Global,
    profile: &Profile,
    columns: &[Component],
    over: &OverPart,
) -> Result<Window, TypeErr>
    ensures { Answers (λ window. window) result (window_typed profile.now columns.now over.now) }
{
    Ok(Window {
        partition: partition(alloc, columns, or_none(&over.partition))?,
        order: order(alloc, columns, or_none(&over.order))?,
        frame: frame(profile, &over.points)?,
    })
}

/// A window where there are no components that its names could stand for: only its frame.
pub fn frame_alone(alloc: Global, profile: &Profile, over: &OverPart) -> Result<Window, TypeErr>
    ensures { Answers (λ window. window) result (frame_alone profile.now over.now) }
{
    Ok(Window {
        partition: List::of(Vec::new(alloc)),
        order: List::of(Vec::new(alloc)),
        frame: frame(profile, &over.points)?,
    })
}
