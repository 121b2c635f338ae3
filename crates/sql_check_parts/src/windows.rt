// Windows.
ghost use Rattle.std.specs.List.{flat_map};
ghost use Rattle.std.specs.Prelude.{◌≡◌, IfOk};
ghost use Rattle.sql_check_parts.specs.Rules.{least};
ghost use Rattle.sql_check_parts.specs.Scopes.{is_empty};
ghost use Rattle.sql_check_parts.specs.Told.{IsTold};
ghost use Rattle.sql_check_parts.specs.Windows.{argument, bound_fits, call_fits, call_kind, column_breaks, columns_break, default_fits, frame_fits, frame_misplaced, is_framed, is_misplaced, is_row_count, key_breaks, literals_fit, order_misplaced, shift_kind, value_kind, window_breaks, window_kind};

use crate::literals::{has_no_value, literal_kind};
use crate::{Grouping, Scope, SqlRule, Test, Told, column, least_broken, lesser, or_null};
use sql_tree::{Bound, Column, Frame, Literal, ValueFunction, Window, WindowCall, WindowKey};
use std::alloc::{AllocError, Global};
use vtl_cell::{
    Kind, LONGEST_REACH, aggregate_kind, integer_written, lies_between, meets, number_of,
};
use vtl_decimal::Profile;
use vtl_text::Txt;

// ---- columns

fn column_fault(
    scope: &Scope,
    group: &Option<Grouping>,
    name: &Column,
) -> Result<Option<SqlRule>, AllocError>
    ensures { IfOk result (λ fault. fault ≡ least (column_breaks scope.now group.now name.now)) }
{
    Ok(column(scope, group, name)?.fault)
}

/// The least of the rules that columns break. It fails only if memory runs out.
#[tactic(auto, using(crate::proofs::Least::part_taken))]
pub fn columns_fault(
    scope: &Scope,
    group: &Option<Grouping>,
    columns: &[Column],
) -> Result<Option<SqlRule>, AllocError>
    ensures { IfOk result (λ fault. fault ≡ least (flat_map (column_breaks scope.now group.now) columns.now)) }
{
    let mut least = None;
    for column in columns {
        least = lesser(least, column_fault(scope, group, column)?);
    }
    Ok(least)
}

#[tactic(auto, using(crate::proofs::Least::part_taken))]
fn keys_fault(
    scope: &Scope,
    group: &Option<Grouping>,
    keys: &[WindowKey],
) -> Result<Option<SqlRule>, AllocError>
    ensures { IfOk result (λ fault. fault ≡ least (flat_map (key_breaks scope.now group.now) keys.now)) }
{
    let mut least = None;
    for key in keys {
        least = lesser(least, column_fault(scope, group, &key.column)?);
    }
    Ok(least)
}

#[tactic(auto, using(crate::proofs::Least::least_one), unfolding(crate::specs::Rules::least))]
fn argument_fault(
    scope: &Scope,
    group: &Option<Grouping>,
    call: &WindowCall,
) -> Result<Option<SqlRule>, AllocError>
    ensures { IfOk result (λ fault. fault ≡ least (flat_map (column_breaks scope.now group.now) (argument call.now))) }
{
    match call {
        WindowCall::Aggregate { column, .. }
        | WindowCall::Value { column, .. }
        | WindowCall::Shift { column, .. } => column_fault(scope, group, column),
        WindowCall::Rank => Ok(None),
    }
}

#[tactic(auto, using(crate::proofs::Least::least_append))]
fn window_columns_fault(
    scope: &Scope,
    group: &Option<Grouping>,
    window: &Window,
) -> Result<Option<SqlRule>, AllocError>
    ensures { IfOk result (λ fault. fault ≡ least (columns_break scope.now group.now window.now)) }
{
    let argument = argument_fault(scope, group, &window.call)?;
    let partition = columns_fault(scope, group, window.over.partition.as_slice())?;
    let order = keys_fault(scope, group, window.over.order.as_slice())?;
    Ok(lesser(lesser(argument, partition), order))
}

// ---- kinds

fn value_kind(function: ValueFunction, kind: Kind) -> Option<Kind>
    ensures { result ≡ value_kind function kind }
{
    match function {
        ValueFunction::FirstValue | ValueFunction::LastValue => Some(kind),
        ValueFunction::RatioToReport => number_of(kind),
    }
}

fn shift_kind(default: &Option<Literal>, kind: Kind) -> Option<Kind>
    ensures { result ≡ shift_kind default.now kind }
{
    match default {
        Some(default) if !meets(kind, literal_kind(default)) => None,
        _ => Some(kind),
    }
}

fn call_kind(scope: &Scope, call: &WindowCall) -> Option<Kind>
    ensures { result ≡ call_kind scope.now call.now }
{
    match call {
        WindowCall::Aggregate { function, column } => {
            aggregate_kind(*function, or_null(scope.kind(column)))
        }
        WindowCall::Value { function, column } => {
            value_kind(*function, or_null(scope.kind(column)))
        }
        WindowCall::Shift {
            column,
            default,
            ..
        } => shift_kind(default, or_null(scope.kind(column))),
        WindowCall::Rank => Some(Kind::Int),
    }
}

// ---- literals

fn is_row_count(profile: &Profile, digits: &Txt) -> bool
    ensures { result ≡ is_row_count profile.now digits.now }
{
    lies_between(0, LONGEST_REACH, integer_written(profile, digits))
}

fn default_fits(
    alloc: Global,
    profile: &Profile,
    default: &Option<Literal>,
) -> Result<bool, AllocError>
    ensures { IfOk result (λ b. b ≡ default_fits profile.now default.now) }
{
    match default {
        Some(default) => Ok(!has_no_value(alloc, profile, default)?),
        None => Ok(true),
    }
}

fn call_fits(alloc: Global, profile: &Profile, call: &WindowCall) -> Result<bool, AllocError>
    ensures { IfOk result (λ b. b ≡ call_fits profile.now call.now) }
{
    match call {
        WindowCall::Shift { rows, default, .. } => {
            let fits = default_fits(alloc, profile, default)?;
            Ok(is_row_count(profile, rows) && fits)
        }
        _ => Ok(true),
    }
}

fn bound_fits(profile: &Profile, bound: &Bound) -> bool
    ensures { result ≡ bound_fits profile.now bound.now }
{
    match bound {
        Bound::Rows { count, .. } => is_row_count(profile, count),
        _ => true,
    }
}

fn frame_fits(profile: &Profile, frame: &Option<Frame>) -> bool
    ensures { result ≡ frame_fits profile.now frame.now }
{
    match frame {
        Some(frame) => bound_fits(profile, &frame.first) && bound_fits(profile, &frame.last),
        None => true,
    }
}

fn literals_fit(alloc: Global, profile: &Profile, window: &Window) -> Result<bool, AllocError>
    ensures { IfOk result (λ b. b ≡ literals_fit profile.now window.now) }
{
    let fits = call_fits(alloc, profile, &window.call)?;
    Ok(fits && frame_fits(profile, &window.over.frame))
}

// ---- frames and orders

fn is_framed(call: &WindowCall) -> bool
    ensures { result ≡ is_framed call.now }
{
    match call {
        WindowCall::Aggregate { .. } => true,
        WindowCall::Value {
            function: ValueFunction::FirstValue | ValueFunction::LastValue,
            ..
        } => true,
        _ => false,
    }
}

fn frame_misplaced(call: &WindowCall, frame: &Option<Frame>) -> bool
    ensures { result ≡ frame_misplaced call.now frame.now }
{
    match frame {
        Some(_) => !is_framed(call),
        None => is_framed(call),
    }
}

fn has_no_key(keys: &[WindowKey]) -> bool
    ensures { result ≡ is_empty keys.now }
{
    match keys {
        [] => true,
        _ => false,
    }
}

fn order_misplaced(call: &WindowCall, keys: &[WindowKey]) -> bool
    ensures { result ≡ order_misplaced call.now keys.now }
{
    match call {
        WindowCall::Shift { .. } | WindowCall::Rank => has_no_key(keys),
        WindowCall::Value {
            function: ValueFunction::RatioToReport,
            ..
        } => !has_no_key(keys),
        _ => false,
    }
}

fn is_misplaced(group: &Option<Grouping>, window: &Window) -> bool
    ensures { result ≡ is_misplaced group.now window.now }
{
    group.is_some()
        || frame_misplaced(&window.call, &window.over.frame)
        || order_misplaced(&window.call, window.over.order.as_slice())
}

/// A window. It fails only if memory runs out.
#[tactic(auto, using(crate::proofs::Least::least_append))]
pub fn window(
    alloc: Global,
    profile: &Profile,
    scope: &Scope,
    group: &Option<Grouping>,
    window: &Window,
) -> Result<Told, AllocError>
    ensures { IfOk result (IsTold (window_kind scope.now window.now) (window_breaks profile.now scope.now group.now window.now)) }
{
    let columns = window_columns_fault(scope, group, window)?;
    let kind = call_kind(scope, &window.call);
    let fits = literals_fit(alloc, profile, window)?;
    let own = least_broken(&[
        Test {
            rule: SqlRule::UnfitKind,
            is_broken: kind.is_none(),
        },
        Test {
            rule: SqlRule::UnfitLiteral,
            is_broken: !fits,
        },
        Test {
            rule: SqlRule::MisplacedWindow,
            is_broken: is_misplaced(group, window),
        },
    ]);
    Ok(Told {
        kind: or_null(kind),
        fault: lesser(columns, own),
    })
}
