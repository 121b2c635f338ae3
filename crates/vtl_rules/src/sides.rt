// The sides of hierarchical rules, of what there is of their items.
ghost use Rattle.std.specs.List.{list_all, list_any};
ghost use Rattle.std.specs.Prelude.{◌≡◌, ◌∷◌, [], IfOk};
ghost use Rattle.vtl_cell.specs.Outcome.{Outcome};
ghost use Rattle.vtl_cell.specs.Outcomes.{result_of};
ghost use Rattle.vtl_cell.specs.declared.cell.Cell.{Cell};
ghost use Rattle.vtl_scalar.specs.Answers.{Answers};
ghost use Rattle.vtl_tree.specs.Names.{name_of};
ghost use Rattle.vtl_tree.specs.RuleItems.{is_equation, left_item};
ghost use Rattle.vtl_rulings.specs.Modes.{appears, counted, is_counted, is_filled, is_zero, missing_as, zero_of};
ghost use Rattle.vtl_rulings.specs.Sides.{comparison_op, first_value, sign_op};
ghost use Rattle.vtl_rules.specs.SideValues.{less_between, right_value, truth_between};

use std::alloc::{AllocError, Global};
use vtl_cell::{Cell, Kind, ScalarOp, clone_cell, is_same};
use vtl_decimal::{Dec, Profile};
use vtl_scalar::{ScalarErr, apply_one, apply_two, to_kind};
use vtl_syntax::{Addition, Comp, Comparison, HierRule, Mode};
use vtl_text::Txt;

// The name of an item.
pub(crate) fn item_name(item: &Comp) -> &Txt
    ensures { result.now ≡ name_of item.now }
{
    match item {
        Comp::Name(name) => name,
        Comp::Quoted(name) => name,
    }
}

// The item that a rule is about.
pub(crate) fn left_item(rule: &HierRule) -> &Txt
    ensures { result.now ≡ left_item rule.now }
{
    item_name(&rule.item)
}

// Whether a rule defines its item, and not only compares it.
pub(crate) fn is_equation(rule: &HierRule) -> bool
    ensures { result ≡ is_equation rule.now }
{
    match rule.comparison {
        Comparison::Equal => true,
        _ => false,
    }
}

// Whether there is a value that is not null.
fn is_filled(found: &Option<Cell>) -> bool
    ensures { result ≡ is_filled found.now }
{
    match found {
        Some(cell) => !matches!(cell, Cell::Null),
        None => false,
    }
}

// What a missing item counts as where it is not null.
fn zero_of(kind: Kind) -> Cell
    ensures { result ≡ zero_of kind }
{
    if matches!(kind, Kind::Int) {
        return Cell::Int(0);
    }
    match Dec::from_k(0) {
        Some(zero) => Cell::Num(zero),
        None => Cell::Null,
    }
}

fn is_zero(cell: &Cell) -> bool
    ensures { result ≡ is_zero cell.now }
{
    is_same(cell, &zero_of(Kind::Int)) || is_same(cell, &zero_of(Kind::Num))
}

// Whether there is a value that is neither null nor 0.
fn is_counted(found: &Option<Cell>) -> bool
    ensures { result ≡ is_counted found.now }
{
    match found {
        Some(cell) => !matches!(cell, Cell::Null) && !is_zero(cell),
        None => false,
    }
}

fn are_filled(found: &[Option<Cell>]) -> bool
    ensures { result ≡ list_all is_filled found.now }
{
    found.iter().all(|value| is_filled(value))
}

fn is_any_filled(found: &[Option<Cell>]) -> bool
    ensures { result ≡ list_any is_filled found.now }
{
    found.iter().any(|value| is_filled(value))
}

fn is_any_counted(found: &[Option<Cell>]) -> bool
    ensures { result ≡ list_any is_counted found.now }
{
    found.iter().any(|value| is_counted(value))
}

// Whether a rule has a point, by what there is of the items concerned.
pub(crate) fn appears(mode: Mode, found: &[Option<Cell>]) -> bool
    ensures { result ≡ appears mode found.now }
{
    match mode {
        Mode::NonNull => are_filled(found),
        Mode::NonZero => is_any_counted(found),
        Mode::PartialNull | Mode::PartialZero => is_any_filled(found),
        Mode::AlwaysNull | Mode::AlwaysZero => true,
    }
}

// The same with one item more.
pub(crate) fn appears_with(mode: Mode, left: &Option<Cell>, right: &[Option<Cell>]) -> bool
    ensures { result ≡ appears mode (left.now ∷ right.now) }
{
    match mode {
        Mode::NonNull => is_filled(left) && appears(mode, right),
        Mode::NonZero => is_counted(left) || appears(mode, right),
        Mode::PartialNull | Mode::PartialZero => is_filled(left) || appears(mode, right),
        Mode::AlwaysNull | Mode::AlwaysZero => true,
    }
}

// What a missing item counts as.
fn missing_as(mode: Mode, kind: Kind) -> Cell
    ensures { result ≡ missing_as mode kind }
{
    match mode {
        Mode::NonNull | Mode::PartialNull | Mode::AlwaysNull => Cell::Null,
        Mode::NonZero | Mode::PartialZero | Mode::AlwaysZero => zero_of(kind),
    }
}

// What an item counts as.
pub(crate) fn counted(mode: Mode, kind: Kind, found: &Option<Cell>) -> Result<Cell, AllocError>
    ensures { IfOk result (λ v. v ≡ counted mode kind found.now) }
{
    match found {
        Some(cell) => clone_cell(cell),
        None => Ok(missing_as(mode, kind)),
    }
}

// The value of an operator on one value, as one of a kind.
fn value_of_one(
    alloc: Global,
    op: ScalarOp,
    kind: Kind,
    a: &Cell,
    p: &Profile,
) -> Result<Cell, ScalarErr>
    ensures { Answers result (result_of p.now op kind (a.now ∷ [])) }
{
    Ok(to_kind(kind, apply_one(alloc, op, a, p)?, p)?)
}

// The same on two values.
fn value_of_two(
    alloc: Global,
    op: ScalarOp,
    kind: Kind,
    a: &Cell,
    b: &Cell,
    p: &Profile,
) -> Result<Cell, ScalarErr>
    ensures { Answers result (result_of p.now op kind (a.now ∷ b.now ∷ [])) }
{
    Ok(to_kind(kind, apply_two(alloc, op, a, b, p)?, p)?)
}

// The first item on the right with its sign.
fn first_value(
    alloc: Global,
    sign: Option<Addition>,
    kind: Kind,
    value: Cell,
    p: &Profile,
) -> Result<Cell, ScalarErr>
    ensures { Answers result (first_value p.now kind sign value) }
{
    match sign {
        None => Ok(value),
        Some(Addition::Plus) => value_of_one(alloc, ScalarOp::Identity, kind, &value, p),
        Some(Addition::Minus) => value_of_one(alloc, ScalarOp::Negate, kind, &value, p),
    }
}

fn sign_op(sign: Addition) -> ScalarOp
    ensures { result ≡ sign_op sign }
{
    match sign {
        Addition::Plus => ScalarOp::Add,
        Addition::Minus => ScalarOp::Subtract,
    }
}

fn comparison_op(comparison: Comparison) -> ScalarOp
    ensures { result ≡ comparison_op comparison }
{
    match comparison {
        Comparison::Equal => ScalarOp::Equal,
        Comparison::Less => ScalarOp::Less,
        Comparison::LessOrEqual => ScalarOp::LessOrEqual,
        Comparison::Greater => ScalarOp::Greater,
        Comparison::GreaterOrEqual => ScalarOp::GreaterOrEqual,
    }
}

// The right side of a rule, of what there is of its items: one after the other from the left, up to the first fault.
pub(crate) fn right_value(
    alloc: Global,
    mode: Mode,
    kind: Kind,
    rule: &HierRule,
    right: &[Option<Cell>],
    p: &Profile,
) -> Result<Cell, ScalarErr>
    ensures { Answers result (right_value p.now mode kind rule.now right.now) }
{
    let Some((first, rest)) = right.split_first() else {
        return Ok(Cell::Null);
    };
    let mut total = first_value(alloc, rule.sign, kind, counted(mode, kind, first)?, p)?;
    let others = rule.others.as_slice();
    for i in 0..others.len().min(rest.len()) {
        let value = counted(mode, kind, &rest[i])?;
        total = value_of_two(alloc, sign_op(others[i].sign), kind, &total, &value, p)?;
    }
    Ok(total)
}

// Whether the sides compare as the rule says.
pub(crate) fn truth_between(
    alloc: Global,
    rule: &HierRule,
    left: &Cell,
    right: &Result<Cell, ScalarErr>,
    p: &Profile,
) -> Result<Cell, ScalarErr>
    ensures { (m : Outcome Cell) → Answers right.now m → Answers result (truth_between p.now rule.now left.now m) }
{
    match right {
        Ok(value) => value_of_two(
            alloc,
            comparison_op(rule.comparison),
            Kind::Bool,
            left,
            value,
            p,
        ),
        Err(error) => Err(*error),
    }
}

// The left side less the right one, as a number.
pub(crate) fn less_between(
    alloc: Global,
    kind: Kind,
    left: &Cell,
    right: &Result<Cell, ScalarErr>,
    p: &Profile,
) -> Result<Cell, ScalarErr>
    ensures { (m : Outcome Cell) → Answers right.now m → Answers result (less_between p.now kind left.now m) }
{
    match right {
        Ok(value) => {
            let less = value_of_two(alloc, ScalarOp::Subtract, kind, left, value, p)?;
            Ok(to_kind(Kind::Num, less, p)?)
        }
        Err(error) => Err(*error),
    }
}
