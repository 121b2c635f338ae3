// The sides of hierarchical rules.
//
// Each item of a rule is a source of its select: the table of the item, where its value stands under the name of the measure, and
// a column that is true under the name of the identifier of the items. Both are null where the item is missing.
ghost use Rattle.std.specs.Prelude.{◌≡◌, false, map, pos, IfOk};
ghost use Rattle.std.specs.Option.{option_map};
ghost use Rattle.vtl_rulings.specs.Modes.{zero_of};
ghost use Rattle.vtl_rulings.specs.Sides.{comparison_op, sign_op};
ghost use Rattle.sql_tree.specs.View.{expr_tree};
ghost use Rattle.sql_tree.specs.Trees as tree;
ghost use Rattle.expressions_to_sql.specs.ToSql.{column_of};
ghost use Rattle.rules_to_sql.specs.Items.{number_as};
ghost use Rattle.hierarchies_to_sql.specs.RuleItems.{leaf_of, leaves_of};
ghost use Rattle.hierarchies_to_sql.specs.declared.sides.Measured.{Measured as MeasuredOf};
ghost use Rattle.hierarchies_to_sql.specs.SideItems.{any_of, appears_as, counted_as, counts_as, filled_as, first_as, gap_as, left_as, next_as, or_zero_as, right_as, rights_as, truth_as, zero_as};

use rules_to_sql::{choice, denied};
use selects_to_sql::{Writer, all_of, between};
use sql_tree::{Column, Constant, SqlExpr};
use std::alloc::{AllocError, Global};
use vtl_cell::{Cell, Kind, ScalarOp};
use vtl_decimal::Dec;
use vtl_syntax::{Addition, Comparison, HierRule, Mode, SignedComp};
use vtl_text::Txt;

/// What the items of an operand are: the identifier whose values they are, and the measure with its kind.
#[derive(Drop)]
pub(crate) struct Measured<'a> {
    pub(crate) id: &'a Txt,
    pub(crate) measure: &'a Txt,
    pub(crate) kind: Kind,
}

/// A column of a source. It fails only if memory runs out.
pub(crate) fn column(alias: &Txt, name: &Txt) -> Result<SqlExpr, AllocError>
    ensures { IfOk result (λ e. expr_tree e ≡ tree.column (column_of alias.now name.now)) }
{
    Ok(SqlExpr::Column(Column {
        source: alias.share()?,
        name: name.share()?,
    }))
}

// ---- what items count as

// The number 0.
fn zero_number() -> Dec
    ensures { result ≡ pos 0 }
{
    match Dec::from_k(0) {
        Some(zero) => zero,
        None => unreachable!(),
    }
}

fn zero_of(kind: Kind) -> Cell
    ensures { result ≡ zero_of kind }
{
    match kind {
        Kind::Int => Cell::Int(0),
        Kind::Num | Kind::Null | Kind::Bool | Kind::Text | Kind::Day | Kind::Period => {
            Cell::Num(zero_number())
        }
    }
}

fn zero_as(alloc: Global, writer: &Writer, kind: Kind) -> Result<SqlExpr, AllocError>
    ensures { IfOk result (λ e. expr_tree e ≡ zero_as writer.now kind) }
{
    writer.constant(alloc, &zero_of(kind))
}

// The value of an item, or 0 where it is missing.
fn or_zero(
    alloc: Global,
    writer: &Writer,
    measured: &Measured<'_>,
    alias: &Txt,
) -> Result<SqlExpr, AllocError>
    ensures { IfOk result (λ e. expr_tree e ≡ or_zero_as writer.now measured.now.kind (leaf_of measured.now alias.now)) }
{
    let there = column(alias, measured.id)?;
    let value = column(alias, measured.measure)?;
    choice(alloc, there, value, zero_as(alloc, writer, measured.kind)?)
}

// What an item counts as.
fn counted(
    alloc: Global,
    writer: &Writer,
    measured: &Measured<'_>,
    mode: Mode,
    alias: &Txt,
) -> Result<SqlExpr, AllocError>
    ensures { IfOk result (λ e. expr_tree e ≡ counted_as writer.now mode measured.now.kind (leaf_of measured.now alias.now)) }
{
    match mode {
        Mode::NonNull | Mode::PartialNull | Mode::AlwaysNull => column(alias, measured.measure),
        Mode::NonZero | Mode::PartialZero | Mode::AlwaysZero => {
            or_zero(alloc, writer, measured, alias)
        }
    }
}

// An item is there and not null.
fn filled(alloc: Global, measured: &Measured<'_>, alias: &Txt) -> Result<SqlExpr, AllocError>
    ensures { IfOk result (λ e. expr_tree e ≡ filled_as (leaf_of measured.now alias.now)) }
{
    let value = column(alias, measured.measure)?;
    denied(alloc, missing(alloc, value)?)
}

/// A value is null. It fails only if memory runs out.
pub(crate) fn missing(alloc: Global, value: SqlExpr) -> Result<SqlExpr, AllocError>
    ensures { IfOk result (λ e. expr_tree e ≡ tree.is_null (expr_tree value) false) }
{
    Ok(SqlExpr::IsNull {
        operand: Box::new(alloc, value)?,
        negated: false,
    })
}

// An item is there, not null and not 0.
fn counts(
    alloc: Global,
    writer: &Writer,
    measured: &Measured<'_>,
    alias: &Txt,
) -> Result<SqlExpr, AllocError>
    ensures { IfOk result (λ e. expr_tree e ≡ counts_as writer.now measured.now.kind (leaf_of measured.now alias.now)) }
{
    let value = column(alias, measured.measure)?;
    let zero = zero_as(alloc, writer, measured.kind)?;
    denied(alloc, between(alloc, value, ScalarOp::Equal, zero)?)
}

// Each of these items is there and not null.
fn each_filled(
    alloc: Global,
    measured: &Measured<'_>,
    aliases: &[Txt],
) -> Result<Vec<SqlExpr>, AllocError>
    ensures { IfOk result (λ v. map expr_tree v.items ≡ map filled_as (leaves_of measured.now aliases.now)) }
{
    let mut conditions = Vec::with_capacity(alloc, aliases.len())?;
    for alias in aliases {
        conditions.push(filled(alloc, measured, alias)?)?;
    }
    Ok(conditions)
}

// Each of these items is there, not null and not 0.
fn each_counts(
    alloc: Global,
    writer: &Writer,
    measured: &Measured<'_>,
    aliases: &[Txt],
) -> Result<Vec<SqlExpr>, AllocError>
    ensures { IfOk result (λ v. map expr_tree v.items ≡ map (counts_as writer.now measured.now.kind) (leaves_of measured.now aliases.now)) }
{
    let mut conditions = Vec::with_capacity(alloc, aliases.len())?;
    for alias in aliases {
        conditions.push(counts(alloc, writer, measured, alias)?)?;
    }
    Ok(conditions)
}

// One of these conditions holds, joined from the left: with none it never does.
fn any_of(alloc: Global, conditions: Vec<SqlExpr>) -> Result<SqlExpr, AllocError>
    ensures { IfOk result (λ e. expr_tree e ≡ any_of (map expr_tree conditions.items)) }
{
    let mut rest = conditions.into_iter();
    let Some(mut any) = rest.next() else {
        return Ok(SqlExpr::Constant(Constant::False));
    };
    for condition in rest {
        any = between(alloc, any, ScalarOp::Or, condition)?;
    }
    Ok(any)
}

/// The condition of the combinations at which a rule of these items has a point; none where it has one at each. It fails only
/// if memory runs out.
pub(crate) fn appears(
    alloc: Global,
    writer: &Writer,
    measured: &Measured<'_>,
    mode: Mode,
    aliases: &[Txt],
) -> Result<Option<SqlExpr>, AllocError>
    ensures { IfOk result (λ o. option_map expr_tree o ≡ appears_as writer.now mode measured.now.kind (leaves_of measured.now aliases.now)) }
{
    match mode {
        Mode::NonNull => {
            let conditions = each_filled(alloc, measured, aliases)?;
            Ok(Some(all_of(alloc, conditions)?))
        }
        Mode::NonZero => {
            let conditions = each_counts(alloc, writer, measured, aliases)?;
            Ok(Some(any_of(alloc, conditions)?))
        }
        Mode::PartialNull | Mode::PartialZero => {
            let conditions = each_filled(alloc, measured, aliases)?;
            Ok(Some(any_of(alloc, conditions)?))
        }
        Mode::AlwaysNull | Mode::AlwaysZero => Ok(None),
    }
}

// ---- sides

// The first item on the right with its sign.
fn first_signed(
    alloc: Global,
    sign: Option<Addition>,
    value: SqlExpr,
) -> Result<SqlExpr, AllocError>
    ensures { IfOk result (λ e. expr_tree e ≡ first_as sign (expr_tree value)) }
{
    match sign {
        None => Ok(value),
        Some(Addition::Plus) => Ok(SqlExpr::Unary {
            op: ScalarOp::Identity,
            operand: Box::new(alloc, value)?,
        }),
        Some(Addition::Minus) => Ok(SqlExpr::Unary {
            op: ScalarOp::Negate,
            operand: Box::new(alloc, value)?,
        }),
    }
}

fn sign_op(sign: Addition) -> ScalarOp
    ensures { result ≡ sign_op sign }
{
    match sign {
        Addition::Plus => ScalarOp::Add,
        Addition::Minus => ScalarOp::Subtract,
    }
}

fn comparison_op(comparison: Comparison) -> ScalarOp
    ensures { result ≡ comparison_op comparison }
{
    match comparison {
        Comparison::Equal => ScalarOp::Equal,
        Comparison::Less => ScalarOp::Less,
        Comparison::LessOrEqual => ScalarOp::LessOrEqual,
        Comparison::Greater => ScalarOp::Greater,
        Comparison::GreaterOrEqual => ScalarOp::GreaterOrEqual,
    }
}

// A total with further items.
fn with_next(
    alloc: Global,
    writer: &Writer,
    measured: &Measured<'_>,
    mode: Mode,
    mut total: SqlExpr,
    signed: &[SignedComp],
    aliases: &[Txt],
) -> Result<SqlExpr, AllocError>
    ensures { IfOk result (λ e. expr_tree e ≡ next_as (expr_tree total) signed.now (map (λ alias. counted_as writer.now mode measured.now.kind (leaf_of measured.now alias)) aliases.now)) }
{
    for i in 0..aliases.len().min(signed.len()) {
        let value = counted(alloc, writer, measured, mode, &aliases[i])?;
        total = between(alloc, total, sign_op(signed[i].sign), value)?;
    }
    Ok(total)
}

/// The right side of a rule, of the sources of its items. It fails only if memory runs out.
pub(crate) fn right_side(
    alloc: Global,
    writer: &Writer,
    measured: &Measured<'_>,
    mode: Mode,
    rule: &HierRule,
    aliases: &[Txt],
) -> Result<SqlExpr, AllocError>
    ensures { IfOk result (λ e. expr_tree e ≡ right_as writer.now mode measured.now.kind rule.now (leaves_of measured.now aliases.now)) }
{
    match aliases {
        [] => Ok(SqlExpr::Constant(Constant::Null)),
        [first, others @ ..] => {
            let value = counted(alloc, writer, measured, mode, first)?;
            let total = first_signed(alloc, rule.sign, value)?;
            let signed = rule.others.as_slice();
            with_next(alloc, writer, measured, mode, total, signed, others)
        }
    }
}

/// The left side of a rule, of the sources of its items, whose first is the one on the left. It fails only if memory runs out.
pub(crate) fn left_side(
    alloc: Global,
    writer: &Writer,
    measured: &Measured<'_>,
    mode: Mode,
    aliases: &[Txt],
) -> Result<SqlExpr, AllocError>
    ensures { IfOk result (λ e. expr_tree e ≡ left_as writer.now mode measured.now.kind (leaves_of measured.now aliases.now)) }
{
    match aliases {
        [] => Ok(SqlExpr::Constant(Constant::Null)),
        [left, ..] => counted(alloc, writer, measured, mode, left),
    }
}

// The sources of the items on the right.
fn rights(aliases: &[Txt]) -> &[Txt]
    ensures { (measured : MeasuredOf) → leaves_of measured result.now ≡ rights_as (leaves_of measured aliases.now) }
{
    match aliases {
        [] => &[],
        [_, rights @ ..] => rights,
    }
}

/// Whether the sides of a rule compare as it says. It fails only if memory runs out.
pub(crate) fn truth(
    alloc: Global,
    writer: &Writer,
    measured: &Measured<'_>,
    mode: Mode,
    rule: &HierRule,
    aliases: &[Txt],
) -> Result<SqlExpr, AllocError>
    ensures { IfOk result (λ e. expr_tree e ≡ truth_as writer.now mode measured.now.kind rule.now (leaves_of measured.now aliases.now)) }
{
    let left = left_side(alloc, writer, measured, mode, aliases)?;
    let right = right_side(alloc, writer, measured, mode, rule, rights(aliases))?;
    between(alloc, left, comparison_op(rule.comparison), right)
}

// A value of a kind as a number.
fn number_as(
    alloc: Global,
    writer: &Writer,
    kind: Kind,
    value: SqlExpr,
) -> Result<SqlExpr, AllocError>
    ensures { IfOk result (λ e. expr_tree e ≡ number_as writer.now kind (expr_tree value)) }
{
    match kind {
        Kind::Num => Ok(value),
        Kind::Null | Kind::Bool | Kind::Int | Kind::Text | Kind::Day | Kind::Period => {
            let always = SqlExpr::Constant(Constant::True);
            let zero = writer.constant(alloc, &Cell::Num(zero_number()))?;
            choice(alloc, always, value, zero)
        }
    }
}

/// The left side of a rule less the right one, as a number. It fails only if memory runs out.
pub(crate) fn gap(
    alloc: Global,
    writer: &Writer,
    measured: &Measured<'_>,
    mode: Mode,
    rule: &HierRule,
    aliases: &[Txt],
) -> Result<SqlExpr, AllocError>
    ensures { IfOk result (λ e. expr_tree e ≡ gap_as writer.now mode measured.now.kind rule.now (leaves_of measured.now aliases.now)) }
{
    let left = left_side(alloc, writer, measured, mode, aliases)?;
    let right = right_side(alloc, writer, measured, mode, rule, rights(aliases))?;
    let less = between(alloc, left, ScalarOp::Subtract, right)?;
    number_as(alloc, writer, measured.kind, less)
}
