// Cells of two operands that a condition equates, as parts of keys.
ghost use Rattle.std.specs.Prelude.{◌≡◌, ℕ, ◌<◌, true, IfOk, IfSome};
ghost use Rattle.std.specs.List.{AllByRecursion};
ghost use Rattle.vtl_cell.specs.Kinds.{is_of};
ghost use Rattle.vtl_cell.specs.Row.{column_of};
ghost use Rattle.vtl_rows.specs.Places.{row_at};
ghost use Rattle.vtl_tree.specs.View.{comp_exp_of};
ghost use Rattle.vtl_expr.specs.Prepared.{SameValue, prepared_exp};
ghost use Rattle.vtl_join_filter.specs.Equalities.{Equates};
ghost use Rattle.vtl_join_filter.specs.Partners.{IsInRange, IsPair, Meet, are_mixed};

use crate::equated::{Equated, equated_columns};
use crate::sieve::Asked;
use std::alloc::{AllocError, Global};
use vtl_cell::{Cell, Kind};
use vtl_index::KeyForm;
use vtl_rows::{Pick, Table};
use vtl_tree::CompExpr;

// A cell of one operand and a cell of a later one, which are one in keys wherever the condition is true.
#[derive(Clone, Copy)]
pub(crate) struct KeyPair {
    pub(crate) asked: Pick,
    pub(crate) own: Pick,
    pub(crate) form: KeyForm,
}

// The kind of the cells of a column.
fn kind_of(table: &Table, column: usize) -> Kind
    ensures { (i : ℕ) → is_of result (column_of column (row_at table.now.rows i)) ≡ true }
{
    let columns = table.columns();
    if column < columns.len() {
        columns[column].kind
    } else {
        Kind::Null
    }
}

// Whether one is the kind of integers and the other that of numbers.
fn are_mixed(a: Kind, b: Kind) -> bool
    ensures { result ≡ are_mixed a b }
{
    matches!((a, b), (Kind::Int, Kind::Num) | (Kind::Num, Kind::Int))
}

// A number has at most 18 digits, as it tells of itself.
fn is_in_range(cell: &Cell)
    ensures { IsInRange cell.now }
{
    if let Cell::Num(number) = cell {
        number.k();
    }
}

fn cell_in_range(row: &[Cell], column: usize)
    ensures { IsInRange (column_of column row.now) }
{
    if column < row.len() {
        is_in_range(&row[column]);
    }
}

// And so has each of a column.
fn column_in_range(table: &Table, column: usize)
    ensures { (i : ℕ) → IsInRange (column_of column (row_at table.now.rows i)) }
{
    for i in 0..table.len() {
        cell_in_range(table.row(i), column);
    }
}

// How cells of two columns count in keys: an integer beside a number is the number that equals it.
fn form_of(left: &Table, left_column: usize, right: &Table, right_column: usize) -> KeyForm
    ensures { (i j : ℕ) → Meet result (column_of left_column (row_at left.now.rows i)) (column_of right_column (row_at right.now.rows j)) }
{
    if are_mixed(kind_of(left, left_column), kind_of(right, right_column)) {
        column_in_range(left, left_column);
        column_in_range(right, right_column);
        KeyForm::AsNumber
    } else {
        KeyForm::AsIs
    }
}

// The pair that columns of points make, if they are those of two operands.
fn pair_of(asked: &Asked<'_>, columns: Equated) -> Option<KeyPair>
    ensures { IfSome result (λ x. Equates asked.now.profile.now (prepared_exp asked.now.condition) columns → IsPair asked.now x) }
{
    let left = asked.gathering.pick(columns.left)?;
    let right = asked.gathering.pick(columns.right)?;
    let left_part = asked.gathering.part(left.part)?;
    let right_part = asked.gathering.part(right.part)?;
    let form = form_of(left_part, left.column, right_part, right.column);
    if left.part < right.part {
        Some(KeyPair {
            asked: left,
            own: right,
            form,
        })
    } else if right.part < left.part {
        Some(KeyPair {
            asked: right,
            own: left,
            form,
        })
    } else {
        None
    }
}

// All pairs that a condition makes.
pub(crate) fn key_pairs(
    alloc: Global,
    asked: &Asked<'_>,
    condition: &CompExpr,
) -> Result<Vec<KeyPair>, AllocError>
    requires { SameValue (prepared_exp asked.now.condition) (comp_exp_of condition.now) }
    ensures { IfOk result (λ v. AllByRecursion (IsPair asked.now) v.items) }
{
    let equated = equated_columns(alloc, condition)?;
    let mut pairs = Vec::new(alloc);
    for columns in &equated {
        if let Some(pair) = pair_of(asked, *columns) {
            pairs.push(pair)?;
        }
    }
    Ok(pairs)
}
