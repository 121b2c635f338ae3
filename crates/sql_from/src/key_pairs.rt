// The columns of two sources that a condition equates.
ghost use Rattle.std.specs.List.{list_all};
ghost use Rattle.std.specs.Prelude.{◌≡◌, ℕ, ◌+◌, ◌<◌, true, IfOk, IfSome, IsSome, Some, length, map};
ghost use Rattle.vtl_cell.specs.declared.operator.ScalarOp.TheVariants as op;
ghost use Rattle.sql_tree.specs.Trees as tree;
ghost use Rattle.sql_tree.specs.View.{expr_tree};
ghost use Rattle.sql_meaning.specs.Plans.{conjuncts};
ghost use Rattle.sql_from.specs.Keys.{AreImplied, ArePaired, IsLinked, IsPairOf, are_linked, asked_columns, is_link, own_columns};

use crate::Sources;
use sql_tree::{Column, SqlExpr};
use std::alloc::{AllocError, Global};
use vtl_cell::ScalarOp;
use vtl_index::{KeyColumn, KeyForm};

/// A column of the last source and one of the source that leads, whose cells are equated.
#[derive(Clone, Copy)]
pub(crate) struct KeyPair {
    pub(crate) own: usize,
    pub(crate) asked: usize,
}

// The pair that an equality of two columns makes, if these are of the last source and of the one that leads.
fn key_pair(sources: &Sources<'_>, lead: usize, x: &Column, y: &Column) -> Option<KeyPair>
    requires { lead + 1 < length sources.now.sources }
    ensures pair { IfSome result (IsPairOf sources.now lead x.now y.now) }
    ensures some { are_linked sources.now lead (tree.column x.now) (tree.column y.now) ≡ true → IsSome result }
{
    let a = sources.spot(x)?;
    let b = sources.spot(y)?;
    let last = sources.len() - 1;
    if a.part == last && b.part == lead {
        Some(KeyPair {
            own: a.column,
            asked: b.column,
        })
    } else if b.part == last && a.part == lead {
        Some(KeyPair {
            own: b.column,
            asked: a.column,
        })
    } else {
        None
    }
}

// Puts the pair of an equality of two columns behind others, and tells whether it is such a one.
fn push_pair(
    keys: &mut Vec<KeyPair>,
    sources: &Sources<'_>,
    lead: usize,
    left: &SqlExpr,
    right: &SqlExpr,
) -> Result<bool, AllocError>
    requires { lead + 1 < length sources.now.sources }
    ensures implied { IfOk result (λ _. AreImplied sources.now lead (tree.binary (expr_tree left.now) op.Equal (expr_tree right.now)) keys.old.items keys.new.items) }
    ensures paired { IfOk result (λ b. b ≡ true → ArePaired sources.now lead (tree.binary (expr_tree left.now) op.Equal (expr_tree right.now)) keys.old.items keys.new.items) }
    ensures whole { IfOk result (λ b. are_linked sources.now lead (expr_tree left.now) (expr_tree right.now) ≡ true → b ≡ true) }
{
    match (left, right) {
        (SqlExpr::Column(x), SqlExpr::Column(y)) => match key_pair(sources, lead, x, y) {
            Some(pair) => {
                keys.push(pair)?;
                Ok(true)
            }
            None => Ok(false),
        },
        _ => Ok(false),
    }
}

/// Puts the pairs of columns that parts of a conjunction equate behind others, and tells whether all its parts are such
/// equalities. It fails only if memory runs out.
#[cycle(paired)]
pub(crate) fn push_pairs(
    keys: &mut Vec<KeyPair>,
    sources: &Sources<'_>,
    lead: usize,
    condition: &SqlExpr,
) -> Result<bool, AllocError>
    requires { lead + 1 < length sources.now.sources }
    ensures implied { IfOk result (λ _. AreImplied sources.now lead (expr_tree condition.now) keys.old.items keys.new.items) }
    ensures paired { IfOk result (λ b. b ≡ true → ArePaired sources.now lead (expr_tree condition.now) keys.old.items keys.new.items) }
    ensures whole { IfOk result (λ b. list_all (is_link sources.now lead) (conjuncts (expr_tree condition.now)) ≡ true → b ≡ true) }
{
    match condition {
        SqlExpr::Binary {
            left,
            op: ScalarOp::And,
            right,
        } => {
            let left_whole = push_pairs(keys, sources, lead, left)?;
            let right_whole = push_pairs(keys, sources, lead, right)?;
            Ok(left_whole && right_whole)
        }
        SqlExpr::Binary {
            left,
            op: ScalarOp::Equal,
            right,
        } => push_pair(keys, sources, lead, left, right),
        _ => Ok(false),
    }
}

// The source before the last one that an equality of a column of each asks for a cell.
fn linked_source(sources: &Sources<'_>, left: &SqlExpr, right: &SqlExpr) -> Option<usize>
    ensures within { IfSome result (λ n. n + 1 < length sources.now.sources) }
    ensures is { (lead : ℕ) → lead + 1 < length sources.now.sources → are_linked sources.now lead (expr_tree left.now) (expr_tree right.now) ≡ true → result ≡ Some lead }
{
    match (left, right) {
        (SqlExpr::Column(x), SqlExpr::Column(y)) => {
            let a = sources.spot(x)?;
            let b = sources.spot(y)?;
            let last = sources.len() - 1;
            if a.part == last && b.part < last {
                Some(b.part)
            } else if b.part == last && a.part < last {
                Some(a.part)
            } else {
                None
            }
        }
        _ => None,
    }
}

/// The source that the first equality of a column of the last source and one of another one asks for a cell, if there is
/// one among the parts of a conjunction.
#[cycle(leads)]
pub(crate) fn lead_of(sources: &Sources<'_>, condition: &SqlExpr) -> Option<usize>
    ensures within { IfSome result (λ n. n + 1 < length sources.now.sources) }
    ensures is { (lead : ℕ) → IsLinked sources.now lead (expr_tree condition.now) → result ≡ Some lead }
{
    match condition {
        SqlExpr::Binary {
            left,
            op: ScalarOp::And,
            right,
        } => match lead_of(sources, left) {
            Some(lead) => Some(lead),
            None => lead_of(sources, right),
        },
        SqlExpr::Binary {
            left,
            op: ScalarOp::Equal,
            right,
        } => linked_source(sources, left, right),
        _ => None,
    }
}

/// The columns of the last source, for an index. It fails only if memory runs out.
pub(crate) fn own_columns(alloc: Global, keys: &[KeyPair]) -> Result<Vec<KeyColumn>, AllocError>
    ensures { IfOk result (λ v. v.items ≡ own_columns keys.now) }
{
    let mut columns = Vec::with_capacity(alloc, keys.len())?;
    for key in keys {
        columns.push(KeyColumn {
            column: key.own,
            form: KeyForm::AsNumber,
        })?;
    }
    Ok(columns)
}

/// The columns of the source that leads, for what an index is asked. It fails only if memory runs out.
pub(crate) fn asked_columns(alloc: Global, keys: &[KeyPair]) -> Result<Vec<KeyColumn>, AllocError>
    ensures { IfOk result (λ v. v.items ≡ asked_columns keys.now) }
{
    let mut columns = Vec::with_capacity(alloc, keys.len())?;
    for key in keys {
        columns.push(KeyColumn {
            column: key.asked,
            form: KeyForm::AsNumber,
        })?;
    }
    Ok(columns)
}
