// Expressions that are made from columns and other expressions.
ghost use Rattle.std.specs.Prelude.{◌≡◌, ◌++◌, ◌∷◌, [], length, map, IfOk, OnErr, OnOk};
ghost use Rattle.vtl_tree.specs.Shown.{shown};
ghost use Rattle.vtl_tree.specs.View.{comp_exp_of};
ghost use Rattle.vtl_tree.specs.Columns.{column_behind, column_named};

use crate::{CompExpr, Component, kind_named, place_of};
use std::alloc::{AllocError, Global};
use vtl_cell::clone_cell;
use vtl_text::Txt;

/// An equal expression, whose texts are shared.
pub fn copied(alloc: Global, e: &CompExpr) -> Result<CompExpr, AllocError>
    ensures { IfOk result (λ copy. comp_exp_of copy ≡ comp_exp_of e.now) }
{
    match e {
        CompExpr::Column { place, name, kind } => Ok(CompExpr::Column {
            place: *place,
            name: name.share()?,
            kind: *kind,
        }),
        CompExpr::Const(value) => Ok(CompExpr::Const(clone_cell(value)?)),
        CompExpr::Aggregate { call, kind } => Ok(CompExpr::Aggregate {
            call: call.share()?,
            kind: *kind,
        }),
        CompExpr::Apply { op, kind, args } => {
            let mut copies = Vec::with_capacity(alloc, args.len())?;
            for arg in args {
                copies.push(copied(alloc, arg)?)?;
            }
            Ok(CompExpr::Apply {
                op: *op,
                kind: *kind,
                args: copies,
            })
        }
    }
}

/// The column of a name as an expression, where this many others stand before these.
pub fn column_behind(
    before: &[&Component],
    columns: &[&Component],
    name: &Txt,
) -> Result<CompExpr, AllocError>
    ensures { IfOk result (λ e. comp_exp_of e ≡ column_behind (length before.now) (shown columns.now) name.now) }
{
    Ok(CompExpr::Column {
        place: before.len() + place_of(columns, name),
        name: name.share()?,
        kind: kind_named(columns, name),
    })
}

/// Puts the column of a name, as an expression, after others. If memory runs out, the others are left as they were.
pub fn push_column(
    out: &mut Vec<CompExpr>,
    columns: &[&Component],
    name: &Txt,
) -> Result<(), AllocError>
    ensures ok { OnOk result (map comp_exp_of out.new.items ≡ map comp_exp_of out.old.items ++ column_named (shown columns.now) name.now ∷ []) }
    ensures err { OnErr result (out.new.items ≡ out.old.items) }
{
    out.push(column_behind(&[], columns, name)?)?;
    Ok(())
}
