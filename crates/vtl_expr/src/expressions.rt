// Expressions that are made from columns and other expressions.
//
// A column of a result is made of a component expression, made once for each call, and one walk evaluates the list at
// each row (`each_point`).
ghost use Rattle.std.specs.Prelude.{◌≡◌, ◌++◌, map, IfOk, OnOk};
ghost use Rattle.vtl_tree.specs.Shown.{shown};
ghost use Rattle.vtl_tree.specs.Structure.{columns_of};
ghost use Rattle.vtl_tree.specs.View.{comp_exp_of};
ghost use Rattle.vtl_tree.specs.Columns.{columns_named};

use std::alloc::{AllocError, Global};
use vtl_tree::{CompExpr, Component, Structure, copied, push_column};

// Puts equal expressions after others.
pub(crate) fn push_copies(
    alloc: Global,
    out: &mut Vec<CompExpr>,
    exps: &[CompExpr],
) -> Result<(), AllocError>
    ensures { OnOk result (map comp_exp_of out.new.items ≡ map comp_exp_of out.old.items ++ map comp_exp_of exps.now) }
{
    for e in exps {
        out.push(copied(alloc, e)?)?;
    }
    Ok(())
}

// The columns of a structure that have the names of others, as expressions.
pub(crate) fn columns_named(
    alloc: Global,
    structure: &Structure,
    wanted: &[&Component],
) -> Result<Vec<CompExpr>, AllocError>
    ensures { IfOk result (λ v. map comp_exp_of v.items ≡ columns_named (columns_of structure.now) (shown wanted.now)) }
{
    let columns = structure.columns(alloc)?;
    let mut exps = Vec::new(alloc);
    for column in wanted {
        push_column(&mut exps, &columns, &column.name)?;
    }
    Ok(exps)
}
