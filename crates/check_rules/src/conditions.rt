// The columns that conditions of datapoint rules see.
ghost use Rattle.std.specs.Prelude.{◌≡◌, IfOk};
ghost use Rattle.std.specs.List.{list_all};
ghost use Rattle.vtl_tree.specs.View.{comp_exp_of};
ghost use Rattle.check_rules.specs.Calls.{has_name, seen_column, seen_columns, sees_names};

use std::alloc::{AllocError, Global};
use vtl_text::{List, Txt};
use vtl_tree::{CompExpr, Component, is_among, share_codes, share_component};

// A column as conditions see it that see the components of some names.
fn seen_column(alloc: Global, names: &[Txt], column: &Component) -> Result<Component, AllocError>
    ensures { IfOk result (λ x. x ≡ seen_column names.now column.now) }
{
    if is_among(&column.name, names) {
        return share_component(column);
    }
    Ok(Component {
        name: Txt::new(alloc, "")?,
        role: column.role,
        kind: column.kind,
        codes: share_codes(&column.codes)?,
    })
}

/// The columns as conditions see them that see the components of some names alone: a column keeps its place, and has an
/// empty name where it is none of them. It fails only if memory runs out.
pub fn seen_columns(
    alloc: Global,
    names: &[Txt],
    columns: List<Component>,
) -> Result<List<Component>, AllocError>
    ensures { IfOk result (λ xs. xs ≡ seen_columns names.now columns) }
{
    let mut seen = Vec::new(alloc);
    for column in columns.as_slice() {
        seen.push(seen_column(alloc, names, column)?)?;
    }
    Ok(List::of(seen))
}

fn has_name(name: &Txt) -> bool
    ensures { result ≡ has_name name.now }
{
    !name.as_str().is_empty()
}

/// Whether each column that an expression names has a name.
#[cycle(seeing)]
pub fn sees_names(e: &CompExpr) -> bool
    ensures { result ≡ sees_names (comp_exp_of e.now) }
{
    match e {
        CompExpr::Column { name, .. } => has_name(name),
        CompExpr::Const(_) => true,
        CompExpr::Apply { args, .. } => all_see_names(args),
        CompExpr::Aggregate { .. } => true,
    }
}

#[cycle(seeing)]
fn all_see_names(exps: &[CompExpr]) -> bool
    ensures { result ≡ list_all (λ e. sees_names (comp_exp_of e)) exps.now }
{
    for e in exps {
        if !sees_names(e) {
            return false;
        }
    }
    true
}
