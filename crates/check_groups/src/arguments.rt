// The components that aggregates and analytic calls are of.
ghost use Rattle.std.specs.Option.{option_map};
ghost use Rattle.std.specs.Prelude.{◌≡◌, IfOk};
ghost use Rattle.vtl_syntax.specs.Trees.{maybe_exp};
ghost use Rattle.vtl_syntax.specs.View.{expr_tree};
ghost use Rattle.vtl_tree.specs.View.{comp_exp_of};
ghost use Rattle.check_groups.specs.Aggregates.{column_name, is_component, operand_name};

use check_operators::written_in;
use std::alloc::AllocError;
use vtl_syntax::Expr;
use vtl_text::Txt;
use vtl_tree::CompExpr;

// A component, with or without an alias, and nothing else.
fn is_component(operand: Option<&Expr>) -> bool
    ensures { result ≡ is_component (maybe_exp (option_map (λ e. expr_tree e.now) operand.entry)) }
{
    match operand {
        Some(operand) => written_in(operand).is_some(),
        None => false,
    }
}

fn column_name(e: &CompExpr) -> Option<&Txt>
    ensures { option_map (λ name. name.now) result ≡ column_name (comp_exp_of e.now) }
{
    match e {
        CompExpr::Column { name, .. } => Some(name),
        _ => None,
    }
}

/// The component that a typed operand is, where it is written as one and nothing else.
pub(crate) fn operand_name<'a>(operand: Option<&Expr>, value: &'a CompExpr) -> Option<&'a Txt>
    ensures { option_map (λ name. name.now) result ≡ operand_name (maybe_exp (option_map (λ e. expr_tree e.now) operand.entry)) (comp_exp_of value.now) }
{
    if is_component(operand) {
        column_name(value)
    } else {
        None
    }
}

/// A name of its own, where there is one.
pub(crate) fn share_name(name: Option<&Txt>) -> Result<Option<Txt>, AllocError>
    ensures { IfOk result (λ copy. copy ≡ option_map (λ name. name.now) name.entry) }
{
    match name {
        Some(name) => Ok(Some(name.share()?)),
        None => Ok(None),
    }
}
