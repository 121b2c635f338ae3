// What expressions name.
ghost use Rattle.std.specs.Prelude.{◌≡◌, [], IfOk, map};
ghost use Rattle.vtl_tree.specs.NodeView.{point_rule_tree};
ghost use Rattle.vtl_tree.specs.View.{comp_exp_of, comp_exps_of};
ghost use Rattle.vtl_sources.specs.Sources.{with_expression, with_expressions};
ghost use Rattle.vtl_sources.specs.Table.{with_rule};
ghost use Rattle.vtl_lineage.specs.Numbers.{merged};

use crate::numbers::joined;
use crate::operand::Operand;
use std::alloc::{AllocError, Global};
use vtl_text::Shared;
use vtl_tree::{CompExpr, DatapointRule};

/// What was there, and the components that an expression names.
#[cycle(expressions)]
pub fn with_expression(
    alloc: Global,
    a: &Operand,
    before: Shared<usize>,
    e: &CompExpr,
) -> Result<Shared<usize>, AllocError>
    ensures { IfOk result (λ s. s ≡ with_expression merged [] a.now before (comp_exp_of e.now)) }
{
    match e {
        CompExpr::Column { place, .. } => joined(alloc, &before, a.source_at(*place)),
        CompExpr::Const(_) => Ok(before),
        CompExpr::Apply { args, .. } => with_expressions(alloc, a, before, args),
        CompExpr::Aggregate { call, .. } => {
            joined(alloc, &before, a.source_if_named(&call.component))
        }
    }
}

/// What was there, and the components that expressions name.
#[cycle(expressions)]
pub fn with_expressions(
    alloc: Global,
    a: &Operand,
    before: Shared<usize>,
    exps: &[CompExpr],
) -> Result<Shared<usize>, AllocError>
    ensures { IfOk result (λ s. s ≡ with_expressions merged [] a.now before (comp_exps_of (map comp_exp_of exps.now))) }
{
    let mut set = before;
    for e in exps {
        set = with_expression(alloc, a, set, e)?;
    }
    Ok(set)
}

/// What was there, and the components that the parts of a rule name.
pub fn with_rule(
    alloc: Global,
    a: &Operand,
    before: Shared<usize>,
    rule: &DatapointRule,
) -> Result<Shared<usize>, AllocError>
    ensures { IfOk result (λ s. s ≡ with_rule merged [] a.now before (point_rule_tree rule.now)) }
{
    let set = match &rule.antecedent {
        Some(antecedent) => with_expression(alloc, a, before, antecedent)?,
        None => before,
    };
    with_expression(alloc, a, set, &rule.condition)
}
