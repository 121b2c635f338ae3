// The lines of the table that look at one, two or three operands.
ghost use Rattle.std.specs.List.{fold};
ghost use Rattle.std.specs.Option.{option_copied, option_map_or};
ghost use Rattle.std.specs.Prelude.{◌≡◌, ◌++◌, [], ◌∷◌, IfOk, OnOk, map};
ghost use Rattle.vtl_tree.specs.Checks.{output_parts};
ghost use Rattle.vtl_tree.specs.NodeView.{measure_tree, point_rule_tree};
ghost use Rattle.vtl_tree.specs.Shown.{shown};
ghost use Rattle.vtl_tree.specs.View.{comp_exp_of, comp_exps_of};
ghost use Rattle.vtl_sources.specs.Sources.{measure_sources, source_named, with_expressions};
ghost use Rattle.vtl_sources.specs.Table.{of_check, of_choice, of_datapoint, of_filter, of_left, of_measured, of_measures, of_pair, of_pivot, of_points, with_measure, with_rule};
ghost use Rattle.vtl_lineage.specs.Numbers.{merged};

use crate::columns::{becoming, measures, others};
use crate::expressions::{with_expression, with_expressions, with_rule};
use crate::numbers::joined;
use crate::operand::{Found, Operand};
use crate::parts::{push_copies, push_named, push_pairs, with_measures};
use std::alloc::{AllocError, Global};
use vtl_syntax::CheckOut;
use vtl_text::{Shared, Txt};
use vtl_tree::{CompExpr, Component, DatapointRule, MeasureOp, Structure};

/// Points alone.
pub fn points_alone(
    alloc: Global,
    points: Shared<usize>,
    nothing: &Shared<usize>,
    made: &Structure,
) -> Result<Found, AllocError>
    requires { nothing.now ≡ [] }
    ensures { IfOk result (λ f. f ≡ of_points merged [] points made.now) }
{
    let mut sets = Vec::new(alloc);
    push_copies(&mut sets, nothing, &others(alloc, made)?)?;
    Ok(Found::of(points, sets))
}

/// The points, and all measures in them.
pub fn measured(alloc: Global, a: &Operand, made: &Structure) -> Result<Found, AllocError>
    ensures { IfOk result (λ f. f ≡ of_measured merged [] a.now made.now) }
{
    points_alone(alloc, with_measures(alloc, a)?, a.nothing(), made)
}

/// Components that are left as they are.
pub fn left(alloc: Global, a: &Operand, made: &Structure) -> Result<Found, AllocError>
    ensures { IfOk result (λ f. f ≡ of_left merged [] a.now made.now) }
{
    let mut sets = Vec::new(alloc);
    push_named(&mut sets, a, &others(alloc, made)?)?;
    Ok(Found::of(a.points().share()?, sets))
}

/// `pivot`: a measure for each code.
pub fn pivot(alloc: Global, a: &Operand, m: &Txt, made: &Structure) -> Result<Found, AllocError>
    ensures { IfOk result (λ f. f ≡ of_pivot merged [] a.now m.now made.now) }
{
    let mut sets = Vec::new(alloc);
    push_copies(&mut sets, a.source_named(m), &others(alloc, made)?)?;
    Ok(Found::of(a.points().share()?, sets))
}

/// `filter`.
pub fn filter(alloc: Global, a: &Operand, condition: &CompExpr) -> Result<Found, AllocError>
    ensures { IfOk result (λ f. f ≡ of_filter merged [] a.now (comp_exp_of condition.now)) }
{
    let points = with_expression(alloc, a, a.points().share()?, condition)?;
    a.found().share_with(alloc, points)
}

// Puts what a measure depends on, with the expressions before and behind it, behind others.
fn push_measures(
    alloc: Global,
    out: &mut Vec<Shared<usize>>,
    a: &Operand,
    op: &MeasureOp,
    columns: &[&Component],
) -> Result<(), AllocError>
    ensures { OnOk result (out.new.items ≡ out.old.items ++ map (λ x. with_expressions merged [] a.now (with_expressions merged [] a.now (source_named merged [] a.now x.name) (comp_exps_of (map comp_exp_of op.now.before))) (comp_exps_of (map comp_exp_of op.now.after))) (shown columns.now)) }
{
    for column in columns {
        let own = a.source_named(&column.name).share()?;
        let before = with_expressions(alloc, a, own, op.before.as_slice())?;
        out.push(with_expressions(alloc, a, before, op.after.as_slice())?)?;
    }
    Ok(())
}

/// An operator on each measure.
pub fn on_measures(
    alloc: Global,
    a: &Operand,
    op: &MeasureOp,
    made: &Structure,
) -> Result<Found, AllocError>
    ensures { IfOk result (λ f. f ≡ of_measures merged [] a.now (measure_tree op.now) made.now) }
{
    let mut sets = Vec::new(alloc);
    push_measures(
        alloc,
        &mut sets,
        a,
        op,
        &becoming(alloc, a.structure(), made)?,
    )?;
    Ok(Found::of(a.points().share()?, sets))
}

/// An operator on the measures of two data sets.
pub fn pair(alloc: Global, a: &Operand, b: &Operand, made: &Structure) -> Result<Found, AllocError>
    ensures { IfOk result (λ f. f ≡ of_pair merged [] a.now b.now made.now) }
{
    let mut sets = Vec::new(alloc);
    push_pairs(
        alloc,
        &mut sets,
        a,
        b,
        &becoming(alloc, a.structure(), made)?,
    )?;
    Ok(Found::of(joined(alloc, a.points(), b.points())?, sets))
}

/// `if`.
pub fn choose(
    alloc: Global,
    condition: &Operand,
    a: &Operand,
    b: &Operand,
    made: &Structure,
) -> Result<Found, AllocError>
    ensures { IfOk result (λ f. f ≡ of_choice merged [] condition.now a.now b.now made.now) }
{
    let first = joined(alloc, condition.points(), a.points())?;
    let both = joined(alloc, &first, b.points())?;
    let points = with_measure(alloc, condition, &both)?;
    let mut sets = Vec::new(alloc);
    push_pairs(alloc, &mut sets, a, b, &measures(alloc, made)?)?;
    Ok(Found::of(points, sets))
}

// What was there, and the only measure, which stands behind the identifiers.
fn with_measure(
    alloc: Global,
    a: &Operand,
    before: &Shared<usize>,
) -> Result<Shared<usize>, AllocError>
    ensures { IfOk result (λ s. s ≡ with_measure merged [] a.now before.now) }
{
    joined(alloc, before, a.source_at(a.structure().key_width()))
}

// The imbalance of a check, where one is written.
fn imbalance(
    alloc: Global,
    a: &Operand,
    other: Option<&Operand>,
) -> Result<Shared<usize>, AllocError>
    ensures { IfOk result (λ s. s ≡ option_map_or (λ d. with_measure merged [] d d.sources.points) (option_copied other.entry) []) }
{
    match other {
        Some(d) => with_measure(alloc, d, d.points()),
        None => a.nothing().share(),
    }
}

/// `check`: behind the truth value the imbalance, and then the errors.
pub fn check(alloc: Global, a: &Operand, other: Option<&Operand>) -> Result<Found, AllocError>
    ensures { IfOk result (λ f. f ≡ of_check merged [] a.now (option_copied other.entry)) }
{
    let points = with_measure(alloc, a, a.points())?;
    let mut sets = Vec::new(alloc);
    sets.push(a.nothing().share()?)?;
    sets.push(imbalance(alloc, a, other)?)?;
    sets.push(a.nothing().share()?)?;
    sets.push(a.nothing().share()?)?;
    Ok(Found::of(points, sets))
}

// The points, and what rules name.
fn with_rules(
    alloc: Global,
    a: &Operand,
    rules: &[DatapointRule],
) -> Result<Shared<usize>, AllocError>
    ensures { IfOk result (λ s. s ≡ fold (with_rule merged [] a.now) a.now.sources.points (map point_rule_tree rules.now)) }
{
    let mut set = a.points().share()?;
    for rule in rules {
        set = with_rule(alloc, a, set, rule)?;
    }
    Ok(set)
}

// Puts no set behind others.
fn push_nothing(out: &mut Vec<Shared<usize>>, a: &Operand) -> Result<(), AllocError>
    ensures { OnOk result (out.new.items ≡ out.old.items ++ [] ∷ []) }
{
    out.push(a.nothing().share()?)?;
    Ok(())
}

// The errors: their text and their level.
fn push_errors(out: &mut Vec<Shared<usize>>, a: &Operand) -> Result<(), AllocError>
    ensures { OnOk result (out.new.items ≡ out.old.items ++ [] ∷ [] ∷ []) }
{
    push_nothing(out, a)?;
    push_nothing(out, a)
}

// Puts what an output shows behind the identifiers behind others.
fn push_ruled(
    alloc: Global,
    out: &mut Vec<Shared<usize>>,
    a: &Operand,
    shown: CheckOut,
) -> Result<(), AllocError>
    ensures { OnOk result (out.new.items ≡ out.old.items ++ output_parts shown (measure_sources merged [] a.now) [] ([] ∷ [] ∷ [])) }
{
    match shown {
        CheckOut::Invalid => {
            push_named(out, a, &measures(alloc, a.structure())?)?;
            push_errors(out, a)
        }
        CheckOut::All => {
            push_nothing(out, a)?;
            push_errors(out, a)
        }
        CheckOut::AllMeasures => {
            push_named(out, a, &measures(alloc, a.structure())?)?;
            push_nothing(out, a)?;
            push_errors(out, a)
        }
    }
}

/// `check_datapoint`.
pub fn datapoint(
    alloc: Global,
    a: &Operand,
    rules: &[DatapointRule],
    out: CheckOut,
) -> Result<Found, AllocError>
    ensures { IfOk result (λ f. f ≡ of_datapoint merged [] a.now (map point_rule_tree rules.now) out) }
{
    let points = with_rules(alloc, a, rules)?;
    let mut sets = Vec::new(alloc);
    push_ruled(alloc, &mut sets, a, out)?;
    Ok(Found::of(points, sets))
}
