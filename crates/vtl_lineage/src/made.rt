// Columns that are made: targets of `calc`, calls over windows, aggregates.
ghost use Rattle.std.specs.Option.{option_map_or};
ghost use Rattle.std.specs.Prelude.{◌≡◌, [], IfOk, map};
ghost use Rattle.vtl_tree.specs.NodeView.{agg_tree, analytic_tree, item_tree, value_tree};
ghost use Rattle.vtl_tree.specs.Trees as nodes;
ghost use Rattle.vtl_tree.specs.View.{comp_exp_of};
ghost use Rattle.vtl_tree.specs.declared.calls.AnalyticOp.{AnalyticOp};
ghost use Rattle.vtl_tree.specs.declared.specifications.AggItems.TheVariants as agg;
ghost use Rattle.vtl_sources.specs.Sources.{with_expression};
ghost use Rattle.vtl_sources.specs.Table.{of_aggregate, of_made, source_counted, source_made, source_of_value, with_window};
ghost use Rattle.vtl_lineage.specs.Numbers.{merged};

use crate::columns::others;
use crate::expressions::with_expression;
use crate::operand::{Found, Operand};
use crate::parts::{with_names, with_order};
use std::alloc::{AllocError, Global};
use vtl_cell::AggKind;
use vtl_text::Shared;
use vtl_tree::{
    AggItems, AggSpec, AggTarget, AnalyticSpec, CalcItem, CalcValue, CompExpr, Component,
    Structure, Window, is_measure,
};

// What was there, and the components of the partition and the order of a window.
fn with_window(
    alloc: Global,
    a: &Operand,
    before: Shared<usize>,
    window: &Window,
) -> Result<Shared<usize>, AllocError>
    ensures { IfOk result (λ s. s ≡ with_window merged [] a.now before window.now) }
{
    let set = with_names(alloc, a, before, window.partition.as_slice())?;
    with_order(alloc, a, set, window.order.as_slice())
}

fn source_of_value(
    alloc: Global,
    a: &Operand,
    value: &CalcValue,
) -> Result<Shared<usize>, AllocError>
    ensures { IfOk result (λ s. s ≡ source_of_value merged [] a.now (value_tree value.now)) }
{
    match value {
        CalcValue::Scalar(e) => with_expression(alloc, a, a.nothing().share()?, e),
        CalcValue::Analytic(call) => {
            let argument = a.source_if_named(&call.component).share()?;
            with_window(alloc, a, argument, &call.window)
        }
    }
}

// What a column depends on that a target of `calc` makes, or that stays.
fn source_by_items(
    alloc: Global,
    a: &Operand,
    items: &[CalcItem],
    column: &Component,
) -> Result<Shared<usize>, AllocError>
    ensures { IfOk result (λ s. s ≡ source_made merged [] a.now (nodes.of_items (map item_tree items.now)) column.now) }
{
    for item in items {
        if item.target == column.name {
            return source_of_value(alloc, a, &item.value);
        }
    }
    a.source_named(&column.name).share()
}

/// `calc`: what each target is made of; the other components stay.
pub fn calculated(
    alloc: Global,
    a: &Operand,
    items: &[CalcItem],
    made: &Structure,
) -> Result<Found, AllocError>
    ensures { IfOk result (λ f. f ≡ of_made merged [] a.now (nodes.of_items (map item_tree items.now)) made.now) }
{
    let columns = others(alloc, made)?;
    let mut sets = Vec::new(alloc);
    for column in &columns {
        sets.push(source_by_items(alloc, a, items, column)?)?;
    }
    Ok(Found::of(a.points().share()?, sets))
}

// What a column depends on that a call on the measure of its name makes, or that stays.
fn source_by_window(
    alloc: Global,
    a: &Operand,
    window: &Window,
    column: &Component,
) -> Result<Shared<usize>, AllocError>
    ensures { (o : AnalyticOp) → IfOk result (λ s. s ≡ source_made merged [] a.now (nodes.of_measures o window.now) column.now) }
{
    let own = a.source_named(&column.name).share()?;
    if is_measure(column) {
        with_window(alloc, a, own, window)
    } else {
        Ok(own)
    }
}

// A call on each measure.
fn windowed(
    alloc: Global,
    a: &Operand,
    window: &Window,
    made: &Structure,
) -> Result<Found, AllocError>
    ensures { (o : AnalyticOp) → IfOk result (λ f. f ≡ of_made merged [] a.now (nodes.of_measures o window.now) made.now) }
{
    let columns = others(alloc, made)?;
    let mut sets = Vec::new(alloc);
    for column in &columns {
        sets.push(source_by_window(alloc, a, window, column)?)?;
    }
    Ok(Found::of(a.points().share()?, sets))
}

/// An analytic operator.
pub fn analytic(
    alloc: Global,
    a: &Operand,
    spec: &AnalyticSpec,
    made: &Structure,
) -> Result<Found, AllocError>
    ensures { IfOk result (λ f. f ≡ of_made merged [] a.now (analytic_tree spec.now) made.now) }
{
    match spec {
        AnalyticSpec::Measures { window, .. } => windowed(alloc, a, window, made),
        AnalyticSpec::Calc(items) => calculated(alloc, a, items.as_slice(), made),
    }
}

// The argument of the aggregate that is made of a measure; a count of points has none.
fn counted_measure<'b>(a: &'b Operand, kind: AggKind, column: &Component) -> &'b Shared<usize>
    ensures { result.now ≡ source_counted merged [] a.now (agg.Measures kind) column.now }
{
    match kind {
        AggKind::Count => a.nothing(),
        _ => a.source_named(&column.name),
    }
}

// The argument of the target of a column's name.
fn counted_target<'b>(
    a: &'b Operand,
    targets: &[AggTarget],
    column: &Component,
) -> &'b Shared<usize>
    ensures { result.now ≡ source_counted merged [] a.now (agg.Targets targets.now) column.now }
{
    for target in targets {
        if target.target == column.name {
            return a.source_if_named(&target.call.component);
        }
    }
    a.nothing()
}

fn source_counted<'b>(a: &'b Operand, items: &AggItems, column: &Component) -> &'b Shared<usize>
    ensures { result.now ≡ source_counted merged [] a.now items.now column.now }
{
    match items {
        AggItems::Measures(kind) => counted_measure(a, *kind, column),
        AggItems::Targets(targets) => counted_target(a, targets.as_slice(), column),
    }
}

// The points, and the condition of groups where one is written.
fn with_condition(
    alloc: Global,
    a: &Operand,
    having: &Option<CompExpr>,
) -> Result<Shared<usize>, AllocError>
    ensures { IfOk result (λ s. s ≡ option_map_or (λ e. with_expression merged [] a.now a.now.sources.points (comp_exp_of e)) having.now a.now.sources.points) }
{
    let points = a.points().share()?;
    match having {
        Some(e) => with_expression(alloc, a, points, e),
        None => Ok(points),
    }
}

/// An aggregate operator.
pub fn aggregate(
    alloc: Global,
    a: &Operand,
    spec: &AggSpec,
    made: &Structure,
) -> Result<Found, AllocError>
    ensures { IfOk result (λ f. f ≡ of_aggregate merged [] a.now (agg_tree spec.now) made.now) }
{
    let points = with_condition(alloc, a, &spec.having)?;
    let columns = others(alloc, made)?;
    let mut sets = Vec::new(alloc);
    for column in &columns {
        sets.push(source_counted(a, &spec.items, column).share()?)?;
    }
    Ok(Found::of(points, sets))
}
