// The totals and the previous values along the series of each frequency.
//
// A condition keeps the frequencies apart, and a window the series of one. Where the time stands alone the window has no
// partition.
ghost use Rattle.std.specs.Prelude.{◌≡◌, map, IfOk};
ghost use Rattle.vtl_tree.specs.Shown.{shown};
ghost use Rattle.vtl_series.specs.Series.{frequencies};
ghost use Rattle.vtl_tree.specs.NodeView.{analytic_tree};
ghost use Rattle.sql_tree.specs.View.{expr_tree, query_tree, select_tree};
ghost use Rattle.times_to_sql.specs.Flows.{along_series, has_frequency, part_select, parts_query};
ghost use Rattle.times_to_sql.specs.Frequencies.{series_window, time_key};

use crate::columns::{names_of, other_identifiers, times};
use groups_to_sql::analytic_items;
use selects_to_sql::{Operand, Writer, between, from_one, name_of_first};
use sql_tree::{Constant, Query, Select, SqlExpr};
use std::alloc::{AllocError, Global};
use vtl_cell::ScalarOp;
use vtl_text::{List, Txt};
use vtl_time::Frequency;
use vtl_tree::{AnalyticOp, AnalyticSpec, Component, OrderKey, Structure, Window};

// Components as keys that rise.
fn time_keys(alloc: Global, times: &[&Component]) -> Result<Vec<OrderKey>, AllocError>
    ensures { IfOk result (λ v. v.items ≡ map time_key (shown times.now)) }
{
    let mut keys = Vec::with_capacity(alloc, times.len())?;
    for time in times {
        keys.push(OrderKey {
            component: time.name.share()?,
            falling: false,
        })?;
    }
    Ok(keys)
}

// The points of a series, in the order of their times.
fn series_window(alloc: Global, a: &Structure) -> Result<Window, AllocError>
    ensures { IfOk result (λ w. w ≡ series_window a.now) }
{
    let others = other_identifiers(alloc, a)?;
    let times = times(alloc, a)?;
    Ok(Window {
        partition: List::of(names_of(alloc, &others)?),
        order: List::of(time_keys(alloc, &times)?),
        frame: None,
    })
}

// A time has a frequency.
fn has_frequency(
    alloc: Global,
    writer: &Writer,
    time: &Txt,
    frequency: Frequency,
) -> Result<SqlExpr, AllocError>
    ensures { IfOk result (λ e. expr_tree e ≡ has_frequency time.now frequency) }
{
    let mut operands = Vec::with_capacity(alloc, 1)?;
    operands.push(writer.column(time)?)?;
    let call = SqlExpr::Call {
        function: ScalarOp::PeriodFrequency,
        operands,
    };
    let letter = SqlExpr::Constant(Constant::Text(Txt::new(alloc, frequency.letter())?));
    between(alloc, call, ScalarOp::Equal, letter)
}

// An operator over the points of the series of an operand.
fn along_series(alloc: Global, op: AnalyticOp, a: &Structure) -> Result<AnalyticSpec, AllocError>
    ensures { IfOk result (λ s. analytic_tree s ≡ along_series op a.now) }
{
    let window = series_window(alloc, a)?;
    Ok(AnalyticSpec::Measures { op, window })
}

// An operator at the points whose time has a frequency.
fn part_select(
    alloc: Global,
    writer: &Writer,
    spec: &AnalyticSpec,
    time: &Txt,
    a: &Operand<'_>,
    s: &Structure,
    frequency: Frequency,
) -> Result<Select, AllocError>
    ensures { IfOk result (λ x. select_tree x ≡ part_select writer.now (analytic_tree spec.now) time.now a.now.structure.now s.now a.now.table.now frequency) }
{
    let items = analytic_items(alloc, writer, spec, a.structure, s)?;
    let condition = has_frequency(alloc, writer, time, frequency)?;
    from_one(alloc, writer, items, Some(condition), a.table)
}

// And of each frequency.
fn part_selects(
    alloc: Global,
    writer: &Writer,
    spec: &AnalyticSpec,
    time: &Txt,
    a: &Operand<'_>,
    s: &Structure,
) -> Result<Vec<Select>, AllocError>
    ensures { IfOk result (λ v. map select_tree v.items ≡ map (part_select writer.now (analytic_tree spec.now) time.now a.now.structure.now s.now a.now.table.now) frequencies) }
{
    let mut selects = Vec::with_capacity(alloc, 4)?;
    selects.push(part_select(alloc, writer, spec, time, a, s, Frequency::Annual)?)?;
    selects.push(part_select(alloc, writer, spec, time, a, s, Frequency::Semester)?)?;
    selects.push(part_select(alloc, writer, spec, time, a, s, Frequency::Quarter)?)?;
    selects.push(part_select(alloc, writer, spec, time, a, s, Frequency::Month)?)?;
    Ok(selects)
}

/// An operator along the series of each frequency. It fails only if memory runs out.
pub(crate) fn parts_query(
    alloc: Global,
    writer: &Writer,
    op: AnalyticOp,
    a: &Operand<'_>,
    s: &Structure,
) -> Result<Query, AllocError>
    ensures { IfOk result (λ q. query_tree q ≡ parts_query writer.now op a.now.structure.now s.now a.now.table.now) }
{
    let spec = along_series(alloc, op, a.structure)?;
    let time = name_of_first(alloc, &times(alloc, a.structure)?)?;
    let selects = part_selects(alloc, writer, &spec, &time, a, s)?;
    Ok(Query {
        selects: List::of(selects),
    })
}
