// `flow_to_stock` and `stock_to_flow`
ghost use Rattle.std.specs.Prelude.{◌≡◌, ◌<◌, ℕ, length, map, IfOk};
ghost use Rattle.vtl_cell.specs.Row.{column_of};
ghost use Rattle.vtl_cell.specs.Row as row;
ghost use Rattle.vtl_decimal.specs.Settings.{Settings};
ghost use Rattle.vtl_rows.specs.Places.{row_at};
ghost use Rattle.vtl_rows.specs.Tables.{listed};
ghost use Rattle.vtl_scalar.specs.Answers.{Answers, AnswersBy};
ghost use Rattle.vtl_sets.specs.DataSets.{with_structure};
ghost use Rattle.vtl_sets.specs.TableOf.{IsTableOf};
ghost use Rattle.vtl_tree.specs.Shown.{shown};
ghost use Rattle.vtl_tree.specs.Structure.{columns_of};
ghost use Rattle.vtl_timing.specs.TimeShapes.{IsFlowed};
ghost use Rattle.vtl_timing.specs.Times.{flow_of, stock_of};
ghost use Rattle.vtl_meaning.specs.Analytics.{each_point as each_made};
ghost use Rattle.vtl_times.specs.Columns.{column_value, outcome_at, row_values};
ghost use Rattle.vtl_times.specs.Flows.{flow_by, made_by};
ghost use Rattle.vtl_times.specs.InOrder.{AreSeries};
ghost use Rattle.vtl_times.specs.Lists.{IsWhole, lists_of};

use crate::along::{Along, values_along};
use crate::column::{Column, Outcomes};
use crate::lists::Lists;
use crate::order::series_in_order;
use crate::rows::each_row;
use std::alloc::{AllocError, Global};
use vtl_cell::Kind;
use vtl_decimal::Profile;
use vtl_rows::Table;
use vtl_scalar::ScalarErr;
use vtl_sets::DataSet;
use vtl_tree::{Component, Structure, is_measure, place_of};

// The column of a measure, from what is made of it along the series.
fn column_along(along: Along, place: usize, kind: Kind, values: Outcomes) -> Column
    ensures { (p : Settings) (r : row.Row) (i : ℕ) → column_value p r i result ≡ made_by along p kind (column_of place r) (outcome_at values.items i) }
{
    match along {
        Along::Totals => Column::Total(place, values),
        Along::Previous => Column::Less(place, kind, values),
    }
}

// The column of a component: what is made of a measure, another one as it is.
fn made_column(
    alloc: Global,
    a: &DataSet,
    columns: &[&Component],
    series: &Lists,
    component: &Component,
    along: Along,
    p: &Profile,
) -> Result<Column, AllocError>
    requires columns { shown columns.now ≡ columns_of a.now.structure }
    requires whole { IsWhole series.now }
    requires series { AreSeries a.now (lists_of series.now) }
    ensures { IfOk result (λ v. (i : ℕ) → i < length a.now.points → column_value p.now (row_at a.now.points i) i v ≡ flow_by along p.now a.now component.now (row_at a.now.points i)) }
{
    let place = place_of(columns, &component.name);
    if !is_measure(component) {
        return Ok(Column::Own(place));
    }
    let values = values_along(alloc, a, series, place, along, p)?;
    Ok(column_along(along, place, component.kind, values))
}

// The columns of the result.
fn made_columns(
    alloc: Global,
    a: &DataSet,
    columns: &[&Component],
    series: &Lists,
    made: &Structure,
    along: Along,
    p: &Profile,
) -> Result<Vec<Column>, AllocError>
    requires columns { shown columns.now ≡ columns_of a.now.structure }
    requires whole { IsWhole series.now }
    requires series { AreSeries a.now (lists_of series.now) }
    ensures { IfOk result (λ v. (i : ℕ) → i < length a.now.points → row_values p.now v.items a.now.points i ≡ map (λ y. flow_by along p.now a.now y (row_at a.now.points i)) (columns_of made.now)) }
{
    let wanted = made.columns(alloc)?;
    let mut out = Vec::with_capacity(alloc, wanted.len())?;
    for component in &wanted {
        out.push(made_column(alloc, a, columns, series, component, along, p)?)?;
    }
    Ok(out)
}

// The table of the result.
fn flow_table(
    alloc: Global,
    a: &DataSet,
    made: &Structure,
    along: Along,
    p: &Profile,
) -> Result<Table, ScalarErr>
    requires { IsFlowed a.now.structure made.now }
    ensures table { IfOk result (λ t. IsTableOf made.now (listed t)) }
    ensures rows { AnswersBy (λ t. t.rows) result (each_made (flow_by along p.now a.now) (columns_of made.now) a.now.points) }
{
    let own = a.structure().columns(alloc)?;
    let series = series_in_order(alloc, a)?;
    let columns = made_columns(alloc, a, &own, &series, made, along, p)?;
    each_row(alloc, &columns, a, made, p)
}

/// At each point, for each measure, the total of the values that its series has up to this point, without nulls; null
/// where the measure is. As a data set of the structure that typing gives, which has the identifiers and measures of the
/// operand. The answer is Range where a total at a point that is not null is out of range; otherwise it fails only if
/// memory runs out. It takes the time of a sort.
pub fn flow_to_stock(
    alloc: Global,
    a: &DataSet,
    made: &Structure,
    p: &Profile,
) -> Result<DataSet, ScalarErr>
    requires { IsFlowed a.now.structure made.now }
    ensures { Answers result (with_structure made.now (stock_of p.now a.now made.now)) }
{
    let table = flow_table(alloc, a, made, Along::Totals, p);
    DataSet::answered(alloc, made, table)
}

/// At each point, for each measure, the value less that of the point before it in its series; the first point of a series
/// keeps its values. As a data set of the structure that typing gives, which has the identifiers and measures of the
/// operand. The answer is Range where a difference is out of range; otherwise it fails only if memory runs out. It takes
/// the time of a sort.
pub fn stock_to_flow(
    alloc: Global,
    a: &DataSet,
    made: &Structure,
    p: &Profile,
) -> Result<DataSet, ScalarErr>
    requires { IsFlowed a.now.structure made.now }
    ensures { Answers result (with_structure made.now (flow_of p.now a.now made.now)) }
{
    let table = flow_table(alloc, a, made, Along::Previous, p);
    DataSet::answered(alloc, made, table)
}
