// The columns of the result.
ghost use Rattle.std.specs.Prelude.{◌≡◌, IfErr, IfOk, map};
ghost use Rattle.vtl_cell.specs.Outcome.{join, unless};
ghost use Rattle.vtl_scalar.specs.Answers.{AnswersBy};
ghost use Rattle.vtl_tree.specs.Shown.{shown};
ghost use Rattle.vtl_tree.specs.Structure.{columns_of};
ghost use Rattle.vtl_tree.specs.Value.{value};
ghost use Rattle.vtl_tree.specs.View.{comp_exp_of};
ghost use Rattle.vtl_expr.specs.Prepared.{prepared_exp};
ghost use Rattle.vtl_scalar.specs.Seen.{seen_of};
ghost use Rattle.vtl_meaning.specs.Analytics.{made_of, tree_value};
ghost use Rattle.vtl_tree.specs.Columns.{place_of};
ghost use Rattle.vtl_meaning.specs.Made.{AreValuesOver, IsValueOver};
ghost use Rattle.vtl_tree.specs.NodeView.{analytic_tree};
ghost use Rattle.vtl_window.specs.Analyses.{cells_by, cells_in, faults_of, made_cells, made_faults};
ghost use Rattle.vtl_window.specs.Calls.{maker_tree};

use crate::column::Column;
use crate::faults::noted;
use crate::maker::{Maker, maker_of};
use crate::values::call_cells;
use std::alloc::{AllocError, Global};
use vtl_cell::{Cell, Kind};
use vtl_decimal::Profile;
use vtl_expr::{Point, Prepared, prepare};
use vtl_rows::Table;
use vtl_scalar::{ScalarErr, Seen};
use vtl_sets::DataSet;
use vtl_text::Txt;
use vtl_tree::{AnalyticSpec, CompExpr, Component, place_of};

// The values of an expression at the rows of a table; a null stands for a value with a fault, which is noted.
fn computed_cells(
    alloc: Global,
    seen: &mut Seen,
    e: &Prepared,
    table: &Table,
    p: &Profile,
) -> Result<Vec<Cell>, ScalarErr>
    ensures cells { IfOk result (λ v. v.items ≡ cells_by (value p.now (prepared_exp e.now)) table.now.rows) }
    ensures seen { IfOk result (λ _. seen_of seen.new ≡ join (seen_of seen.old) (faults_of (value p.now (prepared_exp e.now)) table.now.rows)) }
    ensures err { IfErr result (λ e. e ≡ ScalarErr.OutOfMemory) }
{
    let mut cells = Vec::with_capacity(alloc, table.len())?;
    for i in 0..table.len() {
        cells.push(noted(seen, Point::of(table.row(i)).cell(alloc, e, p))?)?;
    }
    Ok(cells)
}

// The same of an expression as it is written, at the points of a data set.
fn scalar_cells(
    alloc: Global,
    seen: &mut Seen,
    e: &CompExpr,
    a: &DataSet,
    p: &Profile,
) -> Result<Vec<Cell>, ScalarErr>
    ensures cells { IfOk result (λ v. v.items ≡ cells_by (value p.now (comp_exp_of e.now)) a.now.points) }
    ensures seen { IfOk result (λ _. seen_of seen.new ≡ join (seen_of seen.old) (faults_of (value p.now (comp_exp_of e.now)) a.now.points)) }
    ensures err { IfErr result (λ e. e ≡ ScalarErr.OutOfMemory) }
{
    let prepared = prepare(alloc, e)?;
    computed_cells(alloc, seen, &prepared, a.table(), p)
}

// What is made for a column of the kind at the points of a data set; a null stands for a value with a fault, which is
// noted.
fn cells_made(
    alloc: Global,
    seen: &mut Seen,
    maker: Maker<'_>,
    kind: Kind,
    a: &DataSet,
    p: &Profile,
) -> Result<Vec<Cell>, ScalarErr>
    requires { IsValueOver p.now (columns_of a.now.structure) (maker_tree maker) }
    ensures cells { IfOk result (λ v. v.items ≡ cells_by (tree_value p.now a.now kind (maker_tree maker.entry)) a.now.points) }
    ensures seen { IfOk result (λ _. seen_of seen.new ≡ join (seen_of seen.old) (faults_of (tree_value p.now a.now kind (maker_tree maker.entry)) a.now.points)) }
    ensures err { IfErr result (λ e. e ≡ ScalarErr.OutOfMemory) }
{
    match maker {
        Maker::Scalar(e) => scalar_cells(alloc, seen, e, a, p),
        Maker::Analytic(call) => call_cells(alloc, seen, call, kind, a, p),
    }
}

// The place of the column of a name.
fn own_place(alloc: Global, name: &Txt, a: &DataSet) -> Result<usize, AllocError>
    ensures { IfOk result (λ place. place ≡ place_of name.now (columns_of a.now.structure)) }
{
    let columns = a.structure().columns(alloc)?;
    Ok(place_of(&columns, name))
}

/// A column of the result: what is made of its name, or the column as it was. A null stands for a value with a fault,
/// which is noted.
pub(crate) fn made_column(
    alloc: Global,
    seen: &mut Seen,
    spec: &AnalyticSpec,
    column: &Component,
    a: &DataSet,
    p: &Profile,
) -> Result<Column, ScalarErr>
    requires { AreValuesOver p.now (columns_of a.now.structure) (analytic_tree spec.now) }
    ensures cells { IfOk result (λ c. cells_in a.now.points c ≡ cells_by (made_of p.now (analytic_tree spec.now) a.now column.now) a.now.points) }
    ensures seen { IfOk result (λ _. seen_of seen.new ≡ join (seen_of seen.old) (faults_of (made_of p.now (analytic_tree spec.now) a.now column.now) a.now.points)) }
    ensures err { IfErr result (λ e. e ≡ ScalarErr.OutOfMemory) }
{
    match maker_of(spec, column) {
        Some(maker) => {
            let cells = cells_made(alloc, seen, maker, column.kind, a, p)?;
            Ok(Column::Made(cells.into_iter()))
        }
        None => Ok(Column::Own(own_place(alloc, &column.name, a)?)),
    }
}

/// The columns of the result. The answer is DivZero where a value divides by zero, otherwise Range where one is out of
/// range; otherwise it fails only if memory runs out.
pub(crate) fn made_columns(
    alloc: Global,
    spec: &AnalyticSpec,
    wanted: &[&Component],
    a: &DataSet,
    p: &Profile,
) -> Result<Vec<Column>, ScalarErr>
    requires { AreValuesOver p.now (columns_of a.now.structure) (analytic_tree spec.now) }
    ensures { AnswersBy (λ v. map (cells_in a.now.points) v.items) result (unless (made_faults (made_of p.now (analytic_tree spec.now) a.now) (shown wanted.now) a.now.points) (made_cells (made_of p.now (analytic_tree spec.now) a.now) (shown wanted.now) a.now.points)) }
{
    let mut columns = Vec::with_capacity(alloc, wanted.len())?;
    let mut seen = Seen::Nothing;
    for column in wanted {
        columns.push(made_column(alloc, &mut seen, spec, column, a, p)?)?;
    }
    seen.unless(columns)
}
