// Analytic operators on data sets.
ghost use Rattle.std.specs.Prelude.{IfOk};
ghost use Rattle.vtl_rows.specs.Tables.{listed};
ghost use Rattle.vtl_scalar.specs.Answers.{Answers, AnswersBy};
ghost use Rattle.vtl_meaning.specs.Analytics.{analytic_of};
ghost use Rattle.vtl_sets.specs.DataSets.{with_structure};
ghost use Rattle.vtl_meaning.specs.Made.{IsWindowed};
ghost use Rattle.vtl_sets.specs.TableOf.{IsTableOf};
ghost use Rattle.vtl_tree.specs.NodeView.{analytic_tree};

use crate::column::push_across;
use crate::columns::made_columns;
use std::alloc::Global;
use vtl_decimal::Profile;
use vtl_rows::Table;
use vtl_scalar::ScalarErr;
use vtl_sets::{DataSet, new_table};
use vtl_tree::{AnalyticSpec, Structure};

fn analyzed_table(
    alloc: Global,
    a: &DataSet,
    spec: &AnalyticSpec,
    made: &Structure,
    p: &Profile,
) -> Result<Table, ScalarErr>
    requires { IsWindowed p.now (analytic_tree spec.now) a.now.structure made.now }
    ensures table { IfOk result (λ t. IsTableOf made.now (listed t)) }
    ensures rows { AnswersBy (λ t. t.rows) result (analytic_of p.now (analytic_tree spec.now) a.now made.now) }
{
    let table = a.table();
    let wanted = made.columns(alloc)?;
    let mut columns = made_columns(alloc, spec, &wanted, a, p)?;
    let mut points = new_table(alloc, made)?;
    points.reserve_rows(table.len())?;
    let mut row = Vec::with_capacity(alloc, columns.len())?;
    for i in 0..table.len() {
        push_across(&mut row, &mut columns, table.row(i))?;
        points.push_moved(&mut row)?;
    }
    Ok(points)
}

/// The values of an analytic operator at each point, as a data set of the structure that typing gives: its points are
/// those of the operand, in its order, with what is made in place of the columns of its names. All values see the points
/// of the operand. It takes the time of a sort for each call, less where the points stand in its order already; and besides the
/// result the memory of each column that is made, and of the numbers of the points.
///
/// DivZero where a value at some point divides by zero; otherwise Range where one is out of range; otherwise it fails
/// only if memory runs out.
pub fn analytic(
    alloc: Global,
    a: &DataSet,
    spec: &AnalyticSpec,
    made: &Structure,
    p: &Profile,
) -> Result<DataSet, ScalarErr>
    requires { IsWindowed p.now (analytic_tree spec.now) a.now.structure made.now }
    ensures { Answers result (with_structure made.now (analytic_of p.now (analytic_tree spec.now) a.now made.now)) }
{
    let table = analyzed_table(alloc, a, spec, made, p);
    DataSet::answered(alloc, made, table)
}
