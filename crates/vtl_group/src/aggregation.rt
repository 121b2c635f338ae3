// Aggregates of data sets.
//
// One walk over the groups: the condition, then the columns where it keeps the group, with one joined fault. That
// this is the condition at all groups and then the columns at those that are kept is list calculus (`faults_apart`).
ghost use Rattle.std.specs.Prelude.{◌≡◌, IfOk, map, option_map};
ghost use Rattle.vtl_rows.specs.Tables.{listed};
ghost use Rattle.vtl_meaning.specs.Aggregates.{aggregate_of};
ghost use Rattle.vtl_meaning.specs.AggregateShapes.{IsAggregated};
ghost use Rattle.vtl_tree.specs.Columns.{others_of};
ghost use Rattle.vtl_sets.specs.DataSets.{with_structure};
ghost use Rattle.vtl_sets.specs.TableOf.{IsTableOf};
ghost use Rattle.vtl_expr.specs.Prepared.{prepared_exp};
ghost use Rattle.vtl_group.specs.Calls.{column_place, placed_for};
ghost use Rattle.vtl_group.specs.Points.{SameCondition};
ghost use Rattle.vtl_tree.specs.NodeView.{agg_tree};
ghost use Rattle.vtl_scalar.specs.Answers.{Answers, AnswersBy};
ghost use Rattle.vtl_tree.specs.Shown.{shown};
ghost use Rattle.vtl_tree.specs.View.{comp_exp_of};

use crate::calls::{Call, call_for, column_place};
use crate::recipe::Recipe;
use std::alloc::{AllocError, Global};
use vtl_decimal::Profile;
use vtl_expr::{Points, Prepared, prepare};
use vtl_index::Groups;
use vtl_rows::{Column, Table};
use vtl_scalar::ScalarErr;
use vtl_sets::DataSet;
use vtl_text::Txt;
use vtl_tree::{AggItems, AggSpec, CompExpr, Component, Structure};

// The places of columns by their names.
fn column_places(alloc: Global, columns: &[Column], names: &[Txt]) -> Result<Vec<usize>, AllocError>
    ensures { IfOk result (λ v. v.items ≡ map (λ name. column_place name columns.now) names.now) }
{
    let mut places = Vec::with_capacity(alloc, names.len())?;
    for name in names {
        places.push(column_place(columns, name))?;
    }
    Ok(places)
}

// The aggregates that make columns.
fn calls_of(
    alloc: Global,
    columns: &[Column],
    items: &AggItems,
    wanted: &[&Component],
) -> Result<Vec<Call>, AllocError>
    ensures { IfOk result (λ v. v.items ≡ map (λ y. placed_for columns.now items.now y.name) (shown wanted.now)) }
{
    let mut calls = Vec::with_capacity(alloc, wanted.len())?;
    for column in wanted {
        calls.push(call_for(columns, items, &column.name))?;
    }
    Ok(calls)
}

// The aggregates that make the columns behind the identifiers.
fn calls_for(
    alloc: Global,
    columns: &[Column],
    items: &AggItems,
    made: &Structure,
) -> Result<Vec<Call>, AllocError>
    ensures { IfOk result (λ v. v.items ≡ map (λ y. placed_for columns.now items.now y.name) (others_of made.now)) }
{
    let identifiers = made.key_width();
    let all = made.columns(alloc)?;
    calls_of(alloc, columns, items, &all[identifiers..])
}

// The condition of groups, prepared.
#[tactic(auto, using(crate::proofs::Conditions::same_condition))]
fn prepared_condition(
    alloc: Global,
    having: &Option<CompExpr>,
) -> Result<Option<Prepared>, AllocError>
    ensures { IfOk result (λ x. SameCondition (option_map prepared_exp x) (option_map comp_exp_of having.now)) }
{
    match having {
        Some(condition) => Ok(Some(prepare(alloc, condition)?)),
        None => Ok(None),
    }
}

fn recipe_of<'a>(
    alloc: Global,
    table: &'a Table,
    spec: &'a AggSpec,
    made: &Structure,
) -> Result<Recipe<'a>, AllocError>
    ensures table { IfOk result (λ r. r.table.now ≡ table.now) }
    ensures names { IfOk result (λ r. r.names.now ≡ spec.now.grouping) }
    ensures places { IfOk result (λ r. r.places.items ≡ map (λ name. column_place name table.now.columns) spec.now.grouping) }
    ensures having { IfOk result (λ r. SameCondition (option_map prepared_exp r.having) (option_map comp_exp_of spec.now.having)) }
    ensures calls { IfOk result (λ r. r.calls.items ≡ map (λ y. placed_for table.now.columns spec.now.items y.name) (others_of made.now)) }
{
    let names = spec.grouping.as_slice();
    let columns = table.columns();
    Ok(Recipe {
        table,
        names,
        places: column_places(alloc, columns, names)?,
        having: prepared_condition(alloc, &spec.having)?,
        calls: calls_for(alloc, columns, &spec.items, made)?,
    })
}

fn aggregated_table(
    alloc: Global,
    a: &DataSet,
    spec: &AggSpec,
    made: &Structure,
    p: &Profile,
) -> Result<Table, ScalarErr>
    requires { IsAggregated (agg_tree spec.now) a.now.structure made.now }
    ensures table { IfOk result (λ t. IsTableOf made.now (listed t)) }
    ensures rows { AnswersBy (λ t. t.rows) result (aggregate_of p.now (agg_tree spec.now) a.now made.now) }
{
    let table = a.table();
    let recipe = recipe_of(alloc, table, spec, made)?;
    let groups = Groups::by(alloc, table, &recipe.places)?;
    let mut points = Points::new(alloc, made, 0)?;
    for group in 0..groups.len() {
        recipe.push(alloc, &mut points, groups.rows(group), p)?;
    }
    points.finish()
}

/// The aggregates of each group of points, as a data set of the structure that typing gives: a point for each group at
/// which the condition is true, in the order of the groups' first points. It takes time that is linear in the points,
/// and no choice of cells makes it slower than a sort; besides the result it takes at most 24 bytes a point, and a
/// median those of a group's values.
///
/// DivZero where the condition at some group divides by zero; otherwise Range where the condition at some group, or an
/// aggregate of one that is kept, is out of range; otherwise it fails only if memory runs out.
pub fn aggregate(
    alloc: Global,
    a: &DataSet,
    spec: &AggSpec,
    made: &Structure,
    p: &Profile,
) -> Result<DataSet, ScalarErr>
    requires { IsAggregated (agg_tree spec.now) a.now.structure made.now }
    ensures { Answers result (with_structure made.now (aggregate_of p.now (agg_tree spec.now) a.now made.now)) }
{
    let table = aggregated_table(alloc, a, spec, made, p);
    DataSet::answered(alloc, made, table)
}
