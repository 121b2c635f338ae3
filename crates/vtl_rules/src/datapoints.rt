// `check_datapoint`
//
// One rule after the other goes over all rows: so the points of the result stand as the definition lists them, and a
// fault is noted wherever it is, also where the output shows no point.
ghost use Rattle.std.specs.List.{AllByRecursion, filter_map};
ghost use Rattle.std.specs.Option.{option_to_list};
ghost use Rattle.std.specs.Prelude.{◌≡◌, true, ◌++◌, IfErr, IfOk, IfSome, OnOk};
ghost use Rattle.vtl_cell.specs.Outcome.{Outcome, fault_in, faults_by, join};
ghost use Rattle.vtl_cell.specs.declared.cell.Cell.{Cell};
ghost use Rattle.vtl_rows.specs.Tables.{fits, listed};
ghost use Rattle.vtl_scalar.specs.Answers.{Answers, AnswersBy};
ghost use Rattle.vtl_scalar.specs.Seen.{seen_of};
ghost use Rattle.vtl_tree.specs.Columns.{identifiers_of, measures_of, places_in};
ghost use Rattle.vtl_tree.specs.NodeView.{point_rules_tree};
ghost use Rattle.vtl_tree.specs.Structure.{columns_of};
ghost use Rattle.vtl_sets.specs.DataSets.{with_structure};
ghost use Rattle.vtl_sets.specs.TableOf.{IsTableOf};
ghost use Rattle.vtl_meaning.specs.Points.{cell_or_null};
ghost use Rattle.vtl_rulings.specs.PointChecks.{datapoint_of};
ghost use Rattle.vtl_rulings.specs.Shaped.{IsPointChecked};
ghost use Rattle.vtl_rules.specs.Rulings.{ruling, shown_by, wanted_of};

use crate::outputs::{is_shown, push_parts};
use crate::rulings::Rule;
use std::alloc::{AllocError, Global};
use std::marker::Model;
use vtl_cell::Cell;
use vtl_decimal::Profile;
use vtl_expr::{Point, Points, places_in};
use vtl_rows::Table;
use vtl_scalar::{ScalarErr, Seen};
use vtl_sets::DataSet;
use vtl_syntax::CheckOut;
use vtl_tree::{DatapointRules, Role, Structure};

// What is shown: an output, and the places of the identifiers and the measures.
pub(crate) struct Wanted {
    out: CheckOut,
    identifiers: Vec<usize>,
    measures: Vec<usize>,
}

// Written out, so that an owner sees one call.
impl Drop for Wanted {
    fn drop(self) {
        let Wanted {
            out: _,
            identifiers: _identifiers,
            measures: _measures,
        } = self;
    }
}

impl Model for Wanted {
    ghost use Rattle.vtl_rules.specs.Rulings as rulings;

    ghost Value = { rulings.Wanted };

    ghost view = { λ x. record { out = x.out; identifiers = x.identifiers.items; measures = x.measures.items } };
}

impl Wanted {
    // What an output shows of points of a structure.
    fn of(alloc: Global, a: &Structure, out: CheckOut) -> Result<Wanted, AllocError>
        ensures { IfOk result (λ x. x ≡ wanted_of out a.now) }
    {
        let identifiers = a.identifiers(alloc)?;
        let measures = a.of_role(alloc, Role::Measure)?;
        Ok(Wanted {
            out,
            identifiers: places_in(alloc, a, &identifiers)?,
            measures: places_in(alloc, a, &measures)?,
        })
    }
}

// The value, or null in the place of a fault, which is noted.
pub(crate) fn noted(seen: &mut Seen, value: Result<Cell, ScalarErr>) -> Result<Cell, ScalarErr>
    ensures value { (m : Outcome Cell) → Answers value m → IfOk result (λ v. v ≡ cell_or_null m) }
    ensures seen { (m : Outcome Cell) → Answers value m → OnOk result (seen_of seen.new ≡ join (seen_of seen.old) (fault_in m)) }
    ensures err { IfErr result (λ e. e ≡ ScalarErr.OutOfMemory) }
{
    match value {
        Ok(cell) => Ok(cell),
        Err(error) => {
            *seen = seen.and(error)?;
            Ok(Cell::Null)
        }
    }
}

// Adds the point of a rule at a row, where the output shows one.
fn push_point(
    alloc: Global,
    points: &mut Points,
    wanted: &Wanted,
    rule: &Rule,
    row: &[Cell],
    p: &Profile,
) -> Result<(), ScalarErr>
    requires { IfSome (shown_by p.now wanted.now (ruling rule.now) row.now) (λ q. fits points.old.table.columns q ≡ true) }
    ensures columns { points.new.table.columns ≡ points.old.table.columns }
    ensures rows { OnOk result (points.new.table.rows ≡ points.old.table.rows ++ option_to_list (shown_by p.now wanted.now (ruling rule.now) row.now)) }
    ensures seen { OnOk result (seen_of points.new.seen ≡ join (seen_of points.old.seen) (fault_in ((ruling rule.now).truth p.now row.now))) }
    ensures err { IfErr result (λ e. e ≡ ScalarErr.OutOfMemory) }
{
    let truth = noted(&mut points.seen, rule.truth(alloc, &Point::of(row), p))?;
    if is_shown(wanted.out, &truth) {
        points.begin(row, &wanted.identifiers)?;
        points.cells.push(Cell::Text(rule.id.share()?))?;
        push_parts(
            &mut points.cells,
            wanted.out,
            row,
            &wanted.measures,
            &truth,
            &rule.errors,
        )?;
        points.add()?;
    }
    Ok(())
}

// Adds the points of a rule at all rows.
fn push_rule(
    alloc: Global,
    points: &mut Points,
    wanted: &Wanted,
    rule: &Rule,
    table: &Table,
    p: &Profile,
) -> Result<(), ScalarErr>
    requires { AllByRecursion (λ r. IfSome (shown_by p.now wanted.now (ruling rule.now) r) (λ q. fits points.old.table.columns q ≡ true)) table.now.rows }
    ensures columns { points.new.table.columns ≡ points.old.table.columns }
    ensures rows { OnOk result (points.new.table.rows ≡ points.old.table.rows ++ filter_map (shown_by p.now wanted.now (ruling rule.now)) table.now.rows) }
    ensures seen { OnOk result (seen_of points.new.seen ≡ join (seen_of points.old.seen) (faults_by (λ r. fault_in ((ruling rule.now).truth p.now r)) table.now.rows)) }
    ensures err { IfErr result (λ e. e ≡ ScalarErr.OutOfMemory) }
{
    for i in 0..table.len() {
        push_point(alloc, points, wanted, rule, table.row(i), p)?;
    }
    Ok(())
}

fn ruled_table(
    alloc: Global,
    a: &DataSet,
    rules: &DatapointRules,
    out: CheckOut,
    p: &Profile,
    made: &Structure,
) -> Result<Table, ScalarErr>
    requires { IsPointChecked p.now out (point_rules_tree rules.now).rules a.now.structure made.now }
    ensures table { IfOk result (λ t. IsTableOf made.now (listed t)) }
    ensures rows { AnswersBy (λ t. t.rows) result (datapoint_of p.now out (point_rules_tree rules.now).rules a.now) }
{
    let wanted = Wanted::of(alloc, a.structure(), out)?;
    let table = a.table();
    let written = rules.rules.as_slice();
    let mut points = Points::new(alloc, made, 0)?;
    for i in 0..written.len() {
        let rule = Rule::of(alloc, i + 1, &written[i])?;
        push_rule(alloc, &mut points, &wanted, &rule, table, p)?;
    }
    points.finish()
}

/// A point for each rule and each point at which the output shows one, as a data set of the structure that typing
/// gives: the identifiers, that of the rule, and the cells that the output wants. Every rule is evaluated at every
/// point, whatever the output. The answer is DivZero where any rule divides by zero at any point, otherwise Range where
/// any is out of range; otherwise it fails only if memory runs out.
pub fn check_datapoint(
    alloc: Global,
    a: &DataSet,
    rules: &DatapointRules,
    out: CheckOut,
    p: &Profile,
    made: &Structure,
) -> Result<DataSet, ScalarErr>
    requires { IsPointChecked p.now out (point_rules_tree rules.now).rules a.now.structure made.now }
    ensures { Answers result (with_structure made.now (datapoint_of p.now out (point_rules_tree rules.now).rules a.now)) }
{
    let table = ruled_table(alloc, a, rules, out, p, made);
    DataSet::answered(alloc, made, table)
}
