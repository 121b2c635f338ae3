// `check_hierarchy`
//
// One rule after the other goes over all combinations: so the points of the result stand as the definition lists them.
ghost use Rattle.std.specs.List.{AllByRecursion, filter_map};
ghost use Rattle.std.specs.Option.{option_and_then, option_to_list};
ghost use Rattle.std.specs.Prelude.{◌≡◌, ◌<◌, true, ◌++◌, ◌∷◌, [], length, IfErr, IfOk, IfSome, OnOk};
ghost use Rattle.vtl_cell.specs.Literals.{integer_written};
ghost use Rattle.vtl_cell.specs.Outcome.{fault_in, faults_by, join};
ghost use Rattle.vtl_rows.specs.Tables.{fits, listed};
ghost use Rattle.vtl_scalar.specs.Answers.{Answers, AnswersBy};
ghost use Rattle.vtl_scalar.specs.Seen.{seen_of};
ghost use Rattle.vtl_tree.specs.Checks.{output_parts, rule_id};
ghost use Rattle.vtl_tree.specs.ClauseShapes.{first_kind};
ghost use Rattle.vtl_tree.specs.Columns.{measures_of};
ghost use Rattle.vtl_sets.specs.DataSets.{with_structure};
ghost use Rattle.vtl_sets.specs.TableOf.{IsTableOf};
ghost use Rattle.vtl_meaning.specs.Points.{cell_or_null};
ghost use Rattle.vtl_rulings.specs.HierarchyChecks.{check_hierarchy_of, ruled_by};
ghost use Rattle.vtl_rulings.specs.HierarchyShapes.{IsHierarchyChecked};
ghost use Rattle.vtl_rulings.specs.Modes.{counted};
ghost use Rattle.vtl_rulings.specs.Outputs.{errors_at};
ghost use Rattle.vtl_rules.specs.Itemized.{numbers_of};
ghost use Rattle.vtl_rules.specs.SideValues.{checked_at, fault_at, less_between, right_value, sided_of, truth_between};

use crate::datapoints::noted;
use crate::items::{Asking, ItemPoints, Source, right_sources};
use crate::outputs::{Errors, is_shown};
use crate::rulings::rule_id;
use crate::sides::{appears_with, counted, left_item, less_between, right_value, truth_between};
use std::alloc::{AllocError, Global};
use std::marker::{Brand, Model};
use std::sync::ledger::{Blank, Ledger};
use vtl_cell::{Cell, Kind, clone_cell, integer_written};
use vtl_decimal::Profile;
use vtl_expr::Points;
use vtl_index::Steps;
use vtl_rows::Table;
use vtl_scalar::{ScalarErr, Seen};
use vtl_sets::DataSet;
use vtl_syntax::{CheckOut, HierInput, HierRule, Mode};
use vtl_text::{ByName, List, Txt};
use vtl_tree::{HierRules, Role, Structure};

// A rule as it is checked: its identifier, where it takes its items from, and its errors.
pub(crate) struct Sided<'a> {
    id: Txt,
    rule: &'a HierRule,
    left: Source<'a>,
    right: Vec<Source<'a>>,
    errors: Errors,
}

// Written out, so that an owner sees one call.
impl<'a> Drop for Sided<'a> {
    fn drop(self) {
        let Sided {
            id: _id,
            rule: _,
            left: _left,
            right: _right,
            errors: _errors,
        } = self;
    }
}

impl<'a> Model for Sided<'a> {
    ghost use Rattle.vtl_rules.specs.SideValues as values;

    ghost Value = { values.Sided };

    ghost view = { λ x. record { id = x.id; rule = x.rule.now; left = x.left; right = x.right.items; code = x.errors.code; level = x.errors.level } };
}

// The level of an error, where one is written and in range.
fn error_level(p: &Profile, level: &Option<Txt>) -> Option<i64>
    ensures { result ≡ option_and_then (integer_written p.now) level.now }
{
    match level {
        Some(digits) => integer_written(p, digits),
        None => None,
    }
}

impl<'a> Sided<'a> {
    // The rule of a number, ready to be checked, where nothing is computed of items.
    fn of(
        alloc: Global,
        number: usize,
        rule: &'a HierRule,
        nothing: &'a ByName<List<Option<Cell>>>,
        p: &Profile,
    ) -> Result<Sided<'a>, AllocError>
        requires { nothing.now ≡ [] }
        ensures { IfOk result (λ x. x ≡ sided_of p.now (rule_id number rule.now.name, rule.now)) }
    {
        Ok(Sided {
            id: rule_id(alloc, number, &rule.name)?,
            rule,
            left: Source::of(left_item(rule), HierInput::Dataset, nothing),
            right: right_sources(alloc, rule, HierInput::Dataset, nothing)?,
            errors: Errors::of(&rule.error.code, error_level(p, &rule.error.level))?,
        })
    }
}

// A check: the operand's items, an output, a mode, and the kind of the items' values.
pub(crate) struct Check<'a> {
    items: ItemPoints<'a>,
    out: CheckOut,
    mode: Mode,
    kind: Kind,
}

// Written out, so that an owner sees one call.
impl<'a> Drop for Check<'a> {
    fn drop(self) {
        let Check {
            items: _items,
            out: _,
            mode: _,
            kind: _,
        } = self;
    }
}

// What a rule finds at a combination: the left side, how the sides compare, and the left one less the right one.
struct Finding {
    left: Cell,
    truth: Cell,
    less: Cell,
}

// Written out, so that an owner sees one call.
impl Drop for Finding {
    fn drop(self) {
        let Finding {
            left: _left,
            truth: _truth,
            less: _less,
        } = self;
    }
}

impl Finding {
    // Of what there is of the items; the faults of both are noted.
    fn of(
        alloc: Global,
        seen: &mut Seen,
        check: &Check<'_>,
        rule: &HierRule,
        left: &Option<Cell>,
        right: &[Option<Cell>],
        p: &Profile,
    ) -> Result<Finding, ScalarErr>
        ensures left { IfOk result (λ x. x.left ≡ counted check.now.mode check.now.kind left.now) }
        ensures truth { IfOk result (λ x. x.truth ≡ cell_or_null (truth_between p.now rule.now (counted check.now.mode check.now.kind left.now) (right_value p.now check.now.mode check.now.kind rule.now right.now))) }
        ensures less { IfOk result (λ x. x.less ≡ cell_or_null (less_between p.now check.now.kind (counted check.now.mode check.now.kind left.now) (right_value p.now check.now.mode check.now.kind rule.now right.now))) }
        ensures seen { OnOk result (seen_of seen.new ≡ join (seen_of seen.old) (join (fault_in (truth_between p.now rule.now (counted check.now.mode check.now.kind left.now) (right_value p.now check.now.mode check.now.kind rule.now right.now))) (fault_in (less_between p.now check.now.kind (counted check.now.mode check.now.kind left.now) (right_value p.now check.now.mode check.now.kind rule.now right.now))))) }
        ensures err { IfErr result (λ e. e ≡ ScalarErr.OutOfMemory) }
    {
        let left = counted(check.mode, check.kind, left)?;
        let right = right_value(alloc, check.mode, check.kind, rule, right, p);
        let truth = noted(seen, truth_between(alloc, rule, &left, &right, p))?;
        let less = noted(seen, less_between(alloc, check.kind, &left, &right, p))?;
        Ok(Finding { left, truth, less })
    }

    // Puts what an output shows of it behind other cells.
    fn push(self, cells: &mut Vec<Cell>, out: CheckOut, errors: &Errors) -> Result<(), AllocError>
        ensures { OnOk result (cells.new.items ≡ cells.old.items ++ output_parts out (self.left ∷ []) self.truth (self.less ∷ errors_at errors.now.code errors.now.level self.truth)) }
    {
        let Finding { left, truth, less } = self;
        match out {
            CheckOut::Invalid => cells.push(left)?,
            CheckOut::All => cells.push(clone_cell(&truth)?)?,
            CheckOut::AllMeasures => {
                cells.push(left)?;
                cells.push(clone_cell(&truth)?)?;
            }
        }
        cells.push(less)?;
        errors.push(cells, &truth)
    }
}

// Adds the point of a rule at a combination, where it has one and the output shows it.
fn push_point<L: Ledger>(
    alloc: Global,
    points: &mut Points,
    check: &Check<'_>,
    x: &Sided<'_>,
    at: &mut Asking<L>,
    number: usize,
    p: &Profile,
) -> Result<(), ScalarErr>
    requires within { number < length check.now.items.leading }
    requires fits { IfSome (checked_at p.now check.now.out check.now.mode check.now.kind check.now.items x.now number) (λ q. fits points.old.table.columns q ≡ true) }
    ensures columns { points.new.table.columns ≡ points.old.table.columns }
    ensures rows { OnOk result (points.new.table.rows ≡ points.old.table.rows ++ option_to_list (checked_at p.now check.now.out check.now.mode check.now.kind check.now.items x.now number)) }
    ensures seen { OnOk result (seen_of points.new.seen ≡ join (seen_of points.old.seen) (fault_at p.now check.now.out check.now.mode check.now.kind check.now.items x.now number)) }
    ensures err { IfErr result (λ e. e ≡ ScalarErr.OutOfMemory) }
{
    check.items.begin(at, number)?;
    let left = check.items.taken(at, &x.left)?;
    check.items.find(at, &x.right)?;
    if !appears_with(check.mode, &left, &at.found) {
        return Ok(());
    }
    let finding = Finding::of(alloc, &mut points.seen, check, x.rule, &left, &at.found, p)?;
    if is_shown(check.out, &finding.truth) {
        check.items.begin_point(points, at, left_item(x.rule))?;
        points.cells.push(Cell::Text(x.id.share()?))?;
        finding.push(&mut points.cells, check.out, &x.errors)?;
        points.add()?;
    }
    Ok(())
}

// Adds the points of a rule at all combinations.
fn push_rule<L: Ledger>(
    alloc: Global,
    points: &mut Points,
    check: &Check<'_>,
    x: &Sided<'_>,
    at: &mut Asking<L>,
    p: &Profile,
) -> Result<(), ScalarErr>
    requires { AllByRecursion (λ n. IfSome (checked_at p.now check.now.out check.now.mode check.now.kind check.now.items x.now n) (λ q. fits points.old.table.columns q ≡ true)) (numbers_of check.now.items) }
    ensures columns { points.new.table.columns ≡ points.old.table.columns }
    ensures rows { OnOk result (points.new.table.rows ≡ points.old.table.rows ++ filter_map (checked_at p.now check.now.out check.now.mode check.now.kind check.now.items x.now) (numbers_of check.now.items)) }
    ensures seen { OnOk result (seen_of points.new.seen ≡ join (seen_of points.old.seen) (faults_by (fault_at p.now check.now.out check.now.mode check.now.kind check.now.items x.now) (numbers_of check.now.items))) }
    ensures err { IfErr result (λ e. e ≡ ScalarErr.OutOfMemory) }
{
    for number in 0..check.items.len() {
        push_point(alloc, points, check, x, at, number, p)?;
    }
    Ok(())
}

// The kind of the first measure of a structure.
pub(crate) fn measured_kind(alloc: Global, a: &Structure) -> Result<Kind, AllocError>
    ensures { IfOk result (λ kind. kind ≡ first_kind (measures_of a.now)) }
{
    let measures = a.of_role(alloc, Role::Measure)?;
    match measures.first() {
        Some(measure) => Ok(measure.kind),
        None => Ok(Kind::Null),
    }
}

fn checked_table<L: Ledger>(
    alloc: Global,
    a: &DataSet,
    rules: &HierRules,
    mode: Mode,
    out: CheckOut,
    p: &Profile,
    made: &Structure,
    blank: Blank,
) -> Result<Table, ScalarErr>
    requires name { blank.name ≡ L.name }
    requires parts { blank.parts ≡ L.parts }
    requires some { 0 < L.parts }
    requires made { IsHierarchyChecked out (ruled_by rules.now a.now.structure) rules.now.rules a.now.structure made.now }
    ensures table { IfOk result (λ t. IsTableOf made.now (listed t)) }
    ensures rows { AnswersBy (λ t. t.rows) result (check_hierarchy_of p.now out (ruled_by rules.now a.now.structure) mode a.now rules.now.rules) }
{
    let mut steps: Steps<L> = Steps::new(blank);
    let items = ItemPoints::of(alloc, a, &rules.variable, &mut steps)?;
    let kind = measured_kind(alloc, a.structure())?;
    let check = Check {
        items,
        out,
        mode,
        kind,
    };
    let mut at = Asking::new(alloc, steps);
    let nothing = ByName::new(alloc);
    let written = rules.rules.as_slice();
    let mut points = Points::new(alloc, made, 0)?;
    for i in 0..written.len() {
        let rule = Sided::of(alloc, i + 1, &written[i], &nothing, p)?;
        push_rule(alloc, &mut points, &check, &rule, &mut at, p)?;
    }
    points.finish()
}

/// A point for each rule and each combination of the other identifiers that the operand has, where the mode gives the
/// rule a point and the output shows it, as a data set of the structure that typing gives: the identifiers with the
/// item on the left, that of the rule, and the cells that the output wants. Both sides are compared and subtracted
/// wherever a rule has a point, whatever the output. It takes time that is linear in the number of points, and for each
/// rule and combination one look-up for each item. The answer is Range where any of these is out of range; otherwise it
/// fails only if memory runs out.
pub fn check_hierarchy(
    alloc: Global,
    a: &DataSet,
    rules: &HierRules,
    mode: Mode,
    out: CheckOut,
    p: &Profile,
    made: &Structure,
) -> Result<DataSet, ScalarErr>
    requires { IsHierarchyChecked out (ruled_by rules.now a.now.structure) rules.now.rules a.now.structure made.now }
    ensures { Answers result (with_structure made.now (check_hierarchy_of p.now out (ruled_by rules.now a.now.structure) mode a.now rules.now.rules)) }
{
    let table = checked_table::<Brand>(alloc, a, rules, mode, out, p, made, Blank::new(1));
    DataSet::answered(alloc, made, table)
}
