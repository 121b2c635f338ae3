// `hierarchy`
//
// Rules are run one after the other in the order that typing found, each at all combinations: what one computes of an
// item stands in a column, a value at each combination, where those behind look. The points are listed in the order in
// which the rules are written.
ghost use Rattle.std.specs.List.{AllByRecursion, flat_map};
ghost use Rattle.std.specs.Prelude.{◌≡◌, ◌<◌, ◌≤◌, true, ◌++◌, ◌∷◌, [], length, IfErr, IfOk, IfSome, OnOk};
ghost use Rattle.std.specs.Option.{option_to_list};
ghost use Rattle.vtl_cell.specs.Outcome.{join};
ghost use Rattle.vtl_cell.specs.Row.{same_key};
ghost use Rattle.vtl_rows.specs.Tables.{fits, listed};
ghost use Rattle.vtl_scalar.specs.Answers.{Answers, AnswersBy};
ghost use Rattle.vtl_scalar.specs.Seen.{seen_of};
ghost use Rattle.vtl_tree.specs.Columns.{places_in};
ghost use Rattle.vtl_tree.specs.RuleItems.{definitions};
ghost use Rattle.vtl_syntax.specs.declared.word_groups.HierOut.TheVariants as shown;
ghost use Rattle.vtl_tree.specs.Structure.{IsStructure, columns_of, key_width};
ghost use Rattle.vtl_tuples.specs.Keys.{each_once};
ghost use Rattle.vtl_sets.specs.DataSets.{with_structure};
ghost use Rattle.vtl_sets.specs.TableOf.{IsTableOf, table_columns};
ghost use Rattle.vtl_meaning.specs.Made.{AreAmong};
ghost use Rattle.vtl_meaning.specs.Operators.{left_of};
ghost use Rattle.vtl_meaning.specs.Sets.{united};
ghost use Rattle.vtl_rulings.specs.Hierarchies.{hierarchy_of};
ghost use Rattle.vtl_rulings.specs.HierarchyChecks.{ruled_by};
ghost use Rattle.vtl_rulings.specs.HierarchyShapes.{IsHierarchyMade};
ghost use Rattle.vtl_rulings.specs.Ordered.{HasOrder, places_or_none, rules_at};
ghost use Rattle.vtl_rules.specs.ComputedItems.{column_by, computed_of, fault_by, fault_of, made_row, made_rows, ran_columns, ran_fault, value_or_null, with_column};

use crate::datapoints::noted;
use crate::hierarchy_checks::measured_kind;
use crate::items::{Asking, ItemPoints, first_rows, made_at, numbers, right_sources};
use crate::sides::{appears, is_equation, left_item, right_value};
use std::alloc::{AllocError, Global};
use std::marker::Brand;
use std::sync::ledger::{Blank, Ledger};
use vtl_cell::{Cell, Kind, clone_cell};
use vtl_decimal::Profile;
use vtl_expr::{Points, places_in};
use vtl_index::{Groups, Steps};
use vtl_rows::Table;
use vtl_scalar::{ScalarErr, Seen};
use vtl_sets::DataSet;
use vtl_syntax::{HierInput, HierOut, HierRule, Mode};
use vtl_text::{ByName, List};
use vtl_tree::{HierRules, Structure};

// A hierarchy: the operand's items, a mode, the kind of the items' values, and which points a rule takes.
pub(crate) struct Computing<'a> {
    items: ItemPoints<'a>,
    mode: Mode,
    kind: Kind,
    input: HierInput,
}

// Written out, so that an owner sees one call.
impl<'a> Drop for Computing<'a> {
    fn drop(self) {
        let Computing {
            items: _items,
            mode: _,
            kind: _,
            input: _,
        } = self;
    }
}

// What was computed so far: of each item a value at each combination, where there is one; and the fault that was seen.
pub(crate) struct Run {
    made: ByName<List<Option<Cell>>>,
    seen: Seen,
}

// Written out, so that an owner sees one call.
impl Drop for Run {
    fn drop(self) {
        let Run {
            made: _made,
            seen: _,
        } = self;
    }
}

// The value that a rule computes of what there is of its right items, where it has a point; null in the place of a
// fault, which is noted.
fn computed(
    alloc: Global,
    seen: &mut Seen,
    computing: &Computing<'_>,
    rule: &HierRule,
    right: &[Option<Cell>],
    p: &Profile,
) -> Result<Option<Cell>, ScalarErr>
    ensures value { IfOk result (λ v. v ≡ value_or_null (computed_of p.now computing.now.mode computing.now.kind rule.now right.now)) }
    ensures seen { OnOk result (seen_of seen.new ≡ join (seen_of seen.old) (fault_of (computed_of p.now computing.now.mode computing.now.kind rule.now right.now))) }
    ensures err { IfErr result (λ e. e ≡ ScalarErr.OutOfMemory) }
{
    if !appears(computing.mode, right) {
        return Ok(None);
    }
    let value = right_value(alloc, computing.mode, computing.kind, rule, right, p);
    Ok(Some(noted(seen, value)?))
}

// What a rule computes at each combination, of what was computed before; faults are noted.
fn column<L: Ledger>(
    alloc: Global,
    seen: &mut Seen,
    computing: &Computing<'_>,
    made: &ByName<List<Option<Cell>>>,
    rule: &HierRule,
    at: &mut Asking<L>,
    p: &Profile,
) -> Result<List<Option<Cell>>, ScalarErr>
    ensures value { IfOk result (λ v. v ≡ column_by p.now computing.now.mode computing.now.kind computing.now.input computing.now.items made.now rule.now) }
    ensures seen { OnOk result (seen_of seen.new ≡ join (seen_of seen.old) (fault_by p.now computing.now.mode computing.now.kind computing.now.input computing.now.items made.now rule.now)) }
    ensures err { IfErr result (λ e. e ≡ ScalarErr.OutOfMemory) }
{
    let sources = right_sources(alloc, rule, computing.input, made)?;
    let mut column = Vec::with_capacity(alloc, computing.items.len())?;
    for number in 0..computing.items.len() {
        computing.items.begin(at, number)?;
        computing.items.find(at, &sources)?;
        let value = computed(alloc, seen, computing, rule, &at.found, p)?;
        column.push(value)?;
    }
    Ok(List::of(column))
}

// Runs a rule: its column stands behind the others, unless one of its item is there.
fn run_rule<L: Ledger>(
    alloc: Global,
    run: &mut Run,
    computing: &Computing<'_>,
    rule: &HierRule,
    at: &mut Asking<L>,
    p: &Profile,
) -> Result<(), ScalarErr>
    ensures made { OnOk result (run.new.made ≡ with_column p.now computing.now.mode computing.now.kind computing.now.input computing.now.items run.old.made rule.now) }
    ensures seen { OnOk result (seen_of run.new.seen ≡ join (seen_of run.old.seen) (fault_by p.now computing.now.mode computing.now.kind computing.now.input computing.now.items run.old.made rule.now)) }
    ensures err { IfErr result (λ e. e ≡ ScalarErr.OutOfMemory) }
{
    let column = column(alloc, &mut run.seen, computing, &run.made, rule, at, p)?;
    let item = left_item(rule);
    if !run.made.has(item) {
        run.made.put(item.share()?, column)?;
    }
    Ok(())
}

// Runs the rules at places, one after the other.
fn run_all<L: Ledger>(
    alloc: Global,
    computing: &Computing<'_>,
    rules: &[HierRule],
    order: &[usize],
    at: &mut Asking<L>,
    p: &Profile,
) -> Result<Run, ScalarErr>
    ensures made { IfOk result (λ run. run.made ≡ ran_columns p.now computing.now.mode computing.now.kind computing.now.input computing.now.items [] (rules_at rules.now order.now)) }
    ensures seen { IfOk result (λ run. seen_of run.seen ≡ ran_fault p.now computing.now.mode computing.now.kind computing.now.input computing.now.items [] (rules_at rules.now order.now)) }
    ensures err { IfErr result (λ e. e ≡ ScalarErr.OutOfMemory) }
{
    let mut run = Run {
        made: ByName::new(alloc),
        seen: Seen::Nothing,
    };
    for place in order {
        if let Some(rule) = rules.get(*place) {
            run_rule(alloc, &mut run, computing, rule, at, p)?;
        }
    }
    Ok(run)
}

// Adds the point of a rule at a combination, where a value was computed.
fn push_point<L: Ledger>(
    points: &mut Points,
    items: &ItemPoints<'_>,
    rule: &HierRule,
    column: &List<Option<Cell>>,
    at: &mut Asking<L>,
    number: usize,
) -> Result<(), AllocError>
    requires within { number < length items.now.leading }
    requires fits { IfSome (made_row items.now rule.now column.now number) (λ q. fits points.old.table.columns q ≡ true) }
    ensures columns { points.new.table.columns ≡ points.old.table.columns }
    ensures rows { OnOk result (points.new.table.rows ≡ points.old.table.rows ++ option_to_list (made_row items.now rule.now column.now number)) }
    ensures seen { points.new.seen ≡ points.old.seen }
{
    if let Some(value) = made_at(column, number) {
        items.begin(at, number)?;
        items.begin_point(points, at, left_item(rule))?;
        points.cells.push(clone_cell(value)?)?;
        points.add()?;
    }
    Ok(())
}

// Adds those of a rule at all combinations.
fn push_rule<L: Ledger>(
    points: &mut Points,
    items: &ItemPoints<'_>,
    rule: &HierRule,
    made: &ByName<List<Option<Cell>>>,
    at: &mut Asking<L>,
) -> Result<(), AllocError>
    requires { AllByRecursion (λ q. fits points.old.table.columns q ≡ true) (made_rows items.now made.now rule.now) }
    ensures columns { points.new.table.columns ≡ points.old.table.columns }
    ensures rows { OnOk result (points.new.table.rows ≡ points.old.table.rows ++ made_rows items.now made.now rule.now) }
    ensures seen { points.new.seen ≡ points.old.seen }
{
    let Some(column) = made.get(left_item(rule)) else {
        return Ok(());
    };
    for number in 0..items.len() {
        push_point(points, items, rule, column, at, number)?;
    }
    Ok(())
}

// Adds those of all rules that define an item.
fn push_rules<L: Ledger>(
    points: &mut Points,
    items: &ItemPoints<'_>,
    rules: &[HierRule],
    made: &ByName<List<Option<Cell>>>,
    at: &mut Asking<L>,
) -> Result<(), AllocError>
    requires { AllByRecursion (λ q. fits points.old.table.columns q ≡ true) (flat_map (made_rows items.now made.now) (definitions rules.now)) }
    ensures columns { points.new.table.columns ≡ points.old.table.columns }
    ensures rows { OnOk result (points.new.table.rows ≡ points.old.table.rows ++ flat_map (made_rows items.now made.now) (definitions rules.now)) }
    ensures seen { points.new.seen ≡ points.old.seen }
{
    for i in 0..rules.len() {
        let rule = &rules[i];
        if is_equation(rule) {
            push_rule(points, items, rule, made, at)?;
        }
    }
    Ok(())
}

// The rows of a table whose first cells, of which there are so many, no row before has. It is the same table where all
// rows are such.
fn once_by_key(alloc: Global, table: Table, width: usize) -> Result<Table, AllocError>
    requires { AllByRecursion (λ r. width ≤ length r) table.rows }
    ensures columns { IfOk result (λ t. t.columns ≡ table.columns) }
    ensures rows { IfOk result (λ t. t.rows ≡ each_once (same_key width) table.rows) }
{
    let key = numbers(alloc, width)?;
    let groups = Groups::by(alloc, &table, &key)?;
    if groups.len() == table.len() {
        return Ok(table);
    }
    let rows = first_rows(alloc, &groups)?;
    table.gather(alloc, &rows)
}

// The places of a result's columns in an operand.
fn left_places(alloc: Global, a: &DataSet, made: &Structure) -> Result<Vec<usize>, AllocError>
    ensures { IfOk result (λ v. v.items ≡ places_in (columns_of a.now.structure) (columns_of made.now)) }
{
    let columns = made.columns(alloc)?;
    places_in(alloc, a.structure(), &columns)
}

// The points of an operand in the columns of a result.
fn operand_rows(alloc: Global, a: &DataSet, made: &Structure) -> Result<Table, AllocError>
    requires made { IsStructure made.now }
    requires columns { AreAmong (columns_of made.now) (columns_of a.now.structure) }
    ensures columns { IfOk result (λ t. t.columns ≡ table_columns made.now) }
    ensures rows { IfOk result (λ t. t.rows ≡ left_of a.now made.now) }
{
    let places = left_places(alloc, a, made)?;
    a.table().project(alloc, &places)
}

// Computed points, and behind them the operand's points whose identifiers none of them has.
fn with_others(
    alloc: Global,
    computed: Table,
    a: &DataSet,
    made: &Structure,
) -> Result<Table, AllocError>
    requires computed { IsTableOf made.now (listed computed) }
    requires columns { AreAmong (columns_of made.now) (columns_of a.now.structure) }
    ensures columns { IfOk result (λ t. t.columns ≡ table_columns made.now) }
    ensures rows { IfOk result (λ t. t.rows ≡ united (key_width made.now) (computed.rows ∷ left_of a.now made.now ∷ [])) }
{
    let mut all = computed;
    all.append(operand_rows(alloc, a, made)?)?;
    once_by_key(alloc, all, made.key_width())
}

// The places of rules in the order in which they are run.
fn order_of(rules: &HierRules) -> &[usize]
    ensures { result.now ≡ places_or_none rules.now.order }
{
    match &rules.order {
        Some(order) => order.as_slice(),
        None => &[],
    }
}

fn computed_table<L: Ledger>(
    alloc: Global,
    a: &DataSet,
    rules: &HierRules,
    manner: (Mode, HierInput),
    p: &Profile,
    made: &Structure,
    blank: Blank,
) -> Result<Table, ScalarErr>
    requires name { blank.name ≡ L.name }
    requires parts { blank.parts ≡ L.parts }
    requires some { 0 < L.parts }
    requires made { IsHierarchyMade (ruled_by rules.now a.now.structure) rules.now.rules a.now.structure made.now }
    requires order { HasOrder rules.now.rules rules.now.order }
    ensures table { IfOk result (λ t. IsTableOf made.now (listed t)) }
    ensures rows { AnswersBy (λ t. t.rows) result (hierarchy_of p.now (ruled_by rules.now a.now.structure) manner.0 manner.1 rules.now.rules a.now shown.Computed made.now) }
{
    let mut steps: Steps<L> = Steps::new(blank);
    let items = ItemPoints::of(alloc, a, &rules.variable, &mut steps)?;
    let (mode, input) = manner;
    let kind = measured_kind(alloc, a.structure())?;
    let computing = Computing {
        items,
        mode,
        kind,
        input,
    };
    let mut at = Asking::new(alloc, steps);
    let written = rules.rules.as_slice();
    let run = run_all(alloc, &computing, written, order_of(rules), &mut at, p)?;
    let mut points = Points::new(alloc, made, 0)?;
    push_rules(&mut points, &computing.items, written, &run.made, &mut at)?;
    points.seen = run.seen;
    points.finish()
}

fn hierarchy_table(
    alloc: Global,
    a: &DataSet,
    rules: &HierRules,
    manner: (Mode, HierInput),
    out: HierOut,
    p: &Profile,
    made: &Structure,
) -> Result<Table, ScalarErr>
    requires made { IsHierarchyMade (ruled_by rules.now a.now.structure) rules.now.rules a.now.structure made.now }
    requires order { HasOrder rules.now.rules rules.now.order }
    ensures table { IfOk result (λ t. IsTableOf made.now (listed t)) }
    ensures rows { AnswersBy (λ t. t.rows) result (hierarchy_of p.now (ruled_by rules.now a.now.structure) manner.0 manner.1 rules.now.rules a.now out made.now) }
{
    // The operand is a data set, as it tells of itself.
    a.structure();
    let table = computed_table::<Brand>(alloc, a, rules, manner, p, made, Blank::new(1))?;
    match out {
        HierOut::Computed => Ok(table),
        HierOut::All => Ok(with_others(alloc, table, a, made)?),
    }
}

/// The points that rules with `=` compute of their left items, at each combination of the other identifiers that the
/// operand has, and where the output is `all` the operand's other points too; as a data set of the structure that
/// typing gives. A rule takes its right items from the operand, from the rules that define them, or from these where
/// they compute a value that is not null. It takes time that is linear in the number of points, and for each rule and
/// combination one look-up for each right item. The answer is Range where any rule is out of range; otherwise it fails
/// only if memory runs out.
pub fn hierarchy(
    alloc: Global,
    a: &DataSet,
    rules: &HierRules,
    mode: Mode,
    input: HierInput,
    out: HierOut,
    p: &Profile,
    made: &Structure,
) -> Result<DataSet, ScalarErr>
    requires made { IsHierarchyMade (ruled_by rules.now a.now.structure) rules.now.rules a.now.structure made.now }
    requires order { HasOrder rules.now.rules rules.now.order }
    ensures { Answers result (with_structure made.now (hierarchy_of p.now (ruled_by rules.now a.now.structure) mode input rules.now.rules a.now out made.now)) }
{
    let table = hierarchy_table(alloc, a, rules, (mode, input), out, p, made);
    DataSet::answered(alloc, made, table)
}
