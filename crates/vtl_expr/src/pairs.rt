// An operator on the measures of two data sets.
//
// A pair of points is one row in two pieces: an operator on two operands is an operator on one, over the cells of one
// row followed by those of its partner, and no such row is built.
//
// The operand that leads is chosen once (`Lead`): both sides, the pairs and the expressions follow from it, so a pair
// has one walk and one proof for both ways.
ghost use Rattle.std.specs.List.{flat_map};
ghost use Rattle.std.specs.Prelude.{◌≡◌, ◌<◌, ◌++◌, true, cond, map, Some, IfOk, IfErr, OnOk};
ghost use Rattle.vtl_cell.specs.Outcome.{faults_by, join};
ghost use Rattle.vtl_cell.specs.Row.{Row};
ghost use Rattle.vtl_rows.specs.Tables.{fits, listed};
ghost use Rattle.vtl_scalar.specs.Answers.{Answers, AnswersBy};
ghost use Rattle.vtl_tree.specs.DataSet.{IsDataSet};
ghost use Rattle.vtl_tree.specs.Structure.{IsStructure, columns_of};
ghost use Rattle.vtl_tree.specs.View.{comp_exp_of};
ghost use Rattle.vtl_tree.specs.Pairs.{contains};
ghost use Rattle.vtl_sets.specs.DataSets.{with_structure};
ghost use Rattle.vtl_meaning.specs.Made.{AreFor, IsPaired};
ghost use Rattle.vtl_meaning.specs.Operators.{pair_of};
ghost use Rattle.vtl_meaning.specs.Points.{each_point, paired, point_fault, point_of};
ghost use Rattle.vtl_sets.specs.TableOf.{IsTableOf, table_columns};
ghost use Rattle.vtl_expr.specs.Partners.{AllFit, found, with_found};
ghost use Rattle.vtl_expr.specs.Prepared.{prepared_exp};
ghost use Rattle.vtl_scalar.specs.Seen.{seen_of};
ghost use Rattle.vtl_expr.specs.Sides.{left_column, right_column, side_column};

use crate::namesakes::{Side, namesake_exps};
use crate::partners::Partners;
use crate::point::Point;
use crate::points::{Points, push_values};
use crate::prepared::{Prepared, prepare_all};
use std::alloc::{AllocError, Global};
use std::marker::Brand;
use std::sync::ledger::{Blank, Ledger};
use vtl_cell::{Cell, ScalarOp};
use vtl_decimal::Profile;
use vtl_index::Steps;
use vtl_rows::Table;
use vtl_scalar::ScalarErr;
use vtl_sets::DataSet;
use vtl_tree::{CompExpr, Structure, contains};

// Adds the point of a row and its partner, where it has one.
fn push_pair<L: Ledger>(
    alloc: Global,
    points: &mut Points,
    exps: &[Prepared],
    partners: &Partners<'_>,
    row: &[Cell],
    p: &Profile,
    steps: &mut Steps<L>,
) -> Result<(), ScalarErr>
    requires { (q : Row) → found partners.now row.now ≡ Some q → fits points.old.table.columns (point_of p.now (map prepared_exp exps.now) (row.now ++ q)) ≡ true }
    ensures columns { points.new.table.columns ≡ points.old.table.columns }
    ensures rows { OnOk result (points.new.table.rows ≡ points.old.table.rows ++ map (point_of p.now (map prepared_exp exps.now)) (with_found (λ r q. r ++ q) partners.now row.now)) }
    ensures seen { OnOk result (seen_of points.new.seen ≡ join (seen_of points.old.seen) (faults_by (point_fault p.now (map prepared_exp exps.now)) (with_found (λ r q. r ++ q) partners.now row.now))) }
    ensures err { IfErr result (λ e. e ≡ ScalarErr.OutOfMemory) }
{
    match partners.find(row, steps) {
        Some(partner) => push_values(alloc, points, exps, &Point::beside(row, partner), p),
        None => Ok(()),
    }
}

// The table of the values of expressions at each point with its partner.
fn each_beside<L: Ledger>(
    alloc: Global,
    exps: &[Prepared],
    lead: &DataSet,
    partners: &Partners<'_>,
    made: &Structure,
    p: &Profile,
    steps: &mut Steps<L>,
) -> Result<Table, ScalarErr>
    requires structure { IsStructure made.now }
    requires fits { AllFit (point_of p.now (map prepared_exp exps.now)) (table_columns made.now) partners.now lead.now.points }
    ensures columns { IfOk result (λ t. t.columns ≡ table_columns made.now) }
    ensures rows { AnswersBy (λ t. t.rows) result (each_point p.now (map prepared_exp exps.now) (flat_map (with_found (λ r q. r ++ q) partners.now) lead.now.points)) }
{
    let table = lead.table();
    let mut points = Points::new(alloc, made, table.len())?;
    for i in 0..table.len() {
        push_pair(alloc, &mut points, exps, partners, table.row(i), p, steps)?;
    }
    points.finish()
}

// The table of the values of expressions at each pair of points.
fn each_pair<L: Ledger>(
    alloc: Global,
    exps: &[CompExpr],
    lead: &DataSet,
    other: &DataSet,
    made: &Structure,
    p: &Profile,
    blank: Blank,
) -> Result<Table, ScalarErr>
    requires name { blank.name ≡ L.name }
    requires parts { blank.parts ≡ L.parts }
    requires some { 0 < L.parts }
    requires structure { IsStructure made.now }
    requires other { IsDataSet other.now.structure other.now.points }
    requires expressions { AreFor p.now (columns_of lead.now.structure ++ columns_of other.now.structure) (map comp_exp_of exps.now) (columns_of made.now) }
    ensures columns { IfOk result (λ t. t.columns ≡ table_columns made.now) }
    ensures rows { AnswersBy (λ t. t.rows) result (each_point p.now (map comp_exp_of exps.now) (paired lead.now other.now)) }
{
    let mut steps: Steps<L> = Steps::new(blank);
    let prepared = prepare_all(alloc, exps)?;
    let partners = Partners::of(alloc, lead.structure(), other, &mut steps)?;
    each_beside(alloc, &prepared, lead, &partners, made, p, &mut steps)
}

// The same, with a counter of steps.
fn pairs_table(
    alloc: Global,
    exps: &[CompExpr],
    lead: &DataSet,
    other: &DataSet,
    made: &Structure,
    p: &Profile,
) -> Result<Table, ScalarErr>
    requires structure { IsStructure made.now }
    requires other { IsDataSet other.now.structure other.now.points }
    requires expressions { AreFor p.now (columns_of lead.now.structure ++ columns_of other.now.structure) (map comp_exp_of exps.now) (columns_of made.now) }
    ensures columns { IfOk result (λ t. t.columns ≡ table_columns made.now) }
    ensures rows { AnswersBy (λ t. t.rows) result (each_point p.now (map comp_exp_of exps.now) (paired lead.now other.now)) }
{
    each_pair::<Brand>(alloc, exps, lead, other, made, p, Blank::new(1))
}

// Two operands: the one that leads, since it has all identifiers of the other, and the other one; and the columns of the
// left and of the right operand, where the cells of the one that leads stand first.
#[derive(Drop)]
struct Lead<'a> {
    lead: &'a DataSet,
    other: &'a DataSet,
    left: Side<'a>,
    right: Side<'a>,
}

impl<'a> Lead<'a> {
    // The left operand leads where it has all identifiers of the right one, else the right operand leads.
    fn of(alloc: Global, a: &'a DataSet, b: &'a DataSet) -> Result<Lead<'a>, AllocError>
        ensures lead { IfOk result (λ l. l.lead.now ≡ cond (contains a.now.structure b.now.structure) a.now b.now) }
        ensures other { IfOk result (λ l. l.other.now ≡ cond (contains a.now.structure b.now.structure) b.now a.now) }
        ensures points { IfOk result (λ l. IsDataSet l.lead.now.structure l.lead.now.points × IsDataSet l.other.now.structure l.other.now.points) }
        ensures left { IfOk result (λ l. side_column l.left ≡ left_column a.now.structure b.now.structure) }
        ensures right { IfOk result (λ l. side_column l.right ≡ right_column a.now.structure b.now.structure) }
    {
        let (ours, theirs) = (a.structure(), b.structure());
        if contains(ours, theirs) {
            Ok(Lead {
                lead: a,
                other: b,
                left: Side::leading(alloc, ours)?,
                right: Side::behind(alloc, ours, theirs)?,
            })
        } else {
            Ok(Lead {
                lead: b,
                other: a,
                left: Side::behind(alloc, theirs, ours)?,
                right: Side::leading(alloc, theirs)?,
            })
        }
    }
}

fn pair_table(
    alloc: Global,
    op: ScalarOp,
    a: &DataSet,
    b: &DataSet,
    made: &Structure,
    p: &Profile,
) -> Result<Table, ScalarErr>
    requires { IsPaired p.now op a.now.structure b.now.structure made.now }
    ensures table { IfOk result (λ t. IsTableOf made.now (listed t)) }
    ensures rows { AnswersBy (λ t. t.rows) result (pair_of p.now op a.now b.now made.now) }
{
    let pair = Lead::of(alloc, a, b)?;
    let lead = pair.lead.structure();
    let ours = a.structure();
    let exps = namesake_exps(alloc, op, lead, &pair.left, &pair.right, ours, made)?;
    pairs_table(alloc, &exps, pair.lead, pair.other, made, p)
}

/// The operator's value at each measure and its namesake, for every two points that agree on the common identifiers, as
/// a data set of the structure that typing gives. One operand has all identifiers of the other. The answer is DivZero
/// where any value divides by zero, otherwise Range where any is out of range; otherwise it fails only if memory runs
/// out.
pub fn pair_measures(
    alloc: Global,
    op: ScalarOp,
    a: &DataSet,
    b: &DataSet,
    made: &Structure,
    p: &Profile,
) -> Result<DataSet, ScalarErr>
    requires { IsPaired p.now op a.now.structure b.now.structure made.now }
    ensures { Answers result (with_structure made.now (pair_of p.now op a.now b.now made.now)) }
{
    let table = pair_table(alloc, op, a, b, made, p);
    DataSet::answered(alloc, made, table)
}
