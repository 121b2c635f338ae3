// A join and a filter of the joined set.
ghost use Rattle.std.specs.Prelude.{◌≡◌, IfOk};
ghost use Rattle.std.specs.Option.{IfSome};
ghost use Rattle.vtl_rows.specs.Tables.{listed};
ghost use Rattle.vtl_scalar.specs.Answers.{Answers, AnswersBy};
ghost use Rattle.vtl_sets.specs.DataSets.{with_structure};
ghost use Rattle.vtl_sets.specs.TableOf.{IsTableOf};
ghost use Rattle.vtl_tree.specs.Clauses.{filter_of};
ghost use Rattle.vtl_tree.specs.View.{comp_exp_of};
ghost use Rattle.vtl_meaning.specs.Joined.{join_of, structures_of};
ghost use Rattle.vtl_meaning.specs.Made.{IsFiltered, IsJoined};
ghost use Rattle.vtl_meaning.specs.Shapes.{IsJoinedFrom};
ghost use Rattle.vtl_join.specs.Joining.{IsBeside, sets_of, typed_operands};

use crate::crossing::add_all;
use crate::partners::partners;
use crate::sieve::{Asked, Sieve};
use std::alloc::Global;
use vtl_clause::filter;
use vtl_decimal::Profile;
use vtl_expr::prepare;
use vtl_join::{Joined, close, parts_beside, product};
use vtl_rows::Table;
use vtl_scalar::ScalarErr;
use vtl_sets::DataSet;
use vtl_syntax::JoinKind;
use vtl_tree::{CompExpr, Structure};

// The points of a cross join that are kept.
fn crossed_table(
    alloc: Global,
    j: &Joined,
    made: &Structure,
    condition: &CompExpr,
    filtered: &Structure,
    p: &Profile,
) -> Result<Table, ScalarErr>
    requires made { IsJoined JoinKind.Cross (structures_of (sets_of j.now.operands)) made.now }
    requires filtered { IsFiltered p.now (comp_exp_of condition.now) made.now filtered.now }
    ensures table { IfOk result (λ t. IsTableOf filtered.now (listed t)) }
    ensures rows { AnswersBy (λ t. t.rows) result (filter_of p.now (comp_exp_of condition.now) (join_of JoinKind.Cross (sets_of j.now.operands))) }
{
    let counts = j.counts(alloc)?;
    let asked = Asked {
        gathering: product(alloc, j, made)?,
        condition: prepare(alloc, condition)?,
        profile: p,
    };
    let partners = partners(alloc, &asked, condition)?;
    let mut sieve = Sieve::new(alloc, made)?;
    add_all(alloc, &asked, &partners, &mut sieve, &counts)?;
    sieve.finish(alloc, &asked)
}

// The points of an inner or a left join that are kept.
fn beside_table(
    alloc: Global,
    kind: JoinKind,
    j: &Joined,
    made: &Structure,
    condition: &CompExpr,
    filtered: &Structure,
    p: &Profile,
) -> Result<Table, ScalarErr>
    requires beside { IsBeside kind }
    requires made { IsJoined kind (structures_of (sets_of j.now.operands)) made.now }
    requires filtered { IsFiltered p.now (comp_exp_of condition.now) made.now filtered.now }
    ensures table { IfOk result (λ t. IsTableOf filtered.now (listed t)) }
    ensures rows { AnswersBy (λ t. t.rows) result (filter_of p.now (comp_exp_of condition.now) (join_of kind (sets_of j.now.operands))) }
{
    let parts = parts_beside(alloc, kind, j, made)?;
    let (gathering, tuples) = parts.into_parts();
    let asked = Asked {
        gathering,
        condition: prepare(alloc, condition)?,
        profile: p,
    };
    let mut sieve = Sieve::new(alloc, made)?;
    sieve.add_each(alloc, &asked, &tuples)?;
    sieve.finish(alloc, &asked)
}

// The points of a join that are kept, all of which are made first.
fn closed_and_filtered(
    alloc: Global,
    kind: JoinKind,
    j: Joined,
    made: &Structure,
    condition: &CompExpr,
    filtered: &Structure,
    p: &Profile,
) -> Result<DataSet, ScalarErr>
    requires kind { IfSome j.kind (λ before. before ≡ kind) }
    requires made { IsJoined kind (structures_of (sets_of j.operands)) made.now }
    requires named { IsJoinedFrom kind (typed_operands j.operands) made.now }
    requires filtered { IsFiltered p.now (comp_exp_of condition.now) made.now filtered.now }
    ensures { Answers result (with_structure filtered.now (filter_of p.now (comp_exp_of condition.now) (join_of kind (sets_of j.operands)))) }
{
    let joined = close(alloc, kind, j, made)?;
    filter(alloc, &joined, condition, filtered, p)
}

/// The points of the joined set at which the condition is true, as a data set of the filter's structure; `made` is the
/// structure that typing gives the joined set. The kind is that of the steps; a join of one operand has none. Only
/// the points that are kept are held, but of a full join, of which all are made first. Where a condition that can have no
/// fault equates components of two operands of a cross join, it is asked only where these are equal. The answer is
/// DivZero where the condition divides by zero at any point of the joined set, otherwise Range where it is out of range
/// at any; otherwise it fails only if memory runs out.
pub fn filter_joined(
    alloc: Global,
    kind: JoinKind,
    j: Joined,
    made: &Structure,
    condition: &CompExpr,
    filtered: &Structure,
    p: &Profile,
) -> Result<DataSet, ScalarErr>
    requires kind { IfSome j.kind (λ before. before ≡ kind) }
    requires made { IsJoined kind (structures_of (sets_of j.operands)) made.now }
    requires named { IsJoinedFrom kind (typed_operands j.operands) made.now }
    requires filtered { IsFiltered p.now (comp_exp_of condition.now) made.now filtered.now }
    ensures { Answers result (with_structure filtered.now (filter_of p.now (comp_exp_of condition.now) (join_of kind (sets_of j.operands)))) }
{
    match kind {
        JoinKind::Cross => {
            let table = crossed_table(alloc, &j, made, condition, filtered, p);
            DataSet::answered(alloc, filtered, table)
        }
        JoinKind::Inner | JoinKind::Left => {
            let table = beside_table(alloc, kind, &j, made, condition, filtered, p);
            DataSet::answered(alloc, filtered, table)
        }
        JoinKind::Full => { closed_and_filtered(alloc, kind, j, made, condition, filtered, p) }
    }
}
