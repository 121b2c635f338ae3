// Operators on three data sets or on any number of them: `if`, joins, also those with a filter, `union` and `intersect`.
ghost use Rattle.std.specs.Prelude.{◌≡◌, ◌<◌, IfOk, Ok, length, map};
ghost use Rattle.std.specs.Option.{IfSome};
ghost use Rattle.vtl_scalar.specs.Answers.{AnswersBy};
ghost use Rattle.vtl_tree.specs.Shown.{shown};
ghost use Rattle.vtl_sets.specs.DataSets.{data_set, with_structure};
ghost use Rattle.vtl_tree.specs.Clauses.{filter_of};
ghost use Rattle.vtl_tree.specs.View.{comp_exp_of};
ghost use Rattle.vtl_meaning.specs.Joined.{join_of, structures_of};
ghost use Rattle.vtl_meaning.specs.Made.{AreCombined, IsChoice, IsFiltered, IsJoined};
ghost use Rattle.vtl_meaning.specs.Operators.{choice_of};
ghost use Rattle.vtl_meaning.specs.Shapes.{IsJoinedFrom};
ghost use Rattle.vtl_meaning.specs.Sets.{intersection_of, union_of};
ghost use Rattle.vtl_join.specs.Joining.{sets_of};
ghost use Rattle.vtl_interp.specs.Values.{under_aliases, value_view};

use crate::value::Value;
use std::alloc::{AllocError, Global};
use vtl_decimal::Profile;
use vtl_join::Joined;
use vtl_join_filter::filter_joined;
use vtl_scalar::ScalarErr;
use vtl_sets::DataSet;
use vtl_syntax::JoinKind;
use vtl_tree::{CompExpr, JoinOperand, Structure};

// The data sets, lent.
fn lent<'v, 'a>(alloc: Global, values: &'v [Value<'a>]) -> Result<Vec<&'v DataSet>, AllocError>
    ensures { IfOk result (λ v. shown v.items ≡ map value_view values.now) }
{
    let mut sets = Vec::with_capacity(alloc, values.len())?;
    for value in values {
        sets.push(value.data())?;
    }
    Ok(sets)
}

// The operands of a join, one joined after the other, each under its alias.
fn joined<'a>(
    alloc: Global,
    kind: JoinKind,
    values: &[Value<'a>],
    operands: &[JoinOperand],
) -> Result<Joined, AllocError>
    requires some { 0 < length values.now }
    requires named { length values.now ≡ length operands.now }
    ensures kind { IfOk result (λ j. IfSome j.kind (λ before. before ≡ kind)) }
    ensures operands { IfOk result (λ j. sets_of j.operands ≡ map value_view values.now) }
    ensures aliases { IfOk result (λ j. map (λ o. o.alias) j.operands ≡ map (λ o. o.alias) operands.now) }
{
    let mut joined = vtl_join::open(alloc, values[0].data(), &operands[0].alias)?;
    for i in 1..values.len() {
        joined = vtl_join::step(alloc, kind, joined, values[i].data(), &operands[i].alias)?;
    }
    Ok(joined)
}

/// A join of operands, each under its alias.
pub fn join<'a>(
    alloc: Global,
    kind: JoinKind,
    values: &[Value<'a>],
    operands: &[JoinOperand],
    made: &Structure,
) -> Result<Value<'a>, ScalarErr>
    requires named { length values.now ≡ length operands.now }
    requires joined { IsJoined kind (structures_of (map value_view values.now)) made.now }
    requires from { IsJoinedFrom kind (under_aliases (map (λ o. o.alias) operands.now) (structures_of (map value_view values.now))) made.now }
    ensures { AnswersBy value_view result (Ok (data_set made.now (join_of kind (map value_view values.now)))) }
{
    let joined = joined(alloc, kind, values, operands)?;
    Ok(Value::Made(vtl_join::close(alloc, kind, joined, made)?))
}

/// A filter of a join of operands, each under its alias: `made` is the structure of the join.
pub fn filter_join<'a>(
    alloc: Global,
    kind: JoinKind,
    values: &[Value<'a>],
    operands: &[JoinOperand],
    made: &Structure,
    condition: &CompExpr,
    filtered: &Structure,
    p: &Profile,
) -> Result<Value<'a>, ScalarErr>
    requires named { length values.now ≡ length operands.now }
    requires joined { IsJoined kind (structures_of (map value_view values.now)) made.now }
    requires from { IsJoinedFrom kind (under_aliases (map (λ o. o.alias) operands.now) (structures_of (map value_view values.now))) made.now }
    requires filtered { IsFiltered p.now (comp_exp_of condition.now) made.now filtered.now }
    ensures { AnswersBy value_view result (with_structure filtered.now (filter_of p.now (comp_exp_of condition.now) (join_of kind (map value_view values.now)))) }
{
    let joined = joined(alloc, kind, values, operands)?;
    let set = filter_joined(alloc, kind, joined, made, condition, filtered, p)?;
    Ok(Value::Made(set))
}

/// `filter`
pub fn filter<'a>(
    alloc: Global,
    a: Value<'a>,
    condition: &CompExpr,
    made: &Structure,
    p: &Profile,
) -> Result<Value<'a>, ScalarErr>
    requires { IsFiltered p.now (comp_exp_of condition.now) (value_view a).structure made.now }
    ensures { AnswersBy value_view result (with_structure made.now (filter_of p.now (comp_exp_of condition.now) (value_view a.entry).points)) }
{
    Ok(Value::Made(vtl_clause::filter(alloc, a.data(), condition, made, p)?))
}

/// `union`
pub fn union<'a>(
    alloc: Global,
    values: &[Value<'a>],
    made: &Structure,
) -> Result<Value<'a>, ScalarErr>
    requires { AreCombined (structures_of (map value_view values.now)) made.now }
    ensures { AnswersBy value_view result (Ok (data_set made.now (union_of (map value_view values.now) made.now))) }
{
    let sets = lent(alloc, values)?;
    Ok(Value::Made(vtl_combine::union_all(alloc, &sets, made)?))
}

/// `intersect`
pub fn intersect<'a>(
    alloc: Global,
    values: &[Value<'a>],
    made: &Structure,
) -> Result<Value<'a>, ScalarErr>
    requires { AreCombined (structures_of (map value_view values.now)) made.now }
    ensures { AnswersBy value_view result (Ok (data_set made.now (intersection_of (map value_view values.now) made.now))) }
{
    let sets = lent(alloc, values)?;
    Ok(Value::Made(vtl_combine::intersect_all(alloc, &sets, made)?))
}

/// `if`
pub fn choose<'a>(
    alloc: Global,
    condition: Value<'a>,
    a: Value<'a>,
    b: Value<'a>,
    made: &Structure,
) -> Result<Value<'a>, ScalarErr>
    requires { IsChoice (value_view condition).structure (value_view a).structure (value_view b).structure made.now }
    ensures { AnswersBy value_view result (Ok (data_set made.now (choice_of (value_view condition.entry) (value_view a.entry) (value_view b.entry) made.now))) }
{
    Ok(Value::Made(vtl_expr::choose(alloc, condition.data(), a.data(), b.data(), made)?))
}
