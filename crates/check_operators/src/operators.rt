// Operators on typed operands: on values, and on each measure of data sets.
//
// A literal beside an operand is asked against the kinds of all its measures at the literal (`beside_kinds`), and the
// call does not ask again: the least rule of the literal comes before what stands behind it.
ghost use Rattle.std.specs.Prelude.{◌≡◌, ◌≢◌, ◌++◌, ◌∷◌, [], IfOk, OnOk, length, map};
ghost use Rattle.check_faults.specs.Answers.{Answers};
ghost use Rattle.vtl_tree.specs.CompExp.{const};
ghost use Rattle.vtl_tree.specs.View.{comp_exp_of};
ghost use Rattle.check_operators.specs.Operators.{first_fits, given_by, given_structure, meets_first, membership, on_choice, on_datasets, on_measures, on_operands, on_pair, on_parted, on_values, operator_form, parted_view, set_form, structure_by};
ghost use Rattle.check_operators.specs.Typed.{boxed_tree, typed_tree, typed_trees, value};

use crate::operands::{Parted, part};
use crate::operator_kinds::{GivenKinds, OfTwo, between_kinds};
use crate::placing::{
    is_binary, is_choice, misplaced_rule, outcome_of, takes_dataset, takes_literals,
};
use crate::typed::made_of;
use crate::{Place, Typed};
use check_faults::{Rule, TypeErr, broken};
use check_shapes::{Operator, any_unmet, choose_by, measured, pair};
use check_values::{call, kinds_in, set as set_members};
use std::alloc::{AllocError, Global};
use vtl_cell::{Cell, Kind, ScalarOp, counted_kinds};
use vtl_decimal::Profile;
use vtl_syntax::Literal;
use vtl_text::List;
use vtl_tree::{Choice, CompExpr, MeasureOp, Node, NodeForm, Outcome, Structure, kind};

// What an operator gives for the measures of a structure, by the kinds that it gives for them.
fn structure_by(
    alloc: Global,
    outcome: Outcome,
    by_operands: &GivenKinds,
    given: &GivenKinds,
    literals: bool,
    structure: &Structure,
) -> Result<Structure, TypeErr>
    ensures { Answers (λ s. s) result (structure_by outcome (given_by by_operands.now) (given_by given.now) literals structure.now.components) }
{
    let components = structure.components.as_slice();
    broken(Rule::WrongKind, any_unmet(by_operands, None, components))?;
    broken(Rule::WrongLiteral, any_unmet(given, None, components))?;
    measured(
        alloc,
        outcome,
        given,
        literals,
        Choice::Except,
        &[],
        structure,
    )
}

// The same between values.
fn measures_structure(
    alloc: Global,
    op: ScalarOp,
    literals: bool,
    before: &[CompExpr],
    after: &[CompExpr],
    structure: &Structure,
) -> Result<Structure, TypeErr>
    ensures { Answers (λ s. s) result (given_structure op literals (map comp_exp_of before.now) (map comp_exp_of after.now) structure.now.components) }
{
    let before = kinds_in(alloc, before)?;
    let after = kinds_in(alloc, after)?;
    let counted = counted_kinds(alloc, op, &after)?;
    let by_operands = between_kinds(alloc, op, &before, &counted)?;
    let given = between_kinds(alloc, op, &before, &after)?;
    structure_by(
        alloc,
        outcome_of(op),
        &by_operands,
        &given,
        literals,
        structure,
    )
}

// An operator on each measure of a data set, between values.
#[tactic(auto, unfolding(crate::specs::Operators::on_measures))]
fn on_measures(
    alloc: Global,
    op: ScalarOp,
    literals: bool,
    before: Vec<CompExpr>,
    a: Box<Node>,
    after: Vec<CompExpr>,
) -> Result<Typed, TypeErr>
    ensures { Answers typed_tree result (on_measures op literals (map comp_exp_of before.items) (boxed_tree a) (map comp_exp_of after.items)) }
{
    let structure = measures_structure(alloc, op, literals, &before, &after, &a.structure)?;
    let op = MeasureOp {
        op,
        before: List::of(before),
        after: List::of(after),
    };
    made_of(alloc, structure, NodeForm::Measures { op, a })
}

// An operator on the measures of two data sets.
#[tactic(auto, unfolding(crate::specs::Operators::on_pair))]
fn on_pair(alloc: Global, op: ScalarOp, a: Box<Node>, b: Box<Node>) -> Result<Typed, TypeErr>
    ensures { Answers typed_tree result (on_pair op (boxed_tree a) (boxed_tree b)) }
{
    let structure = pair(
        alloc,
        outcome_of(op),
        &OfTwo { op },
        &a.structure,
        &b.structure,
    )?;
    made_of(alloc, structure, NodeForm::Pair { op, a, b })
}

// `if` on data sets.
#[tactic(auto, unfolding(crate::specs::Operators::on_choice))]
fn on_choice(alloc: Global, c: Box<Node>, a: Box<Node>, b: Box<Node>) -> Result<Typed, TypeErr>
    ensures { Answers typed_tree result (on_choice (boxed_tree c) (boxed_tree a) (boxed_tree b)) }
{
    let structure = choose_by(alloc, &c.structure, &a.structure, &b.structure)?;
    made_of(alloc, structure, NodeForm::Choose { c, a, b })
}

// One data set between values.
fn on_one(
    alloc: Global,
    op: ScalarOp,
    literals: bool,
    before: Vec<CompExpr>,
    a: Box<Node>,
    after: Vec<CompExpr>,
) -> Result<Typed, TypeErr>
    ensures { Answers typed_tree result (on_datasets op literals (map comp_exp_of before.items) (boxed_tree a ∷ []) (map comp_exp_of after.items)) }
{
    if takes_dataset(op, before.len()) {
        on_measures(alloc, op, literals, before, a, after)
    } else {
        Err(TypeErr::Broken(misplaced_rule(true, literals)))
    }
}

// Two data sets alone.
fn on_two(
    alloc: Global,
    op: ScalarOp,
    literals: bool,
    a: Box<Node>,
    b: Box<Node>,
) -> Result<Typed, TypeErr>
    ensures { Answers typed_tree result (on_datasets op literals [] (boxed_tree a ∷ boxed_tree b ∷ []) []) }
{
    if is_binary(op) {
        on_pair(alloc, op, a, b)
    } else {
        Err(TypeErr::Broken(misplaced_rule(true, literals)))
    }
}

// Three data sets alone.
fn on_three(
    alloc: Global,
    op: ScalarOp,
    literals: bool,
    datasets: [Box<Node>; 3],
) -> Result<Typed, TypeErr>
    ensures { Answers typed_tree result (on_datasets op literals [] (map boxed_tree datasets) []) }
{
    let [c, a, b] = datasets;
    if is_choice(op) {
        on_choice(alloc, c, a, b)
    } else {
        Err(TypeErr::Broken(misplaced_rule(true, literals)))
    }
}

// More than two data sets alone.
#[tactic(auto, using(crate::proofs::OperatorLemmas::many_datasets))]
fn on_many(
    alloc: Global,
    op: ScalarOp,
    literals: bool,
    datasets: Vec<Box<Node>>,
) -> Result<Typed, TypeErr>
    requires not_one { length datasets.items ≢ 1 }
    requires not_two { length datasets.items ≢ 2 }
    ensures { Answers typed_tree result (on_datasets op literals [] (map boxed_tree datasets.items) []) }
{
    match <[Box<Node>; 3]>::try_from(datasets) {
        Ok(datasets) => on_three(alloc, op, literals, datasets),
        Err(_) => Err(TypeErr::Broken(misplaced_rule(true, literals))),
    }
}

// Several data sets alone.
fn on_several(
    alloc: Global,
    op: ScalarOp,
    literals: bool,
    datasets: Vec<Box<Node>>,
) -> Result<Typed, TypeErr>
    requires { length datasets.items ≢ 1 }
    ensures { Answers typed_tree result (on_datasets op literals [] (map boxed_tree datasets.items) []) }
{
    match <[Box<Node>; 2]>::try_from(datasets) {
        Ok([a, b]) => on_two(alloc, op, literals, a, b),
        Err(datasets) => on_many(alloc, op, literals, datasets),
    }
}

// Several data sets, possibly among values.
#[tactic(auto, using(crate::proofs::OperatorLemmas::beside_values))]
fn on_several_among(
    alloc: Global,
    op: ScalarOp,
    literals: bool,
    before: Vec<CompExpr>,
    datasets: Vec<Box<Node>>,
    after: Vec<CompExpr>,
) -> Result<Typed, TypeErr>
    requires { length datasets.items ≢ 1 }
    ensures { Answers typed_tree result (on_datasets op literals (map comp_exp_of before.items) (map boxed_tree datasets.items) (map comp_exp_of after.items)) }
{
    if before.is_empty() && after.is_empty() {
        on_several(alloc, op, literals, datasets)
    } else {
        Err(TypeErr::Broken(misplaced_rule(true, literals)))
    }
}

// An operator on operands, some of them data sets.
fn on_datasets(
    alloc: Global,
    op: ScalarOp,
    literals: bool,
    before: Vec<CompExpr>,
    datasets: Vec<Box<Node>>,
    after: Vec<CompExpr>,
) -> Result<Typed, TypeErr>
    ensures { Answers typed_tree result (on_datasets op literals (map comp_exp_of before.items) (map boxed_tree datasets.items) (map comp_exp_of after.items)) }
{
    match <[Box<Node>; 1]>::try_from(datasets) {
        Ok([a]) => on_one(alloc, op, literals, before, a, after),
        Err(datasets) => on_several_among(alloc, op, literals, before, datasets, after),
    }
}

fn on_values(
    alloc: Global,
    op: ScalarOp,
    literals: bool,
    values: Vec<CompExpr>,
) -> Result<Typed, TypeErr>
    ensures { Answers typed_tree result (on_values op literals (map comp_exp_of values.items)) }
{
    Ok(Typed::Value(call(alloc, op, literals, values)?))
}

fn on_operands(
    alloc: Global,
    place: &Place,
    op: ScalarOp,
    number: bool,
    literals: bool,
    operands: Parted,
) -> Result<Typed, TypeErr>
    ensures { Answers typed_tree result (on_operands place.now op number literals (parted_view operands).before (parted_view operands).datasets (parted_view operands).after) }
{
    let Parted {
        before,
        datasets,
        after,
    } = operands;
    match (place, datasets.as_slice()) {
        (_, []) => on_values(alloc, op, literals, before),
        (Place::Outside, _) if number => on_datasets(alloc, op, literals, before, datasets, after),
        _ => Err(TypeErr::Broken(misplaced_rule(number, literals))),
    }
}

/// An operator on its operands. Whether their number is right, and whether those that have to be literals are literals,
/// is given by the caller, which sees how they are written.
#[tactic(auto, unfolding(crate::specs::Operators::operator_form))]
pub fn operator(
    alloc: Global,
    place: &Place,
    op: ScalarOp,
    number: bool,
    literals: bool,
    operands: Vec<Typed>,
) -> Result<Typed, TypeErr>
    ensures { Answers typed_tree result (operator_form place.now op number literals (typed_trees operands)) }
{
    let operands = part(alloc, operands)?;
    on_parted(alloc, place, op, number, literals, operands)
}

fn on_parted(
    alloc: Global,
    place: &Place,
    op: ScalarOp,
    number: bool,
    literals: bool,
    operands: Parted,
) -> Result<Typed, TypeErr>
    ensures { Answers typed_tree result (on_parted place.now op number literals (parted_view operands)) }
{
    let fits = first_fits(alloc, op, &operands)?;
    on_operands(alloc, place, op, number && fits, literals, operands)
}

// Whether the first operand meets the row where a data set stands after it.
fn meets_first(given: &GivenKinds, before: &[CompExpr], datasets: &[Box<Node>]) -> bool
    ensures { result ≡ meets_first (given_by given.now) (map comp_exp_of before.now) (map boxed_tree datasets.now) }
{
    match (before, datasets) {
        (_, []) => true,
        ([first, ..], _) => given.gives(kind(first), kind(first)).is_some(),
        ([], [first, _, ..]) => !any_unmet(given, None, first.structure.components.as_slice()),
        ([], _) => true,
    }
}

// Kinds are asked also where a data set stands in the place of a literal.
fn first_fits(alloc: Global, op: ScalarOp, operands: &Parted) -> Result<bool, AllocError>
    ensures { IfOk result (λ fits. fits ≡ first_fits op (parted_view operands.now).before (parted_view operands.now).datasets) }
{
    if !takes_literals(op) {
        return Ok(true);
    }
    let given = between_kinds(alloc, op, &[], &[Kind::Int])?;
    Ok(meets_first(&given, &operands.before, &operands.datasets))
}

fn membership(negated: bool) -> ScalarOp
    ensures { result ≡ membership negated }
{
    if negated {
        ScalarOp::NotIn
    } else {
        ScalarOp::In
    }
}

fn push_members(operands: &mut Vec<Typed>, cells: Vec<Cell>) -> Result<(), AllocError>
    ensures { OnOk result (typed_trees operands.new ≡ typed_trees operands.old ++ map (λ c. value (const c)) cells.items) }
{
    for cell in cells {
        operands.push(Typed::Value(CompExpr::Const(cell)))?;
    }
    Ok(())
}

// An operand and the members of a set after it.
fn with_members(alloc: Global, operand: Typed, cells: Vec<Cell>) -> Result<Vec<Typed>, AllocError>
    ensures { IfOk result (λ v. typed_trees v ≡ typed_tree operand ∷ map (λ c. value (const c)) cells.items) }
{
    let mut operands = Vec::new(alloc);
    operands.push(operand)?;
    push_members(&mut operands, cells)?;
    Ok(operands)
}

/// `in` and `not_in`: the members of the set, and then the operator.
#[tactic(auto, unfolding(crate::specs::Operators::set_form))]
pub fn set(
    alloc: Global,
    profile: &Profile,
    place: &Place,
    negated: bool,
    literals: &[Literal],
    operand: Typed,
) -> Result<Typed, TypeErr>
    ensures { Answers typed_tree result (set_form profile.now place.now negated literals.now (typed_tree operand)) }
{
    let cells = set_members(alloc, profile, &operand.beside_kinds(alloc)?, literals)?;
    let operands = with_members(alloc, operand, cells.into_vec())?;
    operator(alloc, place, membership(negated), true, true, operands)
}
