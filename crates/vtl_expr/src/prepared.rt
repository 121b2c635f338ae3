// Expressions that are evaluated at many points or over many groups.
//
// An expression is prepared once for a node and evaluated over lent cells (`Prepared`, `Given`): sets of constants
// stand in order, values that stand in the point or in the expression are lent, and memory is taken for new texts
// alone. `eval` prepares for one point.
ghost use Rattle.std.specs.Prelude.{◌≡◌, ◌<◌, IfOk, IfSome, drop, length, map};
ghost use Rattle.vtl_cell.specs.declared.kind.Kind.{Kind};
ghost use Rattle.vtl_tree.specs.CompExp.{call, const};
ghost use Rattle.vtl_tree.specs.View.{comp_exp_of, comp_exps_of};
ghost use Rattle.vtl_expr.specs.Prepared.{SameValue, SameValues, membership_op, membership_test, prepared_exp};

use std::alloc::{AllocError, Global};
use vtl_cell::{Cell, Kind, ScalarOp, clone_cell};
use vtl_scalar::Members;
use vtl_text::Txt;
use vtl_tree::{AggCall, CompExpr};

/// An expression as it is evaluated at many points or over many groups: it keeps of the tree what a value depends on,
/// and its sets stand in an order in which a value is found at once.
pub enum Prepared {
    /// The cell of a column.
    Column {
        /// Its place.
        place: usize,
        /// Its name.
        name: Txt,
    },
    /// A value that is the same everywhere.
    Const(Cell),
    /// An aggregate of the points of a group.
    Aggregate(AggCall),
    /// An operator on the values of its operands.
    Apply {
        /// The operator.
        op: ScalarOp,
        /// The kind of the result.
        kind: Kind,
        /// The operands, from left to right.
        args: Vec<Prepared>,
    },
    /// Whether a value is in a set, or whether it is not.
    Membership {
        /// Whether `in` is asked, and not `not_in`.
        is_in: bool,
        /// The value.
        operand: Box<Prepared>,
        /// The set.
        members: Members,
    },
}

// Written out, so that a proof above sees one call and not the drop of each part.
impl Drop for Prepared {
    #[cycle(dropped)]
    fn drop(self) {
        match self {
            Prepared::Column {
                place: _,
                name: _name,
            } => {}
            Prepared::Const(_cell) => {}
            Prepared::Aggregate(_call) => {}
            Prepared::Apply {
                op: _,
                kind: _,
                args: _args,
            } => {}
            Prepared::Membership {
                is_in: _,
                operand: _operand,
                members: _members,
            } => {}
        }
    }
}

/// The expression, prepared: its value at each point and over each group is that of the tree. It fails only if memory
/// runs out.
#[cycle(preparing)]
pub fn prepare(alloc: Global, e: &CompExpr) -> Result<Prepared, AllocError>
    ensures { IfOk result (λ x. SameValue (prepared_exp x) (comp_exp_of e.now)) }
{
    match e {
        CompExpr::Column { place, name, .. } => Ok(Prepared::Column {
            place: *place,
            name: name.share()?,
        }),
        CompExpr::Const(cell) => Ok(Prepared::Const(clone_cell(cell)?)),
        CompExpr::Aggregate { call, .. } => Ok(Prepared::Aggregate(call.share()?)),
        CompExpr::Apply { op, kind, args } => {
            let args = prepare_all(alloc, args)?;
            prepared_call(alloc, *op, *kind, args)
        }
    }
}

/// Expressions, prepared one by one: the values of each are those of the tree. It fails only if memory runs out.
#[cycle(preparing)]
pub fn prepare_all(alloc: Global, exps: &[CompExpr]) -> Result<Vec<Prepared>, AllocError>
    ensures { IfOk result (λ v. SameValues (map prepared_exp v.items) (map comp_exp_of exps.now)) }
{
    let mut all = Vec::with_capacity(alloc, exps.len())?;
    for e in exps {
        all.push(prepare(alloc, e)?)?;
    }
    Ok(all)
}

// An operator on prepared operands: one that asks for a set of constants gets the set in order.
fn prepared_call(
    alloc: Global,
    op: ScalarOp,
    kind: Kind,
    args: Vec<Prepared>,
) -> Result<Prepared, AllocError>
    ensures { IfOk result (λ x. SameValue (prepared_exp x) (call op kind (comp_exps_of (map prepared_exp args.items)))) }
{
    match membership_test(op) {
        Some(is_in) if !args.is_empty() => match constants(alloc, &args[1..])? {
            Some(listed) if !listed.is_empty() => in_set(alloc, is_in, args, listed),
            _ => Ok(Prepared::Apply { op, kind, args }),
        },
        _ => Ok(Prepared::Apply { op, kind, args }),
    }
}

// Which question an operator asks of a set, if it asks one: whether a value is in it (true), or whether it is not.
fn membership_test(op: ScalarOp) -> Option<bool>
    ensures { result ≡ membership_test op }
{
    match op {
        ScalarOp::In => Some(true),
        ScalarOp::NotIn => Some(false),
        _ => None,
    }
}

// The values of constants; none where one of the expressions is no constant.
fn constants(alloc: Global, exps: &[Prepared]) -> Result<Option<Vec<Cell>>, AllocError>
    ensures { IfOk result (λ o. IfSome o (λ cells. map prepared_exp exps.now ≡ map const cells.items)) }
{
    let mut cells = Vec::with_capacity(alloc, exps.len())?;
    for e in exps {
        match e {
            Prepared::Const(cell) => cells.push(clone_cell(cell)?)?,
            _ => return Ok(None),
        }
    }
    Ok(Some(cells))
}

// Whether the value of the first operand is in the set that the others list.
fn in_set(
    alloc: Global,
    is_in: bool,
    args: Vec<Prepared>,
    listed: Vec<Cell>,
) -> Result<Prepared, AllocError>
    requires operands { 0 < length args.items }
    requires members { 0 < length listed.items }
    requires constant { map prepared_exp (drop 1 args.items) ≡ map const listed.items }
    ensures { IfOk result (λ x. (kind : Kind) → SameValue (prepared_exp x) (call (membership_op is_in) kind (comp_exps_of (map prepared_exp args.items)))) }
{
    let mut args = args;
    let operand = args.swap_remove(0);
    Ok(Prepared::Membership {
        is_in,
        operand: Box::new(alloc, operand)?,
        members: Members::of(alloc, &listed)?,
    })
}
