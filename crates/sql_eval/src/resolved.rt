// Expressions whose names are resolved.

use crate::Origin;
use vtl_cell::{AggKind, Cell, Kind, ScalarOp};
use vtl_scalar::Members;

/// A side of an equality of EXISTS.
#[derive(Clone, Copy, Debug, PartialEq, Eq, PartialOrd, Ord)]
pub enum Side {
    /// The cell at a place of a row of EXISTS's own table.
    Inner(usize),
    /// The cell at a place of the row at which EXISTS is asked.
    Outer(usize),
}

/// An equality of EXISTS.
#[derive(Clone, Copy, Debug, PartialEq, Eq, PartialOrd, Ord)]
pub struct Tie {
    /// What stands before the sign.
    pub left: Side,
    /// What stands after it.
    pub right: Side,
}

/// What EXISTS asks: whether some row of a table, or of a SERIES, makes every equality true. They have an order, in which
/// equal ones are found.
#[derive(Drop, PartialEq, Eq, PartialOrd, Ord)]
pub struct Existence {
    /// The table, or the SERIES over it.
    pub table: Origin,
    /// The equalities.
    pub ties: Vec<Tie>,
}

/// An expression as it is evaluated at many rows: its columns are places, its constants are values and its operators
/// have their kinds, and the set of an IN stands in an order in which a value is found at once.
#[cycle(resolved)]
pub enum Resolved {
    /// The cell at a place.
    Column(usize),
    /// A value that is the same at all rows.
    Const(Cell),
    /// An operator on the values of its operands.
    Apply {
        /// The operator.
        op: ScalarOp,
        /// The kind of the result.
        kind: Kind,
        /// The operands, from left to right.
        args: Vec<Resolved>,
    },
    /// Whether a value is in a set, or whether it is not where it is negated.
    Membership {
        /// The value.
        operand: Box<Resolved>,
        /// Whether it is asked that the value is not in the set.
        negated: bool,
        /// The set.
        members: Members,
    },
    /// The value behind the first condition that is true, or null where none is. ELSE is a branch whose condition is
    /// true.
    Choose {
        /// The kind of the result.
        kind: Kind,
        /// The conditions with their values, in order.
        branches: Vec<ResolvedBranch>,
    },
    /// Whether a table has a row.
    Exists(Existence),
    /// How many rows the group has.
    CountAll,
    /// An aggregate of the values that the operand has at the rows of the group.
    Aggregate {
        /// The aggregate.
        function: AggKind,
        /// The operand.
        operand: Box<Resolved>,
    },
}

// Written out, so that a proof above sees one call and not the drop of each part.
impl Drop for Resolved {
    #[cycle(dropped)]
    fn drop(self) {
        match self {
            Resolved::Column(_) => {}
            Resolved::Const(_cell) => {}
            Resolved::Apply {
                op: _,
                kind: _,
                args: _args,
            } => {}
            Resolved::Membership {
                operand: _operand,
                negated: _,
                members: _members,
            } => {}
            Resolved::Choose {
                kind: _,
                branches: _branches,
            } => {}
            Resolved::Exists(_test) => {}
            Resolved::CountAll => {}
            Resolved::Aggregate {
                function: _,
                operand: _operand,
            } => {}
        }
    }
}

/// A condition, and the value where it is true.
#[cycle(resolved)]
#[derive(Drop)]
pub struct ResolvedBranch {
    /// The condition.
    pub condition: Resolved,
    /// The value where it is true.
    pub value: Resolved,
}
