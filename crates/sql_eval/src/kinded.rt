// Resolved expressions with their kinds.
ghost use Rattle.std.specs.Prelude.{◌≡◌, ◌++◌, ◌∷◌, [], OnOk, map};
ghost use Rattle.sql_eval.specs.View.{branch_of, placed_of};

use crate::{Resolved, ResolvedBranch};
use std::alloc::{AllocError, Global};
use vtl_cell::Kind;

/// An expression and its kind.
#[derive(Drop)]
pub struct Kinded {
    /// The expression.
    pub exp: Resolved,
    /// Its kind; that of null where its operands do not meet its operator.
    pub kind: Kind,
}

/// Operands and their kinds.
#[derive(Drop)]
pub(crate) struct Operands {
    pub(crate) exps: Vec<Resolved>,
    pub(crate) kinds: Vec<Kind>,
}

impl Operands {
    /// No operands.
    pub(crate) fn new(alloc: Global) -> Operands
        ensures exps { result.exps.items ≡ [] }
        ensures kinds { result.kinds.items ≡ [] }
    {
        Operands {
            exps: Vec::new(alloc),
            kinds: Vec::new(alloc),
        }
    }

    /// Puts an operand after the others.
    pub(crate) fn put(&mut self, operand: Kinded) -> Result<(), AllocError>
        ensures exps { OnOk result (self.new.exps.items ≡ self.old.exps.items ++ operand.exp ∷ []) }
        ensures kinds { OnOk result (self.new.kinds.items ≡ self.old.kinds.items ++ operand.kind ∷ []) }
    {
        let Kinded { exp, kind } = operand;
        self.exps.push(exp)?;
        self.kinds.push(kind)?;
        Ok(())
    }
}

/// Branches of CASE and the kinds of their values.
#[derive(Drop)]
pub(crate) struct Branches {
    pub(crate) branches: Vec<ResolvedBranch>,
    pub(crate) kinds: Vec<Kind>,
}

impl Branches {
    /// No branches.
    pub(crate) fn new(alloc: Global) -> Branches
        ensures branches { result.branches.items ≡ [] }
        ensures kinds { result.kinds.items ≡ [] }
    {
        Branches {
            branches: Vec::new(alloc),
            kinds: Vec::new(alloc),
        }
    }

    /// Puts a branch after the others: a condition, and the value where it is true.
    #[tactic(auto, using(crate::proofs::Views::views))]
    pub(crate) fn put(&mut self, condition: Resolved, value: Kinded) -> Result<(), AllocError>
        ensures branches { OnOk result (map branch_of self.new.branches.items ≡ map branch_of self.old.branches.items ++ (placed_of condition, placed_of value.exp) ∷ []) }
        ensures kinds { OnOk result (self.new.kinds.items ≡ self.old.kinds.items ++ value.kind ∷ []) }
    {
        let Kinded { exp: value, kind } = value;
        self.branches.push(ResolvedBranch { condition, value })?;
        self.kinds.push(kind)?;
        Ok(())
    }
}
