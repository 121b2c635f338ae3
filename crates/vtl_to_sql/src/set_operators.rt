// Set operators.

/// An operator on two data sets or more, whose points are those of its operands.
#[derive(Clone, Copy)]
pub(crate) enum SetOperator {
    /// `union`
    Union,
    /// `intersect`
    Intersection,
    /// `setdiff`
    Difference,
    /// `symdiff`
    SymmetricDifference,
}
