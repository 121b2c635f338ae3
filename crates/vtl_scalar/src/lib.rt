//! The scalar operators on values: `apply` gives exactly the value or the fault of the table in `vtl_cell`.
//!
//! It is total: where operands do not meet an operator's row the value is null, so an evaluator need not carry
//! kinds about. `apply_one`, `apply_two` and `apply_three` take lent operands, and `Members` are a set that many values
//! are looked up in. `to_kind` makes a value one of the kind that an expression has. `Given` is a value that is lent or made. `Seen` is
//! the fault that a walk has seen so far, and `RunErr` names what has it: both evaluators use them.
//! It decides no rule of typing and evaluates no expression (`vtl_expr`): operands come as values.
//! Begin with `scalar_of` in vtl_cell/specs/Scalars.antt, then src/operators.rt.
#![tactic(auto)]

mod arithmetic;
mod choice;
mod comparison;
mod conversion;
mod error;
mod given;
mod laws;
mod members;
mod operands;
mod operators;
mod periods;
mod run_error;
mod seen;
mod texts;

pub use comparison::truth;
pub use conversion::to_kind;
pub use error::ScalarErr;
pub use given::{
    Given, first_chosen, given_of_kind, made_of_kind, value_of_one, value_of_three, value_of_two,
};
pub use laws::{
    integers_are_numbers, members_have_no_order, null_gives_null, other_operators_have_no_fault,
    values_are_of_the_profile, values_are_of_their_kind,
};
pub use members::Members;
pub use operators::{apply, apply_one, apply_three, apply_two};
pub use run_error::RunErr;
pub use seen::Seen;
