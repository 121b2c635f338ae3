//! Cells: a value of one of six kinds, or null, with their order, their equality and their texts.
//!
//! Rows, keys, sorts, joins and groups all compare by the one order and the one equality that are defined here. The
//! table of scalar operators stands here as definitions (values, kinds, spellings in both languages), and so do
//! aggregates, orders of rows and frames, so that the two languages cannot drift apart; `vtl_scalar` computes the
//! operators. The kinds that operators and aggregates take and give, and the values that literals write, stand here
//! too: which operands have to be literals, and in which intervals, is said once for the checkers of both languages.
//! It knows no columns, no structures and no files: what an empty field means is for `vtl_csv` to say. It knows neither
//! language's syntax and no rule numbers: which rule breaks is for the checkers to say.
//! Begin with specs/Kinds.antt, Order.antt and Scalars.antt; for typing with OperatorKinds.antt and AggregateKinds.antt.
#![tactic(auto)]

mod aggregate_kinds;
mod cell;
mod kind;
mod laws;
mod literals;
mod logic;
mod operator;
mod operator_kinds;
mod reading;
mod row;
mod writing;

pub use aggregate_kinds::{aggregate_kind, is_number, number_of};
pub use cell::{Cell, clone_cell, compare, hashes_tell_apart, is_same, order_is_lawful};
pub use kind::{Kind, is_same_kind};
pub use laws::{
    frames_lie_between_their_bounds, groups_have_no_order, least_and_greatest_are_bounds,
};
pub use literals::{
    LARGEST_PLACE, LONGEST_REACH, integer_cell, integer_written, is_null_kind, lies_between,
    number_cell, with_sign, written,
};
pub use logic::{and3, not3, or3, xor3};
pub use operator::{AggKind, ScalarOp};
pub use operator_kinds::{
    common_kind, counted_kinds, kind_by_operands, meets, operator_kind, shared_kind,
};
pub use reading::read_cell;
pub use row::{is_same_key, is_same_row};
pub use writing::write_cell;
