//! Typed expressions, the places where they stand, and what operators make of typed operands.
//!
//! A typed expression is a value or a data set (`Typed`), and the place says what its names stand for: data sets
//! outside of brackets; inside, the components of points, of groups or of a joined set. Operators, `#`, set operators,
//! `exists_in` and `check` are typed here.
//! It walks no tree: operands come typed. It knows no statements and no points.
//! Begin with specs/Places.antt and Typed.antt, then Operators.antt.
#![tactic(auto)]

mod operands;
mod operator_kinds;
mod operators;
mod places;
mod placing;
mod scope;
mod set_operators;
mod typed;
mod written_names;

pub use operators::{operator, set};
pub use places::{Inside, Joined, Place, columns_at, groups, in_aggregate, points, regrouped};
pub use scope::{Scope, name};
pub use set_operators::{check, check_spec, difference, exists, member, sets};
pub use typed::{Typed, condition, made_node, made_of};
pub use written_names::{
    WrittenName, constant, member_inside, name_written, written, written_by, written_in,
};
