//! The parts of component expressions: literals, names of components, operators on values, windows, groupings.
//!
//! Each function takes parts that are typed and gives a component expression with its kind, or the rule that is
//! broken. Literals get their values here, at the scale of the run.
//! It knows no data sets as operands and walks no tree (`check_operators`, `check_expressions`).
//! Begin with specs/Calls.antt and specs/Literals.antt.
#![tactic(auto)]

mod calls;
mod columns;
mod groupings;
mod literals;
mod operators;
mod windows;

pub use calls::{call, kinds_in};
pub use columns::{column, name, share_text};
pub use groupings::{grouping, grouping_choice, grouping_names, grouping_of};
pub use literals::{constant, kind_met, literal, literal_kind, literals_fit, met_beside, set};
pub use operators::{binary_operator, function_operator, takes, unary_operator};
pub use windows::{frame_alone, points, window};
