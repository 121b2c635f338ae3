//! Exact decimal numbers of at most 18 digits, with a declared scale and rounding.
//!
//! A number is a whole count of units of the last place, so a value has a meaning only within one profile. Each
//! operation is rounded once, by the profile's rule, or answers `Range` or `DivZero`; sums are exact whatever the
//! partial sums were.
//! It decides nothing about null, kinds or which operators there are (`vtl_cell`, `vtl_scalar`).
//! Begin with specs/Settings.antt, Range.antt and Operators.antt.
#![tactic(auto)]

mod digits;
mod line;
mod number;
mod operators;
mod parse;
mod powers;
mod quotient;
mod reading;
mod scaling;
mod settings;
mod total;
mod wholes;
mod writing;

pub use number::{Dec, Fault};
pub use operators::{abs, add, div, modulo, modulo_whole, mul, neg, sub};
pub use reading::{BadNumber, read, read_literal, read_whole, read_whole_literal};
pub use settings::{Profile, Rounding};
pub use total::Sum;
pub use wholes::{ceil, floor, from_whole, round, trunc, whole};
pub use writing::{write, write_whole};
