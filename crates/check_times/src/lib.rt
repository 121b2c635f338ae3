//! Time operators on typed operands: the operator from what is written behind its operand, and the structure of the
//! result.
//!
//! It decides what a time operator asks of its operand: exactly one identifier that holds periods (`NoTime`), and for
//! flows and stocks at least one measure, and measures that are numbers or integers.
//! It walks no tree, and knows no series and no points.
//! Begin with specs/Timed.antt.
#![tactic(auto)]

mod operators;
mod structures;

pub use structures::time;
