//! Joins as structures: which operands go together, the joined set, what `alias#name` stands for in it, and its final
//! naming.
//!
//! A join is typed in three steps, of which this is the middle one: `check_clauses` passes in operands that are typed
//! already, and the body comes after it.
//! It knows no expressions and no points.
//! Begin with specs/Joins.antt: `join_form`, and above it which operands go together.
#![tactic(auto)]

mod joined;
mod joins;

pub use joined::{held_names, join, last_renamings, member};
