//! Reads the expression at the front of some tokens, of depth 128 at most.
//!
//! Some forty productions call each other in a circle. They are methods over a closure that reads at the budget
//! below, so that each is proved alone; `read` closes the circle, and its measure is the budget. Lists, chains of
//! operators and clauses are loops.
//! It knows no statements (`vtl_parser`) and nothing of what an expression means.
//! Begin with src/reading.rt and specs/Reads.antt; the mirror is vtl_grammar/specs/ReadExpressions.antt.
#![tactic(auto)]

mod aggregates;
mod calls;
mod clauses;
mod grammar;
mod joins;
mod levels;
mod lists;
mod reading;
mod reads;
mod turns;

pub use reading::whole_expression;
