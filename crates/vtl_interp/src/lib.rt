//! The interpreter: the back end that evaluates the operators of a script one after the other, over tables in
//! memory.
//!
//! It holds data sets by name, lends them to the operators that read them, and releases each after the last statement
//! that reads it. What an operator gives is computed by `vtl_expr`, `vtl_clause`, `vtl_combine`, `vtl_group`,
//! `vtl_window`, `vtl_times`, `vtl_join` and `vtl_rules`. Beside it `run_over` runs a script by any back end, over inputs that it
//! puts in order where that is of use, and then lets go.
//! It decides no type rule (the script is typed already), reads and writes no file, and knows no status.
//! Begin with vtl_backend/specs/Runs.antt, which it meets, then src/statements.rt and src/evaluation.rt.
#![tactic(auto)]

mod applied;
mod checks;
mod combinations;
mod evaluation;
mod held;
mod inputs;
mod interp;
mod last_reads;
mod ordered;
mod statements;
mod times;
mod value;
mod windows;

pub use interp::Interp;
pub use ordered::run_over;
