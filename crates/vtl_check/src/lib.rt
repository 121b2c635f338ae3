//! Types a script over declared structures: `check` gives its typed trees, or the first faulty statement and its
//! rule.
//!
//! Statements in order, each over the declared data sets, and the results and rulesets before it; names of results and
//! rulesets, and the limit of 4,096 nodes and rules. A `Checked` keeps as its invariant that it is this typing, and says
//! which data sets the script reads and gives.
//! It decides no rule of an expression (`check_expressions`) or of a ruleset (`check_rules`), reads no files and runs
//! nothing.
//! Begin with specs/Script.antt, then specs/Uses.antt and src/checked.rt.
#![tactic(auto)]

mod checked;
mod count;
mod error;
mod known;
mod names;
mod script;
mod uses;
mod verdicts;

pub use checked::{Checked, check};
pub use error::CheckErr;
pub use names::read_names;
pub use verdicts::verdict;
