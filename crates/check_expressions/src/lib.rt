//! Types an expression at a place: a data set outside of brackets, a value inside.
//!
//! One recursion, `typing`, goes over the tree and hands the types of its parts to the functions of each form
//! (`check_operators`, `check_groups`, `check_clauses`). It decides nothing itself: which rule breaks is said there.
//! A call of a ruleset is handed to the `Rulesets` that it is given: none (`NoRulesets`), or those that a script has
//! defined so far (`Defined`), whose conditions are typed at the call and may call none.
//! It knows no statements but the definitions that calls name (`vtl_check` has the script), and no points
//! (`vtl_meaning`).
//! Begin with `typed` in specs/Typing.antt: one line for each form; `typing` in src/walk.rt is that definition, arm for
//! arm. Then specs/Rulesets.antt: what calls of rulesets give.
#![tactic(auto)]

mod datapoints;
mod defined;
mod hierarchies;
mod join;
mod rulesets;
mod value;
mod walk;

pub use defined::Defined;
pub use rulesets::{NoRulesets, Rulesets};
pub use walk::typing;
