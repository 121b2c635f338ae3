//! What typed expressions and scripts mean over data sets: definitions, and their laws. It has no code.
//!
//! Every back end must keep to `meaning`. What each operator gives is said by `vtl_meaning`, what checks and
//! hierarchies give by `vtl_rulings`; here stands in which order the parts of an expression and the statements of a
//! script are evaluated, which fault is theirs, and what it is for an expression to be made over known data sets
//! (specs/Made.antt).
//! It stands above both, so that an operator's code is proved without it. It knows no tables, no files and no program.
//! Begin with specs/Meaning.antt.
#![tactic(auto)]

mod laws;

pub use laws::{
    meaning_does_not_see_order, results_are_determined, results_are_of_the_profile,
    scripts_keep_data_sets,
};
