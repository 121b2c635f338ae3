//! Laws of scripts that are run part by part: the parts of a script mean the script, what does not depend on a data set
//! does not change with it, and the result of one part may be given to another. It has no code.
//!
//! A refresh of a session (`vtl_rerun`) stands on these, and so does the command that replays edits: what a refresh runs
//! and which transformations are fresh behind it is said here (specs/Refreshes.antt), of the meaning alone.
//! It runs nothing.
//! Begin with specs/Parts.antt, Values.antt, Depends.antt and Refreshes.antt, then src/laws.rt.
#![tactic(auto)]

mod laws;

pub use laws::{
    only_dependents_change, parts_in_turn_mean_the_script, parts_mean_their_transformations,
    parts_stand_for_their_transformations, results_may_be_given_on, values_are_data_sets,
    values_make_the_meaning, what_is_read_suffices,
};
