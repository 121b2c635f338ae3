//! The demonstration: a script over two data sets of a chosen size, by two back ends, and a line on what each gives.
//!
//! The data sets are made of the draws of a fixed sequence, and the script is a constant. That it is accepted, that it
//! has no fault over at most a million points, and that the join has a point for each number, are laws here, so that the
//! only answer besides the lines is that memory ran out.
//! It takes any two back ends, and knows no file, no command and no status.
//! Begin with specs/DataSets, Script and Said, then `demonstration.rt`.
#![tactic(auto)]

mod data_sets;
mod demonstration;
mod draws;
mod laws;
mod limits;
mod script;
mod structures;

pub use demonstration::demonstrate;
pub use laws::{demonstration_has_no_fault, points_are_data_sets, script_is_accepted};
pub use limits::MOST_POINTS;
