//! Laws of the time operators that nothing else rests on: what a reader expects of operators with these names.
//!
//! Shifts add up, a filled series has no gap, filling twice is filling once, and flows undo stocks. It has no code: the functions are laws.
#![tactic(auto)]

mod laws;

pub use laws::{
    filled_series_are_filled, filled_series_have_no_gap, flows_undo_stocks,
    shifts_follow_each_other,
};
