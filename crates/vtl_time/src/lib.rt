//! Days and periods of time: their texts, their order, and the shift of a period.
//!
//! The calendar is defined here; the crate `jiff` is asked whether a day exists, and is proved to answer by this
//! definition.
//! Which spellings an input may use is decided here; which kinds of values there are is not (`vtl_cell`).
//! Begin with specs/Days.antt and specs/Periods.antt.
#![tactic(auto)]

mod days;
mod laws;
mod numerals;
mod periods;

pub use days::{Day, read_day, write_day};
pub use laws::{periods_are_ordered_by_index, periods_stand_at_their_indexes, shifts_add_up};
pub use periods::{Frequency, Period, read_period, shift, write_period};
