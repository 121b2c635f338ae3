//! What the time operators `timeshift`, `fill_time_series`, `flow_to_stock` and `stock_to_flow` mean.
//!
//! It decides what the time of a data set is and which points are a series, and gives each operator as a map on points.
//! It stands apart from `vtl_meaning`, since it alone needs the rows of series, which the SQL dialect has too.
//! It knows no table, no tree of a script and no text. It has no code: the functions are laws of the definitions.
//! Begin with specs/Times.antt, then proofs/TimeExamples.antt.
#![tactic(auto)]

mod laws;

pub use laws::{time_operators_do_not_see_order, time_operators_keep_data_sets};
