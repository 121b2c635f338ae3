//! The time operators on data sets: `timeshift`, `fill_time_series`, `flow_to_stock` and `stock_to_flow`.
//!
//! It decides how series are found and gone over: for stocks and flows the points are sorted once by the other
//! identifiers and the time, each group is cut by the frequencies of its times, and each value is put back at its point;
//! a filled data set is gathered from the rows of its series and the points. What the operators mean is defined in
//! `vtl_timing`; the structure of a result is decided where scripts are checked, and passed in.
//! It stands apart from `vtl_group`, since it needs the rows of series and values along partitions, which groups do not.
//! It knows no script, no statement, no file and no text format.
//! Begin with `shift.rt` and `column.rt`, then `fill.rt`, `order.rt` and `flows.rt`.
#![tactic(auto)]

mod along;
mod column;
mod fill;
mod flows;
mod lists;
mod order;
mod places;
mod rows;
mod shift;

pub use fill::fill_time_series;
pub use flows::{flow_to_stock, stock_to_flow};
pub use shift::timeshift;
