//! Series of periods with no gap: for each series of a table's rows, a row for each period from its first to its last.
//!
//! The SQL dialect has them as a source of a query and VTL as `fill_time_series`; both give the rows that are defined and
//! made here, so that one definition and one algorithm serve both. Rows are put in groups by the other columns alone, and
//! each group has at most four series, one of each frequency: no row is sorted, and no frequency is written down. How
//! many rows there will be is counted first, and room for all is asked for at once, so that what cannot be held is
//! refused before any row is made.
//! It knows no language: neither names of sources nor roles of components. Which place of the answer a period stands at,
//! it decides itself: behind the other columns.
//! Begin with specs/Series.antt and src/laws.rt, then `series.rt`.
#![tactic(auto)]

mod columns;
mod extent;
mod laws;
mod series;
mod spans;

pub use extent::Extent;
pub use laws::{
    rows_are_seen_in_no_order, rows_fit_their_kinds, rows_stand_once, series_are_whole,
};
pub use series::rows_of_series;
