//! Accumulators: cells are added one by one, and the value is that of an aggregate of the list of all of them.
//!
//! Totals are exact whatever the partial totals were, and each value is rounded once. A total, an average and a count
//! take a few instructions a cell and no memory; the least and the greatest keep one cell, the median all of them. Cells
//! may be of any kinds, since what they are is not known where they are added: integers and numbers are totalled apart.
//! It decides no kinds of aggregates (`vtl_cell`), and knows no groups, no windows and no tables.
//! Begin with `group_value` in vtl_cell/specs/Groups.antt, then specs/Added.antt and src/acc.rt.
#![tactic(auto)]

mod acc;
mod laws;
mod numbers;
mod state;
mod total;

pub use acc::Acc;
pub use laws::only_totals_and_counts_are_out_of_range;
pub use numbers::{fit, quotient, unit, units};
