//! The whole and its parts: what an aggregate gives of all points, told from what it gives of their groups; and an
//! aggregate of a data set beside `aggr`. Laws on the definitions of `vtl_meaning`; no code.
//!
//! They stand apart: that an aggregate may be made group by group is what a reader asks of sums and counts, and no
//! other proof needs it, so no crate stands on this one. It holds of the whole outcome, but for sums in which a group
//! alone leaves the range.
//! It knows no script, no window and no table, and types nothing.
//! Begin with specs/Parts.antt, specs/Targets.antt, proofs/Examples.antt and src/laws.rt.
#![tactic(auto)]

mod laws;

pub use laws::{
    aggregates_by_all_identifiers_keep_points, aggregates_of_aggregates_are_those_of_all,
    aggregates_of_data_sets_are_aggr, counts_add_up_to_the_count,
    grouping_except_is_grouping_by_the_others, groups_part_the_points, having_is_a_filter,
    least_and_greatest_of_groups_are_those_of_all, sums_add_up_to_the_sum,
};
