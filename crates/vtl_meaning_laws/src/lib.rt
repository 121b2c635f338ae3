//! What the definitions of `vtl_meaning` satisfy: laws from which a reader sees that set operators, joins, aggregates and
//! windows are what they are called. It has no code.
//!
//! They stand apart, since no other proof needs them: no crate stands on this one. Points of several operands are
//! compared in the columns of a result (`left_of`), which are the first operand's identifiers and measures.
//! It knows no script, no table, no file and no program.
//! Begin with src/sets.rt and src/joins.rt; proofs/Examples.antt has a use of each.
#![tactic(auto)]

mod codes;
mod joins;
mod pivots;
mod sets;
mod windows;

pub use codes::{
    clauses_keep_codes, codes_are_kept_where_all_list_the_same,
    joins_keep_codes_where_all_list_the_same, operators_on_one_data_set_keep_codes,
};
pub use joins::{
    full_joins_are_sets_of_tuples, inner_joins_are_whole_left_joins,
    inner_joins_do_not_see_which_stands_first, left_joins_are_full_joins_of_first_points,
    left_joins_are_sets_of_tuples,
};
pub use pivots::unpivot_undoes_pivot;
pub use sets::{
    differences_and_intersections_part_the_whole, existence_is_intersection_or_difference,
    sets_with_themselves, symmetric_differences_are_two_differences, unions_are_associative,
};
pub use windows::{
    falling_orders_are_rising_ones_from_their_end, frames_of_the_current_point_hold_it_alone,
    lag_and_lead_are_inverse, partitions_give_what_groups_give, points_stand_at_their_places,
    ranks_without_ties_are_places, running_aggregates_end_at_the_group,
};
