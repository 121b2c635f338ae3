//! What operators give over data sets: definitions on lists of points, and their laws. It has
//! no code.
//!
//! Every back end must keep to `meaning`. The laws say that operators give data sets, do not depend on the order of
//! points, and agree with look-up by identifiers; conditions say which structure a result has, component by component
//! (specs/Made.antt), and which operands are literals, not how typing found them.
//! The values of aggregates themselves are those of `group_value` (vtl_cell/specs/Groups.antt); frames as parts of
//! lists, and ranks, are those of vtl_cell/specs/Frames.antt and Sorted.antt.
//! It knows no tables, no files and no program: `vtl_expr`, `vtl_clause`, `vtl_group` and their neighbours compute this.
//! Begin with specs/Operators.antt, Joined.antt, Sets.antt, Turned.antt, Groups.antt, Aggregates.antt, Windows.antt,
//! and Analytics.antt; LookUps.antt says the same in the words of the manual.
//!
//! The laws of joins and sets stand here with those of the other operators, and not in a crate above: the laws of
//! whole scripts go over all forms, and the code of a join needs that its result is a data set.
#![tactic(auto)]

mod aggregate_laws;
mod join_laws;
mod laws;
mod set_laws;
mod structures;
mod window_laws;

pub use aggregate_laws::{
    aggregates_by_look_up, aggregates_do_not_see_order, aggregates_keep_data_sets,
    points_without_grouping_are_one_group, typed_aggregates_fit,
};
pub use join_laws::{
    inner_joins_are_all_that_agree, joins_by_look_up, joins_do_not_see_order,
    joins_grow_operand_by_operand, joins_keep_data_sets, left_and_full_joins_lose_nothing,
};
pub use laws::{
    faults_are_joined, operators_by_look_up, operators_do_not_see_order, operators_keep_data_sets,
    values_are_of_their_kind,
};
pub use set_laws::{
    intersections_are_folds, pivot_undoes_unpivot, pivots_and_unpivots, set_operators_by_look_up,
    set_operators_do_not_see_order, set_operators_keep_data_sets, unions_are_folds,
};
pub use structures::structures_are_determined;
pub use window_laws::{
    analytics_by_look_up, analytics_do_not_see_order, analytics_keep_data_sets,
    typed_analytics_fit, whole_partitions_are_groups, windows_place_points,
};
