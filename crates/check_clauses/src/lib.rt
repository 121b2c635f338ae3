//! Clauses and joins on typed operands: what `filter`, `calc`, `aggr`, `keep`, `drop`, `rename`, `sub`, `pivot`,
//! `unpivot` and the parts of a join make of an operand that is typed, or the first rule that is broken.
//!
//! The structures come from `check_shapes` and `check_joins`; this crate puts the tests of a clause's parts before
//! them, in written order, and makes the node.
//! It walks no tree (`check_expressions` does, and passes in each value typed), and it evaluates nothing: `vtl_clause`
//! does that, on points.
//! Begin with specs/Clauses.antt, then Targets.antt and JoinOperands.antt.
#![tactic(auto)]

mod aggr_targets;
mod calc_targets;
mod clauses;
mod join_nodes;
mod join_operands;
mod pivots;
mod renames;
mod subsetting;
mod targets;

pub use aggr_targets::{aggr, aggr_name, push_made};
pub use calc_targets::{calc, calc_name, push_item};
pub use clauses::{filter, keeping};
pub use join_nodes::{joined, joined_node, last_naming};
pub use join_operands::{Part, operands, push_part};
pub use pivots::{pivot, unpivot};
pub use renames::renaming;
pub use subsetting::sub;
pub use targets::Made;
