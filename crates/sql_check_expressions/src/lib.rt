//! The typing of the SQL dialect's expressions: the kind of one at a place, and the least rule that it breaks.
//!
//! One recursion over the tree, at rows or in a group; it passes operands' kinds to `sql_check_parts`, which decides.
//! It knows no select: what can be seen is passed in as a `Site`.
//! Begin with sql_check_parts/specs/Expressions.antt, then src/walk.rt.
#![tactic(auto)]

mod aggregates;
mod operators;
mod parts;
mod site;
mod walk;

pub use aggregates::has_aggregate;
pub use site::Site;
pub use walk::{condition, expression};
