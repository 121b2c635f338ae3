//! The value of an expression at a point or over a group, and the operators that work on every measure of one or two
//! data sets.
//!
//! It decides how these values are computed, how the points of two data sets find one another, and which of several
//! faults is the answer. The value that is meant is defined in `vtl_tree` for an expression and in `vtl_meaning` for an
//! operator; the structure of a result is decided where scripts are checked, and passed in. Clauses on data sets are
//! left to `vtl_clause`.
//! It knows no script, no statement, no file and no text format. What a group is, it leaves to what implements
//! [`Cells`].
//! An expression is prepared once (`prepared.rt`) and then has a value at each point and over each group, which is lent
//! where it stands.
//! Begin with `prepared.rt`, `cells.rt` and `evaluation.rt`, then `points.rt` and `measures.rt`.
#![tactic(auto)]

mod cells;
mod choice;
mod columns;
mod evaluation;
mod expressions;
mod kept_columns;
mod measures;
mod namesakes;
mod pairs;
mod partners;
mod places;
mod point;
mod points;
mod prepared;

pub use cells::{Cells, cell_at};
pub use choice::choose;
pub use evaluation::value_at;
pub use kept_columns::keep_columns;
pub use measures::map_measures;
pub use pairs::pair_measures;
pub use places::{places_in, push_cells};
pub use point::{Point, eval};
pub use points::{Points, each_point};
pub use prepared::{Prepared, prepare, prepare_all};
