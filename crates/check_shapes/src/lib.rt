//! The structure that each operator on data sets gives, or the first type rule that its operands break.
//!
//! Names in lists with a wanted role, choices by names, operators on measures, clauses, operators on several data sets:
//! each as a function on components. Every result passes one list of tests (`shaped`), also where an operator cannot
//! break one: so that a result is a structure is one law.
//! It knows no expressions, no values and no syntax trees: operators come as functions on kinds.
//! Begin with specs/Shape.antt, then Names.antt and Clauses.antt.
#![tactic(auto)]

mod checks;
mod choices;
mod measures;
mod names;
mod pairs;
mod pivots;
mod renaming;
mod shape;
mod targets;

pub use checks::{bool_var, errorcode, errorlevel, imbalance};
pub use choices::{choose, choose_known};
pub use measures::{Operator, any_unmet, measured};
pub use names::{check_names, known};
pub use pairs::{check, choose_by, exists_in, pair, set_operator};
pub use pivots::{pivot, unpivot};
pub use renaming::rename;
pub use shape::{results_are_structures, shaped};
pub use targets::{aggr, calc};
