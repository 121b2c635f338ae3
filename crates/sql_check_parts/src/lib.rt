//! The typing of the SQL dialect as one definition, and the parts of it that look at no expression's operands:
//! names, literals, windows, EXISTS.
//!
//! For each part the definition gives the rules that it breaks, each a test of its own; the fault is the least of them.
//! Whatever has no kind counts as null, which meets every row of the table: so no rule is broken since another one is.
//! Tables, columns and sources by name stand here for the crates above.
//! It walks no expression, and knows nothing of VTL's structures: the kinds of both languages are in `vtl_cell`.
//! Begin with specs/Rules.antt, then Expressions.antt, Queries.antt and Statements.antt.
#![tactic(auto)]

mod columns;
mod existence;
mod given;
mod grouping;
mod limits;
mod literals;
mod operators;
mod rules;
mod scope;
mod tables;
mod told;
mod windows;

pub use columns::{Columns, repeats};
pub use existence::exists;
pub use given::{GivenColumns, columns_from, lacks_names, misnames_series};
pub use grouping::Grouping;
pub use limits::{MOST_COLUMNS, MOST_INPUT_COLUMNS};
pub use literals::{constant, constant_value, list_fault, literal_value, literals_fit};
pub use operators::{aggregate, call, case, condition_fault, operator};
pub use rules::{SqlRule, Test, least_broken, lesser};
pub use scope::{Scope, column};
pub use tables::Tables;
pub use told::{Told, or_null};
pub use windows::{columns_fault, window};
