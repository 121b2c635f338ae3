//! Expressions of the SQL dialect as an engine evaluates them: resolved once for a select, with places in place of
//! names, and then evaluated at each row and each group on cells that are lent.
//!
//! `resolve` says of what it gives that it has the meaning's value (`sql_meaning`) at each row and each group,
//! whatever rows the tables have; `value_at` gives that value or its fault. What EXISTS asks is a table, or a SERIES over
//! it by the places of its columns (`Origin`). How a row is kept, how EXISTS is answered
//! and how an aggregate is taken over a group's rows is left to what implements [`Cells`], and where the cells of
//! columns stand to what implements [`Names`]. It knows no select and no script, and nothing of VTL's structures.
//! Begin with specs/Placed.antt and Resolves.antt, then `resolved.rt`, `cells.rt`, `evaluation.rt` and
//! `resolving.rt`.
#![tactic(auto)]

mod cells;
mod constants;
mod evaluation;
mod existence;
mod group_columns;
mod kinded;
mod names;
mod naming;
mod origin;
mod parts;
mod resolved;
mod resolving;

pub use cells::Cells;
pub use evaluation::value_at;
pub use group_columns::GroupColumns;
pub use kinded::Kinded;
pub use names::{Level, Names};
pub use naming::set_named;
pub use origin::{Origin, SeriesPlaces};
pub use resolved::{Existence, Resolved, ResolvedBranch, Side, Tie};
pub use resolving::resolve;
