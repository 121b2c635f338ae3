//! Component expressions of VTL, of rules and of all else, as expressions of the SQL dialect, with the law that they mean the
//! same.
//!
//! An expression of a point, or of a group, is written with one operator for each of its own, so that its SQL stays
//! readable; over any columns that name the components it has the kind and the value that it has in VTL, faults
//! included, fits where it stands, and can be printed. Which select it stands in is for others to decide.
//! It knows no data sets, no nodes and no scripts of either language.
//! Begin with specs/ToSql.antt and Constants.antt, then `laws.rt`.
#![tactic(auto)]

mod aliases;
mod constants;
mod forms;
mod laws;
mod texts;
mod translation;

pub use aliases::Aliases;
pub use constants::{const_to_sql, literal_to_sql};
pub use laws::{
    depths_grow_by_one, kinds_stay, translations_are_formed, translations_fit, values_stay,
};
pub use translation::comp_to_sql;
