//! The typing of scripts of the SQL dialect: `check` gives a formed script back as one that is typed, or gives its
//! fault.
//!
//! Statements in order: what they give to later ones, exports, and the profile of SET. What is known of a typed script
//! is read of its tree, in `sql_check_laws`.
//! It decides nothing inside a query (`sql_check_queries`) and runs nothing.
//! Begin with sql_check_parts/specs/Statements.antt, then src/checked.rt.
#![tactic(auto)]

mod checked;
mod error;
mod exports;
mod given;
mod inputs;
mod scripts;
mod settings;
mod statements;

pub use checked::{SqlChecked, check};
pub use error::SqlTypeErr;
