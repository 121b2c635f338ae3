//! Clauses on data sets: `filter`, `calc`, `rename` and `sub`. `keep` and `drop` leave some of the columns, as
//! `vtl_expr::keep_columns` does. `keep_rows` filters rows that come table by table.
//!
//! It decides which points a clause keeps and what their cells are made of. The values of expressions come from
//! `vtl_expr`, and the structure of each result is passed in as typing found it. It knows no script, no statement, no
//! file and no text format. Begin with `filtering.rt`.
#![tactic(auto)]

mod calculation;
mod filtering;
mod renaming;
mod subspace;

pub use calculation::calc;
pub use filtering::{filter, keep_rows};
pub use renaming::rename;
pub use subspace::sub;
