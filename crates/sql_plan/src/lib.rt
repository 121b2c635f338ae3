//! How queries of the SQL dialect are carried out: the plan of a query.
//!
//! It decides which joins go by an index and which parts of a WHERE are tried before a join: all joins whose ON is a
//! conjunction of equalities of a column on each side, and all parts that may be tried before a join, each before the
//! first such join. That a plan stands for its query is kept by the type `Plan` (`sql_meaning`), and to carry it out is
//! left to `sql_exec`.
//! It knows no table's rows, no value and no script.
//! Begin with sql_meaning/specs/Plans.antt and Early.antt, specs/Chosen.antt and EarlyChosen.antt, then `planning.rt`,
//! `joins.rt` and `early.rt`.
#![tactic(auto)]

mod early;
mod joins;
mod planning;
mod reach;
mod safety;
mod standing;

pub use planning::plan;
pub use safety::is_safe;
