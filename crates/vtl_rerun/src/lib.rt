//! Sessions: the results of a script are kept while its inputs are replaced, and a refresh runs only the transformations
//! that depend on what was replaced.
//!
//! A session runs each transformation as a script of its own (`script_parts`), by any back end: over `Interp` and over
//! `SqlBack` it keeps the same contract. Where each part takes its data sets from is worked out once, when the session is
//! made; tables are shared with what runs, and not copied. It reads and writes no file, knows no status, and evaluates
//! nothing itself.
//! Begin with specs/Kept.antt and specs/Refreshes.antt of `rerun_laws`, then src/session.rt.
#![tactic(auto)]

mod given;
mod lost;
mod part;
mod runs;
mod session;
mod written;

pub use session::Session;
