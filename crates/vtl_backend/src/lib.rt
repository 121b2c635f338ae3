//! What every back end that runs scripts must keep to: the trait `Backend`.
//!
//! It speaks of the checked script, of tables that stand for data sets, and of the meaning alone, so that a back
//! end which runs SQL can meet it word for word. Two that do give the same answers up to the order of rows
//! (`answers_agree`). It knows no way of evaluating and no file.
//! Begin with specs/Runs.antt, then src/backend.rt.
#![tactic(auto)]

mod backend;
mod laws;

pub use backend::Backend;
pub use laws::answers_agree;
