//! The top call: carries out the words of a command line over files and a sink, and answers a status.
//!
//! The commands and the steps of a run in their order are decided here, and here alone; the statuses with their codes
//! and lines are those of `vtl_status`. A run is one chain of steps (`run_step`), and so is the text of a script in SQL
//! (`text_step`). Nothing is created before all is computed, and from then on no memory is taken.
//! It sees the outside through the traits `Files` and `Sink`, and knows of reading, typing, evaluation and texts in SQL
//! only what they promise.
//! Who brings an engine or a back end finds the words for it here: the traits, and the tables that they are handed.
//! Begin with specs/Expected.antt and specs/Answered.antt, then src/top.rt.
//!
//! A step is two relations, what it gives over held bytes and which paths it reads, and one operation puts a step after
//! another: a relation, since the tokens of a text are one; the paths beside it, since a fault of reading is told also
//! of a file whose bytes would have been read as nothing. `prepare` is the chain of a run.
#![tactic(auto)]

mod agreement;
mod edits;
mod form;
mod inputs;
mod laws;
mod lineage;
mod made;
mod migrate;
mod output;
mod points;
mod reading;
mod refusal;
mod replay;
mod results;
mod run;
mod sql_inputs;
mod sql_run;
mod structures;
mod top;
mod typing;
mod words;

pub use agreement::{agreeing_calls_end_alike, interpreter_and_sql_agree};
pub use edits::{Edit, read_edited, read_edits};
pub use inputs::read_inputs;
pub use laws::{
    calm_calls_are_complete, demonstrations_are_said, expected_is_determined, expected_is_there,
    exports_are_meant, faults_are_meant, forms_are_meant, forms_are_said, inputs_take_alike,
    migrations_are_meant, migrations_are_said, mistyped_is_first_fault, output_is_meant,
    replays_are_meant, runs_are_quiet, sql_breaches_are_refused, sql_faults_are_meant,
    structures_have_identifiers, texts_are_meant, texts_write_alike,
};
pub use points::Points;
pub use run::read_typed;
pub use top::{vtl, vtl_by, vtl_with};
pub use words::{Chosen, Source};

// Words of the product that stand in other crates. This is the only crate that hands on words of another one.
pub use sql_back::{Bundled, SqlBack, TextEngine};
pub use vtl_backend::Backend;
pub use vtl_cell::Cell;
pub use vtl_check::Checked;
pub use vtl_decimal::{Profile, Rounding};
pub use vtl_rows::{Inputs, Outputs, SortKey, Table};
pub use vtl_scalar::RunErr;
pub use vtl_status::{Status, tell};
pub use vtl_text::Txt;
