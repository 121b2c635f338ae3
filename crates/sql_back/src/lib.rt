//! The back end that runs typed scripts of VTL by their text in SQL, on any engine that runs such texts.
//!
//! It stands apart so that whatever reads the dialect can run scripts of VTL: an engine is handed a text and tables
//! (`TextEngine`), and must give what the script that the text spells exports, its rows in any order. What the text of a
//! script is to be is said here, for all who print one (specs/Texts.antt). `Bundled` is the engine of this repository.
//! It decides nothing of how scripts are translated (`vtl_to_sql`), spelled (`sql_print`) or run (`sql_engine`), and
//! knows no file, no status and no typing of VTL.
//! Begin with specs/Texts.antt and specs/TextRuns.antt, then src/backend.rt.
#![tactic(auto)]

mod backend;
mod bundled;
mod text_engine;
mod text_runs;
mod texts;

pub use backend::SqlBack;
pub use bundled::Bundled;
pub use text_engine::TextEngine;
pub use texts::text_of;
