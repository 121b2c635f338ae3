//! The grammar of scripts: which tokens spell which tree, what the fault of tokens that spell none is, and the laws of
//! both.
//!
//! The definition stands in specs/Grammar.antt, Levels.antt and Fits.antt; specs/Read*.antt mirror the reader,
//! function for function, and the laws tie the mirror to the grammar. The two enums in src are what the mirror and
//! the readers share; nothing here reads.
//! It knows the text of a program only by its tokens; `read_parts`, `read_expressions` and `vtl_parser` do the reading.
//! Begin with specs/Grammar.antt; docs/LANGUAGE.md has the same productions in the same order.
#![tactic(auto)]

mod call_forms;
mod depth;
mod laws;
mod levels;

pub use call_forms::CallForm;
pub use depth::DEPTH_LIMIT;
pub use laws::{
    faults_are_determined, reading_is_exact, scripts_are_unique, statements_do_not_begin_each_other,
};
pub use levels::Level;
