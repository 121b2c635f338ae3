//! Laws of the text of a structures file of version 2: what is written is read again as the same.
//!
//! It has no code. Which structures can be written is said here (specs/Writable.antt); the text and its reading are those
//! of `vtl_csv`.
//! Begin with specs/Writable.antt; then src/laws.rt.
#![tactic(auto)]

mod laws;

pub use laws::written_structures_are_read_again;
