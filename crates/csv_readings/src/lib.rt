//! What a CSV file holds of a data set, in a reader's words, and the law that this is what holds.
//!
//! The definition of `vtl_csv` is shaped for the program that reads: it goes down the lines with the rows so far in its
//! hand. The one here is shaped for reading: it says of each line what it gives, and takes the first flaw.
//! It has no code, and no crate stands on it.
//! Begin with specs/Lines.antt; then src/laws.rt.
#![tactic(auto)]

mod laws;

pub use laws::files_are_read_line_by_line;
