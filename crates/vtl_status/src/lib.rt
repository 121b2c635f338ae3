//! What the program answers: the statuses, with the exit code and the line of each.
//!
//! They stand apart so that the top call and the program of the cases write the same lines. A line goes to a sink piece
//! by piece, and takes no memory. Which status a call answers, and when, is for `vtl_top` to say.
//! It knows no command, no script and no data set, and of files only the sink.
//! Begin with specs/StatusLine.antt.
#![tactic(auto)]

mod status;

pub use status::{Status, tell};
