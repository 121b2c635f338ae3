//! The canonical text of a script: `format` gives it, the same for all texts with the same tokens and comments.
//!
//! What stands between two tokens is one rule on the two, and where lines break one more on the open brackets; there
//! is no search for a layout. The laws hold of each text that has tokens, whether it is a script or not: so no
//! tree is walked.
//! It knows kinds of tokens, and neither structures nor types.
//! Begin with specs/Form.antt and Layout.antt.
#![tactic(auto)]

mod calls;
mod formatting;
mod gaps;
mod laws;
mod layout;
mod statements;

pub use formatting::format;
pub use laws::{
    formatted_scripts_are_their_scripts, formatted_texts_are_formatted,
    formatted_texts_have_their_comments, formatted_texts_have_their_tokens, forms_are_determined,
    statements_are_those_of_the_grammar,
};
