// The tokens of a text.
use std::alloc::{AllocError, Global};
use vtl_lexer::tokens_before_fault;

// Each token with the bytes where it starts and ends, and the byte from which none starts; a line each.
pub(crate) fn listed(alloc: Global, text: &str) -> Result<String, AllocError> {
    let lexed = tokens_before_fault(alloc, text)?;
    let mut out = String::new(alloc);
    for token in lexed.tokens.as_slice() {
        writeln!(out, "{:?} {} {}", token.kind, token.start, token.end)?;
    }
    if let Some(byte) = lexed.bad {
        writeln!(out, "error: no token at byte {byte}")?;
    }
    Ok(out)
}
