// What is read of texts of scripts.
use crate::lines::Lines;
use crate::refusals;
use crate::report::Report;
use crate::tree::script;
use std::alloc::{AllocError, Global};
use vtl_parser::{ParseErr, parse};
use vtl_syntax::Script;

// The number of statements, a comma, and the byte of the fault where there is one.
pub(crate) fn outcome(alloc: Global, text: &str) -> Result<String, AllocError> {
    match parse(alloc, text) {
        Ok(found) => format!(in alloc; "{},", found.statements.as_slice().len()),
        Err(ParseErr::Syntax { done, byte }) => format!(in alloc; "{done},{byte}"),
        Err(ParseErr::OutOfMemory) => Err(AllocError),
    }
}

// The tree of the text, or the line of its fault.
pub(crate) fn printed(alloc: Global, text: &str) -> Result<Report, AllocError> {
    match parse(alloc, text) {
        Ok(found) => tree(alloc, &found),
        Err(error) => refusals::of_text(alloc, error)?.line(),
    }
}

fn tree(alloc: Global, found: &Script) -> Result<Report, AllocError> {
    let mut lines = Lines::new(alloc);
    script(&mut lines, found);
    Ok(Report {
        text: lines.into_text()?,
        code: 0,
    })
}
