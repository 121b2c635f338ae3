// What is printed of a whole text.
use crate::report::Report;
use crate::words::looked_up;
use crate::{sql, syntax, tokens};
use std::alloc::{AllocError, Global};

// What is looked at.
#[derive(Clone, Copy)]
pub(crate) enum View {
    // The tokens.
    Tokens,
    // The tree of a script.
    Tree,
    // The typing of a script of SQL.
    Sql,
    // The layout of a script of SQL.
    Print,
}

impl View {
    // The view that the word names.
    pub(crate) fn named(word: &str) -> Option<View> {
        let table = [
            ("tokens", View::Tokens),
            ("tree", View::Tree),
            ("sql", View::Sql),
            ("print", View::Print),
        ];
        looked_up(word, &table)
    }

    // What is seen of the text.
    pub(crate) fn of(self, alloc: Global, text: &str) -> Result<Report, AllocError> {
        match self {
            View::Tokens => Ok(Report {
                text: tokens::listed(alloc, text)?,
                code: 0,
            }),
            View::Tree => syntax::printed(alloc, text),
            View::Sql => sql::typed(alloc, text)?.line(),
            View::Print => sql::printed(alloc, text),
        }
    }
}
