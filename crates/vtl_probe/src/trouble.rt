// Why there is no verdict.
//
// What goes wrong in a case is an enum that is copied (`CaseErr`), and lines of a tree are written by functions that
// return nothing (`Lines`): so no `?` has an error to drop, which would double the proof.
use std::alloc::{AllocError, Global};

const USAGE: &str = "the words are one of
  order|periods|names|lexed|syntax|structures|datasets TABLE
  sql_syntax|sql_again|sql_groups|sql_types TABLE
  types STRUCTURES TABLE
  tokens FILE
  tree FILE
  sql FILE
  print FILE
  time add|mul|div|read|write COUNT";

#[derive(Clone, Copy)]
pub(crate) enum Trouble<'a> {
    Usage,
    File { path: &'a str, why: &'static str },
    Header(&'static str),
    Case { case: usize, why: &'static str },
    Memory,
}

impl<'a> Trouble<'a> {
    // What is reported about it.
    pub(crate) fn text(&self, alloc: Global) -> Result<String, AllocError> {
        match *self {
            Trouble::Usage => String::from_str(alloc, USAGE),
            Trouble::File { path, why } => format!(in alloc; "{why}: {path}"),
            Trouble::Header(header) => format!(in alloc; "the header is not {header}"),
            Trouble::Case { case, why } => format!(in alloc; "case {case}: {why}"),
            Trouble::Memory => String::from_str(alloc, "no memory"),
        }
    }
}

impl<'a> From<AllocError> for Trouble<'a> {
    fn from(_: AllocError) -> Trouble<'a> {
        Trouble::Memory
    }
}

// Why nothing comes of a case: a part of it is not written as its table requires, or memory ran out.
#[derive(Clone, Copy)]
pub(crate) enum CaseErr {
    Scale,
    Rounding,
    Kind,
    Value,
    Number,
    Period,
    Text,
    Structures,
    OutOfMemory,
}

impl CaseErr {
    pub(crate) fn why(self) -> &'static str {
        match self {
            CaseErr::Scale => "no scale",
            CaseErr::Rounding => "no rounding",
            CaseErr::Kind => "no kind",
            CaseErr::Value => "no value of the kind",
            CaseErr::Number => "no number",
            CaseErr::Period => "no period",
            CaseErr::Text => "what was written is not UTF-8",
            CaseErr::Structures => "no structures file of one data set",
            CaseErr::OutOfMemory => "no memory",
        }
    }
}

impl From<AllocError> for CaseErr {
    fn from(_: AllocError) -> CaseErr {
        CaseErr::OutOfMemory
    }
}
