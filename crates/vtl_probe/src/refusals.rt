// The lines of `vtl` for a text that is refused before any data is read, without their line feed, and their codes.
use crate::report::Report;
use std::alloc::{AllocError, Global};
use std::str;
use vtl_check::CheckErr;
use vtl_csv::StructErr;
use vtl_files::MemSink;
use vtl_parser::ParseErr;
use vtl_status::{Status, tell};

pub(crate) fn of_text(alloc: Global, error: ParseErr) -> Result<Report, AllocError> {
    match error {
        ParseErr::Syntax { done, byte } => answered(alloc, &Status::Syntax { done, byte }),
        ParseErr::OutOfMemory => Err(AllocError),
    }
}

pub(crate) fn of_structures(alloc: Global, error: StructErr) -> Result<Report, AllocError> {
    match error {
        StructErr::Structure { line, rule } => answered(alloc, &Status::Structure { line, rule }),
        StructErr::OutOfMemory => Err(AllocError),
    }
}

pub(crate) fn of_types(alloc: Global, error: CheckErr) -> Result<Report, AllocError> {
    match error {
        CheckErr::Mistyped { statement, rule } => {
            answered(alloc, &Status::Mistyped { statement, rule })
        }
        CheckErr::OutOfMemory => Err(AllocError),
    }
}

// That nothing is refused.
pub(crate) fn nothing(alloc: Global) -> Result<Report, AllocError> {
    Ok(Report {
        text: String::from_str(alloc, "typed")?,
        code: 0,
    })
}

// The line and the code of a status.
pub(crate) fn answered(alloc: Global, status: &Status) -> Result<Report, AllocError> {
    let mut sink = MemSink::new(alloc, 4096, Vec::new(alloc));
    tell(status, &mut sink);
    let line = str::from_utf8(sink.taken()).ok().unwrap_or("");
    Ok(Report {
        text: String::from_str(alloc, line.trim_end())?,
        code: status.code(),
    })
}
