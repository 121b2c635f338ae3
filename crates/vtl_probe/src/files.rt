// Files that are texts.
use crate::trouble::Trouble;
use std::alloc::Global;
use vtl_files::{Files, ReadErr, read_all};

// The most bytes of a file.
const LIMIT: usize = 16_777_216;

// The text of a file.
pub(crate) fn text<'a, F: Files>(
    alloc: Global,
    files: &mut F,
    path: &'a str,
) -> Result<String, Trouble<'a>> {
    match read_all(alloc, files, path, LIMIT) {
        Ok(bytes) => String::from_utf8(bytes).ok().ok_or(Trouble::File {
            path,
            why: "not text",
        }),
        Err(error) => Err(refusal(error, path)),
    }
}

fn refusal(error: ReadErr, path: &str) -> Trouble {
    let why = match error {
        ReadErr::Absent => "no file",
        ReadErr::TooLong => "too long",
        ReadErr::Failed => "read fault",
        ReadErr::OutOfMemory => return Trouble::Memory,
    };
    Trouble::File { path, why }
}
