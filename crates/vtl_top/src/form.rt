// The canonical text of a script from its file.
ghost use Rattle.std.specs.Prelude.{string_bytes};
ghost use Rattle.vtl_top.specs.Answered.{Takes};
ghost use Rattle.vtl_top.specs.Expected.{format_step};
ghost use Rattle.vtl_top.specs.Refusal.{IsFormIn, IsFormOfText};

use crate::reading::read_file;
use crate::refusal::not_text;
use crate::run::{SCRIPT_LIMIT, unparsed};
use std::alloc::Global;
use std::str;
use vtl_files::Files;
use vtl_format::format;
use vtl_status::Status;

// The canonical text of the script that the bytes of a file are.
fn form_of(alloc: Global, path: &str, bytes: &[u8]) -> Result<String, Status>
    ensures { IsFormIn path.now bytes.now result }
{
    match str::from_utf8(bytes) {
        Ok(text) => formatted(alloc, text),
        Err(_) => Err(not_text(alloc, path)),
    }
}

fn formatted(alloc: Global, text: &str) -> Result<String, Status>
    ensures { IsFormOfText text.now result }
{
    match format(alloc, text) {
        Ok(form) => Ok(form),
        Err(error) => Err(unparsed(error)),
    }
}

/// The canonical text of the script at a path; or the first refusal in the order file, script; or, at any place, that
/// memory ran out.
pub fn prepare_form<F: Files>(alloc: Global, files: &mut F, path: &str) -> Result<String, Status>
    ensures { Takes F.Files files.old files.new (format_step path.now) string_bytes result }
{
    match read_file(alloc, files, path, SCRIPT_LIMIT) {
        Ok(bytes) => form_of(alloc, path, &bytes),
        Err(status) => Err(status),
    }
}
