// The bytes of files.
//
// A path is named before its file is opened, so that want of memory never stands in for a file that was not there.
ghost use Rattle.std.specs.Prelude.{◌≡◌, IfOk, string_bytes};
ghost use Rattle.vtl_top.specs.Answered.{Takes};
ghost use Rattle.vtl_top.specs.Expected.{file_in, read};
ghost use Rattle.vtl_top.specs.SqlRun.{read_whole};

use crate::refusal::refusal;
use std::alloc::{AllocError, Global};
use vtl_files::{Files, ReadErr, read_all};
use vtl_status::Status;
use vtl_text::Txt;

/// The file of a data set in a folder.
pub fn file_in(alloc: Global, folder: &str, name: &Txt) -> Result<String, AllocError>
    ensures { IfOk result (λ path. string_bytes path ≡ file_in folder.now name.now) }
{
    let mut path = String::from_str(alloc, folder)?;
    path.push_str("/")?;
    path.push_str(name.as_str())?;
    path.push_str(".csv")?;
    Ok(path)
}

/// All bytes of a file, however many.
pub fn read_whole_file<F: Files>(
    alloc: Global,
    files: &mut F,
    path: &str,
) -> Result<Vec<u8>, Status>
    ensures { Takes F.Files files.old files.new (read_whole path.now) (λ v. v.items) result }
{
    let named = Txt::new(alloc, path)?;
    match read_all(alloc, files, path, usize::MAX) {
        Ok(bytes) => Ok(bytes),
        // A file of more bytes finds no room in memory.
        Err(ReadErr::TooLong) => Err(Status::Memory),
        Err(error) => Err(refusal(error, named)),
    }
}

/// The bytes of a file.
pub fn read_file<F: Files>(
    alloc: Global,
    files: &mut F,
    path: &str,
    limit: usize,
) -> Result<Vec<u8>, Status>
    ensures { Takes F.Files files.old files.new (read path.now limit) (λ v. v.items) result }
{
    let named = Txt::new(alloc, path)?;
    match read_all(alloc, files, path, limit) {
        Ok(bytes) => Ok(bytes),
        Err(error) => Err(refusal(error, named)),
    }
}
