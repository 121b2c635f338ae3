// The status of a file that was not read, or does not hold what it should.
ghost use Rattle.std.specs.Prelude.{◌≡◌, chars};
ghost use Rattle.vtl_top.specs.Refusal.{IsOrMemory, input_refusal, refusal_of};

use std::alloc::Global;
use vtl_csv::InputErr;
use vtl_files::ReadErr;
use vtl_status::Status;
use vtl_text::Txt;

/// The status that names the path of a file which was not read.
pub fn refusal(error: ReadErr, path: Txt) -> Status
    ensures { result ≡ refusal_of path error }
{
    match error {
        ReadErr::Absent => Status::NoFile(path),
        ReadErr::TooLong => Status::TooLong(path),
        ReadErr::Failed => Status::ReadFault(path),
        ReadErr::OutOfMemory => Status::Memory,
    }
}

/// The status of a file that is not UTF-8.
pub fn not_text(alloc: Global, path: &str) -> Status
    ensures { IsOrMemory (Status.NotText (chars path.now)) result }
{
    match Txt::new(alloc, path) {
        Ok(path) => Status::NotText(path),
        Err(_) => Status::Memory,
    }
}

/// The status of a file that holds no data set of this name.
pub fn input_refusal(name: &Txt, error: InputErr) -> Status
    ensures { IsOrMemory (input_refusal name.now error) result }
{
    match error {
        InputErr::Fault { line, column, kind } => match name.share() {
            Ok(dataset) => Status::Input {
                dataset,
                line,
                column,
                kind,
            },
            Err(_) => Status::Memory,
        },
        InputErr::OutOfMemory => Status::Memory,
    }
}
