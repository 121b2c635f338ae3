// The output of a run, and how it is written.
//
// Paths and texts are made before the first output is created, and a line is handed over by its parts: from then on
// no memory is taken.
ghost use Rattle.std.specs.Prelude.{◌≡◌, ◌∷◌, [], false, IfOk, OnOk, OnErr, string_bytes};
ghost use Rattle.std.specs.List.{AllByRecursion};
ghost use Rattle.vtl_files.specs.Outside.{FaultAt};
ghost use Rattle.vtl_top.specs.Answered.{Adds, AddsFront, OnlyWrites, WritesAs};
ghost use Rattle.vtl_top.specs.Kinds.{told_by};
ghost use Rattle.vtl_top.specs.OutputView.{NamesPath, outputs_view};

use vtl_files::{Failed, Files, write_all};
use vtl_status::Status;
use vtl_text::Txt;

/// What a run writes. All of it is made before anything is created.
#[derive(Drop)]
pub struct Output {
    /// The path of the file.
    pub path: String,
    /// The same path, as a status names it.
    pub named: Txt,
    /// The bytes of the file.
    pub bytes: Vec<u8>,
}

/// Writes the outputs in order, each whole before the next one is created. It takes no memory.
pub fn write_outputs<F: Files>(files: &mut F, outputs: Vec<Output>) -> Status
    requires idle { F.creating files.old ≡ false }
    requires named { AllByRecursion NamesPath outputs.items }
    ensures writes { OnlyWrites F.Files files.old files.new }
    ensures written { WritesAs F.Files files.old files.new (outputs_view outputs) (told_by result) }
{
    for output in outputs {
        let Output { path, named, bytes } = output;
        match write_file(files, path, &bytes) {
            Ok(()) => {}
            Err(_) => return Status::WriteFault(named),
        }
    }
    Status::Done
}

// Creates the file at the path, writes the bytes and finishes it. It takes no memory.
fn write_file<F: Files>(files: &mut F, path: String, bytes: &[u8]) -> Result<(), Failed>
    requires { F.creating files.old ≡ false }
    ensures writes { OnlyWrites F.Files files.old files.new }
    ensures finished { OnOk result (F.creating files.new ≡ false) }
    ensures written { OnOk result (Adds (F.written files.old) (F.written files.new) ((string_bytes path, bytes.now) ∷ [])) }
    ensures fault { OnErr result (FaultAt (F.faults files.old) (F.faults files.new) (F.mark files.new) (F.place files.new) (string_bytes path)) }
    ensures front { OnErr result (AddsFront (F.written files.old) (F.written files.new) (string_bytes path, bytes.now)) }
{
    files.create(path)?;
    write_all(files, bytes)?;
    files.finish()
}
