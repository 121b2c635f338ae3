//! The program: it carries out the words of its command line over the files of the system, and exits with the code
//! of the status.
//!
//! All else is `vtl_top::vtl`. A word that is not UTF-8 is `Usage`; that `main` calls what is proved is tested by
//! cases/run.sh.
//! Begin with `main` below.
#![tactic(auto)]

#[cfg(test)]
mod falling;
#[cfg(test)]
mod tests;

ghost use Rattle.std.specs.Prelude.{◌≡◌, ◌≢◌, ◌⊎◌, drop, IfErr, IfOk};
ghost use Rattle.std.specs.Process.{exit_status};
ghost use Rattle.std.specs.Vec.Iter.{into_iter_items};
ghost use Rattle.vtl_status.specs.StatusLine.{code_of};

use std::alloc::{AllocError, Global};
use std::env::{self, Args, Env};
use std::io::ErrorKind;
use std::process::ExitCode;
use vtl_files::{DiskFiles, StdSink};
use vtl_status::{Status, tell};
use vtl_top::vtl;

fn main(rt: HostRuntime) -> ExitCode {
    let mut out = StdSink::new(&rt);
    let mut files = DiskFiles::new(rt.alloc(), &rt);
    let status = match words(&rt) {
        Ok(words) => vtl(rt.alloc(), &words, &mut files, &mut out),
        Err(status) => {
            tell(&status, &mut out);
            status
        }
    };
    exit_code(&status)
}

// The words of the command line. Where one is not UTF-8, they have no form.
fn words<R: Env + AllocGlobal>(rt: &R) -> Result<Vec<String>, Status>
    ensures { IfErr result (λ status. (status ≡ Status.Usage) ⊎ (status ≡ Status.Memory)) }
{
    match env::args(rt) {
        Ok(args) => Ok(after_name(rt.alloc(), args)?),
        Err(error) => Err(refusal(error.kind())),
    }
}

// The words after the program's name, which comes first.
fn after_name(alloc: Global, args: Args) -> Result<Vec<String>, AllocError>
    ensures { IfOk result (λ words. words.items ≡ drop 1 (into_iter_items args)) }
{
    args.skip(1).collect(alloc)
}

// The status where the words could not be read.
fn refusal(kind: ErrorKind) -> Status
    ensures memory { kind ≡ ErrorKind.OutOfMemory → result ≡ Status.Memory }
    ensures usage { kind ≢ ErrorKind.OutOfMemory → result ≡ Status.Usage }
{
    match kind {
        ErrorKind::OutOfMemory => Status::Memory,
        _ => Status::Usage,
    }
}

fn exit_code(status: &Status) -> ExitCode
    ensures { exit_status result ≡ code_of status.now }
{
    ExitCode::from(status.code())
}
