//! Keeps the results of a script while inputs are replaced, by a session over a back end that counts and by one over SQL, for
//! the tests of this repository. It is no part of `vtl`.
//!
//! The words are SCRIPT, STRUCTURES, IN and EDITS, as of `vtl replay`. For each back end its name is printed, then a line for
//! each refresh, for the one that counts with the number of transformations that it carried out, and then the outputs, each
//! below its name. What is refused, and a fault of the last refresh, is reported on standard error with the exit code 2.
#![tactic(auto)]

mod counting;
mod replays;

use counting::Counting;
use replays::{Call, replayed};
use sql_back::{Bundled, SqlBack};
use std::alloc::Global;
use std::process::ExitCode;
use std::{env, io};
use vtl_files::{DiskFiles, Files};
use vtl_status::Status;

fn main(rt: HostRuntime) -> io::Result<ExitCode> {
    let words: Vec<String> = env::args(&rt)?.skip(1).collect(rt.alloc())?;
    let mut files = DiskFiles::new(rt.alloc(), &rt);
    match told(rt.alloc(), &words, &mut files) {
        Ok(text) => {
            print!(rt; "{text}")?;
            Ok(ExitCode::from(0))
        }
        Err(status) => {
            eprintln!(rt; "session_probe: {status:?}")?;
            Ok(ExitCode::from(2))
        }
    }
}

// What comes of the words, over both back ends.
fn told<F: Files>(alloc: Global, words: &[String], files: &mut F) -> Result<String, Status> {
    let [script, structures, inputs, edits] = words else {
        return Err(Status::Usage);
    };
    let call = Call {
        script: script.as_str(),
        structures: structures.as_str(),
        inputs: inputs.as_str(),
        edits: edits.as_str(),
    };
    let mut out = String::from_str(alloc, "counting\n")?;
    replayed(alloc, files, &call, Counting::new(), &mut out)?;
    out.push_str("sql_back\n")?;
    replayed(alloc, files, &call, SqlBack::new(Bundled::new()), &mut out)?;
    Ok(out)
}
