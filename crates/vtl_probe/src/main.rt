//! Runs one layer on files, for the tests of this repository: tables of cases, the tokens and the tree of a script, and
//! operations that are timed. It is no part of `vtl`.
//!
//! A table is a CSV file, each line of it a case. What differs is printed, and then `N passed, M failed`; the exit code
//! is 1 where a case failed. Other words, and a file that cannot be read, are reported on standard error with the exit
//! code 2.
#![tactic(auto)]

mod datasets;
mod files;
mod lines;
mod notation;
mod operands;
mod order;
mod refusals;
mod report;
mod rows;
mod runs;
mod sql;
mod structures;
mod syntax;
mod tables;
mod texts;
mod times;
mod tokens;
mod tree;
mod trouble;
mod types;
mod words;

use report::Report;
use std::alloc::Global;
use std::process::ExitCode;
use std::{env, io};
use trouble::Trouble;
use vtl_files::{DiskFiles, Files};
use words::{Command, command_of};

fn main(rt: HostRuntime) -> io::Result<ExitCode> {
    let words: Vec<String> = env::args(&rt)?.skip(1).collect(rt.alloc())?;
    let mut files = DiskFiles::new(rt.alloc(), &rt);
    match carried_out(rt.alloc(), &words, &mut files) {
        Ok(report) => {
            print!(rt; "{}", report.text)?;
            Ok(ExitCode::from(report.code))
        }
        Err(trouble) => {
            let text = trouble.text(rt.alloc())?;
            eprintln!(rt; "vtl_probe: {text}")?;
            Ok(ExitCode::from(2))
        }
    }
}

// What the words ask for.
fn carried_out<'a, F: Files>(
    alloc: Global,
    words: &'a [String],
    files: &mut F,
) -> Result<Report, Trouble<'a>> {
    let Some(command) = command_of(words) else {
        return Err(Trouble::Usage);
    };
    match command {
        Command::Time(order) => Ok(runs::printed(alloc, order)?),
        Command::Table { table, path } => {
            let text = files::text(alloc, files, path)?;
            tables::verdict(alloc, table, "", &text)
        }
        Command::Text { view, path } => {
            let text = files::text(alloc, files, path)?;
            Ok(view.of(alloc, &text)?)
        }
        Command::Types { structures, path } => {
            let structures = files::text(alloc, files, structures)?;
            let text = files::text(alloc, files, path)?;
            tables::verdict(alloc, tables::Table::Types, &structures, &text)
        }
    }
}
