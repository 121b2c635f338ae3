//! The outside: files that are read and written by name, and a sink for bytes, each as a trait whose contract names
//! what they hold.
//!
//! Two pairs of adapters keep the contracts: `MemFiles` and `MemSink`, which reveal all that they hold, and
//! `DiskFiles` and `StdSink`, over the system, which reveal nothing of bytes. `read_all`, `write_all` and `sink_all`
//! handle whole texts. Every method is total: a call out of turn fails and is counted.
//! It knows no format and no status; what a fault means to a user is for `vtl_top` to say.
//! Begin with the trait in src/files.rt and specs/Outside.antt.
#![tactic(auto)]

mod count;
mod disk_files;
mod failed;
mod files;
mod mem;
mod mem_files;
mod mem_sink;
mod plan;
mod read_err;
mod sink;
mod std_sink;
mod whole;

pub use disk_files::DiskFiles;
pub use failed::Failed;
pub use files::Files;
pub use mem::MemFile;
pub use mem_files::MemFiles;
pub use mem_sink::MemSink;
pub use plan::{FailAt, Method};
pub use read_err::ReadErr;
pub use sink::Sink;
pub use std_sink::StdSink;
pub use whole::{read_all, sink_all, write_all};
