// The top call over files in memory that give and take a few bytes at a time, or fail at a chosen call.
use std::alloc::{AllocError, Global};
use std::process::Abort;
use std::test::Fail;
use vtl_files::{FailAt, MemFile, MemFiles, MemSink, Method};
use vtl_status::Status;
use vtl_top::vtl;

const SCRIPT: &str = "DS_r <- DS_1 [filter Me_1 > 5];";

const STRUCTURES: &str =
    "dataset,component,role,type,codes\nDS_1,Id_1,identifier,string,\nDS_1,Me_1,measure,integer,\n";

const LINES: &str = "Id_1,Me_1\nb,7\na,9\nc,3\n";

const KEPT: &str = "Id_1,Me_1\na,9\nb,7\n";

static WORDS: [&str; 5] = ["run", "script.vtl", "structures.csv", "in", "out"];

// How a call ended.
#[derive(Drop)]
struct Ended {
    status: Status,
    files: MemFiles,
    out: MemSink,
}

fn strings(alloc: Global, words: &[&str]) -> Result<Vec<String>, AllocError> {
    let mut all = Vec::new(alloc);
    for word in words {
        all.push(String::from_str(alloc, word)?)?;
    }
    Ok(all)
}

/// A script that filters a data set, its structures, and the data set with these lines.
pub(crate) fn held(alloc: Global, lines: &str) -> Result<Vec<MemFile>, AllocError> {
    let mut files = Vec::new(alloc);
    for (name, text) in [
        ("script.vtl", SCRIPT),
        ("structures.csv", STRUCTURES),
        ("in/DS_1.csv", lines),
    ] {
        let name = String::from_str(alloc, name)?;
        let bytes = Vec::from_slice(alloc, text.as_bytes())?;
        files.push(MemFile { name, bytes })?;
    }
    Ok(files)
}

// A call with these words, over files that give this many bytes at a time.
fn call(
    alloc: Global,
    words: &[&str],
    chunk: usize,
    fail: Vec<FailAt>,
    sink_fail: Vec<u64>,
) -> Result<Ended, AllocError> {
    let mut files = MemFiles::new(alloc, held(alloc, LINES)?, chunk.max(1), fail);
    let mut out = MemSink::new(alloc, 8, sink_fail);
    let words = strings(alloc, words)?;
    let status = vtl(alloc, words.as_slice(), &mut files, &mut out);
    Ok(Ended { status, files, out })
}

// The exit code, what the sink took, and what the output holds, where it was created.
fn ends_with(rt: &impl Abort, ended: &Ended, code: u8, line: &str, written: Option<&str>) {
    assert_eq!(rt; ended.status.code(), code);
    assert_eq!(rt; ended.out.taken(), line.as_bytes());
    let files = ended.files.written();
    assert_eq!(rt; files.len(), written.is_some() as usize);
    if let (Some(file), Some(text)) = (files.first(), written) {
        assert_eq!(rt; file.name.as_str(), "out/DS_r.csv");
        assert_eq!(rt; file.bytes.as_slice(), text.as_bytes());
    }
}

#[test]
fn reads_and_writes_in_pieces(rt: HostRuntime) -> Result<(), Fail> {
    let alloc = rt.alloc();
    for chunk in [1usize, 3, 8] {
        let ended = call(alloc, &WORDS, chunk, Vec::new(alloc), Vec::new(alloc))?;
        ends_with(&rt, &ended, 0, "", Some(KEPT));
    }
    Ok(())
}

// Each file is opened, and read twice in large pieces: first its text, then that there is no more. In pieces of 8 bytes
// the third piece of the output fails.
#[test]
fn tells_where_a_file_fails(rt: HostRuntime) -> Result<(), Fail> {
    let alloc = rt.alloc();
    let script = "error: read fault: script.vtl\n";
    let structures = "error: read fault: structures.csv\n";
    let input = "error: read fault: in/DS_1.csv\n";
    let output = "error: write fault: out/DS_r.csv\n";
    for (method, number, chunk, line, written) in [
        (Method::Open, 1u64, 1000usize, script, None),
        (Method::Read, 1, 1000, script, None),
        (Method::Read, 2, 1000, script, None),
        (Method::Open, 2, 1000, structures, None),
        (Method::Read, 3, 1000, structures, None),
        (Method::Read, 4, 1000, structures, None),
        (Method::Open, 3, 1000, input, None),
        (Method::Read, 5, 1000, input, None),
        (Method::Read, 6, 1000, input, None),
        (Method::Create, 1, 1000, output, None),
        (Method::Write, 3, 8, output, Some("Id_1,Me_1\na,9\nb,")),
        (Method::Finish, 1, 1000, output, Some(KEPT)),
    ] {
        let mut fail = Vec::new(alloc);
        fail.push(FailAt { method, number })?;
        let ended = call(alloc, &WORDS, chunk, fail, Vec::new(alloc))?;
        ends_with(&rt, &ended, 6, line, written);
    }
    Ok(())
}

// The line may be cut; the status stays.
#[test]
fn a_sink_may_fail(rt: HostRuntime) -> Result<(), Fail> {
    let alloc = rt.alloc();
    for (number, line) in [(1u64, ""), (2, "error: u")] {
        let mut fail = Vec::new(alloc);
        fail.push(number)?;
        let ended = call(alloc, &[], 8, Vec::new(alloc), fail)?;
        ends_with(&rt, &ended, 1, line, None);
    }
    Ok(())
}
