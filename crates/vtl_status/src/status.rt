// What the program answers, with its code and its line.
ghost use Rattle.std.specs.Prelude.{◌≡◌, ◌≤◌, ◌<◌, ◌+◌, ◌∷◌, [], OnErr, OnOk, decimal, flat_map};
ghost use Rattle.vtl_files.specs.Outside.{Rose, TakesAll};
ghost use Rattle.vtl_files.specs.Whole.{TakesFront};
ghost use Rattle.vtl_status.specs.PartView.{all_said, said_bytes};
ghost use Rattle.vtl_status.specs.StatusLine.{at, bytes_of, code_of, line_of, name_of_kind};

use std::alloc::AllocError;
use vtl_csv::InputKind;
use vtl_files::{Failed, Sink, sink_all};
use vtl_text::Txt;

/// What the program answers.
#[derive(Debug, Drop)]
pub enum Status {
    /// All was done.
    Done,
    /// The words have none of the forms.
    Usage,
    /// The script file holds no script: this many statements stand at its front, and what follows them starts at this
    /// byte, from 0.
    Syntax {
        /// How many statements stand at the front.
        done: usize,
        /// Where what follows them starts.
        byte: usize,
    },
    /// A line of the structures file, which is the number of a record from 1 on, breaks a rule of docs/FILES.md.
    Structure {
        /// The number of the record.
        line: u64,
        /// The number of the rule.
        rule: u8,
    },
    /// A statement of the script breaks a rule of docs/TYPES.md over the structures: the first that does.
    Mistyped {
        /// The number of the statement, counted from 1 with all statements.
        statement: usize,
        /// The number of the rule.
        rule: u8,
    },
    /// The SQL file holds no script of the dialect: this many statements stand at its front, SET being the first, and
    /// what follows them starts at this byte, from 0.
    SqlSyntax {
        /// How many statements stand at the front.
        done: usize,
        /// Where what follows them starts.
        byte: usize,
    },
    /// A statement of the SQL file breaks a rule of docs/SQL.md: the first that does, and the least rule.
    SqlType {
        /// The number of the statement, counted from 1 with SET.
        statement: usize,
        /// The number of the rule.
        rule: u8,
    },
    /// A line of the edits file, counted from 1 on, has not the form of an edit: the first that has not.
    Edits {
        /// The number of the line.
        line: u64,
    },
    /// The file of a data set that is read holds no data set of its structure: its first fault, by line and column from
    /// 1 on.
    Input {
        /// The name of the data set.
        dataset: Txt,
        /// The number of the record.
        line: u64,
        /// The place of the field.
        column: u64,
        /// What is wrong there.
        kind: InputKind,
    },
    /// The statement with this result divides by zero.
    DivZero(Txt),
    /// The statement with this result has a number out of range, and divides nothing by zero before it.
    Range(Txt),
    /// The file at the path, the script, the structures file or the edits file, is not text in UTF-8.
    NotText(Txt),
    /// There is no file at the path.
    NoFile(Txt),
    /// The file at the path has more bytes than its limit.
    TooLong(Txt),
    /// The file at the path could not be read.
    ReadFault(Txt),
    /// The file at the path could not be written.
    WriteFault(Txt),
    /// There was not enough memory.
    Memory,
}

impl Status {
    /// The exit code: 0 done, 1 usage, 2 no script, no structures, no edits or no text, 3 not typed or no SQL script, 4 no file, too
    /// long or no data set, 5 a fault of evaluation, 6 a fault of reading or writing, 7 memory.
    pub fn code(&self) -> u8
        ensures { result ≡ code_of self.now }
    {
        match self {
            Status::Done => 0,
            Status::Usage => 1,
            Status::Syntax { .. } | Status::Structure { .. } | Status::NotText(_) => 2,
            Status::Edits { .. } => 2,
            Status::Mistyped { .. } | Status::SqlSyntax { .. } | Status::SqlType { .. } => 3,
            Status::NoFile(_) | Status::TooLong(_) | Status::Input { .. } => 4,
            Status::DivZero(_) | Status::Range(_) => 5,
            Status::ReadFault(_) | Status::WriteFault(_) => 6,
            Status::Memory => 7,
        }
    }

    // The parts of its line.
    fn parts(&self) -> [Part<'_>; 9]
        ensures { all_said result ≡ line_of self.now }
    {
        match self {
            Status::Done => padded([NOTHING, NOTHING, NOTHING, NOTHING, NOTHING]),
            Status::Usage => padded([Part::Text("error: usage"), END, NOTHING, NOTHING, NOTHING]),
            Status::Syntax { done, byte } => padded([
                Part::Text("error: syntax after "),
                Part::Number(*done as u64),
                Part::Text(" statements at byte "),
                Part::Number(*byte as u64),
                END,
            ]),
            Status::Structure { line, rule } => padded([
                Part::Text("error: structures line "),
                Part::Number(*line),
                Part::Text(" rule "),
                Part::Number(*rule as u64),
                END,
            ]),
            Status::Mistyped { statement, rule } => padded([
                Part::Text("error: type in statement "),
                Part::Number(*statement as u64),
                Part::Text(" rule "),
                Part::Number(*rule as u64),
                END,
            ]),
            Status::SqlSyntax { done, byte } => padded([
                Part::Text("error: sql syntax after "),
                Part::Number(*done as u64),
                Part::Text(" statements at byte "),
                Part::Number(*byte as u64),
                END,
            ]),
            Status::SqlType { statement, rule } => padded([
                Part::Text("error: sql type in statement "),
                Part::Number(*statement as u64),
                Part::Text(" rule "),
                Part::Number(*rule as u64),
                END,
            ]),
            Status::Edits { line } => padded([
                Part::Text("error: edits line "),
                Part::Number(*line),
                END,
                NOTHING,
                NOTHING,
            ]),
            Status::Input {
                dataset,
                line,
                column,
                kind,
            } => [
                Part::Text("error: input "),
                Part::Text(dataset.as_str()),
                Part::Text(" line "),
                Part::Number(*line),
                Part::Text(" column "),
                Part::Number(*column),
                Part::Text(" "),
                Part::Text(kind_name(*kind)),
                END,
            ],
            Status::DivZero(result) => naming("error: division by zero in ", result),
            Status::Range(result) => naming("error: out of range in ", result),
            Status::NotText(path) => naming("error: not text: ", path),
            Status::NoFile(path) => naming("error: no file: ", path),
            Status::TooLong(path) => naming("error: too long: ", path),
            Status::ReadFault(path) => naming("error: read fault: ", path),
            Status::WriteFault(path) => naming("error: write fault: ", path),
            Status::Memory => padded([Part::Text("error: memory"), END, NOTHING, NOTHING, NOTHING]),
        }
    }
}

// What is wrong with an input, by its name.
fn kind_name(kind: InputKind) -> &'static str
    ensures { result.now ≡ name_of_kind kind }
{
    match kind {
        InputKind::BadHeader => "BadHeader",
        InputKind::TooManyRows => "TooManyRows",
        InputKind::WrongWidth => "WrongWidth",
        InputKind::NotText => "NotText",
        InputKind::NullIdentifier => "NullIdentifier",
        InputKind::NotNull => "NotNull",
        InputKind::BadValue => "BadValue",
        InputKind::NotInCodes => "NotInCodes",
        InputKind::DuplicateKey => "DuplicateKey",
    }
}

/// A part of a line.
#[derive(Clone, Copy)]
enum Part<'a> {
    /// A text.
    Text(&'a str),
    /// A number, in decimal digits.
    Number(u64),
}

const NOTHING: Part<'static> = Part::Text("");

const END: Part<'static> = Part::Text("\n");

// The parts, and nothing after them.
fn padded(parts: [Part<'_>; 5]) -> [Part<'_>; 9]
    ensures { all_said result ≡ all_said parts.entry }
{
    let [a, b, c, d, e] = parts;
    [a, b, c, d, e, NOTHING, NOTHING, NOTHING, NOTHING]
}

// The parts of a line that ends with a name.
fn naming<'a>(lead: &'a str, name: &'a Txt) -> [Part<'a>; 9]
    ensures { all_said result ≡ flat_map bytes_of (at lead.now name.now) }
{
    padded([
        Part::Text(lead),
        Part::Text(name.as_str()),
        END,
        NOTHING,
        NOTHING,
    ])
}

impl From<AllocError> for Status {
    ghost use Rattle.std.specs.Prelude.{◌≡◌};
    ghost use Rattle.vtl_status.specs.declared.status.Status.TheVariants.{Memory};

    ghost from_gives = { λ _ status. status ≡ Memory };

    fn from(_: AllocError) -> Status {
        Status::Memory
    }
}

/// Passes the line that names a status to the sink: whole, unless the sink fails, and then the first part of it. Done
/// has none. It takes no memory.
pub fn tell<O: Sink>(status: &Status, out: &mut O)
    ensures faults { O.faults out.old ≤ O.faults out.new }
    ensures whole { ¬ Rose (O.faults out.old) (O.faults out.new) → TakesAll (O.taken out.old) (O.taken out.new) (line_of status.now) }
    ensures front { TakesFront (O.taken out.old) (O.taken out.new) (line_of status.now) }
{
    let _ = write_parts(&status.parts(), out);
}

// The parts, one after another.
fn write_parts<O: Sink>(parts: &[Part<'_>], out: &mut O) -> Result<(), Failed>
    ensures faults { O.faults out.old ≤ O.faults out.new }
    ensures failed { OnErr result (Rose (O.faults out.old) (O.faults out.new)) }
    ensures whole { OnOk result (TakesAll (O.taken out.old) (O.taken out.new) (all_said parts.now)) }
    ensures front { OnErr result (TakesFront (O.taken out.old) (O.taken out.new) (all_said parts.now)) }
{
    for part in parts {
        write_part(*part, out)?;
    }
    Ok(())
}

fn write_part<O: Sink>(part: Part<'_>, out: &mut O) -> Result<(), Failed>
    ensures faults { O.faults out.old ≤ O.faults out.new }
    ensures failed { OnErr result (Rose (O.faults out.old) (O.faults out.new)) }
    ensures whole { OnOk result (TakesAll (O.taken out.old) (O.taken out.new) (said_bytes part.entry)) }
    ensures front { OnErr result (TakesFront (O.taken out.old) (O.taken out.new) (said_bytes part.entry)) }
{
    match part {
        Part::Text(text) => sink_all(out, text.as_bytes()),
        Part::Number(number) => write_number(number, out),
    }
}

// A number, digit by digit and the highest first, since no memory is taken.
fn write_number<O: Sink>(number: u64, out: &mut O) -> Result<(), Failed>
    ensures faults { O.faults out.old ≤ O.faults out.new }
    ensures failed { OnErr result (Rose (O.faults out.old) (O.faults out.new)) }
    ensures whole { OnOk result (TakesAll (O.taken out.old) (O.taken out.new) (decimal number)) }
    ensures front { OnErr result (TakesFront (O.taken out.old) (O.taken out.new) (decimal number)) }
{
    if number < 10 {
        return write_digit(number, out);
    }
    write_number(number / 10, out)?;
    write_digit(number % 10, out)
}

fn write_digit<O: Sink>(digit: u64, out: &mut O) -> Result<(), Failed>
    requires { digit < 10 }
    ensures faults { O.faults out.old ≤ O.faults out.new }
    ensures failed { OnErr result (Rose (O.faults out.old) (O.faults out.new)) }
    ensures whole { OnOk result (TakesAll (O.taken out.old) (O.taken out.new) ((48 + digit) ∷ [])) }
    ensures front { OnErr result (TakesFront (O.taken out.old) (O.taken out.new) ((48 + digit) ∷ [])) }
{
    sink_all(out, &[b'0' + digit as u8])
}
