// Lines of a CSV text, and the records of those that have no quote mark.
//
// The fields of a line without a quote mark are parts of the text (`push_line`, `Fields`): nothing is copied, and
// `csv` is asked from the first line with a quote mark on, to the end of the file. What is left of a text always
// begins with the end of a line, so a byte order mark inside a file is never taken for one at its start. The reader
// of `csv` lies in a box: it is large, and a local of the loop is cleared for each record.
ghost use Rattle.std.specs.Prelude.{◌≡◌, ◌∷◌, ◌≤◌, [], length, IfOk, IfSome};
ghost use Rattle.std.specs.List.{position_or_len};
ghost use Rattle.csv.specs.Quoting.{needs_byte};
ghost use Rattle.csv.specs.Reading.{default_config, is_bom, records, strip_bom};
ghost use Rattle.csv.specs.Writing.{default_writer};
ghost use Rattle.vtl_csv.specs.PlainLines.{StartsLine, StartsNoBlank, ends_line, slices_shown};

use crate::record_text::is_mark;
use std::alloc::AllocError;

fn is_bom(first: u8, second: u8, third: u8) -> bool
    ensures { result ≡ is_bom first second third }
{
    first == 0xEF && second == 0xBB && third == 0xBF
}

/// A text without a byte order mark at its start.
pub fn without_bom(text: &[u8]) -> &[u8]
    ensures { result.now ≡ strip_bom text.now }
{
    let [first, second, third, rest @ ..] = text else {
        return text;
    };
    if is_bom(*first, *second, *third) {
        return rest;
    }
    text
}

fn ends_line(byte: u8) -> bool
    ensures { result ≡ ends_line byte }
{
    byte == b'\r' || byte == b'\n'
}

/// A text without the ends of lines at its start.
pub fn without_blank_lines(text: &[u8]) -> &[u8]
    ensures records { records default_config result.now ≡ records default_config text.now }
    ensures start { StartsNoBlank result.now }
{
    let mut rest = text;
    while let [byte, others @ ..] = rest {
        if !ends_line(*byte) {
            return rest;
        }
        rest = others;
    }
    rest
}

// The place of the first comma, quote mark or end of a line, or the end.
fn first_mark(text: &[u8]) -> usize
    ensures place { result ≡ position_or_len (needs_byte default_writer) text.now }
    ensures within { result ≤ length text.now }
{
    for i in 0..text.len() {
        if is_mark(text[i]) {
            return i;
        }
    }
    text.len()
}

/// Adds the fields of the line at the start of a text to none, and answers the text from the line's end on. A line with
/// a quote mark gets no answer.
pub fn push_line<'a>(
    fields: &mut Vec<&'a [u8]>,
    text: &'a [u8],
) -> Result<Option<&'a [u8]>, AllocError>
    requires none { fields.old.items ≡ [] }
    requires line { StartsLine text.now }
    ensures { IfOk result (λ o. IfSome o (λ rest. records default_config text.now ≡ slices_shown fields.new.items ∷ records default_config (strip_bom rest.now))) }
{
    let mut rest = text;
    loop {
        let (field, behind) = rest.split_at(first_mark(rest));
        fields.push(field)?;
        let [mark, others @ ..] = behind else {
            return Ok(Some(behind));
        };
        if *mark == b'"' {
            return Ok(None);
        }
        if *mark != b',' {
            return Ok(Some(behind));
        }
        rest = others;
    }
}
