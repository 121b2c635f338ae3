// The records of a CSV text, one after the other.
//
// An error of `csv` over memory is answered as out of memory: a slice and a `Vec` have no other. That is not proved.
ghost use Rattle.std.specs.Prelude.{◌≡◌, ◌∷◌, [], IfOk, OnErr};
ghost use Rattle.std.specs.Bool.{OnTrue, OnFalse};
ghost use Rattle.csv.specs.Reading.{default_config, records, strip_bom};
ghost use Rattle.vtl_csv.specs.RecordsLeft.{ReadsRecords, records_of_reader};
ghost use Rattle.vtl_csv.specs.RestOfText.{IsFront, ReadsRest, records_in_rest};

use crate::fields::Fields;
use crate::plain_lines::{without_blank_lines, without_bom};
use csv::{Reader, ReaderBuilder};
use std::alloc::{AllocError, Global};
use std::marker::Model;

/// The records of a CSV text that have not been read yet. A contract sees the list of them.
///
/// After an error no record is left.
#[derive(Drop)]
pub struct RecordReader<'a> {
    alloc: Global,
    rest: Rest<'a>,
}

impl<'a> Model for RecordReader<'a> {
    ghost use Rattle.std.specs.Prelude.{List, ℕ};

    ghost Value = { List (List (List ℕ)) };

    ghost use Rattle.vtl_csv.specs.RestOfText.{records_in_rest, ReadsRest};

    ghost view = { λ r. records_in_rest r.rest };

    ghost invariant = { λ r. ReadsRest r.rest };
}

// What has not been read of a text: the text from its start or from the end of a line on, or, once a line has a quote
// mark, a reader of it.
#[derive(Drop)]
enum Rest<'a> {
    Lines(&'a [u8]),
    Quoted(Box<Reader<&'a [u8]>>),
}

// What stands at the front of a text: a record and the text behind it, no record, or a line with a quote mark.
enum Front<'a> {
    Record(&'a [u8]),
    Nothing,
    QuotedLine,
}

// What stands at the front of a text; a record's fields are put into `fields`.
fn take_front<'a>(text: &'a [u8], fields: &mut Fields<'a>) -> Result<Front<'a>, AllocError>
    ensures { IfOk result (λ f. IsFront (records default_config (strip_bom text.now)) fields.new f) }
{
    let line = without_blank_lines(without_bom(text));
    if line.is_empty() {
        return Ok(Front::Nothing);
    }
    match fields.take_line(line)? {
        Some(rest) => Ok(Front::Record(rest)),
        None => Ok(Front::QuotedLine),
    }
}

// A reader of the records of a text, in a box, as it is large.
#[cold]
#[inline(never)]
fn reader_of(alloc: Global, text: &[u8]) -> Result<Box<Reader<&[u8]>>, AllocError>
    ensures reads { IfOk result (λ b. ReadsRecords b.value) }
    ensures records { IfOk result (λ b. records_of_reader b.value ≡ records default_config (strip_bom text.now)) }
{
    let reader = ReaderBuilder::new()
        .has_headers(false)
        .flexible(true)
        .from_reader(alloc, text);
    Ok(Box::new(alloc, reader)?)
}

impl<'a> Rest<'a> {
    // Reads the next record into `fields`, and answers whether there was one.
    fn next(&mut self, alloc: Global, fields: &mut Fields<'a>) -> Result<bool, AllocError>
        requires { ReadsRest self.old }
        ensures reads { IfOk result (λ found. OnTrue found (ReadsRest self.new)) }
        ensures found { IfOk result (λ found. OnTrue found (records_in_rest self.old ≡ fields.new ∷ records_in_rest self.new)) }
        ensures ended { IfOk result (λ found. OnFalse found (records_in_rest self.old ≡ [])) }
    {
        match self {
            Rest::Lines(text) => match take_front(*text, fields)? {
                Front::Record(rest) => {
                    *text = rest;
                    Ok(true)
                }
                Front::Nothing => Ok(false),
                Front::QuotedLine => {
                    let mut reader = reader_of(alloc, *text)?;
                    let found = fields.read(&mut reader)?;
                    *self = Rest::Quoted(reader);
                    Ok(found)
                }
            },
            Rest::Quoted(reader) => fields.read(reader),
        }
    }
}

impl<'a> RecordReader<'a> {
    /// A reader of the records of `text`, which need not have the same number of fields.
    pub fn new(alloc: Global, text: &'a [u8]) -> Self
        ensures { result ≡ records default_config (strip_bom text.now) }
    {
        RecordReader {
            alloc,
            rest: Rest::Lines(text),
        }
    }

    /// Reads the next record into `fields`, and answers whether there was one.
    pub fn next(&mut self, fields: &mut Fields<'a>) -> Result<bool, AllocError>
        ensures found { IfOk result (λ found. OnTrue found (self.old ≡ fields.new ∷ self.new)) }
        ensures ended { IfOk result (λ found. OnFalse found ((self.old ≡ []) × (self.new ≡ []))) }
        ensures failed { OnErr result (self.new ≡ []) }
    {
        match self.rest.next(self.alloc, fields) {
            Ok(true) => Ok(true),
            Ok(false) => {
                self.rest = Rest::Lines(&[]);
                Ok(false)
            }
            Err(error) => {
                self.rest = Rest::Lines(&[]);
                Err(error)
            }
        }
    }
}
