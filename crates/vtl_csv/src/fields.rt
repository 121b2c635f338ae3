// The fields of a record.
ghost use Rattle.std.specs.Prelude.{◌≡◌, ◌∷◌, ◌<◌, [], true, length, slice_index_or, IfOk, IfSome};
ghost use Rattle.std.specs.Bool.{OnTrue, OnFalse};
ghost use Rattle.csv.specs.Reading.{default_config, records, stops_reader, error_kind, strip_bom};
ghost use Rattle.csv.specs.Records.{fields_of};
ghost use Rattle.vtl_csv.specs.PlainLines.{StartsLine, slices_shown};
ghost use Rattle.vtl_csv.specs.RecordsLeft.{ReadsRecords, records_of_reader};

use crate::plain_lines::push_line;
use csv::{ByteRecord, Error, Reader};
use std::alloc::{AllocError, Global};
use std::marker::Model;

/// The fields of a record of a text. A contract sees the list of them.
///
/// Those of a line without a quote mark stand in the text as they are.
#[derive(Drop)]
pub struct Fields<'a> {
    plain: Vec<&'a [u8]>,
    quoted: ByteRecord,
    has_quotes: bool,
}

impl<'a> Model for Fields<'a> {
    ghost use Rattle.std.specs.Prelude.{List, ℕ};

    ghost Value = { List (List ℕ) };

    ghost use Rattle.vtl_csv.specs.PlainLines.{fields_shown};

    ghost view = { λ f. fields_shown f.has_quotes f.plain.items f.quoted };
}

// The reading of a slice, which has every byte at hand, stops only if memory runs out.
fn want_of_memory(error: Error) -> AllocError
    requires { stops_reader (error_kind error) ≡ true }
{
    drop(error);
    AllocError
}

// The field at a place of a record.
fn quoted_field(row: &ByteRecord, i: usize) -> &[u8]
    requires { i < length (fields_of row.now) }
    ensures { result.now ≡ slice_index_or (fields_of row.now) i result.now }
{
    match row.get(i) {
        Some(field) => field,
        None => unreachable!(),
    }
}

// The field at a place among those of a line.
fn plain_field<'a>(fields: &[&'a [u8]], i: usize) -> &'a [u8]
    requires { i < length fields.now }
    ensures { result.now ≡ slice_index_or (slices_shown fields.now) i result.now }
{
    fields[i]
}

impl<'a> Fields<'a> {
    /// No fields.
    pub fn new(alloc: Global) -> Self
        ensures { result ≡ [] }
    {
        Fields {
            plain: Vec::new(alloc),
            quoted: ByteRecord::new(alloc),
            has_quotes: false,
        }
    }

    /// How many fields there are.
    pub fn len(&self) -> usize
        ensures { result ≡ length self.now }
    {
        if self.has_quotes {
            self.quoted.len()
        } else {
            self.plain.len()
        }
    }

    /// The field at a place.
    pub fn field(&self, i: usize) -> &[u8]
        requires { i < length self.now }
        ensures { result.now ≡ slice_index_or self.now i result.now }
    {
        if self.has_quotes {
            quoted_field(&self.quoted, i)
        } else {
            plain_field(&self.plain, i)
        }
    }

    /// Takes the record of the line at the start of a text, and answers the text from the line's end on. A line with a
    /// quote mark gets no answer.
    pub(crate) fn take_line(&mut self, text: &'a [u8]) -> Result<Option<&'a [u8]>, AllocError>
        requires { StartsLine text.now }
        ensures { IfOk result (λ o. IfSome o (λ rest. records default_config text.now ≡ self.new ∷ records default_config (strip_bom rest.now))) }
    {
        self.has_quotes = false;
        self.plain.clear();
        push_line(&mut self.plain, text)
    }

    /// Takes the next record of a reader, and answers whether there was one.
    pub(crate) fn read(&mut self, reader: &mut Reader<&'a [u8]>) -> Result<bool, AllocError>
        requires { ReadsRecords reader.old }
        ensures reads { IfOk result (λ found. OnTrue found (ReadsRecords reader.new)) }
        ensures found { IfOk result (λ found. OnTrue found (records_of_reader reader.old ≡ self.new ∷ records_of_reader reader.new)) }
        ensures ended { IfOk result (λ found. OnFalse found (records_of_reader reader.old ≡ [])) }
    {
        self.has_quotes = true;
        match reader.read_byte_record(&mut self.quoted) {
            Ok(found) => Ok(found),
            Err(error) => Err(want_of_memory(error)),
        }
    }
}
