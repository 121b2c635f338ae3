// CSV text, one record after the other.
ghost use Rattle.std.specs.Prelude.{◌≡◌, ◌++◌, [], IfOk, OnOk};
ghost use Rattle.csv.specs.Records.{fields_of};
ghost use Rattle.csv.specs.Writing.{default_writer, row_text};

use csv::{ByteRecord, Writer, WriterBuilder};
use std::alloc::{AllocError, Global};
use std::marker::Model;

/// A writer of CSV text into memory. A contract sees the bytes that are written so far.
///
/// It fails only if memory runs out, and after that each call fails.
#[derive(Drop)]
pub struct RowWriter {
    writer: Writer<Vec<u8>>,
    has_failed: bool,
}

impl Model for RowWriter {
    ghost use Rattle.std.specs.Prelude.{List, ℕ};

    ghost Value = { List ℕ };

    ghost use Rattle.vtl_csv.specs.RowsWritten.{rows_written, WritesUntilFailed};

    ghost view = { λ w. rows_written w.has_failed w.writer };

    ghost invariant = { λ w. WritesUntilFailed w.has_failed w.writer };
}

impl RowWriter {
    /// A writer that has written nothing.
    pub fn new(alloc: Global) -> Self
        ensures { result ≡ [] }
    {
        let writer = WriterBuilder::new()
            .flexible(true)
            .from_writer(Vec::new(alloc));
        RowWriter {
            writer,
            has_failed: false,
        }
    }

    /// Writes a record, which need not have as many fields as the one before.
    pub fn write(&mut self, fields: &ByteRecord) -> Result<(), AllocError>
        ensures { OnOk result (self.new ≡ self.old ++ row_text default_writer (fields_of fields.now)) }
    {
        if self.has_failed {
            return Err(AllocError);
        }
        match self.writer.write_byte_record(fields) {
            Ok(()) => Ok(()),
            Err(_) => {
                self.has_failed = true;
                Err(AllocError)
            }
        }
    }

    /// The text that was written.
    pub fn into_bytes(self) -> Result<Vec<u8>, AllocError>
        ensures { IfOk result (λ text. text.items ≡ self) }
    {
        if self.has_failed {
            return Err(AllocError);
        }
        match self.writer.into_inner() {
            Ok(text) => Ok(text),
            Err(_) => Err(AllocError),
        }
    }
}
