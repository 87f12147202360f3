//! Records as lines of CSV text.

ghost use Rattle.std.specs.Prelude.{◌≡◌, ◌++◌, [], true, false, IfOk, OnErr, OnOk};
ghost use Rattle.csv.specs.Records.{fields_of};
ghost use Rattle.csv.specs.Writing.{default_writer, fields_written, has_written, row_text, with_flexible, writer_pending, writer_setup, writer_under};

use csv::{ByteRecord, Writer, WriterBuilder};
use std::alloc::{AllocError, Global};
use std::marker::Model;

/// Records as lines of CSV text, each of as many fields as it has. One writer writes them all, since it has a buffer that costs
/// more to make than a record to write.
#[derive(Drop)]
pub struct Lines {
    alloc: Global,
    writer: Writer<Vec<u8>>,
}

impl Model for Lines {
    ghost use Rattle.std.specs.Prelude.{◌≡◌, ◌++◌, ℕ, List, false, true};
    ghost use Rattle.csv.specs.Writing.{default_writer, fields_written, has_written, with_flexible, writer_pending, writer_setup, writer_under};

    ghost Value = { List ℕ };

    ghost view = { λ lines. (writer_under lines.writer).items ++ writer_pending lines.writer };

    ghost invariant = { λ lines. (fields_written lines.writer ≡ 0) × (has_written lines.writer ≡ false) × (writer_setup lines.writer ≡ with_flexible default_writer true) };
}

impl Lines {
    /// No lines.
    pub fn new(alloc: Global) -> Lines
        ensures { result ≡ [] }
    {
        Lines {
            alloc,
            writer: new_writer(alloc),
        }
    }

    /// Appends a record as a line. Refuses where memory runs out, and there are no lines then.
    pub fn push(&mut self, fields: &ByteRecord) -> Result<(), AllocError>
        ensures line { OnOk result (self.new ≡ self.old ++ row_text default_writer (fields_of fields.now)) }
        ensures refused { OnErr result (self.new ≡ []) }
    {
        match self.writer.write_byte_record(fields) {
            Ok(()) => Ok(()),
            Err(_) => {
                self.writer = new_writer(self.alloc);
                Err(AllocError)
            }
        }
    }

    /// The lines, one after another. Refuses where memory runs out.
    pub fn into_text(self) -> Result<Vec<u8>, AllocError>
        ensures { IfOk result (λ text. text.items ≡ self) }
    {
        match self.writer.into_inner() {
            Ok(text) => Ok(text),
            Err(_) => Err(AllocError),
        }
    }
}

// A writer of records of any lengths into no text yet.
fn new_writer(alloc: Global) -> Writer<Vec<u8>>
    ensures under { (writer_under result).items ≡ [] }
    ensures pending { writer_pending result ≡ [] }
    ensures fields { fields_written result ≡ 0 }
    ensures wrote { has_written result ≡ false }
    ensures setup { writer_setup result ≡ with_flexible default_writer true }
{
    WriterBuilder::new()
        .flexible(true)
        .from_writer(Vec::new(alloc))
}
