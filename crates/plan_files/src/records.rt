//! The records of a text, one after another.

ghost use Rattle.std.specs.Prelude.{◌≡◌, ◌⊎◌, ◌∷◌, List, ℕ, false, true, [], IfOk, if◌then◌else◌};
ghost use Rattle.csv.specs.Records.{fields_of};
ghost use Rattle.plan_files.specs.Files.{Fields, records_of};
ghost use Rattle.plan_files.specs.Reading.{HasLeft, IsNext};

use csv::{ByteRecord, Reader, ReaderBuilder};
use std::alloc::{AllocError, Global};

/// A reader of the records of a text, of any lengths.
pub fn reader_of(alloc: Global, text: &[u8]) -> Reader<&[u8]>
    ensures { HasLeft result (records_of text.now) }
{
    ReaderBuilder::new()
        .has_headers(false)
        .flexible(true)
        .from_reader(alloc, text)
}

/// Reads the next record, if there is one. Refuses only where memory runs out.
pub fn next_record(reader: &mut Reader<&[u8]>, fields: &mut ByteRecord) -> Result<bool, AllocError>
    ensures { (rows : List Fields) → HasLeft reader.old rows → IfOk result (λ found. IsNext reader.new rows found (fields_of fields.new)) }
{
    let Ok(found) = reader.read_byte_record(fields) else {
        return Err(AllocError);
    };
    Ok(found)
}
