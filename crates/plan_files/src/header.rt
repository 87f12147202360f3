//! The header.

ghost use Rattle.std.specs.Prelude.{◌≡◌, ◌↔◌, List, IsTrue, map};
ghost use Rattle.csv.specs.Records.{fields_of};
ghost use Rattle.plan_files.specs.Files.{Fields};
ghost use Rattle.plan_files.specs.Reading.{HasLeft, IsAfterHeader};
ghost use Rattle.plan_files.specs.Records.{header};

use crate::faults::{PlanFail, PlanFault};
use crate::fields::field_at;
use crate::records::next_record;
use csv::{ByteRecord, Reader};

/// How many fields a record has.
pub(crate) const FIELD_COUNT: usize = 10;

/// The fields of the first record.
pub(crate) const HEADER: [&[u8]; FIELD_COUNT] = [
    b"NAME",
    b"REGION",
    b"REGION2",
    b"TIMESLICE",
    b"TECHNOLOGY",
    b"FUEL",
    b"EMISSION",
    b"MODE",
    b"YEAR",
    b"VALUE",
];

/// Reads the first record, which is the header. Refuses another one, or none (`BadRecord`), and else only where memory runs out.
pub fn read_header(reader: &mut Reader<&[u8]>, fields: &mut ByteRecord) -> Result<(), PlanFail>
    ensures { (rows : List Fields) → HasLeft reader.old rows → IsAfterHeader reader.new rows result }
{
    if next_record(reader, fields)? && is_header(fields) {
        Ok(())
    } else {
        Err(PlanFail::Fault(PlanFault::BadRecord(1)))
    }
}

/// Whether a record is the header.
fn is_header(fields: &ByteRecord) -> bool
    ensures { IsTrue result ↔ (fields_of fields.now ≡ header) }
{
    if fields.len() != FIELD_COUNT {
        return false;
    }
    for (place, name) in HEADER.iter().enumerate() {
        if field_at(fields, place) != *name {
            return false;
        }
    }
    true
}
