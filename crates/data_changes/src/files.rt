//! The changes of a file, made one after another.

ghost use Rattle.std.specs.Prelude.{◌≡◌, Err, IfErr, OnOk, Ok, map};
ghost use Rattle.csv.specs.Records.{fields_of};
ghost use Rattle.data_changes.specs.Files.{after_file, after_record};
ghost use Rattle.data_changes.specs.Told.{IsChangesFailDue, IsRecordStopDue, fail_of};
ghost use Rattle.data_changes.specs.declared.fault.ChangesFail.TheVariants.{Fault, Memory};
ghost use Rattle.data_changes.specs.declared.fault.RecordStop.TheVariants as stops;

use crate::columns::{fields_in, is_header};
use crate::fault::{ChangesFail, ChangesFault, RecordFault, RecordStop};
use crate::records::change_in;
use csv::ByteRecord;
use param_tables::OpenData;
use plan_files::{next_record, reader_of};
use std::alloc::Global;

/// Makes the changes of a CSV text (RFC 4180, as `csv` reads it: blank lines are none): of record 1, the header, the names of columns, in
/// any order; of each further record one change, in their order.
///
/// Refuses the first record that breaks a rule, by the first rule that it breaks (`RecordFault`, in its order but for a column that the
/// parameter has not). What the data are then is nobody's to look at. It may run out of memory. The sets stay as they are, unless memory ran out. Time is in proportion to the text and to the indices that records name, a
/// logarithm of what is given apart.
pub fn change_data(alloc: Global, opened: &mut OpenData, text: &[u8]) -> Result<(), ChangesFail>
    ensures changed { OnOk result (after_file opened.old text.now ≡ Ok opened.new) }
    ensures sets { ¬ (result ≡ Err Memory) → opened.new.facts.sets ≡ opened.old.facts.sets }
    ensures refused { IfErr result (IsChangesFailDue (after_file opened.old text.now) opened.old.facts.sets) }
{
    let mut reader = reader_of(alloc, text);
    let mut header = ByteRecord::new(alloc);
    if !next_record(&mut reader, &mut header)? {
        return Err(fault_at(1, RecordFault::BadHeader));
    }
    let header = fields_in(alloc, &header)?;
    if !is_header(header.as_slice()) {
        return Err(fault_at(1, RecordFault::BadHeader));
    }
    let mut record = ByteRecord::new(alloc);
    for number in 2..u64::MAX {
        if !next_record(&mut reader, &mut record)? {
            return Ok(());
        }
        match change_by(alloc, opened, header.as_slice(), &record) {
            Ok(()) => {}
            Err(stop) => return Err(fail_at(number, stop)),
        }
    }
    Err(ChangesFail::Memory)
}

/// The fault of the record of this number.
fn fault_at(number: u64, fault: RecordFault) -> ChangesFail
    ensures { result ≡ Fault (record { number = number; fault = fault }) }
{
    ChangesFail::Fault(ChangesFault { number, fault })
}

/// Why the record of this number stops the changes.
fn fail_at(number: u64, stop: RecordStop) -> ChangesFail
    ensures { result ≡ fail_of number stop }
{
    match stop {
        RecordStop::Fault(fault) => fault_at(number, fault),
        RecordStop::Memory => ChangesFail::Memory,
    }
}

/// Makes the change of a record.
fn change_by(
    alloc: Global,
    opened: &mut OpenData,
    header: &[&[u8]],
    record: &ByteRecord,
) -> Result<(), RecordStop>
    ensures changed { OnOk result (after_record opened.old (map (λ name. name.now) header.now) (fields_of record.now) ≡ Ok opened.new) }
    ensures sets { ¬ (result ≡ Err stops.Memory) → opened.new.facts.sets ≡ opened.old.facts.sets }
    ensures refused { IfErr result (IsRecordStopDue (after_record opened.old (map (λ name. name.now) header.now) (fields_of record.now)) opened.old.facts.sets) }
{
    let fields = fields_in(alloc, record)?;
    let told = change_in(
        alloc,
        opened.sets(),
        opened.second(),
        header,
        fields.as_slice(),
    )?;
    opened.apply(alloc, &told.change)?;
    if told.rounded {
        opened.count_rounded()?;
    }
    Ok(())
}
