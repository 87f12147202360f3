//! The values that records give to names.

ghost use Rattle.std.specs.Prelude.{◌≡◌, ◌<◌, ◌++◌, ◌∷◌, List, [], IfOk, IfErr, IfSome, OnOk, None, length, replicate};
ghost use Rattle.csv.specs.Records.{fields_of};
ghost use Rattle.plan_files.specs.Answers.{Breaks, IsFailOf, number_after};
ghost use Rattle.plan_files.specs.Files.{Fields, IsRight, name_of};
ghost use Rattle.plan_files.specs.Reading.{AreTaken, IsEntry, first_without, with_values};

use crate::faults::{PlanFail, PlanFault};
use crate::fields::{field_at, value_in_field};
use crate::header::FIELD_COUNT;
use csv::ByteRecord;
use exact_num::Frac;
use std::alloc::{AllocError, Global};

/// No value, so many times.
pub(crate) fn no_values(alloc: Global, count: usize) -> Result<Vec<Option<Frac>>, AllocError>
    ensures { IfOk result (λ values. values.items ≡ replicate count None) }
{
    vec![in alloc; None; count]
}

/// Takes the value of a record, at the place of the name that it has. Refuses the first rule that the record breaks.
pub(crate) fn take(
    values: &mut [Option<Frac>],
    fields: &ByteRecord,
    number: u64,
    place: Option<usize>,
) -> Result<(), PlanFail>
    requires { IfSome place (λ i. i < length values.old) }
    ensures taken { (names earlier : List Fields) → IsEntry names (name_of (fields_of fields.now)) place → AreTaken names earlier values.old
        → OnOk result (IsRight names earlier (fields_of fields.now) × AreTaken names (earlier ++ fields_of fields.now ∷ []) values.new) }
    ensures fault { (names earlier : List Fields) → IsEntry names (name_of (fields_of fields.now)) place → AreTaken names earlier values.old
        → number ≡ number_after earlier → IfErr result (IsFailOf (Breaks names earlier (fields_of fields.now))) }
{
    if fields.len() != FIELD_COUNT {
        return Err(PlanFail::Fault(PlanFault::BadRecord(number)));
    }
    let Some(place) = place else {
        return Err(PlanFail::Fault(PlanFault::UnknownVar(number)));
    };
    if values[place].is_some() {
        return Err(PlanFail::Fault(PlanFault::Twice(number)));
    }
    let Some(value) = value_in_field(field_at(fields, FIELD_COUNT - 1)) else {
        return Err(PlanFail::Fault(PlanFault::BadValue(number)));
    };
    values[place] = Some(value);
    Ok(())
}

/// The keys that have a value, each with it, in order.
pub fn with_values<K: Copy>(
    alloc: Global,
    keys: &[K],
    values: &[Option<Frac>],
) -> Result<Vec<(K, Frac)>, AllocError>
    requires { length values.now ≡ length keys.now }
    ensures { IfOk result (λ entries. entries.items ≡ with_values keys.now values.now) }
{
    let mut entries = Vec::with_capacity(alloc, keys.len())?;
    for (i, key) in keys.iter().enumerate() {
        if let Some(value) = values[i] {
            entries.push((*key, value))?;
        }
    }
    Ok(entries)
}

/// The first key that has no value.
pub fn first_without<K: Copy>(keys: &[K], values: &[Option<Frac>]) -> Option<K>
    requires { length values.now ≡ length keys.now }
    ensures { result ≡ first_without keys.now values.now }
{
    for (i, key) in keys.iter().enumerate() {
        if values[i].is_none() {
            return Some(*key);
        }
    }
    None
}
