//! Members that only one of two files has.

ghost use Rattle.std.specs.Prelude.{◌≡◌, ◌++◌, ◌∷◌, [], OnOk};
ghost use Rattle.model_sets.specs.Names.{IsSet, set_word};
ghost use Rattle.plan_files.specs.Texts.{records_text};
ghost use Rattle.plan_compare.specs.Comparisons.{members_text, only_text};
ghost use Rattle.plan_compare.specs.Members.{member_records, missing_records, only_here};

use csv::ByteRecord;
use model_sets::set_numbers::{
    EMISSION, FUEL, MODE_OF_OPERATION, REGION, TECHNOLOGY, TIMESLICE, YEAR,
};
use model_sets::{Sets, set_word};
use plan_files::{push_field, push_record};
use std::alloc::{AllocError, Global};

/// The sets over which subscripts run.
const COMPARED_SETS: [u8; 7] = [
    REGION,
    TECHNOLOGY,
    FUEL,
    EMISSION,
    MODE_OF_OPERATION,
    TIMESLICE,
    YEAR,
];

/// Appends the members that only the first of two files has, and those that only the second has.
pub(crate) fn push_members(
    alloc: Global,
    out: &mut Vec<u8>,
    first: &Sets,
    second: &Sets,
) -> Result<(), AllocError>
    ensures { OnOk result (out.new.items ≡ out.old.items ++ members_text first.now second.now) }
{
    push_only(alloc, out, b"only first\n", first, second)?;
    push_only(alloc, out, b"only second\n", second, first)
}

// Appends a line, and the records of the members that aren't there.
fn push_only(
    alloc: Global,
    out: &mut Vec<u8>,
    line: &[u8],
    here: &Sets,
    there: &Sets,
) -> Result<(), AllocError>
    ensures { OnOk result (out.new.items ≡ out.old.items ++ only_text line.now here.now there.now) }
{
    out.extend_from_slice(line)?;
    push_only_here(alloc, out, here, there)
}

// Appends the records of the members that aren't there.
fn push_only_here(
    alloc: Global,
    out: &mut Vec<u8>,
    here: &Sets,
    there: &Sets,
) -> Result<(), AllocError>
    ensures { OnOk result (out.new.items ≡ out.old.items ++ records_text (only_here here.now there.now)) }
{
    for set in COMPARED_SETS {
        push_missing(alloc, out, here, there, set)?;
    }
    Ok(())
}

// Appends the records of the members of a set that aren't there.
fn push_missing(
    alloc: Global,
    out: &mut Vec<u8>,
    here: &Sets,
    there: &Sets,
    set: u8,
) -> Result<(), AllocError>
    requires { IsSet set }
    ensures { OnOk result (out.new.items ≡ out.old.items ++ records_text (member_records here.now there.now set)) }
{
    for position in 0..here.count(set) {
        push_if_missing(alloc, out, there, set, here.name_of(set, position))?;
    }
    Ok(())
}

// Appends the record of a member, where it isn't there.
fn push_if_missing(
    alloc: Global,
    out: &mut Vec<u8>,
    there: &Sets,
    set: u8,
    name: &[u8],
) -> Result<(), AllocError>
    requires { IsSet set }
    ensures { OnOk result (out.new.items ≡ out.old.items
        ++ records_text (missing_records there.now set (name.now ∷ []))) }
{
    if there.index_of(set, name).is_some() {
        return Ok(());
    }
    let mut fields = ByteRecord::new(alloc);
    push_field(&mut fields, set_word(set).as_bytes())?;
    push_field(&mut fields, name)?;
    push_record(alloc, out, &fields)
}
