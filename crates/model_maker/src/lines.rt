//! The lines of a made file.
ghost use Rattle.std.specs.Prelude.{◌≡◌, ◌≤◌, ◌++◌, OnOk, decimal};
ghost use Rattle.std.specs.List.{flat_map};
ghost use Rattle.model_maker.specs.MadeText.{parameter_text, record_line, record_lines, year_lines, value_text, year_member, year_set, years_from_first};
ghost use Rattle.model_maker.specs.Tables.{parameter_told, record_told, records_told, value_told};

use crate::table::{Parameter, Record, Value};
use itoa::Buffer;
use std::alloc::AllocError;

/// The first year.
const FIRST_YEAR: u32 = 2020;

/// Appends the set of so many years, from the first on.
pub(crate) fn push_year_set(out: &mut Vec<u8>, years: u32) -> Result<(), AllocError>
    requires { years ≤ 120 }
    ensures { OnOk result (out.new.items ≡ out.old.items ++ year_set years) }
{
    out.extend_from_slice(b"set YEAR :=")?;
    push_years(out, years)?;
    out.extend_from_slice(b" ;\n")?;
    Ok(())
}

// The years, each after a blank.
fn push_years(out: &mut Vec<u8>, years: u32) -> Result<(), AllocError>
    requires { years ≤ 120 }
    ensures { OnOk result (out.new.items ≡ out.old.items ++ flat_map year_member (years_from_first years)) }
{
    for k in 0..years {
        push_year_member(out, k)?;
    }
    Ok(())
}

// The year that is so many after the first, after a blank.
fn push_year_member(out: &mut Vec<u8>, k: u32) -> Result<(), AllocError>
    requires { k ≤ 120 }
    ensures { OnOk result (out.new.items ≡ out.old.items ++ year_member k) }
{
    out.extend_from_slice(b" ")?;
    push_number(out, FIRST_YEAR + k)?;
    Ok(())
}

/// Appends a parameter with its records of so many years.
pub(crate) fn push_parameter(
    out: &mut Vec<u8>,
    years: u32,
    parameter: &Parameter,
) -> Result<(), AllocError>
    requires { years ≤ 120 }
    ensures { OnOk result (out.new.items
        ≡ out.old.items ++ parameter_text years (parameter_told parameter.now)) }
{
    let (name, default_value, records) = *parameter;
    out.extend_from_slice(b"param ")?;
    out.extend_from_slice(name.as_bytes())?;
    out.extend_from_slice(b" default ")?;
    out.extend_from_slice(default_value.as_bytes())?;
    out.extend_from_slice(b" :=\n")?;
    push_records(out, years, records)?;
    out.extend_from_slice(b";\n")?;
    Ok(())
}

// The records of so many years.
fn push_records(out: &mut Vec<u8>, years: u32, records: &[Record]) -> Result<(), AllocError>
    requires { years ≤ 120 }
    ensures { OnOk result (out.new.items
        ≡ out.old.items ++ record_lines years (records_told records.now)) }
{
    for k in 0..years {
        push_year(out, k, records)?;
    }
    Ok(())
}

// The records of the year that is so many after the first.
fn push_year(out: &mut Vec<u8>, k: u32, records: &[Record]) -> Result<(), AllocError>
    requires { k ≤ 120 }
    ensures { OnOk result (out.new.items
        ≡ out.old.items ++ year_lines (records_told records.now) k) }
{
    for entry in records {
        push_record(out, k, entry)?;
    }
    Ok(())
}

// The record of that year.
fn push_record(out: &mut Vec<u8>, k: u32, entry: &Record) -> Result<(), AllocError>
    requires { k ≤ 120 }
    ensures { OnOk result (out.new.items ≡ out.old.items ++ record_line k (record_told entry.now)) }
{
    let (members, value) = *entry;
    out.extend_from_slice(members.as_bytes())?;
    out.extend_from_slice(b" ")?;
    push_number(out, FIRST_YEAR + k)?;
    out.extend_from_slice(b" ")?;
    push_value(out, k, value)?;
    out.extend_from_slice(b"\n")?;
    Ok(())
}

// The value of that year.
fn push_value(out: &mut Vec<u8>, k: u32, value: Value) -> Result<(), AllocError>
    requires { k ≤ 120 }
    ensures { OnOk result (out.new.items ≡ out.old.items ++ value_text k (value_told value)) }
{
    match value {
        Value::Growing => push_number(out, 40 + 4 * k),
        Value::Same(text) => out.extend_from_slice(text.as_bytes()),
    }
}

// A number in decimal.
fn push_number(out: &mut Vec<u8>, number: u32) -> Result<(), AllocError>
    ensures { OnOk result (out.new.items ≡ out.old.items ++ decimal number) }
{
    out.extend_from_slice(Buffer::new().format(number).as_bytes())
}
