//! The lines that say why a data file is refused, or its changes, or a word that names no member of a set.

ghost use Rattle.std.specs.Prelude.{◌≡◌, ◌++◌, [], codes, if◌then◌else◌, IfOk, OnOk};
ghost use Rattle.std.specs.List.{join_with_byte};
ghost use Rattle.model_sets.specs.Names.{IsSet};
ghost use Rattle.param_tables.specs.Positions.{names_at};
ghost use Rattle.param_tables.specs.Told.{IsCell, NamesCell, refusal_told};
ghost use Rattle.data_changes.specs.Told.{NamesIndex, fault_told, record_fault_told};
ghost use Rattle.command_answers.specs.RefusalLines.{cell_text, changes_line, data_line, no_such_line, place_text, record_fault_text, refusal_text, set_fault_word, set_line, text_fault_word, text_line};

use data_changes::{ChangesFault, RecordFault};
use itoa::Buffer;
use mathprog_data::{DataFault, Mark};
use model_sets::{SetFault, Sets, param_word, set_word, subscript_sets};
use param_tables::{BuildFault, Cell};
use std::alloc::{AllocError, Global};

/// The line for a fault of the text.
pub fn text_line(alloc: Global, fault: DataFault) -> Result<Vec<u8>, AllocError>
    ensures { IfOk result (λ line. line.items ≡ text_line fault.no fault.at) }
{
    let mut out = Vec::from_slice(alloc, b"refused ")?;
    push_place(&mut out, fault.at, text_fault_word(fault.no))?;
    out.extend_from_slice(b"\n")?;
    Ok(out)
}

/// The line for a fault of the sets.
pub fn set_line(alloc: Global, fault: SetFault) -> Result<Vec<u8>, AllocError>
    requires { IsSet fault.set }
    ensures { IfOk result (λ line. line.items ≡ set_line fault) }
{
    let mut out = Vec::from_slice(alloc, b"refused set ")?;
    out.extend_from_slice(set_word(fault.set).as_bytes())?;
    out.extend_from_slice(b" ")?;
    out.extend_from_slice(set_fault_word(fault.no).as_bytes())?;
    out.extend_from_slice(b"\n")?;
    Ok(out)
}

/// The line for a word that names no member of the set: `refused no such SET`.
pub fn no_such_line(alloc: Global, set: u8) -> Result<Vec<u8>, AllocError>
    requires { IsSet set }
    ensures { IfOk result (λ line. line.items ≡ no_such_line set) }
{
    let mut out = Vec::from_slice(alloc, b"refused no such ")?;
    out.extend_from_slice(set_word(set).as_bytes())?;
    out.extend_from_slice(b"\n")?;
    Ok(out)
}

/// The line for a refusal of the data, with the names of these sets.
pub fn data_line(alloc: Global, fault: &BuildFault, sets: &Sets) -> Result<Vec<u8>, AllocError>
    requires { NamesCell sets.now fault.now }
    ensures { IfOk result (λ line. line.items ≡ data_line (refusal_told sets.now fault.now)) }
{
    let mut out = Vec::from_slice(alloc, b"refused ")?;
    push_refusal(&mut out, fault, sets)?;
    out.extend_from_slice(b"\n")?;
    Ok(out)
}

/// The line for a refusal of changes, with the names of these sets: `refused changes record K ..`.
pub fn changes_line(alloc: Global, fault: &ChangesFault, sets: &Sets) -> Result<Vec<u8>, AllocError>
    requires { NamesIndex sets.now fault.now.fault }
    ensures { IfOk result (λ line. line.items ≡ changes_line (fault_told sets.now fault.now)) }
{
    let mut out = Vec::from_slice(alloc, b"refused changes record ")?;
    out.extend_from_slice(Buffer::new().format(fault.number).as_bytes())?;
    out.extend_from_slice(b" ")?;
    push_record_fault(&mut out, &fault.fault, sets)?;
    out.extend_from_slice(b"\n")?;
    Ok(out)
}

// What is wrong with a record of a file of changes.
fn push_record_fault(out: &mut Vec<u8>, fault: &RecordFault, sets: &Sets) -> Result<(), AllocError>
    requires { NamesIndex sets.now fault.now }
    ensures { OnOk result (out.new.items ≡ out.old.items ++ record_fault_text (record_fault_told sets.now fault.now)) }
{
    match fault {
        RecordFault::BadHeader => out.extend_from_slice(b"BadHeader"),
        RecordFault::BadRecord => out.extend_from_slice(b"BadRecord"),
        RecordFault::UnknownName => out.extend_from_slice(b"UnknownName"),
        RecordFault::UnknownMember => out.extend_from_slice(b"UnknownMember"),
        RecordFault::BadNumber => out.extend_from_slice(b"BadNumber"),
        RecordFault::BadChange => out.extend_from_slice(b"BadChange"),
        RecordFault::AtIndex(refusal) => push_refusal(out, refusal, sets),
    }
}

// A refusal of the data.
fn push_refusal(out: &mut Vec<u8>, fault: &BuildFault, sets: &Sets) -> Result<(), AllocError>
    requires { NamesCell sets.now fault.now }
    ensures { OnOk result (out.new.items ≡ out.old.items ++ refusal_text (refusal_told sets.now fault.now)) }
{
    match fault {
        BuildFault::Storage => out.extend_from_slice(b"Storage"),
        BuildFault::UnknownMember(at) => push_place(out, *at, "UnknownMember"),
        BuildFault::ValueTwice(at) => push_place(out, *at, "ValueTwice"),
        BuildFault::NoValue(cell) => push_cell(out, "NoValue", cell, sets),
        BuildFault::Negative(cell) => push_cell(out, "Negative", cell, sets),
        BuildFault::NotPositive(cell) => push_cell(out, "NotPositive", cell, sets),
        BuildFault::NotWhole(cell) => push_cell(out, "NotWhole", cell, sets),
        BuildFault::OutOfRange(cell) => push_cell(out, "OutOfRange", cell, sets),
        BuildFault::WholeUnits(cell) => push_cell(out, "WholeUnits", cell, sets),
    }
}

// A fault at a place of the text.
fn push_place(out: &mut Vec<u8>, at: Mark, fault: &str) -> Result<(), AllocError>
    ensures { OnOk result (out.new.items ≡ out.old.items ++ place_text at fault.now) }
{
    out.extend_from_slice(b"line ")?;
    out.extend_from_slice(Buffer::new().format(at.line).as_bytes())?;
    out.extend_from_slice(b" column ")?;
    out.extend_from_slice(Buffer::new().format(at.column).as_bytes())?;
    out.extend_from_slice(b" ")?;
    out.extend_from_slice(fault.as_bytes())
}

// What is wrong with a parameter at an index.
fn push_cell(out: &mut Vec<u8>, fault: &str, cell: &Cell, sets: &Sets) -> Result<(), AllocError>
    requires { IsCell sets.now cell.now }
    ensures { OnOk result (out.new.items
        ≡ out.old.items ++ cell_text fault.now cell.now.param (names_at sets.now cell.now.param cell.now.index.items)) }
{
    out.extend_from_slice(fault.as_bytes())?;
    out.extend_from_slice(b" ")?;
    out.extend_from_slice(param_word(cell.param).as_bytes())?;
    out.extend_from_slice(b"[")?;
    push_members(out, cell, sets)?;
    out.extend_from_slice(b"]")
}

// The names of the members of an index, with commas between them.
fn push_members(out: &mut Vec<u8>, cell: &Cell, sets: &Sets) -> Result<(), AllocError>
    requires { IsCell sets.now cell.now }
    ensures { OnOk result (out.new.items
        ≡ out.old.items ++ join_with_byte 44 (names_at sets.now cell.now.param cell.now.index.items)) }
{
    let kinds = subscript_sets(cell.param);
    for (i, position) in cell.index.iter().enumerate() {
        push_member(out, i > 0, sets.name_of(kinds[i], *position))?;
    }
    Ok(())
}

// A comma where one is due, and a name.
fn push_member(out: &mut Vec<u8>, comma_due: bool, name: &[u8]) -> Result<(), AllocError>
    ensures { OnOk result (out.new.items ≡ out.old.items ++ ((if comma_due then codes "," else []) ++ name.now)) }
{
    if comma_due {
        out.extend_from_slice(b",")?;
    }
    out.extend_from_slice(name)
}

// The word of a fault of the text, by the number of `DataFault`, which is never another.
fn text_fault_word(no: u8) -> &'static str
    ensures { result.now ≡ text_fault_word no }
{
    match no {
        1 => "BadByte",
        2 => "OpenString",
        3 => "OpenComment",
        4 => "Unexpected",
        5 => "EndTooSoon",
        6 => "UnknownName",
        7 => "GivenTwice",
        8 => "WrongSlice",
        9 => "RowTooShort",
        10 => "BadNumber",
        11 => "Tabbing",
        _ => "",
    }
}

// The word of a fault of the sets, by the number of `SetFault`, which is never another.
fn set_fault_word(no: u8) -> &'static str
    ensures { result.now ≡ set_fault_word no }
{
    match no {
        1 => "TwiceInSet",
        2 => "EmptySet",
        3 => "BadYear",
        4 => "TooMany",
        _ => "",
    }
}
