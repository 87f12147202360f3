//! The data of a data section, or their first refusal.

use crate::arguments::unescaped;
use crate::sections::{MOST_BYTES, fault_told, word_of};
use mathprog_data::{ReadFail, read_blocks};
use model_sets::SetFail;
use param_tables::{BuildFail, BuildFault, Cell, build, sets_of};
use std::alloc::{AllocError, Global};
use std::{fs, io};

/// The file with a statement for each parameter that is used in all data, which gives it a default.
const DEFAULTS: &str = "defaults";

/// `data|FILE|STATEMENTS`: the first refusal of the data section that has the sets of the file, these statements, and a default for each
/// parameter of which they say nothing; or that it tells data.
pub fn data_told(rt: &HostRuntime, text: &str) -> io::Result<String> {
    let (file, statements) = text.split_once('|').unwrap_or((text, ""));
    let mut section = unescaped(rt.alloc(), statements)?;
    section.push(b'\n')?;
    let written = std::str::from_utf8(section.as_slice()).unwrap_or("");
    let defaults = missing_defaults(rt, written)?;
    let mut whole = if file.is_empty() {
        Vec::new(rt.alloc())
    } else {
        fs::read(rt, file)?
    };
    whole.extend_from_slice(section.as_slice())?;
    whole.extend_from_slice(defaults.as_bytes())?;
    Ok(first_refusal(rt.alloc(), &whole)?)
}

/// The statements of defaults of the parameters of which a text has no statement.
fn missing_defaults(rt: &HostRuntime, text: &str) -> io::Result<String> {
    let defaults = fs::read_to_string(rt, DEFAULTS)?;
    let mut missing = String::new(rt.alloc());
    for line in defaults.lines() {
        let (beginning, _) = line.split_once("default").unwrap_or((line, ""));
        if !text.contains(beginning) {
            missing.push_str(line)?;
            missing.push('\n')?;
        }
    }
    Ok(missing)
}

/// The first refusal of a text, of its sets or of its data.
fn first_refusal(alloc: Global, text: &[u8]) -> Result<String, AllocError> {
    if text.len() > MOST_BYTES {
        return String::from_str(alloc, "too long");
    }
    let blocks = match read_blocks(alloc, text) {
        Ok(blocks) => blocks,
        Err(ReadFail::Fault(fault)) => return fault_told(alloc, fault),
        Err(ReadFail::Memory) => return Err(AllocError),
    };
    let sets = match sets_of(alloc, &blocks) {
        Ok(sets) => sets,
        Err(SetFail::Fault(fault)) => {
            return format!(in alloc; "set {} fault {}", fault.set, fault.no);
        }
        Err(SetFail::Memory) => return Err(AllocError),
    };
    match build(alloc, &blocks, sets) {
        Ok(_) => String::from_str(alloc, "data"),
        Err(BuildFail::Fault(fault, _)) => refusal_told(alloc, &fault),
        Err(BuildFail::Memory) => Err(AllocError),
    }
}

/// The refusal of data: the place of a value, or the parameter and the positions of an index.
fn refusal_told(alloc: Global, fault: &BuildFault) -> Result<String, AllocError> {
    match fault {
        BuildFault::UnknownMember(at) => format!(in alloc;
            "UnknownMember {} {}",
            at.line, at.column
        ),
        BuildFault::ValueTwice(at) => format!(in alloc; "ValueTwice {} {}", at.line, at.column),
        BuildFault::NoValue(cell) => cell_told(alloc, "NoValue", cell),
        BuildFault::Negative(cell) => cell_told(alloc, "Negative", cell),
        BuildFault::NotPositive(cell) => cell_told(alloc, "NotPositive", cell),
        BuildFault::NotWhole(cell) => cell_told(alloc, "NotWhole", cell),
        BuildFault::OutOfRange(cell) => cell_told(alloc, "OutOfRange", cell),
        BuildFault::Storage => String::from_str(alloc, "Storage"),
        BuildFault::WholeUnits(cell) => cell_told(alloc, "WholeUnits", cell),
    }
}

fn cell_told(alloc: Global, word: &str, cell: &Cell) -> Result<String, AllocError> {
    format!(in alloc; "{word} {} {:?}", word_of(cell.param), cell.index)
}
