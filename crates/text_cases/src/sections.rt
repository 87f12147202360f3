//! Data sections: their tokens, and what their statements say.

use mathprog_data::{
    Blocks, DataFault, Name, ParamBlock, PieceReader, ReadFail, read_blocks, tokens,
};
use model_sets::param_numbers::{DISCOUNT_RATE_IDV, YEAR_SPLIT};
use model_sets::set_numbers::{DAILYTIMEBRACKET, REGION};
use model_sets::{param_word, set_word};
use std::alloc::{AllocError, Global};

/// The most bytes of a text.
pub const MOST_BYTES: usize = 67_108_864;

/// A fault of a text: its number, line and column.
pub fn fault_told(alloc: Global, fault: DataFault) -> Result<String, AllocError> {
    format!(in alloc;
        "fault {} at {}:{}",
        fault.no, fault.at.line, fault.at.column
    )
}

/// `tokens|TEXT`: the kind of each token, 1 for a sign, 2 for a bare symbol and 3 for a quoted one, and where it begins and ends.
pub fn tokens_told(alloc: Global, text: &[u8]) -> Result<String, AllocError> {
    if text.len() > MOST_BYTES {
        return String::from_str(alloc, "too long");
    }
    match tokens(alloc, text) {
        Ok(found) => {
            let mut out = String::new(alloc);
            for token in &found {
                let is_there = text.get(token.from as usize..token.to as usize) == Some(token.text);
                let mark = if is_there { "" } else { "?" };
                out.push_str(format!(in alloc;
                    "{}:{}-{}{mark} ",
                    token.kind, token.from, token.to
                )?.as_str())?;
            }
            Ok(out)
        }
        Err(ReadFail::Fault(fault)) => fault_told(alloc, fault),
        Err(ReadFail::Memory) => Err(AllocError),
    }
}

/// `section|TEXT`: what the statements say, sets first, or the first fault.
pub fn section_told(alloc: Global, text: &[u8]) -> Result<String, AllocError> {
    if text.len() > MOST_BYTES {
        return String::from_str(alloc, "too long");
    }
    match read_blocks(alloc, text) {
        Ok(blocks) => blocks_told(alloc, &blocks),
        Err(ReadFail::Fault(fault)) => fault_told(alloc, fault),
        Err(ReadFail::Memory) => Err(AllocError),
    }
}

/// `pieces|TEXT`: the same of the text fed in pieces of 1, 2, 3 and 7 bytes.
pub fn pieces_told(alloc: Global, text: &[u8]) -> Result<String, AllocError> {
    let mut out = String::new(alloc);
    for size in SIZES {
        let told = match in_pieces(alloc, text, size) {
            Ok(blocks) => blocks_told(alloc, &blocks)?,
            Err(ReadFail::Fault(fault)) => fault_told(alloc, fault)?,
            Err(ReadFail::Memory) => return Err(AllocError),
        };
        if out.as_str() != told.as_str() {
            out.push_str(told.as_str())?;
        }
    }
    Ok(out)
}

/// A token, a comment, a line or `:=` is cut somewhere by pieces of these numbers of bytes.
const SIZES: [usize; 4] = [1, 2, 3, 7];

/// What is read of the text, fed in pieces of so many bytes.
fn in_pieces(alloc: Global, text: &[u8], size: usize) -> Result<Blocks, ReadFail> {
    let mut reader = PieceReader::new(alloc)?;
    for piece in text.chunks(size.max(1)) {
        if reader.fed() > 1_000_000 || piece.len() > 1_000 {
            break;
        }
        reader.feed(piece)?;
    }
    reader.finish()
}

/// What the blocks say, and how many numbers are rounded.
fn blocks_told(alloc: Global, blocks: &Blocks) -> Result<String, AllocError> {
    let mut out = String::new(alloc);
    for block in &blocks.sets {
        if REGION <= block.set && block.set <= DAILYTIMEBRACKET {
            out.push_str(set_word(block.set))?;
        }
        for name in &block.members {
            out.push(' ')?;
            push_name(&mut out, name)?;
        }
        out.push_str("; ")?;
    }
    for block in &blocks.params {
        push_param(alloc, &mut out, block)?;
    }
    let rounded = blocks.rounded;
    out.push_str(format!(in alloc; "rounded {rounded}")?.as_str())?;
    Ok(out)
}

fn push_name(out: &mut String, name: &Name) -> Result<(), AllocError> {
    out.push_str(std::str::from_utf8(name.bytes()).unwrap_or("not UTF-8"))
}

/// Appends a parameter with its default and its values: index, billionths and the column of the mark.
fn push_param(alloc: Global, out: &mut String, block: &ParamBlock) -> Result<(), AllocError> {
    out.push_str(word_of(block.param))?;
    if let Some(value) = block.default {
        out.push_str(format!(in alloc; " default {value}")?.as_str())?;
    }
    for number in 0..block.values.len() {
        out.push_str(" [")?;
        for i in 0..block.values.subscripts(number) {
            if i > 0 {
                out.push(',')?;
            }
            push_name(out, block.values.name(number, i))?;
        }
        let value = block.values.value(number);
        let column = block.values.at(number).column;
        out.push_str(format!(in alloc; "]={value}@{column}")?.as_str())?;
    }
    out.push_str("; ")
}

pub fn word_of(param: u8) -> &'static str {
    if YEAR_SPLIT <= param && param <= DISCOUNT_RATE_IDV {
        param_word(param)
    } else {
        ""
    }
}
