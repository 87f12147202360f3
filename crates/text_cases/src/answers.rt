//! The answer to a case.

use crate::arguments::unescaped;
use crate::factors::{salvage_told, spread_told, years_told};
use crate::fractions::{divisor_told, fractions_told, range_told, ratio_told};
use crate::members::{empty_told, filled_told, members_told};
use crate::names::{equation_told, kind_told, name_told};
use crate::numbers::{number_told, printed_told, value_told};
use crate::rows::row_told;
use crate::sections::{pieces_told, section_told, tokens_told};
use crate::whole_data::data_told;
use std::alloc::{AllocError, Global};
use std::io;

/// What the call that the line names answers, or that there is no such call.
pub fn answer_to(rt: &HostRuntime, line: &str) -> io::Result<String> {
    let (call, rest) = line.split_once('|').unwrap_or((line, ""));
    if call == "data" {
        data_told(rt, rest)
    } else {
        Ok(answer_from(rt.alloc(), call, rest)?)
    }
}

/// The same for the calls that read no file. Refuses only where memory runs out.
fn answer_from(alloc: Global, call: &str, rest: &str) -> Result<String, AllocError> {
    let text = unescaped(alloc, rest)?;
    if call == "number" {
        number_told(alloc, &text)
    } else if call == "value" {
        value_told(alloc, &text)
    } else if call == "printed" {
        printed_told(alloc, rest)
    } else if call == "tokens" {
        tokens_told(alloc, &text)
    } else if call == "section" {
        section_told(alloc, &text)
    } else if call == "pieces" {
        pieces_told(alloc, &text)
    } else {
        answer_about_numbers(alloc, call, rest)
    }
}

/// The same for the calls about fractions and factors, and others.
fn answer_about_numbers(alloc: Global, call: &str, rest: &str) -> Result<String, AllocError> {
    if call == "ratio" {
        ratio_told(alloc, rest)
    } else if call == "fractions" {
        fractions_told(alloc, rest)
    } else if call == "divisor" {
        divisor_told(alloc, rest)
    } else if call == "range" {
        range_told(alloc, rest)
    } else if call == "years" {
        years_told(alloc, rest)
    } else if call == "salvage" {
        salvage_told(alloc, rest)
    } else if call == "spread" {
        spread_told(alloc, rest)
    } else {
        answer_about_names(alloc, call, rest)
    }
}

/// The same for the calls about members, names and rows.
fn answer_about_names(alloc: Global, call: &str, rest: &str) -> Result<String, AllocError> {
    if call == "members" {
        members_told(alloc, rest)
    } else if call == "filled" {
        filled_told(alloc, rest)
    } else if call == "empty" {
        empty_told(alloc, rest)
    } else if call == "kind" {
        kind_told(alloc, rest)
    } else if call == "equation" {
        equation_told(alloc, rest)
    } else if call == "name" {
        name_told(alloc, rest)
    } else if call == "row" {
        row_told(alloc, rest)
    } else {
        String::from_str(alloc, "no such call")
    }
}
