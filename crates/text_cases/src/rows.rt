//! Rows made of terms.

ghost use Rattle.std.specs.Prelude.{IfSome};
ghost use Rattle.row_core.specs.Kinds.{IsKind};

use exact_num::Frac;
use row_core::equation_numbers::CAB1;
use row_core::{
    Index, Place, Row, RowName, Sense, Stopped, Term, Terms, Var, fraction, var_word, write_row,
};
use scaled_decimals::exact_value;
use std::alloc::{AllocError, Global};

/// The variable of this kind in a timeslice and a year.
fn variable(kind: u8, slice: u16, year: u16) -> Var {
    Var {
        kind,
        index: Index {
            region: 0,
            other: 0,
            slice,
            tech: 0,
            fuel: 0,
            emission: 0,
            mode: 0,
            year,
        },
    }
}

/// The kind of this word.
fn kind_of(word: &str) -> Option<u8> {
    for kind in 1..=48u8 {
        if var_word(kind) == word {
            return Some(kind);
        }
    }
    None
}

/// `row|RIGHT|KIND SLICE YEAR COEFFICIENT|..`: the entries and the right side of the row that says that the sum of the terms is at most
/// RIGHT, or that a number for it doesn't fit.
pub fn row_told(alloc: Global, text: &str) -> Result<String, AllocError> {
    let (right, rest) = text.split_once('|').unwrap_or((text, ""));
    let name = RowName {
        eq: CAB1,
        index: variable(1, 0, 3).index,
    };
    match made(alloc, name, value(right), rest) {
        Ok(row) => entries_told(alloc, &row),
        Err(Stopped::Width(Place::Row(at))) => {
            String::from_str(
                alloc,
                if at == name {
                    "TooWide"
                } else {
                    "TooWide elsewhere"
                },
            )
        }
        Err(Stopped::Width(_)) => String::from_str(alloc, "TooWide elsewhere"),
        Err(Stopped::Memory) => Err(AllocError),
    }
}

/// The value of a text, 0 where it has none.
fn value(text: &str) -> Frac {
    exact_value(text.as_bytes()).unwrap_or(fraction(0))
}

/// The row of terms in this order.
fn made(alloc: Global, name: RowName, right: Frac, terms: &str) -> Result<Row, Stopped> {
    let mut sum = Terms::new(alloc);
    for term in terms.split('|') {
        let mut fields = term.split(' ');
        let kind = kind_of(fields.next().unwrap_or(""));
        let slice = fields.next().unwrap_or("").parse::<u16>().unwrap_or(0);
        let year = fields.next().unwrap_or("").parse::<u16>().unwrap_or(0);
        let coefficient = value(fields.next().unwrap_or(""));
        if let Some(kind) = kind {
            let term = Term {
                variable: variable(kind, slice, year),
                coefficient,
            };
            sum.add(Place::Row(name), term)?;
        }
    }
    write_row(alloc, name, Sense::Most, &sum, right)
}

/// The entries of a row, and its right side.
fn entries_told(alloc: Global, row: &Row) -> Result<String, AllocError> {
    let mut out = String::new(alloc);
    for (var, number) in &row.entries {
        let word = if 1 <= var.kind && var.kind <= 48 {
            var_word(var.kind)
        } else {
            ""
        };
        let index = var.index;
        out.push_str(format!(in alloc;
            "{word} {} {} {number}, ",
            index.slice, index.year
        )?.as_str())?;
    }
    out.push_str(format!(in alloc; "{:?} {}", row.sense, row.rhs)?.as_str())?;
    Ok(out)
}
