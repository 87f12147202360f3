//! Rows as lines: the name, each number with its variable, the sense and the right side.

ghost use Rattle.model_sets.specs.Names.{IsSet};

use model_sets::Sets;
use model_sets::set_numbers::{
    EMISSION, FUEL, MODE_OF_OPERATION, REGION, TECHNOLOGY, TIMESLICE, YEAR,
};
use row_core::equation_numbers::{E9, EQ_SPECIFIED_DEMAND};
use row_core::kind_numbers::{MODEL_PERIOD_EMISSIONS, RATE_OF_ACTIVITY};
use row_core::{Index, Place, Row, RowName, Sense, Var, row_has, row_word, var_has, var_word};
use std::alloc::{AllocError, Global};

/// The set over which the subscript at this place of an index runs.
fn set_at(place: u8) -> u8
    ensures { IsSet result }
{
    match place {
        0 | 1 => REGION,
        2 => TIMESLICE,
        3 => TECHNOLOGY,
        4 => FUEL,
        5 => EMISSION,
        6 => MODE_OF_OPERATION,
        _ => YEAR,
    }
}

/// The subscript at this place.
fn subscript(index: Index, place: u8) -> u16 {
    match place {
        0 => index.region,
        1 => index.other,
        2 => index.slice,
        3 => index.tech,
        4 => index.fuel,
        5 => index.emission,
        6 => index.mode,
        _ => index.year,
    }
}

/// Appends the name of the member, after a comma where it isn't the first.
fn push_member(out: &mut String, sets: &Sets, place: u8, index: Index) -> Result<(), AllocError> {
    let set = set_at(place);
    let position = subscript(index, place);
    let name = if position < sets.count(set) {
        std::str::from_utf8(sets.name_of(set, position)).unwrap_or("?")
    } else {
        "?"
    };
    if !out.ends_with('[') {
        out.push(',')?;
    }
    out.push_str(name)
}

/// Appends the name of the row.
fn push_name(out: &mut String, sets: &Sets, name: RowName) -> Result<(), AllocError> {
    if name.eq < EQ_SPECIFIED_DEMAND || name.eq > E9 {
        return out.push('?');
    }
    out.push_str(row_word(name.eq))?;
    out.push('[')?;
    for place in 0..8 {
        if row_has(name.eq, place) {
            push_member(out, sets, place, name.index)?;
        }
    }
    out.push(']')
}

/// Appends the name of the variable.
fn push_variable(out: &mut String, sets: &Sets, var: Var) -> Result<(), AllocError> {
    if var.kind < RATE_OF_ACTIVITY || var.kind > MODEL_PERIOD_EMISSIONS {
        return out.push('?');
    }
    out.push_str(var_word(var.kind))?;
    out.push('[')?;
    for place in 0..8 {
        if var_has(var.kind, place) {
            push_member(out, sets, place, var.index)?;
        }
    }
    out.push(']')
}

/// The row as a line.
pub fn row_told(alloc: Global, sets: &Sets, row: &Row) -> Result<String, AllocError> {
    let mut out = String::new(alloc);
    push_name(&mut out, sets, row.name)?;
    out.push(':')?;
    for (variable, number) in row.entries.iter() {
        out.push_str(format!(in alloc; " {number} ")?.as_str())?;
        push_variable(&mut out, sets, *variable)?;
    }
    let sense = match row.sense {
        Sense::Least => ">=",
        Sense::Equal => "=",
        Sense::Most => "<=",
    };
    out.push_str(format!(in alloc; " {sense} {}", row.rhs)?.as_str())?;
    Ok(out)
}

/// The name of the row of a place, if it is one's.
pub fn place_told(alloc: Global, place: &Place, sets: &Sets) -> Result<String, AllocError> {
    let mut out = String::new(alloc);
    match place {
        Place::Row(name) => push_name(&mut out, sets, *name)?,
        _ => out.push('?')?,
    }
    Ok(out)
}
