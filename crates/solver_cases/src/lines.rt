//! Rows and multipliers as lines: the word of an equation or of a kind of variable, and after it each of its
//! subscripts as a position in its set.

use crate::numbers::shown;
use row_core::equation_numbers::{E9, EQ_SPECIFIED_DEMAND};
use row_core::kind_numbers::{MODEL_PERIOD_EMISSIONS, RATE_OF_ACTIVITY};
use row_core::{
    Index, Multipliers, Row, RowName, Sense, Var, row_has, row_word, var_has, var_word,
};
use std::alloc::{AllocError, Global};
use written_method::Reduced;

/// The subscript at this place.
fn subscript(index: Index, place: u8) -> u16 {
    match place {
        0 => index.region,
        1 => index.other,
        2 => index.slice,
        3 => index.tech,
        4 => index.fuel,
        5 => index.emission,
        6 => index.mode,
        _ => index.year,
    }
}

/// Appends the name of the row.
fn push_name(alloc: Global, out: &mut String, name: RowName) -> Result<(), AllocError> {
    if name.eq < EQ_SPECIFIED_DEMAND || E9 < name.eq {
        return out.push_str("unknown");
    }
    out.push_str(row_word(name.eq))?;
    for place in 0..8 {
        if row_has(name.eq, place) {
            out.push_str(format!(in alloc; ".{}", subscript(name.index, place))?.as_str())?;
        }
    }
    Ok(())
}

/// Appends the name of the variable.
fn push_variable(alloc: Global, out: &mut String, var: Var) -> Result<(), AllocError> {
    if var.kind < RATE_OF_ACTIVITY || MODEL_PERIOD_EMISSIONS < var.kind {
        return out.push_str("unknown");
    }
    out.push_str(var_word(var.kind))?;
    for place in 0..8 {
        if var_has(var.kind, place) {
            out.push_str(format!(in alloc; ".{}", subscript(var.index, place))?.as_str())?;
        }
    }
    Ok(())
}

/// Appends each number with its variable.
fn push_entries(
    alloc: Global,
    out: &mut String,
    entries: &[(Var, i128)],
) -> Result<(), AllocError> {
    for (variable, number) in entries {
        out.push_str(format!(in alloc; " {number} ")?.as_str())?;
        push_variable(alloc, out, *variable)?;
    }
    Ok(())
}

/// Appends the row.
fn push_row(alloc: Global, out: &mut String, row: &Row) -> Result<(), AllocError> {
    push_name(alloc, out, row.name)?;
    out.push(':')?;
    push_entries(alloc, out, &row.entries)?;
    let sense = match row.sense {
        Sense::Least => ">=",
        Sense::Equal => "=",
        Sense::Most => "<=",
    };
    out.push_str(format!(in alloc; " {sense} {}", row.rhs)?.as_str())
}

/// A line for each row, with its scale, and one for the cost.
pub(crate) fn program_lines(alloc: Global, reduced: &Reduced) -> Result<String, AllocError> {
    let mut out = String::new(alloc);
    for (row, scale) in reduced.rows.iter().zip(&reduced.scales) {
        push_row(alloc, &mut out, row)?;
        out.push_str(" (")?;
        out.push_str(&shown(alloc, *scale)?)?;
        out.push_str(")\n")?;
    }
    out.push_str(format!(in alloc; "cost: {}", reduced.cost_own)?.as_str())?;
    push_entries(alloc, &mut out, &reduced.cost)?;
    out.push_str(format!(in alloc; " = {}\n", reduced.cost_rhs)?.as_str())?;
    Ok(out)
}

/// A line for each multiplier that isn't 0.
pub(crate) fn multiplier_lines(
    alloc: Global,
    multipliers: &Multipliers,
) -> Result<String, AllocError> {
    let mut out = String::new(alloc);
    for (name, value) in multipliers.entries() {
        if value.num != 0 {
            push_name(alloc, &mut out, *name)?;
            out.push(' ')?;
            out.push_str(&shown(alloc, *value)?)?;
            out.push('\n')?;
        }
    }
    Ok(out)
}
