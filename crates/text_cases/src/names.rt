//! Names of variables and rows, and the tables of kinds and equations.

ghost use Rattle.std.specs.Prelude.{◌≡◌, ◌≤◌, IfSome, length};
ghost use Rattle.model_sets.specs.Members.{members};
ghost use Rattle.model_sets.specs.Names.{emission, fuel, mode, region, technology, timeslice, year};

use crate::arguments::next_number;
use model_sets::Sets;
use model_sets::set_numbers::{
    DAILYTIMEBRACKET, EMISSION, FUEL, MODE_OF_OPERATION, REGION, TECHNOLOGY, TIMESLICE, YEAR,
};
use row_core::equation_numbers::{E1, EQ_SPECIFIED_DEMAND};
use row_core::kind_numbers::{
    MODEL_PERIOD_COST_BY_REGION, RATE_OF_PRODUCTION_BY_TECHNOLOGY_BY_MODE, TRADE,
};
use row_core::{
    Index, RowName, Var, is_free, push_row_name, push_var, row_has, row_word, var_has, var_word,
};
use std::alloc::{AllocError, Global};

/// The letters of the subscripts at their places: o is the other region, l the timeslice.
const LETTERS: [char; 8] = ['r', 'o', 'l', 't', 'f', 'e', 'm', 'y'];

/// `kind|N`: the word of the kind of this number, the letters of its subscripts, and whether a variable may be below 0.
pub fn kind_told(alloc: Global, text: &str) -> Result<String, AllocError> {
    let Some(kind) = within(text, 48) else {
        return String::from_str(alloc, "no kind");
    };
    let mut out = String::from_str(alloc, var_word(kind))?;
    out.push(' ')?;
    for place in 0..8u8 {
        let has = var_has(kind, place);
        out.push(if has {
            LETTERS[usize::from(place)]
        } else {
            '-'
        })?;
    }
    if is_free(kind) {
        out.push_str(" free")?;
    }
    Ok(out)
}

/// `equation|N`: the word of the equation of this number, and the letters of its subscripts.
pub fn equation_told(alloc: Global, text: &str) -> Result<String, AllocError> {
    let Some(eq) = within(text, 64) else {
        return String::from_str(alloc, "no equation");
    };
    let mut out = String::from_str(alloc, row_word(eq))?;
    out.push(' ')?;
    for place in 0..8u8 {
        let has = row_has(eq, place);
        out.push(if has {
            LETTERS[usize::from(place)]
        } else {
            '-'
        })?;
    }
    Ok(out)
}

/// The number of the text, from 1 to this one.
fn within(text: &str, most: u8) -> Option<u8>
    ensures least { IfSome result (λ n. 1 ≤ n) }
    ensures most { IfSome result (λ n. n ≤ most) }
{
    let (number, _) = next_number(text);
    let number = u8::try_from(number?).ok()?;
    if 1 <= number && number <= most {
        Some(number)
    } else {
        None
    }
}

/// The members of the sets of which names are told.
const MEMBERS: [(u8, &[u8]); 9] = [
    (REGION, b"NORTH"),
    (REGION, b"SOUTH"),
    (TECHNOLOGY, b"WIND"),
    (FUEL, b"ELC"),
    (EMISSION, b"CO2"),
    (MODE_OF_OPERATION, b"1"),
    (TIMESLICE, b"DAY"),
    (TIMESLICE, b"NIGHT"),
    (YEAR, b"2030"),
];

/// `name|WORD`: the name of the variable or the row of this word in the second region, with the first one as the other, the second timeslice,
/// and the first member of each further set.
pub fn name_told(alloc: Global, word: &str) -> Result<String, AllocError> {
    let mut sets = Sets::new(alloc)?;
    for (set, name) in MEMBERS.iter() {
        if REGION <= *set && *set <= DAILYTIMEBRACKET {
            if sets.add(*set, *name).is_err() {
                return Err(AllocError);
            }
        }
    }
    let mut out = Vec::new(alloc);
    if sets.count(REGION) == 2 && sets.count(TECHNOLOGY) == 1 && sets.count(FUEL) == 1 {
        if sets.count(EMISSION) == 1 && sets.count(MODE_OF_OPERATION) == 1 {
            if sets.count(TIMESLICE) == 2 && sets.count(YEAR) == 1 {
                push_named(&mut out, &sets, word)?;
            }
        }
    }
    String::from_str(
        alloc,
        std::str::from_utf8(out.as_slice()).unwrap_or("not UTF-8"),
    )
}

/// Appends the name of this word, if it is one of these.
fn push_named(out: &mut Vec<u8>, sets: &Sets, word: &str) -> Result<(), AllocError>
    requires regions { length (members sets.now region) ≡ 2 }
    requires technologies { length (members sets.now technology) ≡ 1 }
    requires fuels { length (members sets.now fuel) ≡ 1 }
    requires emissions { length (members sets.now emission) ≡ 1 }
    requires modes { length (members sets.now mode) ≡ 1 }
    requires slices { length (members sets.now timeslice) ≡ 2 }
    requires years { length (members sets.now year) ≡ 1 }
{
    let index = Index {
        region: 1,
        other: 0,
        slice: 1,
        tech: 0,
        fuel: 0,
        emission: 0,
        mode: 0,
        year: 0,
    };
    if word == "Trade" {
        push_var(out, Var { kind: TRADE, index }, sets)
    } else if word == "RateOfProductionByTechnologyByMode" {
        let kind = RATE_OF_PRODUCTION_BY_TECHNOLOGY_BY_MODE;
        push_var(out, Var { kind, index }, sets)
    } else if word == "ModelPeriodCostByRegion" {
        let kind = MODEL_PERIOD_COST_BY_REGION;
        push_var(out, Var { kind, index }, sets)
    } else if word == "E1" {
        push_row_name(out, RowName { eq: E1, index }, sets)
    } else if word == "EQ_SpecifiedDemand" {
        let eq = EQ_SPECIFIED_DEMAND;
        push_row_name(out, RowName { eq, index }, sets)
    } else {
        out.extend_from_slice(b"no such word")
    }
}
