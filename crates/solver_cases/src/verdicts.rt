//! Verdicts of the checks as text. Rows are told by their number, variables by what they are.

use crate::numbers::shown;
use certificate_checker::{Rejection, Verdict};
use row_core::kind_numbers::{NEW_CAPACITY, RATE_OF_ACTIVITY};
use row_core::{Place, Var};
use std::alloc::{AllocError, Global};

/// What the verdict says.
pub fn told(alloc: Global, verdict: Verdict) -> Result<String, AllocError> {
    match verdict {
        Verdict::Yes(value) => format!(in alloc; "yes {}", shown(alloc, value)?),
        Verdict::No(rejection) => rejected(alloc, rejection),
        Verdict::Width(place) => stopped(alloc, place),
    }
}

/// What the variable is.
fn word(variable: Var) -> &'static str {
    match variable.kind {
        RATE_OF_ACTIVITY => "activity",
        NEW_CAPACITY => "capacity",
        _ => "cost",
    }
}

/// The first condition that fails.
fn rejected(alloc: Global, rejection: Rejection) -> Result<String, AllocError> {
    match rejection {
        Rejection::Violates(row, by) => {
            format!(in alloc; "row {} is missed by {}", row.eq, shown(alloc, by)?)
        }
        Rejection::WrongSign(variable) => format!(in alloc; "{} is below 0", word(variable)),
        Rejection::WrongMultiplier(row) => {
            format!(in alloc; "the multiplier of row {} has the wrong sign", row.eq)
        }
        Rejection::Column(variable, by) => {
            format!(in alloc;
                "the column of {} is off by {}",
                word(variable),
                shown(alloc, by)?
            )
        }
        Rejection::NotNegative => String::from_str(alloc, "the cost doesn't fall"),
        Rejection::NotPositive => String::from_str(alloc, "the sum isn't above 0"),
        Rejection::GapPassed(by) => format!(in alloc; "the gap is {}", shown(alloc, by)?),
    }
}

/// Where a number leaves 128 bits.
fn stopped(alloc: Global, place: Place) -> Result<String, AllocError> {
    match place {
        Place::Check(row) => format!(in alloc; "a number of row {} leaves 128 bits", row.eq),
        Place::Column(variable) => {
            format!(in alloc;
                "a number of the column of {} leaves 128 bits",
                word(variable)
            )
        }
        Place::SumBound => String::from_str(alloc, "the bound leaves 128 bits"),
        Place::SumGap => String::from_str(alloc, "the gap leaves 128 bits"),
        _ => String::from_str(alloc, "another number leaves 128 bits"),
    }
}
