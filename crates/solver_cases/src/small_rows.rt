//! Rows of three variables from their text: an activity and a capacity, which aren't negative, and a third one, which may be.

ghost use Rattle.std.specs.Prelude.{OnOk, IfOk};
ghost use Rattle.written_method.specs.Ready.{AreAmong, IsAmong, RowsAreAmong};
ghost use Rattle.solver_cases.specs.Programs.{AreKnown, variables};

use exact_num::ratio;
use row_core::kind_numbers::{NEW_CAPACITY, RATE_OF_ACTIVITY};
use row_core::{Index, Place, Row, RowName, Sense, Stopped, Term, Terms, Var, write_row};
use std::alloc::Global;

/// The first member of each set.
pub(crate) const FIRST: Index = Index {
    region: 0,
    other: 0,
    slice: 0,
    tech: 0,
    fuel: 0,
    emission: 0,
    mode: 0,
    year: 0,
};

/// The activity.
pub(crate) const ACTIVITY: Var = Var {
    kind: RATE_OF_ACTIVITY,
    index: FIRST,
};

/// The capacity.
pub(crate) const CAPACITY: Var = Var {
    kind: NEW_CAPACITY,
    index: FIRST,
};

/// The names of the first three rows; further ones have that of the third.
pub(crate) const NAMES: [RowName; 3] = [
    RowName {
        eq: 1,
        index: FIRST,
    },
    RowName {
        eq: 2,
        index: FIRST,
    },
    RowName {
        eq: 3,
        index: FIRST,
    },
];

/// A number, 0 where the text is none.
pub(crate) fn number(text: Option<&str>) -> i32 {
    match text {
        None => 0,
        Some(text) => text.parse::<i32>().unwrap_or(0),
    }
}

/// Adds the term of a variable.
fn add(terms: &mut Terms, variable: Var, number: i32) -> Result<(), Stopped>
    ensures known { (third : Var) → IsAmong variable (variables third) → AreKnown third terms.old → OnOk result (AreKnown third terms.new) }
{
    let coefficient = ratio(i128::from(number), 1);
    terms.add(
        Place::CostRow,
        Term {
            variable,
            coefficient,
        },
    )
}

/// A row of its text: three numbers, `<=`, `>=` or `=`, and the right side.
fn row(alloc: Global, name: RowName, third: Var, text: &str) -> Result<Row, Stopped>
    ensures { IfOk result (λ row. AreAmong (variables third) row.entries.items) }
{
    let mut words = text.split_ascii_whitespace();
    let mut terms = Terms::new(alloc);
    add(&mut terms, ACTIVITY, number(words.next()))?;
    add(&mut terms, CAPACITY, number(words.next()))?;
    add(&mut terms, third, number(words.next()))?;
    let sense = match words.next() {
        Some(">=") => Sense::Least,
        Some("=") => Sense::Equal,
        _ => Sense::Most,
    };
    let right = ratio(i128::from(number(words.next())), 1);
    write_row(alloc, name, sense, &terms, right)
}

/// The rows of their text, with commas between, and this third variable.
pub(crate) fn rows(alloc: Global, third: Var, text: &str) -> Result<Vec<Row>, Stopped>
    ensures { IfOk result (λ rows. RowsAreAmong (variables third) rows.items) }
{
    let mut given = Vec::new(alloc);
    for text in text.split(',') {
        let name = NAMES[given.len().min(2)];
        given.push(row(alloc, name, third, text)?)?;
    }
    Ok(given)
}
