//! Values to start from.

ghost use Rattle.std.specs.Prelude.{◌≡◌, ◌+◌, ◌<◌, ◌++◌, ◌∷◌, ◌^◌, ℕ, List, [], IfOk, slice_set};
ghost use Rattle.solver_answers.specs.declared.found.Found.{Found};
ghost use Rattle.solver_answers.specs.Told.{AreStartValues};

use crate::found::Found;
use std::alloc::{AllocError, Global};

/// Values to start from, which nothing else rests on.
#[derive(Drop)]
pub struct StartValues {
    /// The value of each variable, in order: the last that the file has, and 0 where it has none.
    pub values: Vec<f64>,
    /// How many values the file has of variables of the model.
    pub taken: u64,
    /// How many records it has of something else, that are passed over.
    pub passed: u64,
}

/// No values of so many variables.
pub(crate) fn no_start(alloc: Global, count: usize) -> Result<StartValues, AllocError>
    ensures { IfOk result (AreStartValues count []) }
{
    Ok(StartValues {
        values: vec![in alloc; 0.0; count]?,
        taken: 0,
        passed: 0,
    })
}

/// Sets the value at a place, if there is one.
fn put(values: &mut Vec<f64>, place: usize, value: f64)
    ensures { values.new.items ≡ slice_set values.old.items place value }
{
    if place < values.len() {
        values[place] = value;
    }
}

impl StartValues {
    /// Takes what is found in a line or a record: a value of a variable, or one more that is passed over.
    pub(crate) fn take(&mut self, found: Found)
        requires taken { self.old.taken + 1 < 2 ^ 64 }
        requires passed { self.old.passed + 1 < 2 ^ 64 }
        ensures { (count : ℕ) (before : List Found) → AreStartValues count before self.old → AreStartValues count (before ++ found ∷ []) self.new }
    {
        match found {
            Found::Value(place, value) => {
                put(&mut self.values, place, value);
                self.taken += 1;
            }
            Found::Passed => self.passed += 1,
            Found::Blank | Found::Nothing | Found::End | Found::Wrong => {}
        }
    }
}
