//! Which variable, row, or variable of a direction a record names.

ghost use Rattle.std.specs.Prelude.{◌≡◌, ◌<◌, ◌+◌, ◌^◌, ◌++◌, ℕ, List, codes, length, IsTrue, MatchOption, IfOk};
ghost use Rattle.std.specs.List.{AllByRecursion};
ghost use Rattle.csv.specs.Records.{fields_of};
ghost use Rattle.row_core.specs.Kinds.{IsKind};
ghost use Rattle.row_core.specs.Numbers.{ascends};
ghost use Rattle.row_core.specs.Order.{var_cmp, row_name_cmp};
ghost use Rattle.plan_files.specs.Files.{name_of};
ghost use Rattle.plan_files.specs.Listed.{IsListedRow, IsListedVariable};
ghost use Rattle.plan_files.specs.Reading.{IsEntry};
ghost use Rattle.proof_files.specs.ProofRecords.{direction_word, proof_names};

use csv::ByteRecord;
use model_sets::Sets;
use plan_files::{field_at, place_of_row, place_of_variable, place_of_word};
use row_core::{RowName, Var, var_word};
use std::alloc::{AllocError, Global};

/// What the word of a variable of a direction begins with.
const DIRECTION: &[u8] = b"Direction.";

/// The place of the one that a record names: variables come first, then rows, then the variables of a direction.
pub(crate) fn place_named(
    fields: &ByteRecord,
    vars: &[Var],
    names: &[RowName],
    sets: &Sets,
) -> Option<usize>
    requires ascending_vars { IsTrue (ascends var_cmp vars.now) }
    requires listed_vars { AllByRecursion (IsListedVariable sets.now) vars.now }
    requires ascending_rows { IsTrue (ascends row_name_cmp names.now) }
    requires listed_rows { AllByRecursion (IsListedRow sets.now) names.now }
    requires room { length vars.now + length names.now + length vars.now < 2 ^ 64 }
    ensures { IsEntry (proof_names sets.now vars.now names.now) (name_of (fields_of fields.now)) result }
{
    if let Some(word) = after_direction(field_at(fields, 0)) {
        let place = place_of_word(word, fields, vars, sets)?;
        return Some(vars.len() + names.len() + place);
    }
    if let Some(place) = place_of_variable(fields, vars, sets) {
        return Some(place);
    }
    let place = place_of_row(fields, names, sets)?;
    Some(vars.len() + place)
}

/// What follows `Direction.` in a word that begins so.
fn after_direction(word: &[u8]) -> Option<&[u8]>
    ensures { MatchOption result ((rest : List ℕ) → ¬ (word.now ≡ codes "Direction." ++ rest)) (λ rest. word.now ≡ codes "Direction." ++ rest.now) }
{
    if word.len() < DIRECTION.len() {
        return None;
    }
    let (begin, rest) = word.split_at(DIRECTION.len());
    if begin == DIRECTION { Some(rest) } else { None }
}

/// The word of a variable of this kind in a direction.
pub(crate) fn direction_word(alloc: Global, kind: u8) -> Result<Vec<u8>, AllocError>
    requires { IsKind kind }
    ensures { IfOk result (λ word. word.items ≡ direction_word kind) }
{
    let mut word = Vec::from_slice(alloc, DIRECTION)?;
    word.extend_from_slice(var_word(kind).as_bytes())?;
    Ok(word)
}
