//! Which variable or row a record names.

ghost use Rattle.std.specs.Prelude.{◌≡◌, ◌<◌, ◌≤◌, ◌∷◌, ℕ, Some, [], IfSome, IsTrue, length, slice_index_or, if◌then◌else◌};
ghost use Rattle.std.specs.List.{AllByRecursion};
ghost use Rattle.std.specs.declared.cmp.Ordering.TheVariants.{Equal};
ghost use Rattle.csv.specs.Records.{fields_of};
ghost use Rattle.model_sets.specs.Members.{members};
ghost use Rattle.model_sets.specs.Names.{IsSet};
ghost use Rattle.row_core.specs.declared.Index.{Index};
ghost use Rattle.row_core.specs.declared.RowName.{RowName};
ghost use Rattle.row_core.specs.declared.Var.{Var};
ghost use Rattle.row_core.specs.Equations.{IsEquation, word_of_equation};
ghost use Rattle.row_core.specs.Kinds.{IsKind, word_of_kind};
ghost use Rattle.row_core.specs.Numbers.{ascends};
ghost use Rattle.row_core.specs.Order.{var_cmp, row_name_cmp};
ghost use Rattle.plan_files.specs.Files.{name_of, subscripts_in};
ghost use Rattle.plan_files.specs.Answers.{row_names, variable_names};
ghost use Rattle.plan_files.specs.Listed.{IsListedRow, IsListedVariable};
ghost use Rattle.plan_files.specs.Reading.{IsEntry, IsIndexOf, IsSubscript};
ghost use Rattle.plan_files.specs.Records.{row_fields, variable_fields};

use crate::fields::{field_at, places_of_equation, places_of_kind};
use csv::ByteRecord;
use model_sets::Sets;
use model_sets::set_numbers::{
    EMISSION, FUEL, MODE_OF_OPERATION, REGION, TECHNOLOGY, TIMESLICE, YEAR,
};
use row_core::equation_numbers::EQUATION_COUNT;
use row_core::kind_numbers::KIND_COUNT;
use row_core::{Index, RowName, Var, row_word, var_word};

/// The place among the variables of the one that a record names.
pub fn place_of_variable(fields: &ByteRecord, vars: &[Var], sets: &Sets) -> Option<usize>
    requires ascending { IsTrue (ascends var_cmp vars.now) }
    requires listed { AllByRecursion (IsListedVariable sets.now) vars.now }
    ensures { IsEntry (variable_names sets.now vars.now) (name_of (fields_of fields.now)) result }
{
    place_of_word(field_at(fields, 0), fields, vars, sets)
}

/// The place among the variables of the one with this word and the subscripts that a record names.
pub fn place_of_word(word: &[u8], fields: &ByteRecord, vars: &[Var], sets: &Sets) -> Option<usize>
    requires ascending { IsTrue (ascends var_cmp vars.now) }
    requires listed { AllByRecursion (IsListedVariable sets.now) vars.now }
    ensures { IsEntry (variable_names sets.now vars.now) (word.now ∷ subscripts_in (fields_of fields.now)) result }
{
    place_of(vars, variable_named(word, fields, sets)?)
}

/// The place among the rows' names of the one that a record has.
pub fn place_of_row(fields: &ByteRecord, names: &[RowName], sets: &Sets) -> Option<usize>
    requires ascending { IsTrue (ascends row_name_cmp names.now) }
    requires listed { AllByRecursion (IsListedRow sets.now) names.now }
    ensures { IsEntry (row_names sets.now names.now) (name_of (fields_of fields.now)) result }
{
    place_of(names, row_named(fields, sets)?)
}

/// The place of a key.
fn place_of<K: Ord + Copy>(keys: &[K], key: K) -> Option<usize>
    requires { IsTrue (ascends K.cmp keys.now) }
    ensures here { IfSome result (λ i. (i < length keys.now) × ((d : K) → K.cmp (slice_index_or keys.now i d) key ≡ Equal)) }
    ensures alone { (j : ℕ) (d : K) → j < length keys.now → K.cmp (slice_index_or keys.now j d) key ≡ Equal → result ≡ Some j }
{
    match keys.binary_search(&key) {
        Ok(at) => Some(at),
        Err(_) => None,
    }
}

/// The variable with this word and the subscripts that a record names, of all that the sets have.
fn variable_named(word: &[u8], fields: &ByteRecord, sets: &Sets) -> Option<Var>
    ensures named { IfSome result (λ v. variable_fields sets.now v ≡ word.now ∷ subscripts_in (fields_of fields.now)) }
    ensures alone { (v : Var) → IsListedVariable sets.now v → variable_fields sets.now v ≡ word.now ∷ subscripts_in (fields_of fields.now) → result ≡ Some v }
{
    let kind = kind_of(word)?;
    let index = index_named(fields, sets, &places_of_kind(kind))?;
    Some(Var { kind, index })
}

/// The row that a record names, of all that the sets have.
fn row_named(fields: &ByteRecord, sets: &Sets) -> Option<RowName>
    ensures named { IfSome result (λ n. row_fields sets.now n ≡ name_of (fields_of fields.now)) }
    ensures alone { (n : RowName) → IsListedRow sets.now n → row_fields sets.now n ≡ name_of (fields_of fields.now) → result ≡ Some n }
{
    let eq = equation_of(field_at(fields, 0))?;
    let index = index_named(fields, sets, &places_of_equation(eq))?;
    Some(RowName { eq, index })
}

/// The kind of variables with this word.
fn kind_of(word: &[u8]) -> Option<u8>
    ensures named { IfSome result (λ kind. IsKind kind × (word_of_kind kind ≡ word.now)) }
    ensures alone { (kind : ℕ) → IsKind kind → word_of_kind kind ≡ word.now → result ≡ Some kind }
{
    for kind in 1..=KIND_COUNT as u8 {
        if var_word(kind).as_bytes() == word {
            return Some(kind);
        }
    }
    None
}

/// The equation with this word.
fn equation_of(word: &[u8]) -> Option<u8>
    ensures named { IfSome result (λ eq. IsEquation eq × (word_of_equation eq ≡ word.now)) }
    ensures alone { (eq : ℕ) → IsEquation eq → word_of_equation eq ≡ word.now → result ≡ Some eq }
{
    for eq in 1..=EQUATION_COUNT as u8 {
        if row_word(eq).as_bytes() == word {
            return Some(eq);
        }
    }
    None
}

/// The subscripts that a record names in its fields 1 to 8, where there are those at the places that `has` says.
fn index_named(fields: &ByteRecord, sets: &Sets, has: &[bool; 8]) -> Option<Index>
    ensures named { IfSome result (IsIndexOf sets.now has.now (fields_of fields.now)) }
    ensures alone { (i : Index) → IsIndexOf sets.now has.now (fields_of fields.now) i → result ≡ Some i }
{
    Some(Index {
        region: subscript(sets, REGION, has[0], field_at(fields, 1))?,
        other: subscript(sets, REGION, has[1], field_at(fields, 2))?,
        slice: subscript(sets, TIMESLICE, has[2], field_at(fields, 3))?,
        tech: subscript(sets, TECHNOLOGY, has[3], field_at(fields, 4))?,
        fuel: subscript(sets, FUEL, has[4], field_at(fields, 5))?,
        emission: subscript(sets, EMISSION, has[5], field_at(fields, 6))?,
        mode: subscript(sets, MODE_OF_OPERATION, has[6], field_at(fields, 7))?,
        year: subscript(sets, YEAR, has[7], field_at(fields, 8))?,
    })
}

/// The position of the member of this name; 0 where there is no such subscript, and then the name is empty.
fn subscript(sets: &Sets, set: u8, has: bool, name: &[u8]) -> Option<u16>
    requires { IsSet set }
    ensures named { IfSome result (IsSubscript (members sets.now set) has name.now) }
    ensures alone { (i : ℕ) → IsSubscript (members sets.now set) has name.now i → result ≡ Some i }
{
    // No name stands twice in a set, as `count` tells.
    let _members = sets.count(set);
    if has {
        return sets.index_of(set, name);
    }
    if name.is_empty() { Some(0) } else { None }
}
