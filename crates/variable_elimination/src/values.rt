//! Exact values by key, and what an equation gives one of its unknowns.

ghost use Rattle.std.specs.Prelude.{◌≡◌, ◌≢◌, pos, true, is_ok, IsTrue, IfOk, IfErr, OnOk};
ghost use Rattle.std.specs.BTreeMap.{insert_entry, IsOrdered};
ghost use Rattle.exact_num.specs.Range.{InRange, all_fit};
ghost use Rattle.exact_num.specs.Value.{value_of};
ghost use Rattle.row_core.specs.declared.place.Stopped.TheVariants.{Memory};
ghost use Rattle.row_core.specs.Numbers.{ascends, keys_of, numbers_of};
ghost use Rattle.row_core.specs.Plans.{value_in};
ghost use Rattle.written_method.specs.SolvedFor.{other_sum, other_sum_formed, solved_for, solved_formed};
ghost use Rattle.variable_elimination.specs.Valued.{values_in};

use exact_num::{Frac, TooWide, div, sub};
use row_core::{Stopped, add_term, fraction};
use std::alloc::{AllocError, Global};
use std::cmp::Ordering;
use std::collections::BTreeMap;

/// The value at a key, 0 where there is none.
pub(crate) fn value_there<K: Ord + Copy>(values: &BTreeMap<K, Frac>, key: K) -> Frac
    ensures { value_of result ≡ value_in K.cmp (values_in values.now) key }
{
    match values.get(&key) {
        Some(value) => *value,
        None => fraction(0),
    }
}

/// What is left of the right side when the numbers but the key's own were taken away, each times its key's value, divided by
/// the key's own number. `TooWide` comes exactly where a product, a sum, the difference or the quotient forms a number that
/// doesn't fit.
pub(crate) fn solved_for<K: Ord + Copy>(
    key: K,
    numbers: &[(K, i128)],
    right: i128,
    own: i128,
    values: &BTreeMap<K, Frac>,
) -> Result<Frac, TooWide>
    requires numbers_fit { all_fit (numbers_of numbers.now) ≡ true }
    requires right_fits { InRange right }
    requires own_fits { InRange own }
    requires nonzero { own ≢ pos 0 }
    ensures refused { is_ok result ≡ all_fit (solved_formed K.cmp (value_in K.cmp (values_in values.now)) key numbers.now right own) }
    ensures value { IfOk result (λ value. value_of value ≡ solved_for K.cmp (value_in K.cmp (values_in values.now)) key numbers.now right own) }
{
    let sum = other_sum(key, numbers, values)?;
    let rest = sub(fraction(right), sum)?;
    div(rest, fraction(own))
}

/// The sum of the numbers but the key's own, each times its key's value.
fn other_sum<K: Ord + Copy>(
    key: K,
    numbers: &[(K, i128)],
    values: &BTreeMap<K, Frac>,
) -> Result<Frac, TooWide>
    requires { all_fit (numbers_of numbers.now) ≡ true }
    ensures refused { is_ok result ≡ all_fit (other_sum_formed K.cmp (value_in K.cmp (values_in values.now)) key numbers.now) }
    ensures value { IfOk result (λ sum. value_of sum ≡ other_sum K.cmp (value_in K.cmp (values_in values.now)) key numbers.now) }
{
    let mut sum = fraction(0);
    for entry in numbers {
        match entry.0.cmp(&key) {
            Ordering::Equal => {}
            _ => sum = add_term(sum, entry.1, value_there(values, entry.0))?,
        }
    }
    Ok(sum)
}

/// The values of ascending entries by key.
pub(crate) fn by_key<K: Ord + Copy>(
    alloc: Global,
    entries: &[(K, Frac)],
) -> Result<BTreeMap<K, Frac>, Stopped>
    requires { IsTrue (ascends K.cmp (keys_of entries.now)) }
    ensures same { IfOk result (λ values. values.entries ≡ entries.now) }
    ensures memory { IfErr result (λ e. e ≡ Memory) }
{
    let mut values = BTreeMap::new(alloc);
    for (key, value) in entries {
        let _ = values.insert(*key, *value)?;
    }
    Ok(values)
}

/// The values in ascending order of keys.
pub(crate) fn entries_of<K: Ord + Copy>(
    alloc: Global,
    values: &BTreeMap<K, Frac>,
) -> Result<Vec<(K, Frac)>, AllocError>
    ensures same { IfOk result (λ entries. entries.items ≡ values.now.entries) }
    ensures ordered { IfOk result (λ entries. ascends K.cmp (keys_of entries.items) ≡ true) }
{
    let mut entries = Vec::with_capacity(alloc, values.len())?;
    for (key, value) in values {
        entries.push((*key, *value))?;
    }
    Ok(entries)
}
