//! Rows from terms: denominators cleared, and divided by the greatest common divisor.

ghost use Rattle.std.specs.Prelude.{◌≡◌, pos, ◌<ℤ◌, IsTrue, OnOk, IfOk, IfErr, is_ok, map, true, ◌∷◌, ◌++◌, int_div};
ghost use Rattle.exact_num.specs.Range.{InRange, in_range, all_fit};
ghost use Rattle.exact_num.specs.Value.{value_of};
ghost use Rattle.row_core.specs.Numbers.{numbers_of, variables_of, ascends, none_zero};
ghost use Rattle.row_core.specs.Order.{var_cmp};
ghost use Rattle.row_core.specs.declared.place.Place.{Place};
ghost use Rattle.row_core.specs.Stops.{IsStop};
ghost use Rattle.row_core.specs.TermSteps.{widened_by_term, entry_over};
ghost use Rattle.row_core.specs.TermViews.{seen};
ghost use Rattle.row_core.specs.Values.{SaysTheSame, IsMultiple, HasSigns};
ghost use Rattle.row_core.specs.Written.{kept, denominators, widened, widened_by_each, common_denominator, numerator_over, entries_over, entries_divided, row_divisor, written_entries, written_right, written_formed};

use crate::dividing::{divide_all, divisor_of, quotient};
use crate::place::{Place, Stopped};
use crate::terms::{Term, Terms};
use crate::{Row, RowName, Sense, Var};
use exact_num::{Frac, TooWide, gcd, product};
use std::alloc::Global;

/// The row of an equation: its terms on the left side, in this sense to its right side.
///
/// Coefficients of 0 are left out. The common denominator `D` starts at 1; for the denominator `b` of each
/// coefficient, in the order of variables, and for that of the right side last, it becomes `D / gcd(D, b) * b`.
/// Each entry is the coefficient's numerator times `D / b`, and so is the right side. All of them are divided by
/// their greatest common divisor.
///
/// The row says of every plan what the equation says. `Width` with the row's name comes exactly where one of these
/// numbers doesn't fit, before the last division; any other refusal comes where memory runs out.
pub fn write_row(
    alloc: Global,
    name: RowName,
    sense: Sense,
    terms: &Terms,
    right: Frac,
) -> Result<Row, Stopped>
    ensures name { IfOk result (λ row. row.name ≡ name) }
    ensures sense { IfOk result (λ row. row.sense ≡ sense) }
    ensures entries { IfOk result (λ row. row.entries.items ≡ written_entries terms.now (value_of right)) }
    ensures right_side { IfOk result (λ row. row.rhs ≡ written_right terms.now (value_of right)) }
    ensures fits { OnOk result (all_fit (written_formed terms.now (value_of right)) ≡ true) }
    ensures stopped { IfErr result (IsStop (Place.Row name) (all_fit (written_formed terms.now (value_of right)))) }
    ensures says { IfOk result (SaysTheSame terms.now (value_of right)) }
    ensures multiple { IfOk result (IsMultiple terms.now (value_of right)) }
    ensures signs { IfOk result (HasSigns terms.now) }
    ensures variables { IfOk result (λ row. variables_of row.entries.items ≡ variables_of (kept terms.now)) }
{
    let place = Place::Row(name);
    let list = terms.as_slice();
    let Ok(denominator) = denominator_of(list, right) else {
        return Err(Stopped::Width(place));
    };
    let entries = entries_of(alloc, place, list, denominator)?;
    let Ok(rhs) = numerator(denominator, &right) else {
        return Err(Stopped::Width(place));
    };
    Ok(reduced(name, sense, entries, rhs))
}

/// A row divided by the greatest common divisor of its numbers.
fn reduced(name: RowName, sense: Sense, mut entries: Vec<(Var, i128)>, right: i128) -> Row
    requires ascending { IsTrue (ascends var_cmp (variables_of entries.items)) }
    requires nonzero { IsTrue (none_zero (numbers_of entries.items)) }
    requires right_fits { InRange right }
    requires entries_fit { all_fit (numbers_of entries.items) ≡ true }
    ensures name { result.name ≡ name }
    ensures sense { result.sense ≡ sense }
    ensures entries { result.entries.items
        ≡ entries_divided (row_divisor (right ∷ numbers_of entries.items)) entries.items }
    ensures right_side { result.rhs ≡ int_div right (pos (row_divisor (right ∷ numbers_of entries.items))) }
{
    let divisor = divisor_of(right, &entries);
    divide_all(&mut entries, divisor);
    Row {
        name,
        sense,
        entries,
        rhs: quotient(right, divisor),
    }
}

/// The least common multiple of a common denominator and one more denominator. Most rows have one denominator beside 1.
#[tactic(auto, using(exact_num::proofs::RangeLaws::ranges))]
fn widen(denominator: i128, other: i128) -> Result<i128, TooWide>
    requires fits { InRange denominator }
    requires positive { pos 0 <ℤ denominator }
    requires other_fits { InRange other }
    requires other_positive { pos 0 <ℤ other }
    ensures refused { is_ok result ≡ in_range (widened denominator other) }
    ensures value { IfOk result (λ d. d ≡ widened denominator other) }
    ensures range { IfOk result (λ d. InRange d) }
    ensures positive { IfOk result (λ d. pos 0 <ℤ d) }
{
    if other == 1 {
        Ok(denominator)
    } else if other == denominator {
        Ok(denominator)
    } else {
        widen_further(denominator, other)
    }
}

/// The same, whatever the denominators are. It stands apart, so that the tests above are inlined.
#[inline(never)]
#[tactic(auto, using(exact_num::proofs::RangeLaws::ranges))]
fn widen_further(denominator: i128, other: i128) -> Result<i128, TooWide>
    requires fits { InRange denominator }
    requires positive { pos 0 <ℤ denominator }
    requires other_fits { InRange other }
    requires other_positive { pos 0 <ℤ other }
    ensures refused { is_ok result ≡ in_range (widened denominator other) }
    ensures value { IfOk result (λ d. d ≡ widened denominator other) }
    ensures range { IfOk result (λ d. InRange d) }
    ensures positive { IfOk result (λ d. pos 0 <ℤ d) }
{
    if denominator == 1 {
        Ok(other)
    } else {
        product(quotient(denominator, gcd(denominator, other)), other)
    }
}

/// The common denominator with one more term.
#[tactic(auto, using(exact_num::proofs::RangeLaws::ranges))]
fn widen_by_term(denominator: i128, term: &Term) -> Result<i128, TooWide>
    requires fits { InRange denominator }
    requires positive { pos 0 <ℤ denominator }
    ensures refused { is_ok result ≡ in_range (widened_by_term denominator (seen term.now)) }
    ensures value { IfOk result (λ d. d ≡ widened_by_term denominator (seen term.now)) }
    ensures range { IfOk result (λ d. InRange d) }
    ensures positive { IfOk result (λ d. pos 0 <ℤ d) }
{
    if term.coefficient.num == 0 {
        Ok(denominator)
    } else {
        widen(denominator, term.coefficient.den)
    }
}

/// The common denominator of the coefficients that aren't 0 and of the right side.
fn denominator_of(terms: &[Term], right: Frac) -> Result<i128, TooWide>
    ensures refused { is_ok result ≡ all_fit (widened_by_each (pos 1) (denominators (kept (map seen terms.now)) (value_of right))) }
    ensures value { IfOk result (λ d. d ≡ common_denominator (kept (map seen terms.now)) (value_of right)) }
    ensures range { IfOk result (λ d. InRange d) }
    ensures positive { IfOk result (λ d. pos 0 <ℤ d) }
{
    let mut denominator = 1;
    for term in terms {
        denominator = widen_by_term(denominator, term)?;
    }
    widen(denominator, right.den)
}

/// The numerator of a number over a common denominator. Most numbers have that denominator already.
#[tactic(auto, using(exact_num::proofs::RangeLaws::ranges))]
fn numerator(denominator: i128, number: &Frac) -> Result<i128, TooWide>
    requires fits { InRange denominator }
    requires positive { pos 0 <ℤ denominator }
    ensures refused { is_ok result ≡ in_range (numerator_over denominator (value_of number.now)) }
    ensures value { IfOk result (λ n. n ≡ numerator_over denominator (value_of number.now)) }
    ensures range { IfOk result (λ n. InRange n) }
{
    if number.den == denominator {
        Ok(number.num)
    } else {
        expanded_numerator(denominator, *number)
    }
}

/// The same of a number over a smaller denominator. It stands apart, so that the test above is inlined.
#[inline(never)]
#[tactic(auto, using(exact_num::proofs::RangeLaws::ranges))]
fn expanded_numerator(denominator: i128, number: Frac) -> Result<i128, TooWide>
    requires fits { InRange denominator }
    requires positive { pos 0 <ℤ denominator }
    ensures refused { is_ok result ≡ in_range (numerator_over denominator (value_of number)) }
    ensures value { IfOk result (λ n. n ≡ numerator_over denominator (value_of number)) }
    ensures range { IfOk result (λ n. InRange n) }
{
    product(number.num, quotient(denominator, number.den))
}

/// Each variable with the numerator of its coefficient over a common denominator, without those that are 0.
fn entries_of(
    alloc: Global,
    place: Place,
    terms: &[Term],
    denominator: i128,
) -> Result<Vec<(Var, i128)>, Stopped>
    requires fits { InRange denominator }
    requires positive { pos 0 <ℤ denominator }
    ensures entries { IfOk result (λ entries. entries.items ≡ entries_over denominator (kept (map seen terms.now))) }
    ensures fits { OnOk result (all_fit (numbers_of (entries_over denominator (kept (map seen terms.now)))) ≡ true) }
    ensures stopped { IfErr result (IsStop place (all_fit (numbers_of (entries_over denominator (kept (map seen terms.now)))))) }
{
    let mut entries = Vec::with_capacity(alloc, terms.len())?;
    for term in terms {
        push_entry(&mut entries, place, term, denominator)?;
    }
    Ok(entries)
}

/// Appends the entry of a term, unless it is 0.
fn push_entry(
    entries: &mut Vec<(Var, i128)>,
    place: Place,
    term: &Term,
    denominator: i128,
) -> Result<(), Stopped>
    requires fits { InRange denominator }
    requires positive { pos 0 <ℤ denominator }
    ensures pushed { OnOk result (entries.new.items ≡ entries.old.items ++ entry_over denominator (seen term.now)) }
    ensures fits { OnOk result (all_fit (numbers_of (entry_over denominator (seen term.now))) ≡ true) }
    ensures stopped { IfErr result (IsStop place (all_fit (numbers_of (entry_over denominator (seen term.now))))) }
{
    if term.coefficient.num == 0 {
        return Ok(());
    }
    let Ok(number) = numerator(denominator, &term.coefficient) else {
        return Err(Stopped::Width(place));
    };
    entries.push((term.variable, number))?;
    Ok(())
}
