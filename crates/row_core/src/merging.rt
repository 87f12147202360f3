//! The entries of two rows side by side, and their differences.

ghost use Rattle.std.specs.Prelude.{◌≡◌, IsTrue, [], true, drop, is_ok, IfOk, IfErr, OnOk, IfSome, IfNone, ◌++◌};
ghost use Rattle.exact_num.specs.Range.{InRange, all_fit};
ghost use Rattle.row_core.specs.Numbers.{numbers_of, keys_of, ascends};
ghost use Rattle.row_core.specs.Order.{var_cmp};
ghost use Rattle.row_core.specs.Rows.{number_at};
ghost use Rattle.row_core.specs.Stops.{IsStop};
ghost use Rattle.row_core.specs.declared.place.Stopped.TheVariants.{Memory};
ghost use Rattle.row_core.specs.Combined.{less, less_formed, beside, lessened, all_less_formed, entry_unless_zero};
ghost use Rattle.row_core.specs.Nexts.{IsNext};

use crate::Var;
use crate::place::{Place, Stopped};
use crate::searching::look_up;
use exact_num::{TooWide, difference, product};
use std::alloc::Global;
use std::cmp::Ordering;

/// `a * x - b * y`. `TooWide` where a product or the difference, formed in this order, leaves 128 bits.
#[tactic(auto, using(exact_num::proofs::RangeLaws::ranges))]
pub fn less(a: i128, b: i128, x: i128, y: i128) -> Result<i128, TooWide>
    requires a { InRange a }
    requires b { InRange b }
    requires x { InRange x }
    requires y { InRange y }
    ensures refused { is_ok result ≡ all_fit (less_formed a b x y) }
    ensures value { IfOk result (λ z. z ≡ less a b x y) }
    ensures range { IfOk result (λ z. InRange z) }
{
    let left = product(a, x)?;
    let right = product(b, y)?;
    difference(left, right)
}

/// The number that entries have at a variable, 0 where they have none.
pub fn number_of(entries: &[(Var, i128)], variable: Var) -> i128
    requires ascending { IsTrue (ascends var_cmp (keys_of entries.now)) }
    requires fits { all_fit (numbers_of entries.now) ≡ true }
    ensures value { result ≡ number_at entries.now variable }
    ensures range { InRange result }
{
    match look_up(entries, variable) {
        Some(number) => number,
        None => 0,
    }
}

/// The next variable of two rows: its number in either, 0 where a row hasn't it, and the positions after it.
#[derive(Clone, Copy)]
pub(crate) struct Next {
    pub(crate) variable: Var,
    pub(crate) number: i128,
    pub(crate) other: i128,
    pub(crate) left: usize,
    pub(crate) right: usize,
}

/// The next variable that one of two rows has, from these positions on.
fn next_of(
    entries: &[(Var, i128)],
    left: usize,
    others: &[(Var, i128)],
    right: usize,
) -> Option<Next>
    requires entries { all_fit (numbers_of entries.now) ≡ true }
    requires others { all_fit (numbers_of others.now) ≡ true }
    ensures found { IfSome result (IsNext entries.now left others.now right) }
    ensures none { IfNone result (beside (drop left entries.now) (drop right others.now) ≡ []) }
{
    if left >= entries.len() {
        if right >= others.len() {
            return None;
        }
        let other = others[right];
        return Some(Next {
            variable: other.0,
            number: 0,
            other: other.1,
            left,
            right: right + 1,
        });
    }
    let entry = entries[left];
    if right >= others.len() {
        return Some(Next {
            variable: entry.0,
            number: entry.1,
            other: 0,
            left: left + 1,
            right,
        });
    }
    let other = others[right];
    Some(match entry.0.cmp(&other.0) {
        Ordering::Less => Next {
            variable: entry.0,
            number: entry.1,
            other: 0,
            left: left + 1,
            right,
        },
        Ordering::Greater => Next {
            variable: other.0,
            number: 0,
            other: other.1,
            left,
            right: right + 1,
        },
        Ordering::Equal => Next {
            variable: entry.0,
            number: entry.1,
            other: other.1,
            left: left + 1,
            right: right + 1,
        },
    })
}

/// Appends an entry, unless its number is 0.
fn push_unless_zero(
    entries: &mut Vec<(Var, i128)>,
    variable: Var,
    number: i128,
) -> Result<(), Stopped>
    requires { InRange number }
    ensures pushed { OnOk result (entries.new.items ≡ entries.old.items ++ entry_unless_zero variable number) }
    ensures memory { IfErr result (λ e. e ≡ Memory) }
{
    if number != 0 {
        entries.push((variable, number))?;
    }
    Ok(())
}

/// `a` times the entries of a row less `b` times those of another, without 0. `Width(place)` comes exactly where one of
/// the products and differences doesn't fit; any other refusal means that memory ran out.
pub(crate) fn merge(
    alloc: Global,
    place: Place,
    a: i128,
    b: i128,
    entries: &[(Var, i128)],
    others: &[(Var, i128)],
) -> Result<Vec<(Var, i128)>, Stopped>
    requires a { InRange a }
    requires b { InRange b }
    requires entries { all_fit (numbers_of entries.now) ≡ true }
    requires others { all_fit (numbers_of others.now) ≡ true }
    ensures entries { IfOk result (λ made. made.items ≡ lessened a b (beside entries.now others.now)) }
    ensures fits { OnOk result (all_fit (all_less_formed a b (beside entries.now others.now)) ≡ true) }
    ensures stopped { IfErr result (IsStop place (all_fit (all_less_formed a b (beside entries.now others.now)))) }
{
    let mut made = Vec::with_capacity(alloc, entries.len().max(others.len()))?;
    let mut left = 0;
    let mut right = 0;
    while let Some(next) = next_of(entries, left, others, right) {
        let Ok(number) = less(a, b, next.number, next.other) else {
            return Err(Stopped::Width(place));
        };
        push_unless_zero(&mut made, next.variable, number)?;
        left = next.left;
        right = next.right;
    }
    Ok(made)
}
