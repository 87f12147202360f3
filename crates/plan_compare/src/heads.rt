//! The first lines of a comparison.

ghost use Rattle.std.specs.Prelude.{◌≡◌, ◌++◌, OnOk};
ghost use Rattle.exact_num.specs.Value.{value_of};
ghost use Rattle.plan_compare.specs.Heads.{at_least, at_most, bound_line, cost_line, difference_line, head_text, spaced, status, status_line};

use crate::amounts::{difference, push_number_or};
use crate::scenario::Scenario;
use exact_num::{Frac, cmp_frac};
use std::alloc::AllocError;
use std::cmp::Ordering;
use value_millionths::{millionths, millionths_down, millionths_up};

/// Appends the first lines: the statuses, the costs, the bounds, and how much the least costs differ.
pub fn push_head(
    out: &mut Vec<u8>,
    first: Scenario<'_>,
    second: Scenario<'_>,
) -> Result<(), AllocError>
    ensures { OnOk result (out.new.items ≡ out.old.items
        ++ head_text (value_of first.entry.cost) (value_of first.entry.bound)
        (value_of second.entry.cost) (value_of second.entry.bound)) }
{
    out.extend_from_slice(b"compared\n")?;
    push_statuses(out, first, second)?;
    push_costs(out, first.cost, second.cost)?;
    push_bounds(out, first.bound, second.bound)?;
    push_difference(out, first, second)
}

// Appends the line of the statuses.
fn push_statuses(
    out: &mut Vec<u8>,
    first: Scenario<'_>,
    second: Scenario<'_>,
) -> Result<(), AllocError>
    ensures { OnOk result (out.new.items ≡ out.old.items
        ++ status_line (value_of first.entry.cost) (value_of first.entry.bound)
        (value_of second.entry.cost) (value_of second.entry.bound)) }
{
    out.extend_from_slice(b"status ")?;
    out.extend_from_slice(status(first.cost, first.bound))?;
    out.extend_from_slice(b" ")?;
    out.extend_from_slice(status(second.cost, second.bound))?;
    out.extend_from_slice(b"\n")
}

// Whether a cost is the bound, so that it is the least of all.
fn status(cost: Frac, bound: Frac) -> &'static [u8]
    ensures { result.now ≡ status (value_of cost) (value_of bound) }
{
    match cmp_frac(cost, bound) {
        Ordering::Equal => b"least",
        _ => b"near",
    }
}

// Appends the line of the costs: both, and the second less the first.
fn push_costs(out: &mut Vec<u8>, one: Frac, two: Frac) -> Result<(), AllocError>
    ensures { OnOk result (out.new.items ≡ out.old.items ++ cost_line (value_of one) (value_of two)) }
{
    let one = millionths(one);
    let two = millionths(two);
    out.extend_from_slice(b"cost")?;
    push_number(out, one)?;
    push_number(out, two)?;
    push_number(out, difference(one, two))?;
    out.extend_from_slice(b"\n")
}

// Appends the line of the bounds.
fn push_bounds(out: &mut Vec<u8>, one: Frac, two: Frac) -> Result<(), AllocError>
    ensures { OnOk result (out.new.items ≡ out.old.items ++ bound_line (value_of one) (value_of two)) }
{
    out.extend_from_slice(b"bound")?;
    push_number(out, millionths(one))?;
    push_number(out, millionths(two))?;
    out.extend_from_slice(b"\n")
}

// Appends the line of what the second least cost less the first is at least and at most.
fn push_difference(
    out: &mut Vec<u8>,
    first: Scenario<'_>,
    second: Scenario<'_>,
) -> Result<(), AllocError>
    ensures { OnOk result (out.new.items ≡ out.old.items
        ++ difference_line (value_of first.entry.cost) (value_of first.entry.bound)
        (value_of second.entry.cost) (value_of second.entry.bound)) }
{
    out.extend_from_slice(b"difference")?;
    push_number(out, at_least(first.cost, second.bound))?;
    push_number(out, at_most(first.bound, second.cost))?;
    out.extend_from_slice(b"\n")
}

/// What the second least cost less the first is at least, in millionths: the second bound, rounded down, less the first cost, rounded up.
/// `None` where a number leaves 128 bits.
pub fn at_least(cost: Frac, bound2: Frac) -> Option<i128>
    ensures { result ≡ at_least (value_of cost) (value_of bound2) }
{
    difference(millionths_up(cost), millionths_down(bound2))
}

/// What it is at most: the second cost, rounded up, less the first bound, rounded down.
pub fn at_most(bound: Frac, cost2: Frac) -> Option<i128>
    ensures { result ≡ at_most (value_of bound) (value_of cost2) }
{
    difference(millionths_down(bound), millionths_up(cost2))
}

// Appends a space and the text of a number.
fn push_number(out: &mut Vec<u8>, number: Option<i128>) -> Result<(), AllocError>
    ensures { OnOk result (out.new.items ≡ out.old.items ++ spaced number) }
{
    out.extend_from_slice(b" ")?;
    push_number_or(out, b"unknown", number)
}
