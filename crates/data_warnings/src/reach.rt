//! A least activity that the greatest capacity can't give.

ghost use Rattle.std.specs.Prelude.{◌≡◌, ◌≤◌, ◌*◌, ◌^◌, ◌+◌, IfSome, nat_lt, unsigned_abs};
ghost use Rattle.mathprog_data.specs.WellFormed.{IsWithinLimit};
ghost use Rattle.named_equations.specs.Within.{IsRegion, IsTechnology, IsYear};
ghost use Rattle.data_warnings.specs.Decimals.{billion};
ghost use Rattle.data_warnings.specs.Reach.{activity_unit, availability_of, greatest_capacity, is_above_reach, is_unreachable, least_activity, size_within, up, usual_effort, usual_most};

use crate::questions::{Question, is_so_somewhere, is_within};
use crate::sums::{Parts, sum_of};
use crate::values::value;
use model_sets::param_numbers::{
    AVAILABILITY_FACTOR, CAPACITY_TO_ACTIVITY_UNIT, TOTAL_ANNUAL_MAX_CAPACITY,
    TOTAL_TECHNOLOGY_ANNUAL_ACTIVITY_LOWER_LIMIT,
};
use param_tables::ModelData;

/// One, in billionths.
const BILLION: u128 = 1_000_000_000;

/// The least activity of the year.
pub(crate) fn least_activity(model: &ModelData, r: u16, t: u16, y: u16) -> i128
    requires region { IsRegion model.now.facts r }
    requires technology { IsTechnology model.now.facts t }
    requires year { IsYear model.now.facts y }
    ensures value { result ≡ least_activity model.now.facts r t y }
    ensures within { IsWithinLimit result }
{
    value(
        model,
        TOTAL_TECHNOLOGY_ANNUAL_ACTIVITY_LOWER_LIMIT,
        &[r, t, y],
    )
}

/// The greatest capacity of the year.
pub(crate) fn greatest_capacity(model: &ModelData, r: u16, t: u16, y: u16) -> i128
    requires region { IsRegion model.now.facts r }
    requires technology { IsTechnology model.now.facts t }
    requires year { IsYear model.now.facts y }
    ensures { result ≡ greatest_capacity model.now.facts r t y }
{
    value(model, TOTAL_ANNUAL_MAX_CAPACITY, &[r, t, y])
}

// A capacity's activity of a year.
fn activity_unit(model: &ModelData, r: u16, t: u16) -> i128
    requires region { IsRegion model.now.facts r }
    requires technology { IsTechnology model.now.facts t }
    ensures { result ≡ activity_unit model.now.facts r t }
{
    value(model, CAPACITY_TO_ACTIVITY_UNIT, &[r, t])
}

// The part of the year for which a technology is available.
fn availability_of(model: &ModelData, r: u16, t: u16, y: u16) -> i128
    requires region { IsRegion model.now.facts r }
    requires technology { IsTechnology model.now.facts t }
    requires year { IsYear model.now.facts y }
    ensures { result ≡ availability_of model.now.facts r t y }
{
    value(model, AVAILABILITY_FACTOR, &[r, t, y])
}

// Billionths of billionths as billionths, rounded up.
fn up(n: u128) -> u128
    requires { n ≤ 10 ^ 37 }
    ensures value { result ≡ up n }
    ensures most { result * billion ≤ n + 999999999 }
{
    (n + 999_999_999) / BILLION
}

// What is left of a number by a part of one, or of a million, rounded up.
fn scaled(a: u128, b: u128) -> u128
    requires a { a ≤ 10 ^ 16 }
    requires b { b ≤ 10 ^ 15 }
    ensures value { result ≡ up (a * b) }
    ensures most { result ≤ 10 ^ 22 }
    ensures few { b ≤ billion → result ≤ 10 ^ 16 }
{
    up(a * b)
}

// What a capacity of 1 can do in the year at most, rounded up.
fn most_of_one(effort: u128, availability: u128, unit: u128) -> u128
    requires effort { effort ≤ 10 ^ 25 }
    requires availability { availability ≤ billion }
    requires unit { unit ≤ 10 ^ 15 }
    ensures value { result ≡ up (up (up effort * availability) * unit) }
    ensures most { result ≤ 10 ^ 22 }
{
    scaled(scaled(up(effort), availability), unit)
}

// Whether a least activity is above what so much capacity can do.
fn is_beyond(most: u128, capacity: u128, least: u128) -> bool
    requires most { most ≤ 10 ^ 22 }
    requires capacity { capacity ≤ 10 ^ 16 }
    requires least { least ≤ 10 ^ 24 }
    ensures { result ≡ nat_lt (most * capacity) (least * billion) }
{
    most * capacity < least * BILLION
}

// The size of a value that lies between 0 and the most.
fn size_within(most: i128, value: i128) -> Option<u128>
    ensures value { result ≡ size_within most value }
    ensures most { IfSome result (λ size. size ≤ unsigned_abs most) }
{
    if is_within(most, value) {
        Some(value.unsigned_abs())
    } else {
        None
    }
}

// The size of the sum over the timeslices, where all numbers are of a usual size.
fn usual_effort(model: &ModelData, r: u16, t: u16, y: u16) -> Option<u128>
    requires region { IsRegion model.now.facts r }
    requires technology { IsTechnology model.now.facts t }
    requires year { IsYear model.now.facts y }
    ensures value { result ≡ usual_effort model.now.facts r t y }
    ensures most { IfSome result (λ size. size ≤ 10 ^ 25) }
{
    if is_so_somewhere(model, Question::WideSlice(r, t, y)) {
        return None;
    }
    size_within(
        10_000_000_000_000_000_000_000_000,
        sum_of(model, Parts::Effort(r, t, y)),
    )
}

// What a capacity of 1 can do in the year at most, rounded up, where all numbers are of a usual size.
fn usual_most(model: &ModelData, r: u16, t: u16, y: u16) -> Option<u128>
    requires region { IsRegion model.now.facts r }
    requires technology { IsTechnology model.now.facts t }
    requires year { IsYear model.now.facts y }
    ensures value { result ≡ usual_most model.now.facts r t y }
    ensures most { IfSome result (λ size. size ≤ 10 ^ 22) }
{
    let effort = usual_effort(model, r, t, y)?;
    let availability = size_within(1_000_000_000, availability_of(model, r, t, y))?;
    let unit = size_within(1_000_000_000_000_000, activity_unit(model, r, t))?;
    Some(most_of_one(effort, availability, unit))
}

// Whether the least activity is above what so much capacity can do.
fn is_above_reach(model: &ModelData, r: u16, t: u16, y: u16, least: i128) -> bool
    requires region { IsRegion model.now.facts r }
    requires technology { IsTechnology model.now.facts t }
    requires year { IsYear model.now.facts y }
    requires least { IsWithinLimit least }
    ensures { result ≡ is_above_reach model.now.facts r t y least }
{
    let Some(capacity) = size_within(10_000_000_000_000_000, greatest_capacity(model, r, t, y))
    else {
        return false;
    };
    let Some(most) = usual_most(model, r, t, y) else {
        return false;
    };
    is_beyond(most, capacity, least.unsigned_abs())
}

/// Whether the least activity is above what the greatest capacity can do.
pub(crate) fn is_unreachable(model: &ModelData, r: u16, t: u16, y: u16) -> bool
    requires region { IsRegion model.now.facts r }
    requires technology { IsTechnology model.now.facts t }
    requires year { IsYear model.now.facts y }
    ensures { result ≡ is_unreachable model.now.facts r t y }
{
    let least = least_activity(model, r, t, y);
    0 < least && is_above_reach(model, r, t, y, least)
}
