//! Parts of a whole that don't sum to 1.

ghost use Rattle.std.specs.Prelude.{◌≡◌, ◌<◌, ◌≤ℤ◌, ◌*ℤ◌, pos};
ghost use Rattle.mathprog_data.specs.WellFormed.{IsWithinLimit};
ghost use Rattle.model_sets.specs.Names.{timeslice};
ghost use Rattle.named_equations.specs.Within.{IsFuel, IsRegion, IsSlice, IsTechnology, IsYear};
ghost use Rattle.data_warnings.specs.Sums.{AreParts, effort, is_misprofiled, is_off, part, slack, sum_of};
ghost use Rattle.data_warnings.specs.Values.{count};

use crate::makers::is_specified;
use crate::questions::{Question, TEN, is_so_somewhere, is_within};
use crate::values::{count, value};
use model_sets::param_numbers::{CAPACITY_FACTOR, SPECIFIED_DEMAND_PROFILE, YEAR_SPLIT};
use model_sets::set_numbers::TIMESLICE;
use param_tables::ModelData;

/// The parts of a whole, one for each timeslice, by positions of region, fuel and year.
#[derive(Clone, Copy, PartialEq, Eq)]
pub enum Parts {
    /// YearSplit.
    YearSplit(u16),
    /// SpecifiedDemandProfile.
    Profile(u16, u16, u16),
    /// CapacityFactor times YearSplit, where both lie between 0 and 10; of region, technology and year.
    Effort(u16, u16, u16),
}

// The part of a timeslice.
fn part(model: &ModelData, parts: Parts, l: u16) -> i128
    requires parts { AreParts model.now.facts parts }
    requires slice { l < count model.now.facts timeslice }
    ensures value { result ≡ part model.now.facts parts l }
    ensures within { IsWithinLimit result }
{
    match parts {
        Parts::YearSplit(y) => value(model, YEAR_SPLIT, &[l, y]),
        Parts::Profile(r, f, y) => value(model, SPECIFIED_DEMAND_PROFILE, &[r, f, l, y]),
        Parts::Effort(r, t, y) => effort(model, r, t, l, y),
    }
}

// CapacityFactor times YearSplit, where both lie between 0 and 10.
fn effort(model: &ModelData, r: u16, t: u16, l: u16, y: u16) -> i128
    requires region { IsRegion model.now.facts r }
    requires technology { IsTechnology model.now.facts t }
    requires slice { IsSlice model.now.facts l }
    requires year { IsYear model.now.facts y }
    ensures value { result ≡ effort model.now.facts r t l y }
    ensures within { IsWithinLimit result }
{
    let factor = value(model, CAPACITY_FACTOR, &[r, t, l, y]);
    let split = value(model, YEAR_SPLIT, &[l, y]);
    if is_within(TEN, factor) && is_within(TEN, split) {
        small_product(factor, split)
    } else {
        0
    }
}

// The product of two numbers from 0 to 10^10.
fn small_product(a: i128, b: i128) -> i128
    requires a_least { pos 0 ≤ℤ a }
    requires a_most { a ≤ℤ pos 10000000000 }
    requires b_least { pos 0 ≤ℤ b }
    requires b_most { b ≤ℤ pos 10000000000 }
    ensures value { result ≡ a *ℤ b }
    ensures within { IsWithinLimit result }
{
    a * b
}

/// The sum of the parts.
pub(crate) fn sum_of(model: &ModelData, parts: Parts) -> i128
    requires { AreParts model.now.facts parts }
    ensures { result ≡ sum_of model.now.facts parts }
{
    let mut sum: i128 = 0;
    for l in 0..count(model, TIMESLICE) {
        sum += part(model, parts, l);
    }
    sum
}

// By how much a sum may be off 1.
fn slack(model: &ModelData) -> i128
    ensures value { result ≡ slack model.now.facts }
    ensures within { IsWithinLimit result }
{
    i128::from(count(model, TIMESLICE)) * 1000
}

/// Whether the sum is farther off 1 than a millionth for each timeslice.
pub(crate) fn is_off(model: &ModelData, sum: i128) -> bool
    ensures { result ≡ is_off model.now.facts sum }
{
    let slack = slack(model);
    sum < 1_000_000_000 - slack || 1_000_000_000 + slack < sum
}

/// Whether a demand is specified, some of it falls into a timeslice, and the parts don't sum to 1.
pub(crate) fn is_misprofiled(model: &ModelData, r: u16, f: u16, y: u16) -> bool
    requires region { IsRegion model.now.facts r }
    requires fuel { IsFuel model.now.facts f }
    requires year { IsYear model.now.facts y }
    ensures { result ≡ is_misprofiled model.now.facts r f y }
{
    is_specified(model, r, f, y)
        && is_so_somewhere(model, Question::Profile(r, f, y))
        && is_off(model, sum_of(model, Parts::Profile(r, f, y)))
}
