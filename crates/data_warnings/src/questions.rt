//! Questions on the members of a set, of which the answer is sought for one of them at least.

ghost use Rattle.data_warnings.specs.Questions.{IsAsked, is_so, is_so_somewhere, is_within, over};
ghost use Rattle.data_warnings.specs.Values.{count};
ghost use Rattle.std.specs.Prelude.{◌≡◌, ◌<◌, ◌≤◌, ◌≤ℤ◌, pos, true};
ghost use Rattle.model_sets.specs.Names.{set_count};

use crate::values::{count, value, year_number};
use model_sets::param_numbers::{
    CAPACITY_FACTOR, RESERVE_MARGIN_TAG_FUEL, SPECIFIED_DEMAND_PROFILE, TRADE_ROUTE, YEAR_SPLIT,
};
use model_sets::set_numbers::{FUEL, REGION, TIMESLICE, YEAR};
use param_tables::ModelData;

/// Ten, in billionths.
pub(crate) const TEN: i128 = 10_000_000_000;

/// A question on the members of a set, by positions of region, fuel or technology, and year.
#[derive(Clone, Copy, PartialEq, Eq)]
pub enum Question {
    /// SpecifiedDemandProfile is above 0 in the timeslice.
    Profile(u16, u16, u16),
    /// CapacityFactor isn't 0 in the timeslice.
    Factor(u16, u16, u16),
    /// CapacityFactor is above 1 in the timeslice.
    LargeFactor(u16, u16, u16),
    /// CapacityFactor or YearSplit lies outside 0 and 10 in the timeslice.
    WideSlice(u16, u16, u16),
    /// The region is another one, and there is a route from it.
    Route(u16, u16, u16),
    /// The fuel needs a reserve margin, in a region and a year.
    Tag(u16, u16),
    /// The year is the one after this one.
    NextYear(u16),
    /// The year is later than this one.
    LaterYear(u16),
}

// The set over whose members the question goes.
fn over(question: Question) -> u8
    ensures set { result ≡ over question }
    ensures listed { result ≤ set_count }
{
    match question {
        Question::Profile(..)
        | Question::Factor(..)
        | Question::LargeFactor(..)
        | Question::WideSlice(..) => TIMESLICE,
        Question::Route(..) => REGION,
        Question::Tag(..) => FUEL,
        Question::NextYear(_) | Question::LaterYear(_) => YEAR,
    }
}

/// Whether the value lies between 0 and the most.
pub(crate) fn is_within(most: i128, value: i128) -> bool
    ensures value { result ≡ is_within most value }
    ensures least { result ≡ true → pos 0 ≤ℤ value }
    ensures most { result ≡ true → value ≤ℤ most }
{
    0 <= value && value <= most
}

// Whether it is so of a member.
fn is_so(model: &ModelData, question: Question, i: u16) -> bool
    requires asked { IsAsked model.now.facts question }
    requires member { i < count model.now.facts (over question) }
    ensures { result ≡ is_so model.now.facts question i }
{
    match question {
        Question::Profile(r, f, y) => 0 < value(model, SPECIFIED_DEMAND_PROFILE, &[r, f, i, y]),
        Question::Factor(r, t, y) => value(model, CAPACITY_FACTOR, &[r, t, i, y]) != 0,
        Question::LargeFactor(r, t, y) => {
            1_000_000_000 < value(model, CAPACITY_FACTOR, &[r, t, i, y])
        }
        Question::WideSlice(r, t, y) => {
            !(is_within(TEN, value(model, CAPACITY_FACTOR, &[r, t, i, y]))
                && is_within(TEN, value(model, YEAR_SPLIT, &[i, y])))
        }
        Question::Route(r, f, y) => i != r && value(model, TRADE_ROUTE, &[r, i, f, y]) != 0,
        Question::Tag(r, y) => value(model, RESERVE_MARGIN_TAG_FUEL, &[r, i, y]) != 0,
        Question::NextYear(y) => year_number(model, i) == year_number(model, y) + 1,
        Question::LaterYear(y) => year_number(model, y) < year_number(model, i),
    }
}

/// Whether it is so of some member.
pub(crate) fn is_so_somewhere(model: &ModelData, question: Question) -> bool
    requires { IsAsked model.now.facts question }
    ensures { result ≡ is_so_somewhere model.now.facts question }
{
    for i in 0..count(model, over(question)) {
        if is_so(model, question, i) {
            return true;
        }
    }
    false
}
