//! The rules by which data are probably wrong.

ghost use Rattle.std.specs.Prelude.{◌≡◌};
ghost use Rattle.data_warnings.specs.Frames.{cost_frame, frame_of, framed, series_frame};

use model_sets::set_numbers::{EMISSION, FUEL, MODE_OF_OPERATION, REGION, TECHNOLOGY, YEAR};

/// A least value of a technology in a region and a year, and the greatest that may be.
#[derive(Clone, Copy, PartialEq, Eq)]
pub enum Pair {
    /// ResidualCapacity and TotalAnnualMaxCapacity.
    Residual,
    /// TotalAnnualMinCapacity and TotalAnnualMaxCapacity.
    Capacity,
    /// TotalAnnualMinCapacityInvestment and TotalAnnualMaxCapacityInvestment.
    Investment,
    /// TotalTechnologyAnnualActivityLowerLimit and TotalTechnologyAnnualActivityUpperLimit.
    Activity,
}

/// What a technology needs to run.
#[derive(Clone, Copy, PartialEq, Eq)]
pub enum Enabler {
    /// CapacityToActivityUnit.
    Unit,
    /// AvailabilityFactor.
    Availability,
    /// CapacityFactor in some timeslice.
    Factors,
}

/// An upper limit of a technology in a region and a year.
#[derive(Clone, Copy, PartialEq, Eq)]
pub enum Limit {
    /// TotalAnnualMaxCapacity.
    Capacity,
    /// TotalAnnualMaxCapacityInvestment.
    Investment,
    /// TotalTechnologyAnnualActivityUpperLimit.
    Activity,
}

/// A limit of an emission in a region.
#[derive(Clone, Copy, PartialEq, Eq)]
pub enum EmissionLimit {
    /// AnnualEmissionLimit.
    Annual,
    /// ModelPeriodEmissionLimit.
    ModelPeriod,
}

/// A parameter of upper limits, of which a high value may be meant as none.
#[derive(Clone, Copy, PartialEq, Eq)]
pub enum Ceiling {
    /// A limit of a technology in a region and a year.
    Technology(Limit),
    /// TotalTechnologyModelPeriodActivityUpperLimit.
    Period,
    /// A limit of an emission in a region.
    Emission(EmissionLimit),
}

/// A cost of a technology.
#[derive(Clone, Copy, PartialEq, Eq)]
pub enum Cost {
    /// CapitalCost.
    Capital,
    /// FixedCost.
    Fixed,
    /// VariableCost.
    Variable,
}

/// A parameter that changes little from one year to the next.
#[derive(Clone, Copy, PartialEq, Eq)]
pub enum Series {
    CapitalCost,
    FixedCost,
    VariableCost,
    SpecifiedAnnualDemand,
    AccumulatedAnnualDemand,
    ResidualCapacity,
}

/// A rule. What it finds is told once for all years in which it holds of the same members, and of what is so by default once for all
/// technologies or emissions of a region.
#[derive(Clone, Copy, PartialEq, Eq)]
pub enum Rule {
    /// YearSplit doesn't sum to 1.
    YearSplitSum,
    /// The year after a year is missing, and there are later ones.
    YearGap,
    /// DiscountRate is above 0.25, or between 0 and 0.005.
    DiscountRate,
    /// A demand is specified, and none of it falls into a timeslice.
    UnprofiledDemand,
    /// SpecifiedDemandProfile doesn't sum to 1.
    ProfileSum,
    /// A fuel is asked for, and nothing makes or brings it. There is no plan.
    UnmadeDemand,
    /// A technology takes a fuel that nothing makes or brings.
    StarvedTechnology,
    /// A technology makes something and can't run in any year.
    Disabled(Enabler),
    /// A least value is above the greatest. There is no plan.
    Crossed(Pair),
    /// TotalTechnologyModelPeriodActivityLowerLimit is above the upper limit. There is no plan.
    CrossedPeriod,
    /// The least activity of a year is above what the greatest capacity can do. There is no plan.
    Unreachable,
    /// There are several years, and a technology that has a capital cost lives one, by default.
    ShortLives,
    /// Factors of nine decimal places tell the cost of an investment that is spread over its life otherwise.
    CoarseRates,
    /// CapacityFactor is above 1 in some timeslice.
    LargeFactor,
    /// AvailabilityFactor is above 1.
    LargeAvailability,
    /// REMinProductionTarget is above 1.
    LargeTarget,
    /// ReserveMargin is between 0 and 1, and a fuel needs it.
    SmallMargin,
    /// A cost is below 0, and no limit holds the technology.
    NegativeCost(Cost),
    /// A value is eight times those of the nearest years, or an eighth.
    Outlier(Series),
    /// A route leads one way.
    OneWayRoute,
    /// A route is the same both ways, and not 1.
    EqualRoute,
    /// The two ways of a route differ.
    UnequalRoute,
    /// A limit of a technology is 0 in some year, by default.
    ZeroLimits(Limit),
    /// A limit of an emission is 0, by default.
    ZeroEmissions(EmissionLimit),
    /// A limit is 99999 or more.
    HighLimits(Ceiling),
    /// An emission has a limit, and nothing gives it off.
    IdleLimit,
    /// A fuel is made, and nobody wants it.
    UnusedFuel,
    /// A technology makes and takes nothing.
    IdleTechnology,
    /// Numbers were rounded when they were read.
    Rounded,
}

/// The numbers of the sets over which the findings of a rule go: up to three members, and the set of which a finding tells all
/// members together, most often the years. 0 is no set.
#[derive(Clone, Copy, PartialEq, Eq)]
pub struct Frame {
    pub first: u8,
    pub second: u8,
    pub third: u8,
    pub last: u8,
}

/// No set.
pub(crate) const NO_SET: u8 = 0;

// The frame of these sets.
fn framed(first: u8, second: u8, third: u8, last: u8) -> Frame
    ensures { result ≡ framed first second third last }
{
    Frame {
        first,
        second,
        third,
        last,
    }
}

// The frame of a cost.
fn cost_frame(cost: Cost) -> Frame
    ensures { result ≡ cost_frame cost }
{
    match cost {
        Cost::Capital | Cost::Fixed => framed(REGION, TECHNOLOGY, NO_SET, YEAR),
        Cost::Variable => framed(REGION, TECHNOLOGY, MODE_OF_OPERATION, YEAR),
    }
}

// The frame of a series.
fn series_frame(series: Series) -> Frame
    ensures { result ≡ series_frame series }
{
    match series {
        Series::CapitalCost | Series::FixedCost | Series::ResidualCapacity => {
            framed(REGION, TECHNOLOGY, NO_SET, YEAR)
        }
        Series::VariableCost => framed(REGION, TECHNOLOGY, MODE_OF_OPERATION, YEAR),
        Series::SpecifiedAnnualDemand | Series::AccumulatedAnnualDemand => {
            framed(REGION, FUEL, NO_SET, YEAR)
        }
    }
}

/// The sets over which the findings of a rule go.
pub(crate) fn frame_of(rule: Rule) -> Frame
    ensures { result ≡ frame_of rule }
{
    match rule {
        Rule::YearSplitSum | Rule::YearGap => framed(NO_SET, NO_SET, NO_SET, YEAR),
        Rule::DiscountRate => framed(REGION, NO_SET, NO_SET, NO_SET),
        Rule::UnprofiledDemand | Rule::ProfileSum | Rule::UnmadeDemand => {
            framed(REGION, FUEL, NO_SET, YEAR)
        }
        Rule::StarvedTechnology => framed(REGION, TECHNOLOGY, FUEL, YEAR),
        Rule::Disabled(_) | Rule::CrossedPeriod => framed(REGION, TECHNOLOGY, NO_SET, NO_SET),
        Rule::Crossed(_) | Rule::Unreachable | Rule::LargeFactor | Rule::LargeAvailability => {
            framed(REGION, TECHNOLOGY, NO_SET, YEAR)
        }
        Rule::LargeTarget | Rule::SmallMargin => framed(REGION, NO_SET, NO_SET, YEAR),
        Rule::NegativeCost(cost) => cost_frame(cost),
        Rule::Outlier(series) => series_frame(series),
        Rule::OneWayRoute | Rule::EqualRoute | Rule::UnequalRoute => {
            framed(REGION, REGION, FUEL, YEAR)
        }
        Rule::ShortLives | Rule::CoarseRates | Rule::ZeroLimits(_) => {
            framed(REGION, NO_SET, NO_SET, TECHNOLOGY)
        }
        Rule::ZeroEmissions(_) => framed(REGION, NO_SET, NO_SET, EMISSION),
        Rule::HighLimits(_) => framed(REGION, NO_SET, NO_SET, NO_SET),
        Rule::IdleLimit => framed(REGION, EMISSION, NO_SET, NO_SET),
        Rule::UnusedFuel => framed(REGION, FUEL, NO_SET, NO_SET),
        Rule::IdleTechnology => framed(TECHNOLOGY, NO_SET, NO_SET, NO_SET),
        Rule::Rounded => framed(NO_SET, NO_SET, NO_SET, NO_SET),
    }
}
