//! What all rules find.

ghost use Rattle.std.specs.Prelude.{◌≡◌, ◌++◌, ◌<◌, true, IfOk, OnOk};
ghost use Rattle.std.specs.List.{flat_map};
ghost use Rattle.data_warnings.specs.Findings.{finding, findings, found, found_at, found_of_one, found_of_two, last_members, place_at};
ghost use Rattle.data_warnings.specs.Frames.{frame_of};
ghost use Rattle.data_warnings.specs.Speaking.{speaks};
ghost use Rattle.data_warnings.specs.Values.{IsPlace, count};

use crate::numbers::{number, other_number};
use crate::places::{Finding, Place};
use crate::rules::{Ceiling, Cost, EmissionLimit, Enabler, Limit, Pair, Rule, Series, frame_of};
use crate::speaking::speaks;
use crate::values::count;
use param_tables::ModelData;
use std::alloc::{AllocError, Global};

/// The rules in their order.
const RULES: [Rule; 49] = [
    Rule::YearSplitSum,
    Rule::YearGap,
    Rule::DiscountRate,
    Rule::UnprofiledDemand,
    Rule::ProfileSum,
    Rule::UnmadeDemand,
    Rule::StarvedTechnology,
    Rule::Disabled(Enabler::Unit),
    Rule::Disabled(Enabler::Availability),
    Rule::Disabled(Enabler::Factors),
    Rule::Crossed(Pair::Residual),
    Rule::Crossed(Pair::Capacity),
    Rule::Crossed(Pair::Investment),
    Rule::Crossed(Pair::Activity),
    Rule::CrossedPeriod,
    Rule::Unreachable,
    Rule::ShortLives,
    Rule::CoarseRates,
    Rule::LargeFactor,
    Rule::LargeAvailability,
    Rule::LargeTarget,
    Rule::SmallMargin,
    Rule::NegativeCost(Cost::Capital),
    Rule::NegativeCost(Cost::Fixed),
    Rule::NegativeCost(Cost::Variable),
    Rule::Outlier(Series::CapitalCost),
    Rule::Outlier(Series::FixedCost),
    Rule::Outlier(Series::VariableCost),
    Rule::Outlier(Series::SpecifiedAnnualDemand),
    Rule::Outlier(Series::AccumulatedAnnualDemand),
    Rule::Outlier(Series::ResidualCapacity),
    Rule::OneWayRoute,
    Rule::EqualRoute,
    Rule::UnequalRoute,
    Rule::ZeroLimits(Limit::Capacity),
    Rule::ZeroLimits(Limit::Investment),
    Rule::ZeroLimits(Limit::Activity),
    Rule::ZeroEmissions(EmissionLimit::Annual),
    Rule::ZeroEmissions(EmissionLimit::ModelPeriod),
    Rule::HighLimits(Ceiling::Technology(Limit::Capacity)),
    Rule::HighLimits(Ceiling::Technology(Limit::Investment)),
    Rule::HighLimits(Ceiling::Technology(Limit::Activity)),
    Rule::HighLimits(Ceiling::Period),
    Rule::HighLimits(Ceiling::Emission(EmissionLimit::Annual)),
    Rule::HighLimits(Ceiling::Emission(EmissionLimit::ModelPeriod)),
    Rule::IdleLimit,
    Rule::UnusedFuel,
    Rule::IdleTechnology,
    Rule::Rounded,
];

/// What all rules find, in order. It may run out of memory.
pub(crate) fn findings(alloc: Global, model: &ModelData) -> Result<Vec<Finding>, AllocError>
    ensures { IfOk result (λ all. all.items ≡ findings model.now) }
{
    let mut all = Vec::new(alloc);
    for rule in RULES.as_slice() {
        add_found(alloc, &mut all, model, *rule)?;
    }
    Ok(all)
}

// Adds what a rule finds, over all first members.
fn add_found(
    alloc: Global,
    all: &mut Vec<Finding>,
    model: &ModelData,
    rule: Rule,
) -> Result<(), AllocError>
    ensures { OnOk result (all.new.items ≡ all.old.items ++ found model.now rule) }
{
    for i in 0..count(model, frame_of(rule).first) {
        add_found_of_one(alloc, all, model, rule, i)?;
    }
    Ok(())
}

// Adds what it finds of a first member, over all second ones.
fn add_found_of_one(
    alloc: Global,
    all: &mut Vec<Finding>,
    model: &ModelData,
    rule: Rule,
    i: u16,
) -> Result<(), AllocError>
    requires { i < count model.now.facts (frame_of rule).first }
    ensures { OnOk result (all.new.items ≡ all.old.items ++ found_of_one model.now rule i) }
{
    for j in 0..count(model, frame_of(rule).second) {
        add_found_of_two(alloc, all, model, rule, i, j)?;
    }
    Ok(())
}

// Adds what it finds of two members, over all third ones.
fn add_found_of_two(
    alloc: Global,
    all: &mut Vec<Finding>,
    model: &ModelData,
    rule: Rule,
    i: u16,
    j: u16,
) -> Result<(), AllocError>
    requires first { i < count model.now.facts (frame_of rule).first }
    requires second { j < count model.now.facts (frame_of rule).second }
    ensures { OnOk result (all.new.items ≡ all.old.items ++ found_of_two model.now rule i j) }
{
    for k in 0..count(model, frame_of(rule).third) {
        add_found_at(alloc, all, model, rule, i, j, k)?;
    }
    Ok(())
}

// Adds what it finds of three members.
fn add_found_at(
    alloc: Global,
    all: &mut Vec<Finding>,
    model: &ModelData,
    rule: Rule,
    i: u16,
    j: u16,
    k: u16,
) -> Result<(), AllocError>
    requires first { i < count model.now.facts (frame_of rule).first }
    requires second { j < count model.now.facts (frame_of rule).second }
    requires third { k < count model.now.facts (frame_of rule).third }
    ensures { OnOk result (all.new.items ≡ all.old.items ++ found_at model.now rule i j k) }
{
    let members = last_members(alloc, model, rule, i, j, k)?;
    if let Some((first, more)) = members.as_slice().split_first() {
        all.push(finding(model, rule, place(i, j, k, *first), more.len()))?;
    }
    Ok(())
}

// The place of these positions.
fn place(i: u16, j: u16, k: u16, l: u16) -> Place
    ensures { result ≡ place_at i j k l }
{
    Place {
        first: i,
        second: j,
        third: k,
        last: l,
    }
}

// The finding of a rule that speaks of a place.
fn finding(model: &ModelData, rule: Rule, place: Place, more: usize) -> Finding
    requires place { IsPlace model.now.facts (frame_of rule) place }
    requires spoken { speaks model.now rule place ≡ true }
    ensures { result ≡ finding model.now rule place more }
{
    Finding {
        rule,
        place,
        more,
        number: number(model, rule, place),
        other: other_number(model, rule, place),
    }
}

// The members of the last set with which a rule speaks of three others.
fn last_members(
    alloc: Global,
    model: &ModelData,
    rule: Rule,
    i: u16,
    j: u16,
    k: u16,
) -> Result<Vec<u16>, AllocError>
    requires first { i < count model.now.facts (frame_of rule).first }
    requires second { j < count model.now.facts (frame_of rule).second }
    requires third { k < count model.now.facts (frame_of rule).third }
    ensures { IfOk result (λ members. members.items ≡ last_members model.now rule i j k) }
{
    let mut members = Vec::new(alloc);
    for l in 0..count(model, frame_of(rule).last) {
        let so = speaks(alloc, model, rule, place(i, j, k, l))?;
        if so {
            members.push(l)?;
        }
    }
    Ok(members)
}
