//! The renewable target: what tagged technologies make, of any fuel, is at least a part of the production of tagged fuels.

ghost use Rattle.std.specs.Prelude.{◌≡◌, All, OnOk};
ghost use Rattle.row_core.specs.Amounts.{Negative};
ghost use Rattle.row_core.specs.Calculated.{known, number_of, with_amounts};
ghost use Rattle.row_core.specs.EquationTerms.{IsWritten};
ghost use Rattle.row_core.specs.Repeated.{IsTerm};
ghost use Rattle.named_equations.specs.Indices.{by_rtfy, by_ry};
ghost use Rattle.named_equations.specs.Variables.{rate_of_production};
ghost use Rattle.named_equations.specs.Within.{IsRegion, IsSlice, IsTechnology, IsFuel, IsYear};
ghost use Rattle.limit_rows.specs.RenewableTarget.{re1, re2, re3, re4, re5, part_for_target, products_of, renewable_production, target_production};

use equation_parts::parameters::{value, year_split};
use equation_parts::shapes::is_covered;
use equation_parts::{index, variable};
use exact_num::Frac;
use model_sets::param_numbers::{RE_MIN_PRODUCTION_TARGET, RE_TAG_FUEL, RE_TAG_TECHNOLOGY};
use model_sets::set_numbers::{FUEL, TIMESLICE};
use param_tables::{ActivityRatio, ModelData};
use row_core::kind_numbers::{
    PRODUCTION_BY_TECHNOLOGY, PRODUCTION_BY_TECHNOLOGY_ANNUAL, RATE_OF_PRODUCTION,
    RE_TOTAL_PRODUCTION_OF_TARGET_FUEL_ANNUAL, TOTAL_RE_PRODUCTION_ANNUAL, USE_BY_TECHNOLOGY,
    USE_BY_TECHNOLOGY_ANNUAL,
};
use row_core::{
    Index, LeftSide, Row, RowName, Sense, Stopped, Var, minus_one, negative, one, times, zero,
};
use std::alloc::{AllocError, Global};

/// RE1: what a technology makes of a fuel in a year is that of the timeslices.
pub(crate) fn re1(alloc: Global, model: &ModelData, name: RowName) -> Result<Row, Stopped>
    ensures { IsWritten name (by_rtfy (re1 model.now.facts) name.index) result }
{
    let index!(region r, tech t, fuel f, year y) = name.index;
    let mut left = LeftSide::new(alloc, name);
    let own = variable!(PRODUCTION_BY_TECHNOLOGY_ANNUAL; region r, tech t, fuel f, year y);
    left.add(own, one())?;
    left.add_each(
        model.sets().count(TIMESLICE),
        |l| (
            variable!(PRODUCTION_BY_TECHNOLOGY; region r, slice l, tech t, fuel f, year y),
            minus_one(),
        ),
    )?;
    left.write(alloc, Sense::Equal, zero())
}

/// RE2: renewable production is what the technologies make of all fuels, times the technology's tag.
pub(crate) fn re2(alloc: Global, model: &ModelData, name: RowName) -> Result<Row, Stopped>
    requires region { IsRegion model.now.facts name.index.region }
    requires year { IsYear model.now.facts name.index.year }
    ensures { IsWritten name (by_ry (re2 model.now.facts) name.index) result }
{
    let index!(region r, year y) = name.index;
    let mut left = LeftSide::new(alloc, name);
    let own = variable!(TOTAL_RE_PRODUCTION_ANNUAL; region r, year y);
    left.add(own, one())?;
    for f in 0..model.sets().count(FUEL) {
        subtract_renewable_production(alloc, &mut left, model, r, f, y)?;
    }
    left.write(alloc, Sense::Equal, zero())
}

/// Takes away what is made of a fuel, by each technology that makes it, times the technology's tag.
fn subtract_renewable_production(
    alloc: Global,
    left: &mut LeftSide,
    model: &ModelData,
    r: u16,
    f: u16,
    y: u16,
) -> Result<(), AllocError>
    requires region { IsRegion model.now.facts r }
    requires fuel { IsFuel model.now.facts f }
    requires year { IsYear model.now.facts y }
    ensures { OnOk result (left.new ≡ with_amounts (renewable_production model.now.facts r f y) left.old) }
{
    let makers = model.nonzero_technologies(alloc, ActivityRatio::Output, r, f, y)?;
    subtract_products(left, model, &makers, r, f, y)
}

/// Takes away what these technologies make of a fuel, each times its tag.
fn subtract_products(
    left: &mut LeftSide,
    model: &ModelData,
    makers: &[u16],
    r: u16,
    f: u16,
    y: u16,
) -> Result<(), AllocError>
    requires region { IsRegion model.now.facts r }
    requires technologies { All (IsTechnology model.now.facts) makers.now }
    requires year { IsYear model.now.facts y }
    ensures { OnOk result (left.new ≡ with_amounts (products_of model.now.facts r f y makers.now) left.old) }
{
    for maker in makers {
        let t = *maker;
        left.add(
            variable!(PRODUCTION_BY_TECHNOLOGY_ANNUAL; region r, tech t, fuel f, year y),
            negative(value(model, RE_TAG_TECHNOLOGY, &[r, t, y])),
        )?;
    }
    Ok(())
}

/// RE3: the production that the target is about is the sum over the timeslices and fuels of the rate of production
/// times the part of the year times the fuel's tag.
pub(crate) fn re3(alloc: Global, model: &ModelData, name: RowName) -> Result<Row, Stopped>
    requires region { IsRegion model.now.facts name.index.region }
    requires year { IsYear model.now.facts name.index.year }
    ensures { IsWritten name (by_ry (re3 model.now.facts) name.index) result }
{
    let index!(region r, year y) = name.index;
    let mut left = LeftSide::new(alloc, name);
    let own = variable!(RE_TOTAL_PRODUCTION_OF_TARGET_FUEL_ANNUAL; region r, year y);
    left.add(own, one())?;
    for l in 0..model.sets().count(TIMESLICE) {
        subtract_target_production(&mut left, model, r, l, y)?;
    }
    left.write(alloc, Sense::Equal, zero())
}

/// Takes away what is produced in a timeslice, of each fuel, as far as it counts for the target.
fn subtract_target_production(
    left: &mut LeftSide,
    model: &ModelData,
    r: u16,
    l: u16,
    y: u16,
) -> Result<(), AllocError>
    requires region { IsRegion model.now.facts r }
    requires slice { IsSlice model.now.facts l }
    requires year { IsYear model.now.facts y }
    ensures { OnOk result (left.new ≡ with_amounts (target_production model.now.facts r l y) left.old) }
{
    left.add_each(
        model.sets().count(FUEL),
        |f|
            requires region { IsRegion model.now.facts r }
            requires slice { IsSlice model.now.facts l }
            requires fuel { IsFuel model.now.facts f }
            requires year { IsYear model.now.facts y }
            ensures { IsTerm (rate_of_production r l f y, Negative (part_for_target model.entry.now.facts r l f y)) result }
        {
            (
                variable!(RATE_OF_PRODUCTION; region r, slice l, fuel f, year y),
                negative(part_for_target(model, r, l, f, y)),
            )
        },
    )
}

/// The part of a rate of production that counts for the target: the part of the year times the fuel's tag.
fn part_for_target(model: &ModelData, r: u16, l: u16, f: u16, y: u16) -> Option<Frac>
    requires region { IsRegion model.now.facts r }
    requires slice { IsSlice model.now.facts l }
    requires fuel { IsFuel model.now.facts f }
    requires year { IsYear model.now.facts y }
    ensures { known result ≡ number_of (part_for_target model.now.facts r l f y) }
{
    times(
        year_split(model, l, y),
        value(model, RE_TAG_FUEL, &[r, f, y]),
    )
}

/// RE4: the target's part of that production is at most the renewable production.
pub(crate) fn re4(alloc: Global, model: &ModelData, name: RowName) -> Result<Row, Stopped>
    requires region { IsRegion model.now.facts name.index.region }
    requires year { IsYear model.now.facts name.index.year }
    ensures { IsWritten name (by_ry (re4 model.now.facts) name.index) result }
{
    let index!(region r, year y) = name.index;
    is_covered(
        alloc,
        name,
        variable!(RE_TOTAL_PRODUCTION_OF_TARGET_FUEL_ANNUAL; region r, year y),
        value(model, RE_MIN_PRODUCTION_TARGET, &[r, y]),
        variable!(TOTAL_RE_PRODUCTION_ANNUAL; region r, year y),
    )
}

/// RE5: what a technology takes of a fuel in a year is that of the timeslices.
pub(crate) fn re5(alloc: Global, model: &ModelData, name: RowName) -> Result<Row, Stopped>
    ensures { IsWritten name (by_rtfy (re5 model.now.facts) name.index) result }
{
    let index!(region r, tech t, fuel f, year y) = name.index;
    let mut left = LeftSide::new(alloc, name);
    let own = variable!(USE_BY_TECHNOLOGY_ANNUAL; region r, tech t, fuel f, year y);
    left.add(own, one())?;
    left.add_each(
        model.sets().count(TIMESLICE),
        |l| (
            variable!(USE_BY_TECHNOLOGY; region r, slice l, tech t, fuel f, year y),
            minus_one(),
        ),
    )?;
    left.write(alloc, Sense::Equal, zero())
}
