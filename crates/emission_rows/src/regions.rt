//! Emissions of regions, and their limits.

ghost use Rattle.std.specs.Prelude.{◌≡◌};
ghost use Rattle.row_core.specs.EquationTerms.{IsWritten};
ghost use Rattle.named_equations.specs.Emissions.{has_e8, has_e9};
ghost use Rattle.named_equations.specs.Indices.{by_re, by_rey};
ghost use Rattle.named_equations.specs.Within.{IsRegion, IsEmission, IsYear};
ghost use Rattle.emission_rows.specs.Emissions.{e6, e7, e8, e9};

use equation_parts::limits::is_limit;
use equation_parts::parameters::value;
use equation_parts::{index, variable};
use model_sets::param_numbers::{
    ANNUAL_EMISSION_LIMIT, ANNUAL_EXOGENOUS_EMISSION, MODEL_PERIOD_EMISSION_LIMIT,
    MODEL_PERIOD_EXOGENOUS_EMISSION,
};
use model_sets::set_numbers::{TECHNOLOGY, YEAR};
use param_tables::ModelData;
use row_core::kind_numbers::{
    ANNUAL_EMISSIONS, ANNUAL_TECHNOLOGY_EMISSION, MODEL_PERIOD_EMISSIONS,
};
use row_core::{
    Index, LeftSide, Row, RowName, Sense, Stopped, Var, minus_one, negative, one, plus, zero,
};
use std::alloc::Global;

/// E6: the annual emissions of a region are those of its technologies.
pub(crate) fn e6(alloc: Global, model: &ModelData, name: RowName) -> Result<Row, Stopped>
    ensures { IsWritten name (by_rey (e6 model.now.facts) name.index) result }
{
    let index!(region r, emission e, year y) = name.index;
    let mut left = LeftSide::new(alloc, name);
    let own = variable!(ANNUAL_EMISSIONS; region r, emission e, year y);
    left.add(own, one())?;
    left.add_each(
        model.sets().count(TECHNOLOGY),
        |t| (
            variable!(ANNUAL_TECHNOLOGY_EMISSION; region r, tech t, emission e, year y),
            minus_one(),
        ),
    )?;
    left.write(alloc, Sense::Equal, zero())
}

/// E7: the emissions of the model period are those of its years and the exogenous emission of the period.
pub(crate) fn e7(alloc: Global, model: &ModelData, name: RowName) -> Result<Row, Stopped>
    requires region { IsRegion model.now.facts name.index.region }
    requires emission { IsEmission model.now.facts name.index.emission }
    ensures { IsWritten name (by_re (e7 model.now.facts) name.index) result }
{
    let index!(region r, emission e) = name.index;
    let mut left = LeftSide::new(alloc, name);
    let own = variable!(MODEL_PERIOD_EMISSIONS; region r, emission e);
    left.add(own, one())?;
    left.add_each(
        model.sets().count(YEAR),
        |y| (
            variable!(ANNUAL_EMISSIONS; region r, emission e, year y),
            minus_one(),
        ),
    )?;
    left.write(
        alloc,
        Sense::Equal,
        value(model, MODEL_PERIOD_EXOGENOUS_EMISSION, &[r, e]),
    )
}

/// Whether the emissions of the year have a limit, 0 and numbers below -1 included.
pub(crate) fn has_e8(model: &ModelData, r: u16, e: u16, y: u16) -> bool
    requires region { IsRegion model.now.facts r }
    requires emission { IsEmission model.now.facts e }
    requires year { IsYear model.now.facts y }
    ensures { result ≡ has_e8 model.now.facts r e y }
{
    is_limit(model.at(ANNUAL_EMISSION_LIMIT, &[r, e, y]))
}

/// E8: the annual emissions are at most the limit of the year, less the exogenous emission of the year.
pub(crate) fn e8(alloc: Global, model: &ModelData, name: RowName) -> Result<Row, Stopped>
    requires region { IsRegion model.now.facts name.index.region }
    requires emission { IsEmission model.now.facts name.index.emission }
    requires year { IsYear model.now.facts name.index.year }
    ensures { IsWritten name (by_rey (e8 model.now.facts) name.index) result }
{
    let index!(region r, emission e, year y) = name.index;
    let mut left = LeftSide::new(alloc, name);
    let own = variable!(ANNUAL_EMISSIONS; region r, emission e, year y);
    left.add(own, one())?;
    let exogenous = value(model, ANNUAL_EXOGENOUS_EMISSION, &[r, e, y]);
    left.write(
        alloc,
        Sense::Most,
        plus(
            value(model, ANNUAL_EMISSION_LIMIT, &[r, e, y]),
            negative(exogenous),
        ),
    )
}

/// Whether the emissions of the model period have a limit, 0 and numbers below -1 included.
pub(crate) fn has_e9(model: &ModelData, r: u16, e: u16) -> bool
    requires region { IsRegion model.now.facts r }
    requires emission { IsEmission model.now.facts e }
    ensures { result ≡ has_e9 model.now.facts r e }
{
    is_limit(model.at(MODEL_PERIOD_EMISSION_LIMIT, &[r, e]))
}

/// E9: the emissions of the model period are at most the limit of the period.
pub(crate) fn e9(alloc: Global, model: &ModelData, name: RowName) -> Result<Row, Stopped>
    requires region { IsRegion model.now.facts name.index.region }
    requires emission { IsEmission model.now.facts name.index.emission }
    ensures { IsWritten name (by_re (e9 model.now.facts) name.index) result }
{
    let index!(region r, emission e) = name.index;
    let mut left = LeftSide::new(alloc, name);
    let own = variable!(MODEL_PERIOD_EMISSIONS; region r, emission e);
    left.add(own, one())?;
    left.write(
        alloc,
        Sense::Most,
        value(model, MODEL_PERIOD_EMISSION_LIMIT, &[r, e]),
    )
}
