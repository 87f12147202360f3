//! Total discounted cost: of a technology, of a year, and of a region.

ghost use Rattle.row_core.specs.EquationTerms.{IsWritten};
ghost use Rattle.named_equations.specs.Indices.{by_r, by_rty, by_ry};
ghost use Rattle.cost_rows.specs.Costs.{tdc1, tdc2, acc4};

use equation_parts::{index, variable};
use model_sets::set_numbers::{TECHNOLOGY, YEAR};
use param_tables::ModelData;
use row_core::kind_numbers::{
    DISCOUNTED_CAPITAL_INVESTMENT, DISCOUNTED_OPERATING_COST, DISCOUNTED_SALVAGE_VALUE,
    DISCOUNTED_TECHNOLOGY_EMISSIONS_PENALTY, MODEL_PERIOD_COST_BY_REGION, TOTAL_DISCOUNTED_COST,
    TOTAL_DISCOUNTED_COST_BY_TECHNOLOGY,
};
use row_core::{Index, LeftSide, Row, RowName, Sense, Stopped, Var, minus_one, one, zero};
use std::alloc::Global;

/// TDC1: the cost of a technology is its operating cost, its investment and its emissions penalty, less its salvage
/// value, all discounted.
pub(crate) fn tdc1(alloc: Global, model: &ModelData, name: RowName) -> Result<Row, Stopped>
    ensures { IsWritten name (by_rty (tdc1 model.now.facts) name.index) result }
{
    let index!(region r, tech t, year y) = name.index;
    let mut left = LeftSide::new(alloc, name);
    let own = variable!(TOTAL_DISCOUNTED_COST_BY_TECHNOLOGY; region r, tech t, year y);
    left.add(own, one())?;
    let operating = variable!(DISCOUNTED_OPERATING_COST; region r, tech t, year y);
    left.add(operating, minus_one())?;
    let investment = variable!(DISCOUNTED_CAPITAL_INVESTMENT; region r, tech t, year y);
    left.add(investment, minus_one())?;
    let penalty = variable!(DISCOUNTED_TECHNOLOGY_EMISSIONS_PENALTY; region r, tech t, year y);
    left.add(penalty, minus_one())?;
    let salvage = variable!(DISCOUNTED_SALVAGE_VALUE; region r, tech t, year y);
    left.add(salvage, one())?;
    left.write(alloc, Sense::Equal, zero())
}

/// TDC2: the cost of a year is that of its technologies.
pub(crate) fn tdc2(alloc: Global, model: &ModelData, name: RowName) -> Result<Row, Stopped>
    ensures { IsWritten name (by_ry (tdc2 model.now.facts) name.index) result }
{
    let index!(region r, year y) = name.index;
    let mut left = LeftSide::new(alloc, name);
    left.add(variable!(TOTAL_DISCOUNTED_COST; region r, year y), one())?;
    left.add_each(
        model.sets().count(TECHNOLOGY),
        |t| (
            variable!(TOTAL_DISCOUNTED_COST_BY_TECHNOLOGY; region r, tech t, year y),
            minus_one(),
        ),
    )?;
    left.write(alloc, Sense::Equal, zero())
}

/// Acc4: the cost of a region is that of its years.
pub(crate) fn acc4(alloc: Global, model: &ModelData, name: RowName) -> Result<Row, Stopped>
    ensures { IsWritten name (by_r (acc4 model.now.facts) name.index) result }
{
    let r = name.index.region;
    let mut left = LeftSide::new(alloc, name);
    left.add(variable!(MODEL_PERIOD_COST_BY_REGION; region r), one())?;
    left.add_each(
        model.sets().count(YEAR),
        |y| (
            variable!(TOTAL_DISCOUNTED_COST; region r, year y),
            minus_one(),
        ),
    )?;
    left.write(alloc, Sense::Equal, zero())
}
