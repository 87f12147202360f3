//! Which tables a page is drawn from. Definitions cite these lists too.

use data_tables::DataTable;
use model_sets::param_numbers::{
    ACCUMULATED_ANNUAL_DEMAND, ANNUAL_EMISSION_LIMIT, ANNUAL_EXOGENOUS_EMISSION,
    CAPACITY_TO_ACTIVITY_UNIT, EMISSION_ACTIVITY_RATIO, INPUT_ACTIVITY_RATIO,
    MODEL_PERIOD_EMISSION_LIMIT, MODEL_PERIOD_EXOGENOUS_EMISSION, OUTPUT_ACTIVITY_RATIO,
    TRADE_ROUTE,
};
use price_tables::PriceTable;
use row_core::kind_numbers::{
    ANNUAL_EMISSIONS, ANNUAL_TECHNOLOGY_EMISSION, DEMAND, DISCOUNTED_CAPITAL_INVESTMENT,
    DISCOUNTED_OPERATING_COST, DISCOUNTED_SALVAGE_VALUE, DISCOUNTED_TECHNOLOGY_EMISSIONS_PENALTY,
    NEW_CAPACITY, PRODUCTION_BY_TECHNOLOGY, PRODUCTION_BY_TECHNOLOGY_ANNUAL, RATE_OF_ACTIVITY,
    TOTAL_CAPACITY_ANNUAL, TOTAL_DISCOUNTED_COST, TOTAL_TECHNOLOGY_ANNUAL_ACTIVITY, TRADE,
    TRADE_ANNUAL, USE_BY_TECHNOLOGY, USE_BY_TECHNOLOGY_ANNUAL,
};

/// The tables of the data: names and years, what money of a year is worth, what is traded and asked for, who makes and takes what, and what
/// is given off and may be.
pub(crate) const PAGE_DATA: [DataTable; 12] = [
    DataTable::Sets,
    DataTable::Worth,
    DataTable::Param(TRADE_ROUTE),
    DataTable::Param(ACCUMULATED_ANNUAL_DEMAND),
    DataTable::Param(CAPACITY_TO_ACTIVITY_UNIT),
    DataTable::Param(INPUT_ACTIVITY_RATIO),
    DataTable::Param(OUTPUT_ACTIVITY_RATIO),
    DataTable::Param(EMISSION_ACTIVITY_RATIO),
    DataTable::Param(ANNUAL_EXOGENOUS_EMISSION),
    DataTable::Param(ANNUAL_EMISSION_LIMIT),
    DataTable::Param(MODEL_PERIOD_EXOGENOUS_EMISSION),
    DataTable::Param(MODEL_PERIOD_EMISSION_LIMIT),
];

/// The kinds of a plan's variables.
pub(crate) const PAGE_KINDS: [u8; 17] = [
    NEW_CAPACITY,
    TRADE,
    TOTAL_CAPACITY_ANNUAL,
    DEMAND,
    TRADE_ANNUAL,
    PRODUCTION_BY_TECHNOLOGY,
    USE_BY_TECHNOLOGY,
    DISCOUNTED_CAPITAL_INVESTMENT,
    DISCOUNTED_SALVAGE_VALUE,
    DISCOUNTED_OPERATING_COST,
    ANNUAL_TECHNOLOGY_EMISSION,
    DISCOUNTED_TECHNOLOGY_EMISSIONS_PENALTY,
    TOTAL_DISCOUNTED_COST,
    TOTAL_TECHNOLOGY_ANNUAL_ACTIVITY,
    PRODUCTION_BY_TECHNOLOGY_ANNUAL,
    USE_BY_TECHNOLOGY_ANNUAL,
    ANNUAL_EMISSIONS,
];

/// The tables of what a plan's multipliers say of costs.
pub(crate) const PAGE_PRICES: [PriceTable; 2] = [PriceTable::Limits, PriceTable::Fuels];

/// The kinds that are shown of a direction along which the cost falls: what else moves follows from them.
pub(crate) const DIRECTION_KINDS: [u8; 3] = [RATE_OF_ACTIVITY, NEW_CAPACITY, TRADE];
