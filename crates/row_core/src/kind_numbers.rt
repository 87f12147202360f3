//! The numbers of the kinds of variables of the OSeMOSYS long code: the three that are chosen, then those that
//! the equations define, in the order of the equations.

/// The number of RateOfActivity.
pub const RATE_OF_ACTIVITY: u8 = 1;

/// The number of NewCapacity.
pub const NEW_CAPACITY: u8 = 2;

/// The number of Trade.
pub const TRADE: u8 = 3;

/// The number of RateOfDemand.
pub const RATE_OF_DEMAND: u8 = 4;

/// The number of AccumulatedNewCapacity.
pub const ACCUMULATED_NEW_CAPACITY: u8 = 5;

/// The number of TotalCapacityAnnual.
pub const TOTAL_CAPACITY_ANNUAL: u8 = 6;

/// The number of RateOfTotalActivity.
pub const RATE_OF_TOTAL_ACTIVITY: u8 = 7;

/// The number of RateOfProductionByTechnologyByMode.
pub const RATE_OF_PRODUCTION_BY_TECHNOLOGY_BY_MODE: u8 = 8;

/// The number of RateOfProductionByTechnology.
pub const RATE_OF_PRODUCTION_BY_TECHNOLOGY: u8 = 9;

/// The number of RateOfProduction.
pub const RATE_OF_PRODUCTION: u8 = 10;

/// The number of RateOfUseByTechnologyByMode.
pub const RATE_OF_USE_BY_TECHNOLOGY_BY_MODE: u8 = 11;

/// The number of RateOfUseByTechnology.
pub const RATE_OF_USE_BY_TECHNOLOGY: u8 = 12;

/// The number of RateOfUse.
pub const RATE_OF_USE: u8 = 13;

/// The number of Production.
pub const PRODUCTION: u8 = 14;

/// The number of Use.
pub const USE: u8 = 15;

/// The number of Demand.
pub const DEMAND: u8 = 16;

/// The number of ProductionAnnual.
pub const PRODUCTION_ANNUAL: u8 = 17;

/// The number of UseAnnual.
pub const USE_ANNUAL: u8 = 18;

/// The number of TradeAnnual.
pub const TRADE_ANNUAL: u8 = 19;

/// The number of ProductionByTechnology.
pub const PRODUCTION_BY_TECHNOLOGY: u8 = 20;

/// The number of UseByTechnology.
pub const USE_BY_TECHNOLOGY: u8 = 21;

/// The number of TotalAnnualTechnologyActivityByMode.
pub const TOTAL_ANNUAL_TECHNOLOGY_ACTIVITY_BY_MODE: u8 = 22;

/// The number of CapitalInvestment.
pub const CAPITAL_INVESTMENT: u8 = 23;

/// The number of DiscountedCapitalInvestment.
pub const DISCOUNTED_CAPITAL_INVESTMENT: u8 = 24;

/// The number of SalvageValue.
pub const SALVAGE_VALUE: u8 = 25;

/// The number of DiscountedSalvageValue.
pub const DISCOUNTED_SALVAGE_VALUE: u8 = 26;

/// The number of AnnualVariableOperatingCost.
pub const ANNUAL_VARIABLE_OPERATING_COST: u8 = 27;

/// The number of AnnualFixedOperatingCost.
pub const ANNUAL_FIXED_OPERATING_COST: u8 = 28;

/// The number of OperatingCost.
pub const OPERATING_COST: u8 = 29;

/// The number of DiscountedOperatingCost.
pub const DISCOUNTED_OPERATING_COST: u8 = 30;

/// The number of AnnualTechnologyEmissionByMode.
pub const ANNUAL_TECHNOLOGY_EMISSION_BY_MODE: u8 = 31;

/// The number of AnnualTechnologyEmission.
pub const ANNUAL_TECHNOLOGY_EMISSION: u8 = 32;

/// The number of AnnualTechnologyEmissionPenaltyByEmission.
pub const ANNUAL_TECHNOLOGY_EMISSION_PENALTY_BY_EMISSION: u8 = 33;

/// The number of AnnualTechnologyEmissionsPenalty.
pub const ANNUAL_TECHNOLOGY_EMISSIONS_PENALTY: u8 = 34;

/// The number of DiscountedTechnologyEmissionsPenalty.
pub const DISCOUNTED_TECHNOLOGY_EMISSIONS_PENALTY: u8 = 35;

/// The number of TotalDiscountedCostByTechnology.
pub const TOTAL_DISCOUNTED_COST_BY_TECHNOLOGY: u8 = 36;

/// The number of TotalDiscountedCost.
pub const TOTAL_DISCOUNTED_COST: u8 = 37;

/// The number of ModelPeriodCostByRegion.
pub const MODEL_PERIOD_COST_BY_REGION: u8 = 38;

/// The number of TotalTechnologyAnnualActivity.
pub const TOTAL_TECHNOLOGY_ANNUAL_ACTIVITY: u8 = 39;

/// The number of TotalTechnologyModelPeriodActivity.
pub const TOTAL_TECHNOLOGY_MODEL_PERIOD_ACTIVITY: u8 = 40;

/// The number of TotalCapacityInReserveMargin.
pub const TOTAL_CAPACITY_IN_RESERVE_MARGIN: u8 = 41;

/// The number of DemandNeedingReserveMargin.
pub const DEMAND_NEEDING_RESERVE_MARGIN: u8 = 42;

/// The number of ProductionByTechnologyAnnual.
pub const PRODUCTION_BY_TECHNOLOGY_ANNUAL: u8 = 43;

/// The number of TotalREProductionAnnual.
pub const TOTAL_RE_PRODUCTION_ANNUAL: u8 = 44;

/// The number of RETotalProductionOfTargetFuelAnnual.
pub const RE_TOTAL_PRODUCTION_OF_TARGET_FUEL_ANNUAL: u8 = 45;

/// The number of UseByTechnologyAnnual.
pub const USE_BY_TECHNOLOGY_ANNUAL: u8 = 46;

/// The number of AnnualEmissions.
pub const ANNUAL_EMISSIONS: u8 = 47;

/// The number of ModelPeriodEmissions.
pub const MODEL_PERIOD_EMISSIONS: u8 = 48;

/// How many kinds of variables there are.
pub const KIND_COUNT: usize = 48;
