//! The numbers of the parameters of the OSeMOSYS long code: first those that the equations use in all data,
//! then those that are read and not used, and last DiscountRateIdv, which is used where the text has a statement for it.

/// The number of YearSplit.
pub const YEAR_SPLIT: u8 = 1;

/// The number of DiscountRate.
pub const DISCOUNT_RATE: u8 = 2;

/// The number of DepreciationMethod.
pub const DEPRECIATION_METHOD: u8 = 3;

/// The number of TradeRoute.
pub const TRADE_ROUTE: u8 = 4;

/// The number of SpecifiedAnnualDemand.
pub const SPECIFIED_ANNUAL_DEMAND: u8 = 5;

/// The number of SpecifiedDemandProfile.
pub const SPECIFIED_DEMAND_PROFILE: u8 = 6;

/// The number of AccumulatedAnnualDemand.
pub const ACCUMULATED_ANNUAL_DEMAND: u8 = 7;

/// The number of CapacityToActivityUnit.
pub const CAPACITY_TO_ACTIVITY_UNIT: u8 = 8;

/// The number of CapacityFactor.
pub const CAPACITY_FACTOR: u8 = 9;

/// The number of AvailabilityFactor.
pub const AVAILABILITY_FACTOR: u8 = 10;

/// The number of OperationalLife.
pub const OPERATIONAL_LIFE: u8 = 11;

/// The number of ResidualCapacity.
pub const RESIDUAL_CAPACITY: u8 = 12;

/// The number of InputActivityRatio.
pub const INPUT_ACTIVITY_RATIO: u8 = 13;

/// The number of OutputActivityRatio.
pub const OUTPUT_ACTIVITY_RATIO: u8 = 14;

/// The number of CapitalCost.
pub const CAPITAL_COST: u8 = 15;

/// The number of VariableCost.
pub const VARIABLE_COST: u8 = 16;

/// The number of FixedCost.
pub const FIXED_COST: u8 = 17;

/// The number of CapacityOfOneTechnologyUnit.
pub const CAPACITY_OF_ONE_TECHNOLOGY_UNIT: u8 = 18;

/// The number of TotalAnnualMaxCapacity.
pub const TOTAL_ANNUAL_MAX_CAPACITY: u8 = 19;

/// The number of TotalAnnualMinCapacity.
pub const TOTAL_ANNUAL_MIN_CAPACITY: u8 = 20;

/// The number of TotalAnnualMaxCapacityInvestment.
pub const TOTAL_ANNUAL_MAX_CAPACITY_INVESTMENT: u8 = 21;

/// The number of TotalAnnualMinCapacityInvestment.
pub const TOTAL_ANNUAL_MIN_CAPACITY_INVESTMENT: u8 = 22;

/// The number of TotalTechnologyAnnualActivityUpperLimit.
pub const TOTAL_TECHNOLOGY_ANNUAL_ACTIVITY_UPPER_LIMIT: u8 = 23;

/// The number of TotalTechnologyAnnualActivityLowerLimit.
pub const TOTAL_TECHNOLOGY_ANNUAL_ACTIVITY_LOWER_LIMIT: u8 = 24;

/// The number of TotalTechnologyModelPeriodActivityUpperLimit.
pub const TOTAL_TECHNOLOGY_MODEL_PERIOD_ACTIVITY_UPPER_LIMIT: u8 = 25;

/// The number of TotalTechnologyModelPeriodActivityLowerLimit.
pub const TOTAL_TECHNOLOGY_MODEL_PERIOD_ACTIVITY_LOWER_LIMIT: u8 = 26;

/// The number of ReserveMarginTagTechnology.
pub const RESERVE_MARGIN_TAG_TECHNOLOGY: u8 = 27;

/// The number of ReserveMarginTagFuel.
pub const RESERVE_MARGIN_TAG_FUEL: u8 = 28;

/// The number of ReserveMargin.
pub const RESERVE_MARGIN: u8 = 29;

/// The number of RETagTechnology.
pub const RE_TAG_TECHNOLOGY: u8 = 30;

/// The number of RETagFuel.
pub const RE_TAG_FUEL: u8 = 31;

/// The number of REMinProductionTarget.
pub const RE_MIN_PRODUCTION_TARGET: u8 = 32;

/// The number of EmissionActivityRatio.
pub const EMISSION_ACTIVITY_RATIO: u8 = 33;

/// The number of EmissionsPenalty.
pub const EMISSIONS_PENALTY: u8 = 34;

/// The number of AnnualExogenousEmission.
pub const ANNUAL_EXOGENOUS_EMISSION: u8 = 35;

/// The number of AnnualEmissionLimit.
pub const ANNUAL_EMISSION_LIMIT: u8 = 36;

/// The number of ModelPeriodExogenousEmission.
pub const MODEL_PERIOD_EXOGENOUS_EMISSION: u8 = 37;

/// The number of ModelPeriodEmissionLimit.
pub const MODEL_PERIOD_EMISSION_LIMIT: u8 = 38;

/// The number of Conversionls.
pub const CONVERSIONLS: u8 = 39;

/// The number of Conversionld.
pub const CONVERSIONLD: u8 = 40;

/// The number of Conversionlh.
pub const CONVERSIONLH: u8 = 41;

/// The number of DaySplit.
pub const DAY_SPLIT: u8 = 42;

/// The number of DaysInDayType.
pub const DAYS_IN_DAY_TYPE: u8 = 43;

/// The number of ResultsPath.
pub const RESULTS_PATH: u8 = 44;

/// The number of TechnologyToStorage.
pub const TECHNOLOGY_TO_STORAGE: u8 = 45;

/// The number of TechnologyFromStorage.
pub const TECHNOLOGY_FROM_STORAGE: u8 = 46;

/// The number of StorageLevelStart.
pub const STORAGE_LEVEL_START: u8 = 47;

/// The number of StorageMaxChargeRate.
pub const STORAGE_MAX_CHARGE_RATE: u8 = 48;

/// The number of StorageMaxDischargeRate.
pub const STORAGE_MAX_DISCHARGE_RATE: u8 = 49;

/// The number of MinStorageCharge.
pub const MIN_STORAGE_CHARGE: u8 = 50;

/// The number of OperationalLifeStorage.
pub const OPERATIONAL_LIFE_STORAGE: u8 = 51;

/// The number of CapitalCostStorage.
pub const CAPITAL_COST_STORAGE: u8 = 52;

/// The number of ResidualStorageCapacity.
pub const RESIDUAL_STORAGE_CAPACITY: u8 = 53;

/// The number of DiscountRateStorage.
pub const DISCOUNT_RATE_STORAGE: u8 = 54;

/// The number of DiscountRateIdv.
pub const DISCOUNT_RATE_IDV: u8 = 55;

/// How many parameters are used in all data: those from number 1.
pub const USED_PARAM_COUNT: usize = 38;

/// How many parameters there are.
pub const PARAM_COUNT: usize = 55;
