//! The parameters of a made model.

/// The number that a record has in each year.
#[derive(Clone, Copy)]
pub(crate) enum Value {
    /// The demand for electricity: 40 in 2020, and 4 more each year.
    Growing,
    /// The same in all years.
    Same(&'static str),
}

/// A record of each year: the members that stand before the year, and the value.
pub(crate) type Record = (&'static str, Value);

/// A parameter: its name, its default, and its records of one year.
pub(crate) type Parameter = (&'static str, &'static str, &'static [Record]);

use Value::{Growing, Same};

/// The parameters, in the order of their numbers.
pub(crate) const PARAMETERS: [Parameter; 38] = [
    ("YearSplit", "0.25", &[]),
    ("DiscountRate", "0.05", &[]),
    ("DepreciationMethod", "1", &[]),
    ("TradeRoute", "0", &[]),
    ("SpecifiedAnnualDemand", "0", &[("R1 ELC", Growing)]),
    (
        "SpecifiedDemandProfile",
        "0",
        &[
            ("R1 ELC S1", Same("0.2")),
            ("R1 ELC S2", Same("0.3")),
            ("R1 ELC S3", Same("0.3")),
            ("R1 ELC S4", Same("0.2")),
        ],
    ),
    ("AccumulatedAnnualDemand", "0", &[("R1 HEAT", Same("10"))]),
    ("CapacityToActivityUnit", "1", &[]),
    (
        "CapacityFactor",
        "1",
        &[
            ("R1 WIND S1", Same("0.2")),
            ("R1 WIND S2", Same("0.4")),
            ("R1 WIND S3", Same("0.3")),
            ("R1 WIND S4", Same("0.3")),
        ],
    ),
    ("AvailabilityFactor", "1", &[("R1 PPCOAL", Same("0.9"))]),
    ("OperationalLife", "20", &[]),
    (
        "ResidualCapacity",
        "0",
        &[("R1 MINE", Same("10000")), ("R1 IMPORT", Same("10000"))],
    ),
    (
        "InputActivityRatio",
        "0",
        &[
            ("R1 PPCOAL COAL 1", Same("2.5")),
            ("R1 PPGAS GAS 1", Same("2")),
            ("R1 BOILER GAS 1", Same("1.25")),
        ],
    ),
    (
        "OutputActivityRatio",
        "0",
        &[
            ("R1 MINE COAL 1", Same("1")),
            ("R1 IMPORT GAS 1", Same("1")),
            ("R1 PPCOAL ELC 1", Same("1")),
            ("R1 PPGAS ELC 1", Same("1")),
            ("R1 WIND ELC 1", Same("1")),
            ("R1 BOILER HEAT 1", Same("1")),
        ],
    ),
    (
        "CapitalCost",
        "0",
        &[
            ("R1 PPCOAL", Same("50")),
            ("R1 PPGAS", Same("20")),
            ("R1 WIND", Same("60")),
            ("R1 BOILER", Same("5")),
        ],
    ),
    (
        "VariableCost",
        "0",
        &[
            ("R1 MINE 1", Same("2")),
            ("R1 IMPORT 1", Same("5")),
            ("R1 PPCOAL 1", Same("1")),
            ("R1 PPGAS 1", Same("1")),
        ],
    ),
    (
        "FixedCost",
        "0",
        &[
            ("R1 PPCOAL", Same("2")),
            ("R1 PPGAS", Same("1")),
            ("R1 WIND", Same("2")),
            ("R1 BOILER", Same("1")),
        ],
    ),
    ("CapacityOfOneTechnologyUnit", "0", &[]),
    ("TotalAnnualMaxCapacity", "-1", &[("R1 WIND", Same("10"))]),
    ("TotalAnnualMinCapacity", "0", &[]),
    ("TotalAnnualMaxCapacityInvestment", "-1", &[]),
    ("TotalAnnualMinCapacityInvestment", "0", &[]),
    ("TotalTechnologyAnnualActivityUpperLimit", "-1", &[]),
    ("TotalTechnologyAnnualActivityLowerLimit", "0", &[]),
    ("TotalTechnologyModelPeriodActivityUpperLimit", "0", &[]),
    ("TotalTechnologyModelPeriodActivityLowerLimit", "0", &[]),
    ("ReserveMarginTagTechnology", "0", &[]),
    ("ReserveMarginTagFuel", "0", &[]),
    ("ReserveMargin", "0", &[]),
    ("RETagTechnology", "0", &[]),
    ("RETagFuel", "0", &[]),
    ("REMinProductionTarget", "0", &[]),
    (
        "EmissionActivityRatio",
        "0",
        &[
            ("R1 PPCOAL CO2 1", Same("0.9")),
            ("R1 PPGAS CO2 1", Same("0.4")),
            ("R1 BOILER CO2 1", Same("0.25")),
        ],
    ),
    ("EmissionsPenalty", "0", &[("R1 CO2", Same("2"))]),
    ("AnnualExogenousEmission", "0", &[]),
    ("AnnualEmissionLimit", "-1", &[]),
    ("ModelPeriodExogenousEmission", "0", &[]),
    ("ModelPeriodEmissionLimit", "-1", &[]),
];
