//! The best plan of the base example, and multipliers of its equations, as files. The figures were worked out by hand from the
//! equations; none is the program's output.

use std::alloc::{AllocError, Global};

/// The names of the fields.
pub(crate) const HEADER: &str =
    "NAME,REGION,REGION2,TIMESLICE,TECHNOLOGY,FUEL,EMISSION,MODE,YEAR,VALUE\n";

/// Capacity and activity of 10 for a demand of 10, each unit at 5 + 1 + 2: a cost of 80. All 39 variables, in their order.
pub(crate) const PLAN: &str = "RateOfActivity,R,,D,T,,,1,2020,10
NewCapacity,R,,,T,,,,2020,10
Trade,R,R,D,,F,,,2020,0
RateOfDemand,R,,D,,F,,,2020,10
AccumulatedNewCapacity,R,,,T,,,,2020,10
TotalCapacityAnnual,R,,,T,,,,2020,10
RateOfTotalActivity,R,,D,T,,,,2020,10
RateOfProductionByTechnologyByMode,R,,D,T,F,,1,2020,10
RateOfProductionByTechnology,R,,D,T,F,,,2020,10
RateOfProduction,R,,D,,F,,,2020,10
RateOfUse,R,,D,,F,,,2020,0
Production,R,,D,,F,,,2020,10
Use,R,,D,,F,,,2020,0
Demand,R,,D,,F,,,2020,10
ProductionAnnual,R,,,,F,,,2020,10
UseAnnual,R,,,,F,,,2020,0
TradeAnnual,R,R,,,F,,,2020,0
ProductionByTechnology,R,,D,T,F,,,2020,10
TotalAnnualTechnologyActivityByMode,R,,,T,,,1,2020,10
CapitalInvestment,R,,,T,,,,2020,50
DiscountedCapitalInvestment,R,,,T,,,,2020,50
SalvageValue,R,,,T,,,,2020,0
DiscountedSalvageValue,R,,,T,,,,2020,0
AnnualVariableOperatingCost,R,,,T,,,,2020,20
AnnualFixedOperatingCost,R,,,T,,,,2020,10
OperatingCost,R,,,T,,,,2020,30
DiscountedOperatingCost,R,,,T,,,,2020,30
AnnualTechnologyEmissionsPenalty,R,,,T,,,,2020,0
DiscountedTechnologyEmissionsPenalty,R,,,T,,,,2020,0
TotalDiscountedCostByTechnology,R,,,T,,,,2020,80
TotalDiscountedCost,R,,,,,,,2020,80
ModelPeriodCostByRegion,R,,,,,,,,80
TotalTechnologyAnnualActivity,R,,,T,,,,2020,10
TotalTechnologyModelPeriodActivity,R,,,T,,,,,10
TotalCapacityInReserveMargin,R,,,,,,,2020,0
DemandNeedingReserveMargin,R,,D,,,,,2020,0
ProductionByTechnologyAnnual,R,,,T,F,,,2020,10
TotalREProductionAnnual,R,,,,,,,2020,0
RETotalProductionOfTargetFuelAnnual,R,,,,,,,2020,0
";

/// Multipliers that carry the cost from TotalDiscountedCost down to what costs. Alone they prove the bound 0.
pub(crate) const CHAIN: &str = "CC1,R,,,T,,,,2020,1
CC2,R,,,T,,,,2020,1
SV3,R,,,T,,,,2020,-1
SV4,R,,,T,,,,2020,-1
OC1,R,,,T,,,,2020,1
OC2,R,,,T,,,,2020,1
OC3,R,,,T,,,,2020,1
OC4,R,,,T,,,,2020,1
E4,R,,,T,,,,2020,1
E5,R,,,T,,,,2020,1
TDC1,R,,,T,,,,2020,1
TDC2,R,,,,,,,2020,1
";

/// What CHAIN lacks of the bound 70: 7 for each unit of the demand of 10, where 8 would be the best.
pub(crate) const ENERGY: &str = "EQ_SpecifiedDemand,R,,D,,F,,,2020,7
CAa1,R,,,T,,,,2020,-4
CAa2,R,,,T,,,,2020,-4
CAa3,R,,D,T,,,,2020,5
CAa4,R,,D,T,,,,2020,-5
EBa1,R,,D,T,F,,1,2020,-7
EBa2,R,,D,T,F,,,2020,-7
EBa3,R,,D,,F,,,2020,-7
EBa7,R,,D,,F,,,2020,-7
EBa9,R,,D,,F,,,2020,7
EBa11,R,,D,,F,,,2020,7
Acc3,R,,,T,,,1,2020,2
";

/// A file of these records after the header.
pub(crate) fn file_of(alloc: Global, records: &[&str]) -> Result<String, AllocError> {
    let mut text = String::from_str(alloc, HEADER)?;
    for record in records {
        text.push_str(record)?;
    }
    Ok(text)
}
