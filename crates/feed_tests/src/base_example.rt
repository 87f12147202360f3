//! The MPS text of the base example, from a published example of the format; not from this program.

use std::alloc::{AllocError, Global};

/// The rows.
const ROWS: &str = "NAME OSEMOSYS
ROWS
 N COST
* EQ_SpecifiedDemand[R,D,F,2020]
 E R1
* CAa1[R,T,2020]
 E R2
* CAa2[R,T,2020]
 E R3
* CAa3[R,D,T,2020]
 E R4
* CAa4[R,D,T,2020]
 L R5
* CAb1[R,T,2020]
 L R6
* EBa1[R,D,T,F,1,2020]
 E R7
* EBa2[R,D,T,F,2020]
 E R8
* EBa3[R,D,F,2020]
 E R9
* EBa6[R,D,F,2020]
 E R10
* EBa7[R,D,F,2020]
 E R11
* EBa8[R,D,F,2020]
 E R12
* EBa9[R,D,F,2020]
 E R13
* EBa10[R,R,D,F,2020]
 E R14
* EBa11[R,D,F,2020]
 G R15
* EBb1[R,F,2020]
 E R16
* EBb2[R,F,2020]
 E R17
* EBb3[R,R,F,2020]
 E R18
* EBb4[R,F,2020]
 G R19
* Acc1[R,D,T,F,2020]
 E R20
* Acc3[R,T,1,2020]
 E R21
* CC1[R,T,2020]
 E R22
* CC2[R,T,2020]
 E R23
* SV3[R,T,2020]
 E R24
* SV4[R,T,2020]
 E R25
* OC1[R,T,2020]
 E R26
* OC2[R,T,2020]
 E R27
* OC3[R,T,2020]
 E R28
* OC4[R,T,2020]
 E R29
* E4[R,T,2020]
 E R30
* E5[R,T,2020]
 E R31
* TDC1[R,T,2020]
 E R32
* TDC2[R,2020]
 E R33
* Acc4[R]
 E R34
* AAC1[R,T,2020]
 E R35
* TAC1[R,T]
 E R36
* RM1[R,2020]
 E R37
* RM2[R,D,2020]
 E R38
* RM3[R,D,2020]
 L R39
* RE1[R,T,F,2020]
 E R40
* RE2[R,2020]
 E R41
* RE3[R,2020]
 E R42
* RE4[R,2020]
 L R43
";

/// The columns of activity, capacity and energy.
const ENERGY_COLUMNS: &str = "COLUMNS
* RateOfActivity[R,D,T,1,2020]
 C1 R4 -1
 C1 R7 -1
 C1 R21 -1
* NewCapacity[R,T,2020]
 C2 R2 -1
 C2 R22 -5
* Trade[R,R,D,F,2020]
 C3 R14 1
 C3 R18 -1
* RateOfDemand[R,D,F,2020]
 C4 R1 1
 C4 R13 -1
* AccumulatedNewCapacity[R,T,2020]
 C5 R2 1
 C5 R3 -1
* TotalCapacityAnnual[R,T,2020]
 C6 R3 1
 C6 R5 -1
 C6 R6 -1
 C6 R27 -1
* RateOfTotalActivity[R,D,T,2020]
 C7 R4 1
 C7 R5 1
 C7 R6 1
 C7 R35 -1
* RateOfProductionByTechnologyByMode[R,D,T,F,1,2020]
 C8 R7 1
 C8 R8 -1
* RateOfProductionByTechnology[R,D,T,F,2020]
 C9 R8 1
 C9 R9 -1
 C9 R20 -1
* RateOfProduction[R,D,F,2020]
 C10 R9 1
 C10 R11 -1
* RateOfUse[R,D,F,2020]
 C11 R10 1
 C11 R12 -1
* Production[R,D,F,2020]
 C12 R11 1
 C12 R15 1
 C12 R16 -1
* Use[R,D,F,2020]
 C13 R12 1
 C13 R15 -1
 C13 R17 -1
* Demand[R,D,F,2020]
 C14 R13 1
 C14 R15 -1
* ProductionAnnual[R,F,2020]
 C15 R16 1
 C15 R19 1
* UseAnnual[R,F,2020]
 C16 R17 1
 C16 R19 -1
* TradeAnnual[R,R,F,2020]
 C17 R18 1
* ProductionByTechnology[R,D,T,F,2020]
 C18 R20 1
 C18 R40 -1
* TotalAnnualTechnologyActivityByMode[R,T,1,2020]
 C19 R21 1
 C19 R26 -2
";

/// The columns of costs, and of what is limited.
const COST_COLUMNS: &str = "* CapitalInvestment[R,T,2020]
 C20 R22 1
 C20 R23 -1
* DiscountedCapitalInvestment[R,T,2020]
 C21 R23 1
 C21 R32 -1
* SalvageValue[R,T,2020]
 C22 R24 1
 C22 R25 -1
* DiscountedSalvageValue[R,T,2020]
 C23 R25 1
 C23 R32 1
* AnnualVariableOperatingCost[R,T,2020]
 C24 R26 1
 C24 R28 -1
* AnnualFixedOperatingCost[R,T,2020]
 C25 R27 1
 C25 R28 -1
* OperatingCost[R,T,2020]
 C26 R28 1
 C26 R29 -1
* DiscountedOperatingCost[R,T,2020]
 C27 R29 1
 C27 R32 -1
* AnnualTechnologyEmissionsPenalty[R,T,2020]
 C28 R30 1
 C28 R31 -1
* DiscountedTechnologyEmissionsPenalty[R,T,2020]
 C29 R31 1
 C29 R32 -1
* TotalDiscountedCostByTechnology[R,T,2020]
 C30 R32 1
 C30 R33 -1
* TotalDiscountedCost[R,2020]
 C31 COST 1
 C31 R33 1
 C31 R34 -1
* ModelPeriodCostByRegion[R]
 C32 R34 1
* TotalTechnologyAnnualActivity[R,T,2020]
 C33 R35 1
 C33 R36 -1
* TotalTechnologyModelPeriodActivity[R,T]
 C34 R36 1
* TotalCapacityInReserveMargin[R,2020]
 C35 R37 1
 C35 R39 -1
* DemandNeedingReserveMargin[R,D,2020]
 C36 R38 1
* ProductionByTechnologyAnnual[R,T,F,2020]
 C37 R40 1
* TotalREProductionAnnual[R,2020]
 C38 R41 1
 C38 R43 -1
* RETotalProductionOfTargetFuelAnnual[R,2020]
 C39 R42 1
";

/// The right side and the bounds.
const END: &str = "RHS
 RHS R1 10
BOUNDS
 FR BND C3
 FR BND C17
 FR BND C20
 FR BND C21
 FR BND C22
 FR BND C23
 FR BND C24
 FR BND C25
 FR BND C26
 FR BND C27
 FR BND C28
 FR BND C29
 FR BND C30
 FR BND C31
 FR BND C32
ENDATA
";

/// The text. Refuses where memory runs out.
pub fn base_text(alloc: Global) -> Result<String, AllocError> {
    let mut text = String::from_str(alloc, ROWS)?;
    text.push_str(ENERGY_COLUMNS)?;
    text.push_str(COST_COLUMNS)?;
    text.push_str(END)?;
    Ok(text)
}
