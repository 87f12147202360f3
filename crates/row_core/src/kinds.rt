//! The kinds of variables of the OSeMOSYS long code: their words, their subscripts, and which may be
//! below 0.

ghost use Rattle.std.specs.Prelude.{◌≡◌, ◌<◌, ℕ, map};
ghost use Rattle.row_core.specs.Kinds.{IsKind, kinds, kind_at, word_of_kind, kind_has, kind_is_free};
ghost use Rattle.row_core.specs.Tables.{described_kind};
ghost use Rattle.row_core.specs.Words.{IsPlain};

use crate::kind_numbers::KIND_COUNT;
use crate::subscripts::{E, F, L, M, R, RR, T, Y};

/// The kinds from number 1 on: the three that are chosen, and then those that the equations define, in
/// the order of the equations. Of each its word, the places of its subscripts, and whether it may be below 0.
pub const KINDS: [(&str, &[u8], bool); KIND_COUNT] = [
    ("RateOfActivity", &[R, L, T, M, Y], false),
    ("NewCapacity", &[R, T, Y], false),
    ("Trade", &[R, RR, L, F, Y], true),
    ("RateOfDemand", &[R, L, F, Y], false),
    ("AccumulatedNewCapacity", &[R, T, Y], false),
    ("TotalCapacityAnnual", &[R, T, Y], false),
    ("RateOfTotalActivity", &[R, L, T, Y], false),
    (
        "RateOfProductionByTechnologyByMode",
        &[R, L, T, F, M, Y],
        false,
    ),
    ("RateOfProductionByTechnology", &[R, L, T, F, Y], false),
    ("RateOfProduction", &[R, L, F, Y], false),
    ("RateOfUseByTechnologyByMode", &[R, L, T, F, M, Y], false),
    ("RateOfUseByTechnology", &[R, L, T, F, Y], false),
    ("RateOfUse", &[R, L, F, Y], false),
    ("Production", &[R, L, F, Y], false),
    ("Use", &[R, L, F, Y], false),
    ("Demand", &[R, L, F, Y], false),
    ("ProductionAnnual", &[R, F, Y], false),
    ("UseAnnual", &[R, F, Y], false),
    ("TradeAnnual", &[R, RR, F, Y], true),
    ("ProductionByTechnology", &[R, L, T, F, Y], false),
    ("UseByTechnology", &[R, L, T, F, Y], false),
    ("TotalAnnualTechnologyActivityByMode", &[R, T, M, Y], false),
    ("CapitalInvestment", &[R, T, Y], true),
    ("DiscountedCapitalInvestment", &[R, T, Y], true),
    ("SalvageValue", &[R, T, Y], true),
    ("DiscountedSalvageValue", &[R, T, Y], true),
    ("AnnualVariableOperatingCost", &[R, T, Y], true),
    ("AnnualFixedOperatingCost", &[R, T, Y], true),
    ("OperatingCost", &[R, T, Y], true),
    ("DiscountedOperatingCost", &[R, T, Y], true),
    ("AnnualTechnologyEmissionByMode", &[R, T, E, M, Y], true),
    ("AnnualTechnologyEmission", &[R, T, E, Y], true),
    (
        "AnnualTechnologyEmissionPenaltyByEmission",
        &[R, T, E, Y],
        true,
    ),
    ("AnnualTechnologyEmissionsPenalty", &[R, T, Y], true),
    ("DiscountedTechnologyEmissionsPenalty", &[R, T, Y], true),
    ("TotalDiscountedCostByTechnology", &[R, T, Y], true),
    ("TotalDiscountedCost", &[R, Y], true),
    ("ModelPeriodCostByRegion", &[R], true),
    ("TotalTechnologyAnnualActivity", &[R, T, Y], false),
    ("TotalTechnologyModelPeriodActivity", &[R, T], false),
    ("TotalCapacityInReserveMargin", &[R, Y], false),
    ("DemandNeedingReserveMargin", &[R, L, Y], false),
    ("ProductionByTechnologyAnnual", &[R, T, F, Y], false),
    ("TotalREProductionAnnual", &[R, Y], false),
    ("RETotalProductionOfTargetFuelAnnual", &[R, Y], false),
    ("UseByTechnologyAnnual", &[R, T, F, Y], false),
    ("AnnualEmissions", &[R, E, Y], true),
    ("ModelPeriodEmissions", &[R, E], true),
];

/// An entry of the table.
type Entry = (&'static str, &'static [u8], bool);

/// The kind of this number in the table.
fn look_up(table: &'static [Entry], kind: u8) -> &'static Entry
    requires listed { IsKind kind }
    requires tabled { map described_kind table.now ≡ kinds }
    ensures { described_kind result.now ≡ kind_at kind }
{
    &table[kind as usize - 1]
}

/// The kind of this number.
fn entry(kind: u8) -> &'static Entry
    requires { IsKind kind }
    ensures { described_kind result.now ≡ kind_at kind }
{
    look_up(&KINDS, kind)
}

/// Whether variables of this kind may be below 0.
pub fn is_free(kind: u8) -> bool
    requires { IsKind kind }
    ensures { result ≡ kind_is_free kind }
{
    entry(kind).2
}

/// The word with which the names of variables of this kind begin. No two kinds have the same word.
pub fn var_word(kind: u8) -> &'static str
    requires { IsKind kind }
    ensures word { result.now ≡ word_of_kind kind }
    ensures plain { IsPlain result.now }
    ensures apart { (other : ℕ) → IsKind other → word_of_kind other ≡ result.now → other ≡ kind }
{
    entry(kind).0
}

/// Whether variables of this kind have the subscript at this place among the fields of `Index`,
/// counted from 0.
pub fn var_has(kind: u8, place: u8) -> bool
    requires listed { IsKind kind }
    requires within { place < 8 }
    ensures { result ≡ kind_has kind place }
{
    entry(kind).1.contains(&place)
}

/// The places of the subscripts of this kind's variables among the fields of `Index`, in order.
pub(crate) fn var_subscripts(kind: u8) -> &'static [u8]
    requires { IsKind kind }
    ensures { result.now ≡ (kind_at kind).subscripts }
{
    entry(kind).1
}
