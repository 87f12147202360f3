//! Which variable an equation defines.

ghost use Rattle.std.specs.Prelude.{◌≡◌, ◌<◌, slice_index_or};
ghost use Rattle.row_core.specs.Equations.{IsEquation};
ghost use Rattle.named_equations.specs.Instances.{subscripts_of, variable_of};
ghost use Rattle.named_equations.specs.Table.{other_trade};
ghost use Rattle.row_book.specs.Kinds.{defined_kinds, kept, tidied};

use row_core::equation_numbers::{E9, EQ_SPECIFIED_DEMAND, EQUATION_COUNT};
use row_core::{Index, RowName, Var, kind_numbers as kinds, row_has};

/// Stands for the kind of an equation that defines nothing.
const NONE: u8 = 0;

/// The kind of the variables that each equation defines, by the equation's number. There is none of number 0.
static DEFINED_KINDS: [u8; EQUATION_COUNT + 1] = [
    NONE,
    kinds::RATE_OF_DEMAND,
    kinds::ACCUMULATED_NEW_CAPACITY,
    kinds::TOTAL_CAPACITY_ANNUAL,
    kinds::RATE_OF_TOTAL_ACTIVITY,
    NONE,
    NONE,
    kinds::RATE_OF_PRODUCTION_BY_TECHNOLOGY_BY_MODE,
    kinds::RATE_OF_PRODUCTION_BY_TECHNOLOGY,
    kinds::RATE_OF_PRODUCTION,
    kinds::RATE_OF_USE_BY_TECHNOLOGY_BY_MODE,
    kinds::RATE_OF_USE_BY_TECHNOLOGY,
    kinds::RATE_OF_USE,
    kinds::PRODUCTION,
    kinds::USE,
    kinds::DEMAND,
    kinds::TRADE,
    NONE,
    kinds::PRODUCTION_ANNUAL,
    kinds::USE_ANNUAL,
    kinds::TRADE_ANNUAL,
    NONE,
    kinds::PRODUCTION_BY_TECHNOLOGY,
    kinds::USE_BY_TECHNOLOGY,
    kinds::TOTAL_ANNUAL_TECHNOLOGY_ACTIVITY_BY_MODE,
    kinds::CAPITAL_INVESTMENT,
    kinds::DISCOUNTED_CAPITAL_INVESTMENT,
    kinds::SALVAGE_VALUE,
    kinds::SALVAGE_VALUE,
    kinds::SALVAGE_VALUE,
    kinds::DISCOUNTED_SALVAGE_VALUE,
    kinds::ANNUAL_VARIABLE_OPERATING_COST,
    kinds::ANNUAL_FIXED_OPERATING_COST,
    kinds::OPERATING_COST,
    kinds::DISCOUNTED_OPERATING_COST,
    kinds::ANNUAL_TECHNOLOGY_EMISSION_BY_MODE,
    kinds::ANNUAL_TECHNOLOGY_EMISSION,
    kinds::ANNUAL_TECHNOLOGY_EMISSION_PENALTY_BY_EMISSION,
    kinds::ANNUAL_TECHNOLOGY_EMISSIONS_PENALTY,
    kinds::DISCOUNTED_TECHNOLOGY_EMISSIONS_PENALTY,
    kinds::TOTAL_DISCOUNTED_COST_BY_TECHNOLOGY,
    kinds::TOTAL_DISCOUNTED_COST,
    kinds::MODEL_PERIOD_COST_BY_REGION,
    NONE,
    NONE,
    NONE,
    NONE,
    kinds::TOTAL_TECHNOLOGY_ANNUAL_ACTIVITY,
    NONE,
    NONE,
    kinds::TOTAL_TECHNOLOGY_MODEL_PERIOD_ACTIVITY,
    NONE,
    NONE,
    kinds::TOTAL_CAPACITY_IN_RESERVE_MARGIN,
    kinds::DEMAND_NEEDING_RESERVE_MARGIN,
    NONE,
    kinds::PRODUCTION_BY_TECHNOLOGY_ANNUAL,
    kinds::TOTAL_RE_PRODUCTION_ANNUAL,
    kinds::RE_TOTAL_PRODUCTION_OF_TARGET_FUEL_ANNUAL,
    NONE,
    kinds::USE_BY_TECHNOLOGY_ANNUAL,
    kinds::ANNUAL_EMISSIONS,
    kinds::MODEL_PERIOD_EMISSIONS,
    NONE,
    NONE,
];

/// The kind of the variables that the equation defines, or `NONE`.
fn defined_kind(eq: u8) -> u8
    requires { IsEquation eq }
    ensures { result ≡ slice_index_or defined_kinds eq 0 }
{
    DEFINED_KINDS[usize::from(eq)]
}

/// The subscript if the equation has it at this place, and else 0.
fn kept(eq: u8, place: u8, position: u16) -> u16
    requires equation { IsEquation eq }
    requires within { place < 8 }
    ensures { result ≡ kept (subscripts_of eq) place position }
{
    if row_has(eq, place) { position } else { 0 }
}

/// The index with 0 for the subscripts that the equation doesn't have.
fn tidied(eq: u8, index: Index) -> Index
    requires { IsEquation eq }
    ensures { result ≡ tidied (subscripts_of eq) index }
{
    Index {
        region: kept(eq, 0, index.region),
        other: kept(eq, 1, index.other),
        slice: kept(eq, 2, index.slice),
        tech: kept(eq, 3, index.tech),
        fuel: kept(eq, 4, index.fuel),
        emission: kept(eq, 5, index.emission),
        mode: kept(eq, 6, index.mode),
        year: kept(eq, 7, index.year),
    }
}

/// The trade that an exchange defines: that from `rr` to `r`, where `r` is before `rr` or is `rr`.
fn other_trade(index: Index) -> Option<Var>
    ensures { result ≡ other_trade index }
{
    if index.region > index.other {
        return None;
    }
    Some(Var {
        kind: kinds::TRADE,
        index: Index {
            region: index.other,
            other: index.region,
            slice: index.slice,
            tech: 0,
            fuel: index.fuel,
            emission: 0,
            mode: 0,
            year: index.year,
        },
    })
}

/// The variable that the equation of this name defines, if any.
pub(crate) fn defined_variable(name: RowName) -> Option<Var>
    ensures { result ≡ variable_of name }
{
    if name.eq < EQ_SPECIFIED_DEMAND || name.eq > E9 {
        return None;
    }
    match defined_kind(name.eq) {
        NONE => None,
        kinds::TRADE => other_trade(name.index),
        kind => Some(Var {
            kind,
            index: tidied(name.eq, name.index),
        }),
    }
}
