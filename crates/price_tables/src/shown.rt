//! Which rows are shown under which name, and of which variable each of them speaks.

ghost use Rattle.std.specs.Prelude.{◌≡◌, ◌<◌, IfSome};
ghost use Rattle.row_core.specs.Kinds.{IsKind};
ghost use Rattle.price_tables.specs.PricedRows.{fuel_kind, kept, limited_kind, price_table_named, priced_kind, priced_variable};

use row_core::equation_numbers::{
    AAC2, AAC3, E8, E9, EBA11, EBB4, NCC1, NCC2, RE4, RM3, TAC2, TAC3, TCC1, TCC2,
};
use row_core::kind_numbers::{
    ANNUAL_EMISSIONS, MODEL_PERIOD_EMISSIONS, NEW_CAPACITY, PRODUCTION, PRODUCTION_ANNUAL,
    TOTAL_CAPACITY_ANNUAL, TOTAL_CAPACITY_IN_RESERVE_MARGIN, TOTAL_RE_PRODUCTION_ANNUAL,
    TOTAL_TECHNOLOGY_ANNUAL_ACTIVITY, TOTAL_TECHNOLOGY_MODEL_PERIOD_ACTIVITY,
};
use row_core::{Index, Var, var_has};

/// A table of prices.
#[derive(Clone, Copy, PartialEq, Eq)]
pub enum PriceTable {
    /// What limits cost.
    Limits,
    /// What fuels cost.
    Fuels,
}

/// The table of this name: `limits` or `prices`. `None` for any other name.
pub fn price_table_named(name: &[u8]) -> Option<PriceTable>
    ensures { result ≡ price_table_named name.now }
{
    if name == b"limits".as_slice() {
        Some(PriceTable::Limits)
    } else if name == b"prices".as_slice() {
        Some(PriceTable::Fuels)
    } else {
        None
    }
}

/// The kind of variables of which a row of this equation speaks, where the table shows such rows.
pub(crate) fn priced_kind(table: PriceTable, eq: u8) -> Option<u8>
    ensures kind { result ≡ priced_kind table eq }
    ensures listed { IfSome result IsKind }
{
    match table {
        PriceTable::Limits => limited_kind(eq),
        PriceTable::Fuels => fuel_kind(eq),
    }
}

// What an equation limits.
fn limited_kind(eq: u8) -> Option<u8>
    ensures kind { result ≡ limited_kind eq }
    ensures listed { IfSome result IsKind }
{
    match eq {
        TCC1 | TCC2 => Some(TOTAL_CAPACITY_ANNUAL),
        NCC1 | NCC2 => Some(NEW_CAPACITY),
        AAC2 | AAC3 => Some(TOTAL_TECHNOLOGY_ANNUAL_ACTIVITY),
        TAC2 | TAC3 => Some(TOTAL_TECHNOLOGY_MODEL_PERIOD_ACTIVITY),
        RM3 => Some(TOTAL_CAPACITY_IN_RESERVE_MARGIN),
        RE4 => Some(TOTAL_RE_PRODUCTION_ANNUAL),
        E8 => Some(ANNUAL_EMISSIONS),
        E9 => Some(MODEL_PERIOD_EMISSIONS),
        _ => None,
    }
}

// What the balance of a fuel asks for.
fn fuel_kind(eq: u8) -> Option<u8>
    ensures kind { result ≡ fuel_kind eq }
    ensures listed { IfSome result IsKind }
{
    match eq {
        EBA11 => Some(PRODUCTION),
        EBB4 => Some(PRODUCTION_ANNUAL),
        _ => None,
    }
}

/// The variable of a kind at those of a row's subscripts that the kind has.
pub(crate) fn priced_variable(kind: u8, index: Index) -> Var
    requires { IsKind kind }
    ensures { result ≡ priced_variable kind index }
{
    let index = Index {
        region: kept(kind, 0, index.region),
        other: kept(kind, 1, index.other),
        slice: kept(kind, 2, index.slice),
        tech: kept(kind, 3, index.tech),
        fuel: kept(kind, 4, index.fuel),
        emission: kept(kind, 5, index.emission),
        mode: kept(kind, 6, index.mode),
        year: kept(kind, 7, index.year),
    };
    Var { kind, index }
}

// A subscript, where the kind has the one at this place.
fn kept(kind: u8, place: u8, position: u16) -> u16
    requires listed { IsKind kind }
    requires within { place < 8 }
    ensures { result ≡ kept kind place position }
{
    if var_has(kind, place) { position } else { 0 }
}
