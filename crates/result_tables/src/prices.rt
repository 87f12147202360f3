//! The table of fuel prices.

ghost use Rattle.std.specs.Prelude.{◌≡◌, ◌++◌, ◌∷◌, [], IfErr, IfOk, None, OnOk, is_ok, map};
ghost use Rattle.std.specs.List.{AllByRecursion};
ghost use Rattle.exact_num.specs.Range.{all_fit};
ghost use Rattle.exact_num.specs.Steps.{first_wide};
ghost use Rattle.exact_num.specs.Value.{value_of};
ghost use Rattle.plan_files.specs.Listed.{IsListedRow, name_of_row};
ghost use Rattle.plan_files.specs.Texts.{records_text};
ghost use Rattle.row_core.specs.Equations.{IsEquation};
ghost use Rattle.row_core.specs.NameTexts.{RowNameIsWithin};
ghost use Rattle.result_tables.specs.Causes.{IsFirstStop};
ghost use Rattle.result_tables.specs.Prices.{price_step, price_steps, priced, production_entry};
ghost use Rattle.result_tables.specs.Tables.{price_table, table_text};

use crate::lines::push_heading;
use crate::records::{is_zero, push_amount_record};
use csv::ByteRecord;
use exact_num::{Frac, TooWide, mul};
use model_sets::Sets;
use plan_files::places_of_equation;
use row_core::equation_numbers::EBA11;
use row_core::kind_numbers::PRODUCTION;
use row_core::{Multipliers, Place, Row, Stopped, Var, fraction, number_of};
use std::alloc::{AllocError, Global};

/// Appends the table of prices. Stops at the first price whose product forms a number that doesn't fit.
pub(crate) fn push_price_table(
    alloc: Global,
    out: &mut Vec<u8>,
    sets: &Sets,
    rows: &[Row],
    multipliers: &Multipliers,
) -> Result<(), Stopped>
    requires { AllByRecursion (IsListedRow sets.now) (map name_of_row rows.now) }
    ensures text { OnOk result (out.new.items ≡ out.old.items ++ table_text (price_table sets.now rows.now multipliers.now)) }
    ensures fits { OnOk result (first_wide (price_steps rows.now multipliers.now) ≡ None) }
    ensures stopped { IfErr result (IsFirstStop (price_steps rows.now multipliers.now)) }
{
    push_heading(out, b"FuelPrice")?;
    push_prices(alloc, out, sets, rows, multipliers)
}

// Appends the records of prices.
fn push_prices(
    alloc: Global,
    out: &mut Vec<u8>,
    sets: &Sets,
    rows: &[Row],
    multipliers: &Multipliers,
) -> Result<(), Stopped>
    requires { AllByRecursion (IsListedRow sets.now) (map name_of_row rows.now) }
    ensures text { OnOk result (out.new.items ≡ out.old.items ++ records_text (price_table sets.now rows.now multipliers.now).records) }
    ensures fits { OnOk result (first_wide (price_steps rows.now multipliers.now) ≡ None) }
    ensures stopped { IfErr result (IsFirstStop (price_steps rows.now multipliers.now)) }
{
    for row in rows {
        push_price(alloc, out, sets, row, multipliers)?;
    }
    Ok(())
}

// Appends the record of a row, where it is the balance of a fuel and its price isn't 0.
fn push_price(
    alloc: Global,
    out: &mut Vec<u8>,
    sets: &Sets,
    row: &Row,
    multipliers: &Multipliers,
) -> Result<(), Stopped>
    requires listed { IsEquation row.now.name.eq }
    requires within { RowNameIsWithin sets.now row.now.name }
    ensures text { OnOk result (out.new.items ≡ out.old.items ++ records_text (price_table sets.now (row.now ∷ []) multipliers.now).records) }
    ensures fits { OnOk result (first_wide (price_steps (row.now ∷ []) multipliers.now) ≡ None) }
    ensures stopped { IfErr result (IsFirstStop (price_steps (row.now ∷ []) multipliers.now)) }
{
    if row.name.eq != EBA11 {
        return Ok(());
    }
    let Ok(price) = price_of(row, multipliers) else {
        return Err(Stopped::Width(Place::Price(row.name)));
    };
    if is_zero(price) {
        return Ok(());
    }
    push_amount_record(
        alloc,
        out,
        sets,
        ByteRecord::new(alloc),
        &places_of_equation(row.name.eq),
        row.name.index,
        price,
    )?;
    Ok(())
}

// The multiplier of a row times the number that the row has at its Production.
fn price_of(row: &Row, multipliers: &Multipliers) -> Result<Frac, TooWide>
    ensures refused { is_ok result ≡ all_fit (price_step multipliers.now row.now).formed }
    ensures value { IfOk result (λ price. value_of price ≡ priced multipliers.now row.now.name (production_entry row.now)) }
{
    let production = Var {
        kind: PRODUCTION,
        index: row.name.index,
    };
    let number = number_of(&row.entries, production);
    mul(multipliers.value(row.name), fraction(number))
}
