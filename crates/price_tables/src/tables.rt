//! The text of a table of prices.

ghost use Rattle.std.specs.Prelude.{◌≡◌, ◌++◌, IfOk, OnOk, map};
ghost use Rattle.std.specs.List.{AllByRecursion};
ghost use Rattle.plan_files.specs.Listed.{IsListedRow, name_of_row};
ghost use Rattle.plan_files.specs.Texts.{records_text};
ghost use Rattle.price_tables.specs.PriceTables.{header_line, price_records, price_text};

use crate::records::{Shown, push_row};
use crate::shown::PriceTable;
use model_sets::Sets;
use plan_files::Lines;
use plan_tables::NumberForm;
use row_core::{Multipliers, Row};
use std::alloc::{AllocError, Global};

/// A table of prices as CSV text: a header, and a record for each row that the table shows and whose multiplier isn't 0, in the
/// order of the rows. It has the word of the row's equation, the members of its subscripts, and as decimals or fractions the price,
/// in the cost's unit for one of the data's; of a limit before it the limit, in the data's unit, and after it what one per cent more
/// of the limit saves at most. A field is empty where the row hasn't the subscript or the limit, or a number doesn't fit 128 bits.
/// Refuses where memory runs out.
pub fn price_text(
    alloc: Global,
    sets: &Sets,
    rows: &[Row],
    multipliers: &Multipliers,
    table: PriceTable,
    form: NumberForm,
) -> Result<Vec<u8>, AllocError>
    requires { AllByRecursion (IsListedRow sets.now) (map name_of_row rows.now) }
    ensures { IfOk result (λ text. text.items ≡ price_text sets.now form rows.now multipliers.now table) }
{
    let mut out = Vec::from_slice(alloc, header_line(table))?;
    let shown = Shown { table, form };
    push_rows(alloc, &mut out, sets, rows, multipliers, shown)?;
    Ok(out)
}

// The first line of a table.
fn header_line(table: PriceTable) -> &'static [u8]
    ensures { result.now ≡ header_line table }
{
    match table {
        PriceTable::Limits => {
            b"EQUATION,REGION,TIMESLICE,TECHNOLOGY,EMISSION,YEAR,LIMIT,PRICE,PERCENT\n"
        }
        PriceTable::Fuels => b"EQUATION,REGION,TIMESLICE,FUEL,YEAR,PRICE\n",
    }
}

// Appends the records of the rows that the table shows.
fn push_rows(
    alloc: Global,
    out: &mut Vec<u8>,
    sets: &Sets,
    rows: &[Row],
    multipliers: &Multipliers,
    shown: Shown,
) -> Result<(), AllocError>
    requires { AllByRecursion (IsListedRow sets.now) (map name_of_row rows.now) }
    ensures { OnOk result (out.new.items ≡ out.old.items ++ records_text (price_records sets.now shown.form rows.now multipliers.now shown.table)) }
{
    let mut lines = Lines::new(alloc);
    for row in rows {
        push_row(alloc, &mut lines, sets, row, multipliers, shown)?;
    }
    out.extend_from_slice(&lines.into_text()?)
}
