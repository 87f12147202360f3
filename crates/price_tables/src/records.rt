//! The records of rows.

ghost use Rattle.std.specs.Prelude.{◌≡◌, ◌<◌, ◌++◌, ◌∷◌, [], OnOk, map};
ghost use Rattle.std.specs.List.{AllByRecursion};
ghost use Rattle.std.specs.Option.{option_map};
ghost use Rattle.csv.specs.Records.{fields_of, partial_of};
ghost use Rattle.csv.specs.Writing.{default_writer, row_text};
ghost use Rattle.exact_num.specs.Value.{value_of};
ghost use Rattle.plan_files.specs.Records.{subscript_field};
ghost use Rattle.plan_files.specs.Texts.{records_text};
ghost use Rattle.row_core.specs.Equations.{IsEquation, equation_has};
ghost use Rattle.row_core.specs.NameTexts.{RowNameIsWithin};
ghost use Rattle.row_core.specs.Numbers.{is_zero};
ghost use Rattle.price_tables.specs.PriceTables.{amount_text, amounts, name_fields, places_of, price_record, price_records};

use crate::amounts::{limit_of, percent_of, price_of};
use crate::shown::{PriceTable, priced_kind, priced_variable};
use csv::ByteRecord;
use exact_num::Frac;
use model_sets::Sets;
use plan_files::{Lines, push_field};
use plan_tables::{NumberForm, member_at, push_number};
use row_core::{Multipliers, Row, RowName, Var, row_has, row_word};
use std::alloc::{AllocError, Global};

/// What is shown of the rows: which table, and the form of its numbers.
#[derive(Clone, Copy)]
pub(crate) struct Shown {
    pub(crate) table: PriceTable,
    pub(crate) form: NumberForm,
}

/// Appends the record of a row, where the table shows it.
pub(crate) fn push_row(
    alloc: Global,
    lines: &mut Lines,
    sets: &Sets,
    row: &Row,
    multipliers: &Multipliers,
    shown: Shown,
) -> Result<(), AllocError>
    requires listed { IsEquation row.now.name.eq }
    requires within { RowNameIsWithin sets.now row.now.name }
    ensures { OnOk result (lines.new ≡ lines.old ++ records_text (price_records sets.now shown.form (row.now ∷ []) multipliers.now shown.table)) }
{
    let Some(kind) = priced_kind(shown.table, row.name.eq) else {
        return Ok(());
    };
    if is_zero(multipliers.value(row.name)) {
        return Ok(());
    }
    let variable = priced_variable(kind, row.name.index);
    push_priced(alloc, lines, sets, row, variable, multipliers, shown)
}

// Whether a value is 0.
fn is_zero(value: Frac) -> bool
    ensures { result ≡ is_zero (value_of value).top }
{
    value.num == 0
}

// Appends the record of a row and the variable of which it speaks.
fn push_priced(
    alloc: Global,
    lines: &mut Lines,
    sets: &Sets,
    row: &Row,
    variable: Var,
    multipliers: &Multipliers,
    shown: Shown,
) -> Result<(), AllocError>
    requires listed { IsEquation row.now.name.eq }
    requires within { RowNameIsWithin sets.now row.now.name }
    ensures { OnOk result (lines.new ≡ lines.old ++ row_text default_writer (price_record sets.now shown.form multipliers.now shown.table (row.now, variable))) }
{
    let mut fields = ByteRecord::new(alloc);
    push_name(&mut fields, sets, row.name, shown.table)?;
    push_amounts(alloc, &mut fields, row, variable, multipliers, shown)?;
    lines.push(&fields)
}

// Appends the word of a row's equation, and the fields of its subscripts.
fn push_name(
    fields: &mut ByteRecord,
    sets: &Sets,
    name: RowName,
    table: PriceTable,
) -> Result<(), AllocError>
    requires whole { partial_of fields.old ≡ [] }
    requires listed { IsEquation name.eq }
    requires within { RowNameIsWithin sets.now name }
    ensures fields { OnOk result (fields_of fields.new ≡ fields_of fields.old ++ name_fields sets.now table name) }
    ensures whole { OnOk result (partial_of fields.new ≡ []) }
{
    push_field(fields, row_word(name.eq).as_bytes())?;
    match table {
        PriceTable::Limits => push_subscripts(fields, sets, name, &[0, 2, 3, 5, 7]),
        PriceTable::Fuels => push_subscripts(fields, sets, name, &[0, 2, 4, 7]),
    }
}

// Appends the fields of the subscripts at these places.
fn push_subscripts(
    fields: &mut ByteRecord,
    sets: &Sets,
    name: RowName,
    places: &[u8],
) -> Result<(), AllocError>
    requires whole { partial_of fields.old ≡ [] }
    requires listed { IsEquation name.eq }
    requires within { RowNameIsWithin sets.now name }
    requires places { AllByRecursion (λ place. place < 8) places.now }
    ensures fields { OnOk result (fields_of fields.new ≡ fields_of fields.old ++ map (subscript_field sets.now (equation_has name.eq) name.index) places.now) }
    ensures whole { OnOk result (partial_of fields.new ≡ []) }
{
    for place in places {
        push_field(fields, subscript_field(sets, name, *place))?;
    }
    Ok(())
}

// The member that a subscript stands for, and nothing where the row's equation hasn't the one at this place.
fn subscript_field<'a>(sets: &'a Sets, name: RowName, place: u8) -> &'a [u8]
    requires listed { IsEquation name.eq }
    requires within { RowNameIsWithin sets.now name }
    requires place { place < 8 }
    ensures { result.now ≡ subscript_field sets.now (equation_has name.eq) name.index place }
{
    if row_has(name.eq, place) {
        member_at(sets, name.index, place)
    } else {
        b""
    }
}

// Appends the numbers of a row and the variable of which it speaks.
fn push_amounts(
    alloc: Global,
    fields: &mut ByteRecord,
    row: &Row,
    variable: Var,
    multipliers: &Multipliers,
    shown: Shown,
) -> Result<(), AllocError>
    requires whole { partial_of fields.old ≡ [] }
    ensures fields { OnOk result (fields_of fields.new ≡ fields_of fields.old ++ map (amount_text shown.form) (amounts shown.table multipliers.now row.now variable)) }
    ensures whole { OnOk result (partial_of fields.new ≡ []) }
{
    let price = price_of(row, multipliers, variable);
    match shown.table {
        PriceTable::Limits => {
            let limit = limit_of(row, variable);
            push_amount(alloc, fields, limit, shown.form)?;
            push_amount(alloc, fields, price, shown.form)?;
            push_amount(alloc, fields, percent_of(price, limit), shown.form)
        }
        PriceTable::Fuels => push_amount(alloc, fields, price, shown.form),
    }
}

// Appends a number, and an empty field where there is none.
fn push_amount(
    alloc: Global,
    fields: &mut ByteRecord,
    amount: Option<Frac>,
    form: NumberForm,
) -> Result<(), AllocError>
    requires whole { partial_of fields.old ≡ [] }
    ensures fields { OnOk result (fields_of fields.new ≡ fields_of fields.old ++ amount_text form (option_map value_of amount) ∷ []) }
    ensures whole { OnOk result (partial_of fields.new ≡ []) }
{
    match amount {
        Some(value) => push_number(alloc, fields, value, form),
        None => push_field(fields, b""),
    }
}
