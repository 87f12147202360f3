//! The table of what the money of each year is worth.

ghost use Rattle.std.specs.Prelude.{◌≡◌, ◌++◌, ◌∷◌, [], ◌≤◌, ◌<◌, ◌^◌, ℕ, IfOk, OnOk};
ghost use Rattle.csv.specs.Writing.{default_writer, row_text};
ghost use Rattle.discount_factors.specs.Factors.{IsPlaces, unit_of};
ghost use Rattle.named_equations.specs.Positions.{years_in_all};
ghost use Rattle.named_equations.specs.Within.{IsRegion, IsYear};
ghost use Rattle.named_equations.specs.WrittenFactors.{rate_of};
ghost use Rattle.plan_files.specs.Texts.{records_text};
ghost use Rattle.data_tables.specs.WorthTables.{factor_text, last_digits, region_records, worth_of, worth_text};

use csv::ByteRecord;
use discount_factors::Factors;
use equation_parts::whole_numbers::discount_rate;
use equation_parts::years::{years_in_all, years_since_first};
use exact_num::ratio;
use itoa::Buffer;
use model_sets::set_numbers::{REGION, YEAR};
use param_tables::ModelData;
use plan_files::{Lines, push_field};
use plan_tables::NumberForm;
use scaled_decimals::push_frac;
use std::alloc::{AllocError, Global};

/// What 1 that is due in the middle of each year is worth at the beginning of the first, a record for each region and year. As decimals
/// the factors have all their places, 6 or 9.
pub(crate) fn worth_text(
    alloc: Global,
    model: &ModelData,
    places: u8,
    form: NumberForm,
) -> Result<Vec<u8>, AllocError>
    requires { IsPlaces places }
    ensures { IfOk result (λ text. text.items ≡ worth_text form places model.now.facts) }
{
    let mut lines = Lines::new(alloc);
    push_record(alloc, &mut lines, b"REGION", b"YEAR", b"VALUE")?;
    for region in 0..model.sets().count(REGION) {
        push_region(alloc, &mut lines, model, region, places, form)?;
    }
    lines.into_text()
}

// Appends a record of a region, a year and a value.
fn push_record(
    alloc: Global,
    lines: &mut Lines,
    region: &[u8],
    year: &[u8],
    value: &[u8],
) -> Result<(), AllocError>
    ensures { OnOk result (lines.new ≡ lines.old ++ row_text default_writer (region.now ∷ year.now ∷ value.now ∷ [])) }
{
    let mut fields = ByteRecord::new(alloc);
    push_field(&mut fields, region)?;
    push_field(&mut fields, year)?;
    push_field(&mut fields, value)?;
    lines.push(&fields)
}

// Appends the records of a region.
fn push_region(
    alloc: Global,
    lines: &mut Lines,
    model: &ModelData,
    region: u16,
    places: u8,
    form: NumberForm,
) -> Result<(), AllocError>
    requires places { IsPlaces places }
    requires region { IsRegion model.now.facts region }
    ensures { OnOk result (lines.new ≡ lines.old ++ records_text (region_records form places model.now.facts region)) }
{
    let count = model.sets().count(YEAR);
    if count == 0 {
        return Ok(());
    }
    let rate = discount_rate(model, region);
    let factors = Factors::new(alloc, rate, years_in_all(model), 0, places)?;
    for year in 0..count {
        let worth = factor_text(alloc, form, places, worth_of(model, &factors, year))?;
        let name = model.sets().name_of(REGION, region);
        push_record(alloc, lines, name, model.sets().name_of(YEAR, year), &worth)?;
    }
    Ok(())
}

// The factor of a year, of a region whose factors these are.
fn worth_of(model: &ModelData, factors: &Factors, year: u16) -> u64
    requires year { IsYear model.now.facts year }
    requires span { years_in_all model.now.facts ≤ factors.now.span }
    requires places { IsPlaces factors.now.places }
    ensures { (r : ℕ) → factors.now.rate ≡ rate_of model.now.facts r → result ≡ worth_of factors.now.places model.now.facts r year }
{
    factors.operating(years_since_first(model, year)) as u64
}

// A factor of so many decimal places, with all of them, or as a fraction.
fn factor_text(
    alloc: Global,
    form: NumberForm,
    places: u8,
    factor: u64,
) -> Result<Vec<u8>, AllocError>
    requires places { IsPlaces places }
    ensures { IfOk result (λ text. text.items ≡ factor_text form places factor) }
{
    let unit = unit_of(places);
    let mut text = Vec::new(alloc);
    match form {
        NumberForm::Decimals => {
            let mut whole = Buffer::new();
            text.extend_from_slice(whole.format(factor / unit).as_bytes())?;
            text.extend_from_slice(b".")?;
            push_digits(&mut text, places, factor)?;
        }
        NumberForm::Fractions => push_frac(&mut text, ratio(i128::from(factor), i128::from(unit)))?,
    }
    Ok(text)
}

// What 1 is written as.
fn unit_of(places: u8) -> u64
    requires { IsPlaces places }
    ensures unit { result ≡ unit_of places }
    ensures some { 0 < result }
    ensures most { result ≤ 10 ^ 9 }
{
    if places == 6 {
        1_000_000
    } else {
        1_000_000_000
    }
}

// Appends the last so many decimal digits of a number.
fn push_digits(out: &mut Vec<u8>, places: u8, n: u64) -> Result<(), AllocError>
    requires { places ≤ 9 }
    ensures { OnOk result (out.new.items ≡ out.old.items ++ last_digits places n) }
{
    if places == 0 {
        return Ok(());
    }
    let divisor = 10u64.pow(u32::from(places - 1));
    out.push(b'0' + (n / divisor % 10) as u8)?;
    push_digits(out, places - 1, n)
}
