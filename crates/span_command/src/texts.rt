// The text of a span.
ghost use Rattle.std.specs.Prelude.{◌≡◌, ◌++◌, IfOk, IfSome, OnOk, Some};
ghost use Rattle.std.specs.List.{AllByRecursion};
ghost use Rattle.exact_num.specs.Value.{value_of};
ghost use Rattle.result_tables.specs.Lines.{amount_line};
ghost use Rattle.command_answers.specs.PlacesWithin.{IsVariableOfSets};
ghost use Rattle.span_command.specs.Outcomes.{closing, high_line, near_text, span_text};
ghost use Rattle.span_command.specs.SpanTexts.{chosen_table, gap_line};

use command_answers::push_with_number;
use exact_num::Frac;
use model_sets::Sets;
use result_tables::push_chosen_values;
use row_core::Plan;
use scaled_decimals::{push_frac, push_places};
use span_finder::{RoundedSpan, Span};
use std::alloc::{AllocError, Global};

/// The text of a span near a least cost, within a limit.
pub fn span_text(
    alloc: Global,
    sets: &Sets,
    cost: Frac,
    limit: Frac,
    span: &Span,
) -> Result<Vec<u8>, AllocError>
    requires low { AllByRecursion (λ e. IsVariableOfSets sets.now e.0) span.now.low_plan }
    requires high { AllByRecursion (λ e. IsVariableOfSets sets.now e.0) span.now.high_plan }
    requires direction { IfSome span.now.direction (AllByRecursion (λ e. IsVariableOfSets sets.now e.0)) }
    ensures { IfOk result (λ text. text.items ≡ span_text sets.now (value_of cost) (value_of limit) span.now) }
{
    let mut out = Vec::from_slice(alloc, b"status solved\n")?;
    push_amount(&mut out, b"cost", cost)?;
    push_amount(&mut out, b"limit", limit)?;
    push_amount(&mut out, b"low", span.low)?;
    push_high(&mut out, span.high)?;
    push_plan(alloc, &mut out, b"Low", sets, &span.low_plan)?;
    push_plan(alloc, &mut out, b"High", sets, &span.high_plan)?;
    push_closing(alloc, &mut out, sets, &span.direction)?;
    Ok(out)
}

/// The text of ends of the rounded method, by a gap and within a limit near a bound.
pub fn near_text(
    alloc: Global,
    sets: &Sets,
    cost: Frac,
    bound: Frac,
    gap: u32,
    limit: Frac,
    span: &RoundedSpan,
) -> Result<Vec<u8>, AllocError>
    requires low { AllByRecursion (λ e. IsVariableOfSets sets.now e.0) span.now.low_plan }
    requires high { AllByRecursion (λ e. IsVariableOfSets sets.now e.0) span.now.high_plan }
    ensures { IfOk result (λ text. text.items ≡ near_text sets.now (value_of cost) (value_of bound) gap (value_of limit) span.now) }
{
    let mut out = Vec::from_slice(alloc, b"status solved\n")?;
    push_amount(&mut out, b"cost", cost)?;
    push_amount(&mut out, b"bound", bound)?;
    push_gap(&mut out, gap)?;
    push_amount(&mut out, b"limit", limit)?;
    push_amount(&mut out, b"low", span.low)?;
    push_amount(&mut out, b"high", span.high)?;
    push_plan(alloc, &mut out, b"Low", sets, &span.low_plan)?;
    push_plan(alloc, &mut out, b"High", sets, &span.high_plan)?;
    out.extend_from_slice(b"end\n")?;
    Ok(out)
}

// Appends a line of a word and an amount, as a fraction and rounded to six decimal places.
fn push_amount(out: &mut Vec<u8>, word: &[u8], amount: Frac) -> Result<(), AllocError>
    ensures { OnOk result (out.new.items ≡ out.old.items ++ amount_line word.now (value_of amount)) }
{
    out.extend_from_slice(word)?;
    out.extend_from_slice(b" ")?;
    push_frac(out, amount)?;
    out.extend_from_slice(b" ")?;
    push_places(out, amount)?;
    out.extend_from_slice(b"\n")
}

// Appends the line of the gap.
fn push_gap(out: &mut Vec<u8>, gap: u32) -> Result<(), AllocError>
    ensures { OnOk result (out.new.items ≡ out.old.items ++ gap_line gap) }
{
    push_with_number(out, b"gap ", u64::from(gap))?;
    out.extend_from_slice(b"\n")
}

// Appends the line of the greatest value.
fn push_high(out: &mut Vec<u8>, high: Option<Frac>) -> Result<(), AllocError>
    ensures { OnOk result (out.new.items ≡ out.old.items ++ high_line high) }
{
    match high {
        Some(high) => push_amount(out, b"high", high),
        None => out.extend_from_slice(b"high none\n"),
    }
}

// Appends the table of a plan or a direction.
fn push_plan(
    alloc: Global,
    out: &mut Vec<u8>,
    name: &[u8],
    sets: &Sets,
    plan: &Plan,
) -> Result<(), AllocError>
    requires { AllByRecursion (λ e. IsVariableOfSets sets.now e.0) plan.now }
    ensures { OnOk result (out.new.items ≡ out.old.items ++ chosen_table sets.now name.now plan.now) }
{
    out.extend_from_slice(b"table ")?;
    out.extend_from_slice(name)?;
    out.extend_from_slice(b"\n")?;
    push_chosen_values(alloc, out, sets, plan)
}

// Appends the table of the direction, where there is one, and the last line.
fn push_closing(
    alloc: Global,
    out: &mut Vec<u8>,
    sets: &Sets,
    direction: &Option<Plan>,
) -> Result<(), AllocError>
    requires { IfSome direction.now (AllByRecursion (λ e. IsVariableOfSets sets.now e.0)) }
    ensures { OnOk result (out.new.items ≡ out.old.items ++ closing sets.now direction.now) }
{
    match direction {
        Some(direction) => push_last(alloc, out, sets, direction),
        None => out.extend_from_slice(b"end\n"),
    }
}

// Appends the table of a direction, and the last line.
fn push_last(
    alloc: Global,
    out: &mut Vec<u8>,
    sets: &Sets,
    direction: &Plan,
) -> Result<(), AllocError>
    requires { AllByRecursion (λ e. IsVariableOfSets sets.now e.0) direction.now }
    ensures { OnOk result (out.new.items ≡ out.old.items ++ closing sets.now (Some direction.now)) }
{
    push_plan(alloc, out, b"Direction", sets, direction)?;
    out.extend_from_slice(b"end\n")
}
