// The text of a curve, and the status.
ghost use Rattle.std.specs.Prelude.{◌≡◌, ◌++◌, IfOk, OnOk, length, map};
ghost use Rattle.std.specs.List.{AllByRecursion, flat_map};
ghost use Rattle.exact_num.specs.Value.{value_of};
ghost use Rattle.emission_curve.specs.Ends.{point_seen};
ghost use Rattle.curve_command.specs.CurveTexts.{amount_text, curve_status, curve_text, end_text, first_stop, limit_line, slope_text};
ghost use Rattle.curve_command.specs.Outcomes.{EndIsWithin, IsPrintable, found_seen};

use crate::trials::Found;
use command_answers::{Status, Stop, push_trial_stop};
use emission_curve::Point;
use exact_num::{Frac, ratio};
use model_sets::Sets;
use scaled_decimals::{push_frac, push_places};
use std::alloc::{AllocError, Global};

/// One unit, in billionths.
const BILLION: i128 = 1_000_000_000;

/// A line for each limit, and the end.
pub fn curve_text(alloc: Global, sets: &Sets, all: &[Found]) -> Result<Vec<u8>, AllocError>
    requires { AllByRecursion (IsPrintable sets.now) all.now }
    ensures { IfOk result (λ text. text.items ≡ curve_text sets.now (map found_seen all.now)) }
{
    let mut out = Vec::new(alloc);
    push_limits(&mut out, sets, all)?;
    out.extend_from_slice(b"end\n")?;
    Ok(out)
}

// Appends the line of each limit.
fn push_limits(out: &mut Vec<u8>, sets: &Sets, all: &[Found]) -> Result<(), AllocError>
    requires { AllByRecursion (IsPrintable sets.now) all.now }
    ensures { OnOk result (out.new.items ≡ out.old.items ++ flat_map (limit_line sets.now) (map found_seen all.now)) }
{
    for found in all {
        push_limit(out, sets, *found)?;
    }
    Ok(())
}

// Appends the line of a limit.
fn push_limit(out: &mut Vec<u8>, sets: &Sets, found: Found) -> Result<(), AllocError>
    requires { IsPrintable sets.now found }
    ensures { OnOk result (out.new.items ≡ out.old.items ++ limit_line sets.now (found_seen found)) }
{
    out.extend_from_slice(b"limit ")?;
    push_frac(out, ratio(found.limit, BILLION))?;
    out.extend_from_slice(b" ")?;
    push_end(out, sets, found.point)?;
    out.extend_from_slice(b"\n")
}

// Appends what was found at a limit.
fn push_end(out: &mut Vec<u8>, sets: &Sets, point: Point) -> Result<(), AllocError>
    requires { EndIsWithin sets.now (point_seen point) }
    ensures { OnOk result (out.new.items ≡ out.old.items ++ end_text sets.now (point_seen point)) }
{
    match point {
        Point::Solved { cost, slope } => {
            push_cost(out, b"cost ", cost)?;
            push_slope(out, slope)
        }
        Point::Rounded { cost, bound, slope } => {
            push_cost(out, b"cost ", cost)?;
            push_cost(out, b" bound ", bound)?;
            push_slope(out, slope)
        }
        Point::Infeasible => out.extend_from_slice(b"infeasible"),
        Point::Unbounded => out.extend_from_slice(b"unbounded"),
        Point::Stopped(stop) => {
            out.extend_from_slice(b"uncertified ")?;
            push_trial_stop(out, stop, sets)
        }
    }
}

// Appends a word and a cost, as a fraction and rounded to six decimal places.
fn push_cost(out: &mut Vec<u8>, word: &[u8], cost: Frac) -> Result<(), AllocError>
    ensures { OnOk result (out.new.items ≡ out.old.items ++ (word.now ++ amount_text (value_of cost))) }
{
    out.extend_from_slice(word)?;
    push_frac(out, cost)?;
    out.extend_from_slice(b" ")?;
    push_places(out, cost)
}

// Appends a slope, as a fraction.
fn push_slope(out: &mut Vec<u8>, slope: Frac) -> Result<(), AllocError>
    ensures { OnOk result (out.new.items ≡ out.old.items ++ slope_text (value_of slope)) }
{
    out.extend_from_slice(b" slope ")?;
    push_frac(out, slope)
}

/// The status: of the first trial that stopped, if one did. Trials count from 1.
pub fn curve_status(all: &[Found]) -> Status
    ensures { result ≡ curve_status (map found_seen all.now) }
{
    match first_stop(all) {
        Some(stop) => Status::Uncertified(stop),
        None => Status::Done,
    }
}

// The first trial that stopped.
fn first_stop(all: &[Found]) -> Option<Stop>
    ensures { result ≡ first_stop 1 (map found_seen all.now) }
{
    let mut number: u64 = 1;
    for found in all {
        if let Point::Stopped(stop) = found.point {
            return Some(Stop::Trial(number, stop));
        }
        number += 1;
    }
    None
}
