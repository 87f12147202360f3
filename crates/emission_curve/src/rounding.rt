//! One limit by the rounded method.

ghost use Rattle.std.specs.Prelude.{◌≡◌, IfOk, IfSome};
ghost use Rattle.row_problem.specs.Prelude.{IsLowest, value_of, AreVariablesOf};
ghost use Rattle.row_problem.specs.Problems.{IsProblem};
ghost use Rattle.certified_answers.specs.Answers.{IsFoundBy};
ghost use Rattle.emission_curve.specs.Ends.{HasLineBelow, point_seen};
ghost use Rattle.emission_curve.specs.Points.{IsPointOf, IsRoundedPoint};
ghost use Rattle.emission_curve.specs.Slopes.{slope_at};

use crate::point::Point;
use crate::slope::slope_of;
use call_stages::{Stage, Watcher};
use certified_answers::{Certified, Cost};
use exact_num::Frac;
use rounded_solver::{guessed, guessed_rows, starting_values};
use row_core::{Multipliers, Row, RowName, Stopped, Var};
use row_problem::{Problem, left_of};
use std::alloc::{AllocError, Global};

/// Looks for a point at the limit whose row has this name by the rounded method: a plan whose cost is above a proved bound by at most
/// so many millionths of the bound, or that no plan keeps the limit. Each guess may take so many pivots at most. `defs` says of each
/// row which variable it defines, if it defines one, and `vars` are the variables of the rows. The first guess begins from `start`, a value
/// for each variable in order, of any accuracy, where there are any; the values of a plan that is found are left there for the next limit.
///
/// When nothing is found isn't defined: then nothing is known of the limit. Refuses only out of memory.
pub fn round_limit(
    alloc: Global,
    rows: &[Row],
    defs: &[Option<Var>],
    vars: &[Var],
    limit: RowName,
    start: &mut Vec<f64>,
    ppm: u32,
    pivots: u64,
    watcher: &mut dyn Watcher,
) -> Result<Option<Point>, AllocError>
    requires problem { IsProblem rows.now defs.now vars.now }
    requires variables { AreVariablesOf rows.now vars.now }
    ensures worth { IfOk result (λ found. IfSome found (IsPointOf rows.now vars.now limit)) }
    ensures rounded { IfOk result (λ found. IfSome found (IsRoundedPoint ppm)) }
{
    match guess_limit(alloc, rows, defs, vars, start, ppm, pivots, watcher)? {
        Some(
            Certified::Optimal {
                plan,
                multipliers,
                cost,
                bound,
                ..
            },
        ) => {
            *start = starting_values(alloc, &plan, vars)?;
            Ok(line(rows, limit, &multipliers, cost, bound))
        }
        Some(Certified::Infeasible { .. }) => Ok(Some(Point::Infeasible)),
        // A guess never finds that the cost has no bound.
        Some(Certified::Unbounded { .. }) => Ok(None),
        None => Ok(None),
    }
}

/// What guesses of the rows alone find; where they find nothing, those of what is left of the rows, if every number of their elimination fits.
fn guess_limit(
    alloc: Global,
    rows: &[Row],
    defs: &[Option<Var>],
    vars: &[Var],
    start: &[f64],
    ppm: u32,
    pivots: u64,
    watcher: &mut dyn Watcher,
) -> Result<Option<Certified>, AllocError>
    requires problem { IsProblem rows.now defs.now vars.now }
    requires variables { AreVariablesOf rows.now vars.now }
    ensures { IfOk result (λ found. IfSome found (IsFoundBy rows.now vars.now ppm pivots)) }
{
    let begin = if start.is_empty() { None } else { Some(start) };
    if let Some(found) = guessed_rows(alloc, rows, defs, vars, begin, ppm, pivots, watcher)? {
        return Ok(Some(found));
    }
    watcher.see(Stage::Elimination);
    match left_of(alloc, rows, defs, vars) {
        Ok(reduced) => {
            let problem = Problem {
                rows,
                defs,
                vars,
                reduced: &reduced,
                cost: Cost::Model,
            };
            guessed(alloc, &problem, ppm, pivots, watcher)
        }
        Err(Stopped::Width(_)) => Ok(None),
        Err(Stopped::Memory) => Err(AllocError),
    }
}

/// The point of a cost, and of the multipliers that prove the bound below it. A slope that doesn't fit makes none.
fn line(
    rows: &[Row],
    limit: RowName,
    multipliers: &Multipliers,
    cost: Frac,
    bound: Frac,
) -> Option<Point>
    ensures line { IfSome result (λ point. point_seen point
        ≡ HasLineBelow (value_of cost) (value_of bound) (slope_at rows.now multipliers.now limit)) }
    ensures lowest { IfSome result (λ point. IsLowest (slope_at rows.now multipliers.now limit)) }
{
    match slope_of(rows, limit, multipliers) {
        Ok(slope) => Some(Point::Rounded { cost, bound, slope }),
        Err(_) => None,
    }
}
