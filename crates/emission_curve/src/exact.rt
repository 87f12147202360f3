//! One limit by the exact method.

ghost use Rattle.std.specs.Prelude.{◌≡◌, IfOk};
ghost use Rattle.row_problem.specs.Prelude.{value_of, AreVariablesOf};
ghost use Rattle.row_problem.specs.Problems.{IsProblem};
ghost use Rattle.emission_curve.specs.Ends.{optimum_end, point_end, point_seen};
ghost use Rattle.emission_curve.specs.Points.{IsPointOf};

use crate::point::Point;
use crate::slope::slope_of;
use certified_answers::{Certified, NoAnswer};
use exact_num::Frac;
use exact_solver::solve_rows;
use row_core::{Multipliers, Place, Row, RowName, Var};
use simplex_core::TrialStop;
use std::alloc::{AllocError, Global};

/// Solves rows, with so many pivots at most, for the curve of their cost against the limit whose row has this name: a row of E9, the
/// limit on the emissions of a region in the model period (Howells et al., "OSeMOSYS: The Open Source Energy Modeling System", Energy
/// Policy 39, 2011). `defs` says of each row which variable it defines, if it defines one, and `vars` are the variables of the rows.
///
/// Where no row has the name, the slope is 0. `Budget` comes exactly where a pivot is due after the last that may be made, `Width`
/// exactly at the place of the first step of the exact method that forms a number that doesn't fit, and last at the price of the
/// limit, for the slope. Refuses only out of memory.
pub fn solve_limit(
    alloc: Global,
    rows: &[Row],
    defs: &[Option<Var>],
    vars: &[Var],
    limit: RowName,
    pivots: u64,
) -> Result<Point, AllocError>
    requires problem { IsProblem rows.now defs.now vars.now }
    requires variables { AreVariablesOf rows.now vars.now }
    ensures end { IfOk result (λ point. point_seen point ≡ point_end rows.now defs.now vars.now limit pivots) }
    ensures worth { IfOk result (IsPointOf rows.now vars.now limit) }
{
    match solve_rows(alloc, rows, defs, vars, pivots) {
        Ok(
            Certified::Optimal {
                multipliers,
                cost,
                ..
            },
        ) => Ok(optimum(rows, limit, &multipliers, cost)),
        Ok(Certified::Infeasible { .. }) => Ok(Point::Infeasible),
        Ok(Certified::Unbounded { .. }) => Ok(Point::Unbounded),
        Err(NoAnswer::Budget) => Ok(Point::Stopped(TrialStop::Budget(pivots))),
        Err(NoAnswer::Width(place)) => Ok(Point::Stopped(TrialStop::Width(place))),
        Err(NoAnswer::Memory) => Err(AllocError),
        // The exact method always finds an end.
        Err(NoAnswer::Nothing) => unreachable!(),
    }
}

/// The point of the least cost and of the multipliers that prove it.
fn optimum(rows: &[Row], limit: RowName, multipliers: &Multipliers, cost: Frac) -> Point
    ensures { point_seen result ≡ optimum_end rows.now limit multipliers.now (value_of cost) }
{
    match slope_of(rows, limit, multipliers) {
        Ok(slope) => Point::Solved { cost, slope },
        Err(_) => Point::Stopped(TrialStop::Width(Place::Price(limit))),
    }
}
