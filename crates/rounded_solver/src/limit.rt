//! A guess by a limited number of pivots.

ghost use Rattle.std.specs.Prelude.{◌≤◌, IfOk, IfSome};

use call_stages::{Stage, Watcher};
use presolved_program::Stop;
use rounded_simplex::{Answer, Guess, LinearProgram, guess};
use std::alloc::Global;

/// A tenth of 2^-34: what the guess may miss a row by. The margins have twenty times that.
const TOLERANCE: f64 = 0.1 / 17179869184.0;

/// Of what the variables are with which a guess begins.
#[derive(Clone, Copy)]
pub(crate) enum Origin {
    /// Those of a basis at which another guess at nearly the same program ended.
    Guess,
    /// Those that given values tell, which may be of another model.
    Values,
}

/// A guess at a linear program by at most so many pivots, and by not many more than there are rows and columns. None where there seems to be
/// no plan.
pub(crate) fn limited_guess(
    alloc: Global,
    asked: &LinearProgram,
    pivots: u64,
    watcher: &mut dyn Watcher,
) -> Result<Option<Guess>, Stop>
    ensures { IfOk result (λ found. IfSome found (λ guess. guess.pivots ≤ pivots)) }
{
    guess_from(alloc, asked, &[], Origin::Guess, pivots, watcher)
}

/// Such a guess from these variables in the basis, where there are any.
pub(crate) fn guess_from(
    alloc: Global,
    asked: &LinearProgram,
    start: &[usize],
    origin: Origin,
    pivots: u64,
    watcher: &mut dyn Watcher,
) -> Result<Option<Guess>, Stop>
    ensures { IfOk result (λ found. IfSome found (λ guess. guess.pivots ≤ pivots)) }
{
    let most = pivot_limit(asked, start, origin, pivots);
    match guess(alloc, asked, start, TOLERANCE, most, watcher)? {
        Answer::Solved(found) => {
            watcher.see(Stage::Rounding);
            Ok(Some(found))
        }
        Answer::NoPlan => Ok(None),
        Answer::GivenUp => Err(Stop::GivenUp),
    }
}

/// Of so many pivots those that a guess may make, from these variables in the basis: at most ten for each row and column, and 1,000 more,
/// since a guess that takes as many goes in circles. Where given values tell the variables, one for every eight rows and columns, and 1,000
/// more: values that help save most pivots, and from wrong ones a guess may take longer than from nothing.
fn pivot_limit(asked: &LinearProgram, start: &[usize], origin: Origin, pivots: u64) -> u64
    ensures { result ≤ pivots }
{
    let size = asked
        .right_sides
        .len()
        .saturating_add(asked.raised_costs.len()) as u64;
    let most = match origin {
        Origin::Values if !start.is_empty() => size / 8,
        _ => size.saturating_mul(10),
    };
    pivots.min(most.saturating_add(1000))
}
