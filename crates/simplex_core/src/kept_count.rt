//! How many pivots of phase 1 are made by the kept rows.

ghost use Rattle.std.specs.Prelude.{◌≤◌, IfSome};
ghost use Rattle.written_method.specs.Ready.{IsReady};

use crate::kept_rounds::{KeptEnd, kept_phase};
use crate::progress::{Phase, Progress};
use std::alloc::Global;
use written_method::Reduced;

/// How many pivots of phase 1 `solve` makes by the kept rows, with so many pivots at most: those before phase 2, or all where the
/// method ends in phase 1. `None` where there is no phase 1, or where its pivots are made by the plain rounds: because it isn't sure
/// by the kept rows that every number fits, or because memory runs out.
///
/// The answer of `solve` doesn't depend on it; how long it takes does.
pub fn kept_pivots(alloc: Global, reduced: &Reduced, pivots: u64) -> Option<u64>
    requires { IsReady reduced.now }
    ensures { IfSome result (λ n. n ≤ pivots) }
{
    let Ok(first) = Progress::begin(alloc, reduced) else {
        return None;
    };
    let Phase::Start = first.phase else {
        return None;
    };
    match kept_phase(alloc, reduced, first, pivots) {
        KeptEnd::Second(last) => Some(last.tableau.pivots()),
        KeptEnd::Over(finished) => Some(finished.last.tableau.pivots()),
        KeptEnd::Unsure => None,
        KeptEnd::Memory => None,
    }
}
