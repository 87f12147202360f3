//! The rounds of phase 1 with the pivot of x0 kept back.

ghost use Rattle.std.specs.Prelude.{◌≡◌, ◌≤◌, ◌<◌, ◌^◌, suc, true, length, IfOk, ℕ};
ghost use Rattle.written_method.specs.FirstTableau.{first_state};
ghost use Rattle.written_method.specs.Programs.{program_of};
ghost use Rattle.written_method.specs.Ready.{IsReady};
ghost use Rattle.written_method.specs.Rounds.{Start};
ghost use Rattle.simplex_core.specs.Kept.{IsKept};
ghost use Rattle.simplex_core.specs.KeptRounds.{shown_state};
ghost use Rattle.simplex_core.specs.KeptEnds.{IsKeptEnd, IsLastEnd};
ghost use Rattle.simplex_core.specs.KeptViews.{IsPlain, kept_state, x0_in};
ghost use Rattle.simplex_core.specs.Views.{state_seen};

use crate::choice::least_right;
use crate::kept_due::{KeptDue, next_due};
use crate::progress::{Phase, Progress};
use crate::running::{Finish, Finished};
use int_tableau::Tableau;
use row_core::Stopped;
use std::alloc::Global;
use written_method::Reduced;

/// How phase 1 ends.
#[derive(Drop)]
pub(crate) enum KeptEnd {
    /// Phase 2 begins.
    Second(Progress),
    /// The method ends.
    Over(Finished),
    /// A number may not fit: the work begins anew by the plain rounds.
    Unsure,
    /// Memory ran out.
    Memory,
}

/// The method's state that a kept tableau shows: the pivot that was kept back is made.
fn method_state(
    alloc: Global,
    tableau: Tableau,
    home: usize,
    x0: usize,
    degenerate: u64,
) -> Result<Progress, Stopped>
    requires kept { IsKept home x0 tableau.tableau }
    requires last { x0 ≡ x0_in tableau.tableau }
    requires countable { suc tableau.pivots < 2 ^ 64 }
    ensures { IfOk result (λ s. state_seen s ≡ shown_state (kept_state tableau.tableau home x0 (suc tableau.pivots) degenerate)) }
{
    let tableau = tableau.pivot(alloc, home, x0)?;
    Ok(Progress {
        tableau,
        phase: Phase::One,
        degenerate,
    })
}

/// The end of the method in phase 1.
fn over(
    alloc: Global,
    tableau: Tableau,
    home: usize,
    x0: usize,
    degenerate: u64,
    finish: Finish,
) -> KeptEnd
    requires kept { IsKept home x0 tableau.tableau }
    requires last { x0 ≡ x0_in tableau.tableau }
    requires countable { suc tableau.pivots < 2 ^ 64 }
    ensures { IsLastEnd tableau home degenerate finish result }
{
    match method_state(alloc, tableau, home, x0, degenerate) {
        Ok(last) => KeptEnd::Over(Finished { last, finish }),
        Err(Stopped::Width(_)) => KeptEnd::Unsure,
        Err(Stopped::Memory) => KeptEnd::Memory,
    }
}

/// Rounds of phase 1 up to so many pivots, from the kept tableau after the first, which is kept back.
fn kept_rounds(alloc: Global, tableau: Tableau, home: usize, pivots: u64) -> KeptEnd
    requires kept { IsKept home (x0_in tableau.tableau) tableau.tableau }
    requires some { 1 ≤ pivots }
    requires none { tableau.pivots ≡ 0 }
    ensures { IsKeptEnd pivots (shown_state (kept_state tableau.tableau home (x0_in tableau.tableau) 1 0)) result }
{
    let x0 = tableau.columns() - 1;
    let mut tableau = tableau;
    let mut degenerate = 0;
    for made in 1..pivots {
        match next_due(&tableau, home, x0, degenerate) {
            KeptDue::Unsure => return KeptEnd::Unsure,
            KeptDue::NoColumn => {
                return over(alloc, tableau, home, x0, degenerate, Finish::Infeasible);
            }
            KeptDue::Pivot(row, column, flat) => {
                degenerate = if flat { degenerate + 1 } else { 0 };
                let next = match tableau.pivot(alloc, home, column) {
                    Ok(next) => next,
                    Err(Stopped::Width(_)) => return KeptEnd::Unsure,
                    Err(Stopped::Memory) => return KeptEnd::Memory,
                };
                if row == home {
                    return KeptEnd::Second(Progress {
                        tableau: next.without_x0().counted(),
                        phase: Phase::Two,
                        degenerate,
                    });
                }
                tableau = next.swapped(home, row);
            }
        }
    }
    match next_due(&tableau, home, x0, degenerate) {
        KeptDue::Unsure => KeptEnd::Unsure,
        KeptDue::NoColumn => over(alloc, tableau, home, x0, degenerate, Finish::Infeasible),
        KeptDue::Pivot(_, _, _) => over(alloc, tableau, home, x0, degenerate, Finish::PivotDue),
    }
}

/// Whether it is sure that the numbers of a line have no common divisor, are below 2^126, and at most 1 at x0.
fn is_plain(tableau: &Tableau, line: usize) -> bool
    requires line { line < length tableau.now.tableau.lines }
    requires some { 0 < tableau.now.tableau.columns }
    ensures { result ≡ true → IsPlain tableau.now.tableau line }
{
    if tableau.size(line) > 85070591730234615865843651857942052863 {
        return false;
    }
    if tableau.last_entry(line).unsigned_abs() > 1 {
        return false;
    }
    tableau.is_lowest(line)
}

/// Whether that is sure of each line.
fn are_plain(tableau: &Tableau) -> bool
    requires { 0 < tableau.now.tableau.columns }
    ensures { result ≡ true → (i : ℕ) → i < length tableau.now.tableau.lines → IsPlain tableau.now.tableau i }
{
    for line in 0..tableau.lines() {
        if !is_plain(tableau, line) {
            return false;
        }
    }
    true
}

/// Phase 1 from the first state, with so many pivots at most.
pub(crate) fn kept_phase(alloc: Global, reduced: &Reduced, first: Progress, pivots: u64) -> KeptEnd
    requires ready { IsReady reduced.now }
    requires first { state_seen first ≡ first_state (program_of reduced.now) }
    requires start { (state_seen first).phase ≡ Start }
    ensures { IsKeptEnd pivots (first_state (program_of reduced.now)) result }
{
    if pivots == 0 {
        return KeptEnd::Unsure;
    }
    if !are_plain(&first.tableau) {
        return KeptEnd::Unsure;
    }
    let home = least_right(&first.tableau);
    kept_rounds(alloc, first.tableau.negated(home), home, pivots)
}
