//! All rounds.

ghost use Rattle.std.specs.Prelude.{◌≡◌, IfOk, IfErr};
ghost use Rattle.written_method.specs.FirstTableau.{first_state};
ghost use Rattle.written_method.specs.Programs.{program_of};
ghost use Rattle.written_method.specs.Ready.{IsReady};
ghost use Rattle.written_method.specs.Runs.{Ended, answer, no_column};
ghost use Rattle.row_core.specs.declared.place.Stopped.TheVariants.{Memory};
ghost use Rattle.simplex_core.specs.Begun.{IsBegun};
ghost use Rattle.simplex_core.specs.Runs.{IsRanOut};
ghost use Rattle.simplex_core.specs.Views.{ending_seen, phase_seen, state_seen};

use crate::kept_rounds::{KeptEnd, kept_phase};
use crate::pivoting::after;
use crate::progress::{Due, Phase, Progress};
use crate::rounds::due;
use row_core::Stopped;
use std::alloc::Global;
use written_method::Reduced;

/// How the rounds end.
#[derive(Clone, Copy, PartialEq, Eq)]
pub(crate) enum Finish {
    /// In phase 2 no column can enter.
    Optimal,
    /// In phase 1 no column can enter.
    Infeasible,
    /// No row can leave for this column.
    Unbounded(usize),
    /// A pivot is due after the last one.
    PivotDue,
}

/// The last state, with how the rounds end in it.
#[derive(Drop)]
pub(crate) struct Finished {
    pub(crate) last: Progress,
    pub(crate) finish: Finish,
}

/// What it means that no column can enter.
fn no_column(phase: Phase) -> Finish
    ensures { ending_seen result ≡ no_column (phase_seen phase) }
{
    match phase {
        Phase::Start => Finish::Infeasible,
        Phase::One => Finish::Infeasible,
        Phase::Two => Finish::Optimal,
    }
}

/// How the rounds begin.
#[derive(Drop)]
enum Begun {
    /// The method ends in phase 1.
    Over(Finished),
    /// The rounds begin with this state.
    Rounds(Progress),
}

/// The state from which the plain rounds go on: that in which phase 2 begins where phase 1 is made by the kept rows, and else the first.
fn begin(alloc: Global, reduced: &Reduced, pivots: u64) -> Result<Begun, Stopped>
    requires { IsReady reduced.now }
    ensures begun { IfOk result (IsBegun pivots (first_state (program_of reduced.now))) }
    ensures memory { IfErr result (λ e. e ≡ Memory) }
{
    let first = Progress::begin(alloc, reduced)?;
    let end = match first.phase {
        Phase::Start => kept_phase(alloc, reduced, first, pivots),
        _ => return Ok(Begun::Rounds(first)),
    };
    match end {
        KeptEnd::Over(finished) => Ok(Begun::Over(finished)),
        KeptEnd::Second(progress) => Ok(Begun::Rounds(progress)),
        KeptEnd::Unsure => Ok(Begun::Rounds(Progress::begin(alloc, reduced)?)),
        KeptEnd::Memory => Err(Stopped::Memory),
    }
}

/// The rounds of a linear program, with so many pivots at most.
pub(crate) fn run(alloc: Global, reduced: &Reduced, pivots: u64) -> Result<Finished, Stopped>
    requires { IsReady reduced.now }
    ensures answered { IfOk result (λ f. answer pivots (first_state (program_of reduced.now)) ≡ Ended (ending_seen f.finish) (state_seen f.last)) }
    ensures stopped { IfErr result (IsRanOut (answer pivots (first_state (program_of reduced.now)))) }
{
    let begun = begin(alloc, reduced, pivots)?;
    let mut last = match begun {
        Begun::Over(finished) => return Ok(finished),
        Begun::Rounds(progress) => progress,
    };
    let mut made = last.tableau.pivots();
    'rounds: loop {
        match due(&last) {
            Due::NoColumn => {
                let finish = no_column(last.phase);
                return Ok(Finished { last, finish });
            }
            Due::NoRow(column) => {
                return Ok(Finished {
                    last,
                    finish: Finish::Unbounded(column),
                });
            }
            Due::Pivot(row, column) => {
                if made == pivots {
                    return Ok(Finished {
                        last,
                        finish: Finish::PivotDue,
                    });
                }
                last = after(alloc, last, row, column)?;
                made += 1;
            }
        }
    }
}
