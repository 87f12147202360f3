// The status of a solution.
ghost use Rattle.std.specs.Prelude.{◌≡◌};
ghost use Rattle.solve_command.specs.SolveOutcomes.{status_of};

use certified_answers::Certified;
use command_answers::Status;

/// The status of a solution that is shown.
pub fn status_of(solution: &Certified) -> Status
    ensures { result ≡ status_of solution.now }
{
    match solution {
        Certified::Optimal { .. } => Status::Done,
        Certified::Infeasible { .. } => Status::Infeasible,
        Certified::Unbounded { .. } => Status::Unbounded,
    }
}
