// What an accepted proof has to be compared: a plan with its cost and bound, or none.
ghost use Rattle.std.specs.Prelude.{◌≡◌, List};
ghost use Rattle.model_sets.specs.Data.{Data};
ghost use Rattle.row_core.specs.declared.Row.{Row};
ghost use Rattle.command_answers.specs.ShownProofs.{HasWorth};
ghost use Rattle.compare_command.specs.Standings.{StandsAs};

use crate::scenarios::Proved;
use command_answers::Status;
use plan_compare::Scenario;
use proof_files::Proof;

/// A plan that can be compared, or the status that says why there is none.
#[derive(Drop)]
pub(crate) enum Standing<'a> {
    Planned(Scenario<'a>),
    Planless(Status),
}

/// What a proof that `check` accepts has to be compared.
pub(crate) fn standing_of(proved: Proved<'_>) -> Standing<'_>
    requires { (d : Data) × (rows : List Row) × HasWorth d rows proved.accepted.now.proof proved.accepted.now.worth }
    ensures { (d : Data) (rows : List Row) → proved.entry.sets.now ≡ d.sets
        → HasWorth d rows proved.entry.accepted.now.proof proved.entry.accepted.now.worth
        → StandsAs d rows proved.entry.accepted.now.proof result }
{
    match &proved.accepted.proof {
        Proof::Optimum { plan, .. } => match proved.accepted.worth {
            Some(worth) => Standing::Planned(Scenario {
                sets: proved.sets,
                plan,
                cost: worth.cost,
                bound: worth.bound,
            }),
            None => unreachable!(),
        },
        Proof::Refutation { .. } => Standing::Planless(Status::Infeasible),
        Proof::Descent { .. } => Standing::Planless(Status::Unbounded),
    }
}
