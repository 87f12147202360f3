// What the text of `mps` means, as the contract of a function that does nothing.
ghost use Rattle.std.specs.Prelude.{◌≡◌, List, ℕ, Some};
ghost use Rattle.model_sets.specs.Data.{Data};
ghost use Rattle.mps_meaning.specs.Programs.{Program};
ghost use Rattle.mps_meaning.specs.Reading.{program_of};
ghost use Rattle.mps_plans.specs.PlanPrograms.{IsProgramOf};
ghost use Rattle.command_answers.specs.Accepted.{Accepted, Source};
ghost use Rattle.osemosys_run.specs.Mps.{WritesEquations};

use mps_plans::plans_law;

/// The text of the equations of accepted data reads as a linear program of their plans.
pub fn mps_laws()
    ensures means { (places : ℕ) (source : Source) (text : List ℕ) (d : Data) →
        Accepted source d → WritesEquations places d text →
        (program : Program) × (program_of text ≡ Some program) × IsProgramOf places d program }
{
    plans_law();
}
