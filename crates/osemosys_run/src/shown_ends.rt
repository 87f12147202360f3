// What the texts that `solve` writes of one model say together.
ghost use Rattle.std.specs.Prelude.{◌≡◌, List, Some, ℕ};
ghost use Rattle.model_sets.specs.Data.{Data};
ghost use Rattle.command_answers.specs.declared.status.Status.{Status};
ghost use Rattle.command_answers.specs.declared.status.Status.TheVariants.{Done};
ghost use Rattle.command_words.specs.declared.command.SolveShow.TheVariants.{Multipliers, Plan};
ghost use Rattle.check_command.specs.Check.{DueForCheck};
ghost use Rattle.osemosys_run.specs.ShownEnds.{WritesOptimum};

use plan_files::telling_laws;
use row_book::stop_laws;

/// A plan and multipliers that `solve` writes with the gap 0, each in a file of its own, are accepted by `check` together, with any gap.
/// They may come from two calls that differ in method, pivots and start, since both are of the least cost.
pub fn shown_laws()
    ensures { (places gap rounded also : ℕ) (d : Data) (plan multipliers : List ℕ) (status : Status) (text : List ℕ)
        → WritesOptimum Plan places rounded d plan → WritesOptimum Multipliers places also d multipliers
        → DueForCheck places plan (Some multipliers) gap d status text → status ≡ Done }
{
    telling_laws();
    stop_laws();
}
