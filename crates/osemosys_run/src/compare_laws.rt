// What the line `difference` of `compare` promises.
ghost use Rattle.std.specs.Prelude.{ℕ, List};
ghost use Rattle.command_answers.specs.Accepted.{Source};
ghost use Rattle.compare_command.specs.Compared.{Written};
ghost use Rattle.command_answers.specs.declared.status.Status.TheVariants.{Done};
ghost use Rattle.osemosys_run.specs.Compared.{DueForCompared, IsPromisedDifference};

use plan_compare::least_cost_laws;
use proof_files::proof_telling_laws;

/// Where `compare` ends with status 0, each bound of the costs of the first data gives one of the second, and each of the second one of the
/// first, by the two numbers of its line `difference`; and where both have a least cost, the second less the first lies between them.
pub fn difference_laws()
    ensures { (written : Written) (gap : ℕ) (source : Source) (proof_bytes : List ℕ) (source2 : Source) (proof_bytes2 text : List ℕ)
        → DueForCompared written gap source proof_bytes source2 proof_bytes2 Done text
        → IsPromisedDifference written source source2 text }
{
    proof_telling_laws();
    least_cost_laws();
}
