// What `check` says of the file in which `solve` writes what proves its end.
ghost use Rattle.std.specs.Prelude.{List, ℕ};
ghost use Rattle.model_sets.specs.Data.{Data};
ghost use Rattle.command_answers.specs.Accepted.{Accepted, Source};
ghost use Rattle.command_answers.specs.declared.status.Status.{Status};
ghost use Rattle.command_words.specs.declared.command.SolveMethod.{SolveMethod};
ghost use Rattle.check_command.specs.CheckProof.{DueForProof};
ghost use Rattle.osemosys_run.specs.Accepting.{AcceptsEnd, ProvesEnd};

use proof_files::proof_telling_laws;
use row_book::stop_laws;

/// What `solve` writes to prove its end is accepted by `check`, over the same data file and with the same gap and decimal places, whatever its
/// guesses begin from.
pub fn accepting_laws()
    ensures { (places gap pivots : ℕ) (method : SolveMethod) (rounded : ℕ) (source : Source) (d : Data) (end status : Status) (proof text : List ℕ)
        → Accepted source d → ProvesEnd places gap pivots method rounded d end proof → DueForProof places proof gap d status text → AcceptsEnd end status text }
{
    proof_telling_laws();
    stop_laws();
}
