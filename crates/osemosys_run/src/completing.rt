// Which requests come to an end.
ghost use Rattle.std.specs.Prelude.{◌≡◌, List, ℕ, Ok};
ghost use Rattle.command_answers.specs.declared.status.Status.{Status};
ghost use Rattle.command_words.specs.Words.{Request, asked, names_of};
ghost use Rattle.osemosys_run.specs.Complete.{AreThere, CanBeDone, IsEndOf};
ghost use Rattle.osemosys_run.specs.Due.{Due, source2_in, source_in};

use command_answers::acceptance_laws;
use plan_files::telling_laws;
use proof_files::proof_telling_laws;
use row_book::stop_laws;

/// Where the contents of the files are such that a request must come to an end, only such an end is due.
pub fn completing_laws()
    ensures { (words : List (List ℕ)) (files : List (List ℕ × List ℕ)) (status : Status) (text : List ℕ) → Due words files status text
        → (request : Request) (contents : List (List ℕ)) → asked words ≡ Ok request → AreThere files (names_of request) contents → CanBeDone request.question (source_in request contents) (source2_in request contents) contents → IsEndOf request.question status }
{
    acceptance_laws();
    stop_laws();
    telling_laws();
    proof_telling_laws();
}
