// A proof that `check` accepts, for commands that show something of it.
ghost use Rattle.std.specs.Prelude.{◌≡◌, ◌≢◌, ℕ, IfOk, MatchResult};
ghost use Rattle.model_sets.specs.Data.{Data};
ghost use Rattle.command_answers.specs.CheckedPlans.{IsBookOf, IsListedBook};
ghost use Rattle.check_command.specs.AcceptedProofs.{TellsProof};

use crate::proof::{Judged, judge_told, refuse_proof};
use command_answers::{AcceptedProof, Answer, Status};
use model_sets::Sets;
use plan_files::PlanFail;
use proof_files::{Proof, read_proof};
use row_book::RowBook;
use std::alloc::{AllocError, Global};

/// The proof that the text of a file tells, where `check` accepts it over a book of rows with this gap in millionths of the bound, with what it
/// is worth and what `check` says of it; or what `check` answers. Either is that of any data that have these sets, and of which the book is.
pub fn accepted_proof(
    alloc: Global,
    book: &RowBook,
    sets: &Sets,
    text: &[u8],
    gap: u32,
) -> Result<Result<AcceptedProof, Answer>, AllocError>
    requires { IsListedBook sets.now book.now.rows book.now.vars }
    ensures { (places : ℕ) (d : Data) → sets.now ≡ d.sets → IsBookOf places d book.now.rows book.now.vars
        → IfOk result (TellsProof places text.now gap d book.now.rows) }
{
    match read_proof(alloc, text, book.vars(), book.rows(), sets) {
        Ok(proof) => {
            let judged = judge_told(alloc, book, sets, &proof, gap)?;
            Ok(kept_where_done(proof, judged))
        }
        Err(PlanFail::Fault(fault)) => {
            let answer = refuse_proof(alloc, fault, sets)?;
            Ok(Err(answer))
        }
        Err(PlanFail::Memory) => Err(AllocError),
    }
}

// The proof, where the answer to it is that it is accepted; else the answer.
fn kept_where_done(proof: Proof, judged: Judged) -> Result<AcceptedProof, Answer>
    ensures { MatchResult result
        (λ kept. (kept ≡ record { proof = proof; worth = judged.worth; said = judged.answer.text }) × (judged.answer.status ≡ Status.Done))
        (λ said. (said ≡ judged.answer) × (judged.answer.status ≢ Status.Done)) }
{
    let Judged { answer, worth } = judged;
    match &answer.status {
        Status::Done => Ok(AcceptedProof {
            proof,
            worth,
            said: answer.text,
        }),
        _ => Err(answer),
    }
}
