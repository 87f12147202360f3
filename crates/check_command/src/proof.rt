// What `check` answers of a proof: the first rule that its file breaks, or what the checks say of it.
ghost use Rattle.std.specs.Prelude.{◌≡◌, ℕ, IfOk};
ghost use Rattle.discount_factors.specs.Factors.{IsPlaces};
ghost use Rattle.model_sets.specs.Data.{Data};
ghost use Rattle.model_sets.specs.Members.{SetLists};
ghost use Rattle.mps_writer.specs.MpsText.{line};
ghost use Rattle.command_answers.specs.CheckedPlans.{IsBookOf, IsListedBook, NoneIsFeasible};
ghost use Rattle.command_answers.specs.PlacesWithin.{FaultIsWithin};
ghost use Rattle.command_answers.specs.PlanFaultLines.{proof_fault_line};
ghost use Rattle.command_answers.specs.ShownProofs.{HasWorth};
ghost use Rattle.check_command.specs.CheckProof.{DueForDescent, DueForProof, DueForProofFile, DueForProofTold, DueForRefutation, IsEndless, descent_conditions, refutation_conditions};
ghost use Rattle.check_command.specs.ProofVerdicts.{IsJudged, TellsVerdict, VerdictIsWithin};

use crate::files::{answer_optimum, reject_plan};
use certificate_checker::{
    CostNumbers, Verdict, check_direction, check_infeasible, check_plan, denominator_laws,
};
use command_answers::{Answer, Refusal, Status, Worth, made_book, proof_fault_line, stop_at};
use model_sets::Sets;
use param_tables::ModelData;
use plan_files::{PlanFail, PlanFault};
use proof_files::{Proof, read_proof};
use row_book::RowBook;
use row_core::{Multipliers, Plan};
use std::alloc::{AllocError, Global};

/// What is due for the text of a file of a proof, and a gap in millionths of the bound, over any data that have the model's sets
/// and values, with written factors of 6 or 9 decimal places.
pub fn answer_proof(
    alloc: Global,
    model: &ModelData,
    places: u8,
    proof: &[u8],
    gap: u32,
) -> Result<Answer, AllocError>
    requires { IsPlaces places }
    ensures { IfOk result (λ answer. DueForProof places proof.now gap model.now.facts answer.status answer.text.items) }
{
    match made_book(alloc, model, places)? {
        Ok(book) => answer_proof_file(alloc, &book, model.sets(), proof, gap),
        Err(answer) => Ok(answer),
    }
}

// What is due for the text of a proof over a book of rows.
fn answer_proof_file(
    alloc: Global,
    book: &RowBook,
    sets: &Sets,
    text: &[u8],
    gap: u32,
) -> Result<Answer, AllocError>
    requires { IsListedBook sets.now book.now.rows book.now.vars }
    ensures { (places : ℕ) (d : Data) → sets.now ≡ d.sets → IsBookOf places d book.now.rows book.now.vars
        → IfOk result (λ answer. DueForProofFile places d book.now.rows text.now gap answer.status answer.text.items) }
{
    match read_proof(alloc, text, book.vars(), book.rows(), sets) {
        Ok(proof) => {
            let judged = judge_told(alloc, book, sets, &proof, gap)?;
            Ok(judged.answer)
        }
        Err(PlanFail::Fault(fault)) => refuse_proof(alloc, fault, sets),
        Err(PlanFail::Memory) => Err(AllocError),
    }
}

/// What is due of a proof, and what it is worth.
#[derive(Drop)]
pub(crate) struct Judged {
    pub answer: Answer,
    /// Of an optimum that is accepted.
    pub worth: Option<Worth>,
}

/// The same where it was read, with what it is worth.
pub(crate) fn judge_told(
    alloc: Global,
    book: &RowBook,
    sets: &Sets,
    proof: &Proof,
    gap: u32,
) -> Result<Judged, AllocError>
    requires { IsListedBook sets.now book.now.rows book.now.vars }
    ensures due { (places : ℕ) (d : Data) → sets.now ≡ d.sets → IsBookOf places d book.now.rows book.now.vars
        → IfOk result (λ judged. DueForProofTold places d book.now.rows gap proof.now judged.answer.status judged.answer.text.items) }
    ensures worth { (places : ℕ) (d : Data) → IsBookOf places d book.now.rows book.now.vars
        → IfOk result (λ judged. judged.answer.status ≡ Status.Done → HasWorth d book.now.rows proof.now judged.worth) }
{
    match proof {
        Proof::Optimum { plan, multipliers } => {
            let (answer, worth) = answer_optimum(alloc, book, sets, plan, multipliers, gap)?;
            Ok(Judged { answer, worth })
        }
        Proof::Refutation { multipliers } => {
            let answer = answer_refutation(alloc, book, sets, multipliers)?;
            Ok(Judged {
                answer,
                worth: None,
            })
        }
        Proof::Descent { plan, direction } => {
            let answer = answer_descent(alloc, book, sets, plan, direction)?;
            Ok(Judged {
                answer,
                worth: None,
            })
        }
    }
}

// What is due of a refutation.
fn answer_refutation(
    alloc: Global,
    book: &RowBook,
    sets: &Sets,
    multipliers: &Multipliers,
) -> Result<Answer, AllocError>
    requires { IsListedBook sets.now book.now.rows book.now.vars }
    ensures { (places : ℕ) (d : Data) → sets.now ≡ d.sets → IsBookOf places d book.now.rows book.now.vars
        → IfOk result (λ answer. DueForRefutation places d book.now.rows multipliers.now answer.status answer.text.items) }
{
    let verdict = judge_refutation(alloc, book, multipliers)?;
    answer_verdict(alloc, verdict, b"accepted infeasible", sets)
}

// What is due of a plan and a direction.
fn answer_descent(
    alloc: Global,
    book: &RowBook,
    sets: &Sets,
    plan: &Plan,
    direction: &Plan,
) -> Result<Answer, AllocError>
    requires { IsListedBook sets.now book.now.rows book.now.vars }
    ensures { (places : ℕ) (d : Data) → sets.now ≡ d.sets → IsBookOf places d book.now.rows book.now.vars
        → IfOk result (λ answer. DueForDescent places d book.now.rows plan.now direction.now answer.status answer.text.items) }
{
    let verdict = judge_descent(book, plan, direction);
    answer_verdict(alloc, verdict, b"accepted unbounded", sets)
}

// Whether multipliers show that there is no plan.
fn judge_refutation(
    alloc: Global,
    book: &RowBook,
    multipliers: &Multipliers,
) -> Result<Verdict, AllocError>
    ensures judged { (places : ℕ) (d : Data) → IsBookOf places d book.now.rows book.now.vars
        → IfOk result (IsJudged (refutation_conditions d book.now.rows multipliers.now) (NoneIsFeasible places d)) }
    ensures within { (sets : SetLists) → IsListedBook sets book.now.rows book.now.vars → IfOk result (VerdictIsWithin sets) }
{
    check_infeasible(alloc, book.rows(), book.vars(), multipliers)
}

// Whether a plan meets all rows, and the cost falls along a direction.
fn judge_descent(book: &RowBook, plan: &Plan, direction: &Plan) -> Verdict
    ensures judged { (places : ℕ) (d : Data) → IsBookOf places d book.now.rows book.now.vars
        → IsJudged (descent_conditions d book.now.rows plan.now direction.now) (IsEndless places d plan.now) result }
    ensures within { (sets : SetLists) → IsListedBook sets book.now.rows book.now.vars → VerdictIsWithin sets result }
{
    // The values are fractions, so they are whole numbers over one denominator.
    denominator_laws();
    let _values = plan.entries();
    let rows = book.rows();
    let vars = book.vars();
    match check_plan(rows, vars, plan) {
        Verdict::Yes(_) => check_direction(rows, vars, &CostNumbers::Model, direction),
        Verdict::No(rejection) => Verdict::No(rejection),
        Verdict::Width(place) => Verdict::Width(place),
    }
}

// The answer of a verdict; this is said where it is yes.
fn answer_verdict(
    alloc: Global,
    verdict: Verdict,
    said: &[u8],
    sets: &Sets,
) -> Result<Answer, AllocError>
    requires { VerdictIsWithin sets.now verdict }
    ensures { IfOk result (λ answer. TellsVerdict sets.now said.now verdict answer.status answer.text.items) }
{
    match verdict {
        Verdict::Yes(_) => accept_as(alloc, said),
        Verdict::No(rejection) => reject_plan(alloc, rejection, sets),
        Verdict::Width(place) => stop_at(alloc, place, sets),
    }
}

// The answer where all conditions hold, of which this is said.
fn accept_as(alloc: Global, said: &[u8]) -> Result<Answer, AllocError>
    ensures { IfOk result (λ answer. (answer.status ≡ Status.Done) × (answer.text.items ≡ line said.now)) }
{
    let mut text = Vec::from_slice(alloc, said)?;
    text.extend_from_slice(b"\n")?;
    let status = Status::Done;
    Ok(Answer { status, text })
}

/// The answer to a file of a proof that breaks a rule.
pub(crate) fn refuse_proof(
    alloc: Global,
    fault: PlanFault,
    sets: &Sets,
) -> Result<Answer, AllocError>
    requires { FaultIsWithin sets.now fault }
    ensures { IfOk result (λ answer. (answer.status ≡ Status.Refused (Refusal.ProofFile fault)) × (answer.text.items ≡ proof_fault_line sets.now fault)) }
{
    let text = proof_fault_line(alloc, fault, sets)?;
    let status = Status::Refused(Refusal::ProofFile(fault));
    Ok(Answer { status, text })
}
