// What `check` answers of the texts of its files: the first rule that one breaks, or what the checks say of the plan and the
// multipliers that they tell.
ghost use Rattle.std.specs.Prelude.{◌≡◌, ℕ, IfOk, Some, option_map};
ghost use Rattle.exact_num.specs.Value.{value_of};
ghost use Rattle.model_sets.specs.Data.{Data};
ghost use Rattle.check_command.specs.Check.{DueForMultiplierFile, DueForPlan, DueForPlanFile};
ghost use Rattle.command_answers.specs.CheckedPlans.{IsBookOf, IsListedBook};
ghost use Rattle.check_command.specs.CheckLines.{CanBeSaid, accepted_text, rejected_line};
ghost use Rattle.command_answers.specs.PlanFaultLines.{multiplier_fault_line, plan_fault_line};
ghost use Rattle.check_command.specs.CheckOutcomes.{OutcomeIsWithin, TellsOutcome, bound_values, worth_of};
ghost use Rattle.command_answers.specs.PlacesWithin.{FaultIsWithin};
ghost use Rattle.command_answers.specs.ShownProofs.{HasWorth};
ghost use Rattle.proof_files.specs.declared.proof.Proof.{Proof};

use crate::check::Claim;
use crate::lines::{accepted_text, rejected_line};
use crate::outcome::{Bound, Outcome, checked};
use certificate_checker::Rejection;
use command_answers::{
    Answer, Refusal, Status, Worth, multiplier_fault_line, plan_fault_line, stop_at,
};
use exact_num::Frac;
use model_sets::Sets;
use plan_files::{PlanFail, PlanFault, read_multipliers, read_plan};
use row_book::RowBook;
use row_core::{Multipliers, Plan};
use std::alloc::{AllocError, Global};

/// What is due for a claim over a book of rows: the plan's file first, then the file of multipliers, then the checks.
pub fn answer_plan_file(
    alloc: Global,
    book: &RowBook,
    sets: &Sets,
    claim: Claim<'_, '_>,
) -> Result<Answer, AllocError>
    requires { IsListedBook sets.now book.now.rows book.now.vars }
    ensures { (places : ℕ) (d : Data) → sets.now ≡ d.sets → IsBookOf places d book.now.rows book.now.vars
        → IfOk result (λ answer. DueForPlanFile places d book.now.rows claim.entry.plan.now (option_map (λ text. text.now) claim.entry.multipliers) claim.entry.gap answer.status answer.text.items) }
{
    match read_plan(alloc, claim.plan, book.vars(), sets) {
        Ok(plan) => answer_multiplier_file(alloc, book, sets, &plan, claim),
        Err(PlanFail::Fault(fault)) => refuse_plan(alloc, fault, sets),
        Err(PlanFail::Memory) => Err(AllocError),
    }
}

// The same where the plan was read.
fn answer_multiplier_file(
    alloc: Global,
    book: &RowBook,
    sets: &Sets,
    plan: &Plan,
    claim: Claim<'_, '_>,
) -> Result<Answer, AllocError>
    requires { IsListedBook sets.now book.now.rows book.now.vars }
    ensures { (places : ℕ) (d : Data) → sets.now ≡ d.sets → IsBookOf places d book.now.rows book.now.vars
        → IfOk result (λ answer. DueForMultiplierFile places d book.now.rows plan.now (option_map (λ text. text.now) claim.entry.multipliers) claim.entry.gap answer.status answer.text.items) }
{
    let Some(text) = claim.multipliers else {
        return answer_values(alloc, book, sets, plan, None, claim.gap);
    };
    match read_multipliers(alloc, text, book.rows(), sets) {
        Ok(multipliers) => answer_values(alloc, book, sets, plan, Some(&multipliers), claim.gap),
        Err(PlanFail::Fault(fault)) => refuse_multipliers(alloc, fault, sets),
        Err(PlanFail::Memory) => Err(AllocError),
    }
}

/// What is due of a plan and of multipliers that were read.
pub fn answer_values(
    alloc: Global,
    book: &RowBook,
    sets: &Sets,
    plan: &Plan,
    multipliers: Option<&Multipliers>,
    gap: u32,
) -> Result<Answer, AllocError>
    requires { IsListedBook sets.now book.now.rows book.now.vars }
    ensures { (places : ℕ) (d : Data) → sets.now ≡ d.sets → IsBookOf places d book.now.rows book.now.vars
        → IfOk result (λ answer. DueForPlan places d book.now.rows plan.now (option_map (λ m. m.now) multipliers.entry) gap answer.status answer.text.items) }
{
    let outcome = checked(alloc, book, plan, multipliers, gap)?;
    answer_outcome(alloc, outcome, sets)
}

/// What is due of an optimum, and what it is worth where it is accepted.
pub fn answer_optimum(
    alloc: Global,
    book: &RowBook,
    sets: &Sets,
    plan: &Plan,
    multipliers: &Multipliers,
    gap: u32,
) -> Result<(Answer, Option<Worth>), AllocError>
    requires { IsListedBook sets.now book.now.rows book.now.vars }
    ensures due { (places : ℕ) (d : Data) → sets.now ≡ d.sets → IsBookOf places d book.now.rows book.now.vars
        → IfOk result (λ told. DueForPlan places d book.now.rows plan.now (Some multipliers.now) gap told.0.status told.0.text.items) }
    ensures worth { (places : ℕ) (d : Data) → IsBookOf places d book.now.rows book.now.vars
        → IfOk result (λ told. told.0.status ≡ Status.Done → HasWorth d book.now.rows (Proof.Optimum plan.now multipliers.now) told.1) }
{
    let outcome = checked(alloc, book, plan, Some(multipliers), gap)?;
    let answer = answer_outcome(alloc, outcome, sets)?;
    Ok((answer, worth_of(outcome)))
}

// What an outcome says of cost and bound, where it accepts both.
fn worth_of(outcome: Outcome) -> Option<Worth>
    ensures { result ≡ worth_of outcome }
{
    match outcome {
        Outcome::Accepted(cost, Some(bound)) => Some(Worth {
            cost,
            bound: bound.bound,
        }),
        _ => None,
    }
}

// The answer of an outcome.
fn answer_outcome(alloc: Global, outcome: Outcome, sets: &Sets) -> Result<Answer, AllocError>
    requires { OutcomeIsWithin sets.now outcome }
    ensures { IfOk result (λ answer. TellsOutcome sets.now outcome answer.status answer.text.items) }
{
    match outcome {
        Outcome::Accepted(cost, bound) => accept_plan(alloc, cost, bound),
        Outcome::Rejected(rejection) => reject_plan(alloc, rejection, sets),
        Outcome::Wide(place) => stop_at(alloc, place, sets),
    }
}

// The answer to a plan that passes.
fn accept_plan(alloc: Global, cost: Frac, bound: Option<Bound>) -> Result<Answer, AllocError>
    ensures { IfOk result (λ answer. (answer.status ≡ Status.Done) × (answer.text.items ≡ accepted_text (value_of cost) (option_map bound_values bound))) }
{
    let text = accepted_text(alloc, cost, bound)?;
    let status = Status::Done;
    Ok(Answer { status, text })
}

/// The answer to a plan, to multipliers or to a direction of which a condition fails.
pub fn reject_plan(alloc: Global, rejection: Rejection, sets: &Sets) -> Result<Answer, AllocError>
    requires { CanBeSaid sets.now rejection }
    ensures { IfOk result (λ answer. (answer.status ≡ Status.Rejected rejection) × (answer.text.items ≡ rejected_line sets.now rejection)) }
{
    let text = rejected_line(alloc, rejection, sets)?;
    let status = Status::Rejected(rejection);
    Ok(Answer { status, text })
}

// The answer to a plan's file that breaks a rule.
fn refuse_plan(alloc: Global, fault: PlanFault, sets: &Sets) -> Result<Answer, AllocError>
    requires { FaultIsWithin sets.now fault }
    ensures { IfOk result (λ answer. (answer.status ≡ Status.Refused (Refusal.PlanFile fault)) × (answer.text.items ≡ plan_fault_line sets.now fault)) }
{
    let text = plan_fault_line(alloc, fault, sets)?;
    let status = Status::Refused(Refusal::PlanFile(fault));
    Ok(Answer { status, text })
}

// The answer to a file of multipliers that breaks a rule.
fn refuse_multipliers(alloc: Global, fault: PlanFault, sets: &Sets) -> Result<Answer, AllocError>
    requires { FaultIsWithin sets.now fault }
    ensures { IfOk result (λ answer. (answer.status ≡ Status.Refused (Refusal.MultiplierFile fault)) × (answer.text.items ≡ multiplier_fault_line sets.now fault)) }
{
    let text = multiplier_fault_line(alloc, fault, sets)?;
    let status = Status::Refused(Refusal::MultiplierFile(fault));
    Ok(Answer { status, text })
}
