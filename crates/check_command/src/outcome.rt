// What the checks of a plan, a bound and a gap come to.
ghost use Rattle.std.specs.Prelude.{ℕ, List, Some, IfOk, option_map};
ghost use Rattle.exact_num.specs.Rational.{Rational};
ghost use Rattle.exact_num.specs.Value.{value_of};
ghost use Rattle.model_sets.specs.Data.{Data};
ghost use Rattle.model_sets.specs.Members.{SetLists};
ghost use Rattle.row_core.specs.declared.Row.{Row};
ghost use Rattle.row_core.specs.declared.RowName.{RowName};
ghost use Rattle.row_core.specs.declared.Var.{Var};
ghost use Rattle.command_answers.specs.CheckedPlans.{IsBookOf, IsListedBook};
ghost use Rattle.check_command.specs.CheckOutcomes.{IsCheckedBound, IsCheckedPlan, IsOutcome, OutcomeIsWithin};

use certificate_checker::{
    CostNumbers, Rejection, Verdict, check_bound, check_gap, check_plan, denominator_laws,
};
use exact_num::Frac;
use row_book::RowBook;
use row_core::{Multipliers, Place, Plan};
use std::alloc::{AllocError, Global};

/// What a plan's cost is compared with.
#[derive(Clone, Copy, PartialEq, Eq)]
pub struct Bound {
    /// No plan costs less.
    pub bound: Frac,
    /// The cost less the bound.
    pub gap: Frac,
}

/// What the checks come to.
#[derive(Clone, Copy, PartialEq, Eq)]
pub enum Outcome {
    /// All conditions hold: the plan's cost, and the bound where there are multipliers.
    Accepted(Frac, Option<Bound>),
    /// The first condition that fails.
    Rejected(Rejection),
    /// The place at which the first number that doesn't fit is formed.
    Wide(Place),
}

/// The outcome for a plan, and for multipliers with a gap in millionths of their bound: the plan's conditions first, then
/// the multipliers', then the gap.
pub fn checked(
    alloc: Global,
    book: &RowBook,
    plan: &Plan,
    multipliers: Option<&Multipliers>,
    gap: u32,
) -> Result<Outcome, AllocError>
    ensures outcome { (places : ℕ) (d : Data) → IsBookOf places d book.now.rows book.now.vars
        → IfOk result (IsOutcome places d book.now.rows plan.now (option_map (λ m. m.now) multipliers.entry) gap) }
    ensures within { (sets : SetLists) → IsListedBook sets book.now.rows book.now.vars → IfOk result (OutcomeIsWithin sets) }
{
    // The values are fractions, so they are whole numbers over one denominator.
    denominator_laws();
    let _values = plan.entries();
    match check_plan(book.rows(), book.vars(), plan) {
        Verdict::Yes(cost) => match multipliers {
            None => Ok(Outcome::Accepted(cost, None)),
            Some(multipliers) => bound_outcome(alloc, book, cost, multipliers, gap),
        },
        Verdict::No(rejection) => Ok(Outcome::Rejected(rejection)),
        Verdict::Width(place) => Ok(Outcome::Wide(place)),
    }
}

// The outcome for multipliers, where the plan's conditions hold and it costs so much.
fn bound_outcome(
    alloc: Global,
    book: &RowBook,
    cost: Frac,
    multipliers: &Multipliers,
    gap: u32,
) -> Result<Outcome, AllocError>
    ensures outcome { (places : ℕ) (d : Data) (plan : List (Var × Rational)) → IsBookOf places d book.now.rows book.now.vars
        → IsCheckedPlan places d book.now.rows plan (value_of cost)
        → IfOk result (IsOutcome places d book.now.rows plan (Some multipliers.now) gap) }
    ensures within { (sets : SetLists) → IsListedBook sets book.now.rows book.now.vars → IfOk result (OutcomeIsWithin sets) }
{
    match check_bound(
        alloc,
        book.rows(),
        book.vars(),
        &CostNumbers::Model,
        multipliers,
    )? {
        Verdict::Yes(bound) => Ok(gap_outcome(cost, bound, gap)),
        Verdict::No(rejection) => Ok(Outcome::Rejected(rejection)),
        Verdict::Width(place) => Ok(Outcome::Wide(place)),
    }
}

// The outcome for a gap, where the conditions on plan and multipliers hold.
fn gap_outcome(cost: Frac, bound: Frac, gap: u32) -> Outcome
    ensures outcome { (places : ℕ) (d : Data) (rows : List Row) (plan : List (Var × Rational)) (multipliers : List (RowName × Rational))
        → IsCheckedPlan places d rows plan (value_of cost) → IsCheckedBound places d rows multipliers (value_of bound)
        → IsOutcome places d rows plan (Some multipliers) gap result }
    ensures within { (sets : SetLists) → OutcomeIsWithin sets result }
{
    match check_gap(cost, bound, gap) {
        Verdict::Yes(gap) => Outcome::Accepted(cost, Some(Bound { bound, gap })),
        Verdict::No(rejection) => Outcome::Rejected(rejection),
        Verdict::Width(place) => Outcome::Wide(place),
    }
}
