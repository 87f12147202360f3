// What `check` answers over accepted data: what it says of a plan and of multipliers, or the line for the first row that
// can't be made.
ghost use Rattle.std.specs.Prelude.{IfOk, option_map};
ghost use Rattle.discount_factors.specs.Factors.{IsPlaces};
ghost use Rattle.check_command.specs.Check.{DueForCheck};

use crate::files::answer_plan_file;
use command_answers::{Answer, made_book};
use param_tables::ModelData;
use std::alloc::{AllocError, Global};

/// What is to be checked: the text of a plan's file, that of a file of multipliers if there is one, and how many millionths of
/// the bound the cost may be above it.
#[derive(Clone, Copy)]
pub struct Claim<'p, 'm> {
    pub plan: &'p [u8],
    pub multipliers: Option<&'m [u8]>,
    pub gap: u32,
}

/// What is due for a claim over any data that have the model's sets and values, with written factors of 6 or 9 decimal places.
pub fn answer_check(
    alloc: Global,
    model: &ModelData,
    places: u8,
    claim: Claim<'_, '_>,
) -> Result<Answer, AllocError>
    requires { IsPlaces places }
    ensures { IfOk result (λ answer.
        DueForCheck places claim.entry.plan.now (option_map (λ text. text.now) claim.entry.multipliers) claim.entry.gap model.now.facts answer.status answer.text.items) }
{
    match made_book(alloc, model, places)? {
        Ok(book) => answer_plan_file(alloc, &book, model.sets(), claim),
        Err(answer) => Ok(answer),
    }
}
