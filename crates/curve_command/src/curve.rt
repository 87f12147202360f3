// The answer over accepted data.
ghost use Rattle.std.specs.Prelude.{IfOk};
ghost use Rattle.std.specs.List.{AllByRecursion};
ghost use Rattle.command_words.specs.LimitLists.{IsLimit};
ghost use Rattle.discount_factors.specs.Factors.{IsPlaces};
ghost use Rattle.curve_command.specs.Curve.{DueForCurve, DueForLimits};
ghost use Rattle.curve_command.specs.KeptRows.{IsMemberOf};

use crate::texts::{curve_status, curve_text};
use crate::trials::{Member, Outcome, Wanted, trials};
use call_stages::Watcher;
use command_answers::{Answer, find_member};
use model_sets::set_numbers::{EMISSION, REGION};
use param_tables::ModelData;
use std::alloc::{AllocError, Global};

/// What is due over any data that have the model's sets and values, with written factors of 6 or 9 decimal places: for the words of a
/// region and an emission, and for limits in billionths.
pub fn answer_curve(
    alloc: Global,
    model: &ModelData,
    places: u8,
    wanted: Wanted,
    region: &str,
    emission: &str,
    limits: &[i128],
    watcher: &mut dyn Watcher,
) -> Result<Answer, AllocError>
    requires places { IsPlaces places }
    requires limits { AllByRecursion IsLimit limits.now }
    ensures { IfOk result (λ answer.
        DueForCurve places wanted (record { region = region.now; emission = emission.now }) limits.now model.now.facts answer.status answer.text.items) }
{
    let region = match find_member(alloc, model.sets(), REGION, region)? {
        Ok(region) => region,
        Err(answer) => return Ok(answer),
    };
    let emission = match find_member(alloc, model.sets(), EMISSION, emission)? {
        Ok(emission) => emission,
        Err(answer) => return Ok(answer),
    };
    let member = Member { region, emission };
    answer_limits(alloc, model, places, member, limits, wanted, watcher)
}

// What is due for an emission in a region.
fn answer_limits(
    alloc: Global,
    model: &ModelData,
    places: u8,
    member: Member,
    limits: &[i128],
    wanted: Wanted,
    watcher: &mut dyn Watcher,
) -> Result<Answer, AllocError>
    requires places { IsPlaces places }
    requires member { IsMemberOf model.now.facts.sets member }
    requires limits { AllByRecursion IsLimit limits.now }
    ensures { IfOk result (λ answer.
        DueForLimits places model.now.facts member.region member.emission wanted limits.now answer.status answer.text.items) }
{
    match trials(alloc, model, places, member, limits, wanted, watcher)? {
        Outcome::Ended(all) => {
            let text = curve_text(alloc, model.sets(), &all)?;
            let status = curve_status(&all);
            Ok(Answer { status, text })
        }
        Outcome::Refused(answer) => Ok(answer),
    }
}
