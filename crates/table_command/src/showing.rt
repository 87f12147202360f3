// The answers of `table`: what it shows of a proof that `check` accepts, and the line for a name that no table has.
ghost use Rattle.std.specs.Prelude.{◌≡◌, IfOk, map};
ghost use Rattle.std.specs.List.{AllByRecursion};
ghost use Rattle.mps_writer.specs.MpsText.{line};
ghost use Rattle.plan_files.specs.Listed.{IsListedRow, name_of_row};
ghost use Rattle.discount_factors.specs.Factors.{IsPlaces};
ghost use Rattle.proof_files.specs.PlansWithin.{HasPlanWithin};
ghost use Rattle.row_core.specs.NameTexts.{VariableIsWithin};
ghost use Rattle.table_command.specs.ShownTables.{IsShowable, shown_text};
ghost use Rattle.table_command.specs.Tables.{ShowsProof, form_of, unknown_table_line};

use crate::shown::Shown;
use command_answers::{Answer, Refusal, Status};
use data_tables::data_text;
use page_tables::{Source, plan_tables};
use plan_tables::{NumberForm, table_text};
use price_tables::price_text;
use proof_files::Proof;
use row_core::{Multipliers, Plan};
use std::alloc::{AllocError, Global};

/// The form of numbers: fractions where they are to be exact, else decimals.
pub fn form_of(exact: bool) -> NumberForm
    ensures { result ≡ form_of exact }
{
    if exact {
        NumberForm::Fractions
    } else {
        NumberForm::Decimals
    }
}

/// What is shown of a proof that `check` accepts over these rows: of an optimum the table of its plan, or of its multipliers; of a
/// refutation and of a plan with a direction, which have no table, what they show.
pub fn answer_shown(
    alloc: Global,
    source: Source<'_>,
    proof: &Proof,
    shown: Shown,
) -> Result<Answer, AllocError>
    requires places { IsPlaces source.places }
    requires shown { IsShowable source.model.now.facts shown }
    requires listed { AllByRecursion (IsListedRow source.model.now.facts.sets) (map name_of_row source.rows.now) }
    requires within { HasPlanWithin source.model.now.facts.sets proof.now }
    ensures { IfOk result (λ answer. ShowsProof source.entry.places source.entry.model.now.facts source.entry.rows.now shown source.entry.form proof.now answer.status answer.text.items) }
{
    match proof {
        Proof::Optimum { plan, multipliers } => {
            show_optimum(alloc, source, plan, multipliers, shown)
        }
        Proof::Refutation { .. } => tell(alloc, Status::Infeasible, b"accepted infeasible"),
        Proof::Descent { .. } => tell(alloc, Status::Unbounded, b"accepted unbounded"),
    }
}

// What is shown of a plan and of multipliers.
fn show_optimum(
    alloc: Global,
    source: Source<'_>,
    plan: &Plan,
    multipliers: &Multipliers,
    shown: Shown,
) -> Result<Answer, AllocError>
    requires places { IsPlaces source.places }
    requires shown { IsShowable source.model.now.facts shown }
    requires listed { AllByRecursion (IsListedRow source.model.now.facts.sets) (map name_of_row source.rows.now) }
    requires within { AllByRecursion (λ e. VariableIsWithin source.model.now.facts.sets e.0) plan.now }
    ensures { IfOk result (λ answer. (answer.status ≡ Status.Done)
        × (answer.text.items ≡ shown_text source.entry.form source.entry.places source.entry.model.now.facts source.entry.rows.now plan.now multipliers.now shown)) }
{
    let Source {
        model,
        rows,
        places,
        form,
    } = source;
    let sets = model.sets();
    let text = match shown {
        Shown::Values(table) => table_text(alloc, sets, plan, table, form)?,
        Shown::Prices(table) => price_text(alloc, sets, rows, multipliers, table, form)?,
        Shown::Data(table) => data_text(alloc, model, places, table, form)?,
        Shown::Page => plan_tables(alloc, source, plan, multipliers)?,
    };
    let status = Status::Done;
    Ok(Answer { status, text })
}

/// The answer to a name that no table has.
pub fn refuse_table(alloc: Global, name: &str) -> Result<Answer, AllocError>
    ensures { IfOk result (λ answer. (answer.status ≡ Status.Refused Refusal.UnknownTable)
        × (answer.text.items ≡ unknown_table_line name.now)) }
{
    let mut text = Vec::from_slice(alloc, b"refused unknown table ")?;
    text.extend_from_slice(name.as_bytes())?;
    text.extend_from_slice(b"\n")?;
    let status = Status::Refused(Refusal::UnknownTable);
    Ok(Answer { status, text })
}

// An answer of one line, which says so.
fn tell(alloc: Global, status: Status, said: &[u8]) -> Result<Answer, AllocError>
    ensures { IfOk result (λ answer. (answer.status ≡ status) × (answer.text.items ≡ line said.now)) }
{
    let mut text = Vec::from_slice(alloc, said)?;
    text.extend_from_slice(b"\n")?;
    Ok(Answer { status, text })
}
