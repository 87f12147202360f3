// The answers of `compare` to two proofs that `check` accepts.
ghost use Rattle.std.specs.Prelude.{◌≡◌, ℕ, List, IfOk};
ghost use Rattle.model_sets.specs.Data.{Data};
ghost use Rattle.row_core.specs.declared.Row.{Row};
ghost use Rattle.command_answers.specs.ShownProofs.{HasWorth};
ghost use Rattle.compare_command.specs.Compared.{AreTablesFor, Compares, IsOf, Judged, Shows, not_compared_text};
ghost use Rattle.plan_compare.specs.Comparisons.{head_of};
ghost use Rattle.result_pages.specs.Pages.{compare_page, part_of, title_of};

use crate::scenarios::{Proved, Which, push_scenario};
use crate::standing::{Standing, standing_of};
use command_answers::{Answer, Status};
use command_words::CompareShow;
use plan_compare::{Scenario, compare_text, push_head};
use result_pages::{PagePart, compare_page};
use std::alloc::{AllocError, Global};

/// The line that stands before what `check` says of both scenarios, where there are no two plans.
const NOT_COMPARED: &[u8] = b"not compared\n";

/// What is answered of two proofs that `check` accepts, each over the sets of its data: how their plans differ, as text or as a page, where
/// both are optima; else what `check` says of each, with the status of the first of them that is none.
pub fn answer_compare(
    alloc: Global,
    show: CompareShow,
    first: Proved<'_>,
    second: Proved<'_>,
) -> Result<Answer, AllocError>
    requires first { (d : Data) × (rows : List Row) × HasWorth d rows first.accepted.now.proof first.accepted.now.worth }
    requires second { (d : Data) × (rows : List Row) × HasWorth d rows second.accepted.now.proof second.accepted.now.worth }
    ensures { (places : ℕ) (one two : Judged) → IsOf one first.entry.sets.now first.entry.accepted.now → AreTablesFor show places one.data_of one.rows one.proof first.entry.tables.now
        → IsOf two second.entry.sets.now second.entry.accepted.now → AreTablesFor show places two.data_of two.rows two.proof second.entry.tables.now
        → IfOk result (λ answer. Compares (record { show = show; places = places; title = title_of first.entry.title; title2 = title_of second.entry.title }) one two answer.status answer.text.items) }
{
    match standing_of(first) {
        Standing::Planned(one) => match standing_of(second) {
            Standing::Planned(two) => {
                let parts = (part_of(first), part_of(second));
                compare(alloc, show, parts, one, two)
            }
            Standing::Planless(status) => tell_both(alloc, status, first, second),
        },
        Standing::Planless(status) => tell_both(alloc, status, first, second),
    }
}

// What a page shows of a scenario.
fn part_of<'a>(proved: Proved<'a>) -> PagePart<'a>
    ensures { part_of result ≡ record { title = title_of proved.entry.title; said = proved.entry.accepted.now.said.items; tables = proved.entry.tables.now } }
{
    PagePart {
        title: proved.title,
        said: proved.accepted.said.as_slice(),
        tables: proved.tables,
    }
}

// How two plans differ.
fn compare(
    alloc: Global,
    show: CompareShow,
    parts: (PagePart<'_>, PagePart<'_>),
    first: Scenario<'_>,
    second: Scenario<'_>,
) -> Result<Answer, AllocError>
    ensures { IfOk result (λ answer. (answer.status ≡ Status.Done)
        × Shows show (part_of parts.entry.0) (part_of parts.entry.1) first.entry second.entry answer.text.items) }
{
    let text = match show {
        CompareShow::Text => compare_text(alloc, first, second)?,
        CompareShow::Page => page_of(alloc, parts, first, second)?,
    };
    let status = Status::Done;
    Ok(Answer { status, text })
}

// The page of how they differ.
fn page_of(
    alloc: Global,
    parts: (PagePart<'_>, PagePart<'_>),
    first: Scenario<'_>,
    second: Scenario<'_>,
) -> Result<Vec<u8>, AllocError>
    ensures { IfOk result (λ text. text.items ≡ compare_page (part_of parts.entry.0) (part_of parts.entry.1) (head_of first.entry second.entry)) }
{
    let mut head = Vec::new(alloc);
    push_head(&mut head, first, second)?;
    compare_page(alloc, parts.0, parts.1, head.as_slice())
}

// What `check` says of both.
fn tell_both(
    alloc: Global,
    status: Status,
    first: Proved<'_>,
    second: Proved<'_>,
) -> Result<Answer, AllocError>
    ensures { IfOk result (λ answer. (answer.status ≡ status)
        × (answer.text.items ≡ not_compared_text first.entry.accepted.now.said.items second.entry.accepted.now.said.items)) }
{
    let mut text = Vec::from_slice(alloc, NOT_COMPARED)?;
    push_scenario(&mut text, Which::First, first.accepted.said.as_slice())?;
    push_scenario(&mut text, Which::Second, second.accepted.said.as_slice())?;
    Ok(Answer { status, text })
}
