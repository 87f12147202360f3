// The answers of `page`: the page of a proof that `check` accepts.
ghost use Rattle.std.specs.Prelude.{◌≡◌, ◌++◌, IfOk, OnOk, map};
ghost use Rattle.std.specs.List.{AllByRecursion};
ghost use Rattle.discount_factors.specs.Factors.{IsPlaces};
ghost use Rattle.plan_files.specs.Listed.{IsListedRow, name_of_row};
ghost use Rattle.page_command.specs.Pages.{ShowsPage, count_line, page_said, status_of};
ghost use Rattle.page_tables.specs.PageTables.{HasValuesWithin};
ghost use Rattle.result_pages.specs.Pages.{title_of};
ghost use Rattle.plan_tables.specs.declared.shown.NumberForm.TheVariants.{Decimals};

use command_answers::{AcceptedProof, Answer, Status};
use itoa::Buffer;
use page_tables::{Source, proof_tables};
use proof_files::Proof;
use result_pages::{PagePart, Title, plan_page};
use std::alloc::{AllocError, Global};

/// What a page is made of besides the proof.
#[derive(Clone, Copy)]
pub struct Sheet<'a> {
    /// The data file.
    pub title: Title<'a>,
    /// The data and the rows, with numbers as decimals.
    pub source: Source<'a>,
}

/// The page of a proof that `check` accepts over these rows, and its status: of an optimum its plan and its prices; of a refutation that no
/// plan exists; of a plan with a direction that the cost falls without end, and along what. The page has what `check` says, how many numbers
/// of the data were rounded when read, and the tables that it is drawn from.
pub fn answer_page(
    alloc: Global,
    sheet: Sheet<'_>,
    accepted: &AcceptedProof,
) -> Result<Answer, AllocError>
    requires form { sheet.source.form ≡ Decimals }
    requires places { IsPlaces sheet.source.places }
    requires listed { AllByRecursion (IsListedRow sheet.source.model.now.facts.sets) (map name_of_row sheet.source.rows.now) }
    requires within { HasValuesWithin sheet.source.model.now.facts.sets accepted.now.proof }
    ensures { IfOk result (λ answer. ShowsPage (title_of sheet.entry.title) sheet.entry.source.model.now.rounded sheet.entry.source.places sheet.entry.source.model.now.facts sheet.entry.source.rows.now
        accepted.now.said.items accepted.now.proof answer.status answer.text.items) }
{
    let source = sheet.source;
    let rounded = source.model.rounded();
    let said = page_said(alloc, &accepted.said, rounded, source.places)?;
    let tables = proof_tables(alloc, source, &accepted.proof)?;
    let part = PagePart {
        title: sheet.title,
        said: &said,
        tables: &tables,
    };
    let text = plan_page(alloc, part)?;
    let status = status_of(&accepted.proof);
    Ok(Answer { status, text })
}

// The status by what a proof shows.
fn status_of(proof: &Proof) -> Status
    ensures { result ≡ status_of proof.now }
{
    match proof {
        Proof::Optimum { .. } => Status::Done,
        Proof::Refutation { .. } => Status::Infeasible,
        Proof::Descent { .. } => Status::Unbounded,
    }
}

// What is said on the page: what `check` says, how many numbers were rounded, and how many decimal places written factors have.
fn page_said(alloc: Global, said: &[u8], rounded: u64, places: u8) -> Result<Vec<u8>, AllocError>
    ensures { IfOk result (λ text. text.items ≡ page_said said.now rounded places) }
{
    let mut text = Vec::from_slice(alloc, said)?;
    push_count(&mut text, b"rounded ", rounded)?;
    push_count(&mut text, b"places ", u64::from(places))?;
    Ok(text)
}

// Appends a line of a word and a number.
fn push_count(out: &mut Vec<u8>, word: &[u8], n: u64) -> Result<(), AllocError>
    ensures { OnOk result (out.new.items ≡ out.old.items ++ count_line word.now n) }
{
    let mut digits = Buffer::new();
    out.extend_from_slice(word)?;
    out.extend_from_slice(digits.format(n).as_bytes())?;
    out.extend_from_slice(b"\n")
}
