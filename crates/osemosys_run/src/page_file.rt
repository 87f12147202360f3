// What `page` answers over accepted data and the bytes of the file of a proof: `check` comes first, and then the page.
ghost use Rattle.std.specs.Prelude.{◌≡◌, ℕ, IfOk};
ghost use Rattle.discount_factors.specs.Factors.{IsPlaces};
ghost use Rattle.check_command.specs.CheckProof.{DueForProofFile};
ghost use Rattle.command_answers.specs.CheckedPlans.{IsBookOf, IsListedBook};
ghost use Rattle.command_answers.specs.ShownProofs.{DueOverRows};
ghost use Rattle.page_command.specs.Pages.{DueForPage, ShowsPage};
ghost use Rattle.result_pages.specs.Pages.{title_of};

use check_command::accepted_proof;
use command_answers::{Answer, made_book};
use page_command::{Sheet, answer_page};
use page_tables::Source;
use param_tables::ModelData;
use plan_tables::NumberForm;
use result_pages::Title;
use row_book::RowBook;
use std::alloc::{AllocError, Global};

/// What the words after `page` say: what names the data file, with its changes, and how many millionths of the bound the plan's cost may be above it.
#[derive(Clone, Copy)]
pub struct PageAsked<'a> {
    pub title: Title<'a>,
    pub gap: u32,
}

/// What is due for the text of a file of a proof over the data of a model, with written factors of 6 or 9 decimal places: that the rows can't be
/// made, or what `check` says of the proof, where it doesn't accept it; or the page.
pub fn answer_paged(
    alloc: Global,
    model: &ModelData,
    places: u8,
    proof: &[u8],
    asked: PageAsked<'_>,
) -> Result<Answer, AllocError>
    requires { IsPlaces places }
    ensures { IfOk result (λ answer.
        DueForPage (title_of asked.entry.title) model.now.rounded places (λ rows. DueForProofFile places model.now.facts rows proof.now asked.entry.gap) proof.now model.now.facts answer.status answer.text.items) }
{
    match made_book(alloc, model, places)? {
        Ok(book) => answer_over(alloc, model, places, &book, proof, asked),
        Err(answer) => Ok(answer),
    }
}

// What is due over a book of rows.
fn answer_over(
    alloc: Global,
    model: &ModelData,
    places: u8,
    book: &RowBook,
    proof: &[u8],
    asked: PageAsked<'_>,
) -> Result<Answer, AllocError>
    requires places { IsPlaces places }
    requires listed { IsListedBook model.now.facts.sets book.now.rows book.now.vars }
    requires of_data { IsBookOf places model.now.facts book.now.rows book.now.vars }
    ensures { IfOk result (λ answer. DueOverRows (DueForProofFile places model.now.facts book.now.rows proof.now asked.entry.gap) proof.now (ShowsPage (title_of asked.entry.title) model.now.rounded places model.now.facts book.now.rows) model.now.facts answer.status answer.text.items) }
{
    match accepted_proof(alloc, book, model.sets(), proof, asked.gap)? {
        Ok(accepted) => {
            let source = Source {
                model,
                rows: book.rows(),
                places,
                form: NumberForm::Decimals,
            };
            let title = asked.title;
            let sheet = Sheet { title, source };
            answer_page(alloc, sheet, &accepted)
        }
        Err(answer) => Ok(answer),
    }
}
