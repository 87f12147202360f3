// What `table` answers over accepted data and the bytes of the file of a proof: `check` comes first, and then the table.
ghost use Rattle.std.specs.Prelude.{◌≡◌, IfOk};
ghost use Rattle.discount_factors.specs.Factors.{IsPlaces};
ghost use Rattle.check_command.specs.CheckProof.{DueForProofFile};
ghost use Rattle.command_answers.specs.CheckedPlans.{IsBookOf, IsListedBook};
ghost use Rattle.command_answers.specs.ShownProofs.{DueOverRows};
ghost use Rattle.table_command.specs.ShownTables.{IsShowable};
ghost use Rattle.table_command.specs.Tables.{DueForTable, ShowsProof, form_of};

use check_command::accepted_proof;
use command_answers::{Answer, made_book};
use page_tables::Source;
use param_tables::ModelData;
use row_book::RowBook;
use std::alloc::{AllocError, Global};
use table_command::{Shown, answer_shown, form_of, refuse_table, shown_named};

/// What the words after `table` say besides the files: the name of a table, whether its numbers are fractions, and how many millionths of the
/// bound the plan's cost may be above it.
#[derive(Clone, Copy)]
pub struct TableAsked<'a> {
    pub name: &'a str,
    pub exact: bool,
    pub gap: u32,
}

/// What is due for the text of a file of a proof over the data of a model, with written factors of 6 or 9 decimal places: the line for a name that no table has; that the rows can't be made, or what `check` says of the proof, where it doesn't
/// accept it; or the table.
pub fn answer_table(
    alloc: Global,
    model: &ModelData,
    places: u8,
    proof: &[u8],
    asked: TableAsked<'_>,
) -> Result<Answer, AllocError>
    requires { IsPlaces places }
    ensures { IfOk result (λ answer.
        DueForTable places (λ rows. DueForProofFile places model.now.facts rows proof.now asked.entry.gap) proof.now asked.entry.name.now (form_of asked.entry.exact) model.now.facts answer.status answer.text.items) }
{
    let Some(shown) = shown_named(asked.name.as_bytes(), model.second()) else {
        return refuse_table(alloc, asked.name);
    };
    match made_book(alloc, model, places)? {
        Ok(book) => {
            let source = Source {
                model,
                rows: book.rows(),
                places,
                form: form_of(asked.exact),
            };
            answer_over(alloc, &book, source, proof, shown, asked.gap)
        }
        Err(answer) => Ok(answer),
    }
}

// What is due over a book of rows, of a table that there is.
fn answer_over(
    alloc: Global,
    book: &RowBook,
    source: Source<'_>,
    proof: &[u8],
    shown: Shown,
    gap: u32,
) -> Result<Answer, AllocError>
    requires places { IsPlaces source.places }
    requires rows { source.rows.now ≡ book.now.rows }
    requires shown { IsShowable source.model.now.facts shown }
    requires listed { IsListedBook source.model.now.facts.sets book.now.rows book.now.vars }
    requires of_data { IsBookOf source.places source.model.now.facts book.now.rows book.now.vars }
    ensures { IfOk result (λ answer. DueOverRows (DueForProofFile source.entry.places source.entry.model.now.facts book.now.rows proof.now gap) proof.now
        (λ said. ShowsProof source.entry.places source.entry.model.now.facts book.now.rows shown source.entry.form) source.entry.model.now.facts answer.status answer.text.items) }
{
    match accepted_proof(alloc, book, source.model.sets(), proof, gap)? {
        Ok(accepted) => answer_shown(alloc, source, &accepted.proof, shown),
        Err(answer) => Ok(answer),
    }
}
