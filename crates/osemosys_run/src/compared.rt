// What `compare` answers over the texts of two data files and the bytes of their proofs: `check` comes first, of one scenario after the other,
// and then the comparison. The rows of the first are gone before those of the second are made.
ghost use Rattle.std.specs.Prelude.{◌≡◌, ◌≤◌, ◌∷◌, ◌++◌, [], List, ℕ, length, map, IfOk, MatchResult};
ghost use Rattle.std.specs.List.{AllByRecursion};
ghost use Rattle.discount_factors.specs.Factors.{IsPlaces};
ghost use Rattle.mathprog_data.specs.Pieces.{StandsFor};
ghost use Rattle.command_answers.specs.Accepted.{most_bytes, source_of};
ghost use Rattle.compare_command.specs.Compared.{AreTablesFor, IsOf, Judged as Scenario};
ghost use Rattle.page_tables.specs.PageTables.{HasValuesWithin};
ghost use Rattle.plan_files.specs.Listed.{IsListedRow, name_of_row};
ghost use Rattle.plan_tables.specs.declared.shown.NumberForm.TheVariants.{Decimals};
ghost use Rattle.request_files.specs.Marked.{AllHold};
ghost use Rattle.osemosys_run.specs.Compared.{DueForCompared};
ghost use Rattle.osemosys_run.specs.Scenarios.{AcceptsOver, IsKept, IsUnkept, RefusesOver, first_source, second_source, written_by};

use check_command::accepted_proof;
use command_answers::{AcceptedProof, Answer, accept_read, made_book};
use command_words::CompareShow;
use compare_command::{Proved, Which, answer_compare, refuse_scenario};
use mathprog_data::PieceReader;
use page_tables::{Source, proof_tables};
use param_tables::ModelData;
use plan_tables::NumberForm;
use proof_files::Proof;
use result_pages::Title;
use std::alloc::{AllocError, Global};

/// What the words after `compare` say besides the proofs: what names the two data files on a page, with their changes, how many millionths of its bound the cost of a plan may
/// be above it, how many decimal places written factors have, and whether a text or a page is written.
#[derive(Clone, Copy)]
pub struct CompareAsked<'a> {
    pub first: Title<'a>,
    pub second: Title<'a>,
    pub gap: u32,
    pub places: u8,
    pub show: CompareShow,
}

/// A scenario as its files tell it: a reader that was fed the text of the data file, and the bytes of the proof.
#[derive(Drop)]
pub struct Pair<'a> {
    pub reader: PieceReader,
    pub proof: &'a [u8],
}

/// A scenario whose proof `check` accepts.
#[derive(Drop)]
struct Judged {
    model: ModelData,
    kept: Kept,
}

/// What is kept of an accepted proof when the rows are gone: the proof, and the tables of its page where one is written.
#[derive(Drop)]
struct Kept {
    accepted: AcceptedProof,
    tables: Vec<u8>,
}

/// What is due for two scenarios whose files were read.
pub fn answer_pairs(
    alloc: Global,
    asked: CompareAsked<'_>,
    first: Pair<'_>,
    second: Pair<'_>,
) -> Result<Answer, AllocError>
    requires first { (text : List ℕ) × StandsFor first.reader text × (length text ≤ most_bytes) }
    requires second { (text : List ℕ) × StandsFor second.reader text × (length text ≤ most_bytes) }
    requires places { IsPlaces asked.places }
    ensures { (text text2 : List ℕ) → StandsFor first.entry.reader text → length text ≤ most_bytes → StandsFor second.entry.reader text2 → length text2 ≤ most_bytes
        → IfOk result (λ answer. DueForCompared (written_by asked.entry) asked.entry.gap (first_source text asked.entry) first.entry.proof.now (second_source text2 asked.entry) second.entry.proof.now answer.status answer.text.items) }
{
    match judge(alloc, first, asked.first.changes, asked)? {
        Ok(one) => answer_second(alloc, asked, &one, second),
        Err(said) => refuse_scenario(alloc, Which::First, said),
    }
}

// What is due for both where `check` accepts the first.
fn answer_second(
    alloc: Global,
    asked: CompareAsked<'_>,
    one: &Judged,
    second: Pair<'_>,
) -> Result<Answer, AllocError>
    requires first { (scenario : Scenario) × IsOf scenario one.now.model.facts.sets one.now.kept.accepted }
    requires second { (text : List ℕ) × StandsFor second.reader text × (length text ≤ most_bytes) }
    requires places { IsPlaces asked.places }
    ensures { (text proof text2 : List ℕ) → IsKept asked.entry.show asked.entry.places asked.entry.gap (first_source text asked.entry) proof one.now.model.facts.sets one.now.kept.accepted one.now.kept.tables.items
        → StandsFor second.entry.reader text2 → length text2 ≤ most_bytes
        → IfOk result (λ answer. DueForCompared (written_by asked.entry) asked.entry.gap (first_source text asked.entry) proof (second_source text2 asked.entry) second.entry.proof.now answer.status answer.text.items) }
{
    match judge(alloc, second, asked.second.changes, asked)? {
        Ok(two) => {
            let first = Proved {
                title: asked.first,
                sets: one.model.sets(),
                accepted: &one.kept.accepted,
                tables: one.kept.tables.as_slice(),
            };
            let second = Proved {
                title: asked.second,
                sets: two.model.sets(),
                accepted: &two.kept.accepted,
                tables: two.kept.tables.as_slice(),
            };
            answer_compare(alloc, asked.show, first, second)
        }
        Err(said) => refuse_scenario(alloc, Which::Second, said),
    }
}

// What `check` says of a scenario: the data and the proof where it accepts it, else its answer.
fn judge(
    alloc: Global,
    pair: Pair<'_>,
    changes: Option<&[u8]>,
    asked: CompareAsked<'_>,
) -> Result<Result<Judged, Answer>, AllocError>
    requires stands { (text : List ℕ) × StandsFor pair.reader text }
    requires places { IsPlaces asked.places }
    ensures { (text : List ℕ) → StandsFor pair.entry.reader text → length text ≤ most_bytes → IfOk result (λ verdict. MatchResult verdict
        (λ judged. IsKept asked.entry.show asked.entry.places asked.entry.gap (source_of text changes.entry) pair.entry.proof.now judged.model.facts.sets judged.kept.accepted judged.kept.tables.items)
        (λ said. IsUnkept asked.entry.places asked.entry.gap (source_of text changes.entry) pair.entry.proof.now said.status said.text.items)) }
{
    let Pair { reader, proof } = pair;
    match accept_read(alloc, reader, changes)? {
        Ok(model) => match judge_over(alloc, &model, proof, asked)? {
            Ok(kept) => Ok(Ok(Judged { model, kept })),
            Err(said) => Ok(Err(said)),
        },
        Err(said) => Ok(Err(said)),
    }
}

// What it says over the data of a model, for the bytes of a proof. The rows are gone when the proof comes back.
fn judge_over(
    alloc: Global,
    model: &ModelData,
    proof: &[u8],
    asked: CompareAsked<'_>,
) -> Result<Result<Kept, Answer>, AllocError>
    requires { IsPlaces asked.places }
    ensures { IfOk result (λ verdict. MatchResult verdict
        (λ kept. AcceptsOver asked.entry.show asked.entry.places asked.entry.gap model.now.facts proof.now kept.accepted kept.tables.items)
        (λ said. RefusesOver asked.entry.places asked.entry.gap model.now.facts proof.now said.status said.text.items)) }
{
    match made_book(alloc, model, asked.places)? {
        Ok(book) => match accepted_proof(alloc, &book, model.sets(), proof, asked.gap)? {
            Ok(accepted) => {
                let source = Source {
                    model,
                    rows: book.rows(),
                    places: asked.places,
                    form: NumberForm::Decimals,
                };
                let tables = tables_for(alloc, source, &accepted.proof, asked.show)?;
                Ok(Ok(Kept { accepted, tables }))
            }
            Err(said) => Ok(Err(said)),
        },
        Err(answer) => Ok(Err(answer)),
    }
}

// The tables that the page of a proof over these rows is drawn from, where a page is written.
fn tables_for(
    alloc: Global,
    source: Source<'_>,
    proof: &Proof,
    show: CompareShow,
) -> Result<Vec<u8>, AllocError>
    requires form { source.form ≡ Decimals }
    requires places { IsPlaces source.places }
    requires listed { AllByRecursion (IsListedRow source.model.now.facts.sets) (map name_of_row source.rows.now) }
    requires within { HasValuesWithin source.model.now.facts.sets proof.now }
    ensures { IfOk result (λ tables. AreTablesFor show source.entry.places source.entry.model.now.facts source.entry.rows.now proof.now tables.items) }
{
    match show {
        CompareShow::Text => Ok(Vec::new(alloc)),
        CompareShow::Page => proof_tables(alloc, source, proof),
    }
}

/// The last of the readers, of which there is one.
pub fn last_reader(fed: &mut Vec<PieceReader>) -> PieceReader
    requires { (texts : List (List ℕ)) × (text : List ℕ) × AllHold StandsFor fed.old.items (texts ++ text ∷ []) }
    ensures { (texts : List (List ℕ)) (text : List ℕ) → AllHold StandsFor fed.old.items (texts ++ text ∷ [])
        → AllHold StandsFor fed.new.items texts × StandsFor result text }
{
    let Some(reader) = fed.pop() else {
        unreachable!()
    };
    reader
}
