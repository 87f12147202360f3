// From the text of a data file to its data, or to the answer that refuses it. Every command begins here.
ghost use Rattle.std.specs.Prelude.{◌≡◌, ◌≤◌, List, ℕ, None, Ok, length, option_map, IfOk, MatchResult, ⊤};
ghost use Rattle.data_changes.specs.Told.{NamesIndex, fault_told};
ghost use Rattle.mathprog_data.specs.BlocksView.{blocks_told};
ghost use Rattle.mathprog_data.specs.Pieces.{StandsFor};
ghost use Rattle.mathprog_data.specs.Verdicts.{FaultAt, Says};
ghost use Rattle.mathprog_data.specs.WellFormed.{AreWellFormed};
ghost use Rattle.model_sets.specs.Data.{Data};
ghost use Rattle.model_sets.specs.Names.{IsSet};
ghost use Rattle.param_tables.specs.BlockData.{data_told, set_lists};
ghost use Rattle.param_tables.specs.Built.{AreComplete};
ghost use Rattle.param_tables.specs.Canonical.{canonical};
ghost use Rattle.param_tables.specs.Refusals.{first_refusal};
ghost use Rattle.param_tables.specs.SetRefusals.{first_set_refusal};
ghost use Rattle.param_tables.specs.Told.{NamesCell, refusal_told};
ghost use Rattle.command_answers.specs.declared.status.Status.{Status};
ghost use Rattle.command_answers.specs.Accepted.{Accepted, SaysData, Source, built_of, changed_by, most_bytes, plain, source_of};
ghost use Rattle.command_answers.specs.NotAccepted.{DueWhereNotAccepted, RefusesBlocks, RefusesData, RefusesFile, RefusesText, RefusesTold};
ghost use Rattle.command_answers.specs.RefusalLines.{changes_line, data_line, set_line, text_line};

use crate::answer::Answer;
use crate::refusal_lines::{changes_line, data_line, set_line, text_line};
use crate::status::{Refusal, Status};
use data_changes::{ChangesFail, ChangesFault, change_data};
use mathprog_data::{Blocks, DataFault, PieceReader, ReadFail, verdict_laws};
use model_sets::{SetFail, SetFault, Sets};
use param_tables::{BuildFail, BuildFault, ModelData, OpenData, build, sets_of};
use std::alloc::{AllocError, Global};

/// The data of a text, or the answer for its first refusal: of the text, of its sets, or of its data.
///
/// The text and the blocks that it says are gone when the data come back.
pub fn accept(alloc: Global, text: Vec<u8>) -> Result<Result<ModelData, Answer>, AllocError>
    requires { length text.items ≤ most_bytes }
    ensures { IfOk result (λ verdict. MatchResult verdict
        (λ model. (accepted : Accepted (plain text.items) model.facts) × (model.rounded ≡ accepted.rounded))
        (λ answer. DueWhereNotAccepted (plain text.items) answer.status answer.text.items)) }
{
    let reader = read_text(alloc, text)?;
    accept_read(alloc, reader, None)
}

/// The data of the text that a reader was fed, with the changes of a file where there is one, or the answer for the first refusal: of the text,
/// of its sets, of its data, or of the changes.
///
/// What the reader keeps is gone when the data come back.
pub fn accept_read(
    alloc: Global,
    reader: PieceReader,
    changes: Option<&[u8]>,
) -> Result<Result<ModelData, Answer>, AllocError>
    requires { (text : List ℕ) × StandsFor reader text }
    ensures { (text : List ℕ) → StandsFor reader text → length text ≤ most_bytes → IfOk result (λ verdict. MatchResult verdict
        (λ model. (accepted : Accepted (source_of text changes.entry) model.facts) × (model.rounded ≡ accepted.rounded))
        (λ answer. DueWhereNotAccepted (source_of text changes.entry) answer.status answer.text.items)) }
{
    match accept_file(alloc, reader)? {
        Ok(model) => accept_changes(alloc, model, changes),
        Err(answer) => Ok(Err(answer)),
    }
}

/// What a data file says, and its data.
#[derive(Drop)]
pub struct Whole {
    /// What the text says, of which the data keep what the equations use.
    pub blocks: Blocks,
    pub model: ModelData,
}

/// The same as `accept_read` answers, with what the text says beside the data.
pub fn accept_whole(
    alloc: Global,
    reader: PieceReader,
    changes: Option<&[u8]>,
) -> Result<Result<Whole, Answer>, AllocError>
    requires { (text : List ℕ) × StandsFor reader text }
    ensures { (text : List ℕ) → StandsFor reader text → length text ≤ most_bytes → IfOk result (λ verdict. MatchResult verdict
        (λ whole. (accepted : Accepted (source_of text changes.entry) whole.model.facts) × (whole.model.rounded ≡ accepted.rounded) × Says text (blocks_told whole.blocks))
        (λ answer. DueWhereNotAccepted (source_of text changes.entry) answer.status answer.text.items)) }
{
    match whole_file(alloc, reader)? {
        Ok(whole) => change_whole(alloc, whole, changes),
        Err(answer) => Ok(Err(answer)),
    }
}

// The data of the text that a reader was fed, without changes, or the answer for its first refusal.
fn accept_file(alloc: Global, reader: PieceReader) -> Result<Result<ModelData, Answer>, AllocError>
    requires { (text : List ℕ) × StandsFor reader text }
    ensures { (text : List ℕ) → StandsFor reader text → length text ≤ most_bytes → IfOk result (λ verdict. MatchResult verdict
        (λ model. (says : SaysData text) × (model ≡ built_of says.blocks))
        (λ answer. RefusesFile text answer.status answer.text.items)) }
{
    match whole_file(alloc, reader)? {
        Ok(whole) => Ok(Ok(whole.model)),
        Err(answer) => Ok(Err(answer)),
    }
}

// What the text says and its data, without changes, or the answer for its first refusal.
fn whole_file(alloc: Global, reader: PieceReader) -> Result<Result<Whole, Answer>, AllocError>
    requires { (text : List ℕ) × StandsFor reader text }
    ensures { (text : List ℕ) → StandsFor reader text → length text ≤ most_bytes → IfOk result (λ verdict. MatchResult verdict
        (λ whole. (says : SaysData text) × (whole.model ≡ built_of says.blocks) × (says.blocks ≡ blocks_told whole.blocks))
        (λ answer. RefusesFile text answer.status answer.text.items)) }
{
    match end_reading(alloc, reader)? {
        Ok(blocks) => whole_of(alloc, blocks),
        Err(answer) => Ok(Err(answer)),
    }
}

// Blocks with their data, or the answer for their first refusal.
fn whole_of(alloc: Global, blocks: Blocks) -> Result<Result<Whole, Answer>, AllocError>
    requires { AreWellFormed (blocks_told blocks) }
    ensures { IfOk result (λ verdict. MatchResult verdict
        (λ whole. (first_set_refusal (blocks_told blocks) ≡ None) × (first_refusal (blocks_told blocks) ≡ None)
        × (whole.model ≡ built_of (blocks_told blocks)) × (blocks_told blocks ≡ blocks_told whole.blocks))
        (λ answer. RefusesBlocks (blocks_told blocks) answer.status answer.text.items)) }
{
    match accept_blocks(alloc, &blocks)? {
        Ok(model) => Ok(Ok(Whole { blocks, model })),
        Err(answer) => Ok(Err(answer)),
    }
}

// The same blocks with data that the changes of a file have changed, where there is one, or the answer for the first that is refused.
fn change_whole(
    alloc: Global,
    whole: Whole,
    changes: Option<&[u8]>,
) -> Result<Result<Whole, Answer>, AllocError>
    ensures { IfOk result (λ verdict. MatchResult verdict
        (λ changed. (changed_by (option_map (λ text. text.now) changes.entry) whole.model ≡ Ok changed.model) × (changed.blocks ≡ whole.blocks))
        (λ answer. RefusesTold (changed_by (option_map (λ text. text.now) changes.entry) whole.model) whole.model.facts.sets answer.status answer.text.items)) }
{
    let Whole { blocks, model } = whole;
    match accept_changes(alloc, model, changes)? {
        Ok(model) => Ok(Ok(Whole { blocks, model })),
        Err(answer) => Ok(Err(answer)),
    }
}

// Data with the changes of a file, where there is one, or the answer for the first that is refused.
fn accept_changes(
    alloc: Global,
    model: ModelData,
    changes: Option<&[u8]>,
) -> Result<Result<ModelData, Answer>, AllocError>
    ensures { IfOk result (λ verdict. MatchResult verdict
        (λ changed. changed_by (option_map (λ text. text.now) changes.entry) model ≡ Ok changed)
        (λ answer. RefusesTold (changed_by (option_map (λ text. text.now) changes.entry) model) model.facts.sets answer.status answer.text.items)) }
{
    let Some(text) = changes else {
        return Ok(Ok(model));
    };
    let mut opened = OpenData::new(alloc, model)?;
    match change_data(alloc, &mut opened, text) {
        Ok(()) => Ok(Ok(opened.close(alloc)?)),
        Err(ChangesFail::Fault(fault)) => Ok(Err(refuse_changes(alloc, fault, opened.sets())?)),
        Err(ChangesFail::Memory) => Err(AllocError),
    }
}

// A reader that was fed a text. The text is gone then.
fn read_text(alloc: Global, text: Vec<u8>) -> Result<PieceReader, AllocError>
    requires { length text.items ≤ most_bytes }
    ensures { IfOk result (λ reader. StandsFor reader text.items) }
{
    let mut reader = PieceReader::new(alloc)?;
    reader.feed(&text)?;
    Ok(reader)
}

// The blocks that the text of a reader says, or the answer for its first fault.
fn end_reading(alloc: Global, reader: PieceReader) -> Result<Result<Blocks, Answer>, AllocError>
    ensures told { (text : List ℕ) → StandsFor reader text → IfOk result (λ verdict. MatchResult verdict
        (λ blocks. Says text (blocks_told blocks))
        (λ answer. RefusesText text answer.status answer.text.items)) }
    ensures well_formed { (text : List ℕ) → StandsFor reader text → IfOk result (λ verdict. MatchResult verdict (λ blocks. AreWellFormed (blocks_told blocks)) (λ answer. ⊤)) }
{
    match reader.finish() {
        Ok(blocks) => Ok(Ok(blocks)),
        Err(ReadFail::Fault(fault)) => Ok(Err(refuse_text(alloc, fault)?)),
        Err(ReadFail::Memory) => Err(AllocError),
    }
}

// The data of blocks, or the answer for their first refusal.
fn accept_blocks(alloc: Global, blocks: &Blocks) -> Result<Result<ModelData, Answer>, AllocError>
    requires { AreWellFormed (blocks_told blocks.now) }
    ensures { IfOk result (λ verdict. MatchResult verdict
        (λ model. (first_set_refusal (blocks_told blocks.now) ≡ None) × (first_refusal (blocks_told blocks.now) ≡ None)
        × (model.facts ≡ canonical (data_told (blocks_told blocks.now))) × (model.rounded ≡ blocks.now.rounded))
        (λ answer. RefusesBlocks (blocks_told blocks.now) answer.status answer.text.items)) }
{
    match sets_of(alloc, blocks) {
        Ok(sets) => accept_data(alloc, blocks, sets),
        Err(SetFail::Fault(fault)) => Ok(Err(refuse_sets(alloc, fault)?)),
        Err(SetFail::Memory) => Err(AllocError),
    }
}

// The data of blocks whose sets aren't refused, or the answer for their first refusal.
fn accept_data(
    alloc: Global,
    blocks: &Blocks,
    sets: Sets,
) -> Result<Result<ModelData, Answer>, AllocError>
    requires blocks { AreWellFormed (blocks_told blocks.now) }
    requires sets { sets ≡ set_lists (blocks_told blocks.now) }
    requires accepted { first_set_refusal (blocks_told blocks.now) ≡ None }
    ensures { IfOk result (λ verdict. MatchResult verdict
        (λ model. (first_refusal (blocks_told blocks.now) ≡ None) × (model.facts ≡ canonical (data_told (blocks_told blocks.now))) × (model.rounded ≡ blocks.now.rounded))
        (λ answer. RefusesData (blocks_told blocks.now) answer.status answer.text.items)) }
{
    match build(alloc, blocks, sets) {
        Ok(model) => Ok(Ok(model)),
        Err(BuildFail::Fault(fault, sets)) => Ok(Err(refuse_data(alloc, fault, &sets)?)),
        Err(BuildFail::Memory) => Err(AllocError),
    }
}

// The answer to a text with a fault.
fn refuse_text(alloc: Global, fault: DataFault) -> Result<Answer, AllocError>
    ensures { IfOk result (λ answer.
        (answer.status ≡ Status.Refused (Refusal.Text fault)) × (answer.text.items ≡ text_line fault.no fault.at)) }
{
    let text = text_line(alloc, fault)?;
    let status = Status::Refused(Refusal::Text(fault));
    Ok(Answer { status, text })
}

// The answer to sets with a fault.
fn refuse_sets(alloc: Global, fault: SetFault) -> Result<Answer, AllocError>
    requires { IsSet fault.set }
    ensures { IfOk result (λ answer.
        (answer.status ≡ Status.Refused (Refusal.Sets fault)) × (answer.text.items ≡ set_line fault)) }
{
    let text = set_line(alloc, fault)?;
    let status = Status::Refused(Refusal::Sets(fault));
    Ok(Answer { status, text })
}

// The answer to data with a fault, which the sets name.
fn refuse_data(alloc: Global, fault: BuildFault, sets: &Sets) -> Result<Answer, AllocError>
    requires { NamesCell sets.now fault }
    ensures { IfOk result (λ answer.
        (answer.status ≡ Status.Refused (Refusal.Build fault)) × (answer.text.items ≡ data_line (refusal_told sets.now fault))) }
{
    let text = data_line(alloc, &fault, sets)?;
    let status = Status::Refused(Refusal::Build(fault));
    Ok(Answer { status, text })
}

// The answer to changes with a fault, which the sets name.
fn refuse_changes(alloc: Global, fault: ChangesFault, sets: &Sets) -> Result<Answer, AllocError>
    requires { NamesIndex sets.now fault.fault }
    ensures { IfOk result (λ answer.
        (answer.status ≡ Status.Refused (Refusal.Changes fault)) × (answer.text.items ≡ changes_line (fault_told sets.now fault))) }
{
    let text = changes_line(alloc, &fault, sets)?;
    let status = Status::Refused(Refusal::Changes(fault));
    Ok(Answer { status, text })
}

/// Each data file of at most 64 MiB has, with its changes, one data or one first refusal, whose line is one, and never both. The data are complete:
/// their sets are by the rules, and each used parameter has a value in its range at each of its indices.
pub fn acceptance_laws()
    ensures one_data { (source : Source) (d e : Data) → Accepted source d → Accepted source e → d ≡ e }
    ensures one_count { (source : Source) (d e : Data) (a : Accepted source d) (b : Accepted source e) → a.rounded ≡ b.rounded }
    ensures complete { (source : Source) (d : Data) → Accepted source d → AreComplete d }
    ensures not_both { (source : Source) (d : Data) (status : Status) (line : List ℕ) → Accepted source d → DueWhereNotAccepted source status line → ⊥ }
    ensures one_line { (source : Source) (status other : Status) (line another : List ℕ) →
        DueWhereNotAccepted source status line → DueWhereNotAccepted source other another → line ≡ another }
{
    verdict_laws();
}
