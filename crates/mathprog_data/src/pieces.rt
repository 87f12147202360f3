//! A text that comes in pieces, read into blocks.

ghost use Rattle.std.specs.Prelude.{◌≡◌, ◌+◌, ◌≤◌, ◌++◌, ◌↔◌, ℕ, List, [], length, Err, IfOk, IfErr, IsErr, MatchResult, alloc_error, ◌⊎◌};
ghost use Rattle.mathprog_data.specs.declared.blocks.Mark.{Mark};
ghost use Rattle.mathprog_data.specs.declared.fault.DataFault.{DataFault};
ghost use Rattle.mathprog_data.specs.declared.fault.ReadFail.TheVariants.{Fault, Memory};
ghost use Rattle.mathprog_data.specs.declared.pieces.Stage.TheVariants.{Going, Failed};
ghost use Rattle.mathprog_data.specs.BlocksView.{blocks_told};
ghost use Rattle.mathprog_data.specs.Meaning.{Blocks as SaidBlocks};
ghost use Rattle.mathprog_data.specs.Pieces.{StandsFor, HasFailed, IsKnownOf};
ghost use Rattle.mathprog_data.specs.PieceStages.{standing_of, IsSound};
ghost use Rattle.mathprog_data.specs.ReadingRuns.{Reads, Refuses, outcome_of};
ghost use Rattle.mathprog_data.specs.TokenSlices.{IsMemory, IsFaultOrMemory};
ghost use Rattle.mathprog_data.specs.Verdicts.{Says, FaultAt};
ghost use Rattle.mathprog_data.specs.WellFormed.{AreWellFormed};

use crate::blocks::Blocks;
use crate::byte_reader::{end_text, take_piece};
use crate::fault::ReadFail;
use crate::lexer::Lexer;
use crate::span_reader::{SpanReader, TextPiece};
use std::alloc::{AllocError, Global};
use std::marker::Model;

/// How far the reading of a text has come.
#[derive(Clone, Copy, Debug, PartialEq, Eq)]
enum Stage {
    /// The text goes on.
    Going,
    /// The text had its closing `end ;`.
    Closed,
    /// It had a fault, or memory ran out.
    Failed(ReadFail),
}

/// A reader of a text that comes in pieces, one after the other. A piece may end anywhere, also inside a token or a comment
/// and between the two characters of `:=`, `/*` and `*/`. Beside what the blocks keep, the reader keeps no more of the text
/// than the bytes so far of a token that is open at the end of a piece.
#[derive(Drop)]
pub struct PieceReader {
    /// How many bytes it was fed.
    fed: u32,
    stage: Stage,
    lexer: Lexer,
    spans: SpanReader,
}

impl Model for PieceReader {
    ghost use Rattle.mathprog_data.specs.Pieces.{PieceState};
    ghost use Rattle.mathprog_data.specs.PieceStages.{standing_of, IsSound};

    ghost Value = { PieceState };

    ghost view = { λ r. record { fed = r.fed; standing = standing_of r.stage r.lexer r.spans } };

    ghost invariant = { λ r. IsSound r.stage r.fed r.lexer r.spans };
}

impl PieceReader {
    /// A reader that was fed nothing yet. Refuses where there is no memory for it.
    pub fn new(alloc: Global) -> Result<PieceReader, AllocError>
        ensures stands { IfOk result (λ reader. StandsFor reader []) }
        ensures whole { IfOk result (λ reader. HasFailed reader → ⊥) }
    {
        Ok(PieceReader {
            fed: 0,
            stage: Stage::Going,
            lexer: Lexer::new(),
            spans: SpanReader::new(alloc)?,
        })
    }

    /// How many bytes it was fed: 64 MiB at most.
    pub fn fed(&self) -> u32
        ensures value { result ≡ self.now.fed }
        ensures within { result ≤ 67108864 }
    {
        self.fed
    }

    /// Takes the next piece of the text. All pieces together have 64 MiB at most. After the first fault of the text, and after
    /// its closing `end ;`, the rest is passed over; `finish` tells the fault.
    ///
    /// Refuses where memory runs out, and where it did before: the reader has failed then, and every later call of it is
    /// refused.
    pub fn feed(&mut self, piece: &[u8]) -> Result<(), AllocError>
        requires { self.old.fed + length piece.now ≤ 67108864 }
        ensures fed { self.new.fed ≡ self.old.fed + length piece.now }
        ensures stands { (text : List ℕ) → StandsFor self.old text → StandsFor self.new (text ++ piece.now) }
        ensures memory { IsErr result ↔ HasFailed self.new }
        ensures stays_failed { HasFailed self.old → HasFailed self.new }
    {
        let fed = self.fed + piece.len() as u32;
        let part = TextPiece {
            start: self.fed,
            bytes: piece,
        };
        self.stage = read_on(self.stage, part, &mut self.lexer, &mut self.spans);
        self.fed = fed;
        match self.stage {
            Stage::Failed(ReadFail::Memory) => Err(AllocError),
            _ => Ok(()),
        }
    }

    /// The blocks that the text says which it was fed, in the order of the text.
    ///
    /// # Errors
    ///
    /// - `Fault`: the text says nothing, and this is its first fault, with its number (those of `DataFault`), its line and its column.
    /// - `Memory`: there is no memory for the blocks, or the reader had failed.
    pub fn finish(self) -> Result<Blocks, ReadFail>
        ensures says { (text : List ℕ) → StandsFor self text → IfOk result (λ blocks. Says text (blocks_told blocks)) }
        ensures fault { (text : List ℕ) → StandsFor self text → (fault : DataFault) → result ≡ Err (Fault fault) → FaultAt text fault.no fault.at }
        ensures refuses_no_blocks { (text : List ℕ) → StandsFor self text → (blocks : SaidBlocks) → Says text blocks → IfErr result IsMemory }
        ensures refuses_each_fault { (text : List ℕ) → StandsFor self text → (number : ℕ) (at : Mark) → FaultAt text number at → MatchResult result (λ _. ⊥) (IsFaultOrMemory number at) }
        ensures well_formed { (text : List ℕ) → StandsFor self text → IfOk result (λ blocks. AreWellFormed (blocks_told blocks)) }
        ensures memory { HasFailed self → result ≡ Err Memory }
    {
        let PieceReader {
            fed,
            stage,
            lexer,
            spans,
        } = self;
        read_end(fed, stage, &lexer, spans)
    }
}

/// How far the reading of the text has come with the piece.
fn read_on(stage: Stage, piece: TextPiece<'_>, lexer: &mut Lexer, spans: &mut SpanReader) -> Stage
    requires sound { IsSound stage piece.start lexer.old spans.old }
    requires short { piece.start + length piece.bytes.now ≤ 67108864 }
    ensures sound { IsSound result (piece.entry.start + length piece.entry.bytes.now) lexer.new spans.new }
    ensures known { (text : List ℕ) → length text ≡ piece.entry.start →
        IsKnownOf (standing_of stage lexer.old spans.old) text → IsKnownOf (standing_of result lexer.new spans.new) (text ++ piece.entry.bytes.now) }
    ensures failed { stage ≡ Failed Memory → result ≡ Failed Memory }
{
    match stage {
        Stage::Going => read_piece(piece, lexer, spans),
        Stage::Closed => Stage::Closed,
        Stage::Failed(fail) => Stage::Failed(fail),
    }
}

/// The same of a text that goes on.
fn read_piece(piece: TextPiece<'_>, lexer: &mut Lexer, spans: &mut SpanReader) -> Stage
    requires sound { IsSound Going piece.start lexer.old spans.old }
    requires short { piece.start + length piece.bytes.now ≤ 67108864 }
    ensures sound { IsSound result (piece.entry.start + length piece.entry.bytes.now) lexer.new spans.new }
    ensures known { (text : List ℕ) → length text ≡ piece.entry.start →
        IsKnownOf (standing_of Going lexer.old spans.old) text → IsKnownOf (standing_of result lexer.new spans.new) (text ++ piece.entry.bytes.now) }
{
    match take_piece(piece, lexer, spans) {
        Ok(false) => match spans.keep_open(piece, lexer) {
            Ok(()) => Stage::Going,
            Err(_) => Stage::Failed(ReadFail::Memory),
        },
        Ok(true) => Stage::Closed,
        Err(fail) => Stage::Failed(fail),
    }
}

/// What comes of the text that ends here, after so many bytes.
fn read_end(fed: u32, stage: Stage, lexer: &Lexer, spans: SpanReader) -> Result<Blocks, ReadFail>
    requires { IsSound stage fed lexer.now spans }
    ensures blocks { IfOk result (λ blocks. (text : List ℕ) → length text ≡ fed → IsKnownOf (standing_of stage lexer.now spans) text → outcome_of text ≡ Reads (blocks_told blocks)) }
    ensures fault { (fault : DataFault) → result ≡ Err (Fault fault) →
        (text : List ℕ) → length text ≡ fed → IsKnownOf (standing_of stage lexer.now spans) text → outcome_of text ≡ Refuses fault.no fault.at }
    ensures failed { stage ≡ Failed Memory → result ≡ Err Memory }
{
    match stage {
        Stage::Going => end_text(fed, lexer, spans),
        Stage::Closed => Ok(spans.tokens.statements.into_blocks()),
        Stage::Failed(fail) => Err(fail),
    }
}
