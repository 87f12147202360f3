//! Tokens by their spans, where only a piece of the text is at hand.

ghost use Rattle.std.specs.Prelude.{◌≡◌, ◌+◌, ◌<◌, ◌≤◌, ◌^◌, ℕ, List, [], length, true, false, Some, Ok, Err, IfOk, OnOk};
ghost use Rattle.mathprog_data.specs.declared.closing.Closing.TheVariants.{Free};
ghost use Rattle.mathprog_data.specs.declared.fault.DataFault.{DataFault};
ghost use Rattle.mathprog_data.specs.declared.fault.ReadFail.TheVariants.{Fault};
ghost use Rattle.mathprog_data.specs.declared.lexer.Seen.TheVariants.{Token};
ghost use Rattle.mathprog_data.specs.Lexing.{Closes};
ghost use Rattle.mathprog_data.specs.LexingMachine.{IsWithin, least_span, token_from};
ghost use Rattle.mathprog_data.specs.LexingRuns.{Run, and_then};
ghost use Rattle.mathprog_data.specs.MachineSteps.{beginning};
ghost use Rattle.mathprog_data.specs.MachineViews.{reader_view};
ghost use Rattle.mathprog_data.specs.PieceRuns.{outcome_after, seen_from, IsKept, AreKept, IsShown};
ghost use Rattle.mathprog_data.specs.ReadingRuns.{Refuses, outcome_at};

use crate::fault::ReadFail;
use crate::lexer::{Lexer, Seen, Span};
use crate::token_reader::TokenReader;
use std::alloc::{AllocError, Global};

/// A piece of a text.
#[derive(Clone, Copy)]
pub(crate) struct TextPiece<'a> {
    /// How many bytes of the text stand before it.
    pub(crate) start: u32,
    pub(crate) bytes: &'a [u8],
}

/// Takes the tokens of a text by their spans. A token that lies in the piece at hand is read there. Of one that was open
/// where the piece begins the bytes so far are kept, so that no more of the text is.
#[derive(Drop)]
pub(crate) struct SpanReader {
    pub(crate) tokens: TokenReader,
    /// The bytes so far of the token that was open where the piece begins.
    kept: Vec<u8>,
}

/// How many bytes of an open token there is room for at once. So the names that a model has, where they are cut, are kept
/// without a further allocation.
const ROOM: usize = 64;

impl SpanReader {
    /// Before the first token.
    pub(crate) fn new(alloc: Global) -> Result<SpanReader, AllocError>
        ensures tokens { IfOk result (λ spans. (spans.tokens.closing ≡ Free) × (reader_view spans.tokens.statements ≡ beginning)) }
        ensures open { IfOk result (λ spans. spans.kept.items ≡ []) }
    {
        Ok(SpanReader {
            tokens: TokenReader::new(alloc),
            kept: Vec::with_capacity(alloc, ROOM)?,
        })
    }

    /// Takes what was seen of the text, and says whether it closes the text.
    #[inline]
    pub(crate) fn take_seen(&mut self, piece: TextPiece<'_>, seen: Seen) -> Result<bool, ReadFail>
        requires within { IsWithin piece.start (piece.start + length piece.bytes.now) seen }
        requires kept { IsKept piece.start self.old.kept.items (seen_from seen) }
        requires room { self.old.tokens.statements.draft.rounded + 1 < 2 ^ 64 }
        ensures rounded { OnOk result (self.new.tokens.statements.draft.rounded ≤ self.old.tokens.statements.draft.rounded + 1) }
        ensures same_kept { self.new.kept.items ≡ self.old.kept.items }
        ensures open { result ≡ Ok false → (text : List ℕ) → IsShown text piece.entry self.old.kept.items (seen_from seen) → (rest : Run) →
            outcome_after text self.old.tokens (and_then seen rest) ≡ outcome_after text self.new.tokens rest }
        ensures closed { result ≡ Ok true → (text : List ℕ) → IsShown text piece.entry self.old.kept.items (seen_from seen) → (rest : Run) →
            outcome_after text self.old.tokens (and_then seen rest) ≡ outcome_at text Closes (Ok (reader_view self.new.tokens.statements)) }
        ensures fault { (fault : DataFault) → result ≡ Err (Fault fault) →
            (text : List ℕ) → IsShown text piece.entry self.old.kept.items (seen_from seen) → (rest : Run) →
            outcome_after text self.old.tokens (and_then seen rest) ≡ Refuses fault.no fault.at }
    {
        match seen {
            Seen::Nothing => Ok(false),
            Seen::Fault(fault) => Err(ReadFail::Fault(fault)),
            Seen::Token(span) => self.take_token(piece, &span),
        }
    }

    /// Takes the token at the span, and says whether it closes the text.
    #[inline(always)]
    pub(crate) fn take_token(&mut self, piece: TextPiece<'_>, span: &Span) -> Result<bool, ReadFail>
        requires order { span.now.from + least_span span.now.kind ≤ span.now.to }
        requires past { piece.start ≤ span.now.to }
        requires within { span.now.to ≤ piece.start + length piece.bytes.now }
        requires kept { IsKept piece.start self.old.kept.items (Some span.now.from) }
        requires room { self.old.tokens.statements.draft.rounded + 1 < 2 ^ 64 }
        ensures rounded { OnOk result (self.new.tokens.statements.draft.rounded ≤ self.old.tokens.statements.draft.rounded + 1) }
        ensures same_kept { self.new.kept.items ≡ self.old.kept.items }
        ensures open { result ≡ Ok false → (text : List ℕ) → IsShown text piece.entry self.old.kept.items (Some span.now.from) → (rest : Run) →
            outcome_after text self.old.tokens (and_then (Token span.now) rest) ≡ outcome_after text self.new.tokens rest }
        ensures closed { result ≡ Ok true → (text : List ℕ) → IsShown text piece.entry self.old.kept.items (Some span.now.from) → (rest : Run) →
            outcome_after text self.old.tokens (and_then (Token span.now) rest) ≡ outcome_at text Closes (Ok (reader_view self.new.tokens.statements)) }
        ensures fault { (fault : DataFault) → result ≡ Err (Fault fault) →
            (text : List ℕ) → IsShown text piece.entry self.old.kept.items (Some span.now.from) → (rest : Run) →
            outcome_after text self.old.tokens (and_then (Token span.now) rest) ≡ Refuses fault.no fault.at }
    {
        if span.from < piece.start {
            return self.take_cut_token(piece, span);
        }
        self.tokens.take(piece.bytes, piece.start, span)
    }

    /// The same of a token that was open where the piece begins.
    #[cold]
    #[inline(never)]
    fn take_cut_token(&mut self, piece: TextPiece<'_>, span: &Span) -> Result<bool, ReadFail>
        requires order { span.now.from + least_span span.now.kind ≤ span.now.to }
        requires cut { span.now.from < piece.start }
        requires past { piece.start ≤ span.now.to }
        requires within { span.now.to ≤ piece.start + length piece.bytes.now }
        requires kept { span.now.from + length self.old.kept.items ≡ piece.start }
        requires room { self.old.tokens.statements.draft.rounded + 1 < 2 ^ 64 }
        ensures rounded { OnOk result (self.new.tokens.statements.draft.rounded ≤ self.old.tokens.statements.draft.rounded + 1) }
        ensures same_kept { self.new.kept.items ≡ self.old.kept.items }
        ensures open { result ≡ Ok false → (text : List ℕ) → IsShown text piece.entry self.old.kept.items (Some span.now.from) → (rest : Run) →
            outcome_after text self.old.tokens (and_then (Token span.now) rest) ≡ outcome_after text self.new.tokens rest }
        ensures closed { result ≡ Ok true → (text : List ℕ) → IsShown text piece.entry self.old.kept.items (Some span.now.from) → (rest : Run) →
            outcome_after text self.old.tokens (and_then (Token span.now) rest) ≡ outcome_at text Closes (Ok (reader_view self.new.tokens.statements)) }
        ensures fault { (fault : DataFault) → result ≡ Err (Fault fault) →
            (text : List ℕ) → IsShown text piece.entry self.old.kept.items (Some span.now.from) → (rest : Run) →
            outcome_after text self.old.tokens (and_then (Token span.now) rest) ≡ Refuses fault.no fault.at }
    {
        let before = self.kept.len();
        let last = &piece.bytes[..(span.to - piece.start) as usize];
        self.kept.extend_from_slice(last)?;
        let taken = self.tokens.take(self.kept.as_slice(), span.from, span);
        self.kept.truncate(before);
        taken
    }

    /// Keeps what there is in the piece of the token that is open at its end, with what was kept of it before.
    pub(crate) fn keep_open(
        &mut self,
        piece: TextPiece<'_>,
        lexer: &Lexer,
    ) -> Result<(), AllocError>
        requires whole { lexer.now.place ≡ piece.start + length piece.bytes.now }
        requires kept { IsKept piece.start self.old.kept.items (token_from lexer.now) }
        ensures tokens { self.new.tokens ≡ self.old.tokens }
        ensures kept { OnOk result (IsKept lexer.now.place self.new.kept.items (token_from lexer.now)) }
        ensures bytes_kept { OnOk result ((text : List ℕ) → IsShown text piece.entry self.old.kept.items (token_from lexer.now) →
            AreKept text lexer.now.place self.new.kept.items (token_from lexer.now)) }
    {
        match lexer.token_from() {
            None => {
                self.kept.clear();
                Ok(())
            }
            Some(from) if from < piece.start => self.kept.extend_from_slice(piece.bytes),
            Some(from) => {
                self.kept.clear();
                self.kept
                    .extend_from_slice(&piece.bytes[(from - piece.start) as usize..])
            }
        }
    }
}
