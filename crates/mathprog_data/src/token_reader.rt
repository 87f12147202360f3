//! The tokens of a text, taken up to its closing `end ;`.

ghost use Rattle.std.specs.Prelude.{◌≡◌, ◌+◌, ◌<◌, ◌≤◌, ◌^◌, ℕ, List, length, slice_range, true, false, Ok, Err, OnOk};
ghost use Rattle.mathprog_data.specs.declared.fault.DataFault.{DataFault};
ghost use Rattle.mathprog_data.specs.declared.fault.ReadFail.TheVariants.{Fault};
ghost use Rattle.mathprog_data.specs.declared.closing.Closing.TheVariants.{Free};
ghost use Rattle.mathprog_data.specs.declared.lexer.Seen.TheVariants.{Token};
ghost use Rattle.mathprog_data.specs.Lexemes.{lexeme_of};
ghost use Rattle.mathprog_data.specs.Lexing.{Closes};
ghost use Rattle.mathprog_data.specs.LexingMachine.{least_span};
ghost use Rattle.mathprog_data.specs.LexingRuns.{Run, and_then, lexeme_at};
ghost use Rattle.mathprog_data.specs.MachineSteps.{beginning};
ghost use Rattle.mathprog_data.specs.MachineViews.{reader_view};
ghost use Rattle.mathprog_data.specs.PieceRuns.{outcome_after};
ghost use Rattle.mathprog_data.specs.ReadingRuns.{Refuses, outcome_at};

use crate::closing::Closing;
use crate::fault::{DataFault, ReadFail};
use crate::lexeme::Lexeme;
use crate::lexer::Span;
use crate::spans::lexeme_between;
use crate::statements::StatementReader;
use std::alloc::Global;

/// Takes the tokens of a text one by one.
#[derive(Drop)]
pub(crate) struct TokenReader {
    /// What the tokens so far say of the closing `end ;`.
    closing: Closing,
    pub(crate) statements: StatementReader,
}

impl TokenReader {
    /// Before the first token.
    pub(crate) fn new(alloc: Global) -> TokenReader
        ensures closing { result.closing ≡ Free }
        ensures statements { reader_view result.statements ≡ beginning }
    {
        TokenReader {
            closing: Closing::Free,
            statements: StatementReader::new(alloc),
        }
    }

    /// Takes the token at the span, and says whether it closes the text. Of the text these bytes are at hand, before which so many
    /// stand.
    #[inline(never)]
    pub(crate) fn take(&mut self, bytes: &[u8], start: u32, span: &Span) -> Result<bool, ReadFail>
        requires order { span.now.from + least_span span.now.kind ≤ span.now.to }
        requires begins { start ≤ span.now.from }
        requires within { span.now.to ≤ start + length bytes.now }
        requires room { self.old.statements.draft.rounded + 1 < 2 ^ 64 }
        ensures rounded { OnOk result (self.new.statements.draft.rounded ≤ self.old.statements.draft.rounded + 1) }
        ensures open { result ≡ Ok false → (text : List ℕ) → slice_range text start (start + length bytes.now) ≡ bytes.now → (rest : Run) →
            outcome_after text self.old (and_then (Token span.now) rest) ≡ outcome_after text self.new rest }
        ensures closed { result ≡ Ok true → (text : List ℕ) → slice_range text start (start + length bytes.now) ≡ bytes.now → (rest : Run) →
            outcome_after text self.old (and_then (Token span.now) rest) ≡ outcome_at text Closes (Ok (reader_view self.new.statements)) }
        ensures fault { (fault : DataFault) → result ≡ Err (Fault fault) →
            (text : List ℕ) → slice_range text start (start + length bytes.now) ≡ bytes.now → (rest : Run) →
            outcome_after text self.old (and_then (Token span.now) rest) ≡ Refuses fault.no fault.at }
    {
        let from = (span.from - start) as usize;
        let to = (span.to - start) as usize;
        let lexeme = lexeme_between(bytes, span.kind, from, to);
        let closes = self.closing.closes(&lexeme);
        self.closing = self.closing.after(&lexeme);
        match self.statements.take(lexeme, span.at) {
            Ok(None) => Ok(closes),
            Ok(Some(no)) => Err(ReadFail::Fault(DataFault { no, at: span.at })),
            Err(_) => Err(ReadFail::Memory),
        }
    }
}
