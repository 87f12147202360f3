//! A text into blocks, piece by piece: its bytes go through the lexer, and its tokens through the reader of statements.

ghost use Rattle.std.specs.Prelude.{◌≡◌, ◌+◌, ◌*◌, ◌<◌, ◌≤◌, ◌^◌, ◌∷◌, ◌++◌, ℕ, List, [], length, true, false, Ok, Err, IfOk, OnOk};
ghost use Rattle.mathprog_data.specs.declared.fault.DataFault.{DataFault};
ghost use Rattle.mathprog_data.specs.declared.fault.ReadFail.TheVariants.{Fault};
ghost use Rattle.mathprog_data.specs.BlocksView.{blocks_told};
ghost use Rattle.mathprog_data.specs.DraftViews.{draft_view};
ghost use Rattle.mathprog_data.specs.Faults.{end_too_soon};
ghost use Rattle.mathprog_data.specs.Lexing.{Closes};
ghost use Rattle.mathprog_data.specs.LexingMachine.{GoesOn, token_from, next_mark};
ghost use Rattle.mathprog_data.specs.LexingRuns.{run};
ghost use Rattle.mathprog_data.specs.MachineStates.{drafted};
ghost use Rattle.mathprog_data.specs.MachineSteps.{may_end};
ghost use Rattle.mathprog_data.specs.MachineViews.{reader_view, open_view};
ghost use Rattle.mathprog_data.specs.PieceRuns.{outcome_after, IsKept, AreKept, IsShown};
ghost use Rattle.mathprog_data.specs.Places.{place_after};
ghost use Rattle.mathprog_data.specs.ReadingRuns.{Reads, Refuses, outcome_at};

use crate::blocks::Blocks;
use crate::fault::{DataFault, END_TOO_SOON, ReadFail};
use crate::lexer::Lexer;
use crate::span_reader::{SpanReader, TextPiece};
use crate::statements::StatementReader;

/// Takes the next byte of the text, and says whether it closes the text.
#[inline(never)]
fn take_any_byte(
    piece: TextPiece<'_>,
    byte: u8,
    lexer: &mut Lexer,
    spans: &mut SpanReader,
) -> Result<bool, ReadFail>
    requires begun { piece.start ≤ lexer.old.place }
    requires within { lexer.old.place < piece.start + length piece.bytes.now }
    requires short { piece.start + length piece.bytes.now ≤ 67108864 }
    requires kept { IsKept piece.start spans.old.kept.items (token_from lexer.old) }
    requires room { spans.old.tokens.statements.draft.rounded + 2 < 2 ^ 64 }
    ensures place { result ≡ Ok false → lexer.new.place ≡ lexer.old.place + 1 }
    ensures mark { result ≡ Ok false → lexer.new.mark ≡ next_mark lexer.old.mark byte }
    ensures goes_on { result ≡ Ok false → GoesOn lexer.old lexer.new }
    ensures rounded { OnOk result (spans.new.tokens.statements.draft.rounded ≤ spans.old.tokens.statements.draft.rounded + 2) }
    ensures same_kept { spans.new.kept.items ≡ spans.old.kept.items }
    ensures open { result ≡ Ok false → (text : List ℕ) → IsShown text piece.entry spans.old.kept.items (token_from lexer.old) → (bytes : List ℕ) →
        outcome_after text spans.old.tokens (run lexer.old (byte ∷ bytes)) ≡ outcome_after text spans.new.tokens (run lexer.new bytes) }
    ensures closed { result ≡ Ok true → (text : List ℕ) → IsShown text piece.entry spans.old.kept.items (token_from lexer.old) → (bytes : List ℕ) →
        outcome_after text spans.old.tokens (run lexer.old (byte ∷ bytes)) ≡ outcome_at text Closes (Ok (reader_view spans.new.tokens.statements)) }
    ensures fault { (fault : DataFault) → result ≡ Err (Fault fault) →
        (text : List ℕ) → IsShown text piece.entry spans.old.kept.items (token_from lexer.old) → (bytes : List ℕ) →
        outcome_after text spans.old.tokens (run lexer.old (byte ∷ bytes)) ≡ Refuses fault.no fault.at }
{
    let ended = lexer.before(byte);
    match spans.take_seen(piece, ended) {
        Ok(false) => {
            let taken = lexer.take(byte);
            spans.take_seen(piece, taken)
        }
        Ok(true) => Ok(true),
        Err(fail) => Err(fail),
    }
}

/// The same, sooner for the many bytes that end a bare symbol or make nothing whole.
#[inline]
fn take_byte(
    piece: TextPiece<'_>,
    byte: u8,
    lexer: &mut Lexer,
    spans: &mut SpanReader,
) -> Result<bool, ReadFail>
    requires begun { piece.start ≤ lexer.old.place }
    requires within { lexer.old.place < piece.start + length piece.bytes.now }
    requires short { piece.start + length piece.bytes.now ≤ 67108864 }
    requires kept { IsKept piece.start spans.old.kept.items (token_from lexer.old) }
    requires room { spans.old.tokens.statements.draft.rounded + 2 < 2 ^ 64 }
    ensures place { result ≡ Ok false → lexer.new.place ≡ lexer.old.place + 1 }
    ensures mark { result ≡ Ok false → lexer.new.mark ≡ next_mark lexer.old.mark byte }
    ensures goes_on { result ≡ Ok false → GoesOn lexer.old lexer.new }
    ensures rounded { OnOk result (spans.new.tokens.statements.draft.rounded ≤ spans.old.tokens.statements.draft.rounded + 2) }
    ensures same_kept { spans.new.kept.items ≡ spans.old.kept.items }
    ensures open { result ≡ Ok false → (text : List ℕ) → IsShown text piece.entry spans.old.kept.items (token_from lexer.old) → (bytes : List ℕ) →
        outcome_after text spans.old.tokens (run lexer.old (byte ∷ bytes)) ≡ outcome_after text spans.new.tokens (run lexer.new bytes) }
    ensures closed { result ≡ Ok true → (text : List ℕ) → IsShown text piece.entry spans.old.kept.items (token_from lexer.old) → (bytes : List ℕ) →
        outcome_after text spans.old.tokens (run lexer.old (byte ∷ bytes)) ≡ outcome_at text Closes (Ok (reader_view spans.new.tokens.statements)) }
    ensures fault { (fault : DataFault) → result ≡ Err (Fault fault) →
        (text : List ℕ) → IsShown text piece.entry spans.old.kept.items (token_from lexer.old) → (bytes : List ℕ) →
        outcome_after text spans.old.tokens (run lexer.old (byte ∷ bytes)) ≡ Refuses fault.no fault.at }
{
    if let Some(symbol) = lexer.end_symbol(byte) {
        return spans.take_token(piece, &symbol);
    }
    if lexer.pass_over(byte) {
        return Ok(false);
    }
    take_any_byte(piece, byte, lexer, spans)
}

/// Takes the bytes of the piece, and says whether one of them closes the text. Those after that one aren't looked at.
pub(crate) fn take_piece(
    piece: TextPiece<'_>,
    lexer: &mut Lexer,
    spans: &mut SpanReader,
) -> Result<bool, ReadFail>
    requires place { lexer.old.place ≡ piece.start }
    requires short { piece.start + length piece.bytes.now ≤ 67108864 }
    requires kept { IsKept piece.start spans.old.kept.items (token_from lexer.old) }
    requires rounded { spans.old.tokens.statements.draft.rounded ≤ 2 * piece.start }
    ensures place { result ≡ Ok false → lexer.new.place ≡ piece.entry.start + length piece.entry.bytes.now }
    ensures mark { result ≡ Ok false → (front : List ℕ) → lexer.old.mark ≡ place_after front → lexer.new.mark ≡ place_after (front ++ piece.entry.bytes.now) }
    ensures goes_on { result ≡ Ok false → GoesOn lexer.old lexer.new }
    ensures rounded { OnOk result (spans.new.tokens.statements.draft.rounded ≤ 2 * (piece.entry.start + length piece.entry.bytes.now)) }
    ensures same_kept { spans.new.kept.items ≡ spans.old.kept.items }
    ensures open { result ≡ Ok false → (text : List ℕ) → IsShown text piece.entry spans.old.kept.items (token_from lexer.old) → (rest : List ℕ) →
        outcome_after text spans.old.tokens (run lexer.old (piece.entry.bytes.now ++ rest)) ≡ outcome_after text spans.new.tokens (run lexer.new rest) }
    ensures closed { result ≡ Ok true → (text : List ℕ) → IsShown text piece.entry spans.old.kept.items (token_from lexer.old) → (rest : List ℕ) →
        outcome_after text spans.old.tokens (run lexer.old (piece.entry.bytes.now ++ rest)) ≡ outcome_at text Closes (Ok (reader_view spans.new.tokens.statements)) }
    ensures fault { (fault : DataFault) → result ≡ Err (Fault fault) →
        (text : List ℕ) → IsShown text piece.entry spans.old.kept.items (token_from lexer.old) → (rest : List ℕ) →
        outcome_after text spans.old.tokens (run lexer.old (piece.entry.bytes.now ++ rest)) ≡ Refuses fault.no fault.at }
{
    let mut taken = 0;
    while taken < piece.bytes.len() {
        match take_byte(piece, piece.bytes[taken], lexer, spans) {
            Ok(false) => {}
            Ok(true) => return Ok(true),
            Err(fail) => return Err(fail),
        }
        taken += 1;
        taken += lexer.pass_symbol(&piece.bytes[taken..]);
    }
    Ok(false)
}

/// The blocks of the text after its end, or `EndTooSoon` there.
fn finish(lexer: &Lexer, reader: StatementReader) -> Result<Blocks, ReadFail>
    ensures blocks { IfOk result (λ blocks. (may_end (open_view reader) ≡ true) × (blocks_told blocks ≡ drafted (draft_view reader.draft))) }
    ensures fault { (fault : DataFault) → result ≡ Err (Fault fault) →
        (may_end (open_view reader) ≡ false) × (fault ≡ record { no = end_too_soon; at = lexer.now.mark }) }
{
    if reader.may_end() {
        return Ok(reader.into_blocks());
    }
    drop(reader);
    Err(ReadFail::Fault(DataFault {
        no: END_TOO_SOON,
        at: lexer.mark(),
    }))
}

/// What comes of a text that ends here, after so many bytes.
pub(crate) fn end_text(size: u32, lexer: &Lexer, mut spans: SpanReader) -> Result<Blocks, ReadFail>
    requires place { lexer.now.place ≡ size }
    requires kept { IsKept size spans.kept.items (token_from lexer.now) }
    requires room { spans.tokens.statements.draft.rounded + 1 < 2 ^ 64 }
    ensures blocks { IfOk result (λ blocks. (text : List ℕ) → lexer.now.mark ≡ place_after text → AreKept text size spans.kept.items (token_from lexer.now) →
        outcome_after text spans.tokens (run lexer.now []) ≡ Reads (blocks_told blocks)) }
    ensures fault { (fault : DataFault) → result ≡ Err (Fault fault) →
        (text : List ℕ) → lexer.now.mark ≡ place_after text → AreKept text size spans.kept.items (token_from lexer.now) →
        outcome_after text spans.tokens (run lexer.now []) ≡ Refuses fault.no fault.at }
{
    let last = lexer.end();
    let nothing = TextPiece {
        start: size,
        bytes: &[],
    };
    match spans.take_seen(nothing, last) {
        Ok(false) => finish(lexer, spans.tokens.statements),
        Ok(true) => Ok(spans.tokens.statements.into_blocks()),
        Err(fail) => Err(fail),
    }
}
