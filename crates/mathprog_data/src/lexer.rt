//! The lexer: bytes in, tokens by kind and place out.

mod bytes;
mod pending;

ghost use Rattle.std.specs.Prelude.{◌≡◌, ◌+◌, ◌<◌, ◌≤◌, ◌∷◌, ◌++◌, ℕ, List, length, drop, take, true, false, None, Some, IfSome};
ghost use Rattle.std.specs.List.{prefix_len};
ghost use Rattle.mathprog_data.specs.declared.lexer.Seen.TheVariants.{Token};
ghost use Rattle.mathprog_data.specs.LexingRuns.{run, and_then};
ghost use Rattle.mathprog_data.specs.LexingBytes.{is_symbol_byte};
ghost use Rattle.mathprog_data.specs.LexingMachine.{least_length, least_span, IsWithin, GoesOn, token_from, next_mark};
ghost use Rattle.mathprog_data.specs.Places.{place_after};

use crate::blocks::Mark;
use crate::fault::{BAD_BYTE, DataFault, OPEN_COMMENT, OPEN_STRING};
use crate::lexeme::Sign;
use bytes::{
    is_line_feed, is_printable, is_quote, is_separator, is_symbol_byte, sign_of, symbol_length,
};
use pending::{Pending, after_star, in_comment};
use std::marker::Model;

/// What kind of token it is.
#[derive(Clone, Copy, Debug, PartialEq, Eq)]
pub(crate) enum Kind {
    Sign(Sign),
    Bare,
    /// The byte of its quotes.
    Quoted(u8),
}

/// A token by its kind and where it stands, from its first byte up to the one after it.
#[derive(Clone, Copy, Debug, PartialEq, Eq)]
pub(crate) struct Span {
    pub(crate) kind: Kind,
    pub(crate) from: u32,
    pub(crate) to: u32,
    pub(crate) at: Mark,
}

/// What is known before a byte, from a byte, or at the end of the text.
#[derive(Clone, Copy, Debug, PartialEq, Eq)]
pub(crate) enum Seen {
    Nothing,
    Token(Span),
    Fault(DataFault),
}

/// The state between two bytes of a text.
#[derive(Drop)]
pub(crate) struct Lexer {
    /// What was begun and isn't ended yet.
    pending: Pending,
    /// How many bytes were taken.
    place: u32,
    /// How many bytes stand before the first byte of what is pending.
    from: u32,
    /// The line and column of that byte.
    start: Mark,
    /// The line and column of the next byte.
    mark: Mark,
    /// Those of the first byte that may not stand in the quoted symbol that is pending.
    bad: Option<Mark>,
}

impl Model for Lexer {
    ghost use Rattle.std.specs.Prelude.{◌+◌, ◌≤◌};
    ghost use Rattle.mathprog_data.specs.LexingMachine.{State, least_length};

    ghost Value = { State };

    ghost view = { λ lexer. record { pending = lexer.pending; place = lexer.place; mark = lexer.mark; from = lexer.from; start = lexer.start; bad = lexer.bad } };

    ghost invariant = { λ lexer. (lexer.from + least_length lexer.pending ≤ lexer.place) × (lexer.mark.line ≤ lexer.place + 1) × (lexer.mark.column ≤ lexer.place + 1) };
}

impl Lexer {
    ghost use Rattle.mathprog_data.specs.LexingMachine.{first, before, taken, ended, passed, symbols_passed, begun, opened, quoted_taken, token_of, fault_of, closed, sign_taken, sign_of};

    /// Before the first byte of a text.
    pub(crate) fn new() -> Lexer
        ensures { result ≡ first }
    {
        let first = Mark { line: 1, column: 1 };
        Lexer {
            pending: Pending::Gap,
            place: 0,
            mark: first,
            from: 0,
            start: first,
            bad: None,
        }
    }

    /// The place of the next byte.
    pub(crate) fn mark(&self) -> Mark
        ensures { result ≡ self.now.mark }
    {
        self.mark
    }

    /// How many bytes stand before the token that is pending, if one is.
    pub(crate) fn token_from(&self) -> Option<u32>
        ensures value { result ≡ token_from self.now }
        ensures within { IfSome result (λ from. from ≤ self.now.place) }
    {
        match self.pending {
            Pending::Colon | Pending::Bare | Pending::Quoted(_) | Pending::Quote(_) => {
                Some(self.from)
            }
            Pending::Gap
            | Pending::Slash
            | Pending::LineComment
            | Pending::BlockComment
            | Pending::Star => None,
        }
    }

    /// What the end of the text ends.
    pub(crate) fn end(&self) -> Seen
        ensures seen { result ≡ ended self.now self.now.pending }
        ensures within { IsWithin self.now.place self.now.place result }
    {
        match self.pending {
            Pending::Gap | Pending::LineComment => Seen::Nothing,
            Pending::Slash => self.fault(BAD_BYTE),
            Pending::BlockComment | Pending::Star => self.fault(OPEN_COMMENT),
            Pending::Colon => self.token(Kind::Sign(Sign::Colon)),
            Pending::Bare => self.token(Kind::Bare),
            Pending::Quoted(_) => self.fault(OPEN_STRING),
            Pending::Quote(quote) => self.closed(quote),
        }
    }

    /// Goes past the byte, where it is a separator that ends a bare symbol, and answers the symbol. Small, so that it
    /// stands in the loop over the bytes: nearly all tokens end so.
    #[inline(always)]
    pub(crate) fn end_symbol(&mut self, byte: u8) -> Option<Span>
        requires { self.old.place < 67108864 }
        ensures passes { IfSome result (λ span. (bytes : List ℕ) → run self.old (byte ∷ bytes) ≡ and_then (Token span) (run self.new bytes)) }
        ensures begun { IfSome result (λ span. token_from self.old ≡ Some span.from) }
        ensures ended { IfSome result (λ span. token_from self.new ≡ None) }
        ensures order { IfSome result (λ span. span.from + least_span span.kind ≤ span.to) }
        ensures to { IfSome result (λ span. span.to ≡ self.old.place) }
        ensures place { IfSome result (λ span. self.new.place ≡ self.old.place + 1) }
        ensures mark { IfSome result (λ span. self.new.mark ≡ next_mark self.old.mark byte) }
        ensures kept { result ≡ None → self.new ≡ self.old }
    {
        match self.pending {
            Pending::Bare if is_separator(byte) => {
                let symbol = Span {
                    kind: Kind::Bare,
                    from: self.from,
                    to: self.place,
                    at: self.start,
                };
                self.pass(byte, Pending::Gap);
                Some(symbol)
            }
            _ => None,
        }
    }

    /// Goes past the byte, where it ends nothing and makes nothing whole, and says whether it did. Small, so that it
    /// stands in the loop over the bytes: most of them are those of bare symbols.
    #[inline(always)]
    pub(crate) fn pass_over(&mut self, byte: u8) -> bool
        requires { self.old.place < 67108864 }
        ensures passes { result ≡ true → (bytes : List ℕ) → run self.old (byte ∷ bytes) ≡ run self.new bytes }
        ensures goes_on { result ≡ true → GoesOn self.old self.new }
        ensures place { result ≡ true → self.new.place ≡ self.old.place + 1 }
        ensures mark { result ≡ true → self.new.mark ≡ next_mark self.old.mark byte }
        ensures kept { result ≡ false → self.new ≡ self.old }
    {
        match self.pending {
            Pending::Bare => return self.pass_symbol_byte(byte),
            Pending::Gap if is_symbol_byte(byte) => self.begin(byte, Pending::Bare),
            _ => return self.pass_quiet(byte),
        }
        true
    }

    /// Goes past the byte, where it ends nothing, begins nothing and makes nothing whole, and says whether it did.
    #[inline(never)]
    fn pass_quiet(&mut self, byte: u8) -> bool
        requires { self.old.place < 67108864 }
        ensures passes { result ≡ true → (bytes : List ℕ) → run self.old (byte ∷ bytes) ≡ run self.new bytes }
        ensures goes_on { result ≡ true → GoesOn self.old self.new }
        ensures place { result ≡ true → self.new.place ≡ self.old.place + 1 }
        ensures mark { result ≡ true → self.new.mark ≡ next_mark self.old.mark byte }
        ensures kept { result ≡ false → self.new ≡ self.old }
    {
        match self.pending.quiet(byte) {
            Some(pending) => {
                self.pass(byte, pending);
                true
            }
            None => false,
        }
    }

    /// Goes past the byte, where the bare symbol that is pending goes on with it, and says whether it does.
    #[inline(always)]
    fn pass_symbol_byte(&mut self, byte: u8) -> bool
        requires room { self.old.place < 67108864 }
        ensures value { result ≡ is_symbol_byte byte }
        ensures passes { result ≡ true → self.new ≡ passed self.old byte self.old.pending }
        ensures kept { result ≡ false → self.new ≡ self.old }
    {
        if !is_symbol_byte(byte) {
            return false;
        }
        self.mark.column += 1;
        self.place += 1;
        true
    }

    /// Goes past all the bytes in front with which the bare symbol that is pending goes on, where one is, and says how
    /// many they are. So they are counted without a look at the state after each.
    #[inline(always)]
    pub(crate) fn pass_symbol(&mut self, rest: &[u8]) -> usize
        requires { self.old.place + length rest.now ≤ 67108864 }
        ensures count { result ≤ length rest.now }
        ensures passes { (more : List ℕ) → run self.old (rest.now ++ more) ≡ run self.new (drop result rest.now ++ more) }
        ensures goes_on { token_from self.new ≡ token_from self.old }
        ensures place { self.new.place ≡ self.old.place + result }
        ensures mark { (front : List ℕ) → self.old.mark ≡ place_after front → self.new.mark ≡ place_after (front ++ take result rest.now) }
    {
        match self.pending {
            Pending::Bare => self.pass_symbol_bytes(rest),
            _ => 0,
        }
    }

    /// Goes past all the bytes of bare symbols in front, and says how many they are.
    #[inline(always)]
    fn pass_symbol_bytes(&mut self, rest: &[u8]) -> usize
        requires { self.old.place + length rest.now ≤ 67108864 }
        ensures count { result ≡ prefix_len is_symbol_byte rest.now }
        ensures within { result ≤ length rest.now }
        ensures state { self.new ≡ symbols_passed self.old result }
    {
        let count = symbol_length(rest);
        self.mark.column += count as u32;
        self.place += count as u32;
        count
    }

    /// What this byte ends. The byte isn't taken yet.
    #[inline]
    pub(crate) fn before(&mut self, byte: u8) -> Seen
        ensures state { self.new ≡ (before self.old byte).state }
        ensures place { self.new.place ≡ self.old.place }
        ensures mark { self.new.mark ≡ self.old.mark }
        ensures seen { result ≡ (before self.old byte).seen }
        ensures within { IsWithin self.old.place self.old.place result }
    {
        if self.pending.continues(byte) {
            return Seen::Nothing;
        }
        let seen = self.end();
        self.pending = Pending::Gap;
        seen
    }

    /// Takes the byte, with which what is pending goes on, and says what it makes whole.
    #[inline]
    pub(crate) fn take(&mut self, byte: u8) -> Seen
        requires { self.old.place < 67108864 }
        ensures state { self.new ≡ (taken self.old byte).state }
        ensures place { self.new.place ≡ self.old.place + 1 }
        ensures mark { self.new.mark ≡ next_mark self.old.mark byte }
        ensures seen { result ≡ (taken self.old byte).seen }
        ensures within { IsWithin (self.old.place + 1) (self.old.place + 1) result }
    {
        match self.pending {
            Pending::Gap => return self.open(byte),
            Pending::Quoted(quote) => return self.take_quoted(quote, byte),
            Pending::Colon => {
                self.pass(byte, Pending::Gap);
                return self.token(Kind::Sign(Sign::Gives));
            }
            Pending::LineComment => self.pass(byte, Pending::LineComment),
            Pending::Slash => self.pass(byte, Pending::BlockComment),
            Pending::BlockComment => self.pass(byte, in_comment(byte)),
            Pending::Star => self.pass(byte, after_star(byte)),
            Pending::Bare => self.pass(byte, Pending::Bare),
            Pending::Quote(quote) => self.pass(byte, Pending::Quoted(quote)),
        }
        Seen::Nothing
    }

    /// Takes a byte where nothing is pending.
    fn open(&mut self, byte: u8) -> Seen
        requires order { self.old.from ≤ self.old.place }
        requires room { self.old.place < 67108864 }
        ensures state { self.new ≡ (opened self.old byte).state }
        ensures place { self.new.place ≡ self.old.place + 1 }
        ensures mark { self.new.mark ≡ next_mark self.old.mark byte }
        ensures seen { result ≡ (opened self.old byte).seen }
        ensures within { IsWithin (self.old.place + 1) (self.old.place + 1) result }
    {
        if is_symbol_byte(byte) {
            self.begin(byte, Pending::Bare);
        } else if is_separator(byte) {
            self.pass(byte, Pending::Gap);
        } else if byte == b':' {
            self.begin(byte, Pending::Colon);
        } else if is_quote(byte) {
            self.begin(byte, Pending::Quoted(byte));
        } else if byte == b'#' {
            self.begin(byte, Pending::LineComment);
        } else if byte == b'/' {
            self.begin(byte, Pending::Slash);
        } else {
            return self.take_sign(byte);
        }
        Seen::Nothing
    }

    /// Takes a sign of one byte, or tells that nothing begins with this byte.
    fn take_sign(&mut self, byte: u8) -> Seen
        requires order { self.old.from ≤ self.old.place }
        requires room { self.old.place < 67108864 }
        ensures state { self.new ≡ (sign_taken self.old byte (sign_of byte)).state }
        ensures place { self.new.place ≡ self.old.place + 1 }
        ensures mark { self.new.mark ≡ next_mark self.old.mark byte }
        ensures seen { result ≡ (sign_taken self.old byte (sign_of byte)).seen }
        ensures within { IsWithin (self.old.place + 1) (self.old.place + 1) result }
    {
        match sign_of(byte) {
            Some(sign) => {
                self.begin(byte, Pending::Gap);
                self.token(Kind::Sign(sign))
            }
            None => {
                let at = self.mark;
                self.pass(byte, Pending::Gap);
                Seen::Fault(DataFault { no: BAD_BYTE, at })
            }
        }
    }

    /// Takes a byte inside quotes.
    fn take_quoted(&mut self, quote: u8, byte: u8) -> Seen
        requires length { self.old.from + 1 ≤ self.old.place }
        requires room { self.old.place < 67108864 }
        ensures state { self.new ≡ (quoted_taken self.old quote byte).state }
        ensures place { self.new.place ≡ self.old.place + 1 }
        ensures mark { self.new.mark ≡ next_mark self.old.mark byte }
        ensures seen { result ≡ (quoted_taken self.old quote byte).seen }
    {
        if is_line_feed(byte) {
            self.pass(byte, Pending::Gap);
            return self.fault(OPEN_STRING);
        }
        if byte == quote {
            self.pass(byte, Pending::Quote(quote));
            return Seen::Nothing;
        }
        if self.bad.is_none() && !is_printable(byte) {
            self.bad = Some(self.mark);
        }
        self.pass(byte, Pending::Quoted(quote));
        Seen::Nothing
    }

    /// Goes past the byte; then this is pending.
    #[inline]
    fn pass(&mut self, byte: u8, pending: Pending)
        requires length { self.old.from + least_length pending ≤ self.old.place + 1 }
        requires room { self.old.place < 67108864 }
        ensures { self.new ≡ passed self.old byte pending }
    {
        self.pending = pending;
        self.mark = next_mark(self.mark, byte);
        self.place += 1;
    }

    /// Goes past the byte, which is the first of what is pending then.
    fn begin(&mut self, byte: u8, pending: Pending)
        requires length { least_length pending ≤ 1 }
        requires room { self.old.place < 67108864 }
        ensures { self.new ≡ begun self.old byte pending }
    {
        self.pending = pending;
        self.from = self.place;
        self.start = self.mark;
        self.bad = None;
        self.mark = next_mark(self.mark, byte);
        self.place += 1;
    }

    /// The token that ends here.
    fn token(&self, kind: Kind) -> Seen
        requires { self.now.from + least_span kind ≤ self.now.place }
        ensures seen { result ≡ token_of self.now kind }
        ensures within { IsWithin self.now.place self.now.place result }
    {
        Seen::Token(Span {
            kind,
            from: self.from,
            to: self.place,
            at: self.start,
        })
    }

    /// The quoted symbol that is closed here, or the first byte that may not stand in it.
    fn closed(&self, quote: u8) -> Seen
        requires { self.now.from + 2 ≤ self.now.place }
        ensures seen { result ≡ closed self.now quote self.now.bad }
        ensures within { IsWithin self.now.place self.now.place result }
    {
        match self.bad {
            None => self.token(Kind::Quoted(quote)),
            Some(at) => Seen::Fault(DataFault { no: BAD_BYTE, at }),
        }
    }

    /// A fault at the first byte of what is pending.
    fn fault(&self, number: u8) -> Seen
        ensures { result ≡ fault_of self.now number }
    {
        Seen::Fault(DataFault {
            no: number,
            at: self.start,
        })
    }
}

/// The place after a byte at this place.
#[inline]
fn next_mark(mark: Mark, byte: u8) -> Mark
    requires line { mark.line < 4294967295 }
    requires column { mark.column < 4294967295 }
    ensures { result ≡ next_mark mark byte }
{
    if is_line_feed(byte) {
        Mark {
            line: mark.line + 1,
            column: 1,
        }
    } else {
        Mark {
            line: mark.line,
            column: mark.column + 1,
        }
    }
}
