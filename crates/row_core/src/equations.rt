//! The named equations of the OSeMOSYS long code: their words and their subscripts.

ghost use Rattle.std.specs.Prelude.{◌≡◌, ◌<◌, ℕ, map};
ghost use Rattle.row_core.specs.Equations.{IsEquation, equations, equation_at, word_of_equation, equation_has};
ghost use Rattle.row_core.specs.Tables.{described_equation};
ghost use Rattle.row_core.specs.Words.{IsPlain};

use crate::equation_numbers::EQUATION_COUNT;
use crate::subscripts::{E, F, L, M, R, RR, T, Y};

/// The equations from number 1 on: the word of each and the places of its subscripts.
pub const EQUATIONS: [(&str, &[u8]); EQUATION_COUNT] = [
    ("EQ_SpecifiedDemand", &[R, L, F, Y]),
    ("CAa1", &[R, T, Y]),
    ("CAa2", &[R, T, Y]),
    ("CAa3", &[R, L, T, Y]),
    ("CAa4", &[R, L, T, Y]),
    ("CAb1", &[R, T, Y]),
    ("EBa1", &[R, L, T, F, M, Y]),
    ("EBa2", &[R, L, T, F, Y]),
    ("EBa3", &[R, L, F, Y]),
    ("EBa4", &[R, L, T, F, M, Y]),
    ("EBa5", &[R, L, T, F, Y]),
    ("EBa6", &[R, L, F, Y]),
    ("EBa7", &[R, L, F, Y]),
    ("EBa8", &[R, L, F, Y]),
    ("EBa9", &[R, L, F, Y]),
    ("EBa10", &[R, RR, L, F, Y]),
    ("EBa11", &[R, L, F, Y]),
    ("EBb1", &[R, F, Y]),
    ("EBb2", &[R, F, Y]),
    ("EBb3", &[R, RR, F, Y]),
    ("EBb4", &[R, F, Y]),
    ("Acc1", &[R, L, T, F, Y]),
    ("Acc2", &[R, L, T, F, Y]),
    ("Acc3", &[R, T, M, Y]),
    ("CC1", &[R, T, Y]),
    ("CC2", &[R, T, Y]),
    ("SV1", &[R, T, Y]),
    ("SV2", &[R, T, Y]),
    ("SV3", &[R, T, Y]),
    ("SV4", &[R, T, Y]),
    ("OC1", &[R, T, Y]),
    ("OC2", &[R, T, Y]),
    ("OC3", &[R, T, Y]),
    ("OC4", &[R, T, Y]),
    ("E1", &[R, T, E, M, Y]),
    ("E2", &[R, T, E, Y]),
    ("E3", &[R, T, E, Y]),
    ("E4", &[R, T, Y]),
    ("E5", &[R, T, Y]),
    ("TDC1", &[R, T, Y]),
    ("TDC2", &[R, Y]),
    ("Acc4", &[R]),
    ("TCC1", &[R, T, Y]),
    ("TCC2", &[R, T, Y]),
    ("NCC1", &[R, T, Y]),
    ("NCC2", &[R, T, Y]),
    ("AAC1", &[R, T, Y]),
    ("AAC2", &[R, T, Y]),
    ("AAC3", &[R, T, Y]),
    ("TAC1", &[R, T]),
    ("TAC2", &[R, T]),
    ("TAC3", &[R, T]),
    ("RM1", &[R, Y]),
    ("RM2", &[R, L, Y]),
    ("RM3", &[R, L, Y]),
    ("RE1", &[R, T, F, Y]),
    ("RE2", &[R, Y]),
    ("RE3", &[R, Y]),
    ("RE4", &[R, Y]),
    ("RE5", &[R, T, F, Y]),
    ("E6", &[R, E, Y]),
    ("E7", &[R, E]),
    ("E8", &[R, E, Y]),
    ("E9", &[R, E]),
];

/// An entry of the table.
type Entry = (&'static str, &'static [u8]);

/// The equation of this number in the table.
fn look_up(table: &'static [Entry], eq: u8) -> &'static Entry
    requires listed { IsEquation eq }
    requires tabled { map described_equation table.now ≡ equations }
    ensures { described_equation result.now ≡ equation_at eq }
{
    &table[eq as usize - 1]
}

/// The equation of this number.
fn entry(eq: u8) -> &'static Entry
    requires { IsEquation eq }
    ensures { described_equation result.now ≡ equation_at eq }
{
    look_up(&EQUATIONS, eq)
}

/// The word with which the names of this equation's rows begin: mostly what stands before the first
/// underscore of the constraint's name in the long code, as `CAa1` of `CAa1_TotalNewCapacity`. No two
/// equations have the same word.
pub fn row_word(eq: u8) -> &'static str
    requires { IsEquation eq }
    ensures word { result.now ≡ word_of_equation eq }
    ensures plain { IsPlain result.now }
    ensures apart { (other : ℕ) → IsEquation other → word_of_equation other ≡ result.now → other ≡ eq }
{
    entry(eq).0
}

/// Whether this equation has the subscript at this place among the fields of `Index`, counted from 0.
pub fn row_has(eq: u8, place: u8) -> bool
    requires listed { IsEquation eq }
    requires within { place < 8 }
    ensures { result ≡ equation_has eq place }
{
    entry(eq).1.contains(&place)
}

/// The places of this equation's subscripts among the fields of `Index`, in order.
pub(crate) fn row_subscripts(eq: u8) -> &'static [u8]
    requires { IsEquation eq }
    ensures { result.now ≡ (equation_at eq).subscripts }
{
    entry(eq).1
}
