// The form of an exact value's text.
ghost use Rattle.std.specs.Prelude.{◌≡◌, MatchOption};
ghost use Rattle.scaled_decimals.specs.FractionText.{Form, IsFormed, form_bytes};
ghost use Rattle.scaled_decimals.specs.PartsReading.{form_of};

use crate::reading::digits::{numeral_after, split_digits};

// Digits, digits over digits, or digits with digits after a point.
#[derive(Clone, Copy, Drop)]
pub enum Shape<'a> {
    Whole(&'a [u8]),
    Quotient(&'a [u8], &'a [u8]),
    Decimal(&'a [u8], &'a [u8]),
}

// The form of a text without a sign; none where it has none of the three.
pub fn shape_of(text: &[u8]) -> Option<Shape<'_>>
    ensures { MatchOption result ((f : Form) → IsFormed f → text.now ≡ form_bytes f → ⊥) (λ s. IsFormed (form_of s) × (text.now ≡ form_bytes (form_of s))) }
{
    let (front, rest) = split_digits(text);
    if front.is_empty() {
        return None;
    }
    if rest.is_empty() {
        Some(Shape::Whole(front))
    } else if let Some(below) = numeral_after(rest, b'/') {
        Some(Shape::Quotient(front, below))
    } else if let Some(places) = numeral_after(rest, b'.') {
        Some(Shape::Decimal(front, places))
    } else {
        None
    }
}
