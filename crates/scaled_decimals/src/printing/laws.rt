// Laws of the printed forms. Each is proved as the contract of a function that does nothing.
ghost use Rattle.std.specs.Prelude.{◌≡◌, ◌≢◌, ℕ, ◌*◌, ◌<◌, ◌≤◌, ◌^◌, pos, ◌*ℤ◌, ◌-ℤ◌, unsigned_abs, ◌++◌, length, codes, decimal};
ghost use Rattle.std.specs.Str.Parse.{IsNumeral, digits_value};
ghost use Rattle.exact_num.specs.Value.{value_of};
ghost use Rattle.exact_num.specs.declared.fraction.Frac.{Frac};
ghost use Rattle.scaled_decimals.specs.PrintedFraction.{fraction_text};
ghost use Rattle.scaled_decimals.specs.PrintedPlaces.{millionths, sign_of, places_text, after_point, read_millionths};

/// What a fraction's text is: an optional `-`, the digits of the numerator, and where the denominator isn't 1 a `/` and the digits
/// of the denominator. The digits of a number are digits, and read as that number.
pub fn fraction_laws()
    ensures whole { (v : Frac) → v.den ≡ pos 1
        → fraction_text (value_of v) ≡ sign_of v.num ++ decimal (unsigned_abs v.num) }
    ensures quotient { (v : Frac) → v.den ≢ pos 1
        → fraction_text (value_of v)
        ≡ sign_of v.num ++ decimal (unsigned_abs v.num) ++ codes "/" ++ decimal (unsigned_abs v.den) }
    ensures digits { (n : ℕ) → n < 2 ^ 127 → IsNumeral 10 (decimal n) }
    ensures value { (n : ℕ) → n < 2 ^ 127 → digits_value 10 (decimal n) ≡ n }
{}

/// What a text with six places is: it has six digits after the point, it reads as the rounded number of millionths, which is a
/// nearest one, and of two that are as near the one further from 0; so different rounded numbers never have one text. What rounds
/// to 0 has no `-`.
pub fn places_laws()
    ensures places { (v : Frac) → length (after_point (places_text (value_of v))) ≡ 6 }
    ensures value { (v : Frac) → read_millionths (places_text (value_of v)) ≡ millionths (value_of v) }
    ensures nearest { (v : Frac)
        → 2 * unsigned_abs (millionths (value_of v) *ℤ v.den -ℤ pos 1000000 *ℤ v.num) ≤ unsigned_abs v.den }
    ensures ties { (v : Frac)
        → 2 * unsigned_abs (millionths (value_of v) *ℤ v.den -ℤ pos 1000000 *ℤ v.num) ≡ unsigned_abs v.den
        → 1000000 * unsigned_abs v.num < unsigned_abs (millionths (value_of v)) * unsigned_abs v.den }
    ensures distinct { (v w : Frac) → places_text (value_of v) ≡ places_text (value_of w)
        → millionths (value_of v) ≡ millionths (value_of w) }
    ensures zero { (v : Frac) → millionths (value_of v) ≡ pos 0 → places_text (value_of v) ≡ codes "0.000000" }
{}
