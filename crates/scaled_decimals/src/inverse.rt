// That printing and reading undo each other. Proved as the contract of a function that does nothing.
ghost use Rattle.std.specs.Prelude.{◌≡◌, Result};
ghost use Rattle.exact_num.specs.Value.{value_of};
ghost use Rattle.exact_num.specs.declared.fraction.Frac.{Frac};
ghost use Rattle.scaled_decimals.specs.declared.reading.DecFault.{DecFault};
ghost use Rattle.scaled_decimals.specs.FractionReading.{ReadsValue};
ghost use Rattle.scaled_decimals.specs.FractionText.{SpellsValue};
ghost use Rattle.scaled_decimals.specs.PrintedFraction.{fraction_text};
ghost use Rattle.scaled_decimals.specs.PrintedParts.{printed_parts, IsValue};

/// A fraction's printed text is the text of an exact value, and whatever is the right answer for it is that fraction: so
/// `exact_value` undoes `push_frac`. Different fractions never have one text.
pub fn inverse_laws()
    ensures spelled { (v : Frac) → SpellsValue (printed_parts (value_of v)) (fraction_text (value_of v)) }
    ensures inverse { (v : Frac) (answer : Result Frac DecFault) → ReadsValue (fraction_text (value_of v)) answer
        → IsValue (value_of v) answer }
    ensures distinct { (v w : Frac) → fraction_text (value_of v) ≡ fraction_text (value_of w) → value_of v ≡ value_of w }
{}
