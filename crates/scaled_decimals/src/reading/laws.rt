// Laws of the definitions that the contracts of reading cite. Each is proved as the contract of a function that does nothing.
ghost use Rattle.std.specs.Prelude.{◌≡◌, ◌+◌, ◌*◌, ◌^◌, ◌<◌, ◌≤◌, ℕ, List, ◌++◌, length};
ghost use Rattle.scaled_decimals.specs.Rounding.{nearest};
ghost use Rattle.scaled_decimals.specs.Digits.{number_of};
ghost use Rattle.scaled_decimals.specs.FractionText.{FractionText, SpellsValue};
ghost use Rattle.scaled_decimals.specs.NumberReading.{NumbersAreFound};
ghost use Rattle.scaled_decimals.specs.NumberText.{NumberText, Spells};

/// A text is spelled by the parts of one number at most, which are those that are found in it, and by those of one exact value at most.
pub fn spelling_laws()
    ensures number { (text : List ℕ) (p q : NumberText) → Spells p text → Spells q text → p ≡ q }
    ensures found { NumbersAreFound }
    ensures value { (text : List ℕ) (f g : FractionText) → SpellsValue f text → SpellsValue g text → f ≡ g }
{}

/// What digits write, and which whole number is the nearest: it is at most one half above `n / d`, and less than one half below it.
pub fn rounding_laws()
    ensures joined { (xs ys : List ℕ) → number_of (xs ++ ys) ≡ number_of xs * 10 ^ length ys + number_of ys }
    ensures above { (n d : ℕ) → 0 < d → 2 * (nearest n d * d) ≤ 2 * n + d }
    ensures below { (n d : ℕ) → 0 < d → 2 * n < 2 * (nearest n d * d) + d }
    ensures exact { (n d : ℕ) → 0 < d → nearest (n * d) d ≡ n }
{}
