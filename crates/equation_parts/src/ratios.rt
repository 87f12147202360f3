//! Whether a ratio of the data isn't 0: whether a technology makes a fuel, takes it, or gives off an emission.

ghost use Rattle.std.specs.Prelude.{◌≡◌, ℕ, [], ◌∷◌};
ghost use Rattle.std.specs.List.{list_any};
ghost use Rattle.model_sets.specs.Data.{IsUsedParam};
ghost use Rattle.named_equations.specs.Parameters.{value_of};
ghost use Rattle.named_equations.specs.Positions.{modes};
ghost use Rattle.named_equations.specs.Where.{is_not_zero};
ghost use Rattle.named_equations.specs.Within.{IsMode};
ghost use Rattle.param_tables.specs.Positions.{IsIndexOf, names_at};

use model_sets::set_numbers::MODE_OF_OPERATION;
use param_tables::ModelData;

/// Whether the value of a parameter at positions in the sets of its subscripts isn't 0.
pub fn is_not_zero(model: &ModelData, param: u8, index: &[u16]) -> bool
    requires used { IsUsedParam model.now.facts param }
    requires index { IsIndexOf model.now.facts.sets param index.now }
    ensures { result ≡ is_not_zero (value_of model.now.facts param (names_at model.now.facts.sets param index.now)) }
{
    model.at(param, index).num != 0
}

/// Whether a ratio of region, technology, fuel, mode and year isn't 0 in some mode.
pub fn is_not_zero_in_some_mode(
    model: &ModelData,
    ratio: u8,
    r: u16,
    t: u16,
    f: u16,
    y: u16,
) -> bool
    requires used { IsUsedParam model.now.facts ratio }
    requires index { (m : ℕ) → IsMode model.now.facts m → IsIndexOf model.now.facts.sets ratio (r ∷ t ∷ f ∷ m ∷ y ∷ []) }
    ensures { result ≡ list_any (λ m. is_not_zero (value_of model.now.facts ratio (names_at model.now.facts.sets ratio (r ∷ t ∷ f ∷ m ∷ y ∷ [])))) (modes model.now.facts) }
{
    for m in 0..model.sets().count(MODE_OF_OPERATION) {
        if is_not_zero(model, ratio, &[r, t, f, m, y]) {
            return true;
        }
    }
    false
}
