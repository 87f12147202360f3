//! Laws of the definitions, proved as contracts of functions that do nothing.

ghost use Rattle.std.specs.Prelude.{◌≡◌, ℕ, List, false};
ghost use Rattle.std.specs.List.{list_any};
ghost use Rattle.result_pages.specs.Escaping.{escaped, is_markup};

/// No byte of a text as it is written begins or ends a tag or an attribute's value.
pub fn escaping_laws()
    ensures { (text : List ℕ) → list_any is_markup (escaped text) ≡ false }
{}
