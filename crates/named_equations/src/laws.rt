//! Laws of the named equations. Each is proved as the contract of a function that does nothing.

ghost use Rattle.std.specs.Prelude.{◌≡◌, ◌↔◌, ℕ, ℤ, true};
ghost use Rattle.model_sets.specs.Data.{AreSameData, Data};
ghost use Rattle.row_core.specs.declared.RowName.{RowName};
ghost use Rattle.row_core.specs.declared.Var.{Var};
ghost use Rattle.named_equations.specs.Existence.{exists};
ghost use Rattle.named_equations.specs.Instances.{instances, is_instance};
ghost use Rattle.named_equations.specs.Plans.{Feasible, cost, says};

/// The equations depend on nothing of the data but the sets, the profile, and the value of each used parameter
/// at each of its indices: of two data that are the same in these, whatever was given and whatever came from a
/// default, the instances are the same, each says the same of every plan, with written factors of any number of
/// decimal places, the same variables exist, the same plans are feasible, and each costs the same.
pub fn same_data_laws()
    ensures instances { (d e : Data) → AreSameData d e → instances d ≡ instances e }
    ensures says { (d e : Data) → AreSameData d e → (places q : ℕ) (x : Var → ℤ) (name : RowName) → is_instance d name ≡ true → says places d q x name ≡ says places e q x name }
    ensures exists { (d e : Data) → AreSameData d e → (v : Var) → exists d v ≡ exists e v }
    ensures feasible { (d e : Data) → AreSameData d e → (places q : ℕ) (x : Var → ℤ) → Feasible places d q x ↔ Feasible places e q x }
    ensures cost { (d e : Data) → AreSameData d e → (x : Var → ℤ) → cost d x ≡ cost e x }
{}
