//! Laws of the findings after which no plan exists. Each is proved as the contract of a function that does nothing.

ghost use Rattle.std.specs.Prelude.{◌≡◌, ℕ, ℤ, true, Contains};
ghost use Rattle.named_equations.specs.Plans.{Feasible};
ghost use Rattle.param_tables.specs.Built.{Built};
ghost use Rattle.row_core.specs.declared.Var.{Var};
ghost use Rattle.model_sets.specs.Members.{AreSets};
ghost use Rattle.data_warnings.specs.Findings.{findings};
ghost use Rattle.data_warnings.specs.Lines.{line};
ghost use Rattle.data_warnings.specs.NoPlan.{EndsIn, excludes_plans, no_plan_ending};
ghost use Rattle.data_warnings.specs.declared.places.Finding.{Finding};

/// Where something is found by a rule whose lines end in `no plan`, no plan meets the equations, whatever the decimal places
/// of the written factors.
pub fn no_plan_laws()
    ensures excluded { (b : Built) (f : Finding) → Contains (findings b) f → excludes_plans f.rule ≡ true
        → (places q : ℕ) (x : Var → ℤ) → Feasible places b.facts q x → ⊥ }

    // A line that ends in `: no plan` is of such a rule, whatever the names of members are.
    ensures told { (b : Built) (f : Finding) → AreSets b.facts.sets → Contains (findings b) f → EndsIn no_plan_ending (line b.facts.sets f)
        → (places q : ℕ) (x : Var → ℤ) → Feasible places b.facts q x → ⊥ }
{}
