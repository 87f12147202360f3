// What limits mean, proved as the contract of a function that does nothing.
ghost use Rattle.std.specs.Prelude.{◌≡◌, ◌<◌, ◌≤ℤ◌, ◌*ℤ◌, ◌↔◌, ℕ, ℤ, pos};
ghost use Rattle.model_sets.specs.Data.{Data};
ghost use Rattle.model_sets.specs.Members.{AreSets};
ghost use Rattle.param_tables.specs.Ranges.{billion};
ghost use Rattle.row_core.specs.declared.Var.{Var};
ghost use Rattle.named_equations.specs.Plans.{Feasible, cost};
ghost use Rattle.named_equations.specs.Within.{IsEmission, IsRegion};
ghost use Rattle.curve_command.specs.Limited.{FeasibleWithin, with_limit};

/// A plan at the limit of so many billionths is one that meets every named equation over the data with that limit, and it costs as much
/// there. A plan at a limit is one at every higher limit.
pub fn limit_laws()
    ensures feasible { (places : ℕ) (d : Data) (r e : ℕ) (limit : ℤ) (q : ℕ) (x : Var → ℤ) → AreSets d.sets → IsRegion d r → IsEmission d e → pos 0 ≤ℤ limit
        → Feasible places (with_limit d r e limit) q x ↔ FeasibleWithin places d r e limit billion q x }
    ensures cost { (d : Data) (r e : ℕ) (limit : ℤ) (x : Var → ℤ) → cost (with_limit d r e limit) x ≡ cost d x }
    ensures higher { (places : ℕ) (d : Data) (r e : ℕ) (a : ℤ) (b : ℕ) (limit : ℤ) (q : ℕ) (x : Var → ℤ) → 0 < b → (a *ℤ pos billion) ≤ℤ (limit *ℤ pos b)
        → FeasibleWithin places d r e a b q x → FeasibleWithin places d r e limit billion q x }
{}
