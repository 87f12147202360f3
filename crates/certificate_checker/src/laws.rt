//! What certificates are worth, over all plans. Each law is proved as the contract of a function that does nothing.

ghost use Rattle.std.specs.Prelude.{ℕ, ℤ, pos, ◌*ℤ◌, ◌≤ℤ◌, ◌≡◌, true, List, map};
ghost use Rattle.std.specs.List.{AllByRecursion};
ghost use Rattle.exact_num.specs.Rational.{Rational};
ghost use Rattle.exact_num.specs.declared.fraction.Frac.{Frac};
ghost use Rattle.row_core.specs.declared.Row.{Row};
ghost use Rattle.row_core.specs.declared.RowName.{RowName};
ghost use Rattle.row_core.specs.declared.Var.{Var};
ghost use Rattle.row_core.specs.Numbers.{ascends};
ghost use Rattle.row_core.specs.Order.{var_cmp, row_name_cmp};
ghost use Rattle.row_core.specs.Plans.{valued};
ghost use Rattle.certificate_checker.specs.Certificates.{bound_of, Proves, Refutes, Descends, AdmitsNone, CostsLess};
ghost use Rattle.certificate_checker.specs.Costs.{cost_of};
ghost use Rattle.certificate_checker.specs.Denominators.{AreOverSome, HasPositiveBottom};
ghost use Rattle.certificate_checker.specs.Plans.{AllStand, HaveRightSigns, MeetsAll};
ghost use Rattle.certificate_checker.specs.Sums.{weighted, HasVariablesOf};

/// Every list of fractions is a list of whole numbers over one denominator: of values for variables, and of multipliers; also
/// where no more is known of its values than that their denominators are above 0.
pub fn denominator_laws()
    ensures plans { (entries : List (Var × Frac)) → AreOverSome var_cmp (map valued entries) }
    ensures multipliers { (entries : List (RowName × Frac)) → AreOverSome row_name_cmp (map valued entries) }
    ensures rationals { (entries : List (RowName × Rational)) → AllByRecursion HasPositiveBottom entries → AreOverSome row_name_cmp entries }
{}

/// A plan with right signs that meets all rows costs at least the bound of multipliers that prove it. With any other right
/// sides, which need only be whole numbers over the same q as the plan, it costs at least the sum of multiplier times new
/// right side.
pub fn bound_laws()
    ensures bound { (cost : Var → ℤ) (rows : List Row) (vars : List Var) (s : ℕ) (y : RowName → ℤ) (q : ℕ) (x : Var → ℤ)
        → ascends var_cmp vars ≡ true → HasVariablesOf rows vars → Proves cost rows vars s y → MeetsAll rows vars q x
        → (bound_of y rows *ℤ pos q) ≤ℤ (pos s *ℤ cost_of cost vars x) }
    ensures any_right_sides { (cost : Var → ℤ) (rows : List Row) (vars : List Var) (s : ℕ) (y : RowName → ℤ) (right : Row → ℤ) (x : Var → ℤ)
        → ascends var_cmp vars ≡ true → HasVariablesOf rows vars → Proves cost rows vars s y → AllStand right rows x → HaveRightSigns vars x
        → weighted y right rows ≤ℤ (pos s *ℤ cost_of cost vars x) }
{}

/// Multipliers that refute rows leave no plan.
pub fn infeasible_laws()
    ensures { (rows : List Row) (vars : List Var) (s : ℕ) (y : RowName → ℤ)
        → ascends var_cmp vars ≡ true → HasVariablesOf rows vars → Refutes rows vars s y → AdmitsNone rows vars }
{}

/// With one plan and a direction along which the cost falls there is a plan that costs less than any whole number.
pub fn direction_laws()
    ensures { (cost : Var → ℤ) (rows : List Row) (vars : List Var) (d : Var → ℤ) (q : ℕ) (x : Var → ℤ) (n : ℤ)
        → Descends cost rows vars d → MeetsAll rows vars q x → CostsLess cost rows vars n }
{}
