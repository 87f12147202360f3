//! What multipliers that were carried back say, each law as the contract of a function that does nothing.

ghost use Rattle.std.specs.Prelude.{ℕ, ℤ, pos, ◌<ℤ◌, List};
ghost use Rattle.row_core.specs.declared.Row.{Row};
ghost use Rattle.row_core.specs.declared.RowName.{RowName};
ghost use Rattle.row_core.specs.declared.Var.{Var};
ghost use Rattle.written_method.specs.declared.reduced.Reduced.{Reduced};
ghost use Rattle.written_method.specs.Certificates.{Bounds, Refutes};
ghost use Rattle.written_method.specs.Programs.{program_of};
ghost use Rattle.variable_elimination.specs.Certified.{KeepBound, KeepSum, ProvesBound, RefutesRows};
ghost use Rattle.variable_elimination.specs.Columns.{AreChosen};

/// Multipliers that keep the signs, columns and bound of those of the reduced rows prove a bound of the named rows where
/// those prove one of the reduced rows, and refute the named rows where those refute the reduced rows.
pub fn certificate_laws()
    ensures bounds { (rows : List Row) (vars : List Var) (reduced : Reduced) (s : ℤ) (y : RowName → ℤ) (l : ℕ → ℤ) → pos 0 <ℤ reduced.cost_own → AreChosen reduced.columns.items
        → KeepBound rows vars reduced s y l → Bounds (program_of reduced) s l → ProvesBound rows vars reduced.columns.items s y }
    ensures refutes { (rows : List Row) (vars : List Var) (reduced : Reduced) (y : RowName → ℤ) (l : ℕ → ℤ) → AreChosen reduced.columns.items
        → KeepSum rows vars reduced y l → Refutes (program_of reduced) l → RefutesRows rows vars reduced.columns.items y }
{}
