//! A law of the definitions, proved as the contract of a function that does nothing.

ghost use Rattle.std.specs.Prelude.{◌≡◌, IsTrue, List, map};
ghost use Rattle.std.specs.List.{AllByRecursion};
ghost use Rattle.exact_num.specs.Rational.{Rational};
ghost use Rattle.plan_files.specs.Listed.{name_of_row};
ghost use Rattle.row_core.specs.declared.Row.{Row};
ghost use Rattle.row_core.specs.declared.RowName.{RowName};
ghost use Rattle.row_core.specs.Numbers.{ascends};
ghost use Rattle.row_core.specs.Order.{row_name_cmp};
ghost use Rattle.result_tables.specs.Prices.{price_at, prices};

/// Each price that the table has is the price at its name.
pub fn price_laws()
    ensures { (rows : List Row) (multipliers : List (RowName × Rational)) → IsTrue (ascends row_name_cmp (map name_of_row rows))
        → AllByRecursion (λ e. e.1 ≡ price_at rows multipliers e.0) (prices rows multipliers) }
{}
