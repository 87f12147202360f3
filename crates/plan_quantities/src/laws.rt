//! Laws of the quantities and prices of a report. Each is proved as the contract of a function that does nothing.

ghost use Rattle.std.specs.Prelude.{◌≡◌, ◌≢◌, ◌<◌, ℕ, ℤ, pos, ◌+ℤ◌, ◌*ℤ◌, ◌≤ℤ◌, true, List, Contains};
ghost use Rattle.exact_num.specs.Rational.{Rational};
ghost use Rattle.model_sets.specs.Data.{Data};
ghost use Rattle.row_core.specs.declared.Index.{Index};
ghost use Rattle.row_core.specs.declared.Row.{Row};
ghost use Rattle.row_core.specs.declared.RowName.{RowName};
ghost use Rattle.row_core.specs.declared.Var.{Var};
ghost use Rattle.row_core.specs.Values.{IsOver};
ghost use Rattle.named_equations.specs.Existence.{all_variables};
ghost use Rattle.named_equations.specs.Instances.{instances, is_instance};
ghost use Rattle.named_equations.specs.Notation.{scale_of, sum_over};
ghost use Rattle.named_equations.specs.Plans.{Feasible, cost};
ghost use Rattle.named_equations.specs.Positions.{all_years, regions};
ghost use Rattle.row_book.specs.Books.{AreRowsOf};
ghost use Rattle.certificate_checker.specs.Certificates.{AreMultipliersOver, Proves, bound_of};
ghost use Rattle.certificate_checker.specs.Costs.{model_cost};
ghost use Rattle.plan_quantities.specs.CostSums.{cost_of_year, three_factors};
ghost use Rattle.plan_quantities.specs.DataPrices.{IsPromisedOverData};
ghost use Rattle.plan_quantities.specs.Percents.{IsShownPercentPromised};
ghost use Rattle.plan_quantities.specs.Prices.{FeasibleWithMore, IsPromised, balance_at, price_of, price_over};
ghost use Rattle.plan_quantities.specs.Quantities.{AreQuantities};
ghost use Rattle.plan_quantities.specs.RowPrices.{FeasibleWithLess, IsRowPromised, row_price_over};
ghost use Rattle.price_tables.specs.declared.shown.PriceTable.{PriceTable};
ghost use Rattle.price_tables.specs.PriceAmounts.{row_price};
ghost use Rattle.plan_quantities.specs.ShownRows.{IsToBeShown};
ghost use Rattle.plan_quantities.specs.SpokenRows.{AreSpokenOf, HaveEntries, MovesByUnit, SpeaksOf};
ghost use Rattle.price_tables.specs.PricedRows.{priced_rows};
ghost use Rattle.row_core.specs.Order.{row_name_cmp};
ghost use Rattle.row_core.specs.Plans.{value_in};
ghost use Rattle.std.specs.List.{AllByRecursion};
ghost use Rattle.row_core.specs.declared.kind_numbers.TheConstants.{PRODUCTION};
ghost use Rattle.named_equations.specs.Variables.{variable};

/// Each quantity of a feasible plan is its defining sum over RateOfActivity, NewCapacity and Trade, and so is the cost.
pub fn quantity_laws()
    ensures quantities { (places : ℕ) (d : Data) (q : ℕ) (x : Var → ℤ) → Feasible places d q x → AreQuantities places d q x }
    ensures cost { (places : ℕ) (d : Data) (q : ℕ) (x : Var → ℤ) → Feasible places d q x
        → scale_of 3 *ℤ three_factors places *ℤ cost d x ≡ sum_over (regions d) (λ r. sum_over (all_years d) (λ y. cost_of_year places d q x r y)) }
{}

/// Multipliers that prove a bound price each fuel: a plan that covers a over b more of it, whatever the sign of a,
/// costs at least the bound and the price times a over b. Once of whole numbers y over s, and once of fractions. Each
/// balance has a row, and so a price.
pub fn price_laws()
    ensures row { (places : ℕ) (d : Data) (rows : List Row) (index : Index) → AreRowsOf places d (instances d) rows → is_instance d (balance_at index) ≡ true
        → (row : Row) × Contains rows row × (row.name ≡ balance_at index) }
    ensures price { (places : ℕ) (d : Data) (rows : List Row) (s : ℕ) (y : RowName → ℤ) (row : Row) (index : Index) (a : ℤ) (b q : ℕ) (x : Var → ℤ)
        → AreRowsOf places d (instances d) rows → Proves model_cost rows (all_variables d) s y
        → Contains rows row → row.name ≡ balance_at index → 0 < b → FeasibleWithMore places d index a b q x
        → ((bound_of y rows *ℤ pos b +ℤ price_over y row *ℤ a) *ℤ pos q) ≤ℤ (pos s *ℤ pos b *ℤ cost d x) }
    ensures promised { (places : ℕ) (d : Data) (rows : List Row) (s : ℕ) (y : RowName → ℤ) (multipliers : List (RowName × Rational)) (bound : Rational) (row : Row) (index : Index)
        → AreRowsOf places d (instances d) rows → Proves model_cost rows (all_variables d) s y
        → AreMultipliersOver s y multipliers → IsOver (pos s) bound (bound_of y rows)
        → Contains rows row → row.name ≡ balance_at index → IsPromised places d index bound (price_of multipliers row) }
{}

/// Multipliers that prove a bound price every row: a plan that meets the row's equation with a over b less of a variable p, and all others as
/// they are, costs at least the bound and the price of p at the row times a over b, whatever the sign of a. Once of whole numbers y over s,
/// and once of fractions. Where p stands in the equation with the factor 1, a over b less of it is as much more on the right side, in
/// the data's unit. The price of a fuel is a case: p is the Production of its balance.
pub fn row_price_laws()
    ensures price { (places : ℕ) (d : Data) (rows : List Row) (s : ℕ) (y : RowName → ℤ) (row : Row) (p : Var) (a : ℤ) (b q : ℕ) (x : Var → ℤ)
        → AreRowsOf places d (instances d) rows → Proves model_cost rows (all_variables d) s y
        → Contains rows row → 0 < b → FeasibleWithLess places d row.name p a b q x
        → ((bound_of y rows *ℤ pos b +ℤ row_price_over y row p *ℤ a) *ℤ pos q) ≤ℤ (pos s *ℤ pos b *ℤ cost d x) }
    ensures promised { (places : ℕ) (d : Data) (rows : List Row) (s : ℕ) (y : RowName → ℤ) (multipliers : List (RowName × Rational)) (bound : Rational) (row : Row) (p : Var)
        → AreRowsOf places d (instances d) rows → Proves model_cost rows (all_variables d) s y
        → AreMultipliersOver s y multipliers → IsOver (pos s) bound (bound_of y rows)
        → Contains rows row → IsRowPromised places d row.name p bound (row_price multipliers row p) }
    ensures fuel { (places : ℕ) (d : Data) (index : Index) (a : ℤ) (b q : ℕ) (x : Var → ℤ)
        → is_instance d (balance_at index) ≡ true → 0 < b → FeasibleWithMore places d index a b q x
        → FeasibleWithLess places d (balance_at index) (variable PRODUCTION index) a b q x }
{}

/// Where multipliers prove a bound over the rows of the equations, each price of a table of limits or fuels is promised: a plan that meets the row's
/// equation with a over b less of the variable of which it speaks, and all others as they are, costs at least the bound and the price
/// times a over b, whatever the sign of a.
pub fn table_laws()
    ensures { (places : ℕ) (d : Data) (rows : List Row) (s : ℕ) (y : RowName → ℤ) (multipliers : List (RowName × Rational)) (bound : Rational) (table : PriceTable)
        → AreRowsOf places d (instances d) rows → Proves model_cost rows (all_variables d) s y
        → AreMultipliersOver s y multipliers → IsOver (pos s) bound (bound_of y rows)
        → AllByRecursion (λ e. IsRowPromised places d e.0.name e.1 bound (row_price multipliers e.0 e.1)) (priced_rows table multipliers rows) }
{}

/// A table of prices forgets no row: each limit and each balance of a fuel whose multiplier isn't 0 is shown, with a variable.
pub fn shown_row_laws()
    ensures { (places : ℕ) (d : Data) (table : PriceTable) (multipliers : List (RowName × Rational)) (rows : List Row) (row : Row)
        → IsToBeShown places d table row.name → Contains rows row → (value_in row_name_cmp multipliers row.name).top ≢ pos 0
        → (p : Var) × Contains (priced_rows table multipliers rows) (row, p) }
{}

/// Of the rows of the equations, each that a table of prices shows speaks of the variable beside it: this one is alone on a side of the row's equation,
/// with the factor 1, and the row has an entry other than 0 there. With more of a variable of which an equation speaks, one side of it is above the other by
/// as much more, in the data's unit.
pub fn spoken_row_laws()
    ensures spoken { (places : ℕ) (d : Data) (table : PriceTable) (multipliers : List (RowName × Rational)) (rows : List Row)
        → AreRowsOf places d (instances d) rows → AreSpokenOf places (priced_rows table multipliers rows) }
    ensures entries { (places : ℕ) (d : Data) (table : PriceTable) (multipliers : List (RowName × Rational)) (rows : List Row)
        → AreRowsOf places d (instances d) rows → HaveEntries (priced_rows table multipliers rows) }
    ensures moves { (places : ℕ) (name : RowName) (p : Var) → SpeaksOf places name p → MovesByUnit places name p }
{}

/// Where multipliers prove a bound over the rows of the equations, each price of a table is promised over the data. A plan that is feasible of the data with another limit or
/// another annual demand, with which the equation still stands, and with all else as it is, costs at least the bound and the price times what that
/// number is more; and so of the demand of a timeslice.
pub fn data_price_laws()
    ensures { (places : ℕ) (d : Data) (rows : List Row) (s : ℕ) (y : RowName → ℤ) (multipliers : List (RowName × Rational)) (bound : Rational) (table : PriceTable)
        → AreRowsOf places d (instances d) rows → Proves model_cost rows (all_variables d) s y
        → AreMultipliersOver s y multipliers → IsOver (pos s) bound (bound_of y rows)
        → AllByRecursion (λ e. IsPromisedOverData places d e.0.name bound (row_price multipliers e.0 e.1)) (priced_rows table multipliers rows) }
{}

/// Where multipliers prove a bound over the rows of the equations, what one per cent more of a limit saves at most is promised: a plan that meets the row's
/// equation with a hundredth of the limit more costs at least the bound, less that.
pub fn percent_laws()
    ensures { (places : ℕ) (d : Data) (rows : List Row) (s : ℕ) (y : RowName → ℤ) (multipliers : List (RowName × Rational)) (bound : Rational) (table : PriceTable)
        → AreRowsOf places d (instances d) rows → Proves model_cost rows (all_variables d) s y
        → AreMultipliersOver s y multipliers → IsOver (pos s) bound (bound_of y rows)
        → AllByRecursion (IsShownPercentPromised places d multipliers bound) (priced_rows table multipliers rows) }
{}
