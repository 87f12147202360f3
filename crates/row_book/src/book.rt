//! The book of rows.

ghost use Rattle.std.specs.Prelude.{◌≡◌, ◌<◌, ℕ, true, false, length, Contains, IfErr, IfOk, IfSome, OnOk};
ghost use Rattle.std.specs.List.{AllByRecursion};
ghost use Rattle.row_core.specs.Numbers.{ascends};
ghost use Rattle.row_core.specs.Order.{row_name_cmp};
ghost use Rattle.discount_factors.specs.Factors.{IsPlaces};
ghost use Rattle.named_equations.specs.Existence.{exists};
ghost use Rattle.named_equations.specs.Instances.{instances, variable_of};
ghost use Rattle.row_core.specs.declared.Row.{Row};
ghost use Rattle.row_core.specs.declared.Var.{Var};
ghost use Rattle.row_core.specs.RowLists.{AreVariablesOf, names_of};
ghost use Rattle.row_book.specs.Books.{AreRowsOf, CanBeMade, HasNameWithin, HasStopped, IsWithinSets, NamesRowWithin};
ghost use Rattle.row_book.specs.Definitions.{AreTriangular, IsAt, cost_of};
ghost use Rattle.row_book.specs.Kept.{IsBook, IsDefinedAt};
ghost use Rattle.row_book.specs.Replaced.{AreTwins, IsReplaced};
ghost use Rattle.row_book.specs.Signs.{HaveSigns};

use crate::defined::defined_variable;
use crate::fail::BookFail;
use crate::replaced::position_of_twin;
use crate::rows::all_rows;
use crate::variables::variables_of_rows;
use param_tables::ModelData;
use row_core::kind_numbers::TOTAL_DISCOUNTED_COST;
use row_core::{Row, Var};
use std::alloc::Global;
use std::marker::Model;

/// All rows of a model, in order, and their variables.
#[derive(Drop)]
pub struct RowBook {
    rows: Vec<Row>,
    vars: Vec<Var>,
}

impl Model for RowBook {
    ghost use Rattle.row_book.specs.Books.{Book};
    ghost use Rattle.row_book.specs.Kept.{IsBook};

    ghost Value = { Book };

    ghost view = { λ book. record { rows = book.rows.items; vars = book.vars.items } };

    ghost invariant = { λ book. IsBook book.rows.items book.vars.items };
}

impl RowBook {
    /// The row of each instance of the named equations, by the equation's number and then by subscripts, and
    /// the variables of all entries. Written factors have `places` decimal places, 6 or 9.
    ///
    /// The first row that can't be made is refused: with `Width` and its name where a number that is formed
    /// for it doesn't fit, and else with `TooManyEntries`, where the entries of the rows up to and with it
    /// are more than 4,000,000. `Memory` comes where memory ran out.
    pub fn new(alloc: Global, model: &ModelData, places: u8) -> Result<RowBook, BookFail>
        requires places { IsPlaces places }
        ensures rows { IfOk result (λ book. AreRowsOf places model.now.facts (instances model.now.facts) book.rows) }
        ensures ascending { IfOk result (λ book. ascends row_name_cmp (names_of book.rows) ≡ true) }
        ensures variables { IfOk result (λ book. AreVariablesOf book.rows book.vars) }
        ensures definitions { IfOk result (λ book. AreTriangular book.rows) }
        ensures signs { IfOk result (λ book. HaveSigns book.rows) }

        // Each name is of its list, with the positions of members as its subscripts. The variables are those that
        // exist.
        ensures named { IfOk result (λ book. AllByRecursion (HasNameWithin model.now.facts.sets) book.rows) }
        ensures within { IfOk result (λ book. AllByRecursion (IsWithinSets model.now.facts.sets) book.vars) }
        ensures exist { IfOk result (λ book. AllByRecursion (λ v. exists model.now.facts v ≡ true) book.vars) }
        ensures whole { IfOk result (λ book. (v : Var) → exists model.now.facts v ≡ true → Contains book.vars v) }

        // When there is a book, and why there is none.
        ensures made { OnOk result (CanBeMade places model.now.facts 0 (instances model.now.facts)) }
        ensures stopped { IfErr result (HasStopped places model.now.facts 0 (instances model.now.facts)) }
        ensures place { IfErr result (NamesRowWithin model.now.facts.sets) }
    {
        let rows = match all_rows(alloc, model, places) {
            Ok(rows) => rows,
            Err(fail) => return Err(fail),
        };
        let vars = variables_of_rows(alloc, &rows)?;
        Ok(RowBook { rows, vars })
    }

    /// The rows, which ascend strictly by name.
    pub fn rows(&self) -> &[Row]
        ensures rows { result.now ≡ self.now.rows }
        ensures book { IsBook self.now.rows self.now.vars }
    {
        &self.rows
    }

    /// The variables at which the rows have entries, in strictly ascending order.
    pub fn vars(&self) -> &[Var]
        ensures variables { result.now ≡ self.now.vars }
        ensures book { IsBook self.now.rows self.now.vars }
    {
        &self.vars
    }

    /// The variable that the equation of row `i` defines, if any. The row is an equation with a positive entry
    /// there, and no other row defines that variable.
    pub fn defined_by(&self, i: usize) -> Option<Var>
        requires { i < length self.now.rows }
        ensures defines { (row : Row) → IsAt self.now.rows i row → result ≡ variable_of row.name }
        ensures definition { IfSome result (IsDefinedAt self.now.rows i) }
    {
        defined_variable(self.rows[i].name)
    }

    /// Puts an inequality in the place of the one with its name, where the name defines no variable and both have entries at
    /// the same variables. Answers whether it did; where it didn't, nothing is changed.
    pub fn replace(&mut self, row: Row) -> bool
        ensures replaced { result ≡ true → IsReplaced row self.old.rows self.new.rows }
        ensures kept { result ≡ false → self.new.rows ≡ self.old.rows }
        ensures none { result ≡ false → (i : ℕ) (before : Row) → IsAt self.old.rows i before → AreTwins before row → ⊥ }
        ensures variables { self.new.vars ≡ self.old.vars }
    {
        match position_of_twin(&self.rows, &row) {
            Some(i) => {
                self.rows[i] = row;
                true
            }
            None => false,
        }
    }

    /// The coefficient of a variable in the cost: 1 for TotalDiscountedCost, and 0 for any other.
    pub fn cost_of(&self, var: Var) -> i128
        ensures { result ≡ cost_of var }
    {
        if var.kind == TOTAL_DISCOUNTED_COST {
            1
        } else {
            0
        }
    }
}
