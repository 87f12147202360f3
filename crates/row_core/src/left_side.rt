//! The left side of an equation, made term by term, and the row that is written from it.

ghost use Rattle.std.specs.Prelude.{◌≡◌, ℕ, ◌<◌, Bool, filter, OnOk};
ghost use Rattle.std.specs.List.{range_with_len};
ghost use Rattle.row_core.specs.declared.Var.{Var};
ghost use Rattle.row_core.specs.Amounts.{Amount};
ghost use Rattle.row_core.specs.Repeated.{GivesTerms, GivesTermsWhere};
ghost use Rattle.row_core.specs.declared.RowName.{RowName};
ghost use Rattle.row_core.specs.EquationTerms.{EquationTerms, IsWritten, each};
ghost use Rattle.row_core.specs.Calculated.{known, no_terms, with_number, with_amounts, number_of};

use crate::place::{Place, Stopped};
use crate::terms::{Term, Terms};
use crate::writing::write_row;
use crate::{Row, RowName, Sense, Var};
use exact_num::Frac;
use std::alloc::{AllocError, Global};
use std::marker::Model;

/// The left side of an equation while its terms are added. Once a number that is formed doesn't fit, nothing
/// more is formed, and `write` says so.
#[derive(Drop)]
pub struct LeftSide {
    name: RowName,
    terms: Terms,
    fits: bool,
}

impl Model for LeftSide {
    ghost use Rattle.row_core.specs.Calculated.{Side, only_if};

    ghost Value = { Side };

    ghost view = { λ side. record { name = side.name; terms = only_if side.fits side.terms } };
}

impl LeftSide {
    /// No terms yet, for the equation of this name.
    pub fn new(alloc: Global, name: RowName) -> LeftSide
        ensures { result ≡ no_terms name }
    {
        LeftSide {
            name,
            terms: Terms::new(alloc),
            fits: true,
        }
    }

    /// Adds a term: to the coefficient of its variable, where that is there already. Refuses only when memory
    /// runs out.
    #[tactic(auto, unfolding(crate::specs::Calculated::with_number))]
    pub fn add(&mut self, variable: Var, coefficient: Option<Frac>) -> Result<(), AllocError>
        ensures { OnOk result (self.new ≡ with_number variable (known coefficient) self.old) }
    {
        let Some(coefficient) = coefficient else {
            self.fits = false;
            return Ok(());
        };
        if !self.fits {
            return Ok(());
        }
        match self.terms.add(
            Place::Row(self.name),
            Term {
                variable,
                coefficient,
            },
        ) {
            Ok(()) => Ok(()),
            Err(Stopped::Width(_)) => {
                self.fits = false;
                Ok(())
            }
            Err(Stopped::Memory) => Err(AllocError),
        }
    }

    /// Makes room for so many more terms.
    fn reserve(&mut self, count: u16) -> Result<(), AllocError>
        ensures { self.new ≡ self.old }
    {
        self.terms.reserve(usize::from(count))
    }

    /// Adds a term for each position below `count`, in order.
    pub fn add_each<F: Fn(u16) -> (Var, Option<Frac>)>(
        &mut self,
        count: u16,
        term: F,
    ) -> Result<(), AllocError>
        requires { (i : ℕ) → i < count → F.pre term i }
        ensures { (g : ℕ → Var × Amount) → GivesTerms count (F.post term) g → OnOk result (self.new ≡ with_amounts (each (range_with_len 0 count) g) self.old) }
    {
        self.reserve(count)?;
        for i in 0..count {
            let (variable, coefficient) = term(i);
            self.add(variable, coefficient)?;
        }
        Ok(())
    }

    /// Adds a term for each position below `count` for which there is one, in order.
    pub fn add_where<F: Fn(u16) -> Option<(Var, Option<Frac>)>>(
        &mut self,
        count: u16,
        term: F,
    ) -> Result<(), AllocError>
        requires { (i : ℕ) → i < count → F.pre term i }
        ensures { (chosen : ℕ → Bool) (g : ℕ → Var × Amount) → GivesTermsWhere count (F.post term) chosen g
            → OnOk result (self.new ≡ with_amounts (each (filter chosen (range_with_len 0 count)) g) self.old) }
    {
        for i in 0..count {
            if let Some((variable, coefficient)) = term(i) {
                self.add(variable, coefficient)?;
            }
        }
        Ok(())
    }

    /// Writes the row of the equation: the terms in this sense to the right side. `Width` at the equation's name
    /// comes exactly where a number that was formed for the terms or the right side, or that is formed when the
    /// row is written, doesn't fit.
    pub fn write(self, alloc: Global, sense: Sense, right: Option<Frac>) -> Result<Row, Stopped>
        ensures { (name : RowName) (e : EquationTerms) → self ≡ with_amounts e.terms (no_terms name) → sense ≡ e.sense → known right ≡ number_of e.right → IsWritten name e result }
    {
        let Some(right) = right else {
            return Err(Stopped::Width(Place::Row(self.name)));
        };
        if !self.fits {
            return Err(Stopped::Width(Place::Row(self.name)));
        }
        write_row(alloc, self.name, sense, &self.terms, right)
    }
}
