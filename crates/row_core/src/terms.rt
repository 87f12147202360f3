//! The terms of an equation.

ghost use Rattle.std.specs.Prelude.{◌≡◌, ◌<◌, ◌≤◌, [], true, length, map, slice_index_or, slice_set, IsTrue, IfErr, MatchResult, OnOk, OnErr};
ghost use Rattle.std.specs.List.{insert};
ghost use Rattle.exact_num.specs.Formed.{sum_formed};
ghost use Rattle.exact_num.specs.Rational.{plus};
ghost use Rattle.exact_num.specs.Value.{value_of};
ghost use Rattle.row_core.specs.Numbers.{ascends, variables_of};
ghost use Rattle.row_core.specs.Order.{var_cmp};
ghost use Rattle.row_core.specs.TermPlaces.{IsThere, BelongsAt};
ghost use Rattle.row_core.specs.declared.place.Stopped.TheVariants.{Memory};
ghost use Rattle.row_core.specs.declared.terms.Term.{Term};
ghost use Rattle.exact_num.specs.Range.{all_fit};
ghost use Rattle.row_core.specs.Stops.{IsStop};
ghost use Rattle.row_core.specs.Terms.{with_term, term_formed};
ghost use Rattle.row_core.specs.TermViews.{seen};

use crate::Var;
use crate::place::{Place, Stopped};
use exact_num::{Frac, add};
use std::alloc::{AllocError, Global};
use std::cmp::Ordering;
use std::marker::Model;

/// A term of an equation: a variable, and its coefficient on the left side.
#[derive(Clone, Copy, PartialEq, Eq)]
pub struct Term {
    pub variable: Var,
    pub coefficient: Frac,
}

/// The terms of an equation, strictly ascending by variable.
#[derive(Drop)]
pub struct Terms {
    list: Vec<Term>,
}

impl Model for Terms {
    ghost use Rattle.std.specs.Prelude.{IsTrue, List, map};
    ghost use Rattle.exact_num.specs.Rational.{Rational};
    ghost use Rattle.row_core.specs.declared.Var.{Var};
    ghost use Rattle.row_core.specs.Numbers.{ascends, variables_of};
    ghost use Rattle.row_core.specs.Order.{var_cmp};
    ghost use Rattle.row_core.specs.TermViews.{seen};

    ghost Value = { List (Var × Rational) };

    ghost view = { λ terms. map seen terms.list.items };

    ghost invariant = { λ terms. IsTrue (ascends var_cmp (variables_of (map seen terms.list.items))) };
}

impl Terms {
    /// No terms.
    pub fn new(alloc: Global) -> Terms
        ensures { result ≡ [] }
    {
        Terms {
            list: Vec::new(alloc),
        }
    }

    /// Adds a term: to the coefficient of its variable, where that is there, and else at its place in the order
    /// of variables. `Width(place)` comes exactly where the sum of two coefficients forms a number that doesn't
    /// fit. After a refusal the terms are as they were.
    pub fn add(&mut self, place: Place, term: Term) -> Result<(), Stopped>
        ensures added { OnOk result (self.new ≡ with_term (seen term) self.old) }
        ensures fits { OnOk result (all_fit (term_formed (seen term) self.old) ≡ true) }
        ensures stopped { IfErr result (IsStop place (all_fit (term_formed (seen term) self.old))) }
        ensures unchanged { OnErr result (self.new ≡ self.old) }
    {
        match position_of(&self.list, &term.variable) {
            Ok(at) => increase(&mut self.list, at, place, term.coefficient),
            Err(at) => put_in(&mut self.list, at, term),
        }
    }

    /// Makes room for so many more terms.
    pub(crate) fn reserve(&mut self, more: usize) -> Result<(), AllocError>
        ensures { self.new ≡ self.old }
    {
        self.list.reserve(more)
    }

    /// The terms, strictly ascending by variable.
    pub(crate) fn as_slice(&self) -> &[Term]
        ensures list { map seen result.now ≡ self.now }
        ensures ascending { IsTrue (ascends var_cmp (variables_of self.now)) }
    {
        &self.list
    }
}

/// The position of the term of this variable, or the one at which it belongs. Looked for from the end, where most terms
/// belong: so most are placed by one comparison.
fn position_of(list: &[Term], variable: &Var) -> Result<usize, usize>
    requires { IsTrue (ascends var_cmp (variables_of (map seen list.now))) }
    ensures { MatchResult result (IsThere list.now variable.now) (BelongsAt list.now variable.now) }
{
    let mut end = list.len();
    while end > 0 {
        match compare(&list[end - 1].variable, variable) {
            Ordering::Less => return Err(end),
            Ordering::Equal => return Ok(end - 1),
            Ordering::Greater => end -= 1,
        }
    }
    Err(0)
}

/// How two variables stand in the order of variables.
fn compare(a: &Var, b: &Var) -> Ordering
    ensures { result ≡ var_cmp a.now b.now }
{
    a.cmp(b)
}

/// Puts a term in at this position: most belong at the end.
fn put_in(list: &mut Vec<Term>, at: usize, term: Term) -> Result<(), Stopped>
    requires { at ≤ length list.old.items }
    ensures put { OnOk result (list.new.items ≡ insert list.old.items at term) }
    ensures memory { IfErr result (λ e. e ≡ Memory) }
    ensures unchanged { OnErr result (list.new.items ≡ list.old.items) }
{
    if at == list.len() {
        list.push(term)?;
    } else {
        list.insert(at, term)?;
    }
    Ok(())
}

/// Adds to the coefficient of the term at this position.
fn increase(list: &mut Vec<Term>, at: usize, place: Place, by: Frac) -> Result<(), Stopped>
    requires { at < length list.old.items }
    ensures added { OnOk result ((d : Term) → map seen list.new.items ≡ slice_set (map seen list.old.items) at
        ((slice_index_or list.old.items at d).variable, plus (value_of (slice_index_or list.old.items at d).coefficient) (value_of by))) }
    ensures fits { OnOk result ((d : Term) → all_fit (sum_formed (value_of (slice_index_or list.old.items at d).coefficient) (value_of by)) ≡ true) }
    ensures stopped { IfErr result (λ e. (d : Term) → IsStop place (all_fit (sum_formed (value_of (slice_index_or list.old.items at d).coefficient) (value_of by))) e) }
    ensures unchanged { OnErr result (list.new.items ≡ list.old.items) }
{
    let Ok(sum) = add(list[at].coefficient, by) else {
        return Err(Stopped::Width(place));
    };
    list[at].coefficient = sum;
    Ok(())
}
