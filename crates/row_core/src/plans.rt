//! Plans and multipliers: lists of exact values.

ghost use Rattle.std.specs.Prelude.{◌≡◌, IsTrue, map};
ghost use Rattle.exact_num.specs.Value.{value_of};
ghost use Rattle.row_core.specs.Numbers.{ascends, keys_of};
ghost use Rattle.row_core.specs.Order.{var_cmp, row_name_cmp};
ghost use Rattle.row_core.specs.Plans.{valued, value_in};

use crate::evaluating::fraction;
use crate::searching::look_up;
use crate::{RowName, Var};
use exact_num::Frac;
use std::marker::Model;

/// A value for each variable of a list that ascends strictly; every other variable has the value 0.
#[derive(Drop)]
pub struct Plan(Vec<(Var, Frac)>);

impl Model for Plan {
    ghost use Rattle.std.specs.Prelude.{IsTrue, List, map};
    ghost use Rattle.exact_num.specs.Rational.{Rational};
    ghost use Rattle.row_core.specs.declared.Var.{Var};
    ghost use Rattle.row_core.specs.Numbers.{ascends, keys_of};
    ghost use Rattle.row_core.specs.Order.{var_cmp};
    ghost use Rattle.row_core.specs.Plans.{valued};

    ghost Value = { List (Var × Rational) };

    ghost view = { λ plan. map valued plan.0.items };

    ghost invariant = { λ plan. IsTrue (ascends var_cmp (keys_of plan.0.items)) };
}

impl Plan {
    /// The plan of these values, which ascend strictly by variable.
    pub fn of(entries: Vec<(Var, Frac)>) -> Plan
        requires { IsTrue (ascends var_cmp (keys_of entries.items)) }
        ensures { result ≡ map valued entries.items }
    {
        Plan(entries)
    }

    /// The values, strictly ascending by variable.
    pub fn entries(&self) -> &[(Var, Frac)]
        ensures values { map valued result.now ≡ self.now }
        ensures ascending { IsTrue (ascends var_cmp (keys_of result.now)) }
    {
        &self.0
    }

    /// The value of a variable, 0 where the list has none.
    pub fn value(&self, variable: Var) -> Frac
        ensures { value_of result ≡ value_in var_cmp self.now variable }
    {
        value_at_key(&self.0, variable)
    }
}

/// A multiplier for each row of a list that ascends strictly by name; every other row has the multiplier 0.
#[derive(Drop)]
pub struct Multipliers(Vec<(RowName, Frac)>);

impl Model for Multipliers {
    ghost use Rattle.std.specs.Prelude.{IsTrue, List, map};
    ghost use Rattle.exact_num.specs.Rational.{Rational};
    ghost use Rattle.row_core.specs.declared.RowName.{RowName};
    ghost use Rattle.row_core.specs.Numbers.{ascends, keys_of};
    ghost use Rattle.row_core.specs.Order.{row_name_cmp};
    ghost use Rattle.row_core.specs.Plans.{valued};

    ghost Value = { List (RowName × Rational) };

    ghost view = { λ multipliers. map valued multipliers.0.items };

    ghost invariant = { λ multipliers. IsTrue (ascends row_name_cmp (keys_of multipliers.0.items)) };
}

impl Multipliers {
    /// These multipliers, which ascend strictly by name.
    pub fn of(entries: Vec<(RowName, Frac)>) -> Multipliers
        requires { IsTrue (ascends row_name_cmp (keys_of entries.items)) }
        ensures { result ≡ map valued entries.items }
    {
        Multipliers(entries)
    }

    /// The multipliers, strictly ascending by name.
    pub fn entries(&self) -> &[(RowName, Frac)]
        ensures values { map valued result.now ≡ self.now }
        ensures ascending { IsTrue (ascends row_name_cmp (keys_of result.now)) }
    {
        &self.0
    }

    /// The multiplier of a row, 0 where the list has none.
    pub fn value(&self, name: RowName) -> Frac
        ensures { value_of result ≡ value_in row_name_cmp self.now name }
    {
        value_at_key(&self.0, name)
    }
}

/// The value at a key of entries that ascend, 0 where they have none.
fn value_at_key<K: Ord + Copy>(entries: &[(K, Frac)], key: K) -> Frac
    requires { IsTrue (ascends K.cmp (keys_of entries.now)) }
    ensures { value_of result ≡ value_in K.cmp (map valued entries.now) key }
{
    match look_up(entries, key) {
        Some(value) => value,
        None => fraction(0),
    }
}
