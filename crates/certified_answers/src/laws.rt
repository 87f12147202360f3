//! What every plan and every list of multipliers keeps.

ghost use Rattle.std.specs.Prelude.{IsTrue};
ghost use Rattle.exact_num.specs.Rational.{IsLowest};
ghost use Rattle.row_core.specs.declared.Var.{Var};
ghost use Rattle.row_core.specs.Numbers.{ascends, keys_of};
ghost use Rattle.row_core.specs.Order.{row_name_cmp, var_cmp};
ghost use Rattle.row_core.specs.Plans.{value_in};
ghost use Rattle.certificate_checker.specs.Denominators.{AreOverSome};

use certificate_checker::denominator_laws;
use row_core::{Multipliers, Plan};

/// The values of a plan ascend by variable, are in lowest terms, and are whole numbers over one denominator.
pub fn plan_laws(plan: &Plan)
    ensures ascending { IsTrue (ascends var_cmp (keys_of plan.now)) }
    ensures lowest { (v : Var) → IsLowest (value_in var_cmp plan.now v) }
    ensures some { AreOverSome var_cmp plan.now }
{
    denominator_laws();
    let _values = plan.entries();
}

/// Multipliers ascend by the names of their rows, and are whole numbers over one denominator.
pub fn multiplier_laws(multipliers: &Multipliers)
    ensures ascending { IsTrue (ascends row_name_cmp (keys_of multipliers.now)) }
    ensures some { AreOverSome row_name_cmp multipliers.now }
{
    denominator_laws();
    let _values = multipliers.entries();
}
