// What the prices of a report promise.
ghost use Rattle.std.specs.Prelude.{ℕ, List};
ghost use Rattle.exact_num.specs.Rational.{Rational};
ghost use Rattle.model_sets.specs.Data.{Data};
ghost use Rattle.named_equations.specs.Instances.{instances};
ghost use Rattle.row_book.specs.Books.{AreRowsOf};
ghost use Rattle.row_core.specs.declared.Row.{Row};
ghost use Rattle.row_core.specs.declared.RowName.{RowName};
ghost use Rattle.row_core.specs.declared.Var.{Var};
ghost use Rattle.solve_command.specs.Promises.{ArePromised};
ghost use Rattle.command_answers.specs.SolvedPlans.{IsNearOptimum};

use plan_quantities::laws::price_laws;

/// Every price of the report of an optimum, or of a plan that is near one, keeps what it promises.
pub fn promise_laws()
    ensures prices { (places : ℕ) (d : Data) (rows : List Row) (gap : ℕ) (plan : List (Var × Rational)) (multipliers : List (RowName × Rational)) (cost bound : Rational)
        → AreRowsOf places d (instances d) rows → IsNearOptimum places d rows gap plan multipliers cost bound → ArePromised places d rows multipliers bound }
{
    price_laws();
}
