// What the files of a plan, of multipliers and of a proof are read as.
ghost use Rattle.std.specs.Prelude.{◌≡◌, ℕ};
ghost use Rattle.model_sets.specs.Data.{Data};
ghost use Rattle.command_answers.specs.CheckedPlans.{IsBookOf, IsListedBook};
ghost use Rattle.solve_command.specs.ReadBack.{AreFractions, HasFractions, ReadsBack};

use certified_answers::Certified;
use model_sets::Sets;
use model_sets::set_numbers::REGION;
use plan_files::reading_laws;
use proof_files::written_proof_laws;
use row_book::RowBook;
use row_core::{Multipliers, Plan};

/// What is written of a plan, of multipliers or to prove an end is read as that, over any data of which the book is.
pub fn readback_laws(book: &RowBook, sets: &Sets)
    requires { IsListedBook sets.now book.now.rows book.now.vars }
    ensures { (places : ℕ) (d : Data) → sets.now ≡ d.sets → IsBookOf places d book.now.rows book.now.vars → ReadsBack d book.now.rows book.now.vars }
{
    reading_laws();
    written_proof_laws();
    // The sets keep their rules.
    let _count = sets.count(REGION);
}

/// Every value of a solution is that of a fraction.
pub fn solution_fractions(solution: &Certified)
    ensures { HasFractions solution.now }
{
    match solution {
        Certified::Optimal {
            plan,
            multipliers,
            ..
        } => {
            plan_fractions(plan);
            multiplier_fractions(multipliers);
        }
        Certified::Infeasible { multipliers, .. } => multiplier_fractions(multipliers),
        Certified::Unbounded {
            plan,
            direction,
            ..
        } => {
            plan_fractions(plan);
            plan_fractions(direction);
        }
    }
}

/// Every value of a plan is that of a fraction.
pub fn plan_fractions(plan: &Plan)
    ensures { AreFractions plan.now }
{
    let _values = plan.entries();
}

/// Every multiplier is that of a fraction.
pub fn multiplier_fractions(multipliers: &Multipliers)
    ensures { AreFractions multipliers.now }
{
    let _values = multipliers.entries();
}
