//! The text of the equations of a model, read as free MPS, is a linear program which the values of a plan meet exactly where the
//! plan meets the equations, and whose objective is the plan's cost.
#![tactic(auto)]

ghost use Rattle.std.specs.Prelude.{◌≡◌, ℕ, List, Some};
ghost use Rattle.model_sets.specs.Data.{Data};
ghost use Rattle.command_answers.specs.Accepted.{Accepted, Source};
ghost use Rattle.named_equations.specs.Instances.{instances};
ghost use Rattle.row_core.specs.RowLists.{AreVariablesOf};
ghost use Rattle.row_book.specs.Books.{AreRowsOf};
ghost use Rattle.row_core.specs.declared.Row.{Row};
ghost use Rattle.row_core.specs.declared.Var.{Var};
ghost use Rattle.mps_meaning.specs.Programs.{Program};
ghost use Rattle.mps_meaning.specs.Reading.{program_of};
ghost use Rattle.mps_plans.specs.PlanPrograms.{IsProgramOf};
ghost use Rattle.mps_writer.specs.MpsText.{mps_text};

/// Over accepted data the text of a row for each instance, with the variables of the rows as its columns, reads as a program of the plans.
pub fn plans_law()
    ensures means { (places : ℕ) (source : Source) (d : Data) (rows : List Row) (columns : List Var) →
        Accepted source d → AreRowsOf places d (instances d) rows → AreVariablesOf rows columns →
        (program : Program)
        × (program_of (mps_text d.sets rows columns) ≡ Some program)
        × IsProgramOf places d program }
{}
