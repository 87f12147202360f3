// What `warn` says of accepted data, and what its lines prove.
ghost use Rattle.std.specs.Prelude.{◌≡◌, ◌≤◌, ◌⊎◌, ℕ, ℤ, List, length, true, Contains, IfOk};
ghost use Rattle.mathprog_data.specs.BlocksView.{blocks_told};
ghost use Rattle.mathprog_data.specs.Pieces.{StandsFor};
ghost use Rattle.mathprog_data.specs.Verdicts.{Says};
ghost use Rattle.model_sets.specs.Data.{Data};
ghost use Rattle.named_equations.specs.Plans.{Feasible};
ghost use Rattle.row_core.specs.declared.Var.{Var};
ghost use Rattle.command_answers.specs.Accepted.{most_bytes, source_of};
ghost use Rattle.command_answers.specs.DueForText.{DueForText};
ghost use Rattle.command_answers.specs.declared.status.Status.{Status as Code};
ghost use Rattle.data_warnings.specs.Lines.{line};
ghost use Rattle.data_warnings.specs.NoPlan.{EndsIn, excludes_plans, no_plan_ending};
ghost use Rattle.data_warnings.specs.declared.places.Finding.{Finding};
ghost use Rattle.osemosys_run.specs.Warned.{IsWarned, findings_over};

use command_answers::{Answer, Status, Whole, accept_whole};
use data_warnings::{no_plan_laws, warnings_text};
use mathprog_data::PieceReader;
use std::alloc::{AllocError, Global};

/// What is due of `warn` over the text of a reader, with the changes of a file where there is one.
pub fn answer_warned(
    alloc: Global,
    reader: PieceReader,
    changes: Option<&[u8]>,
) -> Result<Answer, AllocError>
    requires { (text : List ℕ) × StandsFor reader text }
    ensures { (text : List ℕ) → StandsFor reader text → length text ≤ most_bytes → IfOk result (λ answer.
        DueForText (IsWarned text) (source_of text changes.entry) answer.status answer.text.items) }
{
    match accept_whole(alloc, reader, changes)? {
        Ok(whole) => warned(alloc, &whole),
        Err(answer) => Ok(answer),
    }
}

// What is due over what a file says and the data of its model.
fn warned(alloc: Global, whole: &Whole) -> Result<Answer, AllocError>
    ensures { (text : List ℕ) → Says text (blocks_told whole.now.blocks) → IfOk result (λ answer.
        IsWarned text whole.now.model.rounded whole.now.model.facts answer.status answer.text.items) }
{
    let text = warnings_text(alloc, &whole.model, &whole.blocks)?;
    // The sets are by the rules, as the clause of this says, so that a line tells its rule.
    let _ = whole.model.sets();
    Ok(Answer {
        status: Status::Done,
        text,
    })
}

/// Where one of the lines ends in `: no plan`, whatever the names of members are, or is of a rule whose lines do, no plan exists.
pub fn warned_laws()
    ensures { (file : List ℕ) (rounded : ℕ) (d : Data) (status : Code) (text : List ℕ) → IsWarned file rounded d status text → (f : Finding) → Contains (findings_over rounded d) f
        → (excludes_plans f.rule ≡ true) ⊎ EndsIn no_plan_ending (line d.sets f)
        → (places q : ℕ) (x : Var → ℤ) → Feasible places d q x → ⊥ }
{
    no_plan_laws();
}
