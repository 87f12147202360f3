// What `table` and `page` show of a proof that `solve` wrote.
ghost use Rattle.std.specs.Prelude.{◌≡◌, Bool, List, Some, ℕ};
ghost use Rattle.model_sets.specs.Data.{Data};
ghost use Rattle.command_answers.specs.Accepted.{Accepted, Source};
ghost use Rattle.command_answers.specs.declared.status.Status.{Status};
ghost use Rattle.command_answers.specs.declared.status.Status.TheVariants.{Done};
ghost use Rattle.command_words.specs.declared.command.SolveMethod.{SolveMethod};
ghost use Rattle.check_command.specs.CheckProof.{DueForProofFile};
ghost use Rattle.page_command.specs.Pages.{DueForPage, ShowsPage};
ghost use Rattle.result_pages.specs.Pages.{Title};
ghost use Rattle.table_command.specs.declared.shown.Shown.{Shown};
ghost use Rattle.table_command.specs.ShownTables.{shown_named};
ghost use Rattle.table_command.specs.Tables.{DueForTable, ShowsProof, form_of};
ghost use Rattle.osemosys_run.specs.Accepting.{ProvesEnd};
ghost use Rattle.osemosys_run.specs.ShownEnds.{ShowsWritten};

use proof_files::proof_telling_laws;
use row_book::stop_laws;

/// Where `solve` writes what proves an optimum, `table` of that file shows the plan, or the multipliers, that the file was written of.
pub fn written_laws()
    ensures { (places gap pivots : ℕ) (method : SolveMethod) (rounded : ℕ) (source : Source) (d : Data) (proof name : List ℕ) (shown : Shown) (exact : Bool) (status : Status) (text : List ℕ)
        → Accepted source d → ProvesEnd places gap pivots method rounded d Done proof → shown_named d.second name ≡ Some shown
        → DueForTable places (λ rows. DueForProofFile places d rows proof gap) proof name (form_of exact) d status text
        → ShowsWritten (λ rows said. ShowsProof places d rows shown (form_of exact)) places gap d proof status text }
{
    proof_telling_laws();
    stop_laws();
}

/// And so does `page`, whatever the name of the data file, its changes and how many of its numbers were rounded.
pub fn page_laws()
    ensures { (places gap pivots : ℕ) (method : SolveMethod) (rounded : ℕ) (source : Source) (d : Data) (proof : List ℕ) (title : Title) (also : ℕ) (status : Status) (text : List ℕ)
        → Accepted source d → ProvesEnd places gap pivots method rounded d Done proof
        → DueForPage title also places (λ rows. DueForProofFile places d rows proof gap) proof d status text
        → ShowsWritten (λ rows. ShowsPage title also places d rows) places gap d proof status text }
{
    proof_telling_laws();
    stop_laws();
}
