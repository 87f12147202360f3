// What changes of data leave as it is, and in which order they may be made.
ghost use Rattle.std.specs.Prelude.{◌≡◌, ◌∷◌, [], List, Some, ℕ, true};
ghost use Rattle.model_sets.specs.Data.{Data};
ghost use Rattle.plan_files.specs.Files.{Fields, records_of};
ghost use Rattle.param_tables.specs.Changes.{Change, with_change};
ghost use Rattle.data_changes.specs.Columns.{is_header};
ghost use Rattle.data_changes.specs.Scenarios.{AreApart, IsIdle};
ghost use Rattle.command_answers.specs.Accepted.{Accepted, Source, plain};

/// A file of changes that has its header alone leaves accepted data as they are, and so does a change that multiplies by 1 or adds 0. Changes
/// that name no index in common may be made in either order.
pub fn scenario_laws()
    ensures header_alone { (text changes : List ℕ) (header : Fields) (d : Data) → records_of changes ≡ header ∷ [] → is_header header ≡ true
        → Accepted (plain text) d → Accepted (record { text = text; changes = Some changes }) d }
    ensures idle { (source : Source) (d : Data) (change : Change) → Accepted source d → IsIdle change → with_change d change ≡ d }
    ensures either_order { (d : Data) (a b : Change) → AreApart d a b → with_change (with_change d a) b ≡ with_change (with_change d b) a }
{}
