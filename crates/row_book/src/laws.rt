//! Laws of the book of rows. Each is proved as the contract of a function that changes nothing.

ghost use Rattle.std.specs.Prelude.{◌≡◌, ◌≢◌, ◌↔◌, ℕ, List, true};
ghost use Rattle.model_sets.specs.Data.{AreSameData, Data};
ghost use Rattle.named_equations.specs.Instances.{instances, is_instance};
ghost use Rattle.row_core.specs.declared.Row.{Row};
ghost use Rattle.row_core.specs.declared.RowName.{RowName};
ghost use Rattle.row_book.specs.Books.{AreRowsOf, CanBeMade, HasStopped, HasTooMany, IsTooWide};
ghost use Rattle.row_book.specs.EquationRows.{terms_at};
ghost use Rattle.row_book.specs.declared.fail.BookFail.{BookFail};
ghost use Rattle.row_book.specs.declared.fail.BookFail.TheVariants.{Memory};

/// Of some instances after rows with so many entries either all rows can be made, and then nothing stops but
/// that memory runs out, or one thing stops them beside that.
pub fn stop_laws()
    ensures made { (places : ℕ) (d : Data) (before : ℕ) (names : List RowName) (fail : BookFail) → CanBeMade places d before names → HasStopped places d before names fail → fail ≡ Memory }
    ensures one { (places : ℕ) (d : Data) (before : ℕ) (names : List RowName) (fail other : BookFail) → fail ≢ Memory → other ≢ Memory → HasStopped places d before names fail → HasStopped places d before names other → fail ≡ other }
{}

/// The rows depend on nothing of the data but the sets, the profile, and the value of each used parameter at
/// each of its indices: of two data that are the same in these, with written factors of any number of decimal
/// places, each instance has the same terms, the same rows are theirs, and they can be made of both, or of
/// neither and then stop at the same instance for one reason.
pub fn same_data_laws()
    ensures terms { (places : ℕ) (d e : Data) → AreSameData d e → (name : RowName) → is_instance d name ≡ true → terms_at places d name ≡ terms_at places e name }
    ensures rows { (places : ℕ) (d e : Data) → AreSameData d e → (rows : List Row) → AreRowsOf places d (instances d) rows ↔ AreRowsOf places e (instances e) rows }
    ensures made { (places : ℕ) (d e : Data) → AreSameData d e → (before : ℕ) → CanBeMade places d before (instances d) ↔ CanBeMade places e before (instances e) }
    ensures wide { (places : ℕ) (d e : Data) → AreSameData d e → (before : ℕ) (name : RowName) → IsTooWide places d before (instances d) name ↔ IsTooWide places e before (instances e) name }
    ensures many { (places : ℕ) (d e : Data) → AreSameData d e → (before : ℕ) (name : RowName) → HasTooMany places d before (instances d) name ↔ HasTooMany places e before (instances e) name }
{}
