//! Rows that may stand in each other's place.

ghost use Rattle.std.specs.Prelude.{◌≡◌, ◌↔◌, ◌<◌, ℕ, length, true, IfNone, IfSome};
ghost use Rattle.row_core.specs.declared.Row.{Row};
ghost use Rattle.row_book.specs.Definitions.{IsAt};
ghost use Rattle.row_book.specs.Replaced.{AreTwins, same_variables};

use crate::defined::defined_variable;
use row_core::{Row, Sense, Var};

/// Whether the entries are at the same variables.
fn have_same_variables(entries: &[(Var, i128)], others: &[(Var, i128)]) -> bool
    ensures { result ≡ same_variables entries.now others.now }
{
    if entries.len() != others.len() {
        return false;
    }
    for i in 0..entries.len() {
        if entries[i].0 != others[i].0 {
            return false;
        }
    }
    true
}

/// Whether both are inequalities of one name, which defines no variable, with entries at the same variables.
fn are_twins(before: &Row, row: &Row) -> bool
    ensures { result ≡ true ↔ AreTwins before.now row.now }
{
    before.name == row.name
        && before.sense != Sense::Equal
        && row.sense != Sense::Equal
        && defined_variable(row.name).is_none()
        && have_same_variables(&before.entries, &row.entries)
}

/// Where the row's twin stands, if there is one.
pub(crate) fn position_of_twin(rows: &[Row], row: &Row) -> Option<usize>
    ensures found { IfSome result (λ i. (i < length rows.now) × ((before : Row) → IsAt rows.now i before → AreTwins before row.now)) }
    ensures none { IfNone result ((i : ℕ) (before : Row) → IsAt rows.now i before → AreTwins before row.now → ⊥) }
{
    for i in 0..rows.len() {
        if are_twins(&rows[i], row) {
            return Some(i);
        }
    }
    None
}
