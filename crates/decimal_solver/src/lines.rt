//! Entries of a line.

ghost use Rattle.std.specs.Prelude.{◌≡◌, ◌+◌, ◌<◌, ◌^◌, [], ◌∷◌, drop, IfErr, IfNone, IfSome, OnOk};
ghost use Rattle.row_problem.specs.Prelude.{InRange, Memory};
ghost use Rattle.decimal_solver.specs.Lines.{entry_in, with_entry};
ghost use Rattle.decimal_solver.specs.Views.{entries_seen};

use crate::states::Entry;
use certified_answers::NoAnswer;

/// The number in a column.
pub(crate) fn entry_in(column: usize, entries: &[Entry]) -> i128
    ensures value { result ≡ entry_in column (entries_seen entries.now) }
    ensures range { InRange result }
{
    for entry in entries {
        if entry.column >= column {
            return if entry.column == column {
                entry.number
            } else {
                0
            };
        }
    }
    0
}

/// Appends an entry, unless it is 0.
pub(crate) fn push_entry(
    entries: &mut Vec<Entry>,
    column: usize,
    number: i128,
) -> Result<(), NoAnswer>
    requires { InRange number }
    ensures pushed { OnOk result (entries_seen entries.new.items ≡ with_entry (entries_seen entries.old.items) column number) }
    ensures memory { IfErr result (λ e. e ≡ Memory) }
{
    if number != 0 {
        entries.push(Entry { column, number })?;
    }
    Ok(())
}

/// The entry at a position, if there is one.
pub(crate) fn entry_at(entries: &[Entry], at: usize) -> Option<Entry>
    ensures some { IfSome result (λ e. drop at entries.now ≡ e ∷ drop (at + 1) entries.now) }
    ensures countable { IfSome result (λ _. at + 1 < 2 ^ 64) }
    ensures none { IfNone result (drop at entries.now ≡ []) }
{
    if at < entries.len() {
        Some(entries[at])
    } else {
        None
    }
}
