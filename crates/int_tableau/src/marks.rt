//! Marks of columns: a few flags that say in one look that a line has no entry in a column.

ghost use Rattle.std.specs.Prelude.{◌≡◌};
ghost use Rattle.int_tableau.specs.Marks.{AreMarked, mark_of};

/// How many marks a line has. Columns that are the same modulo this number share one.
pub(crate) const MARKS: usize = 256;

/// Whether a column is marked: outside marked columns there is no entry.
pub(crate) fn is_marked(marks: &[bool; MARKS], column: usize) -> bool
    ensures { result ≡ mark_of marks.now column }
{
    marks[column % MARKS]
}

/// Marks the columns of entries, and no others.
pub(crate) fn mark<N: Copy>(marks: &mut [bool; MARKS], entries: &[(usize, N)])
    ensures { AreMarked marks.new entries.now }
{
    *marks = [false; MARKS];
    for entry in entries {
        marks[entry.0 % MARKS] = true;
    }
}
