//! The tables of a kind.

ghost use Rattle.std.specs.Prelude.{◌≡◌, ◌++◌, IfOk, OnOk, length, filter};
ghost use Rattle.row_core.specs.Kinds.{IsKind};
ghost use Rattle.plan_compare.specs.Comparisons.{counted, differing, heading_line, kind_text, same_count, section_text, section_word, sums_text};
ghost use Rattle.plan_compare.specs.Scenarios.{side_of};

use crate::change::Change;
use crate::changes::changes_of;
use crate::records::push_changes;
use crate::scenario::Scenario;
use crate::section::Section;
use crate::sorting::sort;
use crate::sums::sums_of;
use itoa::Buffer;
use row_core::kind_numbers::TOTAL_CAPACITY_ANNUAL;
use row_core::var_word;
use std::alloc::{AllocError, Global};

/// Appends the table of a kind, and its sums over the years where it has some.
pub(crate) fn push_kind(
    alloc: Global,
    out: &mut Vec<u8>,
    kind: u8,
    first: Scenario<'_>,
    second: Scenario<'_>,
) -> Result<(), AllocError>
    requires { IsKind kind }
    ensures { OnOk result (out.new.items ≡ out.old.items
        ++ kind_text (side_of first.entry) (side_of second.entry) kind) }
{
    let all = changes_of(alloc, kind, first, second)?;
    push_section(
        alloc,
        out,
        Section {
            by_year: true,
            kind,
        },
        first,
        second,
        &all,
    )?;
    push_sums(alloc, out, kind, first, second)
}

// Appends the sums of a kind, where it has some: the sum of what stands in each year is nothing.
fn push_sums(
    alloc: Global,
    out: &mut Vec<u8>,
    kind: u8,
    first: Scenario<'_>,
    second: Scenario<'_>,
) -> Result<(), AllocError>
    requires { IsKind kind }
    ensures { OnOk result (out.new.items ≡ out.old.items
        ++ sums_text kind (side_of first.entry) (side_of second.entry)) }
{
    if kind == TOTAL_CAPACITY_ANNUAL {
        return Ok(());
    }
    let all = sums_of(alloc, kind, first, second)?;
    push_section(
        alloc,
        out,
        Section {
            by_year: false,
            kind,
        },
        first,
        second,
        &all,
    )
}

// Appends a line with how many differ and how many don't, and a record for each that differs.
fn push_section(
    alloc: Global,
    out: &mut Vec<u8>,
    section: Section,
    first: Scenario<'_>,
    second: Scenario<'_>,
    all: &[Change],
) -> Result<(), AllocError>
    requires { IsKind section.kind }
    ensures { OnOk result (out.new.items ≡ out.old.items
        ++ section_text section.by_year section.kind (side_of first.entry) (side_of second.entry) all.now) }
{
    let mut differing = differing_of(alloc, all)?;
    let word = section_word(section.by_year);
    push_heading(
        out,
        word,
        var_word(section.kind).as_bytes(),
        differing.len(),
        same_count(all),
    )?;
    sort(&mut differing)?;
    push_changes(alloc, out, section, first, second, &differing)
}

// The word of a table.
fn section_word(by_year: bool) -> &'static [u8]
    ensures { result.now ≡ section_word by_year }
{
    if by_year { b"table" } else { b"sums" }
}

// Appends the line with which a table begins.
fn push_heading(
    out: &mut Vec<u8>,
    word: &[u8],
    name: &[u8],
    changed: usize,
    same: usize,
) -> Result<(), AllocError>
    ensures { OnOk result (out.new.items ≡ out.old.items ++ heading_line word.now name.now changed same) }
{
    out.extend_from_slice(word)?;
    out.extend_from_slice(b" ")?;
    out.extend_from_slice(name)?;
    push_counted(out, b" changed ", changed)?;
    push_counted(out, b" same ", same)?;
    out.extend_from_slice(b"\n")
}

// Appends a word and a number.
fn push_counted(out: &mut Vec<u8>, word: &[u8], n: usize) -> Result<(), AllocError>
    ensures { OnOk result (out.new.items ≡ out.old.items ++ counted word.now n) }
{
    let mut digits = Buffer::new();
    out.extend_from_slice(word)?;
    out.extend_from_slice(digits.format(n).as_bytes())
}

// Those that differ.
fn differing_of(alloc: Global, all: &[Change]) -> Result<Vec<Change>, AllocError>
    ensures { IfOk result (λ kept. kept.items ≡ differing all.now) }
{
    let mut kept = Vec::new(alloc);
    for change in all {
        if change.differs {
            kept.push(*change)?;
        }
    }
    Ok(kept)
}

// How many don't.
fn same_count(all: &[Change]) -> usize
    ensures { result ≡ same_count all.now }
{
    let mut same = 0;
    for change in all {
        if !change.differs {
            same += 1;
        }
    }
    same
}
