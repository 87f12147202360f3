//! The records of changes.

ghost use Rattle.std.specs.Prelude.{◌≡◌, ◌<◌, ◌++◌, ◌∷◌, [], OnOk, filter, map};
ghost use Rattle.csv.specs.Records.{fields_of, partial_of};
ghost use Rattle.row_core.specs.Kinds.{IsKind};
ghost use Rattle.row_core.specs.NameTexts.{member};
ghost use Rattle.plan_files.specs.Records.{places};
ghost use Rattle.plan_files.specs.Texts.{records_text};
ghost use Rattle.plan_compare.specs.Amounts.{field_of};
ghost use Rattle.plan_compare.specs.Comparisons.{change_record, members_of};
ghost use Rattle.plan_compare.specs.Counterparts.{counts};
ghost use Rattle.plan_compare.specs.Scenarios.{side_of};

use crate::amounts::{difference, push_number_or};
use crate::change::Change;
use crate::counterparts::{counts, member};
use crate::scenario::Scenario;
use crate::section::Section;
use csv::ByteRecord;
use model_sets::Sets;
use plan_files::{push_field, push_record};
use row_core::Index;
use std::alloc::{AllocError, Global};

/// Appends a record for each of the changes of a kind.
pub(crate) fn push_changes(
    alloc: Global,
    out: &mut Vec<u8>,
    section: Section,
    first: Scenario<'_>,
    second: Scenario<'_>,
    changes: &[Change],
) -> Result<(), AllocError>
    requires { IsKind section.kind }
    ensures { OnOk result (out.new.items ≡ out.old.items
        ++ records_text (map (change_record section.by_year section.kind
        (side_of first.entry) (side_of second.entry)) changes.now)) }
{
    for change in changes {
        push_change(alloc, out, section, first, second, *change)?;
    }
    Ok(())
}

// Appends the record of a change: its members, both numbers, and the second less the first.
fn push_change(
    alloc: Global,
    out: &mut Vec<u8>,
    section: Section,
    first: Scenario<'_>,
    second: Scenario<'_>,
    change: Change,
) -> Result<(), AllocError>
    requires { IsKind section.kind }
    ensures { OnOk result (out.new.items ≡ out.old.items
        ++ records_text (change_record section.by_year section.kind
        (side_of first.entry) (side_of second.entry) change ∷ [])) }
{
    let sets = if change.in_second {
        second.sets
    } else {
        first.sets
    };
    let mut fields = ByteRecord::new(alloc);
    push_members(&mut fields, section, sets, change.var.index)?;
    push_number(alloc, &mut fields, change.one)?;
    push_number(alloc, &mut fields, change.two)?;
    push_number(alloc, &mut fields, difference(change.one, change.two))?;
    push_record(alloc, out, &fields)
}

// Appends the members of those subscripts that count.
fn push_members(
    fields: &mut ByteRecord,
    section: Section,
    sets: &Sets,
    at: Index,
) -> Result<(), AllocError>
    requires listed { IsKind section.kind }
    requires whole { partial_of fields.old ≡ [] }
    ensures fields { OnOk result (fields_of fields.new ≡ fields_of fields.old
        ++ map (member sets.now at) (filter (counts section.by_year section.kind) places)) }
    ensures whole { OnOk result (partial_of fields.new ≡ []) }
{
    for place in 0..8u8 {
        push_member(fields, section, sets, at, place)?;
    }
    Ok(())
}

// Appends the member of the subscript at a place, where it counts.
fn push_member(
    fields: &mut ByteRecord,
    section: Section,
    sets: &Sets,
    at: Index,
    place: u8,
) -> Result<(), AllocError>
    requires listed { IsKind section.kind }
    requires within { place < 8 }
    requires whole { partial_of fields.old ≡ [] }
    ensures fields { OnOk result (fields_of fields.new ≡ fields_of fields.old
        ++ map (member sets.now at) (filter (counts section.by_year section.kind) (place ∷ []))) }
    ensures whole { OnOk result (partial_of fields.new ≡ []) }
{
    if counts(section.by_year, section.kind, place) {
        push_field(fields, member(sets, at, place))?;
    }
    Ok(())
}

// Appends a number, and an empty field where there is none.
fn push_number(
    alloc: Global,
    fields: &mut ByteRecord,
    number: Option<i128>,
) -> Result<(), AllocError>
    requires whole { partial_of fields.old ≡ [] }
    ensures fields { OnOk result (fields_of fields.new ≡ fields_of fields.old ++ field_of number ∷ []) }
    ensures whole { OnOk result (partial_of fields.new ≡ []) }
{
    let mut text = Vec::new(alloc);
    push_number_or(&mut text, b"", number)?;
    push_field(fields, &text)
}
