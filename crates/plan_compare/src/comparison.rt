//! The text of a comparison.

ghost use Rattle.std.specs.Prelude.{◌≡◌, ◌++◌, IfOk, OnOk};
ghost use Rattle.std.specs.List.{flat_map};
ghost use Rattle.plan_compare.specs.Comparisons.{compared_kinds, compared_text, kind_text};
ghost use Rattle.plan_compare.specs.Scenarios.{side_of};

use crate::heads::push_head;
use crate::members::push_members;
use crate::scenario::Scenario;
use crate::sections::push_kind;
use row_core::kind_numbers::{
    ANNUAL_EMISSIONS, DISCOUNTED_CAPITAL_INVESTMENT, DISCOUNTED_OPERATING_COST,
    DISCOUNTED_SALVAGE_VALUE, DISCOUNTED_TECHNOLOGY_EMISSIONS_PENALTY, NEW_CAPACITY,
    PRODUCTION_BY_TECHNOLOGY_ANNUAL, TOTAL_CAPACITY_ANNUAL, TOTAL_DISCOUNTED_COST,
    TOTAL_TECHNOLOGY_ANNUAL_ACTIVITY, TRADE_ANNUAL, USE_BY_TECHNOLOGY_ANNUAL,
};
use std::alloc::{AllocError, Global};

/// The kinds that are compared: those of a report's tables, in its order.
const COMPARED_KINDS: [u8; 12] = [
    NEW_CAPACITY,
    TOTAL_CAPACITY_ANNUAL,
    TOTAL_TECHNOLOGY_ANNUAL_ACTIVITY,
    PRODUCTION_BY_TECHNOLOGY_ANNUAL,
    USE_BY_TECHNOLOGY_ANNUAL,
    TRADE_ANNUAL,
    ANNUAL_EMISSIONS,
    DISCOUNTED_CAPITAL_INVESTMENT,
    DISCOUNTED_OPERATING_COST,
    DISCOUNTED_TECHNOLOGY_EMISSIONS_PENALTY,
    DISCOUNTED_SALVAGE_VALUE,
    TOTAL_DISCOUNTED_COST,
];

/// The comparison of two plans as text: the costs and bounds, the members that only one file has, and of each kind the values that differ,
/// the greatest difference first, with their sums over the years. Refuses where memory runs out.
pub fn compare_text(
    alloc: Global,
    first: Scenario<'_>,
    second: Scenario<'_>,
) -> Result<Vec<u8>, AllocError>
    ensures { IfOk result (λ text. text.items ≡ compared_text first.entry second.entry) }
{
    let mut out = Vec::new(alloc);
    push_head(&mut out, first, second)?;
    push_members(alloc, &mut out, first.sets, second.sets)?;
    push_kinds(alloc, &mut out, first, second)?;
    out.extend_from_slice(b"end\n")?;
    Ok(out)
}

// Appends the tables of all kinds.
fn push_kinds(
    alloc: Global,
    out: &mut Vec<u8>,
    first: Scenario<'_>,
    second: Scenario<'_>,
) -> Result<(), AllocError>
    ensures { OnOk result (out.new.items ≡ out.old.items
        ++ flat_map (kind_text (side_of first.entry) (side_of second.entry)) compared_kinds) }
{
    for kind in COMPARED_KINDS {
        push_kind(alloc, out, kind, first, second)?;
    }
    Ok(())
}
