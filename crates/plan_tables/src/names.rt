//! The names of tables.

ghost use Rattle.std.specs.Prelude.{◌≡◌, IfSome};
ghost use Rattle.std.specs.List.{list_any};
ghost use Rattle.std.specs.Str.{bytes_eq};
ghost use Rattle.row_core.specs.Kinds.{IsKind};
ghost use Rattle.plan_tables.specs.TableNames.{IsTable, has_name, kind_named, other_names, table_named};

use crate::shown::Table;
use row_core::kind_numbers::{
    DISCOUNTED_OPERATING_COST, KIND_COUNT, TOTAL_DISCOUNTED_COST_BY_TECHNOLOGY,
};
use row_core::var_word;

/// The table of this name: `all`, the word of a kind of variables, or what otoole calls the values of two of them
/// (`DiscountedCostByTechnology`, `DiscountedOperationalCost`). `None` for any other name.
pub fn table_named(name: &[u8]) -> Option<Table>
    ensures named { result ≡ table_named name.now }
    ensures known { IfSome result IsTable }
{
    if name == b"all".as_slice() {
        return Some(Table::AllValues);
    }
    match kind_named(name) {
        Some(kind) => Some(Table::Values(kind)),
        None => None,
    }
}

// The kind of variables of this name.
fn kind_named(name: &[u8]) -> Option<u8>
    ensures named { result ≡ kind_named name.now }
    ensures known { IfSome result IsKind }
{
    for kind in 1..=KIND_COUNT as u8 {
        if has_name(name, kind) {
            return Some(kind);
        }
    }
    None
}

// Whether a kind has this name.
fn has_name(name: &[u8], kind: u8) -> bool
    requires { IsKind kind }
    ensures { result ≡ has_name name.now kind }
{
    name == var_word(kind).as_bytes() || is_other_name(name, kind)
}

// Whether otoole calls the values of a kind so, where it has another word.
fn is_other_name(name: &[u8], kind: u8) -> bool
    ensures { result ≡ list_any (bytes_eq name.now) (other_names kind) }
{
    match kind {
        TOTAL_DISCOUNTED_COST_BY_TECHNOLOGY => name == b"DiscountedCostByTechnology".as_slice(),
        DISCOUNTED_OPERATING_COST => name == b"DiscountedOperationalCost".as_slice(),
        _ => false,
    }
}
