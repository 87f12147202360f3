//! What `table` shows, by its name.

ghost use Rattle.std.specs.Prelude.{◌≡◌, IfSome};
ghost use Rattle.model_sets.specs.Data.{Data};
ghost use Rattle.table_command.specs.ShownTables.{IsShowable, shown_named};

use data_tables::{DataTable, data_table_named};
use plan_tables::{Table, table_named};
use price_tables::{PriceTable, price_table_named};

/// What is shown of an optimum.
#[derive(Clone, Copy, PartialEq, Eq)]
pub enum Shown {
    /// Values of its plan.
    Values(Table),
    /// Prices by its multipliers.
    Prices(PriceTable),
    /// The data that it is a plan for.
    Data(DataTable),
    /// What a page is drawn from, one table after another.
    Page,
}

/// What this name stands for, of data whose text has a statement for DiscountRateIdv (`second`) or has none: `page`, `limits`, `prices`, a
/// table of values, or one of the data. `None` for any other name.
pub fn shown_named(name: &[u8], second: bool) -> Option<Shown>
    ensures named { result ≡ shown_named second name.now }
    ensures known { (d : Data) → d.second ≡ second → IfSome result (IsShowable d) }
{
    if let Some(table) = price_table_named(name) {
        return Some(Shown::Prices(table));
    }
    if let Some(table) = table_named(name) {
        return Some(Shown::Values(table));
    }
    if name == b"page".as_slice() {
        return Some(Shown::Page);
    }
    match data_table_named(name, second) {
        Some(table) => Some(Shown::Data(table)),
        None => None,
    }
}
