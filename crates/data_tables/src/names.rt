//! The names of the tables of data.

ghost use Rattle.std.specs.Prelude.{◌≡◌, IfSome};
ghost use Rattle.model_sets.specs.Data.{Data};
ghost use Rattle.data_tables.specs.DataNames.{IsDataTable, data_table_named, used_param_named};

use model_sets::{is_used, param_number};

/// A table of the data.
#[derive(Clone, Copy, PartialEq, Eq)]
pub enum DataTable {
    /// The members of the sets.
    Sets,
    /// What 1 that is due in the middle of a year is worth at the beginning of the first year.
    Worth,
    /// The values of the used parameter of this number.
    Param(u8),
}

/// The table of this name, of data whose text has a statement for DiscountRateIdv (`second`) or has none: `sets`, `worth`, or the
/// word of a parameter that is used in such data. `None` for any other name.
pub fn data_table_named(name: &[u8], second: bool) -> Option<DataTable>
    ensures named { result ≡ data_table_named second name.now }
    ensures known { (d : Data) → d.second ≡ second → IfSome result (IsDataTable d) }
{
    if name == b"sets".as_slice() {
        return Some(DataTable::Sets);
    }
    if name == b"worth".as_slice() {
        return Some(DataTable::Worth);
    }
    match used_param_named(name, second) {
        Some(param) => Some(DataTable::Param(param)),
        None => None,
    }
}

// The number of the parameter of this word, where such data use it.
fn used_param_named(word: &[u8], second: bool) -> Option<u8>
    ensures named { result ≡ used_param_named second word.now }
    ensures known { (d : Data) → d.second ≡ second → IfSome result (λ param. IsDataTable d (DataTable.Param param)) }
{
    let param = param_number(word)?;
    if is_used(param, second) {
        Some(param)
    } else {
        None
    }
}
