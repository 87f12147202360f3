//! Numbers of a row in 64 bits.

ghost use Rattle.std.specs.Prelude.{◌<◌, ◌^◌, unsigned_abs};

/// What a choice needs of a row whose numbers have 64 bits: its entries in a column and in the last one, and its right side.
#[derive(Clone, Copy)]
pub struct ShortNumbers {
    pub entry: i64,
    pub last: i64,
    pub right: i64,
    ghost entry_narrow: { unsigned_abs entry < 2 ^ 63 },
    ghost last_narrow: { unsigned_abs last < 2 ^ 63 },
    ghost right_narrow: { unsigned_abs right < 2 ^ 63 },
}
