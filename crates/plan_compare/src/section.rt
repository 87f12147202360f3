//! What a table shows.

/// The values of a kind by year, or their sums over the years.
#[derive(Clone, Copy)]
pub(crate) struct Section {
    pub(crate) by_year: bool,
    pub(crate) kind: u8,
}
