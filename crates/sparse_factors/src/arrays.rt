//! Reading and writing with a test of the index.

ghost use Rattle.std.specs.Prelude.{◌≡◌, length, slice_index_or, slice_set};

use std::alloc::{AllocError, Global};

/// The item at an index, or `otherwise` past the end.
#[inline]
pub fn at<T: Copy>(list: &[T], index: usize, otherwise: T) -> T
    ensures { result ≡ slice_index_or list.now index otherwise }
{
    if index >= list.len() {
        return otherwise;
    }
    list[index]
}

/// Writes an item; past the end nothing is written.
#[inline]
pub fn put<T: Copy>(list: &mut [T], index: usize, item: T)
    ensures { list.new ≡ slice_set list.old index item }
{
    if index < list.len() {
        list[index] = item;
    }
}

/// Adds 1 to a count.
pub(crate) fn count_up(list: &mut [usize], index: usize)
    ensures { length list.new ≡ length list.old }
{
    let count = at(list, index, 0);
    put(list, index, count.saturating_add(1));
}

/// So many times the same item.
pub(crate) fn filled<T: Copy>(alloc: Global, item: T, count: usize) -> Result<Vec<T>, AllocError> {
    let mut list = Vec::with_capacity(alloc, count)?;
    for _ in 0..count {
        list.push(item)?;
    }
    Ok(list)
}
