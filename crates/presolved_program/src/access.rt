//! Lists read and written by an index that is tested: where it is past the end, the step gives up.

ghost use Rattle.std.specs.Prelude.{◌≡◌, IfOk, Some, slice_get};

use crate::stop::Stop;
use std::alloc::{AllocError, Global};

/// The item at an index.
pub fn at<T: Copy>(list: &[T], index: usize) -> Result<T, Stop>
    ensures { IfOk result (λ found. slice_get list.now index ≡ Some found) }
{
    if index < list.len() {
        Ok(list[index])
    } else {
        Err(Stop::GivenUp)
    }
}

/// The item at an index, by reference.
pub fn item<T>(list: &[T], index: usize) -> Result<&T, Stop> {
    match list.get(index) {
        Some(found) => Ok(found),
        None => Err(Stop::GivenUp),
    }
}

/// Writes the item at an index.
pub fn put<T: Copy>(list: &mut [T], index: usize, item: T) -> Result<(), Stop> {
    if index < list.len() {
        list[index] = item;
        Ok(())
    } else {
        Err(Stop::GivenUp)
    }
}

/// Appends an item to the list at an index.
pub fn push_at<T: Copy>(lists: &mut [Vec<T>], index: usize, item: T) -> Result<(), Stop> {
    match lists.get_mut(index) {
        Some(list) => {
            list.push(item)?;
            Ok(())
        }
        None => Err(Stop::GivenUp),
    }
}

/// So many times the same item.
pub fn filled<T: Copy>(alloc: Global, item: T, count: usize) -> Result<Vec<T>, AllocError> {
    let mut list = Vec::with_capacity(alloc, count)?;
    for _ in 0..count {
        list.push(item)?;
    }
    Ok(list)
}

/// So many empty lists.
pub fn empty_lists<T: Drop>(alloc: Global, count: usize) -> Result<Vec<Vec<T>>, AllocError> {
    let mut lists = Vec::with_capacity(alloc, count)?;
    for _ in 0..count {
        lists.push(Vec::new(alloc))?;
    }
    Ok(lists)
}
