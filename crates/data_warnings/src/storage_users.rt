//! Technologies that charge or discharge storages, which the equations don't have.

ghost use Rattle.std.specs.Prelude.{◌≡◌, ◌<◌, ◌||◌, ℕ, Some, true, length, map, nat_eq, slice_index_or, if◌then◌else◌, IfOk, OnOk};
ghost use Rattle.std.specs.BTreeMap.{get};
ghost use Rattle.std.specs.List.{list_any};
ghost use Rattle.std.specs.Option.{is_some};
ghost use Rattle.std.specs.Ordering.{nat_cmp};
ghost use Rattle.mathprog_data.specs.BlocksView.{blocks_told, param_told};
ghost use Rattle.mathprog_data.specs.Meaning.{GivenValue};
ghost use Rattle.data_warnings.specs.StorageUsers.{is_at, is_of_storages, links, links_in, storage_users};

use mathprog_data::{Blocks, ParamBlock, Values};
use model_sets::Sets;
use model_sets::param_numbers::{TECHNOLOGY_FROM_STORAGE, TECHNOLOGY_TO_STORAGE};
use model_sets::set_numbers::TECHNOLOGY;
use std::alloc::{AllocError, Global};
use std::collections::BTreeMap;

/// The positions of the technologies that a value other than 0 of TechnologyToStorage or TechnologyFromStorage names, in the order of the set.
/// Time is in proportion to the values of the two. It may run out of memory.
pub(crate) fn storage_users(
    alloc: Global,
    sets: &Sets,
    blocks: &Blocks,
) -> Result<Vec<u16>, AllocError>
    ensures { IfOk result (λ users. users.items ≡ storage_users sets.now (blocks_told blocks.now)) }
{
    let mut marked = BTreeMap::new(alloc);
    mark_users(&mut marked, sets, blocks.params.as_slice())?;
    let mut users = Vec::new(alloc);
    for t in 0..sets.count(TECHNOLOGY) {
        if marked.contains_key(&t) {
            users.push(t)?;
        }
    }
    Ok(users)
}

// Marks the technologies that the statements name.
fn mark_users(
    marked: &mut BTreeMap<u16, bool>,
    sets: &Sets,
    blocks: &[ParamBlock],
) -> Result<(), AllocError>
    ensures { OnOk result ((t : ℕ) → is_some (get nat_cmp marked.new t) ≡ (is_some (get nat_cmp marked.old t) || list_any (links_in sets.now t) (map param_told blocks.now))) }
{
    for block in blocks {
        if is_of_storages(block.param) {
            mark_of(marked, sets, &block.values)?;
        }
    }
    Ok(())
}

// Whether a parameter says which technologies charge or discharge storages.
fn is_of_storages(param: u8) -> bool
    ensures { result ≡ is_of_storages param }
{
    param == TECHNOLOGY_TO_STORAGE || param == TECHNOLOGY_FROM_STORAGE
}

// Marks the technologies that values other than 0 name.
fn mark_of(marked: &mut BTreeMap<u16, bool>, sets: &Sets, values: &Values) -> Result<(), AllocError>
    ensures { OnOk result ((t : ℕ) → is_some (get nat_cmp marked.new t) ≡ (is_some (get nat_cmp marked.old t) || list_any (links sets.now t) values.now)) }
{
    for number in 0..values.len() {
        if let Some(t) = named_by(sets, values, number) {
            mark(marked, t)?;
        }
    }
    Ok(())
}

// The technology that a value names, unless it is 0.
fn named_by(sets: &Sets, values: &Values, number: usize) -> Option<u16>
    requires { number < length values.now }
    ensures { (v : GivenValue) → v ≡ slice_index_or values.now number v → (t : ℕ) → is_at result t ≡ links sets.now t v }
{
    if values.value(number) == 0 || values.subscripts(number) < 2 {
        return None;
    }
    sets.index_of(TECHNOLOGY, values.name(number, 1).bytes())
}

// Marks a technology.
fn mark(marked: &mut BTreeMap<u16, bool>, t: u16) -> Result<(), AllocError>
    ensures { OnOk result ((u : ℕ) → get nat_cmp marked.new u ≡ (if nat_eq u t then Some true else get nat_cmp marked.old u)) }
{
    marked.insert(t, true)?;
    Ok(())
}
