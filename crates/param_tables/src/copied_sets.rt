//! A copy of the sets.

ghost use Rattle.std.specs.Prelude.{◌≡◌, ◌-◌, [], length, set as with_at, IfOk, OnOk};
ghost use Rattle.model_sets.specs.Members.{AreSets, members};
ghost use Rattle.model_sets.specs.Names.{IsSet, set_count};

use model_sets::set_numbers::SET_COUNT;
use model_sets::{SetFail, Sets};
use std::alloc::{AllocError, Global};

/// The number of the last set.
const LAST_SET: u8 = SET_COUNT as u8;

/// Adds the members of the set to the copy, whose set has none yet. No member is refused, since the set keeps the rules.
fn copy_members(copy: &mut Sets, set: u8, sets: &Sets) -> Result<(), AllocError>
    requires listed { IsSet set }
    requires all { length copy.old ≡ set_count }
    requires none { members copy.old set ≡ [] }
    ensures { OnOk result (copy.new ≡ with_at copy.old (set - 1) (members sets.now set)) }
{
    for i in 0..sets.count(set) {
        match copy.add(set, sets.name_of(set, i)) {
            Ok(_) => (),
            Err(SetFail::Memory) => return Err(AllocError),
            Err(SetFail::Fault(_)) => unreachable!(),
        }
    }
    Ok(())
}

/// The sets once more. It may run out of memory.
pub(crate) fn copied_sets(alloc: Global, sets: &Sets) -> Result<Sets, AllocError>
    requires { AreSets sets.now }
    ensures { IfOk result (λ copy. copy ≡ sets.now) }
{
    let mut copy = Sets::new(alloc)?;
    for set in 1..LAST_SET + 1 {
        copy_members(&mut copy, set, sets)?;
    }
    Ok(copy)
}
