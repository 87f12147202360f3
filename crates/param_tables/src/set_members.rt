//! The sets that a data section gives.

ghost use Rattle.std.specs.Prelude.{◌≡◌, ◌-◌, [], length, set as with_at, None, IfOk, IfErr, OnOk};
ghost use Rattle.model_sets.specs.Members.{members};
ghost use Rattle.model_sets.specs.Names.{IsSet, set_count};
ghost use Rattle.param_tables.specs.BlockData.{members_told, set_lists};
ghost use Rattle.param_tables.specs.InTurn.{first_of};
ghost use Rattle.param_tables.specs.SetRefusals.{member_refusals, first_set_refusal, IsSetFailDue};
ghost use Rattle.mathprog_data.specs.BlocksView.{blocks_told, sets_told};
ghost use Rattle.mathprog_data.specs.WellFormed.{AreWellFormed};

use mathprog_data::{Blocks, Name, SetBlock};
use model_sets::set_numbers::SET_COUNT;
use model_sets::{SetFail, Sets};
use std::alloc::Global;

/// The number of the last set.
const LAST_SET: u8 = SET_COUNT as u8;

/// The members that the blocks give the set; none where no block speaks of it.
fn members_of(blocks: &[SetBlock], set: u8) -> &[Name]
    ensures { result.now ≡ members_told (sets_told blocks.now) set }
{
    for block in blocks {
        if block.set == set {
            return block.members.as_slice();
        }
    }
    &[]
}

/// Adds the members of a set that has none yet.
fn add_members(sets: &mut Sets, set: u8, names: &[Name]) -> Result<(), SetFail>
    requires listed { IsSet set }
    requires all { length sets.old ≡ set_count }
    requires none { members sets.old set ≡ [] }
    ensures added { OnOk result (sets.new ≡ with_at sets.old (set - 1) names.now) }
    ensures accepted { OnOk result (member_refusals set names.now ≡ []) }
    ensures refused { IfErr result (IsSetFailDue (first_of (member_refusals set names.now))) }
{
    for name in names {
        sets.add(set, name.bytes())?;
    }
    Ok(())
}

/// The sets that the blocks give, each with its members in the order of the text; a set of which no block
/// speaks is empty. The blocks are such as a text can give.
///
/// Refuses the first member, set by set in the order of their numbers and member by member, that is
/// refused: a member of YEAR that isn't a whole number from 1 to 9999 written without sign and without
/// leading zeros (`no` 3), a name that stands twice in its set (1), a member past the set's limit (4).
/// Then the first set without members of REGION, TECHNOLOGY, FUEL, MODE_OF_OPERATION, TIMESLICE and YEAR
/// (2). It may run out of memory at any time.
pub fn sets_of(alloc: Global, blocks: &Blocks) -> Result<Sets, SetFail>
    requires { AreWellFormed (blocks_told blocks.now) }
    ensures sets { IfOk result (λ sets. sets ≡ set_lists (blocks_told blocks.now)) }
    ensures accepted { OnOk result (first_set_refusal (blocks_told blocks.now) ≡ None) }
    ensures refused { IfErr result (IsSetFailDue (first_set_refusal (blocks_told blocks.now))) }
{
    let mut sets = Sets::new(alloc)?;
    for set in 1..LAST_SET + 1 {
        add_members(&mut sets, set, members_of(blocks.sets.as_slice(), set))?;
    }
    match sets.finish() {
        Ok(()) => Ok(sets),
        Err(fault) => Err(SetFail::Fault(fault)),
    }
}
