//! Why data are refused.

ghost use Rattle.std.specs.Prelude.{◌≡◌};
ghost use Rattle.model_sets.specs.Members.{SetLists};
ghost use Rattle.param_tables.specs.Told.{refusal_told, at, IsCell, NamesCell};
ghost use Rattle.param_tables.specs.declared.fault.BuildFail.TheVariants.{Memory};
ghost use Rattle.param_tables.specs.declared.fault.ChangeFail.TheVariants as ChangeFail;
ghost use Rattle.param_tables.specs.declared.fault.Stop.TheVariants as Stop;

use mathprog_data::Mark;
use model_sets::Sets;
use std::alloc::AllocError;

/// A used parameter at an index.
#[derive(Drop)]
pub struct Cell {
    /// The number of the used parameter.
    pub param: u8,
    /// The positions of the members, one for each subscript, in the order of the subscripts.
    pub index: Vec<u16>,
}

/// The first refusal of the data, with its place in the text or its parameter and index.
#[derive(Drop)]
pub enum BuildFault {
    /// The index of a value has a name that is no member of the set of its subscript.
    UnknownMember(Mark),
    /// The value of this index was given before.
    ValueTwice(Mark),
    /// The parameter has neither a value at this index nor a default.
    NoValue(Cell),
    /// The value is below 0 where 0 and above is asked.
    Negative(Cell),
    /// The value isn't above 0 where that is asked.
    NotPositive(Cell),
    /// The value isn't a whole number where that is asked.
    NotWhole(Cell),
    /// The value lies outside a range of another kind.
    OutOfRange(Cell),
    /// The set STORAGE has a member: the storage equations aren't part of the model.
    Storage,
    /// CapacityOfOneTechnologyUnit isn't 0: capacities in whole units aren't part of the model.
    WholeUnits(Cell),
}

/// Why no data were built.
#[derive(Drop)]
pub enum BuildFail {
    /// A refusal, and the sets, so that the names of its index can be told.
    Fault(BuildFault, Sets),
    /// There is no memory for them.
    Memory,
}

impl From<AllocError> for BuildFail {
    ghost from_gives = { λ _ fail. fail ≡ Memory };

    fn from(_: AllocError) -> BuildFail {
        BuildFail::Memory
    }
}

/// Why the data weren't changed.
#[derive(Drop)]
pub enum ChangeFail {
    /// A value that the change gives is refused: the first, in the order of the indices.
    Fault(BuildFault),
    /// There is no memory for the change.
    Memory,
}

impl From<AllocError> for ChangeFail {
    ghost from_gives = { λ _ fail. fail ≡ ChangeFail.Memory };

    fn from(_: AllocError) -> ChangeFail {
        ChangeFail::Memory
    }
}

/// Why the tables of the parameters weren't made.
#[derive(Drop)]
pub(crate) enum Stop {
    /// A refusal.
    Fault(BuildFault),
    /// There is no memory for them.
    Memory,
}

impl From<AllocError> for Stop {
    ghost from_gives = { λ _ stop. stop ≡ Stop.Memory };

    fn from(_: AllocError) -> Stop {
        Stop::Memory
    }
}

/// What may be wrong with a parameter at an index.
#[derive(Clone, Copy, PartialEq, Eq, Debug)]
pub enum CellFault {
    /// There is neither a value nor a default.
    NoValue,
    /// The value is below 0.
    Negative,
    /// The value isn't above 0.
    NotPositive,
    /// The value isn't a whole number.
    NotWhole,
    /// The value lies outside a range of another kind.
    OutOfRange,
    /// The value is a capacity in whole units other than 0.
    WholeUnits,
}

/// The refusal of the fault at the cell.
pub(crate) fn refusal_at(fault: CellFault, cell: Cell) -> BuildFault
    ensures told { (sets : SetLists) → refusal_told sets result ≡ at sets fault cell }
    ensures cell { (sets : SetLists) → IsCell sets cell → NamesCell sets result }
{
    match fault {
        CellFault::NoValue => BuildFault::NoValue(cell),
        CellFault::Negative => BuildFault::Negative(cell),
        CellFault::NotPositive => BuildFault::NotPositive(cell),
        CellFault::NotWhole => BuildFault::NotWhole(cell),
        CellFault::OutOfRange => BuildFault::OutOfRange(cell),
        CellFault::WholeUnits => BuildFault::WholeUnits(cell),
    }
}
