//! Why a file of changes is refused.

ghost use Rattle.std.specs.Prelude.{◌≡◌};
ghost use Rattle.data_changes.specs.Told.{stop_of};
ghost use Rattle.data_changes.specs.declared.fault.ChangesFail.TheVariants.{Memory};
ghost use Rattle.data_changes.specs.declared.fault.RecordStop.TheVariants as Stop;

use param_tables::{BuildFault, ChangeFail};
use std::alloc::AllocError;

/// What is wrong with a record.
#[derive(Drop)]
pub enum RecordFault {
    /// Record 1 isn't a header: a field is no column's name, or stands twice, or the column of names, of changes or of values is missing.
    BadHeader,
    /// It has more or fewer fields than the header, or names members in a column that its parameter has not.
    BadRecord,
    /// It names no parameter that is used in the data.
    UnknownName,
    /// It names a member that the data don't have.
    UnknownMember,
    /// Its value is no number of a data file.
    BadNumber,
    /// Its change is none of `=`, `*` and `+`.
    BadChange,
    /// A value that it makes is refused: it lies outside the parameter's range, or its size is above 10^15.
    AtIndex(BuildFault),
}

/// The first fault of a file.
#[derive(Drop)]
pub struct ChangesFault {
    /// The record, counted from 1, which is the header.
    pub number: u64,
    /// What is wrong with it.
    pub fault: RecordFault,
}

/// Why data weren't changed.
#[derive(Drop)]
pub enum ChangesFail {
    /// A fault of the file.
    Fault(ChangesFault),
    /// There is no memory for it.
    Memory,
}

impl From<AllocError> for ChangesFail {
    ghost from_gives = { λ _ fail. fail ≡ Memory };

    fn from(_: AllocError) -> ChangesFail {
        ChangesFail::Memory
    }
}

/// Why a record changed nothing.
#[derive(Drop)]
pub(crate) enum RecordStop {
    /// A fault of the record.
    Fault(RecordFault),
    /// There is no memory for it.
    Memory,
}

impl From<AllocError> for RecordStop {
    ghost from_gives = { λ _ stop. stop ≡ Stop.Memory };

    fn from(_: AllocError) -> RecordStop {
        RecordStop::Memory
    }
}

impl From<ChangeFail> for RecordStop {
    ghost from_gives = { λ fail stop. stop ≡ stop_of fail };

    fn from(fail: ChangeFail) -> RecordStop {
        match fail {
            ChangeFail::Fault(fault) => RecordStop::Fault(RecordFault::AtIndex(fault)),
            ChangeFail::Memory => RecordStop::Memory,
        }
    }
}
