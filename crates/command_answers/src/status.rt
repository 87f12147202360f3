// What a call of the program ends with.
ghost use Rattle.std.specs.Prelude.{◌≡◌};
ghost use Rattle.command_answers.specs.Codes.{code_of};

use certificate_checker::Rejection;
use command_words::WordFault;
use data_changes::ChangesFault;
use mathprog_data::DataFault;
use model_sets::SetFault;
use param_tables::BuildFault;
use plan_files::PlanFault;
use simplex_core::Stop;

/// How a call ended. `code` gives the exit status.
#[derive(Drop)]
pub enum Status {
    /// The command did its work, and its text was written.
    Done,
    /// No plan meets the named equations with right signs.
    Infeasible,
    /// Plans of any lower cost meet them.
    Unbounded,
    /// The pivots that may be made were used up, or a number left 128 bits; or a trial of several stopped so.
    Uncertified(Stop),
    /// No guess was accepted, of which each could make so many pivots, and the linear program is too large for the exact method to follow.
    Unguessed(u64),
    /// A named rule for the input failed.
    Refused(Refusal),
    /// The words ask for nothing that the program does.
    Words(WordFault),
    /// A file couldn't be read.
    ReadFault(ReadStop),
    /// A write failed; a prefix of the text due was written.
    WriteFault,
    /// Memory ran out; nothing was written, or a prefix of a text that is written as it is made.
    Memory,
    /// A condition on the plan, the multipliers or the gap fails: the first that does.
    Rejected(Rejection),
}

/// Which rule for the input failed.
#[derive(Drop)]
pub enum Refusal {
    /// The text of the data file has this fault first.
    Text(DataFault),
    /// The sets of the data file have this fault first.
    Sets(SetFault),
    /// The data of the file have this fault first.
    Build(BuildFault),
    /// The file of changes has this fault first.
    Changes(ChangesFault),
    /// The file of the plan breaks this rule first.
    PlanFile(PlanFault),
    /// The file of multipliers breaks this rule first.
    MultiplierFile(PlanFault),
    /// The file of a proof breaks this rule first.
    ProofFile(PlanFault),
    /// The file of this number has more than 64 MiB.
    TooLong(u8),
    /// The rows of the equations have more than 4,000,000 entries.
    TooManyEntries,
    /// The linear program has so many inequalities and so many columns: more than 20,000, or more than 40,000.
    TooLarge(u64, u64),
    /// A word of the command names no member of the set of this number.
    NoSuch(u8),
    /// The word of `table` names no table.
    UnknownTable,
    /// The file of values to start from breaks its form at this line first.
    StartFile(u64),
    /// The rows have no smaller linear program that `reduce` could write.
    NoReduced,
}

/// Why a file couldn't be read. Files count from 1, in the order of the words.
#[derive(Clone, Copy, PartialEq, Eq)]
pub enum ReadStop {
    /// No file has that name, on a shelf that tells its files.
    NoFile(u8),
    /// The shelf failed.
    Failed(u8),
}

impl Status {
    /// The exit status: 0 for `Done`, 1 `Infeasible`, 2 `Unbounded`, 3 `Uncertified` and `Unguessed`, 4 `Refused`, 5 `Words`, 6 `ReadFault`,
    /// 7 `WriteFault`, 8 `Memory`, 9 `Rejected`.
    pub fn code(&self) -> u8
        ensures { result ≡ code_of self.now }
    {
        match self {
            Status::Done => 0,
            Status::Infeasible => 1,
            Status::Unbounded => 2,
            Status::Uncertified(_) | Status::Unguessed(_) => 3,
            Status::Refused(_) => 4,
            Status::Words(_) => 5,
            Status::ReadFault(_) => 6,
            Status::WriteFault => 7,
            Status::Memory => 8,
            Status::Rejected(_) => 9,
        }
    }
}
