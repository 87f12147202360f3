// What may be wrong with the words.

/// What is wrong with the words.
#[derive(Clone, Copy, PartialEq, Eq)]
pub enum WordFault {
    /// There is no word.
    NoCommand,
    /// The first word is no command.
    BadCommand,
    /// A file or another word is missing or too many, an option is unknown or repeated, or it has no value.
    BadForm,
    /// A number isn't one of the digits and the range that its place allows.
    BadNumber,
    /// The value of `--show` is none of the command's.
    BadShow,
    /// `check` has a gap and no multipliers.
    GapAlone,
}
