//! Which program wrote a text.

ghost use Rattle.std.specs.Prelude.{◌≡◌};
ghost use Rattle.solver_answers.specs.Answers.{form_of, ends_with_mark};
ghost use Rattle.solver_answers.specs.Words.{words};

use crate::coin::is_state;
use crate::words::{says, split_word};

/// The forms of text that are read line by line.
#[derive(Clone, Copy, PartialEq, Eq)]
pub enum Form {
    /// `-solution` of Clp and CBC.
    Coin,
    /// `-w` of glpsol.
    Glpsol,
    /// The raw form of HiGHS.
    Highs,
}

/// The form of a text, by its first line; none where no solver writes such a line.
pub(crate) fn form_of(line: &[u8]) -> Option<Form>
    ensures { result ≡ form_of (words line.now) }
{
    let (first, _) = split_word(line)?;
    if is_state(first) {
        Some(Form::Coin)
    } else if says(first, b"c") || says(first, b"s") {
        Some(Form::Glpsol)
    } else if says(first, b"Model") {
        Some(Form::Highs)
    } else {
        None
    }
}

/// Whether a text of this form has a mark at its end.
pub(crate) fn ends_with_mark(form: Form) -> bool
    ensures { result ≡ ends_with_mark form }
{
    match form {
        Form::Coin => false,
        Form::Glpsol | Form::Highs => true,
    }
}
