//! The words of the sets.

ghost use Rattle.std.specs.Prelude.{◌≡◌};
ghost use Rattle.model_sets.specs.CodeTables.{texts_of};
ghost use Rattle.model_sets.specs.Names.{IsSet, set_number, set_word, set_words};

use crate::set_numbers::SET_COUNT;

/// The words of the sets, from number 1 (the OSeMOSYS long code, Howells et al., Energy Policy 2011).
pub const SET_WORDS: [&str; SET_COUNT] = [
    "REGION",
    "TECHNOLOGY",
    "FUEL",
    "EMISSION",
    "MODE_OF_OPERATION",
    "TIMESLICE",
    "YEAR",
    "STORAGE",
    "SEASON",
    "DAYTYPE",
    "DAILYTIMEBRACKET",
];

/// The word of the set in the table.
fn look_up(table: &'static [&'static str], set: u8) -> &'static str
    requires listed { IsSet set }
    requires tabled { texts_of table.now ≡ set_words }
    ensures { result.now ≡ set_word set }
{
    table[usize::from(set - 1)]
}

/// The word of the set with this number.
pub fn set_word(set: u8) -> &'static str
    requires { IsSet set }
    ensures { result.now ≡ set_word set }
{
    look_up(&SET_WORDS, set)
}

/// The place of the word in the table, counted from 1.
fn place_of(table: &'static [&'static str], word: &[u8]) -> Option<u8>
    requires { texts_of table.now ≡ set_words }
    ensures { result ≡ set_number word.now }
{
    for (i, entry) in table.iter().enumerate() {
        if word == entry.as_bytes() {
            return Some(i as u8 + 1);
        }
    }
    None
}

/// The number of the set with this word.
pub fn set_number(word: &[u8]) -> Option<u8>
    ensures { result ≡ set_number word.now }
{
    place_of(&SET_WORDS, word)
}
