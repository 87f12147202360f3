//! The parameters of the OSeMOSYS long code: words, subscripts, ranges, and in which data they are used.

ghost use Rattle.std.specs.Prelude.{◌≡◌, ◌≤◌, length, map, All};
ghost use Rattle.model_sets.specs.CodeTables.{described_param};
ghost use Rattle.model_sets.specs.Names.{IsSet};
ghost use Rattle.model_sets.specs.Params.{IsParam, is_used, param_at, param_number, param_word, params, range_of, subscript_count, subscript_sets};

pub mod table;

use table::PARAMETERS;

/// The range of the values of a parameter.
#[derive(Clone, Copy, PartialEq, Eq, Debug)]
pub enum Range {
    /// Every number.
    Any,
    /// 0 and above.
    AtLeastZero,
    /// Above 0.
    AboveZero,
    /// From 0 to 1.
    ZeroToOne,
    /// 1 or 2.
    OneOrTwo,
    /// A whole number from 1 to 200.
    Lifetime,
    /// 0 alone.
    ZeroOnly,
    /// -1, or 0 and above.
    MinusOneOrAtLeastZero,
}

/// In which data a parameter is used.
#[derive(Clone, Copy, PartialEq, Eq, Debug)]
pub enum Use {
    /// In all data.
    Always,
    /// In the data whose text has a statement for it, if only one without values.
    WhereStated,
    /// In none: it is read and not looked at.
    Never,
}

/// An entry of the table: word, sets of the subscripts, range, and use.
type Entry = (&'static str, &'static [u8], Range, Use);

/// The entry of the parameter in the table.
fn look_up(table: &'static [Entry], param: u8) -> &'static Entry
    requires listed { IsParam param }
    requires tabled { map described_param table.now ≡ params }
    ensures { described_param result.now ≡ param_at param }
{
    &table[usize::from(param - 1)]
}

/// The entry of the parameter.
fn entry(param: u8) -> &'static Entry
    requires { IsParam param }
    ensures { described_param result.now ≡ param_at param }
{
    look_up(&PARAMETERS, param)
}

/// The word of the parameter with this number, which counts from 1 in the order of the table in docs/DATA.md.
pub fn param_word(param: u8) -> &'static str
    requires { IsParam param }
    ensures { result.now ≡ param_word param }
{
    entry(param).0
}

/// The numbers of the sets over which the subscripts of the parameter run, in the order of its subscripts.
pub fn subscript_sets(param: u8) -> &'static [u8]
    requires { IsParam param }
    ensures sets { result.now ≡ subscript_sets param }
    ensures listed { All IsSet result.now }
    ensures most { length result.now ≤ 5 }
{
    entry(param).1
}

/// How many subscripts the parameter has.
pub fn subscript_count(param: u8) -> u8
    requires { IsParam param }
    ensures { result ≡ subscript_count param }
{
    subscript_sets(param).len() as u8
}

/// The range of the values of the parameter.
pub fn range_of(param: u8) -> Range
    requires { IsParam param }
    ensures { result ≡ range_of param }
{
    entry(param).2
}

/// Whether the parameter is used in data whose text has a statement for DiscountRateIdv (`second`), or has
/// none.
pub fn is_used(param: u8, second: bool) -> bool
    requires { IsParam param }
    ensures { result ≡ is_used second (param_at param).used }
{
    match entry(param).3 {
        Use::Always => true,
        Use::WhereStated => second,
        Use::Never => false,
    }
}

/// The place of the word in the table, counted from 1.
fn place_of(table: &'static [Entry], word: &[u8]) -> Option<u8>
    requires { map described_param table.now ≡ params }
    ensures { result ≡ param_number word.now }
{
    for (i, entry) in table.iter().enumerate() {
        if word == entry.0.as_bytes() {
            return Some(i as u8 + 1);
        }
    }
    None
}

/// The number of the parameter with this word.
pub fn param_number(word: &[u8]) -> Option<u8>
    ensures { result ≡ param_number word.now }
{
    place_of(&PARAMETERS, word)
}
