//! What a data section says: the members of its sets, and the defaults and values of its parameters.

ghost use Rattle.std.specs.Prelude.{◌≡◌, ◌≤◌, IfOk, [], length, take, true};

use crate::values::Values;
use std::alloc::{AllocError, Global};
use std::marker::Model;
use std::mem::size_of;

/// A place in the text: line and column, both counted from 1. Columns count bytes, a tab as one.
#[derive(Clone, Copy, Debug, PartialEq, Eq)]
pub struct Mark {
    pub line: u32,
    pub column: u32,
}

/// How many bytes of a name stand in the name itself. A longer one has memory of its own. With a length of four bytes
/// they fill whole words, by which a name is moved fastest.
const SHORT: usize = 16;

/// A name of 16 bytes at most, in the first places of the array.
#[derive(Clone, Copy)]
struct ShortName {
    length: u32,
    bytes: [u8; 16],
    ghost fits: { length ≤ 16 },
}

/// How a name is kept. Nearly all names of a model are short, and a large data section has millions of them:
/// those need no memory of their own.
#[derive(Drop)]
enum Kept {
    Short(ShortName),
    /// In a box, since a `Vec` in its place would make every name larger.
    Long(Box<Vec<u8>>),
}

/// The name of a member, as bytes. A bare symbol of digits only names the digits without leading zeros,
/// any other symbol its bytes, a quoted one those between its quotes, where a doubled quote stands for one.
#[derive(Drop)]
pub struct Name(Kept);

const _: () = prove!(size_of::<Name>() == 24);

impl Model for Name {
    ghost use Rattle.std.specs.Prelude.{ℕ, List};
    ghost use Rattle.mathprog_data.specs.NameView.{kept_bytes};

    ghost Value = { List ℕ };

    ghost view = { λ name. kept_bytes name.0 };
}

impl Name {
    /// The name without bytes.
    pub(crate) fn empty() -> Name
        ensures { result ≡ [] }
    {
        Name(Kept::Short(ShortName {
            length: 0,
            bytes: [0; 16],
        }))
    }

    /// The name of these bytes.
    #[inline(always)]
    pub(crate) fn from_slice(alloc: Global, bytes: &[u8]) -> Result<Name, AllocError>
        ensures { IfOk result (λ name. name ≡ bytes.now) }
    {
        if bytes.len() <= SHORT {
            return Ok(Name(Kept::Short(short_name(bytes))));
        }
        long_name(alloc, bytes)
    }

    /// The name of these bytes. Where they are many it takes them over, so that they aren't in memory twice.
    pub(crate) fn from_vec(alloc: Global, bytes: Vec<u8>) -> Result<Name, AllocError>
        ensures { IfOk result (λ name. name ≡ bytes.items) }
    {
        if bytes.len() <= SHORT {
            return Ok(Name(Kept::Short(short_name(bytes.as_slice()))));
        }
        let long = Box::new(alloc, bytes)?;
        Ok(Name(Kept::Long(long)))
    }

    /// A second name of the same bytes. Small, so that it stands in the loop over the subscripts of a cell.
    #[inline(always)]
    pub(crate) fn copy(&self, alloc: Global) -> Result<Name, AllocError>
        ensures { IfOk result (λ name. name ≡ self.now) }
    {
        match &self.0 {
            Kept::Short(short) => Ok(Name(Kept::Short(*short))),
            Kept::Long(long) => long_name(alloc, long.as_slice()),
        }
    }

    /// Whether this is surely the other name. Of a long name it's never sure.
    #[inline(always)]
    pub(crate) fn is_surely(&self, other: &Name) -> bool
        ensures { result ≡ true → self.now ≡ other.now }
    {
        match (&self.0, &other.0) {
            (Kept::Short(a), Kept::Short(b)) => is_same(a, b),
            _ => false,
        }
    }

    /// The bytes of the name.
    pub fn bytes(&self) -> &[u8]
        ensures { result.now ≡ self.now }
    {
        match &self.0 {
            Kept::Short(short) => &short.bytes[..short.length as usize],
            Kept::Long(long) => long.as_slice(),
        }
    }
}

/// The name of these bytes, in memory of its own.
#[cold]
#[inline(never)]
fn long_name(alloc: Global, bytes: &[u8]) -> Result<Name, AllocError>
    ensures { IfOk result (λ name. name ≡ bytes.now) }
{
    let long = Box::new(alloc, Vec::from_slice(alloc, bytes)?)?;
    Ok(Name(Kept::Long(long)))
}

/// Whether two short names have the same bytes. Byte by byte, since they are few.
#[inline(always)]
fn is_same(a: &ShortName, b: &ShortName) -> bool
    ensures { result ≡ true → take a.now.length a.now.bytes ≡ take b.now.length b.now.bytes }
{
    if a.length != b.length {
        return false;
    }
    let mut i = 0;
    while i < a.length {
        if a.bytes[i as usize] != b.bytes[i as usize] {
            return false;
        }
        i += 1;
    }
    true
}

/// The short name of these bytes.
fn short_name(bytes: &[u8]) -> ShortName
    requires { length bytes.now ≤ 16 }
    ensures { take result.length result.bytes ≡ bytes.now }
{
    let mut places = [0; 16];
    places[..bytes.len()].copy_from_slice(bytes);
    ShortName {
        length: bytes.len() as u32,
        bytes: places,
    }
}

/// What a statement says of a set.
#[derive(Drop)]
pub struct SetBlock {
    /// The number of the set, which counts from 1.
    pub set: u8,
    /// The members, in the order of the text.
    pub members: Vec<Name>,
}

/// What a statement says of a parameter.
#[derive(Drop)]
pub struct ParamBlock {
    /// The number of the parameter, which counts from 1.
    pub param: u8,
    /// The default in billionths.
    pub default: Option<i128>,
    /// The values, in the order of the text.
    pub values: Values,
}

/// What a data section says.
#[derive(Drop)]
pub struct Blocks {
    /// What is said of sets, in the order of the text.
    pub sets: Vec<SetBlock>,
    /// What is said of parameters, in the order of the text.
    pub params: Vec<ParamBlock>,
    /// How many defaults and values aren't whole numbers of billionths as written. The values of
    /// `ResultsPath` aren't counted.
    pub rounded: u64,
}
