// Files in memory, for tests and for callers that have their bytes already.
ghost use Rattle.std.specs.Prelude.{◌≡◌, ◌≢◌, ◌↔◌, ◌≤◌, ◌<◌, ◌-◌, ◌^◌, refl, [], ℕ, List, length, min, take, drop, false, position, IsTrue, Some, None, IfOk, OnOk, OnErr, IsErrOf, IsErr, IsSomeAnd};
ghost use Rattle.std.specs.Option.{option_map};
ghost use Rattle.std.specs.Str.{bytes_eq};
ghost use Rattle.io_edges.specs.Files.{file_named, put_file};
ghost use Rattle.io_edges.specs.Named.{contents};
ghost use Rattle.io_edges.specs.Memory.{fails_next, looked_up, look_failed, begun, not_begun, begin_failed, read_on, read_failed};

use crate::failing::Failing;
use crate::records::ReadRecord;
use crate::traits::{Failed, OpenFault, Shelf};
use std::alloc::{AllocError, Global};
use std::marker::Model;

#[derive(Drop)]
struct NamedFile {
    name: Vec<u8>,
    bytes: Vec<u8>,
}

/// Files in memory, read whole or in pieces. The calls whose numbers it was given fail, and no others;
/// `begin` and `read` are counted together, from 1.
#[derive(Drop)]
pub struct MemShelf {
    alloc: Global,
    files: Vec<NamedFile>,
    // The begun file's bytes, and how many of them were read.
    current: Vec<u8>,
    at: usize,
    // How many bytes a call of `read` moves at most; at least 1.
    most: usize,
    failing: Failing,
    begins: u64,
    taken: u64,
    moved: ReadRecord,
}

impl Model for MemShelf {
    ghost use Rattle.std.specs.Prelude.{◌≤◌, length, drop};
    ghost use Rattle.io_edges.specs.Named.{contents};
    ghost use Rattle.io_edges.specs.Memory.{ShelfState};

    ghost Value = { ShelfState };

    ghost view = { λ s. record {
      files = contents s.files.items;
      rest = drop s.at s.current.items;
      most = s.most;
      failing = s.failing.numbers.items;
      calls = s.failing.calls;
      faults = s.failing.faults;
      begins = s.begins;
      taken = s.taken;
      moved = s.moved.moved;
    } };

    ghost invariant = { λ s. (s.at ≤ length s.current.items) × (1 ≤ s.most) };
}

impl MemShelf {
    /// A shelf with no files, which reads as much as the room takes. `failing` has the numbers of the
    /// calls that fail. Refuses only where memory runs out.
    pub fn new(alloc: Global, failing: &[u64]) -> Result<MemShelf, AllocError>
        ensures { IfOk result (λ shelf. shelf ≡ record {
          files = [];
          rest = [];
          most = 2 ^ 64 - 1;
          failing = failing.now;
          calls = 0;
          faults = 0;
          begins = 0;
          taken = 0;
          moved = [];
        }) }
    {
        MemShelf::in_pieces(alloc, failing, usize::MAX)
    }

    /// The same, but a call of `read` moves at most `most` bytes.
    pub fn in_pieces(alloc: Global, failing: &[u64], most: usize) -> Result<MemShelf, AllocError>
        requires moves { 1 ≤ most }
        ensures { IfOk result (λ shelf. shelf ≡ record {
          files = [];
          rest = [];
          most = most;
          failing = failing.now;
          calls = 0;
          faults = 0;
          begins = 0;
          taken = 0;
          moved = [];
        }) }
    {
        Ok(MemShelf {
            alloc,
            files: Vec::new(alloc),
            current: Vec::new(alloc),
            at: 0,
            most,
            failing: Failing::new(alloc, failing)?,
            begins: 0,
            taken: 0,
            moved: ReadRecord::new(),
        })
    }

    /// Puts a file there, in place of one of that name. The unread rest stays as it is, and so do all
    /// counts. Refuses only where memory runs out, and then changes nothing.
    pub fn put(&mut self, name: &str, bytes: &[u8]) -> Result<(), AllocError>
        ensures ok { OnOk result (self.new ≡ record self.old {
          files = put_file self.old.files name.now bytes.now;
        }) }
        ensures err { OnErr result (self.new ≡ self.old) }

        // What is found by name afterwards.
        ensures there { OnOk result (file_named self.new.files name.now ≡ Some bytes.now) }
        ensures others { (other : List ℕ) → other ≢ name.now
            → file_named self.new.files other ≡ file_named self.old.files other }
    {
        let file = NamedFile {
            name: Vec::from_slice(self.alloc, name.as_bytes())?,
            bytes: Vec::from_slice(self.alloc, bytes)?,
        };
        place(&mut self.files, file)?;
        Ok(())
    }
}

impl MemShelf {
    // Looks the file up and has its bytes as the rest; an empty rest where it can't. It is no call yet that was noted.
    fn open(&mut self, name: &str) -> Result<(), OpenFault>
        ensures ok { OnOk result (IsSomeAnd (file_named self.old.files name.now)
            (λ bytes. self.new ≡ looked_up self.old bytes)) }
        ensures no_file { IsErrOf result OpenFault.NoFile → self.new ≡ looked_up self.old [] }
        ensures memory { IsErrOf result OpenFault.Memory → self.new ≡ looked_up self.old [] }
        ensures failed { IsErrOf result OpenFault.Failed → self.new ≡ look_failed self.old }

        // When each refusal comes.
        ensures fails { IsErrOf result OpenFault.Failed
            ↔ IsTrue (fails_next self.old.failing self.old.calls) }
        ensures missing { IsErrOf result OpenFault.NoFile
            ↔ ((fails_next self.old.failing self.old.calls ≡ false)
            × (file_named self.old.files name.now ≡ None)) }
    {
        self.current.clear();
        self.at = 0;
        self.failing.call()?;
        let Some(bytes) = bytes_of(&self.files, name.as_bytes()) else {
            return Err(OpenFault::NoFile);
        };
        self.current.extend_from_slice(bytes)?;
        Ok(())
    }
}

// The position of the first file of that name.
fn position_of(files: &[NamedFile], name: &[u8]) -> Option<usize>
    ensures { result ≡ position (λ file. bytes_eq file.name.items name.now) files.now }
{
    files.iter().position(|file| file.name.as_slice() == name)
}

// The bytes of the first file of that name.
fn bytes_of<'a>(files: &'a [NamedFile], name: &[u8]) -> Option<&'a [u8]>
    ensures { option_map (λ bytes. bytes.now) result ≡ file_named (contents files.now) name.now }
{
    match position_of(files, name) {
        Some(i) => Some(&files[i].bytes),
        None => None,
    }
}

// Puts the file in the place of one of its name, else after the others.
fn place(files: &mut Vec<NamedFile>, file: NamedFile) -> Result<(), AllocError>
    ensures ok { OnOk result (contents files.new.items
        ≡ put_file (contents files.old.items) file.name.items file.bytes.items) }
    ensures err { OnErr result (files.new.items ≡ files.old.items) }
{
    match position_of(files, &file.name) {
        Some(i) => files[i] = file,
        None => files.push(file)?,
    }
    Ok(())
}

impl Shelf for MemShelf {
    ghost files = { λ shelf. Some shelf.files };

    ghost rest = { λ shelf. Some shelf.rest };

    ghost faults = { λ shelf. shelf.faults };

    ghost begins = { λ shelf. shelf.begins };

    ghost taken = { λ shelf. shelf.taken };

    ghost moved = { λ shelf. shelf.moved };

    ghost tells_rest = { λ shelf told. refl };

    fn begin(&mut self, name: &str) -> Result<(), OpenFault>
        ensures opened { OnOk result (IsSomeAnd (file_named self.old.files name.now)
            (λ bytes. self.new ≡ begun self.old name.now bytes)) }
        ensures no_file { IsErrOf result OpenFault.NoFile → self.new ≡ not_begun self.old name.now }
        ensures memory { IsErrOf result OpenFault.Memory → self.new ≡ not_begun self.old name.now }
        ensures failed { IsErrOf result OpenFault.Failed → self.new ≡ begin_failed self.old name.now }
        ensures faults { self.old.faults ≤ self.new.faults }

        // When each refusal comes.
        ensures fails { IsErrOf result OpenFault.Failed
            ↔ IsTrue (fails_next self.old.failing self.old.calls) }
        ensures missing { IsErrOf result OpenFault.NoFile
            ↔ ((fails_next self.old.failing self.old.calls ≡ false)
            × (file_named self.old.files name.now ≡ None)) }
    {
        self.begins = self.begins.saturating_add(1);
        self.taken = 0;
        let opening = self.open(name);
        self.moved.note_begin(name.as_bytes(), opening.is_ok());
        opening
    }

    fn read(&mut self, room: &mut [u8]) -> Result<usize, Failed>
        ensures fails { IsErr result ↔ IsTrue (fails_next self.old.failing self.old.calls) }
        ensures count { IfOk result
            (λ n. n ≡ min self.old.most (min (length room.new) (length self.old.rest))) }
        ensures goes_on { IfOk result
            (λ n. n ≡ 0 → 0 < length room.new → self.old.rest ≡ []) }
        ensures front { IfOk result (λ n. take n room.new ≡ take n self.old.rest) }
        ensures following { IfOk result (λ n. drop n room.new ≡ drop n room.old) }
        ensures ok { IfOk result (λ n. self.new ≡ read_on self.old n room.new) }
        ensures err { OnErr result (self.new ≡ read_failed self.old) }
        ensures faults { self.old.faults ≤ self.new.faults }
    {
        self.failing.call()?;
        let left = &self.current[self.at..];
        let n = left.len().min(room.len()).min(self.most);
        room[..n].copy_from_slice(&left[..n]);
        self.at += n;
        self.taken = self.taken.saturating_add(n as u64);
        self.moved.note_read(room, n);
        Ok(n)
    }
}
