// Files in memory, of which every call succeeds but for memory and missing names.
ghost use Rattle.std.specs.Prelude.{◌≡◌, ◌≢◌, ◌↔◌, refl, true, false, [], ℕ, List, length, min, take, drop, Some, None, IfOk, OnOk, OnErr, IsOk, IsErrOf, IsSomeAnd};
ghost use Rattle.io_edges.specs.Files.{file_named, put_file};
ghost use Rattle.io_edges.specs.Sure.{sure_opened, sure_read};

use crate::mem_shelf::MemShelf;
use crate::traits::{Failed, OpenFault, Shelf};
use std::alloc::{AllocError, Global};
use std::marker::Model;

/// Files in memory. No call fails for a cause outside, so there is no count of faults.
#[derive(Drop)]
pub struct SureShelf {
    // No number is in its list of calls that fail, and it reads as much as the room takes.
    shelf: MemShelf,
}

impl Model for SureShelf {
    ghost use Rattle.std.specs.Prelude.{◌≡◌, ◌-◌, ◌^◌, []};
    ghost use Rattle.io_edges.specs.Sure.{SureShelfState};

    ghost Value = { SureShelfState };

    ghost view = { λ s. record {
      files = s.shelf.files;
      rest = s.shelf.rest;
      begins = s.shelf.begins;
      taken = s.shelf.taken;
      moved = s.shelf.moved;
    } };

    ghost invariant = { λ s. (s.shelf.failing ≡ []) × (s.shelf.faults ≡ 0)
        × (s.shelf.most ≡ 2 ^ 64 - 1) };
}

impl SureShelf {
    /// A shelf with no files. Refuses only where memory runs out.
    pub fn new(alloc: Global) -> Result<SureShelf, AllocError>
        ensures { IfOk result (λ shelf. shelf ≡ record {
          files = [];
          rest = [];
          begins = 0;
          taken = 0;
          moved = [];
        }) }
    {
        Ok(SureShelf {
            shelf: MemShelf::new(alloc, &[])?,
        })
    }

    /// Puts a file there, in place of one of that name. The unread rest stays as it is, and so do all
    /// counts. Refuses only where memory runs out, and then changes nothing.
    pub fn put(&mut self, name: &str, bytes: &[u8]) -> Result<(), AllocError>
        ensures ok { OnOk result (self.new ≡ record self.old {
          files = put_file self.old.files name.now bytes.now;
        }) }
        ensures err { OnErr result (self.new ≡ self.old) }

        // What is found by name afterwards.
        ensures there { OnOk result (file_named self.new.files name.now ≡ Some bytes.now) }
        ensures others { (other : List ℕ) → other ≢ name.now
            → file_named self.new.files other ≡ file_named self.old.files other }
    {
        self.shelf.put(name, bytes)
    }
}

impl Shelf for SureShelf {
    ghost files = { λ shelf. Some shelf.files };

    ghost rest = { λ shelf. Some shelf.rest };

    ghost faults = { λ shelf. 0 };

    ghost begins = { λ shelf. shelf.begins };

    ghost taken = { λ shelf. shelf.taken };

    ghost moved = { λ shelf. shelf.moved };

    ghost tells_rest = { λ shelf told. refl };

    fn begin(&mut self, name: &str) -> Result<(), OpenFault>
        ensures opened { OnOk result (IsSomeAnd (file_named self.old.files name.now)
            (λ bytes. self.new ≡ sure_opened self.old name.now bytes true)) }
        ensures refused { OnErr result (self.new ≡ sure_opened self.old name.now [] false) }

        // When each refusal comes. Running out of memory has no cause.
        ensures sure { ¬ IsErrOf result OpenFault.Failed }
        ensures missing { IsErrOf result OpenFault.NoFile ↔ (file_named self.old.files name.now ≡ None) }
    {
        self.shelf.begin(name)
    }

    fn read(&mut self, room: &mut [u8]) -> Result<usize, Failed>
        ensures sure { IsOk result }
        ensures count { IfOk result (λ n. n ≡ min (length room.new) (length self.old.rest)) }
        ensures front { IfOk result (λ n. take n room.new ≡ take n self.old.rest) }
        ensures following { IfOk result (λ n. drop n room.new ≡ drop n room.old) }
        ensures ok { IfOk result (λ n. self.new ≡ sure_read self.old n room.new) }
    {
        self.shelf.read(room)
    }
}
