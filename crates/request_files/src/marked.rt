// Files that are read one after another, of which some are fed to readers and the others held.
ghost use Rattle.std.specs.Prelude.{◌≡◌, ◌≢◌, ℕ, List, IfOk, MatchResult, map};
ghost use Rattle.request_files.specs.InTurn.{AreRead, StopsAt};
ghost use Rattle.request_files.specs.Marked.{AllHold, fed_of, held_of, marks_of, names_of};
ghost use Rattle.request_files.specs.Reading.{IsSameShelf};
ghost use Rattle.request_files.specs.Sights.{seen};

use crate::taking::Taker;
use crate::whole::{ReadEnd, read_into};
use io_edges::Shelf;
use std::alloc::{AllocError, Global};

/// A file that a request names: its name, and whether it is fed to a reader; else its bytes are held.
#[derive(Clone, Copy)]
pub struct RequestFile<'a> {
    pub name: &'a str,
    pub is_fed: bool,
}

/// What the files hold: the readers that were fed, and the bytes of the others, each in the order asked for.
#[derive(Drop)]
pub struct Contents<T: Taker> {
    pub fed: Vec<T>,
    pub held: Vec<Vec<u8>>,
}

/// Where the reading stopped: the place of a file among those that are asked for, from 0, and why.
#[derive(Clone, Copy)]
pub struct Stopped {
    pub place: usize,
    pub end: ReadEnd,
}

/// Reads the files that are asked for one after another, each to its end, up to the first that isn't read so. Refuses only where memory
/// runs out.
pub fn read_files<S: Shelf, T: Taker>(
    alloc: Global,
    asked: &[RequestFile<'_>],
    shelf: &mut S,
) -> Result<Result<Contents<T>, Stopped>, AllocError>
    ensures read { IfOk result (λ verdict. MatchResult verdict
        (λ found. (contents : List (List ℕ)) × AreRead (names_of asked.now) contents (seen S.Shelf shelf.old) (seen S.Shelf shelf.new)
        × AllHold T.holds found.fed.items (fed_of (marks_of asked.now) contents)
        × (map (λ bytes. bytes.items) found.held.items ≡ held_of (marks_of asked.now) contents))
        (λ stopped. StopsAt (names_of asked.now) stopped.place stopped.end (seen S.Shelf shelf.old) (seen S.Shelf shelf.new))) }
    ensures same { IsSameShelf (seen S.Shelf shelf.old) (seen S.Shelf shelf.new) }
{
    let mut fed = Vec::new(alloc);
    let mut held = Vec::new(alloc);
    for (place, file) in asked.iter().enumerate() {
        if file.is_fed {
            let mut reader = T::start(alloc)?;
            match read_into(alloc, file.name, shelf, &mut reader) {
                Ok(()) => fed.push(reader)?,
                Err(end) => return stop(place, end),
            }
        } else {
            let mut bytes = Vec::new(alloc);
            match read_into(alloc, file.name, shelf, &mut bytes) {
                Ok(()) => held.push(bytes)?,
                Err(end) => return stop(place, end),
            }
        }
    }
    Ok(Ok(Contents { fed, held }))
}

// The reading stopped at the file of this place; that memory ran out is no place.
fn stop<C>(place: usize, end: ReadEnd) -> Result<Result<C, Stopped>, AllocError>
    ensures { IfOk result (λ verdict. MatchResult verdict (λ _. ⊥)
        (λ stopped. (stopped.place ≡ place) × (stopped.end ≡ end) × (end ≢ ReadEnd.Memory))) }
{
    match end {
        ReadEnd::Memory => Err(AllocError),
        end => Ok(Err(Stopped { place, end })),
    }
}
