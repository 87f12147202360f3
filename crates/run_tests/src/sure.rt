//! The program over files and text in memory that fail nowhere but where there is no room.
ghost use Rattle.std.specs.Prelude.{◌≡◌, ◌≢◌, ℕ, length};
ghost use Rattle.command_answers.specs.declared.status.ReadStop.{ReadStop};
ghost use Rattle.command_answers.specs.declared.status.Status.{Status};

use io_edges::{SureShelf, SureSink};
use osemosys_run::{Status, osemosys};
use std::alloc::Global;

/// Runs the program over a shelf whose calls don't fail, and a sink whose calls fail only where it has no room: then no failed
/// read is answered, and a failed write only where the text fills the room.
pub fn run_surely(
    alloc: Global,
    words: &[String],
    shelf: &mut SureShelf,
    out: &mut SureSink,
) -> Status
    ensures read { (file : ℕ) → result ≢ Status.ReadFault (ReadStop.Failed file) }
    ensures write { result ≡ Status.WriteFault → length out.new.written ≡ out.new.room }
{
    let status = osemosys(alloc, words, shelf, out);
    // What its bytes are after a fault is a clause of this call.
    let _ = out.bytes();
    status
}

#[cfg(test)]
mod tests {
    use crate::sure::run_surely;
    use io_edges::{SureShelf, SureSink};
    use std::test::Fail;

    // Words, how much room there is, the exit status, and the text.
    static CALLS: [(&[&str], usize, u8, &str); 4] = [
        (&["mps", "none.dat"], 100, 6, "no such file 1\n"),
        (&["mps", "none.dat"], 15, 6, "no such file 1\n"),
        (&["mps", "none.dat"], 14, 7, "no such file 1"),
        (&["mps", "none.dat"], 0, 7, ""),
    ];

    #[test]
    fn a_text_that_fits_is_written_whole(rt: HostRuntime) -> Result<(), Fail> {
        for (words, room, code, text) in &CALLS {
            let mut all = Vec::new(rt.alloc());
            for word in *words {
                all.push(String::from_str(rt.alloc(), word)?)?;
            }
            let mut shelf = SureShelf::new(rt.alloc())?;
            let mut out = SureSink::new(rt.alloc(), *room)?;
            let status = run_surely(rt.alloc(), &all, &mut shelf, &mut out);
            assert_eq!(rt; status.code(), *code, "room {room}");
            assert_eq!(rt; out.bytes(), text.as_bytes(), "room {room}");
        }
        Ok(())
    }
}
