//! Files that are missing, and shelves and sinks that fail.

use crate::calls::{MPS, SETS, call, call_into};
use feed_tests::section;
use io_edges::MemSink;
use osemosys_run::{ReadStop, Status};
use std::test::Fail;

#[test]
fn missing_files_are_refused(rt: HostRuntime) -> Result<(), Fail> {
    for name in ["other.dat", "-", ""] {
        let (status, out) = call(rt.alloc(), &["mps", name], b"")?;
        assert!(rt; matches!(status, Status::ReadFault(ReadStop::NoFile(1))));
        assert_eq!(rt; status.code(), 6);
        assert_eq!(rt; out.bytes(), b"no such file 1\n".as_slice());
    }
    Ok(())
}

// The calls of the shelf are: begin, a read that takes the file, a read that ends it.
#[test]
fn a_shelf_that_fails_at_any_call_is_reported(rt: HostRuntime) -> Result<(), Fail> {
    let text = section(rt.alloc(), SETS, "")?;
    for number in [1, 2, 3, 4] {
        let out = MemSink::new(rt.alloc(), 8000, &[])?;
        let (status, out) = call_into(rt.alloc(), MPS, text.as_bytes(), &[number], out)?;
        if number == 4 {
            assert_eq!(rt; status.code(), 0);
        } else {
            assert!(rt; matches!(status, Status::ReadFault(ReadStop::Failed(1))));
            assert_eq!(rt; out.bytes(), b"read fault file 1\n".as_slice());
        }
    }
    Ok(())
}

/// The room of a sink, those of its calls that fail, and what it holds of the text.
static SINKS: [(usize, &[u64], &str); 4] = [
    (1000, &[1], ""),
    (0, &[], ""),
    (13, &[], "NAME OSEMOSYS"),
    (20, &[2], "NAME OSEMOSYS\nROWS\n "),
];

#[test]
fn a_sink_that_fails_keeps_a_prefix_of_the_text(rt: HostRuntime) -> Result<(), Fail> {
    let text = section(rt.alloc(), SETS, "")?;
    for (room, failing, prefix) in SINKS.iter() {
        let out = MemSink::new(rt.alloc(), *room, *failing)?;
        let (status, out) = call_into(rt.alloc(), MPS, text.as_bytes(), &[], out)?;
        assert_eq!(rt; status.code(), 7);
        assert_eq!(rt; out.bytes(), prefix.as_bytes(), "room {room}");
    }
    Ok(())
}
