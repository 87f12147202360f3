//! Shelves and sinks: those in memory fail where they are told to, and those of the system read and write.

use io_edges::{
    DiskShelf, Failed, MemShelf, MemSink, OpenFault, OutSink, Shelf, Sink, SureShelf, SureSink,
};
use std::fs::{File, OpenOptions};
use std::io::Write;
use std::process::Abort;
use std::test::Fail;
use std::{fs, io, process};

/// A call, and what it has to answer.
#[derive(Clone, Copy)]
enum Step<'a> {
    Begin(&'a str, Result<(), OpenFault>),
    /// The length of the room, and the bytes that come.
    Read(usize, Result<&'a str, Failed>),
}

fn run<S: Shelf>(rt: &impl Abort, shelf: &mut S, steps: &[Step<'_>]) {
    for (i, step) in steps.iter().enumerate() {
        match step {
            Step::Begin(name, expected) => {
                assert_eq!(rt; shelf.begin(name), *expected, "step {i}");
            }
            Step::Read(room, expected) => {
                let mut bytes = [0u8; 8];
                let outcome = shelf.read(&mut bytes[..(*room).min(8)]);
                assert_eq!(rt; outcome, expected.map(|text| text.len()), "step {i}");
                if let Ok(text) = expected {
                    assert!(rt; bytes.starts_with(text.as_bytes()), "step {i}");
                }
            }
        }
    }
}

#[test]
fn the_calls_that_fail_are_those_of_the_list(rt: HostRuntime) -> Result<(), Fail> {
    let mut shelf = MemShelf::new(rt.alloc(), &[5, 1, 3, 1, 7])?;
    shelf.put("a", b"hello")?;
    let steps = [
        Step::Begin("a", Err(OpenFault::Failed)),
        Step::Begin("a", Ok(())),
        Step::Read(2, Err(Failed)),
        Step::Read(2, Ok("he")),
        Step::Read(2, Err(Failed)),
        Step::Read(2, Ok("ll")),
        // A refused call leaves nothing to read.
        Step::Begin("a", Err(OpenFault::Failed)),
        Step::Read(2, Ok("")),
        Step::Begin("a", Ok(())),
        Step::Begin("b", Err(OpenFault::NoFile)),
        Step::Read(2, Ok("")),
    ];
    run(&rt, &mut shelf, &steps);
    Ok(())
}

#[test]
fn a_sink_in_memory_takes_what_fits(rt: HostRuntime) -> Result<(), Fail> {
    let mut sink = MemSink::new(rt.alloc(), 3, &[2])?;
    for (piece, taken) in [
        ("ab", Ok(2)),
        ("c", Err(Failed)),
        ("cd", Ok(1)),
        ("d", Err(Failed)),
        ("", Ok(0)),
    ] {
        assert_eq!(rt; sink.write(piece.as_bytes()), taken, "writing {piece:?}");
    }
    assert_eq!(rt; sink.bytes(), b"abc".as_slice());
    Ok(())
}

#[test]
fn a_sure_shelf_fails_nowhere(rt: HostRuntime) -> Result<(), Fail> {
    let mut shelf = SureShelf::new(rt.alloc())?;
    shelf.put("a", b"first")?;
    shelf.put("b", b"")?;
    shelf.put("a", b"hello")?;
    let steps = [
        Step::Read(2, Ok("")),
        Step::Begin("a", Ok(())),
        Step::Read(4, Ok("hell")),
        Step::Begin("b", Ok(())),
        Step::Read(4, Ok("")),
        Step::Begin("a", Ok(())),
        Step::Read(0, Ok("")),
        Step::Read(8, Ok("hello")),
        Step::Begin("c", Err(OpenFault::NoFile)),
        Step::Read(8, Ok("")),
    ];
    run(&rt, &mut shelf, &steps);
    Ok(())
}

#[test]
fn a_sure_sink_fails_without_room_alone(rt: HostRuntime) -> Result<(), Fail> {
    let mut sink = SureSink::new(rt.alloc(), 3)?;
    for (piece, taken) in [
        ("ab", Ok(2)),
        ("cd", Ok(1)),
        ("d", Err(Failed)),
        ("", Ok(0)),
    ] {
        assert_eq!(rt; sink.write(piece.as_bytes()), taken, "writing {piece:?}");
    }
    assert_eq!(rt; sink.bytes(), b"abc".as_slice());
    Ok(())
}

#[test]
fn the_files_of_the_system_are_read(rt: HostRuntime) -> Result<(), Fail> {
    let path = format!(in rt.alloc(); "/tmp/io_edges_{}", process::id(rt.process()))?;
    let path = path.as_str();
    fs::write(&rt, path, "hello")?;
    let mut shelf = DiskShelf::new(&rt);
    let steps = [
        Step::Read(4, Ok("")),
        Step::Begin(path, Ok(())),
        Step::Read(4, Ok("hell")),
        Step::Read(4, Ok("o")),
        Step::Read(4, Ok("")),
        // A folder is opened, and its reading fails.
        Step::Begin("/", Ok(())),
        Step::Read(4, Err(Failed)),
        Step::Begin(path, Ok(())),
        Step::Begin("no/such/file", Err(OpenFault::Failed)),
        Step::Read(4, Ok("")),
    ];
    run(&rt, &mut shelf, &steps);
    fs::remove_file(&rt, path)?;
    Ok(())
}

/// What prints into a file, and takes nothing where there is none.
#[derive(Drop)]
struct Printer(Option<File>);

impl Print for Printer {
    fn print<D: std::fmt::Display + Drop>(&self, _value: D) -> io::Result<()> {
        Ok(())
    }

    fn println<D: std::fmt::Display + Drop>(&self, _value: D) -> io::Result<()> {
        Ok(())
    }

    fn write_all(&self, _bytes: &[u8]) -> io::Result<()> {
        Ok(())
    }

    fn write_some(&self, bytes: &[u8]) -> io::Result<usize> {
        match &self.0 {
            Some(file) => (&mut &*file).write(bytes),
            None => Ok(0),
        }
    }
}

#[test]
fn a_full_or_stuck_output_fails(rt: HostRuntime) -> Result<(), Fail> {
    let mut out = OutSink::new(&rt);
    assert_eq!(rt; out.write(b"written at once\n"), Ok(16));
    assert_eq!(rt; out.write(b""), Ok(0));
    let full = OpenOptions::new().write(true).open(&rt, "/dev/full")?;
    for printer in [Printer(Some(full)), Printer(None)] {
        let mut out = OutSink::new(&printer);
        assert_eq!(rt; out.write(b"x"), Err(Failed));
    }
    Ok(())
}
