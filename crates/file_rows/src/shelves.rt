//! Files and output, in memory and of the system.

use elf_model::Name;
use guard_io::{
    HostShelf, HostSink, LoadErr, MemShelf, MemSink, NamedFile, PutErr, SaveErr, Shelf, Sink,
    have_different_names,
};
use std::alloc::{AllocError, Global};
use std::fs;
use std::io::{self, Write};
use std::process::Abort;
use std::test::Fail;

fn named(alloc: Global, name: &str, bytes: &[u8]) -> Result<NamedFile, AllocError> {
    let name = Name::new(Vec::from_slice(alloc, name.as_bytes())?);
    Ok(NamedFile::new(name, Vec::from_slice(alloc, bytes)?))
}

/// A shelf with the files `a`, which holds 1, 2, 3, and `b`, which is empty.
fn two_files(rt: &impl Abort, alloc: Global, fail: &[u64]) -> Result<MemShelf, Fail> {
    let mut files = Vec::new(alloc);
    files.push(named(alloc, "a", &[1, 2, 3])?)?;
    files.push(named(alloc, "b", &[])?)?;
    assert!(rt; have_different_names(&files));
    Ok(MemShelf::new(alloc, files, Vec::from_slice(alloc, fail)?))
}

#[test]
fn a_name_twice_is_found(rt: HostRuntime) -> Result<(), Fail> {
    let alloc = rt.alloc();
    let mut files = Vec::new(alloc);
    files.push(named(alloc, "a", &[1])?)?;
    files.push(named(alloc, "b", &[1])?)?;
    assert!(rt; have_different_names(&files));
    files.push(named(alloc, "a", &[2])?)?;
    assert!(rt; !have_different_names(&files));
    Ok(())
}

#[test]
fn a_shelf_gives_the_first_bytes(rt: HostRuntime) -> Result<(), Fail> {
    let mut shelf = two_files(&rt, rt.alloc(), &[])?;
    for (name, most, want) in [
        ("a", 0, [].as_slice()),
        ("a", 2, [1, 2].as_slice()),
        ("a", 3, [1, 2, 3].as_slice()),
        ("a", 9, [1, 2, 3].as_slice()),
        ("b", 9, [].as_slice()),
    ] {
        let bytes = shelf.load(rt.alloc(), name, most)?;
        assert_eq!(rt; bytes.as_slice(), want, "{name} to {most}");
    }
    Ok(())
}

#[test]
fn a_shelf_keeps_what_is_saved(rt: HostRuntime) -> Result<(), Fail> {
    let mut shelf = two_files(&rt, rt.alloc(), &[])?;
    assert_eq!(rt; shelf.file("c"), None);
    shelf.save("c", &[7])?;
    shelf.save("a", &[8, 9])?;
    assert_eq!(rt; shelf.file("a"), Some([8, 9].as_slice()));
    assert_eq!(rt; shelf.file("b"), Some([].as_slice()));
    assert_eq!(rt; shelf.file("c"), Some([7].as_slice()));
    Ok(())
}

#[test]
fn listed_calls_on_a_shelf_fail(rt: HostRuntime) -> Result<(), Fail> {
    let mut shelf = two_files(&rt, rt.alloc(), &[1, 3])?;
    assert_eq!(rt; shelf.load(rt.alloc(), "c", 9).err(), Some(LoadErr::Failed));
    assert_eq!(rt; shelf.load(rt.alloc(), "a", 9).err(), Some(LoadErr::Failed));
    assert_eq!(rt;
        shelf.load(rt.alloc(), "a", 9)?.as_slice(),
        [1, 2, 3].as_slice()
    );
    assert_eq!(rt; shelf.save("a", &[4]), Err(SaveErr::Failed));
    assert_eq!(rt; shelf.file("a"), Some([1, 2, 3].as_slice()));
    assert_eq!(rt; shelf.save("a", &[4]), Ok(()));
    assert_eq!(rt; shelf.file("a"), Some([4].as_slice()));
    Ok(())
}

#[test]
fn a_sink_keeps_what_is_put(rt: HostRuntime) -> Result<(), Fail> {
    let mut sink = MemSink::new(rt.alloc(), Vec::from_slice(rt.alloc(), &[1])?);
    assert_eq!(rt; sink.bytes(), [].as_slice());
    assert_eq!(rt; sink.put(&[1, 2]), Ok(()));
    assert_eq!(rt; sink.put(&[3]), Err(PutErr::Failed));
    assert_eq!(rt; sink.put(&[4]), Ok(()));
    assert_eq!(rt; sink.bytes(), [1, 2, 4].as_slice());
    Ok(())
}

#[test]
fn a_real_file_is_saved_and_loaded(rt: HostRuntime) -> Result<(), Fail> {
    let mut shelf = HostShelf::new(rt);
    let long = vec![in rt.alloc(); 5u8; 10_000]?;
    for (bytes, most, want) in [
        (long.as_slice(), 10_000, long.as_slice()),
        ([1, 2, 3].as_slice(), 9, [1, 2, 3].as_slice()),
        ([1, 2, 3].as_slice(), 2, [1, 2].as_slice()),
        ([].as_slice(), 2, [].as_slice()),
    ] {
        assert_eq!(rt; shelf.save("guard_io.test", bytes), Ok(()));
        let loaded = shelf.load(rt.alloc(), "guard_io.test", most)?;
        assert_eq!(rt; loaded.as_slice(), want, "at most {most}");
    }
    fs::remove_file(&rt, "guard_io.test")?;
    Ok(())
}

/// A missing file, a folder, which is opened but gives no bytes, and a place in no folder.
#[test]
fn an_error_of_the_system_is_a_fault(rt: HostRuntime) -> Result<(), Fail> {
    let mut shelf = HostShelf::new(rt);
    for name in ["guard_io.missing", "."] {
        let loaded = shelf.load(rt.alloc(), name, 9);
        assert_eq!(rt; loaded.err(), Some(LoadErr::Failed), "{name}");
    }
    let saved = shelf.save("guard_io.missing/a", &[1]);
    assert_eq!(rt; saved, Err(SaveErr::Failed));
    Ok(())
}

#[test]
fn the_standard_output_takes_bytes(rt: HostRuntime) -> Result<(), Fail> {
    let mut sink = HostSink::new(rt.stdout());
    assert_eq!(rt; sink.put(b"guard_io\n"), Ok(()));
    assert_eq!(rt; sink.put(&[]), Ok(()));
    Ok(())
}

/// A writer that takes a part of a text and then nothing.
#[test]
fn a_full_writer_is_a_fault(rt: HostRuntime) {
    for (room, first, second) in [
        (6, Ok(()), Ok(())),
        (5, Ok(()), Err(PutErr::Failed)),
        (2, Err(PutErr::Failed), Err(PutErr::Failed)),
        (0, Err(PutErr::Failed), Err(PutErr::Failed)),
    ] {
        let mut sink = HostSink::new(Narrow { room });
        assert_eq!(rt; sink.put(b"abc"), first, "{room}");
        assert_eq!(rt; sink.put(b"abc"), second, "{room}");
        assert_eq!(rt; sink.put(&[]), Ok(()), "{room}");
    }
}

/// Takes two bytes for each write until it is full, and then none.
#[derive(Drop)]
struct Narrow {
    room: usize,
}

impl Write for Narrow {
    fn write(&mut self, buf: &[u8]) -> io::Result<usize> {
        let count = self.room.min(2).min(buf.len());
        self.room -= count;
        Ok(count)
    }

    fn flush(&mut self) -> io::Result<()> {
        Ok(())
    }
}
