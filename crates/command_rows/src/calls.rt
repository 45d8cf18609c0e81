//! A command over files in memory.

use elf_model::Name;
use guard_cli::guard_main;
use guard_io::{MemShelf, MemSink, NamedFile, have_different_names};
use std::alloc::{AllocError, Global};
use std::process::Abort;
use std::test::Fail;

pub(crate) const USAGE: &str = "usage: skipguard harden, link, run, list or make\n";

/// A command, the files that it finds, and the calls on the shelf and the sink that fail.
#[derive(Clone, Copy)]
pub(crate) struct Call<'a> {
    pub words: &'a str,
    pub files: &'a [(&'static str, &'a [u8])],
    pub shelf_fails: &'a [u64],
    pub sink_fails: &'a [u64],
}

/// The status, the text, and what is then in the file of the output's name.
pub(crate) type Answer<'a> = (u8, &'a str, Option<&'a [u8]>);

/// The words between single blanks; an empty line has none.
fn words_of(alloc: Global, line: &str) -> Result<Vec<String>, AllocError> {
    let mut words = Vec::new(alloc);
    if line.is_empty() {
        return Ok(words);
    }
    for word in line.split(' ') {
        words.push(String::from_str(alloc, word)?)?;
    }
    Ok(words)
}

/// A file of a shelf.
pub(crate) fn named(alloc: Global, name: &str, bytes: &[u8]) -> Result<NamedFile, AllocError> {
    let name = Name::new(Vec::from_slice(alloc, name.as_bytes())?);
    Ok(NamedFile::new(name, Vec::from_slice(alloc, bytes)?))
}

/// Carries out a command that saves `b.o`, `i.bin` or nothing, and compares what comes of it.
pub(crate) fn answers(
    rt: &impl Abort,
    alloc: Global,
    call: &Call<'_>,
    output: &str,
    want: Answer<'_>,
) -> Result<(), Fail> {
    let mut files = Vec::new(alloc);
    for (name, bytes) in call.files {
        files.push(named(alloc, name, bytes)?)?;
    }
    let fails = (call.shelf_fails, call.sink_fails);
    answers_over(rt, alloc, files, call.words, fails, output, want)
}

/// The same over files. The calls that fail are those on the shelf and those on the sink.
pub(crate) fn answers_over(
    rt: &impl Abort,
    alloc: Global,
    files: Vec<NamedFile>,
    line: &str,
    fails: (&[u64], &[u64]),
    output: &str,
    want: Answer<'_>,
) -> Result<(), Fail> {
    assert!(rt; have_different_names(&files));
    let mut shelf = MemShelf::new(alloc, files, Vec::from_slice(alloc, fails.0)?);
    let mut out = MemSink::new(alloc, Vec::from_slice(alloc, fails.1)?);
    let words = words_of(alloc, line)?;
    let ending = guard_main(alloc, &words, &mut shelf, &mut out);
    assert_eq!(rt; out.bytes(), want.1.as_bytes(), "{line}");
    assert_eq!(rt; ending.status(), want.0, "{line}");
    assert_eq!(rt; shelf.file(output), want.2, "{line}");
    Ok(())
}
