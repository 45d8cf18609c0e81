//! The program: real files, the standard output, and the words that it was called with.
#![tactic(auto)]

use guard_cli::guard_main;
use guard_io::{HostShelf, HostSink};
use std::io::ErrorKind;
use std::process::ExitCode;
use std::rt::Runtime;
use std::{env, io};

/// The status where the system does not give the words.
const NO_WORDS: u8 = 7;

/// The status where memory runs out.
const NO_MEMORY: u8 = 4;

/// The words behind the program's name. One that is no text is no word of any command, and then there
/// are none.
fn words<R: Runtime + AllocGlobal>(rt: &R) -> io::Result<Vec<String>> {
    match env::args(rt) {
        Ok(args) => Ok(args.skip(1).collect(rt.alloc())?),
        Err(e) if e.kind() == ErrorKind::InvalidData => Ok(Vec::new(rt.alloc())),
        Err(e) => Err(e),
    }
}

fn main(rt: HostRuntime) -> ExitCode {
    let words = match words(&rt) {
        Ok(words) => words,
        Err(e) if e.kind() == ErrorKind::OutOfMemory => return ExitCode::from(NO_MEMORY),
        Err(_) => return ExitCode::from(NO_WORDS),
    };
    let mut shelf = HostShelf::new(&rt);
    let mut out = HostSink::new(rt.stdout());
    let ending = guard_main(rt.alloc(), &words, &mut shelf, &mut out);
    ExitCode::from(ending.status())
}
