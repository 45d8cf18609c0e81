//! Which words are a command, and how its numbers and names are read.

use crate::calls::{Call, USAGE, answers};
use sample_files::{HARDENED, PLAIN};
use std::alloc::{AllocError, Global};
use std::process::Abort;
use std::test::Fail;

fn says(rt: &impl Abort, alloc: Global, words: &str, status: u8, text: &str) -> Result<(), Fail> {
    let call = Call {
        words,
        files: &[("a.o", &PLAIN), ("b.o", &HARDENED)],
        shelf_fails: &[],
        sink_fails: &[],
    };
    answers(rt, alloc, &call, "unsaved", (status, text, None))
}

/// What each line says, where a name or a number of it shows.
const COMMANDS: [(&str, u8, &str); 11] = [
    ("list help", 3, "help: read fault\n"),
    ("harden a.o b.o c.o d.o", 3, "c.o: read fault\n"),
    (
        "link --room=0x80000 --base=0 i.bin b.o",
        0,
        "linked 8 bytes of code, 0 bytes of data\n",
    ),
    (
        "link --base 4294963200 --room=8 =o b.o",
        1,
        "b.o: refused 28 DoesNotFit section 0 offset 0\n",
    ),
    (
        "link --base 0x8000 --room 64 i.bin b.o c.o",
        3,
        "c.o: read fault\n",
    ),
    (
        "run --skip=0,2 --steps=10000000 --entry==f --base 0x1000 --room 64 b.o",
        1,
        "b.o: refused 30 NoEntry section 0 offset 0\n",
    ),
    (
        "run --skip=0,2 --steps=10000000 --entry f --base 0x1000 --room 64 b.o",
        0,
        "returned after 4 steps, r0 0x00000005, ordinary yes\n",
    ),
    (
        "run --arg 0xffffffff --skip 0 --steps 0x2 --entry f --base 0x1000 --room 64 a.o",
        0,
        "returned after 2 steps, r0 0xffffffff, ordinary yes\n",
    ),
    (
        "run --arg 4294967295 --skip 0 --steps 1 --entry f --base 0x1000 --room 64 a.o",
        5,
        "unfinished after 1 steps\n",
    ),
    (
        "run --seed 4294967295 --steps 1 --entry f --base 0x1000 --room 64 b.o",
        5,
        "unfinished after 1 steps\n",
    ),
    (
        "run --skip 0 --steps 1 --entry f --base 0x1000 --room 64 b.o c.o",
        3,
        "c.o: read fault\n",
    ),
];

#[test]
fn reads_commands(rt: HostRuntime) -> Result<(), Fail> {
    for (line, status, text) in COMMANDS {
        says(&rt, rt.alloc(), line, status, text)?;
    }
    Ok(())
}

#[test]
fn understands_no_other_words(rt: HostRuntime) -> Result<(), Fail> {
    for line in [
        "",
        " ",
        "link a",
        "harden",
        "harden a.o",
        "harden a.o b.o c.o",
        "harden -a.o b.o",
        "harden a.o --",
        "harden a.o ",
        "hardens a.o b.o",
        "list",
        "list a.o b.o",
        "list -h",
        "list ",
        "make",
        "make 0",
        "make 0 0",
        "make 0 4001",
        "make 0 1 2",
        "make 00 1",
        "make -1 1",
        "make 0 ",
        "make 4294967296 1",
    ] {
        says(&rt, rt.alloc(), line, 2, USAGE)?;
    }
    Ok(())
}

#[test]
fn reads_no_other_links(rt: HostRuntime) -> Result<(), Fail> {
    for line in [
        "",
        "link",
        "links --base 0 --room 64 i.bin b.o",
        "link i.bin b.o",
        "link --base 0 --room 64",
        "link --base 0 --room 64 i.bin",
        "link --base 0 i.bin b.o",
        "link --base 0 --room 64 --room 64 i.bin b.o",
        "link --base 0 --room 64 --steps 1 i.bin b.o",
        "link --base 0 i.bin b.o --room 64",
        "link --base 0 --room 64 -- i.bin b.o",
        "link --base 0 --room 64 -i.bin b.o",
        "link --base 0 --room 64  b.o",
        "link --base= --room 64 i.bin b.o",
        "link --base  --room 64 i.bin b.o",
        "link --base=-0 --room 64 i.bin b.o",
        "link --bases 0 --room 64 i.bin b.o",
        "link base 0 --room 64 i.bin b.o",
        "link --base 1 --room 64 i.bin b.o",
        "link --base 0x100000000 --room 64 i.bin b.o",
        "link --base 4294967296 --room 64 i.bin b.o",
        "link --base 04096 --room 64 i.bin b.o",
        "link --base +4096 --room 64 i.bin b.o",
        "link --base 0x --room 64 i.bin b.o",
        "link --base 0x00001000 --room 0x000000040 i.bin b.o",
        "link --base 0xA000 --room 64 i.bin b.o",
        "link --base 0X8000 --room 64 i.bin b.o",
        "link --base 0x+800 --room 64 i.bin b.o",
        "link --base 0 --room 0 i.bin b.o",
        "link --base 0 --room 12 i.bin b.o",
        "link --base 0 --room 524296 i.bin b.o",
    ] {
        says(&rt, rt.alloc(), line, 2, USAGE)?;
    }
    Ok(())
}

#[test]
fn reads_no_other_runs(rt: HostRuntime) -> Result<(), Fail> {
    for line in [
        "run --base 0 --room 64 --entry f --steps 1",
        "run --base 0 --room 64 --entry f b.o",
        "run --base 0 --room 64 --steps 1 b.o",
        "run --room 64 --entry f --steps 1 b.o",
        "run --base 0 --room 64 --entry f --steps 0 b.o",
        "run --base 0 --room 64 --entry f --steps 10000001 b.o",
        "run --base 0 --room 64 --entry f --steps 1 --arg 4294967296 b.o",
        "run --base 0 --room 64 --entry f --steps 1 --arg x b.o",
        "run --base 0 --room 64 --entry -f --steps 1 b.o",
        "run --base 0 --room 64 --entry f --steps 1 --seed 4294967296 b.o",
        "run --base 0 --room 64 --entry f --steps 1 --seed 0,2 b.o",
        "run --base 0 --room 64 --entry f --steps 1 --skip 0 --seed 1 b.o",
        "run --base 0 --room 64 --entry f --steps 1 --skip 0,1 b.o",
        "run --base 0 --room 64 --entry f --steps 1 --skip 2,0 b.o",
        "run --base 0 --room 64 --entry f --steps 1 --skip 0,0 b.o",
        "run --base 0 --room 64 --entry f --steps 1 --skip 0, b.o",
        "run --base 0 --room 64 --entry f --steps 1 --skip 0x2 b.o",
        "run --base 0 --room 64 --entry f --steps 1 --skip 9223372036854775808 b.o",
        "run --base 0 --room 64 --entry f --steps 1 --skip= b.o",
    ] {
        says(&rt, rt.alloc(), line, 2, USAGE)?;
    }
    Ok(())
}

/// A line with so many inputs.
fn with_inputs(
    alloc: Global,
    start: &str,
    input: &str,
    count: usize,
) -> Result<String, AllocError> {
    let mut line = String::from_str(alloc, start)?;
    for _ in 0..count {
        line.push_str(input)?;
    }
    Ok(line)
}

#[test]
fn takes_sixteen_inputs_at_most(rt: HostRuntime) -> Result<(), Fail> {
    let unread = (3, "a: read fault\n");
    for (start, input, (status, text)) in [
        ("harden", " a b", unread),
        ("link --base 0 --room 64 o", " a", unread),
        ("run --base 0 --room 64 --entry f --steps 1", " a", unread),
    ] {
        let most = with_inputs(rt.alloc(), start, input, 16)?;
        says(&rt, rt.alloc(), &most, status, text)?;
        let more = with_inputs(rt.alloc(), start, input, 17)?;
        says(&rt, rt.alloc(), &more, 2, USAGE)?;
    }
    Ok(())
}
