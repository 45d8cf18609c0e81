//! Rows of `link` and `run`.

use crate::calls::{Answer, USAGE, answers_over, named};
use crate::files::{of_code, plain_with};
use guard_io::NamedFile;
use sample_files::{FIVE, HARDENED, IMAGE, PLAIN};
use std::alloc::{AllocError, Global};
use std::process::Abort;
use std::test::Fail;

const LINKED: &str = "linked 8 bytes of code, 0 bytes of data\n";

/// The words behind `run --base 0x8000 --entry f`, the status and the text.
const RUNS: [(&str, u8, &str); 18] = [
    (
        "--room 64 --arg 9 --steps 10 b.o",
        0,
        "returned after 3 steps, r0 0x00000005, ordinary yes\n",
    ),
    (
        "--room 64 --arg 9 --steps 10 --skip 0 b.o",
        0,
        "returned after 3 steps, r0 0x00000005, ordinary yes\n",
    ),
    (
        "--room 64 --arg 9 --steps 10 --skip 2 b.o",
        0,
        "returned after 4 steps, r0 0x00000005, ordinary yes\n",
    ),
    (
        "--room 64 --arg 9 --steps 10 --skip 0,2 b.o",
        0,
        "returned after 4 steps, r0 0x00000005, ordinary yes\n",
    ),
    (
        "--room 64 --arg 9 --steps 10 --skip 0 a.o",
        0,
        "returned after 2 steps, r0 0x00000009, ordinary yes\n",
    ),
    (
        "--room=64 --steps=10 --skip=0 a.o",
        0,
        "returned after 2 steps, r0 0x00000000, ordinary yes\n",
    ),
    (
        "--room 64 --arg 9 --steps 2 b.o",
        5,
        "unfinished after 2 steps\n",
    ),
    (
        "--room 64 --steps 10 --skip 1 a.o",
        5,
        "stopped BadFetch at 0x00008004 after 2 steps\n",
    ),
    ("--room 64 --arg 9 --steps 10 --skip 0,1 b.o", 2, USAGE),
    (
        "--room 8 --arg 9 --steps 10 adds.o",
        0,
        "returned after 2 steps, r0 0x0000000a, ordinary yes\n",
    ),
    (
        "--room 64 --arg 3 --steps 10000 loops.o",
        0,
        "returned after 2002 steps, r0 0x00000003, ordinary yes\n",
    ),
    (
        "--room 64 --arg 9 --steps 10 lr.o",
        0,
        "returned after 3 steps, r0 0x80000000, ordinary no\n",
    ),
    (
        "--room 64 --arg 9 --steps 10 loads.o",
        5,
        "stopped BadAddress at 0x00008000 after 0 steps\n",
    ),
    (
        "--room 64 --arg 9 --steps 10 --seed 1 b.o",
        0,
        "returned after 4 steps, r0 0x00000005, ordinary yes\n",
    ),
    (
        "--room 64 --arg 9 --steps 10 --seed=2 b.o",
        0,
        "returned after 3 steps, r0 0x00000005, ordinary yes\n",
    ),
    (
        "--room 64 --arg 9 --seed 2 --steps 10 a.o",
        0,
        "returned after 2 steps, r0 0x00000005, ordinary yes\n",
    ),
    (
        "--room 64 --arg 9 --steps 10 --seed 3 a.o",
        5,
        "stopped BadFetch at 0x00008004 after 2 steps\n",
    ),
    (
        "--room 64 --arg 9 --steps 10 --skip 1 b.o g.o",
        0,
        "returned after 3 steps, r0 0x00000005, ordinary yes\n",
    ),
];

/// The files of these rows.
fn files(alloc: Global) -> Result<Vec<NamedFile>, AllocError> {
    // mov.w r1, #1000; subs r1, #1; bne back; bx lr
    let loop_bytes = [0x4f, 0xf4, 0x7a, 0x71, 0x01, 0x39, 0xfd, 0xd1, 0x70, 0x47];
    let adds = of_code([0x01, 0x30, 0x70, 0x47, 0, 0, 0, 0, 0, 0], 4, 0);
    let loads = of_code([0x00, 0x68, 0x70, 0x47, 0, 0, 0, 0, 0, 0], 4, 0);
    // mov r0, lr; adds r0, #1; bx lr
    let address = of_code([0x70, 0x46, 0x01, 0x30, 0x70, 0x47, 0, 0, 0, 0], 6, 0);
    let mut all = Vec::new(alloc);
    all.push(named(alloc, "a.o", &PLAIN)?)?;
    all.push(named(alloc, "b.o", &HARDENED)?)?;
    all.push(named(alloc, "five.o", &FIVE)?)?;
    all.push(named(alloc, "adds.o", &adds)?)?;
    all.push(named(alloc, "loads.o", &loads)?)?;
    all.push(named(alloc, "lr.o", &address)?)?;
    all.push(named(alloc, "loops.o", &of_code(loop_bytes, 10, 0))?)?;
    all.push(named(alloc, "g.o", &plain_with(108, b"g"))?)?;
    all.push(named(alloc, "short.o", &PLAIN[..51])?)?;
    Ok(all)
}

/// A command over the files of these rows.
fn prints(
    rt: &impl Abort,
    alloc: Global,
    words: &str,
    fails: (&[u64], &[u64]),
    want: Answer<'_>,
) -> Result<(), Fail> {
    answers_over(rt, alloc, files(alloc)?, words, fails, "i.bin", want)
}

#[test]
fn runs_functions(rt: HostRuntime) -> Result<(), Fail> {
    for (line, status, text) in RUNS {
        let line = format!(in rt.alloc(); "run --base 0x8000 --entry f {line}")?;
        prints(&rt, rt.alloc(), &line, (&[], &[]), (status, text, None))?;
    }
    Ok(())
}

#[test]
fn refuses_to_run_and_to_link(rt: HostRuntime) -> Result<(), Fail> {
    for (line, text) in [
        (
            "run --base 0x8000 --room 64 --entry g --steps 10 a.o",
            "a.o: refused 30 NoEntry section 0 offset 0\n",
        ),
        (
            "run --base 0x8000 --room 8 --entry f --steps 10 five.o",
            "five.o: refused 28 DoesNotFit section 0 offset 0\n",
        ),
        (
            "run --base 0xfffff000 --room 64 --entry f --steps 10 a.o",
            "a.o: refused 28 DoesNotFit section 0 offset 0\n",
        ),
        (
            "run --base 0x8000 --room 64 --entry h --steps 10 a.o g.o",
            "a.o: refused 30 NoEntry section 0 offset 0\n",
        ),
        (
            "run --base 0x8000 --room 8 --entry f --steps 10 b.o g.o",
            "b.o: refused 28 DoesNotFit section 0 offset 0\n",
        ),
        (
            "run --base 0x8000 --room 64 --entry f --steps 10 g.o a.o b.o",
            "b.o: refused 27 Duplicate section 0 offset 0 symbol 1\n",
        ),
        (
            "link --base 0x8000 --room 64 i.bin a.o a.o",
            "a.o: refused 27 Duplicate section 0 offset 0 symbol 1\n",
        ),
        (
            "link --base 0x8000 --room 64 i.bin a.o short.o b.o",
            "short.o: refused 1 NotElf section 0 offset 0\n",
        ),
        (
            "link --base 0x8000 --room 64 i.bin short.o",
            "short.o: refused 1 NotElf section 0 offset 0\n",
        ),
    ] {
        prints(&rt, rt.alloc(), line, (&[], &[]), (1, text, None))?;
    }
    Ok(())
}

/// The hardened code, and behind it a function `g` from another file.
#[test]
fn links_two_files(rt: HostRuntime) -> Result<(), Fail> {
    let mut image = [0; 64];
    image[..12].copy_from_slice(&[5, 32, 5, 32, 112, 71, 112, 71, 5, 32, 112, 71]);
    let line = "link --base 0x8000 --room 64 i.bin b.o g.o";
    let text = "linked 12 bytes of code, 0 bytes of data\n";
    let want: Option<&[u8]> = Some(&image);
    prints(&rt, rt.alloc(), line, (&[], &[]), (0, text, want))?;
    let line = "run --base 0x8000 --room 64 --entry g --arg 9 --steps 10 b.o g.o";
    let text = "returned after 2 steps, r0 0x00000005, ordinary yes\n";
    prints(&rt, rt.alloc(), line, (&[], &[]), (0, text, None))
}

#[test]
fn tells_what_failed(rt: HostRuntime) -> Result<(), Fail> {
    let none: &[u64] = &[];
    let first: &[u64] = &[0];
    let second: &[u64] = &[1];
    let image: Option<&[u8]> = Some(&IMAGE);
    let link = "link --base 0x8000 --room 64 i.bin b.o";
    let missing = "link --base 0x8000 --room 64 i.bin c.o";
    let runs = "run --base 0x8000 --room 64 --entry f --steps 10 a.o";
    let stops = "run --base 0x8000 --room 64 --entry f --steps 1 a.o";
    let several = "link --base 0x8000 --room 64 i.bin short.o c.o d.o";
    let both = "link --base 0x8000 --room 64 i.bin b.o g.o";
    let rows: [(&str, &[u64], &[u64], Answer<'_>); 9] = [
        (link, none, none, (0, LINKED, image)),
        (link, first, none, (3, "b.o: read fault\n", None)),
        (link, second, none, (3, "i.bin: write fault\n", None)),
        (link, none, first, (3, "", image)),
        (missing, none, none, (3, "c.o: read fault\n", None)),
        (several, none, none, (3, "c.o: read fault\n", None)),
        (both, second, none, (3, "g.o: read fault\n", None)),
        (runs, none, first, (3, "", None)),
        (stops, none, first, (5, "", None)),
    ];
    for (line, shelf_fails, sink_fails, want) in rows {
        prints(&rt, rt.alloc(), line, (shelf_fails, sink_fails), want)?;
    }
    Ok(())
}
