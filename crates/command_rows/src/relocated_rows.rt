//! Rows of `link` and `run` of two files with relocations.

use crate::calls::{Answer, Call, answers};
use crate::relocated_files::{CALLED, CALLS};
use std::alloc::Global;
use std::process::Abort;
use std::test::Fail;

/// What another linker makes of `calls.o` and `called.o`, the code first, from 0x8000 on, and data at 0x8040.
const IMAGE: [u8; 72] = [
    0x08, 0xB5, 0x48, 0xF2, 0x40, 0x01, 0xC0, 0xF2, 0x00, 0x01, 0x09, 0x68, 0x00, 0xF0, 0x04, 0xF8,
    0x08, 0xBD, 0x00, 0xBF, 0, 0, 0, 0, 0x01, 0x4A, 0x12, 0x68, 0x40, 0x18, 0x10, 0x47, 0x44, 0x80,
    0, 0, 0x40, 0x00, 0x70, 0x47, 0, 0, 0, 0, 0, 0, 0, 0, 0, 0, 0, 0, 0, 0, 0, 0, 0, 0, 0, 0, 0, 0,
    0, 0, 5, 0, 0, 0, 0x25, 0x80, 0, 0,
];

/// The same in the other order.
const TURNED: [u8; 72] = [
    0x01, 0x4A, 0x12, 0x68, 0x40, 0x18, 0x10, 0x47, 0x44, 0x80, 0, 0, 0x40, 0x00, 0x70, 0x47, 0x08,
    0xB5, 0x48, 0xF2, 0x40, 0x01, 0xC0, 0xF2, 0x00, 0x01, 0x09, 0x68, 0xFF, 0xF7, 0xF0, 0xFF, 0x08,
    0xBD, 0x00, 0xBF, 0, 0, 0, 0, 0, 0, 0, 0, 0, 0, 0, 0, 0, 0, 0, 0, 0, 0, 0, 0, 0, 0, 0, 0, 0, 0,
    0, 0, 5, 0, 0, 0, 0x0D, 0x80, 0, 0,
];

const LINKED: &str = "linked 36 bytes of code, 8 bytes of data\n";

/// A command over both files, and the first with its call of another kind.
fn prints(rt: &impl Abort, alloc: Global, words: &str, want: Answer<'_>) -> Result<(), Fail> {
    let mut other = CALLS;
    other[204] = 11;
    let call = Call {
        words,
        files: &[
            ("calls.o", CALLS.as_slice()),
            ("called.o", CALLED.as_slice()),
            ("other.o", other.as_slice()),
        ],
        shelf_fails: &[],
        sink_fails: &[],
    };
    answers(rt, alloc, &call, "i.bin", want)
}

#[test]
fn links_relocations(rt: HostRuntime) -> Result<(), Fail> {
    for (names, image) in [("calls.o called.o", &IMAGE), ("called.o calls.o", &TURNED)] {
        let line = format!(in rt.alloc(); "link --base 0x8000 --room 64 i.bin {names}")?;
        let image: Option<&[u8]> = Some(image);
        prints(&rt, rt.alloc(), &line, (0, LINKED, image))?;
    }
    Ok(())
}

#[test]
fn runs_what_it_linked(rt: HostRuntime) -> Result<(), Fail> {
    for (words, status, text) in [
        (
            "--entry f --arg 9 --steps 20 calls.o called.o",
            0,
            "returned after 12 steps, r0 0x0000001c, ordinary yes\n",
        ),
        (
            "--entry f --arg 9 --steps 20 called.o calls.o",
            0,
            "returned after 12 steps, r0 0x0000001c, ordinary yes\n",
        ),
        (
            "--entry f --arg 9 --steps 20 --skip 7 called.o calls.o",
            0,
            "returned after 12 steps, r0 0x00000012, ordinary yes\n",
        ),
        (
            "--entry f --arg 9 --steps 20 --skip 1 called.o calls.o",
            5,
            "stopped BadAddress at 0x0000801a after 3 steps\n",
        ),
        (
            "--entry add --arg 9 --steps 20 called.o",
            0,
            "returned after 6 steps, r0 0x00000012, ordinary yes\n",
        ),
        (
            "--entry last --steps 20 called.o",
            1,
            "called.o: refused 30 NoEntry section 0 offset 0\n",
        ),
    ] {
        let line = format!(in rt.alloc(); "run --base 0x8000 --room 64 {words}")?;
        prints(&rt, rt.alloc(), &line, (status, text, None))?;
    }
    Ok(())
}

#[test]
fn refuses_relocations(rt: HostRuntime) -> Result<(), Fail> {
    for (words, text) in [
        (
            "64 i.bin calls.o",
            "calls.o: refused 26 Undefined section 0 offset 0 symbol 3\n",
        ),
        (
            "64 i.bin called.o calls.o called.o",
            "called.o: refused 27 Duplicate section 0 offset 0 symbol 8\n",
        ),
        (
            "64 i.bin calls.o other.o",
            "other.o: refused 18 RelocKind section 0 offset 12\n",
        ),
        (
            "32 i.bin calls.o called.o",
            "calls.o: refused 28 DoesNotFit section 0 offset 0\n",
        ),
    ] {
        let line = format!(in rt.alloc(); "link --base 0x8000 --room {words}")?;
        prints(&rt, rt.alloc(), &line, (1, text, None))?;
    }
    Ok(())
}
