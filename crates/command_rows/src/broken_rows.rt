//! Rows of broken files: what each command says of them, and that it leaves the output's file as it was.

use crate::calls::{Call, answers};
use crate::files::plain_with;
use sample_files::{FIVE, PLAIN};
use std::alloc::Global;
use std::process::Abort;
use std::test::Fail;

/// Where the plain file is changed, to which bytes, and how it is refused then.
type Change = (usize, &'static [u8], &'static str);

const NOT_ELF: &str = "1 NotElf section 0 offset 0";

const NO_HEADERS: &str = "3 BadTable section 0 offset 32";

/// Changes of the file header, of section headers (.text and the symbol table), and of the symbols `$t` and `f`.
const UNREADABLE: [Change; 8] = [
    (4, &[2], "2 NotArmRel section 0 offset 4"),
    (32, &[0xff], NO_HEADERS),
    (204, &[0xff; 4], "3 BadTable section 1 offset 200"),
    (248, &[9], "3 BadTable section 2 offset 248"),
    (72, &[6], "4 BadName section 2 offset 72"),
    (100, &[0x32], "5 BadSymbol section 2 offset 100"),
    (92, &[7], "5 BadSymbol section 2 offset 92"),
    (192, &[7], "8 SectionKind section 1 offset 192"),
];

/// Changes that only `harden` refuses, and the lines that `list` has for the code: of `f`, which is then of Arm, of its
/// mapping symbol, which is then `$a` or `$d`, of the first instruction and of the last one.
const UNHARDENABLE: [(Change, &str); 5] = [
    (
        (92, &[0], "10 ArmCode section 0 offset 0"),
        "00000000  movs r0, #5\n00000002  bx lr\n",
    ),
    (
        (106, b"a", "10 ArmCode section 0 offset 0"),
        "00000000  .word 0x47702005\n",
    ),
    (
        (106, b"d", "19 IntoMiddle section 0 offset 0"),
        "00000000  .word 0x47702005\n",
    ),
    (
        (52, &[0x00, 0xd0], "19 IntoMiddle section 0 offset 0"),
        "00000000  beq 0x00000004\n00000002  bx lr\n",
    ),
    (
        (54, &[0x00, 0x20], "20 FallsOff section 0 offset 2"),
        "00000000  movs r0, #5\n00000002  movs r0, #0\n",
    ),
];

/// A command over a file `a.o`, with the calls on the sink that fail.
fn says(
    rt: &impl Abort,
    alloc: Global,
    words: &str,
    file: &[u8],
    sink_fails: &[u64],
    (status, text): (u8, &str),
) -> Result<(), Fail> {
    let call = Call {
        words,
        files: &[("a.o", file), ("b.o", &FIVE)],
        shelf_fails: &[],
        sink_fails,
    };
    answers(rt, alloc, &call, "b.o", (status, text, Some(&FIVE)))
}

/// A file is refused with this line, also where it can't be put.
fn refuses(
    rt: &impl Abort,
    alloc: Global,
    words: &str,
    file: &[u8],
    line: &str,
) -> Result<(), Fail> {
    says(rt, alloc, words, file, &[], (1, line))?;
    says(rt, alloc, words, file, &[0], (1, ""))
}

/// No command takes a file.
fn all_refuse(rt: &impl Abort, alloc: Global, file: &[u8], refusal: &str) -> Result<(), Fail> {
    let line = format!(in alloc; "a.o: refused {refusal}\n")?;
    for words in [
        "harden a.o b.o",
        "list a.o",
        "link --base 0x8000 --room 64 b.o a.o",
        "run --base 0x8000 --room 64 --entry f --steps 10 a.o",
    ] {
        refuses(rt, alloc, words, file, &line)?;
    }
    Ok(())
}

#[test]
fn refuses_broken_files(rt: HostRuntime) -> Result<(), Fail> {
    all_refuse(&rt, rt.alloc(), &[], NOT_ELF)?;
    all_refuse(&rt, rt.alloc(), &PLAIN[..51], NOT_ELF)?;
    all_refuse(&rt, rt.alloc(), &PLAIN[..80], NO_HEADERS)?;
    all_refuse(&rt, rt.alloc(), &PLAIN[..143], NO_HEADERS)?;
    for (place, bytes, refusal) in UNREADABLE {
        all_refuse(&rt, rt.alloc(), &plain_with(place, bytes), refusal)?;
    }
    Ok(())
}

#[test]
fn refuses_to_harden_broken_code(rt: HostRuntime) -> Result<(), Fail> {
    for ((place, bytes, refusal), lines) in UNHARDENABLE {
        let file = plain_with(place, bytes);
        let line = format!(in rt.alloc(); "a.o: refused {refusal}\n")?;
        refuses(&rt, rt.alloc(), "harden a.o b.o", &file, &line)?;
        let text = format!(in rt.alloc(); "section 0 .text\n{lines}")?;
        says(&rt, rt.alloc(), "list a.o", &file, &[], (0, &text))?;
    }
    Ok(())
}
