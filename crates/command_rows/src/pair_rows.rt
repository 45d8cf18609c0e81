//! Rows of `harden` with two pairs.

use crate::calls::{Answer, Call, answers};
use hardened_files::{refused, straight};
use sample_files::{FIVE, HARDENED, PLAIN};
use std::alloc::Global;
use std::process::Abort;
use std::test::Fail;

/// What `harden a.o b.o c.o d.o` makes of two files, and leaves in `b.o`.
fn makes(
    rt: &impl Abort,
    alloc: Global,
    files: (&[u8], &[u8]),
    want: Answer<'_>,
) -> Result<(), Fail> {
    let call = Call {
        words: "harden a.o b.o c.o d.o",
        files: &[("a.o", files.0), ("c.o", files.1)],
        shelf_fails: &[],
        sink_fails: &[],
    };
    answers(rt, alloc, &call, "b.o", want)
}

/// The lines of two pairs, the second with the greater factor.
const RISING: &str =
    "b.o: 1 functions, 2 -> 4 instructions, 4 -> 8 bytes, 0 dropped, factor 2\nd.o: 1 functions, 2 -> 6 instructions, 4 -> 16 bytes, 0 dropped, factor 4\nfactor 4\n";

/// Each output has its line, and the greatest factor ends the report, whichever pair has it.
#[test]
fn hardens_pairs(rt: HostRuntime) -> Result<(), Fail> {
    let falling =
        "b.o: 1 functions, 2 -> 6 instructions, 4 -> 16 bytes, 0 dropped, factor 4\nd.o: 1 functions, 2 -> 4 instructions, 4 -> 8 bytes, 0 dropped, factor 2\nfactor 4\n";
    let alloc = rt.alloc();
    makes(
        &rt,
        alloc,
        (&PLAIN, &straight::ADDS),
        (0, RISING, Some(&HARDENED)),
    )?;
    makes(
        &rt,
        alloc,
        (&straight::ADDS, &PLAIN),
        (0, falling, Some(&straight::ADDS_HARDENED)),
    )
}

/// All files are read before any is hardened, and all go through a phase before the next.
#[test]
fn refuses_by_phases(rt: HostRuntime) -> Result<(), Fail> {
    let rows: [(&[u8], &[u8], &str); 6] = [
        (
            &refused::SVC,
            &[],
            "c.o: refused 1 NotElf section 0 offset 0\n",
        ),
        (
            &refused::LONG_SUM_WITHOUT_REGISTERS,
            &refused::SVC,
            "c.o: refused 13 SupervisorCall section 0 offset 0\n",
        ),
        (
            &refused::SVC,
            &refused::LONG_SUM_WITHOUT_REGISTERS,
            "a.o: refused 13 SupervisorCall section 0 offset 0\n",
        ),
        (
            &refused::LONG_SUM_WITHOUT_REGISTERS,
            &refused::AFTER_CALL,
            "c.o: refused 22 LiveAtReturn section 0 offset 2 register 12\n",
        ),
        (
            &refused::AFTER_CALL,
            &refused::FLAGS_AT_ENTRY,
            "a.o: refused 22 LiveAtReturn section 0 offset 2 register 12\n",
        ),
        (
            &PLAIN,
            &refused::ADCS,
            "c.o: refused 15 ReadsAndSetsFlags section 0 offset 0\n",
        ),
    ];
    for (first, second, text) in rows {
        makes(&rt, rt.alloc(), (first, second), (1, text, None))?;
    }
    Ok(())
}

/// What two pairs say where calls fail, and leave in both outputs: a file that could not be saved and those behind it
/// are as they were, those before it whole.
#[test]
fn tells_what_failed(rt: HostRuntime) -> Result<(), Fail> {
    let none: &[u64] = &[];
    let put: &[u64] = &[0];
    let old: &[u8] = &FIVE;
    let first: &[u8] = &HARDENED;
    let second: &[u8] = &straight::ADDS_HARDENED;
    let rows: [(&[u64], &[u64], (u8, &str), (&[u8], &[u8])); 10] = [
        (none, none, (0, RISING), (first, second)),
        (&[0], none, (3, "a.o: read fault\n"), (old, old)),
        (&[0], put, (3, ""), (old, old)),
        (&[1], none, (3, "c.o: read fault\n"), (old, old)),
        (&[1], put, (3, ""), (old, old)),
        (&[2], none, (3, "b.o: write fault\n"), (old, old)),
        (&[2], put, (3, ""), (old, old)),
        (&[3], none, (3, "d.o: write fault\n"), (first, old)),
        (&[3], put, (3, ""), (first, old)),
        (none, put, (3, ""), (first, second)),
    ];
    for (shelf_fails, sink_fails, (status, text), (one, other)) in rows {
        let call = Call {
            words: "harden a.o b.o c.o d.o",
            files: &[
                ("a.o", &PLAIN),
                ("b.o", &FIVE),
                ("c.o", &straight::ADDS),
                ("d.o", &FIVE),
            ],
            shelf_fails,
            sink_fails,
        };
        answers(&rt, rt.alloc(), &call, "b.o", (status, text, Some(one)))?;
        answers(&rt, rt.alloc(), &call, "d.o", (status, text, Some(other)))?;
    }
    Ok(())
}
