use crate::calls::{Answer, Call, answers};
use crate::files::without_sections;
use sample_files::{FIVE, HARDENED, PLAIN, WITH_DEBUG};
use std::alloc::Global;
use std::process::Abort;
use std::test::Fail;

const REPORT: &str =
    "b.o: 1 functions, 2 -> 4 instructions, 4 -> 8 bytes, 0 dropped, factor 2\nfactor 2\n";

const REPORT_OF_ONE_DROPPED: &str =
    "b.o: 1 functions, 2 -> 4 instructions, 4 -> 8 bytes, 1 dropped, factor 2\nfactor 2\n";

const NOT_ELF: &str = "a.o: refused 1 NotElf section 0 offset 0\n";

const SIXTEEN_PAIRS: &str =
    "harden a.o b.o a b a b a b a b a b a b a b a b a b a b a b a b a b a b a b";

/// What `harden a.o b.o` makes of a file.
fn makes(rt: &impl Abort, alloc: Global, file: &[u8], want: Answer<'_>) -> Result<(), Fail> {
    let call = Call {
        words: "harden a.o b.o",
        files: &[("a.o", file)],
        shelf_fails: &[],
        sink_fails: &[],
    };
    answers(rt, alloc, &call, "b.o", want)
}

#[test]
fn hardens_files(rt: HostRuntime) -> Result<(), Fail> {
    let rows: [(&[u8], &str); 2] = [(&PLAIN, REPORT), (&WITH_DEBUG, REPORT_OF_ONE_DROPPED)];
    for (file, text) in rows {
        makes(&rt, rt.alloc(), file, (0, text, Some(&HARDENED)))?;
    }
    Ok(())
}

/// A file without code is hardened too. What is saved is not looked at.
#[test]
fn hardens_files_without_sections(rt: HostRuntime) -> Result<(), Fail> {
    let text =
        "b.o: 0 functions, 0 -> 0 instructions, 0 -> 0 bytes, 0 dropped, factor 1\nfactor 1\n";
    let call = Call {
        words: "harden a.o b.o",
        files: &[("a.o", &without_sections())],
        shelf_fails: &[],
        sink_fails: &[],
    };
    answers(&rt, rt.alloc(), &call, "a file of no pair", (0, text, None))
}

#[test]
fn refuses_long_files(rt: HostRuntime) -> Result<(), Fail> {
    let too_long = "a.o: refused 31 TooLong section 0 offset 0\n";
    let most = vec![in rt.alloc(); 0u8; 1_048_576]?;
    makes(&rt, rt.alloc(), &most, (1, NOT_ELF, None))?;
    let long = vec![in rt.alloc(); 0u8; 1_048_577]?;
    makes(&rt, rt.alloc(), &long, (1, too_long, None))
}

/// What is saved and said where a call on the shelf or the sink fails, and where nothing is loaded.
#[test]
fn tells_what_failed(rt: HostRuntime) -> Result<(), Fail> {
    let none: &[u64] = &[];
    let first: &[u64] = &[0];
    let second: &[u64] = &[1];
    let old: Option<&[u8]> = Some(&FIVE);
    let rows: [(&str, &[u64], &[u64], Answer<'_>); 9] = [
        ("harden", none, first, (2, "", old)),
        ("harden c.o b.o", none, none, (3, "c.o: read fault\n", old)),
        ("harden c.o b.o", none, first, (3, "", old)),
        ("harden a.o b.o", first, none, (3, "a.o: read fault\n", old)),
        (
            "harden a.o b.o",
            second,
            none,
            (3, "b.o: write fault\n", old),
        ),
        ("harden a.o b.o", second, first, (3, "", old)),
        ("harden a.o b.o", none, first, (3, "", Some(&HARDENED))),
        (
            "harden a.o b.o c.o d.o",
            first,
            none,
            (3, "a.o: read fault\n", old),
        ),
        (SIXTEEN_PAIRS, first, none, (3, "a.o: read fault\n", old)),
    ];
    for (words, shelf_fails, sink_fails, want) in rows {
        let call = Call {
            words,
            files: &[("a.o", &PLAIN), ("b.o", &FIVE)],
            shelf_fails,
            sink_fails,
        };
        answers(&rt, rt.alloc(), &call, "b.o", want)?;
    }
    Ok(())
}
