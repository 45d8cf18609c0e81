use crate::calls::{Call, answers};
use crate::files::{of_code, without_sections};
use sample_files::PLAIN;
use std::alloc::Global;
use std::process::Abort;
use std::test::Fail;

/// Bytes, how many of them there are, where code begins, and the listing.
type Row = ([u8; 10], u8, u8, &'static str);

const ROWS: [Row; 3] = [
    (
        [0x08, 0xbf, 0x01, 0x20, 0x70, 0x47, 0, 0, 0, 0],
        6,
        0,
        "section 0 .text\n00000000  it eq, #8\n00000002  mov r0, #1\n00000004  bx lr\n",
    ),
    // Data, of which some bytes make no word, and half an instruction.
    (
        [0x00, 0x20, 0x01, 0x20, 0x02, 0x20, 0x03, 0x20, 0x70, 0x47],
        9,
        6,
        "section 0 .text\n00000000  .word 0x20012000\n00000004  .byte 0x02\n00000005  .byte 0x20\n00000006  movs r0, #3\n00000008  .byte 0x70\n",
    ),
    // What is no instruction, in an IT block and at the end.
    (
        [0x04, 0xbf, 0xff, 0xff, 0xff, 0xff, 0x01, 0x20, 0x00, 0xf0],
        10,
        0,
        "section 0 .text\n00000000  it eq, #4\n00000002  .short 0xffff\n00000004  .short 0xffff\n00000006  mov r0, #1\n00000008  .short 0xf000\n",
    ),
];

/// What `list a.o` says of a file, where these calls on the shelf and on the sink fail.
fn says(
    rt: &impl Abort,
    alloc: Global,
    file: &[u8],
    (shelf_fails, sink_fails): (&[u64], &[u64]),
    (status, text): (u8, &str),
) -> Result<(), Fail> {
    let call = Call {
        words: "list a.o",
        files: &[("a.o", file)],
        shelf_fails,
        sink_fails,
    };
    answers(rt, alloc, &call, "b.o", (status, text, None))
}

#[test]
fn lists_code_and_data(rt: HostRuntime) -> Result<(), Fail> {
    for (bytes, size, start, text) in ROWS {
        let file = of_code(bytes, size, start);
        says(&rt, rt.alloc(), &file, (&[], &[]), (0, text))?;
    }
    Ok(())
}

#[test]
fn lists_files_and_tells_what_failed(rt: HostRuntime) -> Result<(), Fail> {
    let none: &[u64] = &[];
    let first: &[u64] = &[0];
    let bare = without_sections();
    let listing = "section 0 .text\n00000000  movs r0, #5\n00000002  bx lr\n";
    let rows: [(&[u8], &[u64], &[u64], (u8, &str)); 4] = [
        (&PLAIN, none, none, (0, listing)),
        (&bare, none, none, (0, "")),
        (&PLAIN, first, none, (3, "a.o: read fault\n")),
        (&PLAIN, none, first, (3, "")),
    ];
    for (file, shelf_fails, sink_fails, want) in rows {
        says(&rt, rt.alloc(), file, (shelf_fails, sink_fails), want)?;
    }
    Ok(())
}
