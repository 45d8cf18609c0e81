//! What `make` says of seeds and counts.

use crate::calls::{Call, answers};
use std::test::Fail;

/// The words, and the five lines.
const MADE: [(&str, &str); 4] = [
    (
        "make 0 1",
        "made 1 functions, 10 bytes of code\nhardened 76 bytes of code, factor 8\nplain 5 steps, r0 0xffffffeb\nhardened 23 steps, 9 skips, r0 0xffffffeb\nsame yes\n",
    ),
    (
        "make 0xffffffff 3",
        "made 3 functions, 38 bytes of code\nhardened 232 bytes of code, factor 8\nplain 17 steps, r0 0xfffffff5\nhardened 74 steps, 24 skips, r0 0xfffffff5\nsame yes\n",
    ),
    (
        "make 7 4000",
        "made 4000 functions, 55996 bytes of code\nhardened 353940 bytes of code, factor 8\nplain 23999 steps, r0 0x9ee86ed0\nhardened 105642 steps, 35150 skips, r0 0x9ee86ed0\nsame yes\n",
    ),
    (
        "make 7 4000",
        "made 4000 functions, 55996 bytes of code\nhardened 353940 bytes of code, factor 8\nplain 23999 steps, r0 0x9ee86ed0\nhardened 105642 steps, 35150 skips, r0 0x9ee86ed0\nsame yes\n",
    ),
];

#[test]
fn makes_objects(rt: HostRuntime) -> Result<(), Fail> {
    for (words, text) in MADE {
        let call = Call {
            words,
            files: &[],
            shelf_fails: &[],
            sink_fails: &[],
        };
        answers(&rt, rt.alloc(), &call, "unsaved", (0, text, None))?;
    }
    Ok(())
}
