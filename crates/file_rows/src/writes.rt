//! The files of objects.

use crate::objects::{Mark, Part, Row, object_of};
use elf_model::{Home, Object, RelocKind};
use elf_write::{has_room, write_object};
use sample_files::{PLACED, PLAIN};
use std::alloc::{AllocError, Global};
use std::process::Abort;

const TEXT: Home = Home::Section(0);

fn is_written(
    rt: &impl Abort,
    alloc: Global,
    o: Result<Option<Object>, AllocError>,
    want: &[u8],
) -> bool {
    let o = o.expect(rt, "memory").expect(rt, "an object");
    assert!(rt; has_room(&o));
    write_object(alloc, &o).expect(rt, "memory").as_slice() == want
}

#[test]
fn writes_a_function(rt: HostRuntime) {
    let alloc = rt.alloc();
    let text: Part = (b".text", 1, 6, 4, 4, &[5, 32, 112, 71]);
    let rows: [Row; 2] = [(b"$t", 0, 0, 0, 0, TEXT), (b"f", 1, 4, 1, 2, TEXT)];
    assert!(rt; is_written(&rt, alloc, object_of(alloc, &[text], &rows, &[]), &PLAIN));
}

#[test]
fn writes_relocations(rt: HostRuntime) {
    let alloc = rt.alloc();
    let parts: [Part; 3] = [
        (b".text", 1, 6, 4, 8, &[64, 242, 0, 3, 192, 242, 0, 3]),
        (b".bss", 8, 3, 8, 12, &[]),
        (b".data", 1, 3, 4, 4, &[0; 4]),
    ];
    let rows: [Row; 4] = [
        (b"$t", 0, 0, 0, 0, TEXT),
        (b"x", 0, 4, 0, 1, Home::Section(2)),
        (b"f", 1, 8, 1, 2, TEXT),
        (b"g", 0, 0, 1, 0, Home::Undefined),
    ];
    let marks: [Mark; 3] = [
        (0, 0, RelocKind::MovwAbs, 1),
        (0, 4, RelocKind::MovtAbs, 1),
        (2, 0, RelocKind::Abs32, 2),
    ];
    assert!(rt; is_written(&rt, alloc, object_of(alloc, &parts, &rows, &marks), &PLACED));
}
