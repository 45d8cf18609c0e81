//! Images of objects.

ghost use Rattle.std.specs.Prelude.{IsTrue};
ghost use Rattle.thumb_table.specs.Layouts.{IsPlacement};

use elf_model::{Deny, Home, Limit, Object, Refusal, Spot, within};
use flat_link::link;
use sample_objects::{Row, object_of, section};
use std::alloc::{AllocError, Global};
use std::process::Abort;
use thumb_table::{Image, Part, Placement};

const TEXT: Home = Home::Section(0);

fn hardened(alloc: Global) -> Result<Option<Object>, AllocError> {
    let code = [5, 32, 5, 32, 112, 71, 112, 71];
    let sections = vec![in alloc;
        section(alloc, b".text", 6, 4, &code)?,
        section(alloc, b".skipguard.map", 0, 4, &[0; 32])?,
    ]?;
    let rows: [Row; 2] = [(b"$t", 0, 0, 0, TEXT), (b"f", 1, 1, 2, TEXT)];
    object_of(alloc, sections, &rows, &[])
}

// Code with data behind it, two definitions of `f`, the first of them weak or global, and one of `g`.
fn mixed(alloc: Global, first: u8) -> Result<Option<Object>, AllocError> {
    let code = [5, 32, 112, 71, 1, 2, 3, 4, 112, 71];
    let sections = vec![in alloc;
        section(alloc, b".text", 6, 2, &code)?,
        section(alloc, b".rodata", 2, 1, &[7])?,
        section(alloc, b".data", 3, 4, &[8, 9])?,
        section(alloc, b".init", 6, 8, &[112, 71])?,
    ]?;
    let rows: [Row; 6] = [
        (b"$t", 0, 0, 0, TEXT),
        (b"$d.a", 4, 0, 0, TEXT),
        (b"$t", 8, 0, 0, TEXT),
        (b"f", 1, first, 2, TEXT),
        (b"f", 9, 1, 2, TEXT),
        (b"g", 1, 2, 2, TEXT),
    ];
    object_of(alloc, sections, &rows, &[])
}

fn linked(
    rt: &impl Abort,
    alloc: Global,
    o: Result<Option<Object>, AllocError>,
    at: Placement,
) -> Result<Image, Deny>
    requires { IsPlacement at }
{
    let o = o.expect(rt, "memory").expect(rt, "an object");
    assert!(rt; within(&o, &Limit::ANY));
    assert!(rt; o.relocs().is_empty());
    let objects = [o];
    link(alloc, &objects, &at)
}

#[test]
fn links_a_function(rt: HostRuntime) {
    let at = Placement {
        base: 0x8000,
        room: 64,
        stack: 65_536,
    };
    let image = linked(&rt, rt.alloc(), hardened(rt.alloc()), at).expect(&rt, "an image");
    assert_eq!(rt; image.code().base(), 0x8000);
    assert_eq!(rt;
        image.code().bytes(),
        [5, 32, 5, 32, 112, 71, 112, 71].as_slice()
    );
    assert_eq!(rt; image.code().stops(), [0x8000, 0x8008].as_slice());
    assert_eq!(rt; image.memory().base(), 0x8040);
    assert_eq!(rt; image.memory().cells().len(), 0);
    assert_eq!(rt; image.entries().len(), 1);
    assert_eq!(rt; image.entries()[0].name.bytes(), b"f".as_slice());
    assert_eq!(rt; image.entries()[0].address, 0x8001);
    let part = Part {
        object: 0,
        code: true,
        ordinal: 0,
        start: 0x8000,
        size: 8,
    };
    assert_eq!(rt; image.parts(), [part].as_slice());
}

#[test]
fn links_code_and_data(rt: HostRuntime) {
    let at = Placement {
        base: 0x8000,
        room: 64,
        stack: 8,
    };
    let image = linked(&rt, rt.alloc(), mixed(rt.alloc(), 2), at).expect(&rt, "an image");
    assert_eq!(rt;
        image.code().bytes(),
        [
            5, 32, 112, 71, 1, 2, 3, 4, 112, 71, 0, 0, 0, 0, 0, 0, 112, 71
        ]
        .as_slice()
    );
    assert_eq!(rt;
        image.code().stops(),
        [0x8000, 0x8004, 0x8008, 0x800A, 0x8012].as_slice()
    );
    assert_eq!(rt; image.memory().cells().len(), 6);
    assert_eq!(rt; image.memory().cells()[4].byte(), 8);
    assert_eq!(rt; image.entries().len(), 2);
    assert_eq!(rt; image.entries()[0].address, 0x8009);
    assert_eq!(rt; image.entries()[1].name.bytes(), b"g".as_slice());
}

#[test]
fn refuses_what_cannot_be_linked(rt: HostRuntime) {
    let twice = Placement {
        base: 0x8000,
        room: 8,
        stack: 8,
    };
    let refused = linked(&rt, rt.alloc(), mixed(rt.alloc(), 1), twice).expect_err(&rt, "twice");
    let spot = Spot {
        refusal: Refusal::Duplicate { symbol: 4 },
        file: 0,
        section: 0,
        offset: 0,
    };
    assert_eq!(rt; refused, Deny::Refused(spot));
    let rows = [
        (0x8000, 8, 8),
        (0x8000, 64, 16_777_216),
        (0x7FFF_F000, 64, 8),
    ];
    for (base, room, stack) in rows {
        let at = Placement { base, room, stack };
        let refused = refusal(&rt, rt.alloc(), at);
        assert_eq!(rt; refused, Some(Refusal::DoesNotFit), "{base} {room} {stack}");
    }
}

// A weak `f` and a global `g`, with one byte of data.
fn caller(alloc: Global) -> Result<Option<Object>, AllocError> {
    let sections = vec![in alloc;
        section(alloc, b".text", 6, 2, &[5, 32, 112, 71, 112, 71])?,
        section(alloc, b".data", 3, 1, &[9])?,
    ]?;
    let rows: [Row; 3] = [
        (b"$t", 0, 0, 0, TEXT),
        (b"f", 1, 2, 2, TEXT),
        (b"g", 5, 1, 2, TEXT),
    ];
    object_of(alloc, sections, &rows, &[])
}

// A global `f`, and `g` weak or global, with four bytes of data.
fn callee(alloc: Global, g: u8) -> Result<Option<Object>, AllocError> {
    let sections = vec![in alloc;
        section(alloc, b".text", 6, 8, &[7, 32, 112, 71])?,
        section(alloc, b".data", 3, 4, &[1, 2, 3, 4])?,
    ]?;
    let rows: [Row; 3] = [
        (b"$t", 0, 0, 0, TEXT),
        (b"f", 1, 1, 2, TEXT),
        (b"g", 3, g, 2, TEXT),
    ];
    object_of(alloc, sections, &rows, &[])
}

fn both_linked(rt: &impl Abort, alloc: Global, g: u8) -> Result<Image, Deny> {
    let at = Placement {
        base: 0x8000,
        room: 64,
        stack: 8,
    };
    let first = caller(alloc).expect(rt, "memory").expect(rt, "an object");
    let second = callee(alloc, g)
        .expect(rt, "memory")
        .expect(rt, "an object");
    assert!(rt; within(&first, &Limit::ANY));
    assert!(rt; first.relocs().is_empty());
    assert!(rt; within(&second, &Limit::ANY));
    assert!(rt; second.relocs().is_empty());
    let objects = [first, second];
    link(alloc, &objects, &at)
}

#[test]
fn links_two_objects(rt: HostRuntime) {
    let image = both_linked(&rt, rt.alloc(), 2).expect(&rt, "an image");
    assert_eq!(rt;
        image.code().bytes(),
        [5, 32, 112, 71, 112, 71, 0, 0, 7, 32, 112, 71].as_slice()
    );
    assert_eq!(rt;
        image.code().stops(),
        [0x8000, 0x8004, 0x8006, 0x8008, 0x800A, 0x800C].as_slice()
    );
    let bytes: [u8; 8] = [9, 0, 0, 0, 1, 2, 3, 4];
    assert_eq!(rt; image.memory().cells().len(), 8);
    for (cell, byte) in image.memory().cells().iter().zip(&bytes) {
        assert_eq!(rt; cell.byte(), *byte);
    }
    assert_eq!(rt; image.entry(b"f"), Some(0x8009));
    assert_eq!(rt; image.entry(b"g"), Some(0x8005));
    assert_eq!(rt; image.entries().len(), 2);
    let places = [(0, 0x8000), (1, 0x8008), (0, 0x8040), (1, 0x8044)];
    assert_eq!(rt; image.parts().len(), 4);
    for (part, place) in image.parts().iter().zip(&places) {
        assert_eq!(rt; (part.object, part.start), *place);
    }
}

#[test]
fn refuses_a_name_of_two_objects(rt: HostRuntime) {
    let refused = both_linked(&rt, rt.alloc(), 1).expect_err(&rt, "twice");
    let spot = Spot {
        refusal: Refusal::Duplicate { symbol: 2 },
        file: 1,
        section: 0,
        offset: 0,
    };
    assert_eq!(rt; refused, Deny::Refused(spot));
}

fn is_placement(at: Placement) -> bool
    ensures { IsTrue result → IsPlacement at }
{
    at.base % 4096 == 0
        && at.room % 8 == 0
        && at.room >= 8
        && at.room <= 524_288
        && at.stack % 8 == 0
        && at.stack >= 8
        && at.stack <= 16_777_216
}

fn refusal(rt: &impl Abort, alloc: Global, at: Placement) -> Option<Refusal> {
    assert!(rt; is_placement(at));
    match linked(rt, alloc, mixed(alloc, 2), at) {
        Err(Deny::Refused(spot)) => Some(spot.refusal),
        _ => None,
    }
}
