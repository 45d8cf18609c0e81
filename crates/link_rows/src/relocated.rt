//! Images of objects with relocations.

ghost use Rattle.thumb_table.specs.Layouts.{IsPlacement};

use elf_model::{Deny, Home, Limit, Object, Refusal, RelocKind, Spot, within};
use flat_link::link;
use mark_word::{Mark, Piece};
use sample_objects::{Mark as RelocRow, Row, halfwords, object_of, section};
use std::alloc::{AllocError, Global};
use std::process::Abort;
use thumb_table::{Image, PlaceMark, Placement};

const TEXT: Home = Home::Section(0);

const DATA: Home = Home::Section(1);

// Code with a relocation of each kind, and data with two.
fn caller(alloc: Global) -> Result<Option<Object>, AllocError> {
    let code = [
        0xF7FF, 0xFFFE, 0xF7FF, 0xBFFE, 0xF43F, 0xAFFE, 0xF240, 0, 0xF2C0, 0, 0xE7FE, 0xD0FE,
        0x4770, 0xBF00, 0, 0,
    ];
    let sections = vec![in alloc;
        halfwords(alloc, b".text", 6, &code)?,
        halfwords(alloc, b".data", 3, &[0, 0, 4, 0, 1, 2])?,
    ]?;
    let rows: [Row; 6] = [
        (b"$t", 0, 0, 0, TEXT),
        (b"$d", 28, 0, 0, TEXT),
        (b"f", 1, 1, 2, TEXT),
        (b"g", 0, 1, 0, Home::Undefined),
        (b"d", 0, 1, 0, Home::Undefined),
        (b"h", 0, 1, 0, Home::Undefined),
    ];
    let marks: [RelocRow; 10] = [
        (0, 0, RelocKind::ThmCall, 3),
        (0, 4, RelocKind::ThmJump24, 5),
        (0, 8, RelocKind::ThmJump19, 3),
        (0, 12, RelocKind::MovwAbs, 3),
        (0, 16, RelocKind::MovtAbs, 3),
        (0, 20, RelocKind::ThmJump11, 3),
        (0, 22, RelocKind::ThmJump8, 5),
        (0, 28, RelocKind::Abs32, 4),
        (1, 0, RelocKind::Abs32, 3),
        (1, 4, RelocKind::Target1, 4),
    ];
    object_of(alloc, sections, &rows, &marks)
}

// What the other object names, and calls back.
fn callee(alloc: Global) -> Result<Option<Object>, AllocError> {
    let sections = vec![in alloc;
        halfwords(
            alloc,
            b".text",
            6,
            &[0x4770, 0xF7FF, 0xFFFE, 0xF7FF, 0xBFFE]
        )?,
        halfwords(alloc, b".data", 3, &[7, 0, 8, 0])?,
    ]?;
    let rows: [Row; 5] = [
        (b"$t", 0, 0, 0, TEXT),
        (b"g", 1, 1, 2, TEXT),
        (b"h", 3, 2, 2, TEXT),
        (b"d", 0, 1, 1, DATA),
        (b"f", 0, 1, 0, Home::Undefined),
    ];
    let marks: [RelocRow; 2] = [
        (0, 2, RelocKind::ThmCall, 4),
        (0, 6, RelocKind::ThmJump24, 4),
    ];
    object_of(alloc, sections, &rows, &marks)
}

fn two(
    rt: &impl Abort,
    alloc: Global,
    a: Result<Option<Object>, AllocError>,
    b: Result<Option<Object>, AllocError>,
    at: Placement,
) -> Result<Image, Deny>
    requires { IsPlacement at }
{
    let a = a.expect(rt, "memory").expect(rt, "an object");
    let b = b.expect(rt, "memory").expect(rt, "an object");
    assert!(rt; within(&a, &Limit::ANY));
    assert!(rt; within(&b, &Limit::ANY));
    let objects = [a, b];
    link(alloc, &objects, &at)
}

fn refused(
    rt: &impl Abort,
    alloc: Global,
    a: Result<Option<Object>, AllocError>,
    b: Result<Option<Object>, AllocError>,
) -> Option<Spot> {
    let at = Placement {
        base: 0x8000,
        room: 64,
        stack: 16,
    };
    match two(rt, alloc, a, b, at) {
        Ok(_) => None,
        Err(Deny::NoMemory) => None,
        Err(Deny::Refused(spot)) => Some(spot),
    }
}

#[test]
fn links_every_kind(rt: HostRuntime) {
    let at = Placement {
        base: 0x8000,
        room: 64,
        stack: 16,
    };
    let alloc = rt.alloc();
    let image = two(&rt, alloc, caller(alloc), callee(alloc), at).expect(&rt, "an image");
    assert_eq!(rt;
        image.code().bytes(),
        [
            0x00, 0xF0, 0x0E, 0xF8, 0x00, 0xF0, 0x0D, 0xB8, 0x00, 0xF0, 0x0A, 0x80, 0x48, 0xF2,
            0x21, 0x00, 0xC0, 0xF2, 0x00, 0x00, 0x04, 0xE0, 0x04, 0xD0, 0x70, 0x47, 0x00, 0xBF,
            0x4C, 0x80, 0x00, 0x00, 0x70, 0x47, 0xFF, 0xF7, 0xED, 0xFF, 0xFF, 0xF7, 0xEB, 0xBF
        ]
        .as_slice()
    );
    let marks = [
        PlaceMark {
            at: 0x800C,
            mark: Mark::Low(0x8021),
        },
        PlaceMark {
            at: 0x8010,
            mark: Mark::Entry(0x8021),
        },
    ];
    assert_eq!(rt; image.code().marks(), marks.as_slice());
    assert_eq!(rt; image.memory().cells().len(), 20);
    assert_eq!(rt; image.memory().cells()[1].byte(), 0x80);
    let piece = Piece {
        mark: Mark::Entry(0x8021),
        index: 1,
    };
    assert_eq!(rt; image.memory().cells()[1].piece(), Some(piece));
    assert_eq!(rt; image.memory().cells()[4].byte(), 0x50);
    assert_eq!(rt; image.memory().cells()[4].piece(), None);
    assert_eq!(rt; image.entries().len(), 3);
    assert_eq!(rt; image.entries()[2].address, 0x8023);
}

// One instruction with a relocation against a symbol of its own section, and a return.
fn branch(
    alloc: Global,
    code: [u16; 3],
    kind: RelocKind,
    value: u32,
) -> Result<Option<Object>, AllocError> {
    let sections = vec![in alloc; halfwords(alloc, b".text", 6, &code)?]?;
    let rows: [Row; 2] = [(b"$t", 0, 0, 0, TEXT), (b"t", value, 0, 0, TEXT)];
    object_of(alloc, sections, &rows, &[(0, 0, kind, 1)])
}

// A word of data that names `x`.
fn word(
    alloc: Global,
    addend: u16,
    bind: u8,
    kind: RelocKind,
) -> Result<Option<Object>, AllocError> {
    let sections = vec![in alloc; halfwords(alloc, b".data", 3, &[addend, 0])?]?;
    object_of(
        alloc,
        sections,
        &[(b"x", 0, bind, 0, Home::Undefined)],
        &[(0, 0, kind, 0)],
    )
}

// A NOP and a return, and `x`.
fn definition(
    alloc: Global,
    value: u32,
    kind: u8,
    home: Home,
) -> Result<Option<Object>, AllocError> {
    let sections = vec![in alloc; halfwords(alloc, b".text", 6, &[0xBF00, 0x4770])?]?;
    object_of(
        alloc,
        sections,
        &[(b"$t", 0, 0, 0, TEXT), (b"x", value, 1, kind, home)],
        &[],
    )
}

fn is_out_of_range(spot: Option<Spot>) -> bool {
    let wanted = Spot {
        refusal: Refusal::RelocRange,
        file: 0,
        section: 0,
        offset: 0,
    };
    spot == Some(wanted)
}

#[test]
fn refuses_branches_out_of_range(rt: HostRuntime) {
    let alloc = rt.alloc();
    // the farthest addend, and a symbol one halfword behind the branch
    let rows = [
        ([0xF3FF, 0xD7FF, 0x4770], RelocKind::ThmCall),
        ([0xF3FF, 0x97FF, 0x4770], RelocKind::ThmJump24),
        ([0xF03F, 0xAFFF, 0x4770], RelocKind::ThmJump19),
        ([0xE3FF, 0xBF00, 0x4770], RelocKind::ThmJump11),
        ([0xD07F, 0xBF00, 0x4770], RelocKind::ThmJump8),
    ];
    for (code, kind) in rows {
        let spot = refused(
            &rt,
            alloc,
            branch(alloc, code, kind, 2),
            definition(alloc, 1, 2, TEXT),
        );
        assert!(rt; is_out_of_range(spot));
    }
    // to the end of the section, and to an odd address
    let end = branch(alloc, [0xE7FE, 0xBF00, 0x4770], RelocKind::ThmJump11, 6);
    assert!(rt; is_out_of_range(refused(&rt, alloc, end, definition(alloc, 1, 2, TEXT))));
    let odd = branch(alloc, [0xE7FE, 0xBF00, 0x4770], RelocKind::ThmJump11, 3);
    assert!(rt; is_out_of_range(refused(&rt, alloc, odd, definition(alloc, 1, 2, TEXT))));
}

#[test]
fn refuses_words(rt: HostRuntime) {
    let alloc = rt.alloc();
    let abs = RelocKind::Abs32;
    // with an addend to another object's code, and to an address there with bit 0 clear
    let far = refused(
        &rt,
        alloc,
        word(alloc, 2, 1, abs),
        definition(alloc, 1, 2, TEXT),
    );
    assert!(rt; is_out_of_range(far));
    let even = refused(
        &rt,
        alloc,
        word(alloc, 0, 1, abs),
        definition(alloc, 2, 0, TEXT),
    );
    assert!(rt; is_out_of_range(even));
    // defined nowhere, also a weak one
    for bind in [1, 2] {
        let spot = refused(&rt, alloc, word(alloc, 0, bind, abs), hidden(alloc));
        let refusal = Refusal::Undefined { symbol: 0 };
        assert_eq!(rt;
            spot,
            Some(Spot {
                refusal,
                file: 0,
                section: 0,
                offset: 0
            })
        );
    }
    // defined twice
    let twice = refused(
        &rt,
        alloc,
        definition(alloc, 16, 0, Home::Absolute),
        definition(alloc, 1, 2, TEXT),
    );
    let refusal = Refusal::Duplicate { symbol: 1 };
    assert_eq!(rt;
        twice,
        Some(Spot {
            refusal,
            file: 1,
            section: 0,
            offset: 0
        })
    );
    // of another kind
    let other = word(alloc, 0, 1, RelocKind::Other(3));
    let spot = refused(&rt, alloc, other, definition(alloc, 1, 2, TEXT));
    let refusal = Refusal::RelocKind;
    assert_eq!(rt;
        spot,
        Some(Spot {
            refusal,
            file: 0,
            section: 0,
            offset: 0
        })
    );
}

// `x` as a local symbol.
fn hidden(alloc: Global) -> Result<Option<Object>, AllocError> {
    let sections = vec![in alloc; halfwords(alloc, b".text", 6, &[0x4770])?]?;
    object_of(
        alloc,
        sections,
        &[(b"$t", 0, 0, 0, TEXT), (b"x", 1, 0, 2, TEXT)],
        &[],
    )
}

// Code of five bytes.
fn five(alloc: Global) -> Result<Option<Object>, AllocError> {
    let sections = vec![in alloc; section(alloc, b".text", 6, 4, &[0, 0xBF, 0x70, 0x47, 0])?]?;
    object_of(alloc, sections, &[(b"$t", 0, 0, 0, TEXT)], &[])
}

#[test]
fn refuses_one_byte_too_many(rt: HostRuntime) {
    let alloc = rt.alloc();
    let tight = Placement {
        base: 0x8000,
        room: 8,
        stack: 16,
    };
    let denied = two(
        &rt,
        alloc,
        definition(alloc, 1, 2, TEXT),
        five(alloc),
        tight,
    );
    let spot = Spot {
        refusal: Refusal::DoesNotFit,
        file: 0,
        section: 0,
        offset: 0,
    };
    assert_eq!(rt; denied.expect_err(&rt, "too long"), Deny::Refused(spot));
    let wide = Placement {
        base: 0x8000,
        room: 16,
        stack: 16,
    };
    let image = two(&rt, alloc, definition(alloc, 1, 2, TEXT), five(alloc), wide);
    assert_eq!(rt; image.expect(&rt, "an image").code().bytes().len(), 9);
}
