//! Why objects have no flow.

use elf_model::RelocKind::*;
use elf_model::{Deny, Home, Limit, Object, Refusal, Spot, within};
use flow_recover::recover;
use sample_objects::{Mark, Row, halfwords, object_of, sample};
use std::alloc::{AllocError, Global};
use std::process::Abort;

const TEXT: Home = Home::Section(0);

const INIT: Home = Home::Section(1);

/// A symbol that is not defined.
const OPEN: Row = (b"u", 0, 1, 0, Home::Undefined);

/// A function behind the first instruction.
const AT_2: Row = (b"g", 3, 1, 2, TEXT);

const IN_INIT: Row = (b"g", 3, 1, 2, INIT);

const DATA_AT_2: Row = (b"$d", 2, 0, 0, TEXT);

const DATA_AT_4: Row = (b"$d", 4, 0, 0, TEXT);

const DATA_AT_6: Row = (b"$d", 6, 0, 0, TEXT);

/// Code, the symbols from number 5 on, relocations, and the refusal's section and offset.
type Case = (&'static str, &'static [Row], &'static [Mark], (u32, u32));

/// Halfwords that are no instruction, and instructions that the end of their range cuts.
const UNKNOWN: [Case; 3] = [
    ("ffff ffff", &[], &[], (0, 0)),
    ("f04f 0001", &[DATA_AT_2], &[], (0, 0)),
    ("4770 f04f", &[AT_2], &[], (0, 2)),
];

/// A sum, and ADR in both lengths.
const PC_OPERANDS: [Case; 3] = [
    ("4487 4770", &[], &[], (0, 0)),
    ("a000 4770", &[], &[], (0, 0)),
    ("f20f 0004 4770", &[], &[], (0, 0)),
];

const RELOC_KINDS: [Case; 11] = [
    // A kind that is not handled; a call on two bytes, a branch on a call, and a call in data.
    ("4770", &[], &[(2, 0, Other(3), 2)], (2, 0)),
    ("4770 bf00", &[], &[(0, 0, ThmCall, 4)], (0, 0)),
    ("f7ff fffe 4770", &[], &[(0, 0, ThmJump24, 4)], (0, 0)),
    ("4770", &[], &[(2, 0, ThmCall, 4)], (2, 0)),
    // A word in code, at no multiple of 4, in no memory, and two that share bytes.
    ("4770 bf00 bf00", &[], &[(0, 2, Abs32, 4)], (0, 2)),
    ("4770 0 0 0", &[DATA_AT_2], &[(0, 2, Abs32, 2)], (0, 2)),
    ("4770", &[], &[(3, 0, Abs32, 2)], (3, 0)),
    ("4770", &[], &[(2, 0, Abs32, 2), (2, 2, Abs32, 2)], (2, 2)),
    // Places behind a symbol that is not defined, and a lower number before an entry's.
    ("f000 f802 4770", &[OPEN], &[(0, 0, ThmCall, 5)], (0, 0)),
    ("e7ff 4770", &[OPEN], &[(0, 0, ThmJump11, 5)], (0, 0)),
    ("f04f 0001 4770", &[AT_2], &[(0, 2, ThmCall, 4)], (0, 2)),
];

const INTO_MIDDLES: [Case; 16] = [
    // Instructions: by entries, a branch and a call, and by a branch that reaches what is refused later.
    ("f04f 0001 4770", &[AT_2], &[], (0, 2)),
    ("f04f 0001 4770", &[(b"g", 2, 2, 0, TEXT)], &[], (0, 2)),
    ("e000 f04f 0001 4770", &[], &[], (0, 0)),
    ("f000 f801 f04f 0001 4770", &[], &[], (0, 0)),
    ("d001 df00 f04f 0001 4770", &[], &[], (0, 0)),
    // Addresses: of the middle of an instruction, and without bit 0.
    ("f04f 0001 4770", &[], &[(2, 0, Abs32, 4)], (2, 0)),
    ("f240 0002 4770", &[], &[(0, 0, MovwAbs, 4)], (0, 0)),
    (
        "4770 4770",
        &[(b"l", 0, 0, 0, TEXT)],
        &[(2, 0, Target1, 5)],
        (2, 0),
    ),
    // IT blocks: by a branch and by an entry.
    ("e000 bf08 2001 4770", &[AT_2], &[], (0, 0)),
    ("bf08 2001 4770", &[AT_2], &[], (0, 2)),
    // Calls to data and to an absolute address, and a global symbol in data.
    ("f7ff fffe 4770", &[], &[(0, 0, ThmCall, 2)], (0, 0)),
    ("f7ff fffe 4770", &[], &[(0, 0, ThmCall, 3)], (0, 0)),
    (
        "4770 0 0 0",
        &[DATA_AT_4, (b"g", 4, 1, 1, TEXT)],
        &[],
        (0, 4),
    ),
    // Literals: in code, at no multiple of 4, and cut by the end.
    ("4800 4770 0 0", &[], &[], (0, 0)),
    ("f8df 0002 4770 0 0 0", &[DATA_AT_6], &[], (0, 0)),
    ("4800 4770 0", &[DATA_AT_4], &[], (0, 0)),
];

const FALLS_OFF: [Case; 7] = [
    // Into data, and at the end of a section, under a condition too.
    ("2005 bf00 0 0", &[DATA_AT_4], &[], (0, 2)),
    ("2005", &[], &[], (0, 0)),
    ("d0fe", &[], &[], (0, 0)),
    ("bf08 f7ff fffe", &[OPEN], &[(0, 2, ThmCall, 5)], (0, 2)),
    // IT blocks that the next range and the end of a section cut.
    (
        "bf04 2001 2002 4770",
        &[(b"$t", 4, 0, 0, TEXT)],
        &[],
        (0, 0),
    ),
    ("4770 bf08", &[AT_2], &[], (0, 2)),
    // In the lower section, though a function of another falls off earlier.
    ("2005 2005 2005", &[IN_INIT], &[], (0, 4)),
];

// The halfwords of a text, each in hexadecimal digits, with a blank between.
fn halves_of(rt: &impl Abort, alloc: Global, text: &str) -> Result<Vec<u16>, AllocError> {
    let mut halves = Vec::new(alloc);
    for word in text.split(' ') {
        halves.push(u16::from_str_radix(word, 16).expect(rt, "a halfword"))?;
    }
    Ok(halves)
}

/// Refused instructions at their first place; the second is an IT in an IT block.
const INSTRUCTIONS: [(&str, Refusal, u32); 5] = [
    ("df00", Refusal::SupervisorCall, 0),
    ("bf08 bf08 2001 4770", Refusal::Unpredictable, 2),
    ("e8df f000", Refusal::TableBranch, 0),
    ("4148 4770", Refusal::ReadsAndSetsFlags, 0),
    ("f3ef 8000", Refusal::SystemInstr, 0),
];

fn refuses(
    rt: &impl Abort,
    alloc: Global,
    o: Result<Option<Object>, AllocError>,
    refusal: Refusal,
    place: (u32, u32),
) {
    let o = o.expect(rt, "memory").expect(rt, "an object");
    assert!(rt; within(&o, &Limit::ANY));
    let why = recover(alloc, &o).expect_err(rt, "a refusal");
    let spot = Spot {
        refusal,
        file: 0,
        section: place.0,
        offset: place.1,
    };
    assert_eq!(rt; why, Deny::Refused(spot));
}

fn refuses_all(rt: &impl Abort, alloc: Global, cases: &[Case], refusal: Refusal) {
    for (text, rows, marks, place) in cases {
        let code = halves_of(rt, alloc, text).expect(rt, "memory");
        refuses(
            rt,
            alloc,
            sample(alloc, &code, rows, marks),
            refusal,
            *place,
        );
    }
}

#[test]
fn refuses_flows(rt: HostRuntime) {
    let alloc = rt.alloc();
    refuses_all(&rt, alloc, &UNKNOWN, Refusal::Unknown);
    refuses_all(&rt, alloc, &PC_OPERANDS, Refusal::PcOperand);
    refuses_all(&rt, alloc, &RELOC_KINDS, Refusal::RelocKind);
    refuses_all(&rt, alloc, &INTO_MIDDLES, Refusal::IntoMiddle);
    refuses_all(&rt, alloc, &FALLS_OFF, Refusal::FallsOff);
    for (text, refusal, offset) in INSTRUCTIONS {
        refuses_all(&rt, alloc, &[(text, &[], &[], (0, offset))], refusal);
    }
}

/// A section without a mapping symbol and a function of Arm code come before a fault of lower code.
#[test]
fn refuses_ranges_first(rt: HostRuntime) {
    let alloc = rt.alloc();
    let text: [Row; 2] = [(b"$t", 0, 0, 0, TEXT), (b"f", 1, 1, 2, TEXT)];
    let arm: [Row; 4] = [
        (b"$t", 0, 0, 0, TEXT),
        (b"$t", 0, 0, 0, INIT),
        (b"f", 1, 1, 2, TEXT),
        (b"g", 2, 1, 2, INIT),
    ];
    let cases: [(&[Row], Refusal, u32); 2] = [
        (&text, Refusal::NoMapping, 0),
        (&arm, Refusal::ArmCode, 2),
    ];
    for (rows, refusal, offset) in cases {
        let text = halfwords(alloc, b".text", 6, &[0xDF00]).expect(&rt, "a section");
        let init = halfwords(alloc, b".init", 6, &[0x4770, 0xBF00]).expect(&rt, "a section");
        let sections = vec![in alloc; text, init].expect(&rt, "memory");
        let o = object_of(alloc, sections, rows, &[]);
        refuses(&rt, alloc, o, refusal, (1, offset));
    }
}
