//! Ranges of code and data.

use code_ranges::{Range, code_ranges};
use elf_model::{Deny, Home, Limit, Object, Refusal, Spot, within};
use sample_objects::{Row, object_of, section};
use std::alloc::{AllocError, Global};
use std::process::Abort;

// Three code sections, of which one is empty, and one of data behind the first.
fn mixed(alloc: Global, rows: &[Row]) -> Result<Option<Object>, AllocError> {
    let sections = vec![in alloc;
        section(alloc, b".text", 6, 4, &[0; 12])?,
        section(alloc, b".rodata", 2, 4, &[0; 4])?,
        section(alloc, b".none", 6, 4, &[])?,
        section(alloc, b".init", 6, 4, &[112, 71, 0, 191])?,
    ]?;
    object_of(alloc, sections, rows, &[])
}

fn ranges(
    rt: &impl Abort,
    alloc: Global,
    o: Result<Option<Object>, AllocError>,
) -> Result<Vec<Range>, Deny> {
    let o = o.expect(rt, "memory").expect(rt, "an object");
    assert!(rt; within(&o, &Limit::ANY));
    code_ranges(alloc, &o)
}

fn range(section: u32, start: u32, end: u32, code: bool) -> Range {
    Range {
        section,
        start,
        end,
        code,
    }
}

fn function(alloc: Global) -> Result<Option<Object>, AllocError> {
    let sections = vec![in alloc; section(alloc, b".text", 6, 4, &[5, 32, 112, 71])?]?;
    let rows: [Row; 2] = [
        (b"$t", 0, 0, 0, Home::Section(0)),
        (b"f", 1, 1, 2, Home::Section(0)),
    ];
    object_of(alloc, sections, &rows, &[])
}

#[test]
fn gives_the_range_of_a_function(rt: HostRuntime) {
    let found = ranges(&rt, rt.alloc(), function(rt.alloc())).expect(&rt, "ranges");
    assert_eq!(rt; found.as_slice(), [range(0, 0, 4, true)].as_slice());
}

// Symbols in any order, names with a text behind a dot, and a place with three symbols.
#[test]
fn divides_sections(rt: HostRuntime) {
    let rows: [Row; 8] = [
        (b"$d", 0, 0, 0, Home::Section(3)),
        (b"$d.pool", 8, 0, 0, Home::Section(0)),
        (b"$a", 4, 0, 0, Home::Section(0)),
        (b"$d", 4, 0, 0, Home::Section(0)),
        (b"$t.1", 4, 0, 0, Home::Section(0)),
        (b"$t", 0, 0, 0, Home::Section(0)),
        (b"$tx", 2, 0, 0, Home::Section(0)),
        (b"$a", 12, 0, 0, Home::Section(0)),
    ];
    let found = ranges(&rt, rt.alloc(), mixed(rt.alloc(), &rows)).expect(&rt, "ranges");
    let wanted = [
        range(0, 0, 4, true),
        range(0, 4, 8, true),
        range(0, 8, 12, false),
        range(3, 0, 4, false),
    ];
    assert_eq!(rt; found.as_slice(), wanted.as_slice());
}

// In data neither mapping symbols nor functions are asked about.
#[test]
fn leaves_data_alone(rt: HostRuntime) {
    let rows: [Row; 4] = [
        (b"$a", 0, 0, 0, Home::Section(1)),
        (b"$t", 0, 0, 0, Home::Section(0)),
        (b"$t", 0, 0, 0, Home::Section(3)),
        (b"f", 2, 1, 2, Home::Section(1)),
    ];
    let found = ranges(&rt, rt.alloc(), mixed(rt.alloc(), &rows)).expect(&rt, "ranges");
    let wanted = [range(0, 0, 12, true), range(3, 0, 4, true)];
    assert_eq!(rt; found.as_slice(), wanted.as_slice());
}

fn refuses(rt: &impl Abort, alloc: Global, rows: &[Row], wanted: (Refusal, u32, u32)) {
    let (refusal, section, offset) = wanted;
    let why = ranges(rt, alloc, mixed(alloc, rows)).expect_err(rt, "a refusal");
    let spot = Spot {
        refusal,
        file: 0,
        section,
        offset,
    };
    assert_eq!(rt; why, Deny::Refused(spot));
}

#[test]
fn refuses_the_first_fault(rt: HostRuntime) {
    let alloc = rt.alloc();
    let init: Row = (b"$t", 0, 0, 0, Home::Section(3));
    let text: Row = (b"$t", 0, 0, 0, Home::Section(0));
    // A global symbol and one behind the beginning are no mapping symbols there.
    let global = [init, (b"$t", 0, 1, 0, Home::Section(0))];
    refuses(&rt, alloc, &global, (Refusal::NoMapping, 0, 0));
    let late = [init, (b"$t", 2, 0, 0, Home::Section(0))];
    refuses(&rt, alloc, &late, (Refusal::NoMapping, 0, 0));
    let arm = [
        init,
        text,
        (b"$a", 4, 0, 0, Home::Section(0)),
        (b"f", 6, 1, 2, Home::Section(0)),
    ];
    refuses(&rt, alloc, &arm, (Refusal::ArmCode, 0, 4));
    let even = [init, text, (b"f", 2, 1, 2, Home::Section(3))];
    refuses(&rt, alloc, &even, (Refusal::ArmCode, 3, 2));
    // At one offset, the lower number comes first, and before that the lower section.
    let both = [init, (b"f", 0, 1, 2, Home::Section(0))];
    refuses(&rt, alloc, &both, (Refusal::NoMapping, 0, 0));
    let later = [text, (b"f", 2, 1, 2, Home::Section(0))];
    refuses(&rt, alloc, &later, (Refusal::ArmCode, 0, 2));
}
