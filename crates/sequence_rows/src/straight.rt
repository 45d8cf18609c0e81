//! The straight sequences, and the class and the needs of each variant.

use crate::built::{instruction, is_built, register};
use seq_core::{class_of, need_of};
use seq_idempotent::Twice;
use seq_separable::{BaseCopy, LongSum, Through, ThroughFlags, WriteBack};
use std::alloc::{AllocError, Global};
use std::process::Abort;
use std::test::Fail;
use thumb_instr::Instr;

#[test]
fn stays_in_place(rt: HostRuntime) -> Result<(), Fail> {
    for (code, want) in [
        (0x2005, "2005"),
        (0x1C48, "1c48"),
        (0xF8DF07FC, "f8df07fc"),
        (0xDE00, "de00"),
    ] {
        is_built(&rt, rt.alloc(), &Twice, code, &[], want)?;
    }
    Ok(())
}

#[test]
fn goes_through_one(rt: HostRuntime) -> Result<(), Fail> {
    let ip = register(&rt, 12);
    for (code, want) in [
        (0x3001, "f1100c01 4660"),
        (0x4468, "eb0d0c00 4660"),
        (0xF3600000, "4684 f36c0000"),
        (0x6800, "f8d0c000 4660"),
    ] {
        is_built(&rt, rt.alloc(), &Through, code, &[ip], want)?;
    }
    Ok(())
}

#[test]
fn goes_through_two(rt: HostRuntime) -> Result<(), Fail> {
    let scratch = [register(&rt, 12), register(&rt, 4)];
    is_built(
        &rt,
        rt.alloc(),
        &Through,
        0xFBA00101,
        &scratch,
        "fba0c401 4660 4621",
    )
}

#[test]
fn multiplies_with_flags(rt: HostRuntime) -> Result<(), Fail> {
    let ip = register(&rt, 12);
    is_built(
        &rt,
        rt.alloc(),
        &ThroughFlags,
        0x4348,
        &[ip],
        "fb01fc00 ea5f000c",
    )
}

#[test]
fn writes_back(rt: HostRuntime) -> Result<(), Fail> {
    let ip = register(&rt, 12);
    for (code, want) in [
        (0xF8510B04, "6808 f1010c04 4661"),
        (0xF8410F04, "f1010c04 4661 6008"),
        (0xF8410D04, "f1a10c04 4661 6008"),
        (0xE8F20102, "e9d20100 f1020c08 4662"),
    ] {
        is_built(&rt, rt.alloc(), &WriteBack, code, &[ip], want)?;
    }
    Ok(())
}

#[test]
fn copies_bases(rt: HostRuntime) -> Result<(), Fail> {
    let ip = register(&rt, 12);
    for (code, want) in [
        (0xC803, "4684 e89c0003"),
        (0xC801, "4684 f8dc0000"),
        (0xE9D00102, "4684 e9dc0102"),
    ] {
        is_built(&rt, rt.alloc(), &BaseCopy, code, &[ip], want)?;
    }
    Ok(())
}

#[test]
fn sums_long_products(rt: HostRuntime) -> Result<(), Fail> {
    let scratch = [register(&rt, 12), register(&rt, 4), register(&rt, 5)];
    is_built(
        &rt,
        rt.alloc(),
        &LongSum,
        0xFBE20103,
        &scratch,
        "fba2c403 eb10050c eb410c04 4628 4661",
    )
}

/// The class of an instruction and what it needs.
fn told(alloc: Global, i: &Instr) -> Result<String, AllocError> {
    match class_of(i) {
        Some(c) => {
            let need = need_of(c, i);
            let flags = if need.flags { " flags" } else { "" };
            format!(in alloc; "{c:?} {}{flags}", need.registers)
        }
        None => String::from_str(alloc, "-"),
    }
}

const CLASSES: [(u32, &str); 48] = [
    (0x3001, "Through 1"),
    (0x1C48, "Twice 0"),
    (0xB001, "SpStep 1"),
    (0x2005, "Twice 0"),
    (0x4600, "Through 1"),
    (0x2900, "Twice 0"),
    (0x4088, "Through 1"),
    (0xF60070FF, "Through 1"),
    (0xF2AD0D04, "SpStep 1"),
    (0xF2400000, "Twice 0"),
    (0xF2C00000, "Twice 0"),
    (0xF3600000, "Through 1"),
    (0xF3610000, "Twice 0"),
    (0xF36F0000, "Twice 0"),
    (0xF3C00000, "Through 1"),
    (0xB200, "Through 1"),
    (0xFAB1F081, "Twice 0"),
    (0x4348, "ThroughFlags 1"),
    (0xFB01FC00, "Twice 0"),
    (0xFB01F000, "Through 1"),
    (0xFB010002, "Through 1"),
    (0xFBA20103, "Twice 0"),
    (0xFBA00102, "Through 1"),
    (0xFBA00101, "Through 2"),
    (0xFBE20103, "LongSum 3 flags"),
    (0xFBB0F0F1, "Through 1"),
    (0x6808, "Twice 0"),
    (0x6800, "Through 1"),
    (0xF8510B04, "WriteBack 1"),
    (0xE9D00100, "BaseCopy 1"),
    (0xE8F20102, "WriteBack 1"),
    (0xE9C20100, "Twice 0"),
    (0xC803, "BaseCopy 1"),
    (0xB510, "Push 1"),
    (0xBC10, "Pop 1"),
    (0xBD10, "PopReturn 1"),
    (0xC002, "MultiBack 1"),
    (0xF8DF07FC, "Twice 0"),
    (0xF20F0000, "-"),
    (0xE7FE, "Twice 0"),
    (0xB100, "ZeroBranch 0"),
    (0xF7FFFFFE, "DirectCall 0"),
    (0x4770, "RegisterJump 0"),
    (0x4798, "RegisterCall 0"),
    (0x47F0, "RegisterCall 1"),
    (0xBF08, "-"),
    (0xBF00, "Twice 0"),
    (0xDE00, "Twice 0"),
];

fn has_class(rt: &impl Abort, alloc: Global, code: u32, want: &str) -> Result<(), Fail> {
    let i = instruction(rt, code);
    assert_eq!(rt; told(alloc, &i)?.as_str(), want, "{code:x}");
    Ok(())
}

#[test]
fn tells_classes(rt: HostRuntime) -> Result<(), Fail> {
    for (code, want) in CLASSES {
        has_class(&rt, rt.alloc(), code, want)?;
    }
    Ok(())
}
