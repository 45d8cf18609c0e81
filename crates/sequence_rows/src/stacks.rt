//! The sequences of lists that move their base, of returns and of sums that move sp.

use crate::built::{is_built, register};
use seq_stack::{MultiBack, Pop, PopReturn, Push, SpStep};
use std::test::Fail;

#[test]
fn pushes(rt: HostRuntime) -> Result<(), Fail> {
    let ip = register(&rt, 12);
    for (code, want) in [
        (0xB510, "f1ad0c08 46e5 e88d4010"),
        (0xB401, "f1ad0c04 46e5 9000"),
        (0xE92D4FF0, "f1ad0c24 46e5 e88d4ff0"),
    ] {
        is_built(&rt, rt.alloc(), &Push, code, &[ip], want)?;
    }
    Ok(())
}

#[test]
fn pops(rt: HostRuntime) -> Result<(), Fail> {
    let ip = register(&rt, 12);
    for (code, want) in [
        (0xBC03, "e89d0003 f10d0c08 46e5"),
        (0xBC08, "9b00 f10d0c04 46e5"),
        (0xE8BD4FF0, "e89d4ff0 f10d0c24 46e5"),
    ] {
        is_built(&rt, rt.alloc(), &Pop, code, &[ip], want)?;
    }
    Ok(())
}

#[test]
fn returns_by_lists(rt: HostRuntime) -> Result<(), Fail> {
    let ip = register(&rt, 12);
    for (code, want) in [
        (0xBD10, "e89d4010 f10d0c08 46e5 4770"),
        (0xBD00, "f8dde000 f10d0c04 46e5 4770"),
        (0xF85DFB04, "f8dde000 f10d0c04 46e5 4770"),
        (0xE8BD8FF0, "e89d4ff0 f10d0c24 46e5 4770"),
    ] {
        is_built(&rt, rt.alloc(), &PopReturn, code, &[ip], want)?;
    }
    Ok(())
}

#[test]
fn steps_sp(rt: HostRuntime) -> Result<(), Fail> {
    let ip = register(&rt, 12);
    for (code, want) in [
        (0xB082, "f1ad0c08 46e5"),
        (0xB002, "f10d0c08 46e5"),
        (0xF11D0D04, "f11d0c04 46e5"),
        (0x449D, "eb0d0c03 46e5"),
        (0xF2AD0D05, "f2ad0c05 46e5"),
    ] {
        is_built(&rt, rt.alloc(), &SpStep, code, &[ip], want)?;
    }
    Ok(())
}

#[test]
fn moves_lists(rt: HostRuntime) -> Result<(), Fail> {
    let ip = register(&rt, 12);
    for (code, want) in [
        (0xE9340003, "f1a40c08 4664 e8940003"),
        (0xC403, "e8840003 f1040c08 4664"),
        (0xE9240003, "f1a40c08 4664 e8840003"),
        (0xC401, "6020 f1040c04 4664"),
        (0xE93D0003, "f1ad0c08 46e5 e89d0003"),
    ] {
        is_built(&rt, rt.alloc(), &MultiBack, code, &[ip], want)?;
    }
    Ok(())
}
