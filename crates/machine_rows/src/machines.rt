//! Runs under plans.

ghost use Rattle.std.specs.Prelude.{IfOk};
ghost use Rattle.skip_machine.specs.Machines.{CanRun};

use mark_word::Mark;
use skip_machine::{Machine, Moved, Outcome, Plan, PlanErr};
use std::alloc::{AllocError, Global};
use std::process::Abort;
use std::test::Fail;
use thumb_table::{CodeBytes, FaultKind, Image, Memory};

/// `movs r0, #5`, `bx lr`.
const PLAIN: &[u16] = &[0x2005, 0x4770];

/// Each twice.
const TWICE: &[u16] = &[0x2005, 0x2005, 0x4770, 0x4770];

/// `adds r0, #1`, `bx lr`, and the same by way of r12, each twice.
const ADDS: &[u16] = &[0x3001, 0x4770];

const ADDS_TWICE: &[u16] = &[
    0xF110, 0x0C01, 0xF110, 0x0C01, 0x4660, 0x4660, 0x4770, 0x4770,
];

/// `cmp r1, #0`, `it eq`, `moveq r0, #1`, `bx lr`, and the same with branches over a move.
const BLOCK: &[u16] = &[0x2900, 0xBF08, 0x2001, 0x4770];

const BLOCK_TWICE: &[u16] = &[
    0x2900, 0x2900, 0xF040, 0x8006, 0xF040, 0x8004, 0xF04F, 0x0001, 0xF04F, 0x0001, 0x4770, 0x4770,
];

/// `mov.w r1, #1000`, `subs r1, #1`, `bne` back, `bx lr`, and the same by way of r12.
const LOOP: &[u16] = &[0xF44F, 0x717A, 0x3901, 0xD1FD, 0x4770];

const LOOP_TWICE: &[u16] = &[
    0xF44F, 0x717A, 0xF44F, 0x717A, 0xF1B1, 0x0C01, 0xF1B1, 0x0C01, 0x4661, 0x4661, 0xF47F, 0xAFF8,
    0xF47F, 0xAFF6, 0x4770, 0x4770,
];

/// A sum with the return address, and a load from nowhere.
const SUM_OF_LR: &[u16] = &[0x4670, 0x3001, 0x4770];

const LOAD: &[u16] = &[0x6800, 0x4770];

/// Code, r0 and r1 at its start, the skipped steps, and the steps at most.
type Call = (&'static [u16], [u32; 2], &'static str, u64);

/// How a run ends, after how many steps, with which r0, and whether all were ordinary.
type End = (Outcome, u64, u32, bool);

const DONE: Outcome = Outcome::Returned;

const ROWS: [(Call, End); 21] = [
    ((TWICE, [9, 0], "", 10), (DONE, 3, 5, true)),
    ((TWICE, [9, 0], "0", 10), (DONE, 3, 5, true)),
    ((TWICE, [9, 0], "2", 10), (DONE, 4, 5, true)),
    ((TWICE, [9, 0], "0,2", 10), (DONE, 4, 5, true)),
    ((TWICE, [9, 0], "", 2), (Outcome::Unfinished, 2, 5, true)),
    ((PLAIN, [9, 0], "0", 10), (DONE, 2, 9, true)),
    (
        (PLAIN, [9, 0], "1", 10),
        (Outcome::Fault(FaultKind::BadFetch, 0x8004), 2, 5, true),
    ),
    ((ADDS, [9, 0], "", 10), (DONE, 2, 10, true)),
    ((ADDS_TWICE, [9, 0], "", 10), (DONE, 5, 10, true)),
    ((ADDS_TWICE, [9, 0], "0,2,4", 10), (DONE, 6, 10, true)),
    ((ADDS_TWICE, [9, 0], "1,3", 10), (DONE, 5, 10, true)),
    ((BLOCK, [9, 0], "", 10), (DONE, 4, 1, true)),
    ((BLOCK, [9, 5], "", 10), (DONE, 4, 9, true)),
    ((BLOCK, [9, 5], "1", 10), (DONE, 4, 1, true)),
    ((BLOCK_TWICE, [9, 0], "", 10), (DONE, 7, 1, true)),
    ((BLOCK_TWICE, [9, 0], "0,2,4,6", 10), (DONE, 8, 1, true)),
    ((BLOCK_TWICE, [9, 5], "", 10), (DONE, 4, 9, true)),
    ((BLOCK_TWICE, [9, 5], "0,2,4", 10), (DONE, 6, 9, true)),
    ((LOOP, [9, 0], "", 10_000), (DONE, 2_002, 9, true)),
    ((SUM_OF_LR, [9, 0], "", 10), (DONE, 3, 0x8000_0000, false)),
    (
        (LOAD, [9, 0], "", 10),
        (Outcome::Fault(FaultKind::BadAddress, 0x8000), 0, 9, true),
    ),
];

/// An image at 0x8000 with room for 64 bytes and no data.
fn image(rt: &impl Abort, alloc: Global, code: &[u16]) -> Result<Image, AllocError>
    ensures { IfOk result (λ i. CanRun i 64) }
{
    let mut bytes = Vec::new(alloc);
    for half in code {
        bytes.extend_from_slice(&half.to_le_bytes())?;
    }
    assert!(rt; bytes.len() <= 64);
    let stops = vec![in alloc; 0x8000]?;
    let code = CodeBytes::new(0x8000, bytes, Vec::new(alloc), stops);
    let memory = Memory::new(0x8040, Vec::new(alloc));
    Ok(Image::new(code, memory, 64, Vec::new(alloc), Vec::new(alloc)))
}

#[test]
fn runs_under_plans(rt: HostRuntime) -> Result<(), Fail> {
    let alloc = rt.alloc();
    for ((code, [first, second], skips, most), (outcome, steps, r0, ordinary)) in ROWS {
        assert!(rt; most <= 10_000);
        let mut machine = Machine::new(alloc, &image(&rt, alloc, code)?, 64)?;
        let plan = Plan::read(alloc, skips, 2)?;
        machine.start(0x8001, &[first, second]);
        assert_eq!(rt; machine.run(most, &plan), outcome, "{skips} of {code:?}");
        assert_eq!(rt; machine.steps(), steps, "{skips} of {code:?}");
        assert_eq!(rt; machine.registers().r[0].bits(), r0, "{skips} of {code:?}");
        assert_eq!(rt; machine.is_ordinary(), ordinary, "{skips} of {code:?}");
        assert_eq!(rt;
            machine.is_running(),
            outcome == Outcome::Unfinished,
            "{skips}"
        );
    }
    Ok(())
}

/// Where each odd step is skipped.
#[test]
fn runs_a_loop_under_skips(rt: HostRuntime) -> Result<(), Fail> {
    let alloc = rt.alloc();
    let mut skips = String::from_str(alloc, "1")?;
    for k in 1..4004u32 {
        let next = format!(in alloc; ",{}", 2 * k + 1)?;
        skips.push_str(&next)?;
    }
    let mut machine = Machine::new(alloc, &image(&rt, alloc, LOOP_TWICE)?, 64)?;
    machine.start(0x8001, &[9]);
    let plan = Plan::read(alloc, &skips, 2)?;
    assert_eq!(rt; machine.run(8_008, &plan), Outcome::Returned);
    assert_eq!(rt; machine.steps(), 6_003);
    assert_eq!(rt; machine.registers().r[1].bits(), 0);
    Ok(())
}

#[test]
fn starts_and_steps(rt: HostRuntime) -> Result<(), Fail> {
    let alloc = rt.alloc();
    let image = image(&rt, alloc, PLAIN)?;
    let mut machine = Machine::new(alloc, &image, 64)?;
    assert!(rt; !machine.is_running());
    machine.start(0x8001, &[9, 8, 7, 6]);
    let start = *machine.registers();
    assert_eq!(rt; start.pc, 0x8000);
    assert_eq!(rt; start.r[3].bits(), 6);
    assert_eq!(rt; start.r[13].bits(), 0x8080);
    assert_eq!(rt; start.r[14].mark(), Mark::Return(0x7fff_ffff));
    assert_eq!(rt; machine.memory().cells().len(), 64);
    assert_eq!(rt; machine.step(false), Ok(Moved::On));
    assert!(rt; machine.is_running());
    if machine.is_running() && machine.steps() < 9 {
        assert_eq!(rt; machine.step(false), Ok(Moved::Returned));
    }
    Ok(())
}

#[test]
fn reads_plans(rt: HostRuntime) -> Result<(), Fail> {
    for (text, copies, good) in [
        ("", 2, true),
        ("0", 2, true),
        ("0,2", 2, true),
        ("0,1", 2, false),
        ("0,1", 3, true),
        ("4,6,7,8,10", 3, false),
        ("4,6,7,8,10", 4, true),
        ("1,0", 2, false),
        ("1,1", 2, false),
        ("00", 2, false),
        ("+1", 2, false),
        ("1,", 2, false),
        (",1", 2, false),
        ("1 ,3", 2, false),
        ("9223372036854775807", 2, true),
        ("9223372036854775808", 2, false),
        ("99999999999999999999", 2, false),
    ] {
        match Plan::read(rt.alloc(), text, copies) {
            Ok(_) => assert!(rt; good, "{text}"),
            Err(PlanErr::Bad) => assert!(rt; !good, "{text}"),
            Err(PlanErr::NoMemory) => assert!(rt; false, "{text}"),
        }
    }
    let plan = Plan::read(rt.alloc(), "3,5", 2)?;
    assert!(rt; plan.holds(5) && !plan.holds(4));
    Ok(())
}

#[test]
fn draws_plans(rt: HostRuntime) -> Result<(), Fail> {
    let plan = Plan::drawn(rt.alloc(), 0, 40, 2)?;
    let skipped = [2, 5, 7, 9, 11, 13, 15, 19, 21];
    for step in 0..23 {
        assert_eq!(rt; plan.holds(step), skipped.contains(&step), "{step}");
    }
    assert!(rt; !plan.holds(40));
    Ok(())
}
