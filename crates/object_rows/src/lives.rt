//! What is live in flows.

ghost use Rattle.std.specs.Prelude.{◌≡◌, ◌<◌, ℕ, All, IsTrue, length};
ghost use Rattle.flow_recover.specs.declared.flows.Point.{Point};
ghost use Rattle.liveness.specs.Paths.{Leads, NamesPoints};

use bitflags::Flags;
use elf_model::{Deny, Home, Limit, Object, Refusal, RelocKind, Spot, within};
use flow_recover::{Exit, Flow, Point, recover};
use liveness::{Boundary, Live, live};
use sample_objects::{Row, halfwords, object_of};
use std::alloc::{AllocError, Global};
use std::process::Abort;
use thumb_instr::RegSet;

// Whether the edges of a point lead to points below a number.
fn leads_below(x: &Point, n: usize) -> bool
    ensures { IsTrue result → (q : ℕ) → Leads x.now q → q < n }
{
    let next = match x.next {
        None => true,
        Some(q) => (q as usize) < n,
    };
    let target = match x.exit {
        Exit::Branch(q) => (q as usize) < n,
        _ => true,
    };
    next && target
}

fn all_lead_below(points: &[Point], n: usize) -> bool
    ensures { IsTrue result → All (λ x. (q : ℕ) → Leads x q → q < n) points.now }
{
    for x in points {
        if !leads_below(x, n) {
            return false;
        }
    }
    true
}

fn all_below(entries: &[u32], n: usize) -> bool
    ensures { IsTrue result → All (λ e. e < n) entries.now }
{
    for e in entries {
        if n <= *e as usize {
            return false;
        }
    }
    true
}

// What `live` asks of a flow.
fn names_points(f: &Flow) -> bool
    ensures { IsTrue result → NamesPoints f.now }
{
    let n = f.points().len();
    if n >= 0x1000_0000 {
        return false;
    }
    if !all_lead_below(f.points(), n) {
        return false;
    }
    all_below(f.entries(), n)
}

// The sets before and after each point.
fn told(alloc: Global, f: &Flow, b: &Boundary, l: &Live) -> Result<Vec<(u32, u32)>, AllocError>
    requires flow { NamesPoints f.now }
    requires sized { length l.now.sets ≡ length f.now.points }
{
    let mut sets = Vec::new(alloc);
    for p in 0..f.points().len() {
        let before = l.before(p as u32).bits();
        let after = l.after(f, b, p as u32).bits();
        sets.push((before, after))?;
    }
    Ok(sets)
}

fn sets_in(
    rt: &impl Abort,
    alloc: Global,
    f: &Flow,
    b: &Boundary,
) -> Result<Vec<(u32, u32)>, Deny> {
    assert!(rt; names_points(f));
    let l = live(alloc, f, b)?;
    assert!(rt; 0 < l.turns());
    Ok(told(alloc, f, b, &l)?)
}

fn set(bits: u32) -> RegSet {
    RegSet::from_bits_retain(bits)
}

// r0 to r11 and sp; at a transfer lr too.
fn usual() -> Boundary {
    Boundary {
        call: set(0x2fff),
        transfer: set(0x6fff),
        ret: set(0x2fff),
    }
}

// Each set has one register.
fn small() -> Boundary {
    Boundary {
        call: set(8),
        transfer: set(2),
        ret: set(1),
    }
}

/// A function of these halfwords, in which calls of another function stand at some offsets.
fn function(alloc: Global, halves: &[u16], calls: &[u32]) -> Result<Option<Object>, AllocError> {
    let sections = vec![in alloc; halfwords(alloc, b".text", 6, halves)?]?;
    let rows: [Row; 3] = [
        (b"$t", 0, 0, 0, Home::Section(0)),
        (b"f", 1, 1, 2, Home::Section(0)),
        (b"g", 0, 1, 0, Home::Undefined),
    ];
    let mut marks = Vec::new(alloc);
    for offset in calls {
        marks.push((0, *offset, RelocKind::ThmCall, 2))?;
    }
    object_of(alloc, sections, &rows, &marks)
}

fn flow(rt: &impl Abort, alloc: Global, halves: &[u16], calls: &[u32]) -> Flow {
    let o = function(alloc, halves, calls)
        .expect(rt, "memory")
        .expect(rt, "an object");
    assert!(rt; within(&o, &Limit::ANY));
    recover(alloc, &o).expect(rt, "a flow")
}

/// The sets before and after each point of a function.
#[test]
fn tells_sets(rt: HostRuntime) {
    // A function; a loop; a return under a condition, which is passed, and a move under one, which keeps its
    // register live.
    let rows: [(&[u16], Boundary, &[(u32, u32)]); 3] = [
        (
            &[0x2005, 0x4770],
            usual(),
            &[(0x6ffe, 0x6fff), (0x6fff, 0x2fff)],
        ),
        (
            &[0x1a40, 0xd1fd, 0x4770],
            small(),
            &[(0x4003, 0x24003), (0x24003, 0x4003), (0x4001, 1)],
        ),
        (
            &[0x2a00, 0xbf08, 0x2101, 0xbf18, 0x4770, 0x4608, 0x4770],
            small(),
            &[
                (0x4007, 0x24003),
                (0x24003, 0x24003),
                (0x24003, 0x24003),
                (0x24003, 0x24003),
                (0x24003, 1),
                (0x4002, 0x4001),
                (0x4001, 1),
            ],
        ),
    ];
    for (halves, boundary, want) in rows {
        let f = flow(&rt, rt.alloc(), halves, &[]);
        let sets = sets_in(&rt, rt.alloc(), &f, &boundary).expect(&rt, "sets");
        assert_eq!(rt; sets.as_slice(), want, "{halves:?}");
    }
}

/// r12 is read behind a call; a flag is read before anything sets it.
#[test]
fn refuses_what_is_lost(rt: HostRuntime) {
    let rows: [(&[u16], &[u32], Refusal, u32); 2] = [
        (
            &[0xB510, 0xF7FF, 0xFFFE, 0x4660, 0xBD10],
            &[2],
            Refusal::LiveAtReturn { register: 12 },
            2,
        ),
        (
            &[0xBF08, 0x2001, 0x4770],
            &[],
            Refusal::LiveAtEntry { register: 17 },
            0,
        ),
    ];
    for (halves, calls, refusal, offset) in rows {
        let f = flow(&rt, rt.alloc(), halves, calls);
        let why = sets_in(&rt, rt.alloc(), &f, &usual()).expect_err(&rt, "a refusal");
        let spot = Spot {
            refusal,
            file: 0,
            section: 0,
            offset,
        };
        assert_eq!(rt; why, Deny::Refused(spot));
    }
}

#[test]
fn takes_turns(rt: HostRuntime) {
    let f = flow(&rt, rt.alloc(), &[0x2005, 0x4770], &[]);
    assert!(rt; names_points(&f));
    assert_eq!(rt; f.points().len(), 2);
    let mut l = Live::new(rt.alloc(), &f).expect(&rt, "sets");
    let first = l.settle(&f, &small(), 1);
    let again = l.settle(&f, &small(), 1);
    assert_eq!(rt; (first, again), (true, false));
    let sets = (l.before(0).bits(), l.before(1).bits());
    assert_eq!(rt; (l.turns(), sets), (2, (0, 0x4001)));
}
