//! Flows of objects.

use code_ranges::Range;
use elf_model::RelocKind::*;
use elf_model::{Home, Limit, within};
use flow_recover::{Flow, Point, recover};
use sample_objects::{Mark, Row, sample};
use std::alloc::{AllocError, Global};
use std::process::Abort;
use thumb_instr::{Cond, Instr, Jump, Move, MoveOp, Operand, Reg, same};

const TEXT: Home = Home::Section(0);

const OPEN: Row = (b"u", 0, 1, 0, Home::Undefined);

/// Code, the symbols from number 5 on, relocations, the points and words, and the entries.
type Case = (
    &'static [u16],
    &'static [Row],
    &'static [Mark],
    &'static str,
    &'static [u32],
);

const CASES: [Case; 18] = [
    (
        &[0x2005, 0x4770],
        &[],
        &[],
        "0 Falls then 1; 2 Return",
        &[0],
    ),
    // Calls that may not return: before a function, before the end, and with NOPs between.
    (
        &[0xF7FF, 0xFFFE, 0xB510, 0xBD10],
        &[(b"g", 5, 1, 2, TEXT), OPEN],
        &[(0, 0, ThmCall, 6)],
        "0w Call by 0; 4 Falls then 2; 6 Return",
        &[0, 1],
    ),
    (
        &[0xF7FF, 0xFFFE],
        &[OPEN],
        &[(0, 0, ThmCall, 5)],
        "0w Call by 0",
        &[0],
    ),
    (
        &[0xF7FF, 0xFFFE, 0xBF00, 0x46C0, 0xB510, 0xBD10],
        &[(b"g", 9, 1, 2, TEXT), OPEN],
        &[(0, 0, ThmCall, 6)],
        "0w Call by 0; 8 Falls then 2; 10 Return",
        &[0, 1],
    ),
    (
        &[0xF7FF, 0xFFFE, 0xBF00, 0x46C0],
        &[OPEN],
        &[(0, 0, ThmCall, 5)],
        "0w Call by 0",
        &[0],
    ),
    // Calls that return; one by its offset enters there.
    (
        &[0xF7FF, 0xFFFE, 0x4770],
        &[OPEN],
        &[(0, 0, ThmCall, 5)],
        "0w Call then 1 by 0; 4 Return",
        &[0],
    ),
    (
        &[0xF7FF, 0xFFFE, 0xBF00, 0x4770],
        &[OPEN],
        &[(0, 0, ThmCall, 5)],
        "0w Call then 1 by 0; 4 Falls then 2; 6 Return",
        &[0],
    ),
    (
        &[0xB510, 0xF7FF, 0xFFFE, 0x4660, 0xBD10],
        &[OPEN],
        &[(0, 2, ThmCall, 5)],
        "0 Falls then 1; 2w Call then 2 by 0; 6 Falls then 3; 8 Return",
        &[0],
    ),
    (
        &[0xF000, 0xF800, 0x4770],
        &[],
        &[],
        "0w Call then 1; 4 Return",
        &[0, 1],
    ),
    // Branches: by an offset, by a local symbol, by a global one, and to another object.
    (
        &[0xD000, 0x2005, 0x4770],
        &[],
        &[],
        "0 Branch(2) then 1; 2 Falls then 2; 4 Return",
        &[0],
    ),
    (
        &[0x2005, 0xF7FF, 0xBFFE],
        &[],
        &[(0, 2, ThmJump24, 4)],
        "0 Falls then 1; 2w Branch(0) by 0",
        &[0],
    ),
    (
        &[0xF7FF, 0xBFFE, 0x4770],
        &[(b"g", 5, 1, 2, TEXT)],
        &[(0, 0, ThmJump24, 5)],
        "0w Transfer by 0; 4 Return",
        &[0, 1],
    ),
    (
        &[0xF7FF, 0xBFFE],
        &[OPEN],
        &[(0, 0, ThmJump24, 5)],
        "0w Transfer by 0",
        &[0],
    ),
    // What is not reached is not looked at; from one range to the next; under conditions.
    (&[0x4770, 0x4148], &[], &[], "0 Return", &[0]),
    (
        &[0x2005, 0x4770],
        &[(b"$t", 2, 0, 0, TEXT)],
        &[],
        "0 Falls then 1; 2 Return",
        &[0],
    ),
    (
        &[0xBF0C, 0x2001, 0x2002, 0x4770],
        &[],
        &[],
        "0 Falls then 1; 2 Falls if Eq then 2; 4 Falls if Ne then 3; 6 Return",
        &[0],
    ),
    // A literal, and an address.
    (
        &[0x4800, 0x4770, 0x0000, 0x0000],
        &[(b"$d", 4, 0, 0, TEXT)],
        &[(0, 4, Abs32, 2)],
        "0 Falls then 1 loads 0; 2 Return; word 4 by 0",
        &[0],
    ),
    (
        &[0x4770, 0x4770],
        &[],
        &[(2, 0, Abs32, 4)],
        "0 Return; 2 Return",
        &[0, 1],
    ),
];

fn push_number(
    text: &mut String,
    alloc: Global,
    before: &str,
    n: Option<u32>,
) -> Result<(), AllocError> {
    if let Some(n) = n {
        text.push_str(&format!(in alloc; "{before}{n}")?)?;
    }
    Ok(())
}

fn push_point(text: &mut String, alloc: Global, p: &Point) -> Result<(), AllocError> {
    let wide = if p.wide { "w" } else { "" };
    text.push_str(&format!(in alloc; "; {}{wide} {:?}", p.offset, p.exit)?)?;
    if p.cond != Cond::Al {
        text.push_str(&format!(in alloc; " if {:?}", p.cond)?)?;
    }
    push_number(text, alloc, " then ", p.next)?;
    push_number(text, alloc, " by ", p.reloc)?;
    push_number(text, alloc, " loads ", p.word)
}

/// The points of the first section, and the words.
fn told(alloc: Global, f: &Flow) -> Result<String, AllocError> {
    let mut text = String::new(alloc);
    for p in f.points() {
        push_point(&mut text, alloc, p)?;
    }
    for w in f.words() {
        text.push_str(&format!(in alloc; "; word {}", w.offset)?)?;
        push_number(&mut text, alloc, " by ", w.reloc)?;
    }
    Ok(text)
}

/// The text with the mark that stands before each point.
fn marked(alloc: Global, text: &str) -> Result<String, AllocError> {
    format!(in alloc; "; {text}")
}

fn recovered(rt: &impl Abort, alloc: Global, case: &Case) -> Flow {
    let o = sample(alloc, case.0, case.1, case.2)
        .expect(rt, "memory")
        .expect(rt, "an object");
    assert!(rt; within(&o, &Limit::ANY));
    recover(alloc, &o).expect(rt, "a flow")
}

/// Finds the flow of a case.
fn finds(rt: &impl Abort, alloc: Global, k: usize, case: &Case) {
    let f = recovered(rt, alloc, case);
    let found = told(alloc, &f).expect(rt, "memory");
    let want = marked(alloc, case.3).expect(rt, "memory");
    assert_eq!(rt; found.as_str(), want.as_str(), "case {k}");
    assert_eq!(rt; f.entries(), case.4, "case {k}");
    for p in f.points() {
        assert_eq!(rt; p.section, 0, "case {k}");
    }
}

#[test]
fn recovers_flows(rt: HostRuntime) {
    for (k, case) in CASES.iter().enumerate() {
        finds(&rt, rt.alloc(), k, case);
    }
}

/// The instructions of the first case, and the ranges of its two code sections.
#[test]
fn gives_instructions_and_ranges(rt: HostRuntime) {
    let f = recovered(&rt, rt.alloc(), &CASES[0]);
    let r0 = Reg::new(0).expect(&rt, "a register");
    let moved = Move::new(MoveOp::Mov, true, r0, Operand::Imm(5)).expect(&rt, "a move");
    let back = Jump::new(Reg::new(14).expect(&rt, "a register")).expect(&rt, "a jump");
    for (p, i) in f
        .points()
        .iter()
        .zip(&[Instr::Move(moved), Instr::Jump(back)])
    {
        assert!(rt; same(&p.instr, i));
    }
    let of = |section: u32| Range {
        section,
        start: 0,
        end: 4,
        code: true,
    };
    assert_eq!(rt; f.ranges(), [of(0), of(1)].as_slice());
}
