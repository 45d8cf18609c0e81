//! Calls, jumps to registers, branches on zero, and sequences under guards.

use crate::built::{built, instruction, register};
use elf_model::{Bytes, Home, Limit, Name, Object, Section, Symbol, object, within};
use flow_recover::{Flow, recover};
use it_expand::{expand, guarded};
use seq_calls::{DirectCall, RegisterCall, RegisterJump, ZeroBranch, with_landing};
use seq_core::{Builder, Class, Goal, Seq, Step};
use std::alloc::{AllocError, Global};
use std::process::Abort;
use std::test::Fail;
use thumb_encode::{Code, Width, encode};
use thumb_instr::{Cond, Instr};

/// The codes of an instruction in one and in two halfwords.
fn codes(alloc: Global, i: &Instr) -> Result<String, AllocError> {
    let half = match encode(i, Width::Half) {
        Some(Code::Half(h)) => format!(in alloc; "{h:04x}")?,
        _ => String::from_str(alloc, "-")?,
    };
    match encode(i, Width::Full) {
        Some(Code::Full(first, second)) => format!(in alloc; "{half} {first:04x}{second:04x}"),
        _ => format!(in alloc; "{half} -"),
    }
}

/// The steps of a sequence, each with its codes, what its number leads to and how often it stands, and the landing.
fn told(alloc: Global, s: &Seq) -> Result<String, AllocError> {
    let mut text = String::new(alloc);
    for step in s.steps() {
        let codes = codes(alloc, &step.instr)?;
        text.push_str(&format!(in alloc; "{codes} {:?} {}; ", step.goal, step.copies)?)?;
    }
    text.push_str(&format!(in alloc; "{}", s.landing())?)?;
    Ok(text)
}

/// Finds the sequence that a builder makes of a row's instruction.
fn builds<B: Builder>(rt: &impl Abort, alloc: Global, b: &B, row: &Row) -> Result<(), Fail> {
    let i = instruction(rt, row.0);
    let s = if row.1 {
        built(rt, b, &i, &[register(rt, 12)], row.2)
    } else {
        built(rt, b, &i, &[], row.2)
    };
    assert_eq!(rt; told(alloc, &s)?.as_str(), row.3, "{:x}", row.0);
    Ok(())
}

/// A code, whether r12 is given, copies, and what comes of them.
type Row = (u32, bool, u8, &'static str);

const CALLS: [Row; 2] = [
    (
        0xF7FF_FFFE,
        false,
        2,
        "- f20f0e00 Landing 2; e000 f000b800 Target 2; 2",
    ),
    (
        0xF000_F802,
        false,
        4,
        "- f20f0e00 Landing 4; e000 f000b800 Target 4; 2",
    ),
];

const REGISTER_CALLS: [Row; 2] = [
    (
        0x4798,
        false,
        2,
        "- f20f0e00 Landing 2; 4718 - Nowhere 2; 2",
    ),
    (
        0x47F0,
        true,
        3,
        "46f4 ea4f0c0e Nowhere 3; - f20f0e00 Landing 3; 4760 - Nowhere 3; 3",
    ),
];

const JUMPS: [Row; 2] = [
    (0x4770, false, 2, "4770 - Nowhere 2; 1"),
    (0x4718, false, 2, "4718 - Nowhere 2; 1"),
];

const ZERO_BRANCHES: [Row; 2] = [
    (0xB100, false, 2, "b900 - End 2; e000 f000b800 Target 2; 2"),
    (0xB90F, false, 2, "b107 - End 2; e000 f000b800 Target 2; 2"),
];

#[test]
fn builds_calls_and_branches(rt: HostRuntime) -> Result<(), Fail> {
    for row in &CALLS {
        builds(&rt, rt.alloc(), &DirectCall, row)?;
    }
    for row in &REGISTER_CALLS {
        builds(&rt, rt.alloc(), &RegisterCall, row)?;
    }
    for row in &JUMPS {
        builds(&rt, rt.alloc(), &RegisterJump, row)?;
    }
    for row in &ZERO_BRANCHES {
        builds(&rt, rt.alloc(), &ZeroBranch, row)?;
    }
    Ok(())
}

#[test]
fn names_classes_and_needs(rt: HostRuntime) {
    assert_eq!(rt; DirectCall.class(), Class::DirectCall);
    assert_eq!(rt; RegisterCall.class(), Class::RegisterCall);
    assert_eq!(rt; RegisterJump.class(), Class::RegisterJump);
    assert_eq!(rt; ZeroBranch.class(), Class::ZeroBranch);
}

/// BL whose return is to nowhere.
#[test]
fn adds_landings(rt: HostRuntime) {
    let i = instruction(&rt, 0xF7FF_FFFE);
    let s = built(&rt, &DirectCall, &i, &[], 2);
    let steps = s.steps().len();
    assert!(rt; steps == 2 && s.landing() == 2, "two steps");
    let landing = with_landing(&s, 2);
    let text = told(rt.alloc(), &landing).expect(&rt, "memory");
    assert_eq!(rt;
        text.as_str(),
        "- f20f0e00 Landing 2; e000 f000b800 Target 2; de00 - Nowhere 2; 2"
    );
    assert!(rt; landing.steps().len() == 3, "three steps");
    let under = guarded(&landing, Cond::Ne, 2);
    let text = told(rt.alloc(), &under).expect(&rt, "memory");
    assert_eq!(rt;
        text.as_str(),
        "d100 f0408000 End 2; - f20f0e00 Landing 2; e000 f000b800 Target 2; de00 - Nowhere 2; 3"
    );
}

/// A function of these halfwords alone.
fn function(alloc: Global, halves: &[u16]) -> Result<Option<Object>, AllocError> {
    let mut bytes = Vec::new(alloc);
    for half in halves {
        bytes.extend_from_slice(&half.to_le_bytes())?;
    }
    let size = (bytes.len() & 0xFFFF) as u32;
    let section = Section {
        name: Name::new(Vec::from_slice(alloc, b".text")?),
        kind: 1,
        flags: 6,
        align: 4,
        entry: 0,
        size,
        bytes: Bytes::new(bytes),
    };
    let code = Symbol {
        name: Name::new(Vec::from_slice(alloc, b"$t")?),
        value: 0,
        size: 0,
        bind: 0,
        kind: 0,
        other: 0,
        home: Home::Section(0),
    };
    let start = Symbol {
        name: Name::new(Vec::from_slice(alloc, b"f")?),
        value: 1,
        size: 0,
        bind: 1,
        kind: 2,
        other: 0,
        home: Home::Section(0),
    };
    let sections = vec![in alloc; section]?;
    let symbols = vec![in alloc; code, start]?;
    Ok(object(sections, symbols, Vec::new(alloc), 0x0500_0000))
}

fn flow_of(rt: &impl Abort, alloc: Global, halves: &[u16]) -> Flow {
    let o = function(alloc, halves)
        .expect(rt, "memory")
        .expect(rt, "an object");
    assert!(rt; within(&o, &Limit::ANY));
    recover(alloc, &o).expect(rt, "a flow")
}

/// The guards and bodies of a flow.
fn expansion(alloc: Global, f: &Flow) -> Result<String, AllocError> {
    let mut text = String::new(alloc);
    for x in &expand(alloc, f)? {
        match x.guard {
            None => {}
            Some(c) => text.push_str(&format!(in alloc; "{c:?} ")?)?,
        }
        match x.body {
            None => text.push_str("none; ")?,
            Some(i) => text.push_str(&format!(in alloc; "{}; ", codes(alloc, &i)?)?)?,
        }
    }
    Ok(text)
}

const FLOWS: [(&'static [u16], &'static str); 3] = [
    (&[0x2005, 0x4770], "2005 f05f0005; 4770 -; "),
    (
        &[0x2900, 0xBF08, 0x2001, 0x4770],
        "2900 f1b10f00; none; Ne - f04f0001; 4770 -; ",
    ),
    (
        &[0x2800, 0xBF04, 0x2900, 0x2001, 0x4770],
        "2800 f1b00f00; none; Ne 2900 f1b10f00; Ne - f04f0001; 4770 -; ",
    ),
];

#[test]
fn expands_blocks(rt: HostRuntime) {
    for row in &FLOWS {
        let f = flow_of(&rt, rt.alloc(), row.0);
        let text = expansion(rt.alloc(), &f).expect(&rt, "memory");
        assert_eq!(rt; text.as_str(), row.1);
    }
}

/// A body of one step under its guard.
#[test]
fn guards_bodies(rt: HostRuntime) {
    let mut s = Seq::new();
    s.push(Step {
        instr: instruction(&rt, 0xF04F_0001),
        goal: Goal::Nowhere,
        copies: 2,
    });
    let text = told(rt.alloc(), &guarded(&s, Cond::Ne, 2)).expect(&rt, "memory");
    assert_eq!(rt;
        text.as_str(),
        "d100 f0408000 End 2; - f04f0001 Nowhere 2; 2"
    );
}
