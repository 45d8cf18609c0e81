//! Sequences of builders, as the codes of their steps.

ghost use Rattle.std.specs.Prelude.{IsTrue, ◌≡◌};
ghost use Rattle.thumb_table.specs.Schedules.{is_in};
ghost use Rattle.seq_core.specs.Builders.{AreFree, HasRow};
ghost use Rattle.seq_core.specs.Groups.{IsFree};

use seq_core::{Builder, Seq, class_of};
use std::alloc::{AllocError, Global};
use std::process::Abort;
use std::test::Fail;
use thumb_decode::{ItPlace, decode};
use thumb_encode::{Code, Width, encode};
use thumb_instr::{Instr, Reg, reads, writes};

/// The instruction of a code of one halfword, or of two.
pub(crate) fn instruction(rt: &impl Abort, code: u32) -> Instr
    ensures { HasRow result }
{
    let first = (code / 65536) as u16;
    let second = (code % 65536) as u16;
    if first == 0 {
        decode(second, None, ItPlace::Outside).expect(rt, "an instruction")
    } else {
        decode(first, Some(second), ItPlace::Outside).expect(rt, "an instruction")
    }
}

/// A register by its number.
pub(crate) fn register(rt: &impl Abort, number: u8) -> Reg {
    Reg::new(number).expect(rt, "a register")
}

/// Whether a register is one of some.
fn is_among(q: Reg, registers: &[Reg]) -> bool
    ensures { result ≡ is_in registers.now q }
{
    match registers.split_first() {
        None => false,
        Some((r, others)) => r.number() == q.number() || is_among(q, others),
    }
}

/// Whether an instruction leaves a register below sp.
fn is_free(i: &Instr, q: Reg) -> bool
    ensures { IsTrue result → IsFree i.now q }
{
    q.number() < 13 && !reads(i).has(q) && !writes(i).has(q)
}

/// Whether it leaves some, all different.
fn are_free(i: &Instr, scratch: &[Reg]) -> bool
    ensures { IsTrue result → AreFree i.now scratch.now }
{
    match scratch.split_first() {
        None => true,
        Some((q, others)) => is_free(i, *q) && !is_among(*q, others) && are_free(i, others),
    }
}

/// The sequence of an instruction of the builder's class.
pub(crate) fn built<B: Builder>(
    rt: &impl Abort,
    builder: &B,
    i: &Instr,
    scratch: &[Reg],
    copies: u8,
) -> Seq
    requires { HasRow i.now }
{
    let class = builder.class();
    match class_of(i) {
        Some(own) => assert!(rt; own == class, "another class"),
        None => assert!(rt; false, "no class"),
    }
    let need = builder.need(i);
    assert!(rt; need.registers as usize == scratch.len(), "other registers");
    assert!(rt; are_free(i, scratch), "registers that are not free");
    assert!(rt; 2 <= copies && copies <= 4, "other copies");
    builder.build(i, scratch, copies)
}

/// The codes of a sequence, each in one halfword where it has such a code.
pub(crate) fn codes(alloc: Global, s: &Seq, copies: u8) -> Result<String, AllocError> {
    let mut text = String::new(alloc);
    for step in s.steps() {
        if step.copies != copies {
            text.push_str("other copies")?;
        }
        if !text.is_empty() {
            text.push(' ')?;
        }
        let code = match encode(&step.instr, Width::Half) {
            Some(Code::Half(h)) => format!(in alloc; "{h:04x}")?,
            _ => match encode(&step.instr, Width::Full) {
                Some(Code::Full(first, second)) => format!(in alloc; "{first:04x}{second:04x}")?,
                _ => String::from_str(alloc, "-")?,
            },
        };
        text.push_str(code.as_str())?;
    }
    Ok(text)
}

/// A row: a code, the scratch registers and the codes of the sequence.
pub(crate) fn is_built<B: Builder>(
    rt: &impl Abort,
    alloc: Global,
    builder: &B,
    code: u32,
    scratch: &[Reg],
    want: &str,
) -> Result<(), Fail> {
    let i = instruction(rt, code);
    let s = built(rt, builder, &i, scratch, 3);
    assert_eq!(rt; s.landing() as usize, s.steps().len(), "{code:x}");
    assert_eq!(rt; codes(alloc, &s, 3)?.as_str(), want, "{code:x}");
    Ok(())
}
