//! The sequence of an instruction, with its guard and its landing.

ghost use Rattle.std.specs.Prelude.{◌≡◌, ◌≤◌, ◌+◌, ◌&&◌, ◌<◌, ℕ, Bool, length, take, Some};
ghost use Rattle.thumb_instr.specs.declared.conditions.Cond.{Cond as Condition};
ghost use Rattle.thumb_instr.specs.declared.instructions.Instr.{Instr as Instruction};
ghost use Rattle.thumb_table.specs.Conditions.{holds};
ghost use Rattle.thumb_table.specs.States.{Core};
ghost use Rattle.seq_core.specs.Builders.{AreCoded, CanBuild, Do, loses, own_test};
ghost use Rattle.it_expand.specs.Expanded.{guard_of};
ghost use Rattle.seq_core.specs.Replaced.{replaced};
ghost use Rattle.point_units.specs.Units.{landed, under};

use it_expand::guarded;
use seq_calls::{DirectCall, RegisterCall, RegisterJump, ZeroBranch, with_landing};
use seq_core::{Builder, Class, Seq};
use seq_idempotent::Twice;
use seq_separable::{BaseCopy, LongSum, Through, ThroughFlags, WriteBack};
use seq_stack::{MultiBack, Pop, PopReturn, Push, SpStep};
use thumb_instr::{Cond, Instr, Reg};

/// The sequence of an instruction of the class, by way of free registers, each step `copies` times.
fn built(i: &Instr, class: Class, scratch: &[Reg], copies: u8) -> Seq
    requires { CanBuild class i.now scratch.now copies }
    ensures steps { result ≡ record { steps = replaced class copies i.now scratch.now; landing = length (replaced class copies i.now scratch.now) } }
    ensures works { Do (own_test i.now) i.now (loses i.now scratch.now) copies result.steps }
    ensures coded { AreCoded result.steps }
{
    match class {
        Class::Twice => Twice.build(i, scratch, copies),
        Class::Through => Through.build(i, scratch, copies),
        Class::ThroughFlags => ThroughFlags.build(i, scratch, copies),
        Class::WriteBack => WriteBack.build(i, scratch, copies),
        Class::BaseCopy => BaseCopy.build(i, scratch, copies),
        Class::LongSum => LongSum.build(i, scratch, copies),
        Class::Push => Push.build(i, scratch, copies),
        Class::Pop => Pop.build(i, scratch, copies),
        Class::PopReturn => PopReturn.build(i, scratch, copies),
        Class::SpStep => SpStep.build(i, scratch, copies),
        Class::MultiBack => MultiBack.build(i, scratch, copies),
        Class::DirectCall => DirectCall.build(i, scratch, copies),
        Class::RegisterCall => RegisterCall.build(i, scratch, copies),
        Class::RegisterJump => RegisterJump.build(i, scratch, copies),
        Class::ZeroBranch => ZeroBranch.build(i, scratch, copies),
    }
}

/// With a landing behind it, where the call never returns.
fn landed(s: Seq, never: bool, copies: u8) -> Seq
    requires room { length s.steps < 8 }
    requires open { s.landing ≡ length s.steps }
    ensures steps { result ≡ landed never copies s.steps }
    ensures works { (test : Core → Bool) (i : Instruction) (lost : ℕ → Bool) → Do test i lost copies s.steps → Do test i lost copies (take result.landing result.steps) }
    ensures coded { AreCoded s.steps → AreCoded result.steps }
{
    if never { with_landing(&s, copies) } else { s }
}

/// Under a guard, where there is one.
fn under(s: Seq, guard: Option<Cond>, copies: u8) -> Seq
    requires { length s.steps < 8 }
    ensures steps { result ≡ under guard copies s }
    ensures works { (cond : Condition) (test : Core → Bool) (i : Instruction) (lost : ℕ → Bool) → guard ≡ guard_of cond → Do test i lost copies (take s.landing s.steps) → Do (λ y. holds cond y && test y) i lost copies (take result.landing result.steps) }
    ensures coded { AreCoded s.steps → AreCoded result.steps }
{
    match guard {
        None => s,
        Some(c) => guarded(&s, c, copies),
    }
}

/// The whole sequence of an instruction under a guard.
pub(crate) fn sequence_of(
    i: &Instr,
    class: Class,
    scratch: &[Reg],
    copies: u8,
    never: bool,
    guard: Option<Cond>,
) -> Seq
    requires { CanBuild class i.now scratch.now copies }
    ensures steps { result ≡ under guard copies (landed never copies (replaced class copies i.now scratch.now)) }
    ensures works { (cond : Condition) → guard ≡ guard_of cond → Do (λ y. holds cond y && own_test i.now y) i.now (loses i.now scratch.now) copies (take result.landing result.steps) }
    ensures coded { AreCoded result.steps }
{
    let s = built(i, class, scratch, copies);
    under(landed(s, never, copies), guard, copies)
}
