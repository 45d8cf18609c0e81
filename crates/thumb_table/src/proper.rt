//! What else is asked of an ordinary use: words are read whole, halves of addresses are completed, and jumps
//! lead to entries and return addresses.

ghost use Rattle.std.specs.Prelude.{◌≡◌, ◌<◌, ◌+◌, ◌*◌, ◌↔◌, ◌^◌, ℕ, None, [], ◌∷◌, IsTrue, true, false, All, length, map};
ghost use Rattle.std.specs.List.Sorted.{IsStrictlyIncreasing};
ghost use Rattle.thumb_instr.specs.declared.instructions.Instr.TheVariants as instr;
ghost use Rattle.thumb_table.specs.Parts.{Memory as Contents};
ghost use Rattle.thumb_table.specs.States.{read};
ghost use Rattle.thumb_table.specs.Effects.{access_address, cell_at, word_at, registers};
ghost use Rattle.thumb_table.specs.Ordinary.{IsLow, in_operand, AreBare, AreWhole, OrdinaryAccess, OrdinaryTop, OrdinaryReturn, OrdinaryList, IsProper, IsOrdinaryUse};
ghost use Rattle.thumb_table.specs.CoreStates.{alone, core_of, site_of};
ghost use Rattle.thumb_table.specs.Views.{popped as popped_of};

use crate::jumps::{is_ordinary_jump, is_ordinary_return};
use crate::marks::{completed, mark_at};
use crate::multiple::{joined_behind, lowest, numbered, transfer_size};
use crate::ordinary::{is_low, is_plain, uses_numbers};
use crate::{CodeBytes, Core, Memory, accesses, pairs};
use mark_word::Mark;
use thumb_instr::{Access, AccessOp, Half, Instr, Move, Multi, Operand, Pair, Reg, RegSet};

/// Whether no register of an operand has half an address.
fn lacks_halves(x: Operand, s: &Core) -> bool
    ensures { IsTrue result ↔ All (λ r. IsLow (read (alone s.now) r).mark → ⊥) (in_operand x) }
{
    match x {
        Operand::Imm(_) => true,
        Operand::Reg { m, .. } => !is_low(s.word(m).mark()),
    }
}

fn is_bare(m: &Memory, at: u64) -> bool
    ensures { IsTrue result ↔ ((cell_at m.now at).piece ≡ None) }
{
    m.cell_at(at).piece().is_none()
}

/// Whether a byte is no piece of a word.
fn is_byte_bare(m: &Memory, at: u64) -> bool
    ensures { IsTrue result ↔ AreBare m.now at 1 }
{
    is_bare(m, at)
}

/// Whether the bytes of a halfword are no pieces of words.
fn is_half_bare(m: &Memory, at: u64) -> bool
    requires { at + 4 < 2 ^ 64 }
    ensures { IsTrue result ↔ AreBare m.now at 2 }
{
    is_bare(m, at) && is_bare(m, at + 1)
}

/// Whether an access reads a word whole, or no piece of one.
fn reads_whole(op: AccessOp, address: u32, m: &Memory) -> bool
    ensures { (s : Core) → IsTrue result ↔ OrdinaryAccess op address (core_of s m.now) }
{
    let at = u64::from(address);
    match op {
        AccessOp::Ldr => m.word_at(at).whole,
        AccessOp::Ldrb | AccessOp::Ldrsb => is_byte_bare(m, at),
        AccessOp::Ldrh | AccessOp::Ldrsh => is_half_bare(m, at),
        _ => true,
    }
}

/// Whether the words of a list are whole.
fn are_whole(list: RegSet, address: u32, m: &Memory) -> bool
    ensures { IsTrue result ↔ AreWhole m.now address (registers list.0) }
{
    let mut at = u64::from(address);
    'each: for k in 0..15u8 {
        if list.has(numbered(k)) {
            if !m.word_at(at).whole {
                return false;
            }
            at += 4;
        }
    }
    true
}

/// Whether two words are whole.
fn is_pair_whole(t: Reg, u: Reg, address: u32, m: &Memory) -> bool
    ensures { IsTrue result ↔ AreWhole m.now address (t ∷ u ∷ []) }
{
    let at = u64::from(address);
    m.word_at(at).whole && m.word_at(at + 4).whole
}

/// Whether a MOVT is used in an ordinary way: at a place with a mark it completes it, elsewhere its register
/// has a number.
fn completes(i: &Half, code: &CodeBytes, s: &Core) -> bool
    requires { IsStrictlyIncreasing (map (λ p. p.at) code.now.marks) }
    ensures { (width : ℕ) (m : Contents) → IsTrue result ↔ OrdinaryTop i.now.d i.now.imm (site_of code.now s.now width) (core_of s.now m) }
{
    let place = mark_at(code.marks(), s.pc);
    let old = s.word(i.d);
    match place {
        Mark::Plain => is_plain(old.mark()),
        _ => completed(i.imm, old, place).mark() == place,
    }
}

/// Whether a MOVW or MOVT is used in an ordinary way.
fn is_half_proper(i: &Half, code: &CodeBytes, s: &Core) -> bool
    requires { IsStrictlyIncreasing (map (λ p. p.at) code.now.marks) }
    ensures { (width : ℕ) (m : Contents) → IsTrue result ↔ (i.now.top ≡ true → OrdinaryTop i.now.d i.now.imm (site_of code.now s.now width) (core_of s.now m)) }
{
    !i.top || completes(i, code, s)
}

/// Whether a transfer of two words is used in an ordinary way.
fn is_pair_proper(i: &Pair, code: &CodeBytes, s: &Core, m: &Memory) -> bool
    ensures { (width : ℕ) → IsTrue result ↔ IsProper (instr.Pair i.now) (site_of code.now s.now width) (core_of s.now m.now) }
{
    let _ = code;
    let address = pairs::access_address(i, s);
    !i.load || is_pair_whole(i.t, i.u, address, m)
}

/// Whether pc is loaded in an ordinary way.
fn is_pc_proper(i: &Multi, code: &CodeBytes, address: u32, m: &Memory) -> bool
    requires stops { IsStrictlyIncreasing code.now.stops }
    requires ends { code.now.base + length code.now.bytes < 2 ^ 32 }
    ensures { IsTrue result ↔ (((word_at m.now (address + 4 * length (registers i.now.list.0))).whole ≡ true) × OrdinaryReturn code.now (popped_of i.now address m.now)) }
{
    let joined = joined_behind(i, address, m);
    joined.whole && is_ordinary_return(code, joined.word)
}

/// Whether a transfer of a list is used in an ordinary way.
fn is_multi_proper(i: &Multi, code: &CodeBytes, s: &Core, m: &Memory) -> bool
    requires stops { IsStrictlyIncreasing code.now.stops }
    requires ends { code.now.base + length code.now.bytes < 2 ^ 32 }
    ensures { (width : ℕ) → IsTrue result ↔ IsProper (instr.Multi i.now) (site_of code.now s.now width) (core_of s.now m.now) }
{
    let address = lowest(i, transfer_size(i), s);
    if !i.load {
        return true;
    }
    if !are_whole(i.list, address, m) {
        return false;
    }
    !i.pc || is_pc_proper(i, code, address, m)
}

/// Whether a move is used in an ordinary way.
fn is_move_proper(i: &Move, s: &Core) -> bool
    ensures { IsTrue result ↔ (i.now.s ≡ true → All (λ r. IsLow (read (alone s.now) r).mark → ⊥) (in_operand i.now.x)) }
{
    !i.s || lacks_halves(i.x, s)
}

/// Whether an access is used in an ordinary way.
fn is_access_proper(i: &Access, s: &Core, m: &Memory) -> bool
    ensures { IsTrue result ↔ OrdinaryAccess i.now.op (access_address i.now.n i.now.place (alone s.now)) (core_of s.now m.now) }
{
    reads_whole(i.op, accesses::access_address(i, s), m)
}

fn is_no_half(n: Reg, s: &Core) -> bool
    ensures { IsTrue result ↔ (IsLow (read (alone s.now) n).mark → ⊥) }
{
    !is_low(s.word(n).mark())
}

/// Whether what else is asked of an instruction holds.
fn is_proper(i: &Instr, code: &CodeBytes, s: &Core, m: &Memory) -> bool
    requires marks { IsStrictlyIncreasing (map (λ p. p.at) code.now.marks) }
    requires stops { IsStrictlyIncreasing code.now.stops }
    requires ends { code.now.base + length code.now.bytes < 2 ^ 32 }
    ensures { (width : ℕ) → IsTrue result ↔ IsProper i.now (site_of code.now s.now width) (core_of s.now m.now) }
{
    match i {
        Instr::Move(i) => is_move_proper(i, s),
        Instr::Test(i) => is_no_half(i.n, s),
        Instr::Half(i) => is_half_proper(i, code, s),
        Instr::Access(i) => is_access_proper(i, s, m),
        Instr::Pair(i) => is_pair_proper(i, code, s, m),
        Instr::Multi(i) => is_multi_proper(i, code, s, m),
        Instr::ZeroBranch(i) => is_no_half(i.n, s),
        Instr::Jump(i) => is_ordinary_jump(code, s.word(i.m)),
        Instr::CallReg(i) => is_ordinary_jump(code, s.word(i.m)),
        _ => true,
    }
}

/// Whether an instruction that takes effect is used in an ordinary way.
pub(crate) fn is_ordinary(i: &Instr, code: &CodeBytes, s: &Core, m: &Memory) -> bool
    requires marks { IsStrictlyIncreasing (map (λ p. p.at) code.now.marks) }
    requires stops { IsStrictlyIncreasing code.now.stops }
    requires ends { code.now.base + length code.now.bytes < 2 ^ 32 }
    ensures { (width : ℕ) → IsTrue result ↔ IsOrdinaryUse i.now (site_of code.now s.now width) (core_of s.now m.now) }
{
    uses_numbers(i, s) && is_proper(i, code, s, m)
}
