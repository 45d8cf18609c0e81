//! Kinds of relocations, and the instructions that they are of.

ghost use Rattle.std.specs.Prelude.{◌≡◌};
ghost use Rattle.reloc_places.specs.Relocations.{may_fail as may_fail_on, is_word as is_word_kind, is_jump as is_jump_kind, is_half as is_half_kind, is_bl as is_bl_instr, is_b as is_b_instr, is_mov as is_mov_instr, fits_kind as kind_fits};

use elf_model::RelocKind;
use thumb_instr::{Cond, Instr};

/// Whether what executes on a condition may not execute.
pub fn may_fail(c: Cond) -> bool
    ensures { result ≡ may_fail_on c }
{
    match c {
        Cond::Al => false,
        _ => true,
    }
}

/// A relocation of a word.
pub fn is_word(kind: RelocKind) -> bool
    ensures { result ≡ is_word_kind kind }
{
    match kind {
        RelocKind::Abs32 => true,
        RelocKind::Target1 => true,
        _ => false,
    }
}

/// A relocation of a branch or call.
pub fn is_jump(kind: RelocKind) -> bool
    ensures { result ≡ is_jump_kind kind }
{
    match kind {
        RelocKind::ThmCall => true,
        RelocKind::ThmJump24 => true,
        RelocKind::ThmJump19 => true,
        RelocKind::ThmJump11 => true,
        RelocKind::ThmJump8 => true,
        _ => false,
    }
}

/// A relocation of one half of an address.
pub fn is_half(kind: RelocKind) -> bool
    ensures { result ≡ is_half_kind kind }
{
    match kind {
        RelocKind::MovwAbs => true,
        RelocKind::MovtAbs => true,
        _ => false,
    }
}

/// BL.
fn is_bl(i: &Instr) -> bool
    ensures { result ≡ is_bl_instr i.now }
{
    match i {
        Instr::Call(_) => true,
        _ => false,
    }
}

/// B with or without a condition.
fn is_b(conditional: bool, i: &Instr) -> bool
    ensures { result ≡ is_b_instr conditional i.now }
{
    match i {
        Instr::Branch(i) => may_fail(i.cond) == conditional,
        _ => false,
    }
}

/// MOVT or MOVW.
fn is_mov(top: bool, i: &Instr) -> bool
    ensures { result ≡ is_mov_instr top i.now }
{
    match i {
        Instr::Half(i) => i.top == top,
        _ => false,
    }
}

/// Whether an instruction, long or not, is the one that a kind of relocation is of.
pub(crate) fn fits_kind(kind: RelocKind, long: bool, i: &Instr) -> bool
    ensures { result ≡ kind_fits kind long i.now }
{
    match kind {
        RelocKind::Abs32 => false,
        RelocKind::Target1 => false,
        RelocKind::ThmCall => is_bl(i),
        RelocKind::ThmJump24 => long && is_b(false, i),
        RelocKind::MovwAbs => is_mov(false, i),
        RelocKind::MovtAbs => is_mov(true, i),
        RelocKind::ThmJump19 => long && is_b(true, i),
        RelocKind::ThmJump11 => !long && is_b(false, i),
        RelocKind::ThmJump8 => !long && is_b(true, i),
        RelocKind::Other(_) => false,
    }
}
