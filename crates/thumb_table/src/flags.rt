//! Results in registers, and their flags.

ghost use Rattle.std.specs.Prelude.{◌≡◌, [], ◌∷◌, Err, OnOk, IfErr};
ghost use Rattle.mark_word.specs.Words.{plain};
ghost use Rattle.thumb_instr.specs.Blocks.{it_after as it_after_of};
ghost use Rattle.thumb_table.specs.States.{upright, or_old};
ghost use Rattle.thumb_table.specs.Effects.{writing, with_flags, with_sign, two_words};
ghost use Rattle.thumb_table.specs.Results.{flagged, signed_by};
ghost use Rattle.thumb_table.specs.Views.{SettlesTo, with_regs};

use crate::cores::{fall, is_askew};
use crate::values::{Computed, is_negative};
use crate::{Core, FaultKind};
use mark_word::Word;
use thumb_instr::Reg;

/// A flag that is new, or as it was.
fn new_or_old(new: Option<bool>, old: bool) -> bool
    ensures { result ≡ or_old new old }
{
    match new {
        Some(flag) => flag,
        None => old,
    }
}

/// Sets N and Z, C where there is a carry, and V of a sum.
pub(crate) fn set_flags(sets: bool, r: &Computed, s: &mut Core)
    ensures { s.new ≡ flagged sets r.now s.old }
{
    if sets {
        s.n = is_negative(r.value());
        s.z = r.value() == 0;
        s.c = new_or_old(r.carry(), s.c);
        s.v = new_or_old(r.overflow(), s.v);
    }
}

/// Sets N and Z.
fn set_sign(sets: bool, bits: u32, s: &mut Core)
    ensures { s.new ≡ signed_by sets bits s.old }
{
    if sets {
        s.n = is_negative(bits);
        s.z = bits == 0;
    }
}

/// Writes a register and falls to the next instruction.
fn put(d: Reg, w: Word, next: u32, s: &mut Core)
    ensures { s.new ≡ with_regs ((d, w) ∷ []) next (it_after_of s.old.it) s.old }
{
    s.r[d.number() as usize] = w;
    fall(next, s);
}

/// Writes a word, unless sp would be askew.
pub(crate) fn write_word(d: Reg, w: Word, next: u32, s: &mut Core) -> Result<(), FaultKind>
    ensures done { OnOk result (SettlesTo (upright (writing ((d, w) ∷ []))) next s.old s.new) }
    ensures fault { IfErr result (λ kind. (upright (writing ((d, w) ∷ [])) ≡ Err kind) × (s.new ≡ s.old)) }
{
    if is_askew(d, w) {
        return Err(FaultKind::BadStack);
    }
    put(d, w, next, s);
    Ok(())
}

/// Writes a word and the flags of a result.
pub(crate) fn write_flagged(
    sets: bool,
    r: &Computed,
    d: Reg,
    w: Word,
    next: u32,
    s: &mut Core,
) -> Result<(), FaultKind>
    ensures done { OnOk result (SettlesTo (upright (with_flags sets r.now (writing ((d, w) ∷ [])))) next s.old s.new) }
    ensures fault { IfErr result (λ kind. (upright (with_flags sets r.now (writing ((d, w) ∷ []))) ≡ Err kind) × (s.new ≡ s.old)) }
{
    if is_askew(d, w) {
        return Err(FaultKind::BadStack);
    }
    put(d, w, next, s);
    set_flags(sets, r, s);
    Ok(())
}

/// Writes a number and its sign.
pub(crate) fn write_signed(
    sets: bool,
    d: Reg,
    bits: u32,
    next: u32,
    s: &mut Core,
) -> Result<(), FaultKind>
    ensures done { OnOk result (SettlesTo (upright (with_sign sets bits (writing ((d, plain bits) ∷ [])))) next s.old s.new) }
    ensures fault { IfErr result (λ kind. (upright (with_sign sets bits (writing ((d, plain bits) ∷ []))) ≡ Err kind) × (s.new ≡ s.old)) }
{
    let w = Word::plain(bits);
    if is_askew(d, w) {
        return Err(FaultKind::BadStack);
    }
    put(d, w, next, s);
    set_sign(sets, bits, s);
    Ok(())
}

/// Writes the two words of a number of 64 bits.
pub(crate) fn write_two(
    lo: Reg,
    hi: Reg,
    product: u64,
    next: u32,
    s: &mut Core,
) -> Result<(), FaultKind>
    ensures done { OnOk result (SettlesTo (upright (two_words lo hi product)) next s.old s.new) }
    ensures fault { IfErr result (λ kind. (upright (two_words lo hi product) ≡ Err kind) × (s.new ≡ s.old)) }
{
    let low = Word::plain((product % 0x1_0000_0000) as u32);
    let high = Word::plain((product / 0x1_0000_0000) as u32);
    if is_askew(lo, low) || is_askew(hi, high) {
        return Err(FaultKind::BadStack);
    }
    s.r[lo.number() as usize] = low;
    put(hi, high, next, s);
    Ok(())
}
