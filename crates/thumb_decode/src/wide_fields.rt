//! Plain numbers and fields of bits, of two halfwords (ARMv7-M ARM, A5.3.3).

ghost use Rattle.std.specs.Prelude.{◌≡◌, ℕ, ◌+◌, ◌-◌, ◌*◌, ◌/◌, ◌%◌, ◌^◌, ◌<◌, [], ◌∷◌};
ghost use Rattle.thumb_instr.specs.Meanings.{half};
ghost use Rattle.thumb_instr.specs.Patterns.{decoded};
ghost use Rattle.thumb_instr.specs.FullRows.{on_plain, wide_row, extract, insert};
ghost use Rattle.thumb_decode.specs.KnownBits.{full_group_with};

use crate::making::{adr, field, half, pair_bits, wide};
use crate::registers::{first_bits, is_sp, register};
use thumb_instr::{BadInstr, FieldOp, Instr, ItPlace, WideOp};

/// ADR, or ADDW and SUBW, where sp is made of sp alone.
#[tactic(auto, unfolding(thumb_instr::specs::FullRows::wide_row))]
fn wide_row(op: WideOp, up: bool, n: u16, d: u16, imm: u16) -> Result<Instr, BadInstr>
    requires n { n < 16 }
    requires d { d < 16 }
    ensures { result ≡ wide_row op up n d imm }
{
    let d = register(d)?;
    if n == 15 {
        if is_sp(d) {
            Err(BadInstr::Unpredictable)
        } else {
            adr(d, up, imm)
        }
    } else {
        let n = register(n)?;
        if is_sp(d) && !is_sp(n) {
            Err(BadInstr::Unpredictable)
        } else {
            wide(op, d, n, imm)
        }
    }
}

/// MOVW and MOVT.
fn half_row(top: bool, d: u16, imm: u16) -> Result<Instr, BadInstr>
    requires { d < 16 }
    ensures { result ≡ on_plain (d ∷ []) (half top d imm) }
{
    let d = register(d)?;
    if is_sp(d) {
        Err(BadInstr::Unpredictable)
    } else {
        half(top, d, imm)
    }
}

/// SBFX and UBFX.
#[tactic(auto, unfolding(thumb_instr::specs::FullRows::extract))]
fn extract(op: FieldOp, n: u16, d: u16, lsb: u16, w: u16) -> Result<Instr, BadInstr>
    requires n { n < 16 }
    requires d { d < 16 }
    requires lsb { lsb < 32 }
    requires w { w < 32 }
    ensures { result ≡ extract op n d lsb w }
{
    let d = register(d)?;
    let n = register(n)?;
    if is_sp(d) || is_sp(n) {
        Err(BadInstr::Unpredictable)
    } else {
        field(op, d, Some(n), lsb as u8, w as u8 + 1)
    }
}

/// BFC, or BFI: up to bit `w`.
#[tactic(auto, unfolding(thumb_instr::specs::FullRows::insert))]
fn insert(n: u16, d: u16, lsb: u16, w: u16) -> Result<Instr, BadInstr>
    requires n { n < 16 }
    requires d { d < 16 }
    requires lsb { lsb < 32 }
    requires w { w < 32 }
    ensures { result ≡ insert n d lsb w }
{
    let d = register(d)?;
    if n == 15 {
        if is_sp(d) || w < lsb {
            Err(BadInstr::Unpredictable)
        } else {
            field(FieldOp::Bfc, d, None, lsb as u8, (w - lsb + 1) as u8)
        }
    } else {
        let n = register(n)?;
        if is_sp(d) || is_sp(n) || w < lsb {
            Err(BadInstr::Unpredictable)
        } else {
            field(FieldOp::Bfi, d, Some(n), lsb as u8, (w - lsb + 1) as u8)
        }
    }
}

/// ADDW, SUBW, ADR, MOVW and MOVT.
#[tactic(auto, unfolding(crate::specs::KnownBits::full_group_with, crate::specs::Groups::full_group, thumb_instr::specs::FullRows::full_rows))]
pub(crate) fn number_form(h: u32, place: ItPlace) -> Result<Instr, BadInstr>
    requires top { h / 2 ^ 27 % 2 ^ 5 ≡ 30 }
    requires number { h / 2 ^ 24 % 2 ^ 2 ≡ 2 }
    requires second { h / 2 ^ 15 % 2 ^ 1 ≡ 0 }
    ensures { result ≡ decoded 32 (full_group_with 5 30 ((25, 1) ∷ (24, 0) ∷ (15, 0) ∷ []) place) h }
{
    let imm12 = 2048 * pair_bits(h, 26, 1) + 256 * pair_bits(h, 12, 3) + pair_bits(h, 0, 8);
    let n = pair_bits(h, 16, 4);
    let d = pair_bits(h, 8, 4);
    match pair_bits(h, 20, 6) {
        32 => wide_row(WideOp::Add, true, n, d, imm12),
        42 => wide_row(WideOp::Sub, false, n, d, imm12),
        36 => half_row(false, d, 4096 * n + imm12),
        44 => half_row(true, d, 4096 * n + imm12),
        _ => Err(BadInstr::Unknown),
    }
}

/// SBFX, UBFX, BFI and BFC, and other control where the first halfword is F3BF.
#[tactic(auto, unfolding(crate::specs::KnownBits::full_group_with, crate::specs::Groups::full_group, thumb_instr::specs::FullRows::full_rows))]
pub(crate) fn field_form(h: u32, place: ItPlace) -> Result<Instr, BadInstr>
    requires top { h / 2 ^ 27 % 2 ^ 5 ≡ 30 }
    requires number { h / 2 ^ 24 % 2 ^ 2 ≡ 3 }
    requires second { h / 2 ^ 15 % 2 ^ 1 ≡ 0 }
    ensures { result ≡ decoded 32 (full_group_with 5 30 ((25, 1) ∷ (24, 1) ∷ (15, 0) ∷ []) place) h }
{
    if first_bits(h, 16) == 0xF3BF {
        return Err(BadInstr::SystemInstr);
    }
    if pair_bits(h, 5, 1) != 0 {
        return Err(BadInstr::Unknown);
    }
    let n = pair_bits(h, 16, 4);
    let d = pair_bits(h, 8, 4);
    let lsb = 4 * pair_bits(h, 12, 3) + pair_bits(h, 6, 2);
    let w = pair_bits(h, 0, 5);
    match first_bits(h, 20) {
        0xF34 => extract(FieldOp::Sbfx, n, d, lsb, w),
        0xF3C => extract(FieldOp::Ubfx, n, d, lsb, w),
        0xF36 => insert(n, d, lsb, w),
        _ => Err(BadInstr::Unknown),
    }
}
