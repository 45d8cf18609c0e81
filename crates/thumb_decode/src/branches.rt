//! Branches and calls of two halfwords (ARMv7-M ARM, A5.3.4).

ghost use Rattle.std.specs.Prelude.{◌≡◌, ℕ, ◌+◌, ◌-◌, ◌*◌, ◌/◌, ◌%◌, ◌^◌, ◌<◌, ◌==◌, [], ◌∷◌};
ghost use Rattle.thumb_instr.specs.Patterns.{decoded};
ghost use Rattle.mark_word.specs.Formulas.{one_if};
ghost use Rattle.thumb_instr.specs.FullRows.{on_condition_branch, long_offset};
ghost use Rattle.thumb_decode.specs.KnownBits.{full_group_with};

use crate::making::{branch, call, cond_of, inside, outside, pair_bits, signed_of};
use thumb_instr::{BadInstr, Cond, Instr, ItPlace};

/// B with a condition, which stands in no IT block.
#[tactic(auto, unfolding(thumb_instr::specs::FullRows::on_condition_branch))]
fn on_condition_branch(place: ItPlace, c: u16, offset: u32) -> Result<Instr, BadInstr>
    requires c { c < 16 }
    requires offset { offset < 2 ^ 21 }
    ensures { result ≡ on_condition_branch place c offset }
{
    if c >= 14 {
        return Err(BadInstr::Unknown);
    }
    if !outside(place) {
        return Err(BadInstr::Unpredictable);
    }
    match cond_of(c) {
        Some(cond) => branch(cond, signed_of(21, offset)),
        None => Err(BadInstr::Unpredictable),
    }
}

/// A bit of the offset of a long branch, which is set where that of the code is the sign.
fn offset_bit(bit: u16, sign: u16) -> u32
    requires bit { bit < 2 }
    requires sign { sign < 2 }
    ensures value { result ≡ one_if (bit == sign) }
    ensures below { result < 2 }
{
    if bit == sign { 1 } else { 0 }
}

/// The offset of a long branch.
fn long_offset(s: u16, i10: u16, j: u16, k: u16, i11: u16) -> u32
    requires s { s < 2 }
    requires i10 { i10 < 1024 }
    requires j { j < 2 }
    requires k { k < 2 }
    requires i11 { i11 < 2048 }
    ensures value { result ≡ long_offset s i10 j k i11 }
    ensures below { result < 2 ^ 25 }
{
    (s as u32) * 0x100_0000
        + offset_bit(j, s) * 0x80_0000
        + offset_bit(k, s) * 0x40_0000
        + (i10 as u32) * 0x1000
        + 2 * (i11 as u32)
}

/// B and BL, which end their IT block.
#[tactic(auto, unfolding(crate::specs::KnownBits::full_group_with, crate::specs::Groups::full_group, thumb_instr::specs::FullRows::full_rows))]
pub(crate) fn long_branch(h: u32, place: ItPlace) -> Result<Instr, BadInstr>
    requires top { h / 2 ^ 27 % 2 ^ 5 ≡ 30 }
    requires second { h / 2 ^ 15 % 2 ^ 1 ≡ 1 }
    requires long { h / 2 ^ 12 % 2 ^ 1 ≡ 1 }
    ensures { result ≡ decoded 32 (full_group_with 5 30 ((15, 1) ∷ (12, 1) ∷ []) place) h }
{
    if inside(place) {
        return Err(BadInstr::Unpredictable);
    }
    let offset = long_offset(
        pair_bits(h, 26, 1),
        pair_bits(h, 16, 10),
        pair_bits(h, 13, 1),
        pair_bits(h, 11, 1),
        pair_bits(h, 0, 11),
    );
    if pair_bits(h, 14, 1) == 0 {
        branch(Cond::Al, signed_of(25, offset))
    } else {
        call(signed_of(25, offset))
    }
}

/// B with a condition by its fields.
#[tactic(auto)]
pub(crate) fn condition_form(h: u32, place: ItPlace) -> Result<Instr, BadInstr>
    ensures { result ≡ on_condition_branch place (h / 2 ^ 22 % 2 ^ 4) (2 ^ 20 * (h / 2 ^ 26 % 2 ^ 1) + 2 ^ 19 * (h / 2 ^ 11 % 2 ^ 1) + 2 ^ 18 * (h / 2 ^ 13 % 2 ^ 1) + 2 ^ 12 * (h / 2 ^ 16 % 2 ^ 6) + 2 * (h / 2 ^ 0 % 2 ^ 11)) }
{
    let offset = pair_bits(h, 26, 1) as u32 * 0x10_0000
        + pair_bits(h, 11, 1) as u32 * 0x8_0000
        + pair_bits(h, 13, 1) as u32 * 0x4_0000
        + pair_bits(h, 16, 6) as u32 * 0x1000
        + 2 * pair_bits(h, 0, 11) as u32;
    on_condition_branch(place, pair_bits(h, 22, 4), offset)
}
