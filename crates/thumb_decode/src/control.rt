//! Hints, barriers and other control of two halfwords (ARMv7-M ARM, A5.3.4).

ghost use Rattle.std.specs.Prelude.{◌≡◌, ℕ, ◌+◌, ◌-◌, ◌*◌, ◌/◌, ◌%◌, ◌^◌, ◌<◌, ◌==◌, ◌&&◌, ◌||◌, [], ◌∷◌};
ghost use Rattle.thumb_instr.specs.Patterns.{decoded};
ghost use Rattle.thumb_decode.specs.KnownBits.{full_group_with};

use crate::branches::condition_form;
use crate::making::{nothing, pair_bits};
use crate::registers::first_bits;
use thumb_instr::{BadInstr, Instr, ItPlace, NothingOp};

/// Hints but NOP, other control, MSR and MRS.
fn is_system(h: u32) -> bool
    ensures { result ≡ ((h / 2 ^ 8 % 2 ^ 24 == 0xF3AF80) || (h / 2 ^ 16 % 2 ^ 16 == 0xF3BF) || ((h / 2 ^ 20 % 2 ^ 12 == 0xF38) && (h / 2 ^ 12 % 2 ^ 4 == 8)) || ((h / 2 ^ 16 % 2 ^ 16 == 0xF3EF) && (h / 2 ^ 12 % 2 ^ 4 == 8))) }
{
    let eight = pair_bits(h, 12, 4) == 8;
    first_bits(h, 8) == 0xF3AF80
        || first_bits(h, 16) == 0xF3BF
        || first_bits(h, 20) == 0xF38 && eight
        || first_bits(h, 16) == 0xF3EF && eight
}

/// Hints, barriers, MSR and MRS, and else B with a condition.
#[tactic(auto, unfolding(crate::specs::KnownBits::full_group_with, crate::specs::Groups::full_group, thumb_instr::specs::FullRows::full_rows))]
pub(crate) fn control_form(h: u32, place: ItPlace) -> Result<Instr, BadInstr>
    requires top { h / 2 ^ 27 % 2 ^ 5 ≡ 30 }
    requires second { h / 2 ^ 15 % 2 ^ 1 ≡ 1 }
    requires short { h / 2 ^ 12 % 2 ^ 1 ≡ 0 }
    ensures { result ≡ decoded 32 (full_group_with 5 30 ((15, 1) ∷ (12, 0) ∷ []) place) h }
{
    if h == 0xF3AF_8000 {
        return nothing(NothingOp::Nop, 0);
    }
    let option = pair_bits(h, 0, 4) as u8;
    match first_bits(h, 4) {
        0xF3BF_8F4 => return nothing(NothingOp::Dsb, option),
        0xF3BF_8F5 => return nothing(NothingOp::Dmb, option),
        0xF3BF_8F6 => return nothing(NothingOp::Isb, option),
        _ => (),
    }
    if is_system(h) {
        return Err(BadInstr::SystemInstr);
    }
    if pair_bits(h, 14, 1) == 0 {
        condition_form(h, place)
    } else {
        Err(BadInstr::Unknown)
    }
}
