//! Instructions of two halfwords (ARMv7-M ARM, A5.3).

ghost use Rattle.std.specs.Prelude.{◌≡◌, ℕ, ◌+◌, ◌*◌, ◌/◌, ◌%◌, ◌^◌, ◌≤◌, true};
ghost use Rattle.thumb_instr.specs.Patterns.{decoded};
ghost use Rattle.thumb_instr.specs.FullRows.{full_rows};
ghost use Rattle.thumb_instr.specs.Rows.{is_wide};

use crate::branches::long_branch;
use crate::control::control_form;
use crate::data_processing::{constant_form, register_form};
use crate::making::pair_bits;
use crate::memory::memory_form;
use crate::multiple::multiple_form;
use crate::products::{long_form, order_form, product_form, shift_form};
use crate::wide_fields::{field_form, number_form};
use thumb_instr::{BadInstr, Instr, ItPlace};

/// Data processing with a constant, branches and control.
fn constants_and_branches(h: u32, place: ItPlace) -> Result<Instr, BadInstr>
    requires { h / 2 ^ 27 % 2 ^ 5 ≡ 30 }
    ensures { result ≡ decoded 32 (full_rows place) h }
{
    if pair_bits(h, 15, 1) == 0 {
        match pair_bits(h, 24, 2) {
            2 => number_form(h, place),
            3 => field_form(h, place),
            _ => constant_form(h, place),
        }
    } else if pair_bits(h, 12, 1) == 1 {
        long_branch(h, place)
    } else {
        control_form(h, place)
    }
}

/// Shifts, extensions, products and quotients.
fn of_registers(h: u32, place: ItPlace) -> Result<Instr, BadInstr>
    requires { h / 2 ^ 25 % 2 ^ 7 ≡ 125 }
    ensures { result ≡ decoded 32 (full_rows place) h }
{
    match pair_bits(h, 23, 2) {
        0 => shift_form(h, place),
        1 => order_form(h, place),
        2 => product_form(h, place),
        _ => long_form(h, place),
    }
}

/// What a pair of halfwords stands for, the first in the upper half.
fn decode_pair(h: u32, place: ItPlace) -> Result<Instr, BadInstr>
    requires { 29 * 2 ^ 27 ≤ h }
    ensures { result ≡ decoded 32 (full_rows place) h }
{
    match pair_bits(h, 25, 7) {
        116 => multiple_form(h, place),
        117 => register_form(h, place),
        118 => Err(BadInstr::Unknown),
        119 => Err(BadInstr::Unknown),
        120..=123 => constants_and_branches(h, place),
        124 => memory_form(h, place),
        125 => of_registers(h, place),
        126 => Err(BadInstr::Unknown),
        127 => Err(BadInstr::Unknown),
        _ => unreachable!(),
    }
}

/// What two halfwords stand for, the first of which begins an instruction of two.
pub(crate) fn decode_full(h1: u16, h2: u16, place: ItPlace) -> Result<Instr, BadInstr>
    requires { is_wide h1 ≡ true }
    ensures { result ≡ decoded 32 (full_rows place) (h1 * 2 ^ 16 + h2) }
{
    decode_pair(h1 as u32 * 0x1_0000 + h2 as u32, place)
}
