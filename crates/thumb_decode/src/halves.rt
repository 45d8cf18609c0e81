//! Instructions of one halfword.

ghost use Rattle.std.specs.Prelude.{◌≡◌, ◌/◌, ◌%◌, ◌^◌};
ghost use Rattle.thumb_instr.specs.Patterns.{decoded};
ghost use Rattle.thumb_instr.specs.HalfRows.{half_rows};
ghost use Rattle.thumb_decode.specs.Groups.{half_group};

use crate::half_accesses::{by_index, by_offset, by_sp, halfword, load_literal, many};
use crate::half_arithmetic::{address, by_code, constants, shifted_move};
use crate::half_branches::{branch_always, on_condition};
use crate::half_others::others;
use crate::making::bits;
use thumb_instr::{BadInstr, Instr, ItPlace};

#[tactic(auto, unfolding(crate::specs::Groups::half_group, thumb_instr::specs::HalfRows::half_rows))]
fn none(h: u16, place: ItPlace) -> Result<Instr, BadInstr>
    requires { h / 2 ^ 12 % 2 ^ 4 ≡ 15 }
    ensures { result ≡ decoded 16 (half_group 4 15 place) h }
{
    Err(BadInstr::Unknown)
}

/// What a halfword stands for.
pub(crate) fn decode_half(h: u16, place: ItPlace) -> Result<Instr, BadInstr>
    ensures { result ≡ decoded 16 (half_rows place) h }
{
    match bits(h, 12, 4) {
        0 => shifted_move(h, place),
        1 => shifted_move(h, place),
        2 => constants(h, place),
        3 => constants(h, place),
        4 => {
            if bits(h, 11, 1) == 0 {
                by_code(h, place)
            } else {
                load_literal(h, place)
            }
        }
        5 => by_index(h, place),
        6 => by_offset(h, place),
        7 => by_offset(h, place),
        8 => halfword(h, place),
        9 => by_sp(h, place),
        10 => address(h, place),
        11 => others(h, place),
        12 => many(h, place),
        13 => on_condition(h, place),
        14 => branch_always(h, place),
        15 => none(h, place),
        _ => unreachable!(),
    }
}
