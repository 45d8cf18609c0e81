//! Loads and stores of one halfword.

ghost use Rattle.std.specs.Prelude.{◌≡◌, ◌/◌, ◌%◌, ◌^◌, true};
ghost use Rattle.thumb_instr.specs.Patterns.{decoded};
ghost use Rattle.thumb_instr.specs.HalfRows.{store_many};
ghost use Rattle.thumb_decode.specs.Groups.{half_group};

use crate::making::{access, bits, has, inside, literal, low_reg, multi, sp};
use thumb_instr::{AccessOp, BadInstr, Instr, ItPlace, Place, Reg};

/// A load of a word of the code.
#[tactic(auto, unfolding(crate::specs::Groups::half_group, thumb_instr::specs::HalfRows::half_rows))]
pub(crate) fn load_literal(h: u16, place: ItPlace) -> Result<Instr, BadInstr>
    requires { h / 2 ^ 11 % 2 ^ 5 ≡ 9 }
    ensures { result ≡ decoded 16 (half_group 5 9 place) h }
{
    literal(low_reg(h, 8), true, 4 * bits(h, 0, 8))
}

/// Accesses at a base and an index.
#[tactic(auto, unfolding(crate::specs::Groups::half_group, thumb_instr::specs::HalfRows::half_rows))]
pub(crate) fn by_index(h: u16, place: ItPlace) -> Result<Instr, BadInstr>
    requires { h / 2 ^ 12 % 2 ^ 4 ≡ 5 }
    ensures { result ≡ decoded 16 (half_group 4 5 place) h }
{
    let t = low_reg(h, 0);
    let n = low_reg(h, 3);
    let at = Place::Index {
        m: low_reg(h, 6),
        shift: 0,
    };
    match bits(h, 9, 3) {
        0 => access(AccessOp::Str, t, n, at),
        1 => access(AccessOp::Strh, t, n, at),
        2 => access(AccessOp::Strb, t, n, at),
        3 => access(AccessOp::Ldrsb, t, n, at),
        4 => access(AccessOp::Ldr, t, n, at),
        5 => access(AccessOp::Ldrh, t, n, at),
        6 => access(AccessOp::Ldrb, t, n, at),
        _ => access(AccessOp::Ldrsh, t, n, at),
    }
}

fn above(imm: u16) -> Place
    ensures { result ≡ Place.Offset true imm }
{
    Place::Offset { up: true, imm }
}

/// Accesses of words and bytes above a base.
#[tactic(auto, unfolding(crate::specs::Groups::half_group, thumb_instr::specs::HalfRows::half_rows))]
pub(crate) fn by_offset(h: u16, place: ItPlace) -> Result<Instr, BadInstr>
    requires { h / 2 ^ 13 % 2 ^ 3 ≡ 3 }
    ensures { result ≡ decoded 16 (half_group 3 3 place) h }
{
    let t = low_reg(h, 0);
    let n = low_reg(h, 3);
    let i = bits(h, 6, 5);
    match bits(h, 11, 2) {
        0 => access(AccessOp::Str, t, n, above(4 * i)),
        1 => access(AccessOp::Ldr, t, n, above(4 * i)),
        2 => access(AccessOp::Strb, t, n, above(i)),
        _ => access(AccessOp::Ldrb, t, n, above(i)),
    }
}

/// Accesses of halfwords above a base.
#[tactic(auto, unfolding(crate::specs::Groups::half_group, thumb_instr::specs::HalfRows::half_rows))]
pub(crate) fn halfword(h: u16, place: ItPlace) -> Result<Instr, BadInstr>
    requires { h / 2 ^ 12 % 2 ^ 4 ≡ 8 }
    ensures { result ≡ decoded 16 (half_group 4 8 place) h }
{
    let t = low_reg(h, 0);
    let n = low_reg(h, 3);
    let at = above(2 * bits(h, 6, 5));
    if bits(h, 11, 1) == 0 {
        access(AccessOp::Strh, t, n, at)
    } else {
        access(AccessOp::Ldrh, t, n, at)
    }
}

/// Accesses of words above sp.
#[tactic(auto, unfolding(crate::specs::Groups::half_group, thumb_instr::specs::HalfRows::half_rows))]
pub(crate) fn by_sp(h: u16, place: ItPlace) -> Result<Instr, BadInstr>
    requires { h / 2 ^ 12 % 2 ^ 4 ≡ 9 }
    ensures { result ≡ decoded 16 (half_group 4 9 place) h }
{
    let t = low_reg(h, 8);
    let at = above(4 * bits(h, 0, 8));
    if bits(h, 11, 1) == 0 {
        access(AccessOp::Str, t, sp(), at)
    } else {
        access(AccessOp::Ldr, t, sp(), at)
    }
}

fn store_many(n: Reg, list: u16) -> Result<Instr, BadInstr>
    ensures { result ≡ store_many n list }
{
    if has(list, n) {
        Err(BadInstr::Unpredictable)
    } else {
        multi(false, false, true, n, list, false)
    }
}

/// Transfers of several registers, upwards.
#[tactic(auto, unfolding(crate::specs::Groups::half_group, thumb_instr::specs::HalfRows::half_rows))]
pub(crate) fn many(h: u16, place: ItPlace) -> Result<Instr, BadInstr>
    requires { h / 2 ^ 12 % 2 ^ 4 ≡ 12 }
    ensures { result ≡ decoded 16 (half_group 4 12 place) h }
{
    let n = low_reg(h, 8);
    let list = bits(h, 0, 8);
    if bits(h, 11, 1) == 0 {
        store_many(n, list)
    } else {
        multi(true, false, !has(list, n), n, list, false)
    }
}

/// PUSH.
#[tactic(auto, unfolding(crate::specs::Groups::half_group, thumb_instr::specs::HalfRows::half_rows))]
pub(crate) fn push(h: u16, place: ItPlace) -> Result<Instr, BadInstr>
    requires { h / 2 ^ 9 % 2 ^ 7 ≡ 90 }
    ensures { result ≡ decoded 16 (half_group 7 90 place) h }
{
    let list = 16384 * bits(h, 8, 1) + bits(h, 0, 8);
    multi(false, true, true, sp(), list, false)
}

/// POP.
#[tactic(auto, unfolding(crate::specs::Groups::half_group, thumb_instr::specs::HalfRows::half_rows))]
pub(crate) fn pop(h: u16, place: ItPlace) -> Result<Instr, BadInstr>
    requires { h / 2 ^ 9 % 2 ^ 7 ≡ 94 }
    ensures { result ≡ decoded 16 (half_group 7 94 place) h }
{
    let pc = bits(h, 8, 1) == 1;
    if pc && inside(place) {
        Err(BadInstr::Unpredictable)
    } else {
        multi(true, false, true, sp(), bits(h, 0, 8), pc)
    }
}
