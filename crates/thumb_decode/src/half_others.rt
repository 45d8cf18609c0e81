//! The miscellaneous instructions of one halfword (ARMv7-M ARM, A5.2.5).

ghost use Rattle.std.specs.Prelude.{◌≡◌, ◌+◌, ◌*◌, ◌/◌, ◌%◌, ◌^◌, ◌<◌, ◌⊎◌};
ghost use Rattle.thumb_instr.specs.Patterns.{decoded};
ghost use Rattle.thumb_instr.specs.HalfRows.{half_rows, hint, if_then, is_one_bit};
ghost use Rattle.thumb_decode.specs.Groups.{half_group};

use crate::half_accesses::{pop, push};
use crate::making::{
    alu, bits, cond_of, constant_of, it, low_reg, nothing, outside, sp, unary, zero_branch,
};
use thumb_instr::{AluOp, BadInstr, Instr, ItPlace, NothingOp, Operand, UnaryOp};

/// The miscellaneous instructions.
pub(crate) fn others(h: u16, place: ItPlace) -> Result<Instr, BadInstr>
    requires { h / 2 ^ 12 % 2 ^ 4 ≡ 11 }
    ensures { result ≡ decoded 16 (half_rows place) h }
{
    match bits(h, 8, 4) {
        0 => move_sp(h, place),
        1 => on_zero(h, place),
        2 => extension(h, place),
        3 => on_zero(h, place),
        4 => push(h, place),
        5 => push(h, place),
        6 => change_state(h, place),
        7 => no_other(h, place),
        8 => no_other(h, place),
        9 => on_zero(h, place),
        10 => order(h, place),
        11 => on_zero(h, place),
        12 => pop(h, place),
        13 => pop(h, place),
        14 => breakpoint(h, place),
        15 => block(h, place),
        _ => unreachable!(),
    }
}

#[tactic(auto, unfolding(crate::specs::Groups::half_group, thumb_instr::specs::HalfRows::half_rows))]
fn move_sp(h: u16, place: ItPlace) -> Result<Instr, BadInstr>
    requires { h / 2 ^ 8 % 2 ^ 8 ≡ 176 }
    ensures { result ≡ decoded 16 (half_group 8 176 place) h }
{
    let x = Operand::Imm(constant_of(4 * bits(h, 0, 7)));
    if bits(h, 7, 1) == 0 {
        alu(AluOp::Add, false, sp(), sp(), x)
    } else {
        alu(AluOp::Sub, false, sp(), sp(), x)
    }
}

#[tactic(auto, unfolding(crate::specs::Groups::half_group, thumb_instr::specs::HalfRows::half_rows))]
fn on_zero(h: u16, place: ItPlace) -> Result<Instr, BadInstr>
    requires top { h / 2 ^ 12 % 2 ^ 4 ≡ 11 }
    requires clear { h / 2 ^ 10 % 2 ^ 1 ≡ 0 }
    requires set { h / 2 ^ 8 % 2 ^ 1 ≡ 1 }
    ensures { result ≡ decoded 16 (half_group 4 11 place) h }
{
    if outside(place) {
        zero_branch(
            bits(h, 11, 1) == 1,
            low_reg(h, 0),
            2 * (32 * bits(h, 9, 1) + bits(h, 3, 5)),
        )
    } else {
        Err(BadInstr::Unpredictable)
    }
}

#[tactic(auto, unfolding(crate::specs::Groups::half_group, thumb_instr::specs::HalfRows::half_rows))]
fn extension(h: u16, place: ItPlace) -> Result<Instr, BadInstr>
    requires { h / 2 ^ 8 % 2 ^ 8 ≡ 178 }
    ensures { result ≡ decoded 16 (half_group 8 178 place) h }
{
    let m = low_reg(h, 3);
    let d = low_reg(h, 0);
    match bits(h, 6, 2) {
        0 => unary(UnaryOp::Sxth, d, m, 0),
        1 => unary(UnaryOp::Sxtb, d, m, 0),
        2 => unary(UnaryOp::Uxth, d, m, 0),
        _ => unary(UnaryOp::Uxtb, d, m, 0),
    }
}

#[tactic(auto, unfolding(crate::specs::Groups::half_group, thumb_instr::specs::HalfRows::half_rows))]
fn order(h: u16, place: ItPlace) -> Result<Instr, BadInstr>
    requires { h / 2 ^ 8 % 2 ^ 8 ≡ 186 }
    ensures { result ≡ decoded 16 (half_group 8 186 place) h }
{
    let m = low_reg(h, 3);
    let d = low_reg(h, 0);
    match bits(h, 6, 2) {
        0 => unary(UnaryOp::Rev, d, m, 0),
        1 => unary(UnaryOp::Rev16, d, m, 0),
        3 => unary(UnaryOp::Revsh, d, m, 0),
        _ => Err(BadInstr::Unknown),
    }
}

#[tactic(auto, unfolding(crate::specs::Groups::half_group, thumb_instr::specs::HalfRows::half_rows))]
fn change_state(h: u16, place: ItPlace) -> Result<Instr, BadInstr>
    requires { h / 2 ^ 8 % 2 ^ 8 ≡ 182 }
    ensures { result ≡ decoded 16 (half_group 8 182 place) h }
{
    if bits(h, 5, 3) == 3 {
        Err(BadInstr::SystemInstr)
    } else {
        Err(BadInstr::Unknown)
    }
}

#[tactic(auto, unfolding(crate::specs::Groups::half_group, thumb_instr::specs::HalfRows::half_rows))]
fn breakpoint(h: u16, place: ItPlace) -> Result<Instr, BadInstr>
    requires { h / 2 ^ 8 % 2 ^ 8 ≡ 190 }
    ensures { result ≡ decoded 16 (half_group 8 190 place) h }
{
    Err(BadInstr::SystemInstr)
}

fn no_other(h: u16, place: ItPlace) -> Result<Instr, BadInstr>
    requires { h / 2 ^ 8 % 2 ^ 8 ≡ 183 ⊎ h / 2 ^ 8 % 2 ^ 8 ≡ 184 }
    ensures { result ≡ decoded 16 (half_rows place) h }
{
    Err(BadInstr::Unknown)
}

/// Hints, and IT.
#[tactic(auto, unfolding(crate::specs::Groups::half_group, thumb_instr::specs::HalfRows::half_rows))]
fn block(h: u16, place: ItPlace) -> Result<Instr, BadInstr>
    requires { h / 2 ^ 8 % 2 ^ 8 ≡ 191 }
    ensures { result ≡ decoded 16 (half_group 8 191 place) h }
{
    let c = bits(h, 4, 4);
    let mask = bits(h, 0, 4);
    if mask == 0 {
        hint(c)
    } else {
        if_then(place, c, mask)
    }
}

fn hint(c: u16) -> Result<Instr, BadInstr>
    ensures { result ≡ hint c }
{
    match c {
        0 => nothing(NothingOp::Nop, 0),
        1..=4 => Err(BadInstr::SystemInstr),
        _ => Err(BadInstr::Unknown),
    }
}

fn is_one_bit(mask: u16) -> bool
    ensures { result ≡ is_one_bit mask }
{
    mask == 1 || mask == 2 || mask == 4 || mask == 8
}

fn if_then(place: ItPlace, c: u16, mask: u16) -> Result<Instr, BadInstr>
    requires c { c < 16 }
    requires mask { mask < 16 }
    ensures { result ≡ if_then place c mask }
{
    if !outside(place) || (c == 14 && !is_one_bit(mask)) {
        return Err(BadInstr::Unpredictable);
    }
    match cond_of(c) {
        Some(first) => it(first, mask as u8),
        None => Err(BadInstr::Unpredictable),
    }
}
