//! Branches of one halfword.

ghost use Rattle.std.specs.Prelude.{◌≡◌, ◌+◌, ◌*◌, ◌/◌, ◌%◌, ◌^◌, ◌<◌, ◌==◌, if◌then◌else◌};
ghost use Rattle.thumb_instr.specs.Patterns.{decoded};
ghost use Rattle.thumb_instr.specs.HalfRows.{leaving, short_branch};
ghost use Rattle.thumb_instr.specs.Meanings.{call_reg, jump};
ghost use Rattle.thumb_decode.specs.Groups.{half_group};

use crate::making::{
    bits, branch, call_reg, cond_of, inside, jump, outside, reg_of, signed_of, trap,
};
use thumb_instr::{BadInstr, Cond, Instr, ItPlace};

/// A jump to a register, or a call.
pub(crate) fn exchange(calls: u16, m: u16, place: ItPlace) -> Result<Instr, BadInstr>
    requires calls { calls < 2 }
    requires m { m < 16 }
    ensures { result ≡ (if calls == 0 then leaving place m (jump m) else leaving place m (call_reg m)) }
{
    match reg_of(m) {
        Some(to) => {
            if inside(place) {
                Err(BadInstr::Unpredictable)
            } else if calls == 0 {
                jump(to)
            } else {
                call_reg(to)
            }
        }
        None => Err(BadInstr::PcOperand),
    }
}

fn short_branch(place: ItPlace, c: u16, i: u16) -> Result<Instr, BadInstr>
    requires c { c < 16 }
    requires i { i < 256 }
    ensures { result ≡ short_branch place c i }
{
    if c == 14 {
        return trap(i);
    }
    match cond_of(c) {
        Some(cond) => {
            if outside(place) {
                branch(cond, signed_of(9, 2 * i as u32))
            } else {
                Err(BadInstr::Unpredictable)
            }
        }
        None => Err(BadInstr::SupervisorCall),
    }
}

/// A branch on a condition, a trap, or a supervisor call.
#[tactic(auto, unfolding(crate::specs::Groups::half_group, thumb_instr::specs::HalfRows::half_rows))]
pub(crate) fn on_condition(h: u16, place: ItPlace) -> Result<Instr, BadInstr>
    requires { h / 2 ^ 12 % 2 ^ 4 ≡ 13 }
    ensures { result ≡ decoded 16 (half_group 4 13 place) h }
{
    short_branch(place, bits(h, 8, 4), bits(h, 0, 8))
}

/// A branch that is always taken.
#[tactic(auto, unfolding(crate::specs::Groups::half_group, thumb_instr::specs::HalfRows::half_rows))]
pub(crate) fn branch_always(h: u16, place: ItPlace) -> Result<Instr, BadInstr>
    requires { h / 2 ^ 12 % 2 ^ 4 ≡ 14 }
    ensures { result ≡ decoded 16 (half_group 4 14 place) h }
{
    if bits(h, 11, 1) == 1 {
        Err(BadInstr::Unknown)
    } else if inside(place) {
        Err(BadInstr::Unpredictable)
    } else {
        branch(Cond::Al, signed_of(12, 2 * bits(h, 0, 11) as u32))
    }
}
