//! Loads and stores of many registers and of two (ARMv7-M ARM, A5.3.5 and A5.3.6).

ghost use Rattle.std.specs.Prelude.{◌≡◌, ℕ, ◌+◌, ◌*◌, ◌/◌, ◌%◌, ◌^◌, ◌<◌, ◌≤◌, ◌==◌, ◌&&◌, ◌||◌, nat_lt, not};
ghost use Rattle.thumb_instr.specs.Patterns.{decoded};
ghost use Rattle.thumb_instr.specs.Operands.{has};
ghost use Rattle.thumb_instr.specs.Meanings.{is_inside};
ghost use Rattle.mark_word.specs.Formulas.{one_if};
ghost use Rattle.thumb_instr.specs.FullRows.{members, many, two_words, dual, exclusive};
ghost use Rattle.thumb_decode.specs.Groups.{full_group};

use crate::making::{has, inside, multi, pair, pair_bits};
use crate::registers::{is_sp, register};
use thumb_instr::{BadInstr, Instr, ItPlace, PairIndex, Reg};

/// How many of the lowest `k` bits are set.
fn members(k: u16, bits: u16) -> u16
    ensures value { result ≡ members k bits }
    ensures bound { result ≤ k }
{
    if k == 0 {
        0
    } else {
        bits % 2 + members(k - 1, bits / 2)
    }
}

/// Whether fewer than two registers are transferred.
fn has_fewer_than_two(list: u16, pc: bool) -> bool
    ensures { result ≡ nat_lt (members 15 list + one_if pc) 2 }
{
    let registers = members(15, list);
    if pc { registers < 1 } else { registers < 2 }
}

/// Whether a list may not be transferred.
fn is_unpredictable_list(place: ItPlace, back: bool, n: Reg, list: u16, pc: bool) -> bool
    ensures { result ≡ ((pc && is_inside place) || nat_lt (members 15 list + one_if pc) 2 || (pc && has list 14) || (back && has list n)) }
{
    let lr = Reg::new(14).unwrap();
    pc && inside(place)
        || has_fewer_than_two(list, pc)
        || pc && has(list, lr)
        || back && has(list, n)
}

/// LDM and STM. pc is loaded by a pop alone.
#[tactic(auto, unfolding(thumb_instr::specs::FullRows::many))]
fn many(
    place: ItPlace,
    load: bool,
    down: bool,
    back: bool,
    n: u16,
    list: u16,
    pc: bool,
) -> Result<Instr, BadInstr>
    requires { n < 16 }
    ensures { result ≡ many place load down back n list pc }
{
    let n = register(n)?;
    let pops = load && !down && back && is_sp(n);
    if pc && !pops {
        return Err(BadInstr::PcOperand);
    }
    if is_unpredictable_list(place, back, n, list, pc) {
        return Err(BadInstr::Unpredictable);
    }
    multi(load, down, back, n, list, pc)
}

/// LDRD and STRD.
#[tactic(auto, unfolding(thumb_instr::specs::FullRows::two_words))]
fn two_words(
    load: bool,
    t: u16,
    u: u16,
    n: u16,
    up: bool,
    imm: u16,
    index: PairIndex,
    back: bool,
) -> Result<Instr, BadInstr>
    requires t { t < 16 }
    requires u { u < 16 }
    requires n { n < 16 }
    ensures { result ≡ two_words load t u n up imm index back }
{
    let same = t == u;
    let transferred = n == t || n == u;
    let t = register(t)?;
    let u = register(u)?;
    let n = register(n)?;
    if is_sp(t) || is_sp(u) || load && same || back && transferred {
        return Err(BadInstr::Unpredictable);
    }
    pair(load, t, u, n, up, imm, index)
}

/// TBB and TBH; else an exclusive access.
#[tactic(auto, unfolding(thumb_instr::specs::FullRows::exclusive))]
fn exclusive(u: u16, l: u16, t: u16, s: u16, i: u16) -> Result<Instr, BadInstr>
    ensures { result ≡ exclusive u l t s i }
{
    if u == 1 && l == 1 && t == 15 && s == 0 && i < 32 {
        Err(BadInstr::TableBranch)
    } else {
        Err(BadInstr::SystemInstr)
    }
}

/// LDRD, STRD, exclusive accesses and table branches by their fields.
#[tactic(auto, unfolding(thumb_instr::specs::FullRows::dual))]
fn dual(p: u16, u: u16, w: u16, l: u16, n: u16, t: u16, s: u16, i: u16) -> Result<Instr, BadInstr>
    requires t { t < 16 }
    requires s { s < 16 }
    requires n { n < 16 }
    requires i { i < 256 }
    ensures { result ≡ dual p u w l n t s i }
{
    let imm = 4 * i;
    if w == 1 {
        if p == 1 {
            two_words(l == 1, t, s, n, u == 1, imm, PairIndex::Pre, true)
        } else {
            two_words(l == 1, t, s, n, u == 1, imm, PairIndex::Post, true)
        }
    } else if p == 1 {
        two_words(l == 1, t, s, n, u == 1, imm, PairIndex::Offset, false)
    } else {
        exclusive(u, l, t, s, i)
    }
}

/// LDM, STM, LDRD, STRD, exclusive accesses and table branches.
#[tactic(auto, unfolding(crate::specs::Groups::full_group, thumb_instr::specs::FullRows::full_rows))]
pub(crate) fn multiple_form(h: u32, place: ItPlace) -> Result<Instr, BadInstr>
    requires { h / 2 ^ 25 % 2 ^ 7 ≡ 116 }
    ensures { result ≡ decoded 32 (full_group 7 116 place) h }
{
    let l = pair_bits(h, 20, 1);
    let w = pair_bits(h, 21, 1);
    let n = pair_bits(h, 16, 4);
    if pair_bits(h, 22, 1) == 1 {
        let t = pair_bits(h, 12, 4);
        let s = pair_bits(h, 8, 4);
        return dual(
            pair_bits(h, 24, 1),
            pair_bits(h, 23, 1),
            w,
            l,
            n,
            t,
            s,
            pair_bits(h, 0, 8),
        );
    }
    if pair_bits(h, 13, 1) != 0 {
        return Err(BadInstr::Unknown);
    }
    let list = 0x4000 * pair_bits(h, 14, 1) + pair_bits(h, 0, 13);
    let pc = pair_bits(h, 15, 1) == 1;
    match pair_bits(h, 22, 10) {
        930 => many(place, l == 1, false, w == 1, n, list, pc),
        932 => many(place, l == 1, true, w == 1, n, list, pc),
        _ => Err(BadInstr::Unknown),
    }
}
