//! Shifts, extensions, orders of bytes and bits, products and quotients of registers, of two halfwords
//! (ARMv7-M ARM, A5.3.12 to A5.3.17).

ghost use Rattle.std.specs.Prelude.{◌≡◌, ℕ, ◌+◌, ◌*◌, ◌/◌, ◌%◌, ◌^◌, ◌<◌, ◌==◌, not, true, false, [], ◌∷◌};
ghost use Rattle.thumb_instr.specs.Patterns.{decoded, refused};
ghost use Rattle.thumb_instr.specs.Meanings.{shift_by, unary, mul, mul_acc, long_mul, div};
ghost use Rattle.thumb_instr.specs.FullRows.{on_plain, shift_of, product};
ghost use Rattle.thumb_decode.specs.Groups.{full_group};

use crate::making::{div, long_mul, mul, mul_acc, pair_bits, shift_by, unary};
use crate::registers::{first_bits, is_sp, register};
use mark_word::Shift;
use thumb_instr::{BadInstr, Instr, ItPlace, LongMulOp, UnaryOp};

/// The shift of a number.
fn shift_of(k: u16) -> Shift
    requires { k < 4 }
    ensures { result ≡ shift_of k }
{
    match k {
        0 => Shift::Lsl,
        1 => Shift::Lsr,
        2 => Shift::Asr,
        _ => Shift::Ror,
    }
}

fn shift_row(kind: Shift, s: bool, d: u16, n: u16, m: u16) -> Result<Instr, BadInstr>
    requires d { d < 16 }
    requires n { n < 16 }
    requires m { m < 16 }
    ensures { result ≡ on_plain (d ∷ n ∷ m ∷ []) (shift_by kind s d n m) }
{
    let d = register(d)?;
    let n = register(n)?;
    let m = register(m)?;
    if is_sp(d) || is_sp(n) || is_sp(m) {
        Err(BadInstr::Unpredictable)
    } else {
        shift_by(kind, s, d, n, m)
    }
}

fn extension_row(op: UnaryOp, d: u16, m: u16, turn: u16) -> Result<Instr, BadInstr>
    requires d { d < 16 }
    requires m { m < 16 }
    requires turn { turn < 256 }
    ensures { result ≡ on_plain (d ∷ m ∷ []) (unary op d m turn) }
{
    let d = register(d)?;
    let m = register(m)?;
    if is_sp(d) || is_sp(m) {
        Err(BadInstr::Unpredictable)
    } else {
        unary(op, d, m, turn as u8)
    }
}

/// An order of bytes or bits, whose register stands twice.
fn order_row(op: UnaryOp, n: u16, d: u16, m: u16) -> Result<Instr, BadInstr>
    requires n { n < 16 }
    requires d { d < 16 }
    requires m { m < 16 }
    ensures { result ≡ on_plain (d ∷ m ∷ n ∷ []) (refused ((not (n == m), BadInstr.Unpredictable) ∷ []) (unary op d m 0)) }
{
    let same = n == m;
    let d = register(d)?;
    let m = register(m)?;
    let n = register(n)?;
    if is_sp(d) || is_sp(m) || is_sp(n) || !same {
        Err(BadInstr::Unpredictable)
    } else {
        unary(op, d, m, 0)
    }
}

fn sum_row(minus: bool, d: u16, n: u16, m: u16, a: u16) -> Result<Instr, BadInstr>
    requires d { d < 16 }
    requires n { n < 16 }
    requires m { m < 16 }
    requires a { a < 16 }
    ensures { result ≡ on_plain (d ∷ n ∷ m ∷ a ∷ []) (mul_acc minus d n m a) }
{
    let d = register(d)?;
    let n = register(n)?;
    let m = register(m)?;
    let a = register(a)?;
    if is_sp(d) || is_sp(n) || is_sp(m) || is_sp(a) {
        Err(BadInstr::Unpredictable)
    } else {
        mul_acc(minus, d, n, m, a)
    }
}

/// MUL, and MLA where there is something to add.
#[tactic(auto, unfolding(thumb_instr::specs::FullRows::product))]
fn product(n: u16, a: u16, d: u16, m: u16) -> Result<Instr, BadInstr>
    requires n { n < 16 }
    requires a { a < 16 }
    requires d { d < 16 }
    requires m { m < 16 }
    ensures { result ≡ product n a d m }
{
    if a != 15 {
        return sum_row(false, d, n, m, a);
    }
    let d = register(d)?;
    let n = register(n)?;
    let m = register(m)?;
    if is_sp(d) || is_sp(n) || is_sp(m) {
        Err(BadInstr::Unpredictable)
    } else {
        mul(false, d, n, m)
    }
}

fn long_row(op: LongMulOp, n: u16, lo: u16, hi: u16, m: u16) -> Result<Instr, BadInstr>
    requires n { n < 16 }
    requires lo { lo < 16 }
    requires hi { hi < 16 }
    requires m { m < 16 }
    ensures { result ≡ on_plain (lo ∷ hi ∷ n ∷ m ∷ []) (long_mul op lo hi n m) }
{
    let lo = register(lo)?;
    let hi = register(hi)?;
    let n = register(n)?;
    let m = register(m)?;
    if is_sp(lo) || is_sp(hi) || is_sp(n) || is_sp(m) {
        Err(BadInstr::Unpredictable)
    } else {
        long_mul(op, lo, hi, n, m)
    }
}

fn quotient_row(with_sign: bool, n: u16, d: u16, m: u16) -> Result<Instr, BadInstr>
    requires n { n < 16 }
    requires d { d < 16 }
    requires m { m < 16 }
    ensures { result ≡ on_plain (d ∷ n ∷ m ∷ []) (div with_sign d n m) }
{
    let d = register(d)?;
    let n = register(n)?;
    let m = register(m)?;
    if is_sp(d) || is_sp(n) || is_sp(m) {
        Err(BadInstr::Unpredictable)
    } else {
        div(with_sign, d, n, m)
    }
}

/// Shifts by a register, and extensions.
#[tactic(auto, unfolding(crate::specs::Groups::full_group, thumb_instr::specs::FullRows::full_rows))]
pub(crate) fn shift_form(h: u32, place: ItPlace) -> Result<Instr, BadInstr>
    requires { h / 2 ^ 23 % 2 ^ 9 ≡ 500 }
    ensures { result ≡ decoded 32 (full_group 9 500 place) h }
{
    if pair_bits(h, 12, 4) != 15 {
        return Err(BadInstr::Unknown);
    }
    let d = pair_bits(h, 8, 4);
    let m = pair_bits(h, 0, 4);
    if pair_bits(h, 4, 4) == 0 {
        let kind = shift_of(pair_bits(h, 21, 2));
        return shift_row(kind, pair_bits(h, 20, 1) == 1, d, pair_bits(h, 16, 4), m);
    }
    if pair_bits(h, 6, 2) != 2 {
        return Err(BadInstr::Unknown);
    }
    let turn = 8 * pair_bits(h, 4, 2);
    match first_bits(h, 16) {
        0xFA0F => extension_row(UnaryOp::Sxth, d, m, turn),
        0xFA1F => extension_row(UnaryOp::Uxth, d, m, turn),
        0xFA4F => extension_row(UnaryOp::Sxtb, d, m, turn),
        0xFA5F => extension_row(UnaryOp::Uxtb, d, m, turn),
        _ => Err(BadInstr::Unknown),
    }
}

/// Orders of bytes and bits.
#[tactic(auto, unfolding(crate::specs::Groups::full_group, thumb_instr::specs::FullRows::full_rows))]
pub(crate) fn order_form(h: u32, place: ItPlace) -> Result<Instr, BadInstr>
    requires { h / 2 ^ 23 % 2 ^ 9 ≡ 501 }
    ensures { result ≡ decoded 32 (full_group 9 501 place) h }
{
    if pair_bits(h, 12, 4) != 15 {
        return Err(BadInstr::Unknown);
    }
    let n = pair_bits(h, 16, 4);
    let d = pair_bits(h, 8, 4);
    let m = pair_bits(h, 0, 4);
    match (first_bits(h, 20), pair_bits(h, 4, 4)) {
        (0xFA9, 8) => order_row(UnaryOp::Rev, n, d, m),
        (0xFA9, 9) => order_row(UnaryOp::Rev16, n, d, m),
        (0xFA9, 10) => order_row(UnaryOp::Rbit, n, d, m),
        (0xFA9, 11) => order_row(UnaryOp::Revsh, n, d, m),
        (0xFAB, 8) => order_row(UnaryOp::Clz, n, d, m),
        _ => Err(BadInstr::Unknown),
    }
}

/// Products of 32 bits.
#[tactic(auto, unfolding(crate::specs::Groups::full_group, thumb_instr::specs::FullRows::full_rows))]
pub(crate) fn product_form(h: u32, place: ItPlace) -> Result<Instr, BadInstr>
    requires { h / 2 ^ 23 % 2 ^ 9 ≡ 502 }
    ensures { result ≡ decoded 32 (full_group 9 502 place) h }
{
    if first_bits(h, 20) != 0xFB0 {
        return Err(BadInstr::Unknown);
    }
    let n = pair_bits(h, 16, 4);
    let a = pair_bits(h, 12, 4);
    let d = pair_bits(h, 8, 4);
    let m = pair_bits(h, 0, 4);
    match pair_bits(h, 4, 4) {
        0 => product(n, a, d, m),
        1 => sum_row(true, d, n, m, a),
        _ => Err(BadInstr::Unknown),
    }
}

/// Products of 64 bits, and quotients.
#[tactic(auto, unfolding(crate::specs::Groups::full_group, thumb_instr::specs::FullRows::full_rows))]
pub(crate) fn long_form(h: u32, place: ItPlace) -> Result<Instr, BadInstr>
    requires { h / 2 ^ 23 % 2 ^ 9 ≡ 503 }
    ensures { result ≡ decoded 32 (full_group 9 503 place) h }
{
    let n = pair_bits(h, 16, 4);
    let lo = pair_bits(h, 12, 4);
    let hi = pair_bits(h, 8, 4);
    let m = pair_bits(h, 0, 4);
    match (first_bits(h, 20), pair_bits(h, 4, 4)) {
        (0xFB8, 0) => long_row(LongMulOp::Smull, n, lo, hi, m),
        (0xFBA, 0) => long_row(LongMulOp::Umull, n, lo, hi, m),
        (0xFBC, 0) => long_row(LongMulOp::Smlal, n, lo, hi, m),
        (0xFBE, 0) => long_row(LongMulOp::Umlal, n, lo, hi, m),
        (0xFB9, 15) if lo == 15 => quotient_row(true, n, hi, m),
        (0xFBB, 15) if lo == 15 => quotient_row(false, n, hi, m),
        _ => Err(BadInstr::Unknown),
    }
}
