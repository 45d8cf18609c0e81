//! Loads and stores of one register, of two halfwords (ARMv7-M ARM, A5.3.7 to A5.3.10).

ghost use Rattle.std.specs.Prelude.{◌≡◌, ℕ, ◌+◌, ◌*◌, ◌/◌, ◌%◌, ◌^◌, ◌<◌, ◌==◌, ◌&&◌, true, false, Some, Err, IfSome, IfNone, slice_get, drop, [], ◌∷◌};
ghost use Rattle.thumb_instr.specs.declared.operations.AccessOp.{AccessOp as AnAccessOp};
ghost use Rattle.thumb_instr.specs.Patterns.{Answer, decoded, refused};
ghost use Rattle.thumb_instr.specs.Meanings.{is_inside, literal, multi};
ghost use Rattle.thumb_instr.specs.FullRows.{on_plain, accesses, on_access, access_row, by_byte, by_register};
ghost use Rattle.thumb_decode.specs.Groups.{full_group};

use crate::making::{access, inside, literal, multi, pair_bits, sp};
use crate::registers::{first_bits, is_sp, register};
use thumb_instr::{AccessOp, BadInstr, Instr, ItPlace, Place, Reg};

/// The load or store of a number: 8 for a sign, 2 for each step of the size, 1 for a load.
fn access_of(code: u16) -> Option<AccessOp>
    requires { code < 16 }
    ensures some { IfSome result (λ op. slice_get accesses code ≡ Some (Some op)) }
    ensures none { IfNone result ((f : AnAccessOp → Answer) → on_access (slice_get accesses code) f ≡ Err BadInstr.Unknown) }
{
    match code {
        0 => Some(AccessOp::Strb),
        1 => Some(AccessOp::Ldrb),
        2 => Some(AccessOp::Strh),
        3 => Some(AccessOp::Ldrh),
        4 => Some(AccessOp::Str),
        5 => Some(AccessOp::Ldr),
        9 => Some(AccessOp::Ldrsb),
        11 => Some(AccessOp::Ldrsh),
        6 | 7 | 8 | 10 | 12 | 13 | 14 | 15 => None,
        _ => unreachable!(),
    }
}

/// A load or store with a number, which may change the base.
#[tactic(auto, unfolding(thumb_instr::specs::FullRows::access_row))]
fn access_row(op: AccessOp, t: u16, n: u16, at: Place, back: bool) -> Result<Instr, BadInstr>
    requires t { t < 16 }
    requires n { n < 16 }
    ensures { result ≡ access_row op t n at back }
{
    let transferred = n == t;
    let t = register(t)?;
    let n = register(n)?;
    if is_sp(t) || back && transferred {
        return Err(BadInstr::Unpredictable);
    }
    access(op, t, n, at)
}

/// A number of 8 bits.
#[tactic(auto, unfolding(thumb_instr::specs::FullRows::by_byte))]
fn by_byte(p: u16, u: u16, w: u16, op: AccessOp, n: u16, t: u16, i: u16) -> Result<Instr, BadInstr>
    requires t { t < 16 }
    requires n { n < 16 }
    ensures { result ≡ by_byte p u w op n t i }
{
    let up = u == 1;
    if w == 1 {
        if p == 1 {
            access_row(op, t, n, Place::Pre { up, imm: i }, true)
        } else {
            access_row(op, t, n, Place::Post { up, imm: i }, true)
        }
    } else if p == 0 {
        Err(BadInstr::Unknown)
    } else if up {
        Err(BadInstr::SystemInstr)
    } else {
        access_row(op, t, n, Place::Offset { up: false, imm: i }, false)
    }
}

/// A register that is shifted left.
#[tactic(auto, unfolding(thumb_instr::specs::FullRows::by_register))]
fn by_register(op: AccessOp, n: u16, t: u16, shift: u16, m: u16) -> Result<Instr, BadInstr>
    requires n { n < 16 }
    requires t { t < 16 }
    requires shift { shift < 4 }
    requires m { m < 16 }
    ensures { result ≡ by_register op n t shift m }
{
    let t = register(t)?;
    let n = register(n)?;
    let m = register(m)?;
    if is_sp(t) || is_sp(m) {
        return Err(BadInstr::Unpredictable);
    }
    access(
        op,
        t,
        n,
        Place::Index {
            m,
            shift: shift as u8,
        },
    )
}

/// The load or store of a number, with a number of 12 bits above the base.
fn coded_above(code: u16, t: u16, n: u16, i: u16) -> Result<Instr, BadInstr>
    requires code { code < 16 }
    requires t { t < 16 }
    requires n { n < 16 }
    ensures { result ≡ on_access (slice_get accesses code) (λ op. access_row op t n (Place.Offset true i) false) }
{
    match access_of(code) {
        Some(op) => access_row(op, t, n, Place::Offset { up: true, imm: i }, false),
        None => Err(BadInstr::Unknown),
    }
}

/// The load or store of a number, with a number of 8 bits.
fn coded_by_byte(
    code: u16,
    p: u16,
    u: u16,
    w: u16,
    n: u16,
    t: u16,
    i: u16,
) -> Result<Instr, BadInstr>
    requires code { code < 16 }
    requires t { t < 16 }
    requires n { n < 16 }
    ensures { result ≡ on_access (slice_get accesses code) (λ op. by_byte p u w op n t i) }
{
    match access_of(code) {
        Some(op) => by_byte(p, u, w, op, n, t, i),
        None => Err(BadInstr::Unknown),
    }
}

/// The load or store of a number, with a register that is shifted left.
fn coded_by_register(code: u16, n: u16, t: u16, shift: u16, m: u16) -> Result<Instr, BadInstr>
    requires code { code < 16 }
    requires n { n < 16 }
    requires t { t < 16 }
    requires shift { shift < 4 }
    requires m { m < 16 }
    ensures { result ≡ on_access (slice_get accesses code) (λ op. by_register op n t shift m) }
{
    match access_of(code) {
        Some(op) => by_register(op, n, t, shift, m),
        None => Err(BadInstr::Unknown),
    }
}

/// The load or store of a number, by the fields of one with a number of 8 bits.
fn byte_form(h: u32, code: u16) -> Result<Instr, BadInstr>
    requires { code < 16 }
    ensures { result ≡ on_access (slice_get accesses code) (λ op. by_byte (h / 2 ^ 10 % 2 ^ 1) (h / 2 ^ 9 % 2 ^ 1) (h / 2 ^ 8 % 2 ^ 1) op (h / 2 ^ 16 % 2 ^ 4) (h / 2 ^ 12 % 2 ^ 4) (h / 2 ^ 0 % 2 ^ 8)) }
{
    let p = pair_bits(h, 10, 1);
    let u = pair_bits(h, 9, 1);
    let w = pair_bits(h, 8, 1);
    let n = pair_bits(h, 16, 4);
    let t = pair_bits(h, 12, 4);
    coded_by_byte(code, p, u, w, n, t, pair_bits(h, 0, 8))
}

/// Whether a word of the code is loaded.
fn is_literal(h: u32) -> bool
    ensures { result ≡ ((h / 2 ^ 24 % 2 ^ 8 == 0xF8) && (h / 2 ^ 16 % 2 ^ 7 == 95)) }
{
    first_bits(h, 24) == 0xF8 && pair_bits(h, 16, 7) == 95
}

/// LDR of a word of the code.
fn literal_row(t: u16, up: bool, imm: u16) -> Result<Instr, BadInstr>
    requires { t < 16 }
    ensures { result ≡ on_plain (t ∷ []) (literal t up imm) }
{
    let t = register(t)?;
    if is_sp(t) {
        Err(BadInstr::Unpredictable)
    } else {
        literal(t, up, imm)
    }
}

/// POP of pc alone, which ends its IT block.
fn pop_pc(place: ItPlace) -> Result<Instr, BadInstr>
    ensures { result ≡ refused ((is_inside place, BadInstr.Unpredictable) ∷ []) (multi true false true 13 0 true) }
{
    if inside(place) {
        Err(BadInstr::Unpredictable)
    } else {
        multi(true, false, true, sp(), 0, true)
    }
}

/// Loads and stores of one register, but those of a word of the code and the pop of pc, whose rows stand first.
#[tactic(auto, unfolding(crate::specs::Groups::full_group, thumb_instr::specs::FullRows::full_rows))]
fn access_form(h: u32, place: ItPlace) -> Result<Instr, BadInstr>
    requires { h / 2 ^ 25 % 2 ^ 7 ≡ 124 }
    ensures { result ≡ decoded 32 (drop 2 (full_group 7 124 place)) h }
{
    let n = pair_bits(h, 16, 4);
    let t = pair_bits(h, 12, 4);
    let code = 8 * pair_bits(h, 24, 1) + 2 * pair_bits(h, 21, 2) + pair_bits(h, 20, 1);
    if pair_bits(h, 23, 1) == 1 {
        coded_above(code, t, n, pair_bits(h, 0, 12))
    } else if pair_bits(h, 11, 1) == 1 {
        byte_form(h, code)
    } else if pair_bits(h, 6, 6) == 0 {
        coded_by_register(code, n, t, pair_bits(h, 4, 2), pair_bits(h, 0, 4))
    } else {
        Err(BadInstr::Unknown)
    }
}

/// Loads and stores of one register.
#[tactic(auto, unfolding(crate::specs::Groups::full_group, thumb_instr::specs::FullRows::full_rows))]
pub(crate) fn memory_form(h: u32, place: ItPlace) -> Result<Instr, BadInstr>
    requires { h / 2 ^ 25 % 2 ^ 7 ≡ 124 }
    ensures { result ≡ decoded 32 (full_group 7 124 place) h }
{
    if is_literal(h) {
        literal_row(
            pair_bits(h, 12, 4),
            pair_bits(h, 23, 1) == 1,
            pair_bits(h, 0, 12),
        )
    } else if h == 0xF85D_FB04 {
        pop_pc(place)
    } else {
        access_form(h, place)
    }
}
