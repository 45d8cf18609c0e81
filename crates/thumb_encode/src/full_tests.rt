//! Which instructions have a code of two halfwords.

ghost use Rattle.std.specs.Prelude.{◌≡◌, ℕ, ◌+◌, ◌/◌, ◌%◌, ◌^◌, ◌<◌, ◌≤◌, ◌==◌, ◌&&◌, ◌||◌, ◌↔◌, IsTrue, not, nat_lt, true, false, [], ◌∷◌, if◌then◌else◌};
ghost use Rattle.mark_word.specs.Formulas.{one_if};
ghost use Rattle.thumb_instr.specs.FullRows.{members};
ghost use Rattle.thumb_encode.specs.HasFull.{lacks_sp, source_of, is_signed as is_signed_of, alu_has_full as alu_full, move_has_full as move_full, test_has_full as test_full, place_has_full as place_full, is_changed as is_changed_of, pair_has_full as pair_full, is_pop as is_pop_of, multi_has_full as multi_full, is_always as is_always_of, has_full, HasCode};
ghost use Rattle.thumb_instr.specs.DataRows.{is_copy as is_copy_of, names};

use crate::given::given;
use bitflags::Flags;
use thumb_decode::{has_odd_sp, is_copy, is_rrx, is_sp, names_sp, sums_with_carry, takes_sp};
use thumb_instr::{
    Access, Alu, Branch, Cond, Field, Half, Instr, Move, Multi, Pair, PairIndex, Place, Reg, Test,
};

fn one_lacks_sp(a: Reg) -> bool
    ensures { result ≡ lacks_sp (a ∷ []) }
{
    !is_sp(a)
}

fn two_lack_sp(a: Reg, b: Reg) -> bool
    ensures { result ≡ lacks_sp (a ∷ b ∷ []) }
{
    !(is_sp(a) || is_sp(b))
}

fn three_lack_sp(a: Reg, b: Reg, c: Reg) -> bool
    ensures { result ≡ lacks_sp (a ∷ b ∷ c ∷ []) }
{
    !(is_sp(a) || is_sp(b) || is_sp(c))
}

fn four_lack_sp(a: Reg, b: Reg, c: Reg, d: Reg) -> bool
    ensures { result ≡ lacks_sp (a ∷ b ∷ c ∷ d ∷ []) }
{
    !(is_sp(a) || is_sp(b) || is_sp(c) || is_sp(d))
}

fn alu_has_full(a: &Alu) -> bool
    ensures { result ≡ alu_full a.now }
{
    !has_odd_sp(a.op, a.d, a.n, &a.x) && !(a.s && (sums_with_carry(a.op) || is_rrx(&a.x)))
}

/// Whether sp is both sides of a copy, or one of another move.
fn move_has_odd_sp(a: &Move) -> bool
    ensures { result ≡ (if is_copy_of a.now.op a.now.s a.now.x then (a.now.d == 13) && names 13 a.now.x else (a.now.d == 13) || names 13 a.now.x) }
{
    if is_copy(a.op, a.s, &a.x) {
        is_sp(a.d) && names_sp(&a.x)
    } else {
        is_sp(a.d) || names_sp(&a.x)
    }
}

fn move_has_full(a: &Move) -> bool
    ensures { result ≡ move_full a.now }
{
    !move_has_odd_sp(a) && !(a.s && is_rrx(&a.x))
}

fn test_has_full(a: &Test) -> bool
    ensures { result ≡ test_full a.now }
{
    !(is_sp(a.n) && !takes_sp(a.op)) && !names_sp(&a.x) && !is_rrx(&a.x)
}

/// Each number of a `Half` has 16 bits.
fn half_has_full(a: &Half) -> bool
    ensures { result ≡ (lacks_sp (a.now.d ∷ []) && nat_lt a.now.imm (2 ^ 16)) }
{
    one_lacks_sp(a.d) && (a.imm as u32) < 0x1_0000
}

fn field_has_full(a: &Field) -> bool
    ensures { result ≡ lacks_sp (a.now.d ∷ source_of a.now.n) }
{
    match a.n {
        None => one_lacks_sp(a.d),
        Some(n) => two_lack_sp(a.d, n),
    }
}

fn place_has_full(t: Reg, n: Reg, place: Place) -> bool
    ensures { result ≡ place_full t n place }
{
    match place {
        Place::Offset { up, imm } => { if up { imm < 4096 } else { imm < 256 } }
        Place::Pre { imm, .. } => imm < 256 && n.number() != t.number(),
        Place::Post { imm, .. } => imm < 256 && n.number() != t.number(),
        Place::Index { m, .. } => !is_sp(m),
    }
}

fn access_has_full(a: &Access) -> bool
    ensures { result ≡ (lacks_sp (a.now.t ∷ []) && place_full a.now.t a.now.n a.now.place) }
{
    one_lacks_sp(a.t) && place_has_full(a.t, a.n, a.place)
}

fn is_changed(index: PairIndex) -> bool
    ensures { result ≡ is_changed_of index }
{
    match index {
        PairIndex::Offset => false,
        PairIndex::Pre | PairIndex::Post => true,
    }
}

fn pair_has_full(a: &Pair) -> bool
    ensures { result ≡ pair_full a.now }
{
    let t = a.t.number();
    let u = a.u.number();
    let n = a.n.number();
    two_lack_sp(a.t, a.u) && !(a.load && t == u) && !(is_changed(a.index) && (n == t || n == u))
}

/// How many of the lowest `k` bits are set.
fn members(k: u32, bits: u32) -> u32
    ensures value { result ≡ members k bits }
    ensures bound { result ≤ k }
{
    if k == 0 {
        0
    } else {
        bits % 2 + members(k - 1, bits / 2)
    }
}

/// Whether fewer than two registers are transferred.
fn has_fewer_than_two(list: u32, pc: bool) -> bool
    ensures { result ≡ nat_lt (members 15 list + one_if pc) 2 }
{
    let registers = members(15, list);
    if pc { registers < 1 } else { registers < 2 }
}

fn is_pop(a: &Multi) -> bool
    ensures { result ≡ is_pop_of a.now }
{
    a.load && !a.down && a.back && is_sp(a.n)
}

fn multi_has_full(a: &Multi) -> bool
    ensures { result ≡ multi_full a.now }
{
    let list = a.list.bits();
    let lr = Reg::new(14).unwrap();
    if a.pc && !is_pop(a) {
        return false;
    }
    list == 0
        || !(has_fewer_than_two(list, a.pc) || a.pc && a.list.has(lr) || a.back && a.list.has(a.n))
}

fn is_always(c: Cond) -> bool
    ensures { result ≡ is_always_of c }
{
    match c {
        Cond::Al => true,
        _ => false,
    }
}

fn is_far(offset: i32) -> bool
    ensures { result ≡ is_signed_of 25 offset }
{
    -0x100_0000 <= offset && offset < 0x100_0000
}

fn is_near(offset: i32) -> bool
    ensures { result ≡ is_signed_of 21 offset }
{
    -0x10_0000 <= offset && offset < 0x10_0000
}

fn branch_has_full(a: &Branch) -> bool
    ensures { result ≡ is_signed_of (if is_always_of a.now.cond then 25 else 21) a.now.offset }
{
    if is_always(a.cond) {
        is_far(a.offset)
    } else {
        is_near(a.offset)
    }
}

#[tactic(auto, unfolding(crate::specs::HasFull::has_full))]
fn test(i: &Instr) -> bool
    ensures { result ≡ has_full i.now }
{
    match i {
        Instr::Alu(a) => alu_has_full(a),
        Instr::Move(a) => move_has_full(a),
        Instr::Test(a) => test_has_full(a),
        Instr::ShiftBy(a) => three_lack_sp(a.d, a.n, a.m),
        Instr::Wide(a) => !(is_sp(a.d) && !is_sp(a.n)),
        Instr::Half(a) => half_has_full(a),
        Instr::Field(a) => field_has_full(a),
        Instr::Unary(a) => two_lack_sp(a.d, a.m),
        Instr::Mul(a) => !a.s && three_lack_sp(a.d, a.n, a.m),
        Instr::MulAcc(a) => four_lack_sp(a.d, a.n, a.m, a.a),
        Instr::LongMul(a) => four_lack_sp(a.lo, a.hi, a.n, a.m),
        Instr::Div(a) => three_lack_sp(a.d, a.n, a.m),
        Instr::Access(a) => access_has_full(a),
        Instr::Pair(a) => pair_has_full(a),
        Instr::Multi(a) => multi_has_full(a),
        Instr::Literal(a) => one_lacks_sp(a.t),
        Instr::Adr(a) => one_lacks_sp(a.d),
        Instr::Branch(a) => branch_has_full(a),
        Instr::Call(a) => is_far(a.offset),
        Instr::Nothing(_) => true,
        _ => false,
    }
}

/// Whether two halfwords stand for the instruction outside of IT blocks.
pub fn has_full(i: &Instr) -> bool
    ensures value { result ≡ has_full i.now }
    ensures codes { IsTrue result ↔ HasCode i.now }
{
    given(i);
    test(i)
}
