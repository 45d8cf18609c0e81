//! The two halfwords that may stand for an instruction, as one number whose upper half is the first.

ghost use Rattle.std.specs.Prelude.{◌≡◌, ◌+◌, ◌*◌, ◌/◌, ◌%◌, ◌^◌, ◌<◌, ◌≤◌, true, false, if◌then◌else◌};
ghost use Rattle.thumb_instr.specs.declared.places.Place.TheVariants.{Offset, Index};
ghost use Rattle.thumb_instr.specs.Blocks.{condition_number};
ghost use Rattle.thumb_encode.specs.HalfCodes.{shift_number as shift_number_of};
ghost use Rattle.mark_word.specs.Formulas.{one_if};
ghost use Rattle.thumb_encode.specs.FullCodes.{full_number as full_number_of, split_number as split_number_of, shifted_number as shifted_number_of, data_code as data_code_of, alu_number as alu_number_of, move_number as move_number_of, test_number as test_number_of, wide_number, adr_number, half_number, source_number as source_number_of, field_code as field_code_of, unary_code as unary_code_of, long_mul_number as long_mul_number_of, div_number, access_number as access_number_of, access_row_number as access_row_number_of, byte_number as byte_number_of, place_code as place_code_of, is_before as is_before_of, is_changed as is_changed_of, pair_code as pair_code_of, multi_code as multi_code_of, near_branch as near_branch_of, far_branch as far_branch_of, branch_code as branch_code_of, nothing_code as nothing_code_of, full_code};

use crate::half_candidates::word_of;
use bitflags::Flags;
use mark_word::Shift;
use thumb_instr::{
    Access, AccessOp, Adr, Alu, AluOp, Branch, Div, Field, FieldOp, Half, Instr, Literal, LongMul,
    LongMulOp, Move, MoveOp, Mul, MulAcc, Multi, Nothing, NothingOp, Operand, Pair, PairIndex,
    Place, Reg, ShiftBy, Test, TestOp, Unary, UnaryOp, Wide, WideOp,
};

fn number(r: Reg) -> u32
    ensures value { result ≡ r }
    ensures range { result ≤ 14 }
{
    r.number() as u32
}

fn bit(b: bool) -> u32
    ensures value { result ≡ one_if b }
    ensures range { result < 2 }
{
    if b { 1 } else { 0 }
}

/// oooooooooooo nnnn, aaaa dddd llllllll
#[tactic(auto, unfolding(crate::specs::FullCodes::full_number))]
fn full_number(o: u32, n: u32, a: u32, d: u32, low: u32) -> u32
    requires o { o < 4096 }
    requires n { n < 16 }
    requires a { a < 16 }
    requires d { d < 16 }
    requires low { low < 256 }
    ensures { result ≡ full_number_of o n a d low }
{
    (o << 20) + (n << 16) + (a << 12) + (d << 8) + low
}

/// A number of 12 bits in three parts: 11110 i oooooo nnnn, 0 iii dddd iiiiiiii
#[tactic(auto, unfolding(crate::specs::FullCodes::split_number))]
fn split_number(o: u32, n: u32, d: u32, imm: u32) -> u32
    requires o { o < 64 }
    requires n { n < 16 }
    requires d { d < 16 }
    ensures { result ≡ split_number_of o n d imm }
{
    full_number(
        128 * 30 + 64 * (imm / 2048 % 2) + o,
        n,
        imm / 256 % 8,
        d,
        imm % 256,
    )
}

/// A number of five bits in two parts.
#[tactic(auto, unfolding(crate::specs::FullCodes::shifted_number))]
fn shifted_number(o: u32, n: u32, d: u32, five: u32, low: u32) -> u32
    requires o { o < 4096 }
    requires n { n < 16 }
    requires d { d < 16 }
    requires low { low < 64 }
    ensures { result ≡ shifted_number_of o n d five low }
{
    full_number(o, n, five / 4 % 8, d, 64 * (five % 4) + low)
}

fn shift_number(kind: Shift) -> u32
    ensures value { result ≡ shift_number_of kind }
    ensures range { result < 4 }
{
    match kind {
        Shift::Lsl => 0,
        Shift::Lsr => 1,
        Shift::Asr => 2,
        Shift::Ror => 3,
        Shift::Rrx => 3,
    }
}

/// Data processing, by the operation's four bits.
fn data_code(o: u32, s: bool, n: u32, d: u32, x: Operand) -> u32
    requires o { o < 16 }
    requires n { n < 16 }
    requires d { d < 16 }
    ensures { result ≡ data_code_of o s n d x }
{
    match x {
        Operand::Imm(imm) => split_number(2 * o + bit(s), n, d, imm as u32),
        Operand::Reg { m, kind, amount } => shifted_number(
            32 * 117 + 2 * o + bit(s),
            n,
            d,
            amount as u32,
            16 * shift_number(kind) + number(m),
        ),
    }
}

fn alu_number(op: AluOp) -> u32
    ensures value { result ≡ alu_number_of op }
    ensures range { result < 16 }
{
    match op {
        AluOp::And => 0,
        AluOp::Bic => 1,
        AluOp::Orr => 2,
        AluOp::Orn => 3,
        AluOp::Eor => 4,
        AluOp::Add => 8,
        AluOp::Adc => 10,
        AluOp::Sbc => 11,
        AluOp::Sub => 13,
        AluOp::Rsb => 14,
    }
}

fn alu_code(a: &Alu) -> u32
    ensures { result ≡ data_code_of (alu_number_of a.now.op) a.now.s a.now.n a.now.d a.now.x }
{
    data_code(alu_number(a.op), a.s, number(a.n), number(a.d), a.x)
}

fn move_code(a: &Move) -> u32
    ensures { result ≡ data_code_of (move_number_of a.now.op) a.now.s 15 a.now.d a.now.x }
{
    match a.op {
        MoveOp::Mov => data_code(2, a.s, 15, number(a.d), a.x),
        MoveOp::Mvn => data_code(3, a.s, 15, number(a.d), a.x),
    }
}

fn test_code(a: &Test) -> u32
    ensures { result ≡ data_code_of (test_number_of a.now.op) true a.now.n 15 a.now.x }
{
    match a.op {
        TestOp::Tst => data_code(0, true, number(a.n), 15, a.x),
        TestOp::Teq => data_code(4, true, number(a.n), 15, a.x),
        TestOp::Cmn => data_code(8, true, number(a.n), 15, a.x),
        TestOp::Cmp => data_code(13, true, number(a.n), 15, a.x),
    }
}

fn shift_code(a: &ShiftBy) -> u32
    ensures { result ≡ full_number_of (2 ^ 3 * 500 + 2 * shift_number_of a.now.kind + one_if a.now.s) a.now.n 15 a.now.d a.now.m }
{
    full_number(
        8 * 500 + 2 * shift_number(a.kind) + bit(a.s),
        number(a.n),
        15,
        number(a.d),
        number(a.m),
    )
}

fn wide_code(a: &Wide) -> u32
    ensures { result ≡ split_number_of (wide_number a.now.op) a.now.n a.now.d a.now.imm }
{
    match a.op {
        WideOp::Add => split_number(32, number(a.n), number(a.d), a.imm as u32),
        WideOp::Sub => split_number(42, number(a.n), number(a.d), a.imm as u32),
    }
}

fn half_code(a: &Half) -> u32
    ensures { result ≡ split_number_of (half_number a.now.top) (a.now.imm / 2 ^ 12) a.now.d (a.now.imm % 2 ^ 12) }
{
    let imm = a.imm as u32;
    if a.top {
        split_number(44, imm / 4096, number(a.d), imm % 4096)
    } else {
        split_number(36, imm / 4096, number(a.d), imm % 4096)
    }
}

/// The source, or pc for none.
fn source_number(n: Option<Reg>) -> u32
    ensures value { result ≡ source_number_of n }
    ensures range { result < 16 }
{
    match n {
        Some(n) => number(n),
        None => 15,
    }
}

fn long_mul_number(op: LongMulOp) -> u32
    ensures value { result ≡ long_mul_number_of op }
    ensures range { result < 4096 }
{
    match op {
        LongMulOp::Smull => 0xFB8,
        LongMulOp::Umull => 0xFBA,
        LongMulOp::Smlal => 0xFBC,
        LongMulOp::Umlal => 0xFBE,
    }
}

fn extension_code(o: u32, a: &Unary) -> u32
    requires { o < 4096 }
    ensures { result ≡ full_number_of o 15 15 a.now.d (2 ^ 7 + 2 ^ 4 * (a.now.turn / 8 % 4) + a.now.m) }
{
    full_number(
        o,
        15,
        15,
        number(a.d),
        128 + 16 * (a.turn as u32 / 8 % 4) + number(a.m),
    )
}

/// The register stands twice.
fn order_code(o: u32, kind: u32, a: &Unary) -> u32
    requires o { o < 4096 }
    requires kind { kind < 16 }
    ensures { result ≡ full_number_of o a.now.m 15 a.now.d (2 ^ 4 * kind + a.now.m) }
{
    full_number(o, number(a.m), 15, number(a.d), 16 * kind + number(a.m))
}

fn unary_code(a: &Unary) -> u32
    ensures { result ≡ unary_code_of a.now.op a.now }
{
    match a.op {
        UnaryOp::Sxth => extension_code(0xFA0, a),
        UnaryOp::Uxth => extension_code(0xFA1, a),
        UnaryOp::Sxtb => extension_code(0xFA4, a),
        UnaryOp::Uxtb => extension_code(0xFA5, a),
        UnaryOp::Rev => order_code(0xFA9, 8, a),
        UnaryOp::Rev16 => order_code(0xFA9, 9, a),
        UnaryOp::Rbit => order_code(0xFA9, 10, a),
        UnaryOp::Revsh => order_code(0xFA9, 11, a),
        UnaryOp::Clz => order_code(0xFAB, 8, a),
    }
}

fn mul_acc_code(a: &MulAcc) -> u32
    ensures { result ≡ full_number_of 0xFB0 a.now.n a.now.a a.now.d (2 ^ 4 * one_if a.now.minus + a.now.m) }
{
    full_number(
        0xFB0,
        number(a.n),
        number(a.a),
        number(a.d),
        16 * bit(a.minus) + number(a.m),
    )
}

fn mul_code(a: &Mul) -> u32
    ensures { result ≡ full_number_of 0xFB0 a.now.n 15 a.now.d a.now.m }
{
    full_number(0xFB0, number(a.n), 15, number(a.d), number(a.m))
}

fn long_mul_code(a: &LongMul) -> u32
    ensures { result ≡ full_number_of (long_mul_number_of a.now.op) a.now.n a.now.lo a.now.hi a.now.m }
{
    full_number(
        long_mul_number(a.op),
        number(a.n),
        number(a.lo),
        number(a.hi),
        number(a.m),
    )
}

fn div_code(a: &Div) -> u32
    ensures { result ≡ full_number_of (div_number a.now.signed) a.now.n 15 a.now.d (2 ^ 4 * 15 + a.now.m) }
{
    let o = if a.signed { 0xFB9 } else { 0xFBB };
    full_number(o, number(a.n), 15, number(a.d), 16 * 15 + number(a.m))
}

fn adr_code(a: &Adr) -> u32
    ensures { result ≡ split_number_of (adr_number a.now.up) 15 a.now.d a.now.imm }
{
    if a.up {
        split_number(32, 15, number(a.d), a.imm as u32)
    } else {
        split_number(42, 15, number(a.d), a.imm as u32)
    }
}

/// SBFX and UBFX by the width, BFI and BFC by the last bit.
fn field_code(a: &Field) -> u32
    ensures { result ≡ field_code_of a.now.op a.now }
{
    let n = source_number(a.n);
    let d = number(a.d);
    let lsb = a.lsb as u32;
    let width = a.width as u32;
    match a.op {
        FieldOp::Sbfx => shifted_number(0xF34, n, d, lsb, width - 1),
        FieldOp::Ubfx => shifted_number(0xF3C, n, d, lsb, width - 1),
        FieldOp::Bfi => shifted_number(0xF36, n, d, lsb, lsb + width - 1),
        FieldOp::Bfc => shifted_number(0xF36, n, d, lsb, lsb + width - 1),
    }
}

/// Whether the number is signed, how many bytes there are, and whether they are loaded: g zz l
fn access_number(op: AccessOp) -> u32
    ensures value { result ≡ access_number_of op }
    ensures range { result < 16 }
{
    match op {
        AccessOp::Strb => 0,
        AccessOp::Ldrb => 1,
        AccessOp::Strh => 2,
        AccessOp::Ldrh => 3,
        AccessOp::Str => 4,
        AccessOp::Ldr => 5,
        AccessOp::Ldrsb => 9,
        AccessOp::Ldrsh => 11,
    }
}

/// 1111100 g 0 zz l
#[tactic(auto, unfolding(crate::specs::FullCodes::access_row_number))]
fn access_row_number(k: u32) -> u32
    requires { k < 16 }
    ensures value { result ≡ access_row_number_of k }
    ensures range { result + 8 < 4096 }
{
    32 * 124 + 16 * (k / 8) + k % 8
}

/// A number of eight bits below the base, or with a change of the base: 1 p u w iiiiiiii
#[tactic(auto, unfolding(crate::specs::FullCodes::byte_number))]
fn byte_number(k: u32, n: Reg, t: Reg, p: u32, up: bool, w: u32, imm: u16) -> u32
    requires k { k < 16 }
    requires p { p < 2 }
    requires w { w < 2 }
    ensures { result ≡ byte_number_of k n t p up w imm }
{
    full_number(
        access_row_number(k),
        number(n),
        number(t),
        8 + 4 * p + 2 * bit(up) + w,
        imm as u32 % 256,
    )
}

fn offset_code(k: u32, n: Reg, t: Reg, up: bool, imm: u16) -> u32
    requires { k < 16 }
    ensures { result ≡ place_code_of k n t (Offset up imm) }
{
    if up {
        full_number(
            access_row_number(k) + 8,
            number(n),
            number(t),
            imm as u32 / 256 % 16,
            imm as u32 % 256,
        )
    } else {
        byte_number(k, n, t, 1, false, 0, imm)
    }
}

fn index_code(k: u32, n: Reg, t: Reg, m: Reg, shift: u8) -> u32
    requires { k < 16 }
    ensures { result ≡ place_code_of k n t (Index m shift) }
{
    full_number(
        access_row_number(k),
        number(n),
        number(t),
        0,
        16 * (shift as u32 % 4) + number(m),
    )
}

fn access_code(a: &Access) -> u32
    ensures { result ≡ place_code_of (access_number_of a.now.op) a.now.n a.now.t a.now.place }
{
    let k = access_number(a.op);
    match a.place {
        Place::Offset { up, imm } => offset_code(k, a.n, a.t, up, imm),
        Place::Pre { up, imm } => byte_number(k, a.n, a.t, 1, up, 1, imm),
        Place::Post { up, imm } => byte_number(k, a.n, a.t, 0, up, 1, imm),
        Place::Index { m, shift } => index_code(k, a.n, a.t, m, shift),
    }
}

fn is_before(index: PairIndex) -> u32
    ensures value { result ≡ is_before_of index }
    ensures range { result < 2 }
{
    match index {
        PairIndex::Offset => 1,
        PairIndex::Pre => 1,
        PairIndex::Post => 0,
    }
}

fn is_changed(index: PairIndex) -> u32
    ensures value { result ≡ is_changed_of index }
    ensures range { result < 2 }
{
    match index {
        PairIndex::Offset => 0,
        PairIndex::Pre => 1,
        PairIndex::Post => 1,
    }
}

fn pair_code(a: &Pair) -> u32
    ensures { result ≡ pair_code_of a.now }
{
    full_number(
        32 * 116
            + 16 * is_before(a.index)
            + 8 * bit(a.up)
            + 4
            + 2 * is_changed(a.index)
            + bit(a.load),
        number(a.n),
        number(a.t),
        number(a.u),
        a.imm as u32 / 4 % 256,
    )
}

/// 1110100 010 or 100 w l
fn multi_row(a: &Multi) -> u32
    ensures value { result ≡ 2 ^ 2 * (if a.now.down then 932 else 930) + 2 * one_if a.now.back + one_if a.now.load }
    ensures range { result < 4096 }
{
    if a.down {
        4 * 932 + 2 * bit(a.back) + bit(a.load)
    } else {
        4 * 930 + 2 * bit(a.back) + bit(a.load)
    }
}

fn multi_code(a: &Multi) -> u32
    ensures { result ≡ multi_code_of a.now }
{
    let list = a.list.bits();
    if list == 0 {
        0xF85D_FB04
    } else {
        full_number(
            multi_row(a),
            number(a.n),
            8 * bit(a.pc) + 4 * (list / 16384 % 2) + list / 4096 % 2,
            list / 256 % 16,
            list % 256,
        )
    }
}

fn literal_code(a: &Literal) -> u32
    ensures { result ≡ full_number_of (2 ^ 4 * 0xF8 + 2 ^ 3 * one_if a.now.up + 5) 15 a.now.t (a.now.imm / 2 ^ 8) (a.now.imm % 2 ^ 8) }
{
    let imm = a.imm as u32;
    full_number(
        16 * 0xF8 + 8 * bit(a.up) + 5,
        15,
        number(a.t),
        imm / 256,
        imm % 256,
    )
}

/// 11110 s cccc iiiiii, 10 j 0 k iiiiiiiiiii
#[tactic(auto, unfolding(crate::specs::FullCodes::near_branch))]
fn near_branch(condition: u32, offset: u32) -> u32
    requires { condition < 15 }
    ensures { result ≡ near_branch_of condition offset }
{
    (30 << 27)
        + ((offset / 1048576 % 2) << 26)
        + (condition << 22)
        + ((offset / 4096 % 64) << 16)
        + (1 << 15)
        + ((offset / 262144 % 2) << 13)
        + ((offset / 524288 % 2) << 11)
        + offset / 2 % 2048
}

/// 11110 s iiiiiiiiii, 10 or 11 j 1 k iiiiiiiiiii
#[tactic(auto, unfolding(crate::specs::FullCodes::far_branch))]
fn far_branch(o: u32, offset: u32) -> u32
    requires { o < 4 }
    ensures { result ≡ far_branch_of o offset }
{
    let s = offset / 16777216 % 2;
    let j = bit(offset / 8388608 % 2 == s);
    let k = bit(offset / 4194304 % 2 == s);
    (30 << 27)
        + (s << 26)
        + ((offset / 4096 % 1024) << 16)
        + (o << 14)
        + (1 << 12)
        + (j << 13)
        + (k << 11)
        + offset / 2 % 2048
}

fn branch_code(a: &Branch) -> u32
    ensures { result ≡ branch_code_of (condition_number a.now.cond) a.now.offset }
{
    let condition = a.cond.number() as u32;
    if condition == 14 {
        far_branch(2, word_of(a.offset))
    } else {
        near_branch(condition, word_of(a.offset))
    }
}

fn nothing_code(a: &Nothing) -> u32
    ensures { result ≡ nothing_code_of a.now.op a.now.option }
{
    match a.op {
        NothingOp::Nop => 0xF3AF_8000,
        NothingOp::Dsb => 0xF3BF_8F40 + a.option as u32,
        NothingOp::Dmb => 0xF3BF_8F50 + a.option as u32,
        NothingOp::Isb => 0xF3BF_8F60 + a.option as u32,
    }
}

/// The number that alone may stand for the instruction.
#[tactic(auto, unfolding(crate::specs::FullCodes::full_code))]
pub(crate) fn full_candidate(i: &Instr) -> Option<u32>
    ensures { result ≡ full_code i.now }
{
    match i {
        Instr::Alu(a) => Some(alu_code(a)),
        Instr::Move(a) => Some(move_code(a)),
        Instr::Test(a) => Some(test_code(a)),
        Instr::ShiftBy(a) => Some(shift_code(a)),
        Instr::Wide(a) => Some(wide_code(a)),
        Instr::Half(a) => Some(half_code(a)),
        Instr::Field(a) => Some(field_code(a)),
        Instr::Unary(a) => Some(unary_code(a)),
        Instr::Mul(a) => Some(mul_code(a)),
        Instr::MulAcc(a) => Some(mul_acc_code(a)),
        Instr::LongMul(a) => Some(long_mul_code(a)),
        Instr::Div(a) => Some(div_code(a)),
        Instr::Access(a) => Some(access_code(a)),
        Instr::Pair(a) => Some(pair_code(a)),
        Instr::Multi(a) => Some(multi_code(a)),
        Instr::Literal(a) => Some(literal_code(a)),
        Instr::Adr(a) => Some(adr_code(a)),
        Instr::Branch(a) => Some(branch_code(a)),
        Instr::Call(a) => Some(far_branch(3, word_of(a.offset))),
        Instr::Nothing(a) => Some(nothing_code(a)),
        _ => None,
    }
}
