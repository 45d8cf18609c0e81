//! The halfwords that may stand for an instruction.

ghost use Rattle.std.specs.Prelude.{◌≡◌, ◌+◌, ◌*◌, ◌/◌, ◌%◌, ◌^◌, ◌<◌, ◌≤◌, if◌then◌else◌};
ghost use Rattle.thumb_instr.specs.Blocks.{condition_number};
ghost use Rattle.thumb_encode.specs.HalfCodes.{two_registers as two_registers_of, three_registers as three_registers_of, five_bits as five_bits_of, eight_bits as eight_bits_of, high_registers as high_registers_of, quarter_of, word_of as word_in, add_constant, subtract_constant, add_register, by_code as by_code_of, sum_code as sum_code_of, difference_code as difference_code_of, alu_code as alu_code_of, shift_number as shift_number_of, move_register as move_register_of, mov_code as mov_code_of, mvn_code as mvn_code_of, move_code as move_code_of, compare_registers as compare_registers_of, compare_code as compare_code_of, test_by_code as test_by_code_of, test_code as test_code_of, shift_code as shift_code_of, unary_code as unary_code_of, index_number as index_number_of, word_offset as word_offset_of, offset_code as offset_code_of, place_code as place_code_of, many_code as many_code_of, branch_code as branch_code_of, zero_branch_code as zero_branch_code_of, nothing_code as nothing_code_of, half_code, constant_code as constant_code_of, later_alu_code as later_alu_code_of, later_code};

use bitflags::Flags;
use mark_word::Shift;
use thumb_instr::{
    Access, AccessOp, Alu, AluOp, Branch, Instr, It, Move, MoveOp, Multi, Nothing, NothingOp,
    Operand, Place, Reg, ShiftBy, Test, TestOp, Unary, UnaryOp, ZeroBranch,
};

fn number(r: Reg) -> u16
    ensures value { result ≡ r }
    ensures range { result ≤ 14 }
{
    r.number() as u16
}

/// oooooooooo mmm ddd
#[tactic(auto, unfolding(crate::specs::HalfCodes::two_registers))]
fn two_registers(o: u16, m: Reg, d: Reg) -> u16
    requires { o < 1024 }
    ensures { result ≡ two_registers_of o m d }
{
    64 * o + 8 * (number(m) % 8) + number(d) % 8
}

/// ooooooo mmm nnn ddd, where the first field may be a constant.
#[tactic(auto, unfolding(crate::specs::HalfCodes::three_registers))]
fn three_registers(o: u16, m: u16, n: Reg, d: Reg) -> u16
    requires { o < 128 }
    ensures { result ≡ three_registers_of o m n d }
{
    512 * o + 64 * (m % 8) + 8 * (number(n) % 8) + number(d) % 8
}

/// ooooo iiiii mmm ddd
#[tactic(auto, unfolding(crate::specs::HalfCodes::five_bits))]
fn five_bits(o: u16, i: u16, m: Reg, d: Reg) -> u16
    requires { o < 32 }
    ensures { result ≡ five_bits_of o i m d }
{
    2048 * o + 64 * (i % 32) + 8 * (number(m) % 8) + number(d) % 8
}

/// ooooo ddd iiiiiiii
#[tactic(auto, unfolding(crate::specs::HalfCodes::eight_bits))]
fn eight_bits(o: u16, d: Reg, i: u16) -> u16
    requires { o < 32 }
    ensures { result ≡ eight_bits_of o d i }
{
    2048 * o + 256 * (number(d) % 8) + i % 256
}

/// oooooooo d mmmm ddd
#[tactic(auto, unfolding(crate::specs::HalfCodes::high_registers))]
fn high_registers(o: u16, m: Reg, d: Reg) -> u16
    requires { o < 256 }
    ensures { result ≡ high_registers_of o m d }
{
    256 * o + 128 * (number(d) / 8 % 2) + 8 * (number(m) % 16) + number(d) % 8
}

/// The quarter of the value of a constant that is a multiple of 4 up to 1,020.
#[tactic(auto, unfolding(crate::specs::HalfCodes::quarter_of))]
fn quarter(imm12: u16) -> u16
    ensures { result ≡ quarter_of imm12 }
{
    if imm12 < 256 {
        imm12 / 4
    } else if imm12 < 3968 {
        (imm12 + 128) % 256
    } else {
        (imm12 - 3840) / 2
    }
}

/// A signed number in two's complement.
#[tactic(auto, unfolding(crate::specs::HalfCodes::word_of))]
pub(crate) fn word_of(offset: i32) -> u32
    ensures { result ≡ word_in offset }
{
    if 0 <= offset {
        offset as u32
    } else {
        (offset - i32::MIN) as u32 + 0x8000_0000
    }
}

fn sum_code(a: &Alu) -> Option<u16>
    ensures { result ≡ sum_code_of a.now a.now.x }
{
    match a.x {
        Operand::Imm(imm) => {
            if a.s {
                Some(three_registers(14, imm, a.n, a.d))
            } else if a.d.number() == 13 {
                Some(128 * 352 + quarter(imm) % 128)
            } else {
                Some(eight_bits(21, a.d, quarter(imm)))
            }
        }
        Operand::Reg { m, .. } => {
            if a.s {
                Some(three_registers(12, number(m), a.n, a.d))
            } else {
                Some(high_registers(68, m, a.d))
            }
        }
    }
}

fn difference_code(a: &Alu) -> Option<u16>
    ensures { result ≡ difference_code_of a.now a.now.x }
{
    match a.x {
        Operand::Imm(imm) => {
            if a.s {
                Some(three_registers(15, imm, a.n, a.d))
            } else {
                Some(128 * 353 + quarter(imm) % 128)
            }
        }
        Operand::Reg { m, .. } => Some(three_registers(13, number(m), a.n, a.d)),
    }
}

/// 010000 oooo mmm ddd
fn by_code(o: u16, d: Reg, x: Operand) -> Option<u16>
    requires { o < 16 }
    ensures { result ≡ test_by_code_of o d x }
{
    match x {
        Operand::Imm(_) => None,
        Operand::Reg { m, .. } => Some(two_registers(256 + o, m, d)),
    }
}

fn alu_code(a: &Alu) -> Option<u16>
    ensures { result ≡ alu_code_of a.now.op a.now }
{
    match a.op {
        AluOp::And => by_code(0, a.d, a.x),
        AluOp::Bic => by_code(14, a.d, a.x),
        AluOp::Orr => by_code(12, a.d, a.x),
        AluOp::Orn => None,
        AluOp::Eor => by_code(1, a.d, a.x),
        AluOp::Add => sum_code(a),
        AluOp::Adc => by_code(5, a.d, a.x),
        AluOp::Sbc => by_code(6, a.d, a.x),
        AluOp::Sub => difference_code(a),
        AluOp::Rsb => Some(two_registers(265, a.n, a.d)),
    }
}

fn shift_number(kind: Shift) -> u16
    ensures value { result ≡ shift_number_of kind }
    ensures range { result < 4 }
{
    match kind {
        Shift::Lsl => 0,
        Shift::Lsr => 1,
        Shift::Asr => 2,
        Shift::Ror => 3,
        Shift::Rrx => 3,
    }
}

fn mov_code(a: &Move) -> Option<u16>
    ensures { result ≡ mov_code_of a.now a.now.x }
{
    match a.x {
        Operand::Imm(imm) => Some(eight_bits(4, a.d, imm)),
        Operand::Reg { m, kind, amount } => {
            if a.s {
                Some(five_bits(shift_number(kind), amount as u16, m, a.d))
            } else {
                Some(high_registers(70, m, a.d))
            }
        }
    }
}

fn move_code(a: &Move) -> Option<u16>
    ensures { result ≡ move_code_of a.now.op a.now }
{
    match a.op {
        MoveOp::Mov => mov_code(a),
        MoveOp::Mvn => by_code(15, a.d, a.x),
    }
}

fn compare_code(n: Reg, x: Operand) -> Option<u16>
    ensures { result ≡ compare_code_of n x }
{
    match x {
        Operand::Imm(imm) => Some(eight_bits(5, n, imm)),
        Operand::Reg { m, .. } => {
            if n.number() < 8 && m.number() < 8 {
                Some(two_registers(266, m, n))
            } else {
                Some(high_registers(69, m, n))
            }
        }
    }
}

fn test_code(a: &Test) -> Option<u16>
    ensures { result ≡ test_code_of a.now.op a.now }
{
    match a.op {
        TestOp::Tst => by_code(8, a.n, a.x),
        TestOp::Teq => None,
        TestOp::Cmn => by_code(11, a.n, a.x),
        TestOp::Cmp => compare_code(a.n, a.x),
    }
}

fn shift_code(a: &ShiftBy) -> Option<u16>
    ensures { result ≡ shift_code_of a.now.kind a.now.d a.now.m }
{
    match a.kind {
        Shift::Lsl => Some(two_registers(258, a.m, a.d)),
        Shift::Lsr => Some(two_registers(259, a.m, a.d)),
        Shift::Asr => Some(two_registers(260, a.m, a.d)),
        Shift::Ror => Some(two_registers(263, a.m, a.d)),
        Shift::Rrx => None,
    }
}

fn unary_code(a: &Unary) -> Option<u16>
    ensures { result ≡ unary_code_of a.now.op a.now.d a.now.m }
{
    match a.op {
        UnaryOp::Sxth => Some(two_registers(712, a.m, a.d)),
        UnaryOp::Sxtb => Some(two_registers(713, a.m, a.d)),
        UnaryOp::Uxth => Some(two_registers(714, a.m, a.d)),
        UnaryOp::Uxtb => Some(two_registers(715, a.m, a.d)),
        UnaryOp::Rev => Some(two_registers(744, a.m, a.d)),
        UnaryOp::Rev16 => Some(two_registers(745, a.m, a.d)),
        UnaryOp::Revsh => Some(two_registers(747, a.m, a.d)),
        UnaryOp::Rbit => None,
        UnaryOp::Clz => None,
    }
}

fn index_number(op: AccessOp) -> u16
    ensures value { result ≡ index_number_of op }
    ensures range { result < 8 }
{
    match op {
        AccessOp::Str => 0,
        AccessOp::Strh => 1,
        AccessOp::Strb => 2,
        AccessOp::Ldrsb => 3,
        AccessOp::Ldr => 4,
        AccessOp::Ldrh => 5,
        AccessOp::Ldrb => 6,
        AccessOp::Ldrsh => 7,
    }
}

fn word_offset(low_row: u16, sp_row: u16, t: Reg, n: Reg, imm: u16) -> u16
    requires low_row { low_row < 32 }
    requires sp_row { sp_row < 32 }
    ensures { result ≡ word_offset_of low_row sp_row t n imm }
{
    if n.number() == 13 {
        eight_bits(sp_row, t, imm / 4)
    } else {
        five_bits(low_row, imm / 4, n, t)
    }
}

fn offset_code(op: AccessOp, t: Reg, n: Reg, imm: u16) -> Option<u16>
    ensures { result ≡ offset_code_of op t n imm }
{
    match op {
        AccessOp::Str => Some(word_offset(12, 18, t, n, imm)),
        AccessOp::Ldr => Some(word_offset(13, 19, t, n, imm)),
        AccessOp::Strb => Some(five_bits(14, imm, n, t)),
        AccessOp::Ldrb => Some(five_bits(15, imm, n, t)),
        AccessOp::Strh => Some(five_bits(16, imm / 2, n, t)),
        AccessOp::Ldrh => Some(five_bits(17, imm / 2, n, t)),
        AccessOp::Ldrsb => None,
        AccessOp::Ldrsh => None,
    }
}

fn access_code(a: &Access) -> Option<u16>
    ensures { result ≡ place_code_of a.now.op a.now.t a.now.n a.now.place }
{
    match a.place {
        Place::Offset { imm, .. } => offset_code(a.op, a.t, a.n, imm),
        Place::Pre { .. } => None,
        Place::Post { .. } => None,
        Place::Index { m, .. } => Some(three_registers(
            40 + index_number(a.op),
            number(m),
            a.n,
            a.t,
        )),
    }
}

fn bit(b: bool) -> u16
    ensures value { result ≡ (if b then 1 else 0) }
    ensures range { result < 2 }
{
    if b { 1 } else { 0 }
}

/// The lowest byte of a list of registers, and the bit of lr.
fn low_byte(a: &Multi) -> u16
    ensures value { result ≡ a.now.list.0 % 256 }
    ensures range { result < 256 }
{
    (a.list.bits() % 256) as u16
}

fn lr_bit(a: &Multi) -> u16
    ensures value { result ≡ a.now.list.0 / 2 ^ 14 % 2 }
    ensures range { result < 2 }
{
    (a.list.bits() / 16384 % 2) as u16
}

/// PUSH and STM; POP and LDM.
fn many_code(a: &Multi) -> u16
    ensures { result ≡ many_code_of a.now.load a.now.n a.now.list.0 a.now.pc }
{
    if a.load {
        if a.n.number() == 13 {
            512 * 94 + 256 * bit(a.pc) + low_byte(a)
        } else {
            eight_bits(25, a.n, low_byte(a))
        }
    } else if a.n.number() == 13 {
        512 * 90 + 256 * lr_bit(a) + low_byte(a)
    } else {
        eight_bits(24, a.n, low_byte(a))
    }
}

fn branch_code(a: &Branch) -> u16
    ensures { result ≡ branch_code_of (condition_number a.now.cond) a.now.offset }
{
    let condition = a.cond.number() as u16;
    let word = word_of(a.offset);
    if condition == 14 {
        2048 * 28 + (word / 2 % 2048) as u16
    } else {
        256 * 208 + 256 * condition + (word / 2 % 256) as u16
    }
}

fn zero_branch_code(a: &ZeroBranch) -> u16
    ensures { result ≡ zero_branch_code_of a.now.nonzero a.now.n a.now.offset }
{
    let word = word_of(a.offset);
    4096 * 11
        + 2048 * bit(a.nonzero)
        + 512 * (word / 64 % 2) as u16
        + 256
        + 8 * (word / 2 % 32) as u16
        + number(a.n) % 8
}

fn it_code(a: &It) -> u16
    ensures { result ≡ 48896 + 16 * condition_number a.now.first + a.now.mask % 16 }
{
    0xBF00 + 16 * a.first.number() as u16 + a.mask as u16 % 16
}

fn nothing_code(a: &Nothing) -> Option<u16>
    ensures { result ≡ nothing_code_of a.now.op }
{
    match a.op {
        NothingOp::Nop => Some(0xBF00),
        _ => None,
    }
}

/// The halfword that may stand for the instruction, but for the one of `later_half`.
#[tactic(auto, unfolding(crate::specs::HalfCodes::half_code))]
pub(crate) fn half_candidate(i: &Instr) -> Option<u16>
    ensures { result ≡ half_code i.now }
{
    match i {
        Instr::Alu(a) => alu_code(a),
        Instr::Move(a) => move_code(a),
        Instr::Test(a) => test_code(a),
        Instr::ShiftBy(a) => shift_code(a),
        Instr::Unary(a) => unary_code(a),
        Instr::Mul(a) => Some(two_registers(269, a.n, a.d)),
        Instr::Access(a) => access_code(a),
        Instr::Multi(a) => Some(many_code(a)),
        Instr::Literal(a) => Some(eight_bits(9, a.t, a.imm / 4)),
        Instr::Branch(a) => Some(branch_code(a)),
        Instr::ZeroBranch(a) => Some(zero_branch_code(a)),
        Instr::Jump(a) => Some(128 * 142 + 8 * (number(a.m) % 16)),
        Instr::CallReg(a) => Some(128 * 143 + 8 * (number(a.m) % 16)),
        Instr::It(a) => Some(it_code(a)),
        Instr::Nothing(a) => nothing_code(a),
        Instr::Trap(a) => Some(0xDE00 + a.imm % 256),
        _ => None,
    }
}

/// ADDS and SUBS on one register, with a constant of eight bits.
fn constant_code(o: u16, a: &Alu) -> Option<u16>
    requires { o < 32 }
    ensures { result ≡ constant_code_of o a.now.s a.now.d a.now.x }
{
    match a.x {
        Operand::Imm(imm) => {
            if a.s {
                Some(eight_bits(o, a.d, imm))
            } else {
                None
            }
        }
        Operand::Reg { .. } => None,
    }
}

/// The other halfword that may stand for the instruction, of a later row.
#[tactic(auto, unfolding(crate::specs::HalfCodes::later_code))]
pub(crate) fn later_half(i: &Instr) -> Option<u16>
    ensures { result ≡ later_code i.now }
{
    match i {
        Instr::Alu(a) => match a.op {
            AluOp::Add => constant_code(6, a),
            AluOp::Sub => constant_code(7, a),
            _ => None,
        },
        _ => None,
    }
}
