//! Fields of halfwords, and instructions of fields.

ghost use Rattle.std.specs.Prelude.{◌≡◌, ℕ, ℤ, pos, ◌+◌, ◌-◌, ◌*◌, ◌/◌, ◌%◌, ◌^◌, ◌<◌, ◌≤◌, nat_le, nat_lt, Some, None, if◌then◌else◌, slice_get};
ghost use Rattle.thumb_instr.specs.Operands.{has};
ghost use Rattle.thumb_instr.specs.Meanings.{is_outside, is_inside, conditions, signed, zero_as_32, plain, constant_of, alu, move, test, shift_by, wide, half, field, unary, mul, mul_acc, long_mul, div, access, pair, multi, literal, adr, branch, zero_branch, call, jump, call_reg, it, nothing, trap};

use bitflags::Flags;
use mark_word::Shift;
use thumb_instr::{
    Access, AccessOp, Adr, Alu, AluOp, BadInstr, Branch, Call, CallReg, Cond, Div, Field, FieldOp,
    Half, Instr, It, ItPlace, Jump, Literal, LongMul, LongMulOp, Move, MoveOp, Mul, MulAcc, Multi,
    Nothing, NothingOp, Operand, Pair, PairIndex, Place, Reg, RegSet, ShiftBy, Test, TestOp, Trap,
    Unary, UnaryOp, Wide, WideOp, ZeroBranch,
};

pub(crate) fn outside(place: ItPlace) -> bool
    ensures { result ≡ is_outside place }
{
    match place {
        ItPlace::Outside => true,
        _ => false,
    }
}

pub(crate) fn inside(place: ItPlace) -> bool
    ensures { result ≡ is_inside place }
{
    match place {
        ItPlace::Inside => true,
        _ => false,
    }
}

/// The `width` bits of a halfword from bit `low` on.
pub(crate) fn bits(h: u16, low: u32, width: u32) -> u16
    requires low { low < 16 }
    requires width { width < 16 }
    ensures value { result ≡ h / 2 ^ low % 2 ^ width }
    ensures below { result < 2 ^ width }
{
    (h >> low) % (1 << width)
}

/// The `width` bits of a pair of halfwords from bit `low` on.
pub(crate) fn pair_bits(h: u32, low: u32, width: u32) -> u16
    requires low { low < 32 }
    requires width { width < 16 }
    ensures value { result ≡ h / 2 ^ low % 2 ^ width }
    ensures below { result < 2 ^ width }
{
    ((h >> low) % (1 << width)) as u16
}

/// The low register whose number stands at a place of a halfword.
pub(crate) fn low_reg(h: u16, low: u32) -> Reg
    requires { low < 14 }
    ensures { result ≡ h / 2 ^ low % 8 }
{
    Reg::new(bits(h, low, 3) as u8).unwrap()
}

/// The register of a number of 4 bits; `None` for pc.
pub(crate) fn reg_of(number: u16) -> Option<Reg>
    requires { number < 16 }
    ensures { result ≡ (if nat_le number 14 then Some number else None) }
{
    Reg::new(number as u8)
}

/// Whether a list of registers, a bit for each, has the register.
#[tactic(auto, unfolding(thumb_instr::specs::Operands::has))]
pub(crate) fn has(list: u16, r: Reg) -> bool
    ensures { result ≡ has list r }
{
    (list >> r.number()) % 2 == 1
}

/// The stack pointer.
pub(crate) fn sp() -> Reg
    ensures { result ≡ 13 }
{
    Reg::new(13).unwrap()
}

pub(crate) fn cond_of(number: u16) -> Option<Cond>
    requires { number < 16 }
    ensures { result ≡ slice_get conditions number }
{
    Cond::numbered(number as u8)
}

/// The signed number that `width` bits stand for.
#[tactic(auto, using(crate::proofs::Powers::power_fits, crate::proofs::Powers::power_halves))]
pub(crate) fn signed_of(width: u32, n: u32) -> i32
    requires some { 1 ≤ width }
    requires width { width < 31 }
    requires n { n < 2 ^ width }
    ensures { result ≡ signed width n }
{
    if n < 1 << (width - 1) {
        n as i32
    } else {
        -(((1 << width) - n) as i32)
    }
}

pub(crate) fn plain(m: Reg) -> Operand
    ensures { result ≡ plain m }
{
    Operand::Reg {
        m,
        kind: Shift::Lsl,
        amount: 0,
    }
}

/// An amount of 0 that means 32.
pub(crate) fn zero_as_32(amount: u8) -> u8
    ensures { result ≡ zero_as_32 amount }
{
    if amount == 0 { 32 } else { amount }
}

/// The operand of a number, a multiple of 4: as it is, or a byte that is turned (ARMv7-M ARM, A5.3.2).
pub(crate) fn constant_of(k: u16) -> u16
    requires { k < 1024 }
    ensures { result ≡ constant_of k }
{
    if k < 256 {
        k
    } else if k < 512 {
        31 * 128 + (k / 2 - 128)
    } else {
        30 * 128 + (k / 4 - 128)
    }
}

pub(crate) fn alu(op: AluOp, s: bool, d: Reg, n: Reg, x: Operand) -> Result<Instr, BadInstr>
    ensures { result ≡ alu op s d n x }
{
    match Alu::new(op, s, d, n, x) {
        Some(i) => Ok(Instr::Alu(i)),
        None => Err(BadInstr::Unpredictable),
    }
}

pub(crate) fn moves(op: MoveOp, s: bool, d: Reg, x: Operand) -> Result<Instr, BadInstr>
    ensures { result ≡ move op s d x }
{
    match Move::new(op, s, d, x) {
        Some(i) => Ok(Instr::Move(i)),
        None => Err(BadInstr::Unpredictable),
    }
}

pub(crate) fn test(op: TestOp, n: Reg, x: Operand) -> Result<Instr, BadInstr>
    ensures { result ≡ test op n x }
{
    match Test::new(op, n, x) {
        Some(i) => Ok(Instr::Test(i)),
        None => Err(BadInstr::Unpredictable),
    }
}

pub(crate) fn shift_by(kind: Shift, s: bool, d: Reg, n: Reg, m: Reg) -> Result<Instr, BadInstr>
    ensures { result ≡ shift_by kind s d n m }
{
    match ShiftBy::new(kind, s, d, n, m) {
        Some(i) => Ok(Instr::ShiftBy(i)),
        None => Err(BadInstr::Unpredictable),
    }
}

pub(crate) fn wide(op: WideOp, d: Reg, n: Reg, imm: u16) -> Result<Instr, BadInstr>
    ensures { result ≡ wide op d n imm }
{
    match Wide::new(op, d, n, imm) {
        Some(i) => Ok(Instr::Wide(i)),
        None => Err(BadInstr::Unpredictable),
    }
}

pub(crate) fn half(top: bool, d: Reg, imm: u16) -> Result<Instr, BadInstr>
    ensures { result ≡ half top d imm }
{
    Ok(Instr::Half(Half { top, d, imm }))
}

pub(crate) fn field(
    op: FieldOp,
    d: Reg,
    n: Option<Reg>,
    lsb: u8,
    width: u8,
) -> Result<Instr, BadInstr>
    ensures { result ≡ field op d n lsb width }
{
    match Field::new(op, d, n, lsb, width) {
        Some(i) => Ok(Instr::Field(i)),
        None => Err(BadInstr::Unpredictable),
    }
}

pub(crate) fn unary(op: UnaryOp, d: Reg, m: Reg, turn: u8) -> Result<Instr, BadInstr>
    ensures { result ≡ unary op d m turn }
{
    match Unary::new(op, d, m, turn) {
        Some(i) => Ok(Instr::Unary(i)),
        None => Err(BadInstr::Unpredictable),
    }
}

pub(crate) fn mul(s: bool, d: Reg, n: Reg, m: Reg) -> Result<Instr, BadInstr>
    ensures { result ≡ mul s d n m }
{
    Ok(Instr::Mul(Mul { s, d, n, m }))
}

pub(crate) fn mul_acc(minus: bool, d: Reg, n: Reg, m: Reg, a: Reg) -> Result<Instr, BadInstr>
    ensures { result ≡ mul_acc minus d n m a }
{
    Ok(Instr::MulAcc(MulAcc { minus, d, n, m, a }))
}

pub(crate) fn long_mul(op: LongMulOp, lo: Reg, hi: Reg, n: Reg, m: Reg) -> Result<Instr, BadInstr>
    ensures { result ≡ long_mul op lo hi n m }
{
    match LongMul::new(op, lo, hi, n, m) {
        Some(i) => Ok(Instr::LongMul(i)),
        None => Err(BadInstr::Unpredictable),
    }
}

pub(crate) fn div(with_sign: bool, d: Reg, n: Reg, m: Reg) -> Result<Instr, BadInstr>
    ensures { result ≡ div with_sign d n m }
{
    Ok(Instr::Div(Div {
        signed: with_sign,
        d,
        n,
        m,
    }))
}

pub(crate) fn access(op: AccessOp, t: Reg, n: Reg, at: Place) -> Result<Instr, BadInstr>
    ensures { result ≡ access op t n at }
{
    match Access::new(op, t, n, at) {
        Some(i) => Ok(Instr::Access(i)),
        None => Err(BadInstr::Unpredictable),
    }
}

pub(crate) fn pair(
    load: bool,
    t: Reg,
    u: Reg,
    n: Reg,
    up: bool,
    imm: u16,
    index: PairIndex,
) -> Result<Instr, BadInstr>
    ensures { result ≡ pair load t u n up imm index }
{
    match Pair::new(load, t, u, n, up, imm, index) {
        Some(i) => Ok(Instr::Pair(i)),
        None => Err(BadInstr::Unpredictable),
    }
}

/// `list` has a bit for each register of the list.
pub(crate) fn multi(
    load: bool,
    down: bool,
    back: bool,
    n: Reg,
    list: u16,
    pc: bool,
) -> Result<Instr, BadInstr>
    ensures { result ≡ multi load down back n list pc }
{
    match Multi::new(
        load,
        down,
        back,
        n,
        RegSet::from_bits_retain(list as u32),
        pc,
    ) {
        Some(i) => Ok(Instr::Multi(i)),
        None => Err(BadInstr::Unpredictable),
    }
}

pub(crate) fn literal(t: Reg, up: bool, imm: u16) -> Result<Instr, BadInstr>
    ensures { result ≡ literal t up imm }
{
    match Literal::new(t, up, imm) {
        Some(i) => Ok(Instr::Literal(i)),
        None => Err(BadInstr::Unpredictable),
    }
}

pub(crate) fn adr(d: Reg, up: bool, imm: u16) -> Result<Instr, BadInstr>
    ensures { result ≡ adr d up imm }
{
    match Adr::new(d, up, imm) {
        Some(i) => Ok(Instr::Adr(i)),
        None => Err(BadInstr::Unpredictable),
    }
}

pub(crate) fn branch(cond: Cond, offset: i32) -> Result<Instr, BadInstr>
    ensures { result ≡ branch cond offset }
{
    match Branch::new(cond, offset) {
        Some(i) => Ok(Instr::Branch(i)),
        None => Err(BadInstr::Unpredictable),
    }
}

pub(crate) fn zero_branch(nonzero: bool, n: Reg, offset: u16) -> Result<Instr, BadInstr>
    ensures { result ≡ zero_branch nonzero n offset }
{
    match ZeroBranch::new(nonzero, n, offset as i32) {
        Some(i) => Ok(Instr::ZeroBranch(i)),
        None => Err(BadInstr::Unpredictable),
    }
}

pub(crate) fn call(offset: i32) -> Result<Instr, BadInstr>
    ensures { result ≡ call offset }
{
    match Call::new(offset) {
        Some(i) => Ok(Instr::Call(i)),
        None => Err(BadInstr::Unpredictable),
    }
}

pub(crate) fn jump(m: Reg) -> Result<Instr, BadInstr>
    ensures { result ≡ jump m }
{
    Ok(Instr::Jump(Jump { m }))
}

pub(crate) fn call_reg(m: Reg) -> Result<Instr, BadInstr>
    ensures { result ≡ call_reg m }
{
    Ok(Instr::CallReg(CallReg { m }))
}

pub(crate) fn it(first: Cond, mask: u8) -> Result<Instr, BadInstr>
    ensures { result ≡ it first mask }
{
    match It::new(first, mask) {
        Some(i) => Ok(Instr::It(i)),
        None => Err(BadInstr::Unpredictable),
    }
}

pub(crate) fn nothing(op: NothingOp, option: u8) -> Result<Instr, BadInstr>
    ensures { result ≡ nothing op option }
{
    match Nothing::new(op, option) {
        Some(i) => Ok(Instr::Nothing(i)),
        None => Err(BadInstr::Unpredictable),
    }
}

pub(crate) fn trap(imm: u16) -> Result<Instr, BadInstr>
    ensures { result ≡ trap imm }
{
    match Trap::new(imm) {
        Some(i) => Ok(Instr::Trap(i)),
        None => Err(BadInstr::Unpredictable),
    }
}
