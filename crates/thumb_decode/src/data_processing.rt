//! Data processing with a shifted register or a constant, of two halfwords (ARMv7-M ARM, A5.3.1 and A5.3.11).

ghost use Rattle.std.specs.Prelude.{◌≡◌, ℕ, ◌+◌, ◌*◌, ◌/◌, ◌%◌, ◌^◌, ◌<◌, ◌==◌, ◌&&◌, ◌||◌, not, true, false, Bool, if◌then◌else◌};
ghost use Rattle.thumb_instr.specs.declared.operands.Operand.{Operand as AnOperand};
ghost use Rattle.thumb_instr.specs.Patterns.{decoded};
ghost use Rattle.thumb_instr.specs.Sets.{sums_with_carry};
ghost use Rattle.thumb_instr.specs.DataRows.{names, is_add_or_sub, is_rrx, moves_sp, has_odd_sp, is_copy, takes_sp, alu_row, move_row, test_row, or_test, or_move, data_processing, shifted};
ghost use Rattle.thumb_decode.specs.Groups.{full_group};

use crate::making::pair_bits;
use crate::operand_tests::{has_odd_sp, is_copy, is_rrx, names_sp, sums_with_carry, takes_sp};
use crate::registers::{is_sp, register};
use mark_word::Shift;
use thumb_instr::{Alu, AluOp, BadInstr, Instr, ItPlace, Move, MoveOp, Operand, Reg, Test, TestOp};

/// pc is no register.
#[tactic(auto, unfolding(thumb_instr::specs::DataRows::names))]
fn without_pc(x: &Operand)
    ensures { names 15 x.now ≡ false }
{
    match x {
        Operand::Imm(_) => (),
        Operand::Reg { m, .. } => {
            let _number = m.number();
        }
    }
}

/// Whether flags are set that are read.
fn sets_what_it_reads(op: AluOp, s: bool, x: &Operand) -> bool
    ensures { result ≡ (s && (sums_with_carry op || is_rrx x.now)) }
{
    s && (sums_with_carry(op) || is_rrx(x))
}

#[tactic(auto, unfolding(thumb_instr::specs::DataRows::alu_row))]
fn alu_row(op: AluOp, s: bool, n: u16, d: u16, x: Operand) -> Result<Instr, BadInstr>
    requires n { n < 16 }
    requires d { d < 16 }
    ensures { result ≡ alu_row op s n d x }
{
    let d = register(d)?;
    let n = register(n)?;
    without_pc(&x);
    if has_odd_sp(op, d, n, &x) {
        return Err(BadInstr::Unpredictable);
    }
    let flags = sets_what_it_reads(op, s, &x);
    match Alu::new(op, s, d, n, x) {
        None => Err(BadInstr::Unpredictable),
        Some(a) => {
            if flags {
                Err(BadInstr::ReadsAndSetsFlags)
            } else {
                Ok(Instr::Alu(a))
            }
        }
    }
}

/// Whether a move sets flags that it reads.
fn move_sets_what_it_reads(s: bool, x: &Operand) -> bool
    ensures { result ≡ (s && is_rrx x.now) }
{
    s && is_rrx(x)
}

/// Whether a move has sp where it may not.
fn move_has_odd_sp(op: MoveOp, s: bool, d: Reg, x: &Operand) -> bool
    ensures { result ≡ (if is_copy op s x.now then (d == 13) && names 13 x.now else (d == 13) || names 13 x.now) }
{
    if is_copy(op, s, x) {
        is_sp(d) && names_sp(x)
    } else {
        is_sp(d) || names_sp(x)
    }
}

#[tactic(auto, unfolding(thumb_instr::specs::DataRows::move_row))]
fn move_row(op: MoveOp, s: bool, d: u16, x: Operand) -> Result<Instr, BadInstr>
    requires d { d < 16 }
    ensures { result ≡ move_row op s d x }
{
    let d = register(d)?;
    without_pc(&x);
    if move_has_odd_sp(op, s, d, &x) {
        return Err(BadInstr::Unpredictable);
    }
    let flags = move_sets_what_it_reads(s, &x);
    match Move::new(op, s, d, x) {
        None => Err(BadInstr::Unpredictable),
        Some(a) => {
            if flags {
                Err(BadInstr::ReadsAndSetsFlags)
            } else {
                Ok(Instr::Move(a))
            }
        }
    }
}

/// Whether a test has sp where it may not.
fn test_has_odd_sp(op: TestOp, n: Reg, x: &Operand) -> bool
    ensures { result ≡ (((n == 13) && not (takes_sp op)) || names 13 x.now) }
{
    is_sp(n) && !takes_sp(op) || names_sp(x)
}

#[tactic(auto, unfolding(thumb_instr::specs::DataRows::test_row))]
fn test_row(op: TestOp, n: u16, x: Operand) -> Result<Instr, BadInstr>
    requires n { n < 16 }
    ensures { result ≡ test_row op n x }
{
    let n = register(n)?;
    without_pc(&x);
    if test_has_odd_sp(op, n, &x) {
        return Err(BadInstr::Unpredictable);
    }
    let flags = is_rrx(&x);
    match Test::new(op, n, x) {
        None => Err(BadInstr::Unpredictable),
        Some(a) => {
            if flags {
                Err(BadInstr::ReadsAndSetsFlags)
            } else {
                Ok(Instr::Test(a))
            }
        }
    }
}

#[tactic(auto, unfolding(thumb_instr::specs::DataRows::or_test))]
fn or_test(op: AluOp, t: TestOp, s: bool, n: u16, d: u16, x: Operand) -> Result<Instr, BadInstr>
    requires n { n < 16 }
    requires d { d < 16 }
    ensures { result ≡ or_test op t s n d x }
{
    if s && d == 15 {
        test_row(t, n, x)
    } else {
        alu_row(op, s, n, d, x)
    }
}

#[tactic(auto, unfolding(thumb_instr::specs::DataRows::or_move))]
fn or_move(op: AluOp, m: MoveOp, s: bool, n: u16, d: u16, x: Operand) -> Result<Instr, BadInstr>
    requires n { n < 16 }
    requires d { d < 16 }
    ensures { result ≡ or_move op m s n d x }
{
    if n == 15 {
        move_row(m, s, d, x)
    } else {
        alu_row(op, s, n, d, x)
    }
}

/// Data processing by the number of its operation.
#[tactic(auto, unfolding(thumb_instr::specs::DataRows::data_processing))]
fn data_processing(o: u16, s: bool, n: u16, d: u16, x: Operand) -> Result<Instr, BadInstr>
    requires o { o < 16 }
    requires n { n < 16 }
    requires d { d < 16 }
    ensures { result ≡ data_processing o s n d x }
{
    match o {
        0 => or_test(AluOp::And, TestOp::Tst, s, n, d, x),
        1 => alu_row(AluOp::Bic, s, n, d, x),
        2 => or_move(AluOp::Orr, MoveOp::Mov, s, n, d, x),
        3 => or_move(AluOp::Orn, MoveOp::Mvn, s, n, d, x),
        4 => or_test(AluOp::Eor, TestOp::Teq, s, n, d, x),
        8 => or_test(AluOp::Add, TestOp::Cmn, s, n, d, x),
        10 => alu_row(AluOp::Adc, s, n, d, x),
        11 => alu_row(AluOp::Sbc, s, n, d, x),
        13 => or_test(AluOp::Sub, TestOp::Cmp, s, n, d, x),
        14 => alu_row(AluOp::Rsb, s, n, d, x),
        5 | 6 | 7 | 9 | 12 | 15 => Err(BadInstr::Unknown),
        _ => unreachable!(),
    }
}

/// Data processing where the second operand is pc, by the number of its operation.
#[tactic(auto, unfolding(thumb_instr::specs::DataRows::data_processing))]
fn with_pc(o: u16) -> Result<Instr, BadInstr>
    requires { o < 16 }
    ensures { (s : Bool) (n d : ℕ) (x : AnOperand) → names 15 x ≡ true → result ≡ data_processing o s n d x }
{
    match o {
        0 => Err(BadInstr::PcOperand),
        1 => Err(BadInstr::PcOperand),
        2 => Err(BadInstr::PcOperand),
        3 => Err(BadInstr::PcOperand),
        4 => Err(BadInstr::PcOperand),
        8 => Err(BadInstr::PcOperand),
        10 => Err(BadInstr::PcOperand),
        11 => Err(BadInstr::PcOperand),
        13 => Err(BadInstr::PcOperand),
        14 => Err(BadInstr::PcOperand),
        5 | 6 | 7 | 9 | 12 | 15 => Err(BadInstr::Unknown),
        _ => unreachable!(),
    }
}

/// An operand of a register with a shift of kind `k` by the five bits `i`.
#[tactic(auto, unfolding(thumb_instr::specs::DataRows::shifted))]
fn shifted(m: Reg, k: u16, i: u16) -> Operand
    requires k { k < 4 }
    requires i { i < 32 }
    ensures { result ≡ shifted m k i }
{
    let amount = i as u8;
    match (k, i) {
        (0, _) => Operand::Reg {
            m,
            kind: Shift::Lsl,
            amount,
        },
        (1, 0) => Operand::Reg {
            m,
            kind: Shift::Lsr,
            amount: 32,
        },
        (1, _) => Operand::Reg {
            m,
            kind: Shift::Lsr,
            amount,
        },
        (2, 0) => Operand::Reg {
            m,
            kind: Shift::Asr,
            amount: 32,
        },
        (2, _) => Operand::Reg {
            m,
            kind: Shift::Asr,
            amount,
        },
        (_, 0) => Operand::Reg {
            m,
            kind: Shift::Rrx,
            amount: 0,
        },
        (_, _) => Operand::Reg {
            m,
            kind: Shift::Ror,
            amount,
        },
    }
}

/// Data processing with the register of number `m`, shifted.
fn by_register(o: u16, s: bool, n: u16, d: u16, k: u16, i: u16, m: u16) -> Result<Instr, BadInstr>
    requires o { o < 16 }
    requires n { n < 16 }
    requires d { d < 16 }
    requires k { k < 4 }
    requires i { i < 32 }
    requires m { m < 16 }
    ensures { result ≡ data_processing o s n d (shifted m k i) }
{
    match Reg::new(m as u8) {
        Some(m) => data_processing(o, s, n, d, shifted(m, k, i)),
        None => with_pc(o),
    }
}

/// Data processing with a shifted register.
#[tactic(auto, unfolding(crate::specs::Groups::full_group, thumb_instr::specs::FullRows::full_rows))]
pub(crate) fn register_form(h: u32, place: ItPlace) -> Result<Instr, BadInstr>
    requires { h / 2 ^ 25 % 2 ^ 7 ≡ 117 }
    ensures { result ≡ decoded 32 (full_group 7 117 place) h }
{
    if pair_bits(h, 15, 1) != 0 {
        return Err(BadInstr::Unknown);
    }
    let i = 4 * pair_bits(h, 12, 3) + pair_bits(h, 6, 2);
    by_register(
        pair_bits(h, 21, 4),
        pair_bits(h, 20, 1) == 1,
        pair_bits(h, 16, 4),
        pair_bits(h, 8, 4),
        pair_bits(h, 4, 2),
        i,
        pair_bits(h, 0, 4),
    )
}

/// Data processing with a constant.
#[tactic(auto, unfolding(crate::specs::Groups::full_group, thumb_instr::specs::FullRows::full_rows))]
pub(crate) fn constant_form(h: u32, place: ItPlace) -> Result<Instr, BadInstr>
    requires top { h / 2 ^ 27 % 2 ^ 5 ≡ 30 }
    requires constant { h / 2 ^ 25 % 2 ^ 1 ≡ 0 }
    requires second { h / 2 ^ 15 % 2 ^ 1 ≡ 0 }
    ensures { result ≡ decoded 32 (full_group 5 30 place) h }
{
    let imm12 = 2048 * pair_bits(h, 26, 1) + 256 * pair_bits(h, 12, 3) + pair_bits(h, 0, 8);
    data_processing(
        pair_bits(h, 21, 4),
        pair_bits(h, 20, 1) == 1,
        pair_bits(h, 16, 4),
        pair_bits(h, 8, 4),
        Operand::Imm(imm12),
    )
}
