//! The names of instructions, conditions and shifts.

ghost use Rattle.std.specs.Prelude.{◌≡◌, ◌≤◌, length};
ghost use Rattle.thumb_text.specs.Names.{alu_name, move_name, test_name, shift_name, wide_name, half_name, field_name, unary_name, mul_acc_name, long_mul_name, div_name, access_name, pair_name, multi_name, cond_name, zero_branch_name, nothing_name};

use mark_word::Shift;
use thumb_instr::{
    AccessOp, AluOp, Cond, FieldOp, LongMulOp, MoveOp, NothingOp, TestOp, UnaryOp, WideOp,
};

pub(crate) fn alu_name(op: AluOp) -> &'static str
    ensures value { result.now ≡ alu_name op }
    ensures short { length result.now ≤ 5 }
{
    match op {
        AluOp::And => "and",
        AluOp::Bic => "bic",
        AluOp::Orr => "orr",
        AluOp::Orn => "orn",
        AluOp::Eor => "eor",
        AluOp::Add => "add",
        AluOp::Adc => "adc",
        AluOp::Sbc => "sbc",
        AluOp::Sub => "sub",
        AluOp::Rsb => "rsb",
    }
}

pub(crate) fn move_name(op: MoveOp) -> &'static str
    ensures value { result.now ≡ move_name op }
    ensures short { length result.now ≤ 5 }
{
    match op {
        MoveOp::Mov => "mov",
        MoveOp::Mvn => "mvn",
    }
}

pub(crate) fn test_name(op: TestOp) -> &'static str
    ensures value { result.now ≡ test_name op }
    ensures short { length result.now ≤ 5 }
{
    match op {
        TestOp::Tst => "tst",
        TestOp::Teq => "teq",
        TestOp::Cmn => "cmn",
        TestOp::Cmp => "cmp",
    }
}

pub(crate) fn shift_name(kind: Shift) -> &'static str
    ensures value { result.now ≡ shift_name kind }
    ensures short { length result.now ≤ 5 }
{
    match kind {
        Shift::Lsl => "lsl",
        Shift::Lsr => "lsr",
        Shift::Asr => "asr",
        Shift::Ror => "ror",
        Shift::Rrx => "rrx",
    }
}

pub(crate) fn wide_name(op: WideOp) -> &'static str
    ensures value { result.now ≡ wide_name op }
    ensures short { length result.now ≤ 5 }
{
    match op {
        WideOp::Add => "addw",
        WideOp::Sub => "subw",
    }
}

pub(crate) fn half_name(top: bool) -> &'static str
    ensures value { result.now ≡ half_name top }
    ensures short { length result.now ≤ 5 }
{
    if top { "movt" } else { "movw" }
}

pub(crate) fn field_name(op: FieldOp) -> &'static str
    ensures value { result.now ≡ field_name op }
    ensures short { length result.now ≤ 5 }
{
    match op {
        FieldOp::Sbfx => "sbfx",
        FieldOp::Ubfx => "ubfx",
        FieldOp::Bfi => "bfi",
        FieldOp::Bfc => "bfc",
    }
}

pub(crate) fn unary_name(op: UnaryOp) -> &'static str
    ensures value { result.now ≡ unary_name op }
    ensures short { length result.now ≤ 5 }
{
    match op {
        UnaryOp::Sxth => "sxth",
        UnaryOp::Sxtb => "sxtb",
        UnaryOp::Uxth => "uxth",
        UnaryOp::Uxtb => "uxtb",
        UnaryOp::Rev => "rev",
        UnaryOp::Rev16 => "rev16",
        UnaryOp::Revsh => "revsh",
        UnaryOp::Rbit => "rbit",
        UnaryOp::Clz => "clz",
    }
}

pub(crate) fn mul_acc_name(minus: bool) -> &'static str
    ensures value { result.now ≡ mul_acc_name minus }
    ensures short { length result.now ≤ 5 }
{
    if minus { "mls" } else { "mla" }
}

pub(crate) fn long_mul_name(op: LongMulOp) -> &'static str
    ensures value { result.now ≡ long_mul_name op }
    ensures short { length result.now ≤ 5 }
{
    match op {
        LongMulOp::Smull => "smull",
        LongMulOp::Umull => "umull",
        LongMulOp::Smlal => "smlal",
        LongMulOp::Umlal => "umlal",
    }
}

pub(crate) fn div_name(signed: bool) -> &'static str
    ensures value { result.now ≡ div_name signed }
    ensures short { length result.now ≤ 5 }
{
    if signed { "sdiv" } else { "udiv" }
}

pub(crate) fn access_name(op: AccessOp) -> &'static str
    ensures value { result.now ≡ access_name op }
    ensures short { length result.now ≤ 5 }
{
    match op {
        AccessOp::Ldr => "ldr",
        AccessOp::Ldrb => "ldrb",
        AccessOp::Ldrh => "ldrh",
        AccessOp::Ldrsb => "ldrsb",
        AccessOp::Ldrsh => "ldrsh",
        AccessOp::Str => "str",
        AccessOp::Strb => "strb",
        AccessOp::Strh => "strh",
    }
}

pub(crate) fn pair_name(load: bool) -> &'static str
    ensures value { result.now ≡ pair_name load }
    ensures short { length result.now ≤ 5 }
{
    if load { "ldrd" } else { "strd" }
}

pub(crate) fn multi_name(load: bool, down: bool) -> &'static str
    ensures value { result.now ≡ multi_name load down }
    ensures short { length result.now ≤ 5 }
{
    match (load, down) {
        (true, false) => "ldmia",
        (true, true) => "ldmdb",
        (false, false) => "stmia",
        (false, true) => "stmdb",
    }
}

pub(crate) fn cond_name(cond: Cond) -> &'static str
    ensures value { result.now ≡ cond_name cond }
    ensures short { length result.now ≤ 5 }
{
    match cond {
        Cond::Eq => "eq",
        Cond::Ne => "ne",
        Cond::Cs => "cs",
        Cond::Cc => "cc",
        Cond::Mi => "mi",
        Cond::Pl => "pl",
        Cond::Vs => "vs",
        Cond::Vc => "vc",
        Cond::Hi => "hi",
        Cond::Ls => "ls",
        Cond::Ge => "ge",
        Cond::Lt => "lt",
        Cond::Gt => "gt",
        Cond::Le => "le",
        Cond::Al => "al",
    }
}

pub(crate) fn zero_branch_name(nonzero: bool) -> &'static str
    ensures value { result.now ≡ zero_branch_name nonzero }
    ensures short { length result.now ≤ 5 }
{
    if nonzero { "cbnz" } else { "cbz" }
}

pub(crate) fn nothing_name(op: NothingOp) -> &'static str
    ensures value { result.now ≡ nothing_name op }
    ensures short { length result.now ≤ 5 }
{
    match op {
        NothingOp::Nop => "nop",
        NothingOp::Dmb => "dmb",
        NothingOp::Dsb => "dsb",
        NothingOp::Isb => "isb",
    }
}
