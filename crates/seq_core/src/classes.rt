//! In which way an instruction is replaced.

ghost use Rattle.std.specs.Prelude.{◌≡◌, ◌↔◌, true, false, IfSome, IfNone, Some, None};
ghost use Rattle.seq_core.specs.Classes.{IsOf, adds_or_subtracts, has_no_class, loads_own_base, names, steps_stack, writes_base_back};

use thumb_instr::{
    Access, Alu, AluOp, Instr, LongMulOp, Multi, Pair, PairIndex, Place, Wide, is_idempotent,
};

/// The ways in which instructions are replaced.
#[derive(Clone, Copy, Debug, PartialEq, Eq)]
pub enum Class {
    /// By copies of itself.
    Twice,
    /// Its results go to scratch registers, and from there to their own.
    Through,
    /// MULS: the product goes to a scratch register, and flags are set as it is moved.
    ThroughFlags,
    /// A load or store that moves its base: the base is moved apart.
    WriteBack,
    /// A load into its own base: from a copy of the base.
    BaseCopy,
    /// SMLAL and UMLAL: a product, and a sum in two halves.
    LongSum,
    /// A store below sp that moves it.
    Push,
    /// A load at sp that moves it.
    Pop,
    /// A load at sp of pc too: a return.
    PopReturn,
    /// A sum or difference that moves sp.
    SpStep,
    /// Any other load or store of a list that moves its base.
    MultiBack,
    /// BL.
    DirectCall,
    /// BLX.
    RegisterCall,
    /// BX.
    RegisterJump,
    /// CBZ and CBNZ.
    ZeroBranch,
}

/// Whether an operation sums or subtracts without the carry.
fn sums(op: AluOp) -> bool
    ensures { result ≡ adds_or_subtracts op }
{
    matches!(op, AluOp::Add | AluOp::Sub)
}

fn alu_steps_stack(i: &Alu) -> bool
    ensures { result ≡ steps_stack (Instr.Alu i.now) }
{
    sums(i.op) && i.d.number() == 13 && i.n.number() == 13
}

fn wide_steps_stack(i: &Wide) -> bool
    ensures { result ≡ steps_stack (Instr.Wide i.now) }
{
    i.d.number() == 13 && i.n.number() == 13
}

fn access_writes_back(i: &Access) -> bool
    ensures { result ≡ writes_base_back (Instr.Access i.now) }
{
    matches!(i.place, Place::Pre { .. } | Place::Post { .. })
}

fn pair_writes_back(i: &Pair) -> bool
    ensures { result ≡ writes_base_back (Instr.Pair i.now) }
{
    matches!(i.index, PairIndex::Pre | PairIndex::Post)
}

fn pair_loads_base(i: &Pair) -> bool
    ensures { result ≡ loads_own_base (Instr.Pair i.now) }
{
    let n = i.n.number();
    i.load && !pair_writes_back(i) && (n == i.t.number() || n == i.u.number())
}

fn list_loads_base(i: &Multi) -> bool
    ensures { result ≡ loads_own_base (Instr.Multi i.now) }
{
    i.load && !i.back && !i.pc && i.list.has(i.n)
}

/// The class of a pair that some row names.
fn pair_class(i: &Pair) -> Option<Class>
    ensures named { IfSome result (λ c. names c (Instr.Pair i.now) ≡ true) }
    ensures none { IfNone result ((c : Class) → names c (Instr.Pair i.now) ≡ false) }
{
    if pair_writes_back(i) {
        Some(Class::WriteBack)
    } else if pair_loads_base(i) {
        Some(Class::BaseCopy)
    } else {
        None
    }
}

/// The class of a list of registers that moves its base.
fn moving_list_class(i: &Multi) -> Class
    requires pc { i.now.pc ≡ false }
    requires back { i.now.back ≡ true }
    ensures { names result (Instr.Multi i.now) ≡ true }
{
    if i.n.number() != 13 {
        Class::MultiBack
    } else if !i.load && i.down {
        Class::Push
    } else if i.load && !i.down {
        Class::Pop
    } else {
        Class::MultiBack
    }
}

/// The class of a list of registers that some row names.
fn list_class(i: &Multi) -> Option<Class>
    ensures named { IfSome result (λ c. names c (Instr.Multi i.now) ≡ true) }
    ensures none { IfNone result ((c : Class) → names c (Instr.Multi i.now) ≡ false) }
{
    if i.pc {
        Some(Class::PopReturn)
    } else if i.back {
        Some(moving_list_class(i))
    } else if list_loads_base(i) {
        Some(Class::BaseCopy)
    } else {
        None
    }
}

/// The class whose row names the instruction by its form.
fn named_class(i: &Instr) -> Option<Class>
    ensures named { IfSome result (λ c. names c i.now ≡ true) }
    ensures none { IfNone result ((c : Class) → names c i.now ≡ false) }
{
    match i {
        Instr::Alu(i) if alu_steps_stack(i) => Some(Class::SpStep),
        Instr::Wide(i) if wide_steps_stack(i) => Some(Class::SpStep),
        Instr::Mul(i) if i.s => Some(Class::ThroughFlags),
        Instr::LongMul(i) => match i.op {
            LongMulOp::Smlal | LongMulOp::Umlal => Some(Class::LongSum),
            _ => None,
        },
        Instr::Access(i) if access_writes_back(i) => Some(Class::WriteBack),
        Instr::Pair(i) => pair_class(i),
        Instr::Multi(i) => list_class(i),
        Instr::Call(_) => Some(Class::DirectCall),
        Instr::CallReg(_) => Some(Class::RegisterCall),
        Instr::Jump(_) => Some(Class::RegisterJump),
        Instr::ZeroBranch(_) => Some(Class::ZeroBranch),
        _ => None,
    }
}

/// Whether the instruction is replaced in no way of these: ADR and IT.
fn has_none(i: &Instr) -> bool
    ensures { result ≡ has_no_class i.now }
{
    matches!(i, Instr::Adr(_) | Instr::It(_))
}

/// The way in which an instruction is replaced; `None` for ADR and IT.
pub fn class_of(i: &Instr) -> Option<Class>
    ensures class { (c : Class) → (result ≡ Some c) ↔ IsOf c i.now }
    ensures none { (result ≡ None) ↔ (has_no_class i.now ≡ true) }
{
    if has_none(i) {
        return None;
    }
    match named_class(i) {
        Some(c) => Some(c),
        None => {
            if is_idempotent(i) {
                Some(Class::Twice)
            } else {
                Some(Class::Through)
            }
        }
    }
}
