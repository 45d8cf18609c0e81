//! Products and quotients.

ghost use Rattle.std.specs.Prelude.{◌≡◌, ◌+◌, ◌*◌, ◌^◌, OnOk, IfErr};
ghost use Rattle.thumb_instr.specs.declared.instructions.Instr.TheVariants as instr;
ghost use Rattle.thumb_table.specs.Values.{wrapped};
ghost use Rattle.thumb_table.specs.Views.{ChangesTo, Halts};

use crate::addresses::moved;
use crate::flags::{write_signed, write_two, write_word};
use crate::product_values::{divided, long_product};
use crate::{Core, FaultKind};
use mark_word::Word;
use thumb_instr::{Div, LongMul, Mul, MulAcc};

/// MUL.
pub(crate) fn apply_mul(i: &Mul, next: u32, s: &mut Core) -> Result<(), FaultKind>
    ensures done { OnOk result (ChangesTo (instr.Mul i.now) next s.old s.new) }
    ensures fault { IfErr result (λ kind. Halts (instr.Mul i.now) next s.old kind × (s.new ≡ s.old)) }
{
    let n = s.word(i.n).bits();
    let m = s.word(i.m).bits();
    let product = n.wrapping_mul(m);
    write_signed(i.s, i.d, product, next, s)
}

/// MLA and MLS.
pub(crate) fn apply_mul_acc(i: &MulAcc, next: u32, s: &mut Core) -> Result<(), FaultKind>
    ensures done { OnOk result (ChangesTo (instr.MulAcc i.now) next s.old s.new) }
    ensures fault { IfErr result (λ kind. Halts (instr.MulAcc i.now) next s.old kind × (s.new ≡ s.old)) }
{
    let n = s.word(i.n).bits();
    let m = s.word(i.m).bits();
    let a = s.word(i.a).bits();
    let product = n.wrapping_mul(m);
    let sum = moved(!i.minus, u64::from(a), product);
    write_word(i.d, Word::plain(sum), next, s)
}

/// A number of 64 bits.
fn joined(hi: u32, lo: u32) -> u64
    ensures { result ≡ hi * 2 ^ 32 + wrapped lo }
{
    u64::from(hi) * 0x1_0000_0000 + u64::from(lo)
}

/// SMULL, UMULL, SMLAL and UMLAL.
pub(crate) fn apply_long_mul(i: &LongMul, next: u32, s: &mut Core) -> Result<(), FaultKind>
    ensures done { OnOk result (ChangesTo (instr.LongMul i.now) next s.old s.new) }
    ensures fault { IfErr result (λ kind. Halts (instr.LongMul i.now) next s.old kind × (s.new ≡ s.old)) }
{
    let n = s.word(i.n).bits();
    let m = s.word(i.m).bits();
    let hi = s.word(i.hi).bits();
    let lo = s.word(i.lo).bits();
    let old = joined(hi, lo);
    let product = long_product(i.op, n, m, old);
    write_two(i.lo, i.hi, product, next, s)
}

/// SDIV and UDIV.
pub(crate) fn apply_div(i: &Div, next: u32, s: &mut Core) -> Result<(), FaultKind>
    ensures done { OnOk result (ChangesTo (instr.Div i.now) next s.old s.new) }
    ensures fault { IfErr result (λ kind. Halts (instr.Div i.now) next s.old kind × (s.new ≡ s.old)) }
{
    let n = s.word(i.n).bits();
    let m = s.word(i.m).bits();
    let value = divided(i.signed, n, m);
    write_word(i.d, Word::plain(value), next, s)
}
