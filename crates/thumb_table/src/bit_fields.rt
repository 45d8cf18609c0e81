//! Fields of bits, extensions, and orders of bytes and bits.

ghost use Rattle.std.specs.Prelude.{◌≡◌, OnOk, IfErr, Option};
ghost use Rattle.thumb_instr.specs.declared.instructions.Instr.TheVariants as instr;
ghost use Rattle.thumb_table.specs.Effects.{field_value, source};
ghost use Rattle.thumb_table.specs.CoreStates.{alone};
ghost use Rattle.thumb_table.specs.Views.{ChangesTo, Halts};

use crate::bit_values::{extended, field_of, lowest, rotated, unary, with_field};
use crate::flags::write_word;
use crate::{Core, FaultKind};
use mark_word::Word;
use thumb_instr::{Field, FieldOp, Reg, Unary};

/// A source's value; 0 where there is none.
fn source(n: Option<Reg>, s: &Core) -> u32
    ensures { result ≡ source n (alone s.now) }
{
    match n {
        None => 0,
        Some(r) => s.word(r).bits(),
    }
}

/// What SBFX, UBFX, BFI and BFC write.
fn field_value(i: &Field, s: &Core) -> u32
    ensures { result ≡ field_value i.now.op i.now.d i.now.n i.now.lsb i.now.width (alone s.now) }
{
    let n = source(i.n, s);
    let old = s.word(i.d).bits();
    let lsb = i.lsb;
    let width = i.width;
    match i.op {
        FieldOp::Sbfx => extended(width, field_of(lsb, width, n)),
        FieldOp::Ubfx => field_of(lsb, width, n),
        FieldOp::Bfi => with_field(lsb, width, lowest(width, n), old),
        FieldOp::Bfc => with_field(lsb, width, 0, old),
    }
}

/// SBFX, UBFX, BFI and BFC.
pub(crate) fn apply_field(i: &Field, next: u32, s: &mut Core) -> Result<(), FaultKind>
    ensures done { OnOk result (ChangesTo (instr.Field i.now) next s.old s.new) }
    ensures fault { IfErr result (λ kind. Halts (instr.Field i.now) next s.old kind × (s.new ≡ s.old)) }
{
    let value = field_value(i, s);
    write_word(i.d, Word::plain(value), next, s)
}

/// SXTH, SXTB, UXTH, UXTB, REV, REV16, REVSH, RBIT and CLZ.
pub(crate) fn apply_unary(i: &Unary, next: u32, s: &mut Core) -> Result<(), FaultKind>
    ensures done { OnOk result (ChangesTo (instr.Unary i.now) next s.old s.new) }
    ensures fault { IfErr result (λ kind. Halts (instr.Unary i.now) next s.old kind × (s.new ≡ s.old)) }
{
    let turned = rotated(s.word(i.m).bits(), i.turn);
    let value = unary(i.op, turned);
    write_word(i.d, Word::plain(value), next, s)
}
