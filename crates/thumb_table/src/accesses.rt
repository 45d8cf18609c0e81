//! Loads and stores of a word, halfword or byte (ARMv7-M ARM, A4.6).

ghost use Rattle.std.specs.Prelude.{◌≡◌, ◌+◌, ◌<◌, ◌≤◌, ◌^◌, true, length, OnOk, IfErr};
ghost use Rattle.thumb_instr.specs.declared.instructions.Instr.TheVariants as instr;
ghost use Rattle.thumb_instr.specs.Operands.{is_place};
ghost use Rattle.thumb_table.specs.Parts.{CodeBytes};
ghost use Rattle.thumb_table.specs.Values.{extended};
ghost use Rattle.thumb_table.specs.Effects.{access_address, base_write, size_of as size, lies_in};
ghost use Rattle.thumb_table.specs.CoreStates.{alone};
ghost use Rattle.thumb_table.specs.Views.{base_list, with_cells, is_load as is_load_of, loaded_word, stored_cells, Turns, Fails};

use crate::addresses::moved;
use crate::writes::{put_base, put_load};
use crate::{Core, FaultKind, Memory};
use mark_word::Word;
use thumb_instr::{Access, AccessOp, Place};

/// The address of an access.
pub(crate) fn access_address(i: &Access, s: &Core) -> u32
    ensures { result ≡ access_address i.now.n i.now.place (alone s.now) }
{
    let n = s.word(i.n).bits();
    match i.place {
        Place::Offset { up, imm } => moved(up, u64::from(n), u32::from(imm)),
        Place::Pre { up, imm } => moved(up, u64::from(n), u32::from(imm)),
        Place::Post { .. } => n,
        Place::Index { m, shift } => {
            let index = u64::from(s.word(m).bits()) << shift;
            ((u64::from(n) + index) % 0x1_0000_0000) as u32
        }
    }
}

/// The new number of the base, if it changes.
fn base_of(i: &Access, s: &Core) -> Option<u32>
    ensures { base_list i.now.n result ≡ base_write i.now.n i.now.place (alone s.now) }
{
    let n = u64::from(s.word(i.n).bits());
    match i.place {
        Place::Offset { .. } => None,
        Place::Pre { up, imm } => Some(moved(up, n, u32::from(imm))),
        Place::Post { up, imm } => Some(moved(up, n, u32::from(imm))),
        Place::Index { .. } => None,
    }
}

fn size_of(op: AccessOp) -> u32
    ensures { result ≡ size op }
{
    match op {
        AccessOp::Ldr | AccessOp::Str => 4,
        AccessOp::Ldrh | AccessOp::Ldrsh | AccessOp::Strh => 2,
        AccessOp::Ldrb | AccessOp::Ldrsb | AccessOp::Strb => 1,
    }
}

fn is_load(op: AccessOp) -> bool
    ensures { result ≡ is_load_of op }
{
    match op {
        AccessOp::Str | AccessOp::Strb | AccessOp::Strh => false,
        _ => true,
    }
}

/// A byte with its sign.
fn signed_byte(byte: u8) -> u32
    ensures { result ≡ extended 8 byte }
{
    if byte / 128 == 1 {
        u32::from(byte) + 0xffff_ff00
    } else {
        u32::from(byte)
    }
}

/// A halfword with its sign.
fn signed_half(half: u32) -> u32
    requires { half < 2 ^ 16 }
    ensures { result ≡ extended 16 half }
{
    if half / 0x8000 == 1 {
        half + 0xffff_0000
    } else {
        half
    }
}

/// What a load reads.
fn load(op: AccessOp, address: u32, m: &Memory) -> Word
    ensures { result ≡ loaded_word op m.now address }
{
    let at = u64::from(address);
    match op {
        AccessOp::Ldr => m.word_at(at).word,
        AccessOp::Ldrb => Word::plain(u32::from(m.cell_at(at).byte())),
        AccessOp::Ldrh => Word::plain(m.half_at(at)),
        AccessOp::Ldrsb => Word::plain(signed_byte(m.cell_at(at).byte())),
        AccessOp::Ldrsh => Word::plain(signed_half(m.half_at(at))),
        _ => Word::plain(0),
    }
}

/// What a store writes.
fn store(op: AccessOp, address: u32, w: Word, m: &mut Memory)
    requires lies { lies_in m.old address (size op) ≡ true }
    requires ends { m.old.base + length m.old.cells < 2 ^ 32 }
    ensures { m.new ≡ with_cells (stored_cells op w address) m.old }
{
    match op {
        AccessOp::Str => m.store_word(address, w),
        AccessOp::Strb => m.store_byte(address, w),
        AccessOp::Strh => m.store_half(address, w),
        _ => {}
    }
}

/// LDR, STR and their like.
pub(crate) fn apply_access(
    i: &Access,
    next: u32,
    s: &mut Core,
    m: &mut Memory,
) -> Result<(), FaultKind>
    requires { m.old.base + length m.old.cells < 2 ^ 32 }
    ensures done { OnOk result ((code : CodeBytes) → Turns code (instr.Access i.now) next s.old m.old s.new m.new) }
    ensures fault { IfErr result (λ kind. ((code : CodeBytes) → Fails code (instr.Access i.now) next s.old m.old kind) × (s.new ≡ s.old) × (m.new ≡ m.old)) }
{
    let op = i.op;
    let address = access_address(i, s);
    if !m.holds(address, size_of(op)) {
        return Err(FaultKind::BadAddress);
    }
    let base = base_of(i, s);
    if is_load(op) {
        return put_load(i.n, base, i.t, load(op, address, m), next, s);
    }
    let w = s.word(i.t);
    match put_base(i.n, base, next, s) {
        Ok(()) => {
            store(op, address, w, m);
            Ok(())
        }
        Err(kind) => Err(kind),
    }
}
