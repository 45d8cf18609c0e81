//! Words of the code, addresses near an instruction, and the halves of numbers (ARMv7-M ARM, A7.7.43, A7.7.7,
//! A7.7.76 and A7.7.79).

ghost use Rattle.std.specs.Prelude.{◌≡◌, ◌+◌, ◌-◌, ◌*◌, ◌/◌, ◌<◌, ◌≤◌, ◌^◌, ℕ, true, map, OnOk, IfErr};
ghost use Rattle.std.specs.List.Sorted.{IsStrictlyIncreasing};
ghost use Rattle.elf_model.specs.Fields.{word_at as code_word};
ghost use Rattle.mark_word.specs.Words.{plain};
ghost use Rattle.thumb_instr.specs.declared.instructions.Instr.TheVariants as instr;
ghost use Rattle.thumb_table.specs.Parts.{Memory};
ghost use Rattle.thumb_table.specs.Values.{moved as moved_of};
ghost use Rattle.thumb_table.specs.Effects.{lies, marked as marked_of, mark_at as mark_of, half_word as half_word_of};
ghost use Rattle.thumb_table.specs.CoreStates.{alone, site_of};
ghost use Rattle.thumb_table.specs.Views.{MovesOn, Faults, Turns, Fails};

use crate::addresses::{literal_base, moved};
use crate::flags::write_word;
use crate::marks::{completed, low_half, mark_at, marked};
use crate::{CodeBytes, Core, FaultKind};
use byteorder::{ByteOrder, LittleEndian};
use mark_word::Word;
use thumb_instr::{Adr, Half, Literal};

/// The word of an ADR.
fn near(i: &Adr, pc: u32) -> Word
    ensures { result ≡ plain (moved_of i.now.up ((pc + 4) / 4 * 4) i.now.imm) }
{
    Word::plain(moved(i.up, literal_base(pc), u32::from(i.imm)))
}

/// ADR.
pub(crate) fn apply_adr(i: &Adr, next: u32, s: &mut Core) -> Result<(), FaultKind>
    ensures done { OnOk result (MovesOn (instr.Adr i.now) next s.old s.new) }
    ensures fault { IfErr result (λ kind. Faults (instr.Adr i.now) next s.old kind × (s.new ≡ s.old)) }
{
    write_word(i.d, near(i, s.pc), next, s)
}

/// The address of a literal.
fn literal_address(i: &Literal, pc: u32) -> u32
    ensures { result ≡ moved_of i.now.up ((pc + 4) / 4 * 4) i.now.imm }
{
    moved(i.up, literal_base(pc), u32::from(i.imm))
}

/// The word of the code at an address, with the mark of its place.
fn literal(code: &CodeBytes, address: u32) -> Word
    requires marks { IsStrictlyIncreasing (map (λ p. p.at) code.now.marks) }
    requires lies { lies code.now address 4 ≡ true }
    ensures { result ≡ marked_of (code_word code.now.bytes (address - code.now.base)) (mark_of code.now.marks address) }
{
    let at = (address - code.base()) as usize;
    let bits = LittleEndian::read_u32(&code.bytes()[at..]);
    marked(bits, mark_at(code.marks(), address))
}

/// LDR of a literal.
pub(crate) fn apply_literal(
    i: &Literal,
    code: &CodeBytes,
    next: u32,
    s: &mut Core,
) -> Result<(), FaultKind>
    requires { IsStrictlyIncreasing (map (λ p. p.at) code.now.marks) }
    ensures done { OnOk result ((m : Memory) → Turns code.now (instr.Literal i.now) next s.old m s.new m) }
    ensures fault { IfErr result (λ kind. ((m : Memory) → Fails code.now (instr.Literal i.now) next s.old m kind) × (s.new ≡ s.old)) }
{
    let address = literal_address(i, s.pc);
    if !code.holds(address, 4) {
        return Err(FaultKind::BadAddress);
    }
    write_word(i.t, literal(code, address), next, s)
}

/// The word of a MOVW or MOVT.
fn half_word(i: &Half, code: &CodeBytes, s: &Core) -> Word
    requires { IsStrictlyIncreasing (map (λ p. p.at) code.now.marks) }
    ensures { (width : ℕ) → result ≡ half_word_of i.now.top i.now.d i.now.imm (site_of code.now s.now width) (alone s.now) }
{
    let place = mark_at(code.marks(), s.pc);
    if i.top {
        completed(i.imm, s.word(i.d), place)
    } else {
        low_half(i.imm, place)
    }
}

/// MOVW and MOVT.
pub(crate) fn apply_half(
    i: &Half,
    code: &CodeBytes,
    next: u32,
    s: &mut Core,
) -> Result<(), FaultKind>
    requires { IsStrictlyIncreasing (map (λ p. p.at) code.now.marks) }
    ensures done { OnOk result ((m : Memory) → Turns code.now (instr.Half i.now) next s.old m s.new m) }
    ensures fault { IfErr result (λ kind. ((m : Memory) → Fails code.now (instr.Half i.now) next s.old m kind) × (s.new ≡ s.old)) }
{
    write_word(i.d, half_word(i, code, s), next, s)
}
