//! The numbers in the places of relocations.

ghost use Rattle.std.specs.Prelude.{◌≡◌, ◌+◌, ◌≤◌, true, length};
ghost use Rattle.elf_model.specs.Fields.{half_at};
ghost use Rattle.elf_model.specs.Ranges.{is_long};
ghost use Rattle.thumb_instr.specs.Meanings.{signed};
ghost use Rattle.reloc_places.specs.Relocations.{is_word as is_word_kind, number_in, addend as addend_of};

use crate::instructions::decode_at;
use crate::kinds::is_word;
use byteorder::{ByteOrder, LittleEndian};
use elf_model::Reloc;
use thumb_instr::Instr;

/// The signed number that a halfword stands for.
fn signed(n: u16) -> i32
    ensures { result ≡ signed 16 n }
{
    if n < 0x8000 {
        i32::from(n)
    } else {
        i32::from(n) - 0x10000
    }
}

/// The number that an instruction has for a relocation, modulo 2^32.
fn number_of(i: &Instr) -> u32
    ensures { result ≡ number_in (Ok i.now) }
{
    match i {
        Instr::Branch(i) => i.offset.cast_unsigned(),
        Instr::Call(i) => i.offset.cast_unsigned(),
        Instr::Half(i) => signed(i.imm).cast_unsigned(),
        _ => 0,
    }
}

/// The number in a relocation's place, modulo 2^32.
pub fn addend(bytes: &[u8], r: &Reloc) -> u32
    requires half { r.now.offset + 2 ≤ length bytes.now }
    requires full { is_long (half_at bytes.now r.now.offset) ≡ true → r.now.offset + 4 ≤ length bytes.now }
    requires word { is_word_kind r.now.kind ≡ true → r.now.offset + 4 ≤ length bytes.now }
    ensures { result ≡ addend_of bytes.now r.now }
{
    if is_word(r.kind) {
        LittleEndian::read_u32(&bytes[r.offset as usize..])
    } else {
        match decode_at(bytes, r.offset, 0) {
            Ok(i) => number_of(&i),
            Err(_) => 0,
        }
    }
}
