//! The bytes of sections, and what stands at an instruction start.

ghost use Rattle.std.specs.Prelude.{◌≡◌, ◌+◌, ◌≤◌, true, length};
ghost use Rattle.elf_model.specs.Fields.{half_at};
ghost use Rattle.elf_model.specs.Ranges.{is_long, length_at};
ghost use Rattle.reloc_places.specs.Starts.{bytes_of as bytes_of_section, decoded_at, instr_at, it_behind};

use byteorder::{ByteOrder, LittleEndian};
use elf_model::Object;
use thumb_decode::{decode, is_wide};
use thumb_instr::{BadInstr, Instr, it_after, it_state, place_in_block};

/// The bytes of a section; none where there is no such section.
pub fn bytes_of(o: &Object, section: u32) -> &[u8]
    ensures { result.now ≡ bytes_of_section o.now section }
{
    match o.sections().get(section as usize) {
        None => &[],
        Some(s) => s.bytes.as_slice(),
    }
}

/// The IT state behind an instruction.
pub fn state_behind(i: &Instr, it: u8) -> u8
    ensures { result ≡ it_behind i.now it }
{
    match i {
        Instr::It(i) => it_state(i.first, i.mask),
        _ => it_after(it),
    }
}

/// What the whole instruction at an offset stands for in an IT state.
pub fn decode_at(bytes: &[u8], at: u32, it: u8) -> Result<Instr, BadInstr>
    requires half { at + 2 ≤ length bytes.now }
    requires full { is_long (half_at bytes.now at) ≡ true → at + 4 ≤ length bytes.now }
    ensures { result ≡ decoded_at bytes.now at it }
{
    let place = place_in_block(it);
    let first = LittleEndian::read_u16(&bytes[at as usize..]);
    if is_wide(first) {
        let second = LittleEndian::read_u16(&bytes[at as usize + 2..]);
        decode(first, Some(second), place)
    } else {
        decode(first, None, place)
    }
}

/// How long the instruction at an offset is, in bytes.
pub fn length_at(bytes: &[u8], at: u32) -> u32
    requires { at + 2 ≤ length bytes.now }
    ensures { result ≡ length_at bytes.now at }
{
    if is_wide(LittleEndian::read_u16(&bytes[at as usize..])) {
        4
    } else {
        2
    }
}

/// How long the instruction at an offset is; 2 where the bytes end.
pub fn length_from(bytes: &[u8], at: u32) -> u32
    ensures { result ≡ length_at bytes.now at }
{
    if at as usize + 2 <= bytes.len() {
        length_at(bytes, at)
    } else {
        2
    }
}

/// What stands at an offset in an IT state; one that `end` cuts is no instruction.
pub fn instr_at(bytes: &[u8], end: u32, at: u32, it: u8) -> Result<Instr, BadInstr>
    requires before { at ≤ end }
    requires inside { end ≤ length bytes.now }
    ensures { result ≡ instr_at bytes.now end at it }
{
    let left = end - at;
    if left < 2 || left < length_at(bytes, at) {
        Err(BadInstr::Unknown)
    } else {
        decode_at(bytes, at, it)
    }
}
