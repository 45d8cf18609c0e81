//! The numbers in words of code, and how code is aligned.

ghost use Rattle.std.specs.Prelude.{◌≡◌, ◌≤◌, ◌+◌, max, length, Some};
ghost use Rattle.elf_model.specs.declared.objects.Reloc.{Reloc as RelocParts};
ghost use Rattle.reloc_places.specs.Starts.{bytes_of as bytes_of_section};
ghost use Rattle.hardened_form.specs.Code.{word_number as word_number_by, reloc_of};
ghost use Rattle.elf_model.specs.Fields.{word_at};
ghost use Rattle.emit_object.specs.Readable.{IsReadable};

use crate::turns::new_addend;
use byteorder::{ByteOrder, LittleEndian};
use elf_model::{Object, Section};
use flow_recover::PoolWord;
use reloc_places::bytes_of;

/// The number that a word of code had.
fn old_number(o: &Object, w: &PoolWord) -> u32
    requires { w.now.offset + 4 ≤ length (bytes_of_section o.now w.now.section) }
    ensures { result ≡ word_at (bytes_of_section o.now w.now.section) w.now.offset }
{
    let bytes = bytes_of(o, w.section);
    LittleEndian::read_u32(&bytes[w.offset as usize..])
}

/// The number in a word of code: as it was, or what is left to its relocation.
pub(crate) fn word_number(o: &Object, w: &PoolWord) -> u32
    requires there { w.now.offset + 4 ≤ length (bytes_of_section o.now w.now.section) }
    requires readable { (r : RelocParts) → reloc_of o.now w.now.reloc ≡ Some r → IsReadable o.now r }
    ensures { result ≡ word_number_by o.now w.now (reloc_of o.now w.now.reloc) }
{
    match w.reloc {
        None => old_number(o, w),
        Some(k) => match o.relocs().get(k as usize) {
            None => old_number(o, w),
            Some(r) => new_addend(o, r),
        },
    }
}

/// The alignment of a section of code: 4 at least.
pub(crate) fn code_align(s: &Section) -> u32
    ensures { result ≡ max 4 s.now.align }
{
    4u32.max(s.align)
}
