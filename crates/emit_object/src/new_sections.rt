//! The sections of a hardened object.

ghost use Rattle.std.specs.Prelude.{◌≡◌, ◌≢◌, ◌+◌, ◌*◌, ◌<◌, ◌^◌, ℕ, Some, length, slice_get, slice_index, IfOk};
ghost use Rattle.emit_object.specs.NewSections.{code_section as code_section_of, kept_section as kept_section_of, new_section as new_section_of, AreMade, AreNewSections};
ghost use Rattle.emit_object.specs.Readable.{AreReadable};

use crate::kept_bytes::kept_bytes;
use crate::map_section::map_section;
use crate::word_numbers::code_align;
use elf_model::{Bytes, MapRow, Object, Section, is_code};
use seq_core::Layout;
use std::alloc::{AllocError, Global};

/// A section of code, with its new size and bytes.
fn code_section(alloc: Global, s: &Section, size: u32, bytes: Bytes) -> Result<Section, AllocError>
    ensures { IfOk result (λ t. t ≡ code_section_of s.now size bytes) }
{
    let name = s.name.copy(alloc)?;
    Ok(Section {
        name,
        kind: s.kind,
        flags: s.flags,
        align: code_align(s),
        entry: s.entry,
        size,
        bytes,
    })
}

/// A section that is kept, with these bytes.
fn kept_section(alloc: Global, s: &Section, bytes: Bytes) -> Result<Section, AllocError>
    ensures { IfOk result (λ t. t ≡ kept_section_of s.now bytes) }
{
    let name = s.name.copy(alloc)?;
    Ok(Section {
        name,
        kind: s.kind,
        flags: s.flags,
        align: s.align,
        entry: s.entry,
        size: s.size,
        bytes,
    })
}

/// What becomes of a section, by its new code and the bytes that are kept.
fn new_section(
    alloc: Global,
    s: &Section,
    size: u32,
    code: Vec<u8>,
    kept: Vec<u8>,
) -> Result<Section, AllocError>
    ensures { IfOk result (λ t. t ≡ new_section_of s.now size code.items kept.items) }
{
    if is_code(s) {
        code_section(alloc, s, size, Bytes::new(code))
    } else {
        kept_section(alloc, s, Bytes::new(kept))
    }
}

/// Takes one of several lists of bytes, and leaves an empty one.
fn take_bytes(alloc: Global, all: &mut Vec<Vec<u8>>, j: usize) -> Vec<u8>
    requires { j < length all.old.items }
    ensures taken { slice_get all.old.items j ≡ Some result }
    ensures count { length all.new.items ≡ length all.old.items }
    ensures others { (i : ℕ) → i ≢ j → slice_get all.new.items i ≡ slice_get all.old.items i }
{
    std::mem::replace(&mut all[j], Vec::new(alloc))
}

/// The new size of a section; 0 where none is listed.
fn size_at(sizes: &[u32], j: usize) -> u32
    ensures { result ≡ slice_index sizes.now j }
{
    match sizes.get(j) {
        Some(size) => *size,
        None => 0,
    }
}

/// What becomes of the old sections.
fn old_sections(
    alloc: Global,
    sections: &[Section],
    sizes: &[u32],
    mut code: Vec<Vec<u8>>,
    mut kept: Vec<Vec<u8>>,
) -> Result<Vec<Section>, AllocError>
    requires code { length code.items ≡ length sections.now }
    requires kept { length kept.items ≡ length sections.now }
    ensures { IfOk result (λ list. AreMade sections.now sizes.now code.items kept.items (length sections.now) list.items) }
{
    let mut list = Vec::new(alloc);
    for j in 0..sections.len() {
        let new_code = take_bytes(alloc, &mut code, j);
        let old_bytes = take_bytes(alloc, &mut kept, j);
        let size = size_at(sizes, j);
        list.push(new_section(alloc, &sections[j], size, new_code, old_bytes)?)?;
    }
    Ok(list)
}

/// The sections of the hardened object: the old ones in order, with new code, and last the map.
pub(crate) fn new_sections(
    alloc: Global,
    o: &Object,
    l: &Layout,
    code: Vec<Vec<u8>>,
    rows: &[MapRow],
) -> Result<Vec<Section>, AllocError>
    requires readable { AreReadable o.now }
    requires code { length code.items ≡ length o.now.sections }
    requires few { 16 * length rows.now < 2 ^ 32 }
    ensures { IfOk result (λ list. AreNewSections o.now l.now.sizes code.items rows.now list.items) }
{
    let kept = kept_bytes(alloc, o)?;
    let mut list = old_sections(alloc, o.sections(), l.sizes(), code, kept)?;
    list.push(map_section(alloc, rows)?)?;
    Ok(list)
}
