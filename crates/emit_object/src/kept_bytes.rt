//! The bytes of sections that are kept, with the words of relocations that turn cleared.

ghost use Rattle.std.specs.Prelude.{◌≡◌, ◌<◌, map, length, IfOk};
ghost use Rattle.emit_object.specs.Readable.{IsReadable, AreReadable};
ghost use Rattle.emit_object.specs.KeptBytes.{AreCleared, is_among, IsClearedIn, AreClearedFor, kept_of, AreKept};

use crate::turns::is_turned;
use elf_model::{Object, Reloc, Section, is_code};
use std::alloc::{AllocError, Global};

/// The bytes of a section once more, if they are kept.
fn kept_copy(alloc: Global, s: &Section) -> Result<Vec<u8>, AllocError>
    ensures { IfOk result (λ copy. copy.items ≡ kept_of s.now) }
{
    let mut copy = Vec::new(alloc);
    if !is_code(s) {
        copy.extend_from_slice(s.bytes.as_slice())?;
    }
    Ok(copy)
}

/// The bytes of all sections that are kept, as they were.
fn kept_copies(alloc: Global, o: &Object) -> Result<Vec<Vec<u8>>, AllocError>
    ensures { IfOk result (λ all. map (λ v. v.items) all.items ≡ map kept_of o.now.sections) }
{
    let mut all = Vec::new(alloc);
    for s in o.sections() {
        all.push(kept_copy(alloc, s)?)?;
    }
    Ok(all)
}

/// Clears the four bytes from an offset on, as far as they are there.
fn clear_word(bytes: &mut [u8], at: u32)
    ensures { AreCleared (is_among at 4) bytes.old bytes.new }
{
    for k in 0..4 {
        let x = at as usize + k;
        if x < bytes.len() {
            bytes[x] = 0;
        }
    }
}

/// Clears a word of one section.
fn clear_in(all: &mut Vec<Vec<u8>>, j: u32, at: u32)
    requires { j < length all.old.items }
    ensures { IsClearedIn j at all.old.items all.new.items }
{
    clear_word(&mut all[j as usize], at);
}

/// Clears the word of a relocation, if it turns.
fn clear_turned(all: &mut Vec<Vec<u8>>, o: &Object, r: &Reloc)
    requires there { r.now.section < length all.old.items }
    requires readable { IsReadable o.now r.now }
    ensures { AreClearedFor o.now r.now all.old.items all.new.items }
{
    if is_turned(o, r) {
        clear_in(all, r.section, r.offset);
    }
}

/// The bytes of all sections that are kept, where words whose relocation turns are 0.
pub(crate) fn kept_bytes(alloc: Global, o: &Object) -> Result<Vec<Vec<u8>>, AllocError>
    requires { AreReadable o.now }
    ensures { IfOk result (λ all. AreKept o.now o.now.relocs all.items) }
{
    o.sound();
    let mut all = kept_copies(alloc, o)?;
    for r in o.relocs() {
        clear_turned(&mut all, o, r);
    }
    Ok(all)
}
