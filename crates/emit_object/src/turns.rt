//! Which relocations turn to a symbol of their target's own, and where they lead.

ghost use Rattle.std.specs.Prelude.{◌≡◌, slice_get};
ghost use Rattle.reloc_places.specs.Starts.{bytes_of as bytes_of_section};
ghost use Rattle.reloc_places.specs.Relocations.{addend as addend_of, value_of as value_by, target_of as target_by};
ghost use Rattle.hardened_form.specs.Turns.{zero_addend as zero_addend_of, is_direct as is_direct_to, is_turned as is_turned_by, old_target as old_target_of, new_addend as new_addend_of};
ghost use Rattle.emit_object.specs.Readable.{IsReadable};
ghost use Rattle.emit_object.specs.TurnedPlaces.{place_in as place_at_home, turned_place as turned_to};

use elf_model::numbers::{FUNC, LOCAL};
use elf_model::{Home, Object, Reloc, Symbol};
use reloc_places::{addend, bytes_of, even, is_in_code, is_jump, is_thumb, place_of};

/// The number in a relocation's place.
fn number_at(o: &Object, r: &Reloc) -> u32
    requires { IsReadable o.now r.now }
    ensures { result ≡ addend_of (bytes_of_section o.now r.now.section) r.now }
{
    addend(bytes_of(o, r.section), r)
}

/// The number of a relocation that leads to its symbol itself.
fn zero_addend(r: &Reloc) -> u32
    ensures { result ≡ zero_addend_of r.now }
{
    if is_jump(r.kind) { 0xFFFF_FFFC } else { 0 }
}

/// Whether a relocation leads to a function, or to a symbol that other objects see, itself.
fn is_direct(o: &Object, r: &Reloc, s: &Symbol) -> bool
    requires { IsReadable o.now r.now }
    ensures { result ≡ is_direct_to o.now r.now s.now }
{
    (s.kind == FUNC || s.bind != LOCAL) && number_at(o, r) == zero_addend(r)
}

/// Whether a relocation leads into code in another way.
pub fn is_turned(o: &Object, r: &Reloc) -> bool
    requires { IsReadable o.now r.now }
    ensures { result ≡ is_turned_by o.now r.now }
{
    match o.symbols().get(r.symbol as usize) {
        None => false,
        Some(s) => is_in_code(o, s.home) && !is_direct(o, r, s),
    }
}

/// The number that is left in a relocation's place.
pub(crate) fn new_addend(o: &Object, r: &Reloc) -> u32
    requires { IsReadable o.now r.now }
    ensures { result ≡ new_addend_of o.now r.now }
{
    if is_turned(o, r) {
        zero_addend(r)
    } else {
        number_at(o, r)
    }
}

/// The value that a relocation makes of its symbol.
fn value_at(o: &Object, r: &Reloc, s: &Symbol) -> u32
    requires { IsReadable o.now r.now }
    ensures { result ≡ value_by o.now r.now s.now }
{
    let sum = place_of(o, s).wrapping_add(number_at(o, r));
    if is_thumb(o, s) { even(sum) + 1 } else { sum }
}

/// Where a branch or call leads by its relocation.
fn jump_target(o: &Object, r: &Reloc, s: &Symbol) -> u32
    requires { IsReadable o.now r.now }
    ensures { result ≡ target_by o.now r.now s.now }
{
    place_of(o, s).wrapping_add(number_at(o, r)).wrapping_add(4)
}

/// The offset that a relocation leads to in its symbol's section.
fn old_target(o: &Object, r: &Reloc, s: &Symbol) -> u32
    requires { IsReadable o.now r.now }
    ensures { result ≡ old_target_of o.now r.now s.now }
{
    if is_jump(r.kind) {
        jump_target(o, r, s)
    } else {
        even(value_at(o, r, s))
    }
}

/// The section and offset that a relocation leads to in its symbol's section.
fn place_in(o: &Object, r: &Reloc, s: &Symbol) -> Option<(u32, u32)>
    requires { IsReadable o.now r.now }
    ensures { result ≡ place_at_home o.now r.now s.now s.now.home }
{
    match s.home {
        Home::Undefined => None,
        Home::Absolute => None,
        Home::Section(j) => Some((j, old_target(o, r, s))),
    }
}

/// The section and old offset that a relocation leads to, if it turns.
pub(crate) fn turned_place(o: &Object, r: &Reloc) -> Option<(u32, u32)>
    requires { IsReadable o.now r.now }
    ensures { result ≡ turned_to o.now r.now }
{
    if !is_turned(o, r) {
        return None;
    }
    match o.symbols().get(r.symbol as usize) {
        None => None,
        Some(s) => place_in(o, r, s),
    }
}
