//! What symbols stand for, and what relocations make of them.

ghost use Rattle.std.specs.Prelude.{◌≡◌, ℕ, IsTrue};
ghost use Rattle.elf_model.specs.Objects.{is_within, even as even_of};
ghost use Rattle.reloc_places.specs.Starts.{bytes_of as bytes_of_section};
ghost use Rattle.reloc_places.specs.Relocations.{IsRight, addend as addend_of, is_in_code as is_home_in_code, is_thumb as is_thumb_symbol, place_of as place_of_symbol, value_of as value_by, target_of as target_by};

use crate::addends::addend;
use crate::instructions::bytes_of;
use elf_model::numbers::FUNC;
use elf_model::{Home, Limit, Object, Reloc, Symbol, is_code};

/// Without bit 0, which a function's value has set.
pub fn even(a: u32) -> u32
    ensures { result ≡ even_of a }
{
    a - a % 2
}

/// Whether a symbol that is defined there is in code.
pub fn is_in_code(o: &Object, home: Home) -> bool
    ensures { result ≡ is_home_in_code o.now home }
{
    match home {
        Home::Undefined => false,
        Home::Absolute => false,
        Home::Section(j) => match o.sections().get(j as usize) {
            None => false,
            Some(s) => is_code(s),
        },
    }
}

/// A function of Thumb code.
pub fn is_thumb(o: &Object, s: &Symbol) -> bool
    ensures { result ≡ is_thumb_symbol o.now s.now }
{
    s.kind == FUNC && is_in_code(o, s.home)
}

/// A symbol's value, without bit 0 of a function's.
pub fn place_of(o: &Object, s: &Symbol) -> u32
    ensures { result ≡ place_of_symbol o.now s.now }
{
    if is_thumb(o, s) {
        even(s.value)
    } else {
        s.value
    }
}

/// The number in a right relocation's place.
fn number_at(o: &Object, r: &Reloc) -> u32
    requires within { IsTrue (is_within o.now Limit.ANY) }
    requires right { (k : ℕ) × IsRight o.now k r.now }
    ensures { result ≡ addend_of (bytes_of_section o.now r.now.section) r.now }
{
    o.sound();
    addend(bytes_of(o, r.section), r)
}

/// The value that a right relocation makes of its symbol, with bit 0 set for a function.
pub fn value_of(o: &Object, r: &Reloc, s: &Symbol) -> u32
    requires within { IsTrue (is_within o.now Limit.ANY) }
    requires right { (k : ℕ) × IsRight o.now k r.now }
    ensures { result ≡ value_by o.now r.now s.now }
{
    let sum = place_of(o, s).wrapping_add(number_at(o, r));
    if is_thumb(o, s) { even(sum) + 1 } else { sum }
}

/// Where a branch or call with a right relocation leads in its symbol's section.
pub fn target_of(o: &Object, r: &Reloc, s: &Symbol) -> u32
    requires within { IsTrue (is_within o.now Limit.ANY) }
    requires right { (k : ℕ) × IsRight o.now k r.now }
    ensures { result ≡ target_by o.now r.now s.now }
{
    place_of(o, s).wrapping_add(number_at(o, r)).wrapping_add(4)
}
