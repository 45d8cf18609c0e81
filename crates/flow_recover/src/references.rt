//! What right relocations make of symbols of code.

ghost use Rattle.std.specs.Prelude.{◌≡◌, ◌↔◌, ◌||◌, ℕ, Some, slice_get, IsTrue};
ghost use Rattle.elf_model.specs.Objects.{is_within};
ghost use Rattle.flow_recover.specs.declared.references.Address.{Address};
ghost use Rattle.reloc_places.specs.Relocations.{is_word as is_word_kind, is_half as is_half_kind, IsRight};
ghost use Rattle.flow_recover.specs.NamedClaims.{code_home as code_home_of, other_home as other_home_of, address_by as address_of, target_by as target_at, IsAddress, IsFarTarget};
ghost use Rattle.flow_recover.specs.Charts.{IsChart};

use crate::charts::Chart;
use elf_model::{Home, Limit, Object, Reloc, is_code};
use reloc_places::{is_half, is_jump, is_word, target_of, value_of};

/// A number that is counted from the beginning of a section.
#[derive(Clone, Copy)]
pub(crate) struct Address {
    pub(crate) section: u32,
    pub(crate) value: u32,
}

/// Whether a relocation of the object is right.
pub(crate) fn is_right(o: &Object, chart: &Chart, r: &Reloc) -> bool
    requires chart { IsChart o.now chart.now }
    requires there { (k : ℕ) × (slice_get o.now.relocs k ≡ Some r.now) }
    ensures { IsTrue result ↔ ((k : ℕ) × IsRight o.now k r.now) }
{
    o.sound();
    match chart.relocs.get(&(r.section, r.offset)) {
        None => false,
        Some(placed) => placed.right,
    }
}

/// The section of code that a symbol is defined in.
pub(crate) fn code_home(o: &Object, home: Home) -> Option<u32>
    ensures { result ≡ code_home_of o.now home }
{
    match home {
        Home::Undefined => None,
        Home::Absolute => None,
        Home::Section(j) => match o.sections().get(j as usize) {
            None => None,
            Some(s) => if is_code(s) { Some(j) } else { None },
        },
    }
}

/// The section that a symbol is defined in, if it is not this one.
fn other_home(section: u32, home: Home) -> Option<u32>
    ensures { result ≡ other_home_of section home }
{
    match home {
        Home::Undefined => None,
        Home::Absolute => None,
        Home::Section(j) => if j == section { None } else { Some(j) },
    }
}

/// A relocation of a word or of a half makes an address.
fn makes_address(r: &Reloc) -> bool
    ensures { result ≡ (is_word_kind r.now.kind || is_half_kind r.now.kind) }
{
    is_word(r.kind) || is_half(r.kind)
}

/// The address of code that a right relocation makes of its symbol.
fn address_by(o: &Object, r: &Reloc) -> Option<Address>
    requires within { IsTrue (is_within o.now Limit.ANY) }
    requires right { (k : ℕ) × IsRight o.now k r.now }
    ensures { result ≡ address_of o.now r.now (slice_get o.now.symbols r.now.symbol) }
{
    match o.symbols().get(r.symbol as usize) {
        None => None,
        Some(s) => match code_home(o, s.home) {
            None => None,
            Some(section) => Some(Address {
                section,
                value: value_of(o, r, s),
            }),
        },
    }
}

/// Where a right relocation sends a branch, if out of its section.
fn target_by(o: &Object, r: &Reloc) -> Option<Address>
    requires within { IsTrue (is_within o.now Limit.ANY) }
    requires right { (k : ℕ) × IsRight o.now k r.now }
    ensures { result ≡ target_at o.now r.now (slice_get o.now.symbols r.now.symbol) }
{
    match o.symbols().get(r.symbol as usize) {
        None => None,
        Some(s) => match other_home(r.section, s.home) {
            None => None,
            Some(section) => Some(Address {
                section,
                value: target_of(o, r, s),
            }),
        },
    }
}

/// The address of code that a relocation makes, with bit 0 set for a function.
pub(crate) fn reference_of(o: &Object, chart: &Chart, r: &Reloc) -> Option<Address>
    requires within { IsTrue (is_within o.now Limit.ANY) }
    requires chart { IsChart o.now chart.now }
    requires there { (k : ℕ) × (slice_get o.now.relocs k ≡ Some r.now) }
    ensures { (a : Address) → (result ≡ Some a) ↔ IsAddress o.now r.now a }
{
    if !is_right(o, chart, r) {
        return None;
    }
    if makes_address(r) {
        address_by(o, r)
    } else {
        None
    }
}

/// Where a branch or call leads by its relocation, if that is in another section.
pub(crate) fn far_target_of(o: &Object, chart: &Chart, r: &Reloc) -> Option<Address>
    requires within { IsTrue (is_within o.now Limit.ANY) }
    requires chart { IsChart o.now chart.now }
    requires there { (k : ℕ) × (slice_get o.now.relocs k ≡ Some r.now) }
    ensures { (a : Address) → (result ≡ Some a) ↔ IsFarTarget o.now r.now a }
{
    if !is_right(o, chart, r) {
        return None;
    }
    if is_jump(r.kind) {
        target_by(o, r)
    } else {
        None
    }
}
