//! Relocations with the symbols that they name in the hardened object.

ghost use Rattle.std.specs.Prelude.{◌≡◌, ◌↔◌, ◌+◌, ◌<◌, ◌^◌, ℕ, Some, length, slice_get};
ghost use Rattle.std.specs.List.Sorted.{IsStrictlySortedBy};
ghost use Rattle.elf_model.specs.declared.objects.Reloc.{Reloc as RelocParts};
ghost use Rattle.code_ranges.specs.Spans.{place_cmp};
ghost use Rattle.hardened_form.specs.Symbols.{Lists};
ghost use Rattle.hardened_form.specs.Relocs.{IsNewSymbol, StandsFor};
ghost use Rattle.emit_object.specs.NewSymbolNumbers.{HasFunction, HasNumber};
ghost use Rattle.emit_object.specs.Numbering.{AreNumbers};
ghost use Rattle.emit_object.specs.Readable.{IsReadable};

use crate::turns::{is_turned, turned_place};
use elf_model::{Object, Reloc, RelocKind};

/// The index of a target among those that have a function of their own.
fn index_of(targets: &[(u32, u32)], place: (u32, u32)) -> Option<u32>
    requires few { length targets.now < 2 ^ 32 }
    requires rise { IsStrictlySortedBy place_cmp targets.now }
    ensures { (n : ℕ) → (result ≡ Some n) ↔ (slice_get targets.now n ≡ Some place) }
{
    match targets.binary_search_by_key(&place, |t| *t) {
        Ok(n) => Some(n as u32),
        Err(_) => None,
    }
}

/// The number of the function at the place that a relocation turns to.
fn own_number(o: &Object, r: &Reloc, targets: &[(u32, u32)], first: u32) -> Option<u32>
    requires readable { IsReadable o.now r.now }
    requires few { first + length targets.now < 2 ^ 32 }
    requires rise { IsStrictlySortedBy place_cmp targets.now }
    ensures { (m : ℕ) → (result ≡ Some m) ↔ HasFunction o.now r.now targets.now first m }
{
    let place = turned_place(o, r)?;
    let n = index_of(targets, place)?;
    Some(first + n)
}

/// The number that the symbol of a relocation has now.
fn same_number(o: &Object, r: &Reloc, numbers: &[u32]) -> Option<u32>
    ensures { (m : ℕ) → (result ≡ Some m) ↔ HasNumber o.now r.now numbers.now m }
{
    let _symbol = o.symbols().get(r.symbol as usize)?;
    let number = numbers.get(r.symbol as usize)?;
    Some(*number)
}

/// The number of the symbol that a relocation names now: the same one, or its target's own.
fn new_symbol(
    o: &Object,
    r: &Reloc,
    targets: &[(u32, u32)],
    first: u32,
    numbers: &[u32],
) -> Option<u32>
    requires readable { IsReadable o.now r.now }
    requires few { first + length targets.now < 2 ^ 32 }
    requires rise { IsStrictlySortedBy place_cmp targets.now }
    ensures { (l : Lists) → AreNumbers o.now l targets.now first numbers.now → (m : ℕ) → (result ≡ Some m) ↔ IsNewSymbol o.now l r.now m }
{
    if is_turned(o, r) {
        own_number(o, r, targets, first)
    } else {
        same_number(o, r, numbers)
    }
}

/// What stands for a relocation at an offset of its section, as one of a kind.
pub(crate) fn new_reloc(
    o: &Object,
    r: &Reloc,
    kind: RelocKind,
    at: u32,
    targets: &[(u32, u32)],
    first: u32,
    numbers: &[u32],
) -> Option<Reloc>
    requires readable { IsReadable o.now r.now }
    requires few { first + length targets.now < 2 ^ 32 }
    requires rise { IsStrictlySortedBy place_cmp targets.now }
    ensures { (l : Lists) → AreNumbers o.now l targets.now first numbers.now → (k : ℕ) → slice_get o.now.relocs k ≡ Some r.now → (q : RelocParts) → (result ≡ Some q) ↔ StandsFor o.now l k r.now kind at q }
{
    match new_symbol(o, r, targets, first, numbers) {
        None => None,
        Some(symbol) => Some(Reloc {
            section: r.section,
            offset: at,
            kind,
            symbol,
        }),
    }
}
