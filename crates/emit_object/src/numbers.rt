//! The numbers of old symbols in the hardened object.

ghost use Rattle.std.specs.Prelude.{◌≡◌, ◌+◌, ◌<◌, ◌^◌, List, length, IfOk};
ghost use Rattle.flow_recover.specs.Points.{PointsRise};
ghost use Rattle.hardened_form.specs.Items.{Item};
ghost use Rattle.hardened_form.specs.Symbols.{stays as stays_among};
ghost use Rattle.emit_object.specs.FirstItems.{AreItemsOf};
ghost use Rattle.emit_object.specs.Laid.{Matches};
ghost use Rattle.emit_object.specs.MovedSymbols.{numbers_from};

use crate::moved_symbols::stays;
use elf_model::Object;
use elf_model::numbers::LOCAL;
use flow_recover::Flow;
use seq_core::Layout;
use std::alloc::{AllocError, Global};

/// The number of the next one behind this many symbols, where as many more have numbers of 32 bits too. As many symbols
/// as have none are more than memory has.
pub(crate) fn number_behind(count: usize, more: usize) -> Result<u32, AllocError>
    ensures count { IfOk result (λ n. n ≡ count) }
    ensures few { IfOk result (λ n. n + more < 2 ^ 32) }
{
    const LAST: usize = 0xFFFF_FFFF;
    if more > LAST || count > LAST - more {
        return Err(AllocError);
    }
    Ok(count as u32)
}

/// The new number of each symbol: local ones that stay come first, those that other objects see from a number on.
pub(crate) fn numbers(
    alloc: Global,
    o: &Object,
    f: &Flow,
    l: &Layout,
    first_shared: u32,
) -> Result<Vec<u32>, AllocError>
    requires points { PointsRise f.now }
    requires matches { Matches f.now l.now }
    requires few { first_shared + length o.now.symbols < 2 ^ 32 }
    ensures { IfOk result (λ list. (items : List Item) → AreItemsOf f.now l.now items → list.items ≡ numbers_from (stays_among o.now items) 0 first_shared o.now.symbols) }
{
    let mut list = Vec::new(alloc);
    let mut kept: u32 = 0;
    let mut shared = first_shared;
    for s in o.symbols() {
        if s.bind != LOCAL {
            list.push(shared)?;
            shared += 1;
        } else {
            list.push(kept)?;
            if stays(o, f, l, s) {
                kept += 1;
            }
        }
    }
    Ok(list)
}
