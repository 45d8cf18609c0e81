//! The symbols of all objects.

ghost use Rattle.std.specs.Prelude.{◌≡◌, ◌≤◌, ◌++◌, map, length, All, OnOk, IfOk, IsTrue};
ghost use Rattle.elf_model.specs.Objects.{is_within};
ghost use Rattle.thumb_table.specs.Names.{numbered, all_symbols};
ghost use Rattle.flat_link.specs.Known.{defined_of};

use elf_model::{Limit, Object, Symbol};
use std::alloc::{AllocError, Global};

/// A symbol, of which object and its number there.
#[derive(Clone, Copy)]
pub(crate) struct Known<'a> {
    pub(crate) object: u32,
    pub(crate) index: u32,
    pub(crate) symbol: &'a Symbol,
}

fn push_known<'a>(
    all: &mut Vec<Known<'a>>,
    object: u32,
    symbols: &'a [Symbol],
) -> Result<(), AllocError>
    requires { length symbols.now ≤ 262144 }
    ensures { OnOk result (map defined_of all.new.items ≡ map defined_of all.old.items ++ numbered object 0 symbols.now) }
{
    for (k, s) in symbols.iter().enumerate() {
        all.push(Known {
            object,
            index: k as u32,
            symbol: s,
        })?;
    }
    Ok(())
}

/// The symbols of all objects, in the order of objects and symbols.
pub(crate) fn all_known<'a>(
    alloc: Global,
    objects: &'a [Object],
) -> Result<Vec<Known<'a>>, AllocError>
    requires few { length objects.now ≤ 16 }
    requires within { All (λ o. IsTrue (is_within o Limit.ANY)) objects.now }
    ensures { IfOk result (λ all. map defined_of all.items ≡ all_symbols 0 objects.now) }
{
    let mut all = Vec::new(alloc);
    for (i, o) in objects.iter().enumerate() {
        push_known(&mut all, i as u32, o.symbols())?;
    }
    Ok(all)
}
