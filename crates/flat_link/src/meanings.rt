//! What the symbols of relocations mean.

ghost use Rattle.std.specs.Prelude.{◌≡◌, map, find, option_map, is_none};
ghost use Rattle.thumb_table.specs.Names.{meant as meant_by};
ghost use Rattle.flat_link.specs.Known.{defined_of, AreNames};
ghost use Rattle.flat_link.specs.Sites.{sited_of, meaning as meaning_of};

use crate::known::Known;
use crate::names::{Names, is_defined, resolved};
use crate::sites::Site;
use elf_model::Symbol;

const LOCAL: u8 = 0;

/// What symbol `k` of an object stands for.
fn meant<'a>(names: &Names<'a>, object: u32, k: u32, s: &'a Symbol) -> Option<Known<'a>>
    requires { AreNames names.now }
    ensures { option_map defined_of result ≡ meant_by names.now.objects.now object k s.now }
{
    if s.bind == LOCAL && is_defined(s.home) {
        Some(Known {
            object,
            index: k,
            symbol: s,
        })
    } else {
        resolved(names, s.name.bytes())
    }
}

/// What a relocation's symbol means.
pub(crate) fn meaning<'a>(names: &Names<'a>, site: &Site<'a>) -> Option<Known<'a>>
    requires { AreNames names.now }
    ensures { option_map defined_of result ≡ meaning_of names.now.objects.now (sited_of site.now) }
{
    match site.object.symbols().get(site.reloc.symbol as usize) {
        None => None,
        Some(s) => meant(names, site.file, site.reloc.symbol, s),
    }
}

/// The first relocation whose symbol means nothing.
pub(crate) fn first_undefined<'a>(names: &Names<'a>, sites: &[Site<'a>]) -> Option<Site<'a>>
    requires { AreNames names.now }
    ensures { option_map sited_of result ≡ find (λ s. is_none (meaning_of names.now.objects.now s)) (map sited_of sites.now) }
{
    for site in sites {
        if meaning(names, site).is_none() {
            return Some(*site);
        }
    }
    None
}
