//! The relocations of all objects.

ghost use Rattle.std.specs.Prelude.{◌≡◌, ◌≤◌, ◌++◌, map, length, All, OnOk, IfOk, IsTrue};
ghost use Rattle.elf_model.specs.Objects.{is_within};
ghost use Rattle.flat_link.specs.Sites.{sited, all_sited, sited_of};

use elf_model::{Limit, Object, Reloc};
use std::alloc::{AllocError, Global};

/// A relocation, of which object and its number there.
#[derive(Clone, Copy)]
pub(crate) struct Site<'a> {
    pub(crate) file: u32,
    pub(crate) object: &'a Object,
    pub(crate) number: u32,
    pub(crate) reloc: &'a Reloc,
}

fn push_sites<'a>(
    sites: &mut Vec<Site<'a>>,
    file: u32,
    object: &'a Object,
) -> Result<(), AllocError>
    requires { length object.now.relocs ≤ 524288 }
    ensures { OnOk result (map sited_of sites.new.items ≡ map sited_of sites.old.items ++ sited file object.now 0 object.now.relocs) }
{
    for (k, reloc) in object.relocs().iter().enumerate() {
        sites.push(Site {
            file,
            object,
            number: k as u32,
            reloc,
        })?;
    }
    Ok(())
}

/// The relocations of all objects, in the order of objects and relocations.
pub(crate) fn all_sites<'a>(
    alloc: Global,
    objects: &'a [Object],
) -> Result<Vec<Site<'a>>, AllocError>
    requires few { length objects.now ≤ 16 }
    requires within { All (λ o. IsTrue (is_within o Limit.ANY)) objects.now }
    ensures { IfOk result (λ sites. map sited_of sites.items ≡ all_sited 0 objects.now) }
{
    let mut sites = Vec::new(alloc);
    for (i, o) in objects.iter().enumerate() {
        push_sites(&mut sites, i as u32, o)?;
    }
    Ok(sites)
}
