//! Relocations with the parts that they stand in and what their symbols mean.

ghost use Rattle.std.specs.Prelude.{◌≡◌, map, option_map, IfOk};
ghost use Rattle.flat_link.specs.Known.{AreNames};
ghost use Rattle.flat_link.specs.Layout.{IsLayout, parts_in};
ghost use Rattle.flat_link.specs.Sites.{sited_of, link_of, link_at, links_among};

use crate::known::Known;
use crate::layout::Layout;
use crate::lots::Lot;
use crate::meanings::meaning;
use crate::names::Names;
use crate::sites::Site;
use crate::symbols::lot_of;
use elf_model::Symbol;
use std::alloc::{AllocError, Global};

/// A relocation, the section that it stands in, its symbol, and what that means.
#[derive(Clone, Copy)]
pub(crate) struct Tie<'a> {
    pub(crate) site: Site<'a>,
    pub(crate) lot: Lot<'a>,
    pub(crate) symbol: &'a Symbol,
    pub(crate) meant: Known<'a>,
}

/// What a relocation links.
fn tie_at<'a>(layout: &Layout<'a>, names: &Names<'a>, site: &Site<'a>) -> Option<Tie<'a>>
    requires layout { IsLayout layout.now }
    requires names { AreNames names.now }
    requires same { names.now.objects.now ≡ layout.now.objects.now }
    ensures { option_map link_of result ≡ link_at layout.now.objects.now (parts_in layout.now) (sited_of site.now) }
{
    let meant = meaning(names, site);
    match lot_of(layout, site.file, site.reloc.section) {
        None => None,
        Some(lot) => match site.object.symbols().get(site.reloc.symbol as usize) {
            None => None,
            Some(symbol) => match meant {
                None => None,
                Some(meant) => Some(Tie {
                    site: *site,
                    lot,
                    symbol,
                    meant,
                }),
            },
        },
    }
}

/// What relocations link, in their order.
pub(crate) fn ties_of<'a>(
    alloc: Global,
    layout: &Layout<'a>,
    names: &Names<'a>,
    sites: &[Site<'a>],
) -> Result<Vec<Tie<'a>>, AllocError>
    requires layout { IsLayout layout.now }
    requires names { AreNames names.now }
    requires same { names.now.objects.now ≡ layout.now.objects.now }
    ensures { IfOk result (λ ties. map link_of ties.items ≡ links_among layout.now.objects.now (parts_in layout.now) (map sited_of sites.now)) }
{
    let mut ties = Vec::new(alloc);
    for site in sites {
        if let Some(tie) = tie_at(layout, names, site) {
            ties.push(tie)?;
        }
    }
    Ok(ties)
}
