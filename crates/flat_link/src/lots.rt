//! The sections of objects in their places.

ghost use Rattle.std.specs.Prelude.{◌≡◌, ◌<◌, ◌≤◌, ◌*◌, ◌^◌, ◌++◌, map, length, All, OnOk, IfOk, IsTrue};
ghost use Rattle.std.specs.List.{list_all};
ghost use Rattle.elf_model.specs.Objects.{is_within};
ghost use Rattle.thumb_table.specs.Layouts.{chosen as chosen_of, all_chosen, placed as placed_from};
ghost use Rattle.flat_link.specs.Placing.{is_of, alignment_of, end_of as end_of_parts};
ghost use Rattle.flat_link.specs.Lots.{placed_of, is_sound};

use crate::sorts::{Sort, is_of, start_of};
use elf_model::{Limit, Object, Section};
use std::alloc::{AllocError, Global};

/// A section in its place: of which object, its number there, its number among the sections of its
/// sort, and where it starts.
#[derive(Clone, Copy)]
pub(crate) struct Lot<'a> {
    pub(crate) object: u32,
    pub(crate) index: u32,
    pub(crate) ordinal: u32,
    pub(crate) start: u32,
    pub(crate) section: &'a Section,
}

/// Adds the sections of a sort of one object, not yet placed.
fn push_chosen<'a>(
    lots: &mut Vec<Lot<'a>>,
    sort: Sort,
    object: u32,
    sections: &'a [Section],
) -> Result<(), AllocError>
    requires { length sections.now ≤ 1024 }
    ensures { OnOk result (map placed_of lots.new.items ≡ map placed_of lots.old.items ++ chosen_of (is_of sort) object 0 0 sections.now) }
{
    let mut ordinal = 0;
    for (j, s) in sections.iter().enumerate() {
        if is_of(sort, s) {
            lots.push(Lot {
                object,
                index: j as u32,
                ordinal,
                start: 0,
                section: s,
            })?;
            ordinal += 1;
        }
    }
    Ok(())
}

/// The sections of a sort of all objects, not yet placed.
pub(crate) fn chosen<'a>(
    alloc: Global,
    sort: Sort,
    objects: &'a [Object],
) -> Result<Vec<Lot<'a>>, AllocError>
    requires few { length objects.now ≤ 16 }
    requires within { All (λ o. IsTrue (is_within o Limit.ANY)) objects.now }
    ensures { IfOk result (λ lots. map placed_of lots.items ≡ all_chosen (is_of sort) 0 objects.now) }
{
    let mut lots = Vec::new(alloc);
    for (i, o) in objects.iter().enumerate() {
        push_chosen(&mut lots, sort, i as u32, o.sections())?;
    }
    Ok(lots)
}

/// Where sections end that stand one behind the other.
pub(crate) fn end_of(sort: Sort, lots: &[Lot], from: u64) -> u64
    requires sound { IsTrue (list_all is_sound lots.now) }
    requires few { length lots.now ≤ 16384 }
    requires low { from < 2 ^ 33 }
    ensures end { result ≡ end_of_parts (alignment_of sort) from (map placed_of lots.now) }
    ensures low { result < 2 ^ 48 }
{
    let mut end = from;
    for l in lots {
        end = start_of(sort, end, l.section) + l.section.size as u64;
    }
    end
}

/// The sections one behind the other from an address on.
pub(crate) fn placed<'a>(
    alloc: Global,
    sort: Sort,
    lots: &[Lot<'a>],
    from: u64,
) -> Result<Vec<Lot<'a>>, AllocError>
    requires sound { IsTrue (list_all is_sound lots.now) }
    requires low { end_of_parts (alignment_of sort) from (map placed_of lots.now) ≤ 0x7FFF_F000 }
    ensures { IfOk result (λ made. map placed_of made.items ≡ placed_from (alignment_of sort) from (map placed_of lots.now)) }
{
    let mut made = Vec::new(alloc);
    let mut end = from;
    for l in lots {
        let start = start_of(sort, end, l.section);
        made.push(Lot {
            object: l.object,
            index: l.index,
            ordinal: l.ordinal,
            start: start as u32,
            section: l.section,
        })?;
        end = start + l.section.size as u64;
    }
    Ok(made)
}
