//! The parts of an image, and its bytes.

ghost use Rattle.std.specs.Prelude.{◌≡◌, ◌++◌, map, replicate, OnOk, IfOk};
ghost use Rattle.mark_word.specs.Words.{bare};
ghost use Rattle.thumb_table.specs.Layouts.{as_part, part_bytes, bytes_from};
ghost use Rattle.flat_link.specs.Lots.{placed_of, part_with};

use crate::lots::Lot;
use elf_model::numbers::NOBITS;
use elf_model::{Section, is_code};
use mark_word::Cell;
use std::alloc::{AllocError, Global};
use thumb_table::Part;

/// A section in its place, as an image has it.
pub(crate) fn part_of_lot(l: &Lot) -> Part
    ensures { result ≡ part_with l.now }
{
    Part {
        object: l.object,
        code: is_code(l.section),
        ordinal: l.ordinal,
        start: l.start,
        size: l.section.size,
    }
}

/// Adds the parts of an image that stand there.
pub(crate) fn push_parts(parts: &mut Vec<Part>, lots: &[Lot]) -> Result<(), AllocError>
    ensures { OnOk result (parts.new.items ≡ parts.old.items ++ map as_part (map placed_of lots.now)) }
{
    for l in lots {
        parts.push(part_of_lot(l))?;
    }
    Ok(())
}

fn push_zeros(bytes: &mut Vec<u8>, count: u64) -> Result<(), AllocError>
    ensures { OnOk result (bytes.new.items ≡ bytes.old.items ++ replicate count 0) }
{
    for _done in 0..count {
        bytes.push(0)?;
    }
    Ok(())
}

/// Adds the bytes of a section: zeros, where it has none in the file.
fn push_section(bytes: &mut Vec<u8>, s: &Section) -> Result<(), AllocError>
    ensures { OnOk result (bytes.new.items ≡ bytes.old.items ++ part_bytes s.now) }
{
    if s.kind == NOBITS {
        push_zeros(bytes, s.size as u64)
    } else {
        bytes.extend_from_slice(s.bytes.as_slice())
    }
}

/// The bytes of sections in their places from an address on, with zeros between them.
pub(crate) fn bytes_of(alloc: Global, lots: &[Lot], from: u64) -> Result<Vec<u8>, AllocError>
    ensures { IfOk result (λ bytes. bytes.items ≡ bytes_from from (map placed_of lots.now)) }
{
    let mut bytes = Vec::new(alloc);
    let mut end = from;
    for l in lots {
        let start = l.start as u64;
        push_zeros(&mut bytes, start.saturating_sub(end))?;
        push_section(&mut bytes, l.section)?;
        end = start + l.section.size as u64;
    }
    Ok(bytes)
}

/// Bytes as memory has them.
pub(crate) fn cells_of(alloc: Global, bytes: &[u8]) -> Result<Vec<Cell>, AllocError>
    ensures { IfOk result (λ cells. cells.items ≡ map bare bytes.now) }
{
    bytes.iter().map(|b| Cell::bare(*b)).collect(alloc)
}
