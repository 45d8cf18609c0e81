//! The contents of the sections, one behind the other, and the rows of their headers.

ghost use Rattle.std.specs.Prelude.{◌≡◌, ◌+◌, ◌<◌, ◌^◌, ◌++◌, [], ◌∷◌, List, length, OnOk};
ghost use Rattle.elf_model.specs.Canonical.{FileSection, round_up, start_of, added, row_with};
ghost use Rattle.elf_write.specs.Writing.{IsWritten, file_section};

use crate::fields::{put_words, put_zeros};
use crate::names::Names;
use elf_model::numbers::NOBITS;
use elf_model::round_up;
use std::alloc::{AllocError, Global};

/// The bytes of the file's header.
const HEADER: usize = 52;

/// The numbers of a section's header but for the places of its name and bytes.
#[derive(Clone, Copy)]
pub(crate) struct Head {
    pub(crate) kind: usize,
    pub(crate) flags: usize,
    pub(crate) size: usize,
    pub(crate) link: usize,
    pub(crate) info: usize,
    pub(crate) align: usize,
    pub(crate) entry: usize,
}

/// The contents, which start behind the file's header, and the rows of the section headers.
#[derive(Drop)]
pub(crate) struct Layout {
    pub(crate) contents: Vec<u8>,
    pub(crate) rows: Vec<u8>,
}

fn put_row(rows: &mut Vec<u8>, name: usize, start: usize, head: &Head) -> Result<(), AllocError>
    ensures { OnOk result (rows.new.items ≡ rows.old.items ++ row_with name start (file_section [] head.now [])) }
{
    put_words(rows, &[name, head.kind, head.flags, 0, start])?;
    put_words(
        rows,
        &[head.size, head.link, head.info, head.align, head.entry],
    )
}

/// Puts a section whose name has this offset.
pub(crate) fn put(
    layout: &mut Layout,
    name: usize,
    head: &Head,
    bytes: &[u8],
) -> Result<(), AllocError>
    requires aligned { 0 < head.now.align }
    requires small { head.now.align < 2 ^ 32 }
    ensures contents { OnOk result (layout.new.contents.items ≡ layout.old.contents.items ++ added (52 + length layout.old.contents.items) (file_section [] head.now bytes.now)) }
    ensures rows { OnOk result (layout.new.rows.items ≡ layout.old.rows.items ++ row_with name (round_up (52 + length layout.old.contents.items) head.now.align) (file_section [] head.now [])) }
{
    let at = HEADER + layout.contents.as_slice().len();
    let start = round_up(at as u64, head.align as u64) as usize;
    put_row(&mut layout.rows, name, start, head)?;
    if head.kind == NOBITS as usize {
        return Ok(());
    }
    put_zeros(&mut layout.contents, start - at)?;
    layout.contents.extend_from_slice(bytes)
}

/// Puts a section behind those that were laid out.
pub(crate) fn put_named(
    alloc: Global,
    layout: &mut Layout,
    names: &mut Names,
    name: &[u8],
    head: &Head,
    bytes: &[u8],
) -> Result<(), AllocError>
    requires aligned { 0 < head.now.align }
    requires small { head.now.align < 2 ^ 32 }
    ensures { (ss : List FileSection) → IsWritten layout.old names.old ss → OnOk result (IsWritten layout.new names.new (ss ++ file_section name.now head.now bytes.now ∷ [])) }
{
    let offset = names.add(alloc, name)?;
    put(layout, offset, head, bytes)
}
