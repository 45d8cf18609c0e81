//! The section that holds the address map.

ghost use Rattle.std.specs.Prelude.{◌≡◌, ◌*◌, ◌<◌, ◌^◌, ◌++◌, length, flat_map, codes, IfOk, OnOk};
ghost use Rattle.elf_model.specs.Fields.{word};
ghost use Rattle.elf_model.specs.Maps.{map_name as name_of_map, row_kind as kind_of_row, row_bytes, map_section as section_of_map};

use byteorder::{ByteOrder, LittleEndian};
use elf_model::numbers::PROGBITS;
use elf_model::{Bytes, MapRow, Name, RowKind, Section};
use std::alloc::{AllocError, Global};

/// Puts the four bytes of a number.
fn put_word(out: &mut Vec<u8>, x: u32) -> Result<(), AllocError>
    ensures { OnOk result (out.new.items ≡ out.old.items ++ word x) }
{
    let mut bytes = [0u8; 4];
    LittleEndian::write_u32(&mut bytes, x);
    out.extend_from_slice(&bytes)
}

/// The number of a row's kind.
fn row_kind(kind: RowKind) -> u32
    ensures { result ≡ kind_of_row kind }
{
    match kind {
        RowKind::Start => 0,
        RowKind::Return => 1,
    }
}

/// Puts the four words of a row.
fn put_row(out: &mut Vec<u8>, r: &MapRow) -> Result<(), AllocError>
    ensures { OnOk result (out.new.items ≡ out.old.items ++ row_bytes r.now) }
{
    put_word(out, r.section)?;
    put_word(out, r.old)?;
    put_word(out, r.new)?;
    put_word(out, row_kind(r.kind))
}

/// The bytes of rows.
fn bytes_of_rows(alloc: Global, rows: &[MapRow]) -> Result<Vec<u8>, AllocError>
    ensures { IfOk result (λ bytes. bytes.items ≡ flat_map row_bytes rows.now) }
{
    let mut bytes = Vec::new(alloc);
    for r in rows {
        put_row(&mut bytes, r)?;
    }
    Ok(bytes)
}

/// The name of the section.
fn map_name(alloc: Global) -> Result<Name, AllocError>
    ensures { IfOk result (λ name. name ≡ name_of_map) }
{
    let bytes = Vec::from_array(alloc, *b".skipguard.map")?;
    Ok(Name::new(bytes))
}

/// The section that holds rows of the map.
pub(crate) fn map_section(alloc: Global, rows: &[MapRow]) -> Result<Section, AllocError>
    requires { 16 * length rows.now < 2 ^ 32 }
    ensures { IfOk result (λ s. s ≡ section_of_map rows.now) }
{
    let name = map_name(alloc)?;
    let bytes = bytes_of_rows(alloc, rows)?;
    Ok(Section {
        name,
        kind: PROGBITS,
        flags: 0,
        align: 4,
        entry: 16,
        size: 16 * rows.len() as u32,
        bytes: Bytes::new(bytes),
    })
}
