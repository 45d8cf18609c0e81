//! Pieces of code: the codes of units, and the numbers in words.

ghost use Rattle.std.specs.Prelude.{◌≡◌, ℕ, ◌+◌, ◌≤◌, ◌++◌, length, map, flat_map, Some, slice_get, IfOk, OnOk};
ghost use Rattle.std.specs.List.{AllZip, zip};
ghost use Rattle.elf_model.specs.declared.objects.Reloc.{Reloc};
ghost use Rattle.elf_model.specs.Fields.{half, word_at};
ghost use Rattle.reloc_places.specs.Starts.{bytes_of as bytes_of_section};
ghost use Rattle.hardened_form.specs.Code.{reloc_of};
ghost use Rattle.flow_recover.specs.declared.flows.PoolWord.{PoolWord as PoolWordParts};
ghost use Rattle.emit_object.specs.Readable.{IsReadable, AreReadable};
ghost use Rattle.emit_object.specs.CodePieces.{code_bytes, unit_piece as piece_of_unit, IsWordPiece};

use crate::word_numbers::word_number;
use byteorder::{ByteOrder, LittleEndian};
use elf_model::{Bytes, Object};
use flow_recover::PoolWord;
use seq_core::PlacedUnit;
use std::alloc::{AllocError, Global};
use thumb_encode::Code;

/// Bytes from an offset of a section on.
#[derive(Drop)]
pub(crate) struct Piece {
    pub(crate) section: u32,
    pub(crate) at: u32,
    pub(crate) bytes: Bytes,
}

/// Puts the two bytes of a halfword.
fn push_half(out: &mut Vec<u8>, h: u16) -> Result<(), AllocError>
    ensures { OnOk result (out.new.items ≡ out.old.items ++ half h) }
{
    let mut bytes = [0u8; 2];
    LittleEndian::write_u16(&mut bytes, h);
    out.extend_from_slice(&bytes)
}

/// Puts the bytes of a code.
fn push_code(out: &mut Vec<u8>, code: Code) -> Result<(), AllocError>
    ensures { OnOk result (out.new.items ≡ out.old.items ++ code_bytes code) }
{
    match code {
        Code::Half(h) => push_half(out, h),
        Code::Full(first, second) => {
            push_half(out, first)?;
            push_half(out, second)
        }
    }
}

/// The bytes of codes, one behind the other.
fn bytes_of_codes(alloc: Global, codes: &[Code]) -> Result<Vec<u8>, AllocError>
    ensures { IfOk result (λ bytes. bytes.items ≡ flat_map code_bytes codes.now) }
{
    let mut bytes = Vec::new(alloc);
    for code in codes {
        push_code(&mut bytes, *code)?;
    }
    Ok(bytes)
}

/// The codes of a unit.
fn unit_piece(alloc: Global, u: &PlacedUnit) -> Result<Piece, AllocError>
    ensures { IfOk result (λ p. p ≡ piece_of_unit u.now) }
{
    let bytes = bytes_of_codes(alloc, u.codes())?;
    Ok(Piece {
        section: u.unit().section,
        at: u.start(),
        bytes: Bytes::new(bytes),
    })
}

/// The codes of units.
pub(crate) fn unit_pieces(alloc: Global, units: &[PlacedUnit]) -> Result<Vec<Piece>, AllocError>
    ensures { IfOk result (λ pieces. pieces.items ≡ map piece_of_unit units.now) }
{
    let mut pieces = Vec::new(alloc);
    for u in units {
        pieces.push(unit_piece(alloc, u)?)?;
    }
    Ok(pieces)
}

/// The four bytes of a number.
fn bytes_of_word(alloc: Global, n: u32) -> Result<Vec<u8>, AllocError>
    ensures size { IfOk result (λ bytes. length bytes.items ≡ 4) }
    ensures number { IfOk result (λ bytes. word_at bytes.items 0 ≡ n) }
{
    let mut bytes = [0u8; 4];
    LittleEndian::write_u32(&mut bytes, n);
    Ok(Vec::from_array(alloc, bytes)?)
}

/// The number in a word that stands at an offset.
fn word_piece(alloc: Global, o: &Object, w: &PoolWord, at: u32) -> Result<Piece, AllocError>
    requires there { w.now.offset + 4 ≤ length (bytes_of_section o.now w.now.section) }
    requires readable { (r : Reloc) → reloc_of o.now w.now.reloc ≡ Some r → IsReadable o.now r }
    ensures { IfOk result (λ p. IsWordPiece o.now (w.now, at) p) }
{
    let number = word_number(o, w);
    let bytes = bytes_of_word(alloc, number)?;
    Ok(Piece {
        section: w.section,
        at,
        bytes: Bytes::new(bytes),
    })
}

/// The numbers in words that stand at these offsets.
pub(crate) fn word_pieces(
    alloc: Global,
    o: &Object,
    words: &[PoolWord],
    places: &[u32],
) -> Result<Vec<Piece>, AllocError>
    requires count { length places.now ≡ length words.now }
    requires readable { AreReadable o.now }
    requires there { (k : ℕ) (w : PoolWordParts) → slice_get words.now k ≡ Some w → w.offset + 4 ≤ length (bytes_of_section o.now w.section) }
    ensures { IfOk result (λ pieces. AllZip (IsWordPiece o.now) (zip words.now places.now) pieces.items) }
{
    let mut pieces = Vec::new(alloc);
    for k in 0..words.len() {
        pieces.push(word_piece(alloc, o, &words[k], places[k])?)?;
    }
    Ok(pieces)
}
