//! The bytes of sections of code.

ghost use Rattle.std.specs.Prelude.{◌≡◌, ℕ, List, [], ◌∷◌, ◌+◌, ◌<◌, ◌≤◌, length, slice_index, IsTrue, IfOk};
ghost use Rattle.elf_model.specs.Objects.{ObjectParts, is_within};
ghost use Rattle.flow_recover.specs.WholeFlows.{IsFlow};
ghost use Rattle.hardened_form.specs.Items.{Item};
ghost use Rattle.hardened_form.specs.Code.{AreTiled, AreWords};
ghost use Rattle.branch_layout.specs.Laid.{laid_places};
ghost use Rattle.emit_object.specs.CodeBytes.{contents_of, bytes_in, IsBlank, AreBlank, IsPutAt, Fits, CanPut, ArePut};
ghost use Rattle.emit_object.specs.Emitting.{CanEmit};
ghost use Rattle.emit_object.specs.FirstItems.{AreItemsOf};
ghost use Rattle.emit_object.specs.NewCode.{HasNewCode};
ghost use Rattle.emit_object.specs.UnitCopies.{HaveCodes};

use crate::code_pieces::{Piece, unit_pieces, word_pieces};
use elf_model::{Limit, Object};
use flow_recover::Flow;
use seq_core::Layout;
use std::alloc::{AllocError, Global};

/// DE00 in each halfword.
fn blank(alloc: Global, size: u32) -> Result<Vec<u8>, AllocError>
    ensures { IfOk result (λ bytes. IsBlank size bytes.items) }
{
    let mut bytes = Vec::new(alloc);
    for x in 0..size {
        bytes.push(if x % 2 == 0 { 0 } else { 0xDE })?;
    }
    Ok(bytes)
}

/// So many sections of these sizes, with DE00 in each halfword.
fn blanks(alloc: Global, sizes: &[u32], count: usize) -> Result<Vec<Vec<u8>>, AllocError>
    ensures { IfOk result (λ all. AreBlank sizes.now count (contents_of all.items)) }
{
    let mut all = Vec::new(alloc);
    for j in 0..count {
        let size = sizes.get(j).copied().unwrap_or(0);
        all.push(blank(alloc, size)?)?;
    }
    Ok(all)
}

/// Puts a run over the bytes from an offset on.
fn put_bytes(bytes: &mut [u8], x: usize, run: &[u8])
    requires { x + length run.now ≤ length bytes.old }
    ensures { IsPutAt x run.now bytes.old bytes.new }
{
    bytes[x..x + run.len()].copy_from_slice(run);
}

/// Puts a piece into its section.
fn put_piece(all: &mut Vec<Vec<u8>>, p: &Piece)
    requires { Fits (contents_of all.old.items) p.now }
    ensures { ArePut (p.now ∷ []) (contents_of all.old.items) (contents_of all.new.items) }
{
    put_bytes(
        &mut all[p.section as usize],
        p.at as usize,
        p.bytes.as_slice(),
    );
}

/// Puts pieces into their sections.
fn put_pieces(all: &mut Vec<Vec<u8>>, pieces: &[Piece])
    requires { CanPut (contents_of all.old.items) pieces.now }
    ensures { ArePut pieces.now (contents_of all.old.items) (contents_of all.new.items) }
{
    for p in pieces {
        put_piece(all, p);
    }
}

/// The bytes of each section's code: the codes of units, the numbers in words, and DE00 where two bytes are free before
/// a word. A section without code has none.
pub(crate) fn code_bytes(
    alloc: Global,
    o: &Object,
    f: &Flow,
    l: &Layout,
) -> Result<Vec<Vec<u8>>, AllocError>
    requires within { IsTrue (is_within o.now Limit.ANY) }
    requires flow { IsFlow o.now f.now }
    requires can { CanEmit o.now f.now l.now }
    ensures count { IfOk result (λ all. length all.items ≡ length o.now.sections) }
    ensures sizes { IfOk result (λ all. (j : ℕ) → j < length o.now.sections → length (bytes_in (contents_of all.items) j) ≡ slice_index l.now.sizes j) }
    ensures tiled { IfOk result (λ all. (h : ObjectParts) (items : List Item) → HasNewCode o.now h l.now (contents_of all.items) → AreItemsOf f.now l.now items → AreTiled h items) }
    ensures words { IfOk result (λ all. (h : ObjectParts) → HasNewCode o.now h l.now (contents_of all.items) → AreWords o.now h f.now (laid_places l.now)) }
    ensures codes { IfOk result (λ all. (h : ObjectParts) → HasNewCode o.now h l.now (contents_of all.items) → HaveCodes h l.now) }
{
    o.sound();
    let mut all = blanks(alloc, l.sizes(), o.sections().len())?;
    let units = unit_pieces(alloc, l.units())?;
    let words = word_pieces(alloc, o, f.words(), l.words())?;
    put_pieces(&mut all, &units);
    put_pieces(&mut all, &words);
    Ok(all)
}
