//! The lines of a section.

ghost use Rattle.std.specs.Prelude.{◌≡◌, ◌+◌, ◌^◌, ◌<◌, ◌≤◌, ◌++◌, OnOk, IfOk, length, true, ℕ};
ghost use Rattle.elf_model.specs.Fields.{half_at};
ghost use Rattle.elf_model.specs.Objects.{ObjectParts};
ghost use Rattle.elf_model.specs.Ranges.{is_long, length_at};
ghost use Rattle.listing.specs.Listings.{IsCodeStart, short_lines, text_of_lines};
ghost use Rattle.listing.specs.ListingSteps.{LeadsTo, IsStep, IsThrough, IsAcross, AreAhead, AreApart, ListsContents};

use crate::lines::{push_byte_line, push_instr_line, push_short_line, push_word_line};
use code_ranges::Span;
use reloc_places::{decode_at, length_at, state_behind};
use std::alloc::AllocError;
use thumb_instr::it_after;

/// An offset of a section, and the IT state there.
#[derive(Clone, Copy, Debug)]
pub(crate) struct Place {
    pub at: u32,
    pub it: u8,
}

/// Appends a line for each halfword of an instruction.
fn push_short_lines(text: &mut Vec<u8>, bytes: &[u8], at: u32) -> Result<(), AllocError>
    requires inside { at + length_at bytes.now at ≤ length bytes.now }
    requires small { at + length_at bytes.now at < 2 ^ 32 }
    ensures { OnOk result (text.new.items ≡ text.old.items ++ text_of_lines (short_lines bytes.now at)) }
{
    push_short_line(text, bytes, at)?;
    if length_at(bytes, at) == 4 {
        push_short_line(text, bytes, at + 2)
    } else {
        Ok(())
    }
}

/// Appends the lines of a whole instruction, and answers the IT state behind it.
fn push_whole(text: &mut Vec<u8>, bytes: &[u8], at: u32, it: u8) -> Result<u8, AllocError>
    requires inside { at + length_at bytes.now at ≤ length bytes.now }
    requires small { at + length_at bytes.now at < 2 ^ 32 }
    ensures { IfOk result (λ next. (o : ObjectParts) (j end : ℕ) → IsCodeStart o j bytes.now at end → at + length_at bytes.now at ≤ end →
        LeadsTo o j bytes.now at it (at + length_at bytes.now at) next text.old.items text.new.items) }
{
    match decode_at(bytes, at, it) {
        Ok(i) => {
            push_instr_line(text, &i, at)?;
            Ok(state_behind(&i, it))
        }
        Err(_) => {
            push_short_lines(text, bytes, at)?;
            Ok(it_after(it))
        }
    }
}

/// Appends the lines of an instruction of four bytes that the end of its range cuts, and answers the
/// IT state behind it.
fn push_cut(text: &mut Vec<u8>, bytes: &[u8], at: u32, end: u32, it: u8) -> Result<u8, AllocError>
    requires half { at + 2 ≤ end }
    requires inside { end ≤ length bytes.now }
    requires cut { end < at + 4 }
    ensures { IfOk result (λ next. (o : ObjectParts) (j : ℕ) → IsCodeStart o j bytes.now at end → is_long (half_at bytes.now at) ≡ true →
        LeadsTo o j bytes.now at it end next text.old.items text.new.items) }
{
    push_short_line(text, bytes, at)?;
    if end - at == 3 {
        push_byte_line(text, bytes, at + 2)?;
        Ok(it_after(it))
    } else {
        Ok(it_after(it))
    }
}

/// Appends the lines of what begins at an instruction start, and answers where it goes on.
fn push_step(
    text: &mut Vec<u8>,
    bytes: &[u8],
    at: u32,
    end: u32,
    it: u8,
) -> Result<Place, AllocError>
    requires before { at < end }
    requires inside { end ≤ length bytes.now }
    ensures { IfOk result (λ p. IsStep bytes.now end at it p.at p.it text.old.items text.new.items) }
{
    let left = end - at;
    if left == 1 {
        push_byte_line(text, bytes, at)?;
        return Ok(Place { at: end, it });
    }
    let length = length_at(bytes, at);
    if left < length {
        let it = push_cut(text, bytes, at, end, it)?;
        Ok(Place { at: end, it })
    } else {
        let it = push_whole(text, bytes, at, it)?;
        Ok(Place {
            at: at + length,
            it,
        })
    }
}

/// Appends the lines of a code range, and answers the IT state behind it.
fn push_range(
    text: &mut Vec<u8>,
    bytes: &[u8],
    start: u32,
    end: u32,
    it: u8,
) -> Result<u8, AllocError>
    requires some { start < end }
    requires inside { end ≤ length bytes.now }
    ensures { IfOk result (λ next. IsThrough bytes.now start end it next text.old.items text.new.items) }
{
    let mut place = Place { at: start, it };
    while place.at < end {
        place = push_step(text, bytes, place.at, end, place.it)?;
    }
    Ok(place.it)
}

/// Appends the lines of bytes that are not code.
fn push_data(text: &mut Vec<u8>, bytes: &[u8], start: u32, end: u32) -> Result<(), AllocError>
    requires order { start ≤ end }
    requires inside { end ≤ length bytes.now }
    ensures { OnOk result (IsAcross bytes.now start end 0 0 text.old.items text.new.items) }
{
    let mut at = start;
    while at < end {
        if at % 4 == 0 && end - at >= 4 {
            push_word_line(text, bytes, at)?;
            at += 4;
        } else {
            push_byte_line(text, bytes, at)?;
            at += 1;
        }
    }
    Ok(())
}

/// Appends the lines of the bytes between code ranges, and answers the IT state behind them.
fn push_gap(
    text: &mut Vec<u8>,
    bytes: &[u8],
    start: u32,
    end: u32,
    it: u8,
) -> Result<u8, AllocError>
    requires order { start ≤ end }
    requires inside { end ≤ length bytes.now }
    ensures { IfOk result (λ next. IsAcross bytes.now start end it next text.old.items text.new.items) }
{
    if start < end {
        push_data(text, bytes, start, end)?;
        Ok(0)
    } else {
        Ok(it)
    }
}

/// Appends the lines of a section whose code ranges are these.
pub(crate) fn push_contents(
    text: &mut Vec<u8>,
    bytes: &[u8],
    spans: &[Span],
) -> Result<(), AllocError>
    requires small { length bytes.now < 2 ^ 32 }
    requires apart { AreApart bytes.now 0 spans.now }
    ensures { OnOk result ((o : ObjectParts) (j : ℕ) → AreAhead o j bytes.now 0 spans.now → ListsContents o j bytes.now text.old.items text.new.items) }
{
    let mut at = 0;
    let mut it = 0;
    for s in spans {
        it = push_gap(text, bytes, at, s.start, it)?;
        it = push_range(text, bytes, s.start, s.end, it)?;
        at = s.end;
    }
    push_gap(text, bytes, at, bytes.len() as u32, it)?;
    Ok(())
}
