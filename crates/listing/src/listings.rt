//! The listing of an object's code sections.

ghost use Rattle.std.specs.Prelude.{◌≡◌, ◌++◌, ◌∷◌, [], OnOk, IfOk, Some, filter, slice_get};
ghost use Rattle.code_ranges.specs.AllRanges.{AreAllRanges};
ghost use Rattle.listing.specs.Listings.{heading, text_of_lines, IsListing};
ghost use Rattle.listing.specs.ListingSteps.{is_code_of, ListsSection};

use crate::contents::push_contents;
use code_ranges::{Span, all_ranges};
use elf_model::{Object, RangeKind, Section, is_code};
use std::alloc::{AllocError, Global};

/// The code ranges of a section.
fn code_spans(alloc: Global, spans: &[Span], j: usize) -> Result<Vec<Span>, AllocError>
    ensures { IfOk result (λ kept. kept.items ≡ filter (is_code_of j) spans.now) }
{
    spans
        .iter()
        .filter(|s| is_code_of(**s, j))
        .copied()
        .collect(alloc)
}

fn is_code_of(s: Span, j: usize) -> bool
    ensures { result ≡ is_code_of j s }
{
    match s.kind {
        RangeKind::Code => s.section as usize == j,
        RangeKind::Arm => false,
        RangeKind::Data => false,
    }
}

/// Appends the line before a section's lines.
fn push_heading(alloc: Global, text: &mut Vec<u8>, j: usize, name: &[u8]) -> Result<(), AllocError>
    ensures { OnOk result (text.new.items ≡ text.old.items ++ text_of_lines (heading j name.now ∷ [])) }
{
    let title = format!(in alloc; "section {j} ")?;
    text.extend_from_slice(title.as_bytes())?;
    text.extend_from_slice(name)?;
    text.push(b'\n')?;
    Ok(())
}

/// Appends the lines of a section, of which there are none unless it is a code section.
fn push_section(
    alloc: Global,
    text: &mut Vec<u8>,
    o: &Object,
    spans: &[Span],
    j: usize,
    s: &Section,
) -> Result<(), AllocError>
    requires ranges { AreAllRanges o.now spans.now }
    requires there { slice_get o.now.sections j ≡ Some s.now }
    ensures { OnOk result (ListsSection o.now j s.now text.old.items text.new.items) }
{
    o.sound();
    let _size = s.size;
    if is_code(s) {
        push_heading(alloc, text, j, s.name.bytes())?;
        let codes = code_spans(alloc, spans, j)?;
        push_contents(text, s.bytes.as_slice(), &codes)
    } else {
        Ok(())
    }
}

/// The text that lists an object: for each code section `section`, its index and its name, and then a
/// line for each instruction or datum.
pub fn listing(alloc: Global, o: &Object) -> Result<Vec<u8>, AllocError>
    ensures { IfOk result (λ text. IsListing o.now text.items) }
{
    let spans = all_ranges(alloc, o)?;
    let mut text = Vec::new(alloc);
    for (j, s) in o.sections().iter().enumerate() {
        push_section(alloc, &mut text, o, &spans, j, s)?;
    }
    Ok(text)
}
