//! From mapping symbols to the spans between them.

ghost use Rattle.std.specs.Prelude.{◌≡◌, ℕ, IfOk, OnOk, map, if◌then◌else◌, ◌==◌, ◌&&◌};
ghost use Rattle.std.specs.BTreeMap.{get, IsOrdered};
ghost use Rattle.std.specs.Option.{option_or};
ghost use Rattle.code_ranges.specs.Spans.{place_cmp, kind_by, kind_at, mark_of, end_of, span_of, spans_from};

use elf_model::{Home, RangeKind, Section, Symbol, is_code, range_kind};
use std::alloc::{AllocError, Global};
use std::collections::BTreeMap;

/// What begins at an offset of a section.
#[derive(Clone, Copy, Debug, PartialEq, Eq)]
pub(crate) struct Mark {
    pub(crate) section: u32,
    pub(crate) offset: u32,
    pub(crate) kind: RangeKind,
}

/// A range of a code section, from `start` to before `end`, and what it has. Offsets are in bytes (ELF
/// for the Arm Architecture, mapping symbols).
#[derive(Clone, Copy, Debug, PartialEq, Eq)]
pub struct Span {
    pub section: u32,
    pub start: u32,
    pub end: u32,
    pub kind: RangeKind,
}

/// Keeps what begins at a place.
fn note_place(
    starts: &mut BTreeMap<(u32, u32), RangeKind>,
    section: u32,
    offset: u32,
    kind: RangeKind,
) -> Result<(), AllocError>
    ensures { OnOk result ((j x : ℕ) → get place_cmp starts.new (j, x) ≡ (if (section == j) && (offset == x) then Some kind else get place_cmp starts.old (j, x))) }
{
    starts.insert((section, offset), kind)?;
    Ok(())
}

/// Keeps what begins at a symbol's place, in place of what an earlier symbol said.
fn note_symbol(starts: &mut BTreeMap<(u32, u32), RangeKind>, s: &Symbol) -> Result<(), AllocError>
    ensures { OnOk result ((j x : ℕ) → get place_cmp starts.new (j, x) ≡ option_or (kind_by j x s.now) (get place_cmp starts.old (j, x))) }
{
    match range_kind(s) {
        None => Ok(()),
        Some(kind) => match s.home {
            Home::Undefined => Ok(()),
            Home::Absolute => Ok(()),
            Home::Section(j) => note_place(starts, j, s.value, kind),
        },
    }
}

/// What begins at each place by the last mapping symbol there.
pub fn kinds_by_place(
    alloc: Global,
    symbols: &[Symbol],
) -> Result<BTreeMap<(u32, u32), RangeKind>, AllocError>
    ensures { IfOk result (λ starts. (j x : ℕ) → get place_cmp starts (j, x) ≡ kind_at symbols.now j x) }
{
    let mut starts = BTreeMap::new(alloc);
    for s in symbols {
        note_symbol(&mut starts, s)?;
    }
    Ok(starts)
}

/// The places in order.
pub(crate) fn marks_of(
    alloc: Global,
    starts: &BTreeMap<(u32, u32), RangeKind>,
) -> Result<Vec<Mark>, AllocError>
    ensures marks { IfOk result (λ marks. marks.items ≡ map mark_of starts.now.entries) }
    ensures ordered { IsOrdered place_cmp starts.now }
{
    starts
        .iter()
        .map(|(place, kind)| Mark {
            section: place.0,
            offset: place.1,
            kind: *kind,
        })
        .collect(alloc)
}

/// Where a mark's span ends: at the next mark of its section, or with the section.
fn end_of(m: Mark, next: Option<Mark>, size: u32) -> u32
    ensures { result ≡ end_of m next size }
{
    match next {
        None => size,
        Some(n) => if n.section == m.section {
            n.offset
        } else {
            size
        },
    }
}

/// The span of a mark, if it is in code and has bytes.
fn span_of(sections: &[Section], m: Mark, next: Option<Mark>) -> Option<Span>
    ensures { result ≡ span_of sections.now m next }
{
    match sections.get(m.section as usize) {
        None => None,
        Some(s) => {
            let end = end_of(m, next, s.size);
            if is_code(s) && m.offset < end {
                Some(Span {
                    section: m.section,
                    start: m.offset,
                    end,
                    kind: m.kind,
                })
            } else {
                None
            }
        }
    }
}

/// The spans of code sections that have bytes, in order.
pub(crate) fn spans_of(
    alloc: Global,
    sections: &[Section],
    marks: &[Mark],
) -> Result<Vec<Span>, AllocError>
    ensures { IfOk result (λ spans. spans.items ≡ spans_from sections.now marks.now) }
{
    let mut spans = Vec::new(alloc);
    for (k, m) in marks.iter().enumerate() {
        let next = marks.get(k + 1).copied();
        if let Some(span) = span_of(sections, *m, next) {
            spans.push(span)?;
        }
    }
    Ok(spans)
}
