//! The marks of relocations: of words, MOVW and MOVT that are addresses of code.

ghost use Rattle.std.specs.Prelude.{◌≡◌, map, IfOk};
ghost use Rattle.mark_word.specs.Words.{is_marked as has_mark};
ghost use Rattle.thumb_table.specs.Links.{mark_for as mark_for_kind, mark_of as mark_of_link};
ghost use Rattle.flat_link.specs.Layout.{IsLayout, parts_in};
ghost use Rattle.flat_link.specs.Marks.{mark_at as mark_at_link, marks_among};
ghost use Rattle.flat_link.specs.Sites.{link_of};
ghost use Rattle.flat_link.specs.Ties.{IsTie, AreTies};

use crate::layout::Layout;
use crate::numbers::{full, leads_to_code, place_of};
use crate::ties::Tie;
use elf_model::{RelocKind, is_code};
use mark_word::Mark;
use reloc_places::is_jump;
use std::alloc::{AllocError, Global};
use thumb_table::PlaceMark;

fn mark_for(kind: RelocKind, full: u32) -> Mark
    ensures { result ≡ mark_for_kind kind full }
{
    match kind {
        RelocKind::MovwAbs => Mark::Low(full),
        _ => Mark::Entry(full),
    }
}

/// The mark of what a relocation makes.
pub(crate) fn mark_of(layout: &Layout, t: &Tie) -> Mark
    requires layout { IsLayout layout.now }
    requires tie { IsTie layout.now (link_of t.now) }
    ensures { result ≡ mark_of_link (parts_in layout.now) (link_of t.now) }
{
    if leads_to_code(layout, t) && !is_jump(t.site.reloc.kind) {
        mark_for(t.site.reloc.kind, full(layout, t))
    } else {
        Mark::Plain
    }
}

fn is_marked(mark: Mark) -> bool
    ensures { result ≡ has_mark mark }
{
    match mark {
        Mark::Plain => false,
        Mark::Entry(_) | Mark::Return(_) | Mark::Low(_) => true,
    }
}

/// The mark of a relocation in code, if it has one.
#[tactic(auto, unfolding(crate::specs::Marks::mark_at))]
fn mark_at(layout: &Layout, t: &Tie) -> Option<PlaceMark>
    requires layout { IsLayout layout.now }
    requires tie { IsTie layout.now (link_of t.now) }
    ensures { result ≡ mark_at_link (parts_in layout.now) (link_of t.now) }
{
    let mark = mark_of(layout, t);
    if is_code(t.lot.section) && is_marked(mark) {
        Some(PlaceMark {
            at: place_of(layout, t),
            mark,
        })
    } else {
        None
    }
}

/// The marks of the code, by address.
pub(crate) fn marks_of(
    alloc: Global,
    layout: &Layout,
    ties: &[Tie],
) -> Result<Vec<PlaceMark>, AllocError>
    requires layout { IsLayout layout.now }
    requires ties { AreTies layout.now ties.now }
    ensures { IfOk result (λ marks. marks.items ≡ marks_among (parts_in layout.now) (map link_of ties.now)) }
{
    let mut marks = Vec::new(alloc);
    for t in ties {
        if let Some(mark) = mark_at(layout, t) {
            marks.push(mark)?;
        }
    }
    Ok(marks)
}
