//! Where mapping symbols stand.

ghost use Rattle.std.specs.Prelude.{◌≡◌, ◌+◌, ◌<◌, ◌^◌, ◌++◌, ◌↔◌, ℕ, All, Contains, length, slice_index, IfOk, OnOk};
ghost use Rattle.std.specs.List.Sorted.{IsStrictlySortedBy};
ghost use Rattle.code_ranges.specs.Spans.{place_cmp};
ghost use Rattle.emit_object.specs.Marks.{follows as follows_word, data_mark, code_mark, word_marks, is_first as is_first_mark, first_mark, first_marks};

use crate::targets::listed;
use crate::word_places::set_of;
use elf_model::{Section, is_code};
use std::alloc::{AllocError, Global};
use std::collections::BTreeSet;

/// Whether a word stands right behind another.
fn follows(words: &BTreeSet<(u32, u32)>, w: (u32, u32)) -> bool
    ensures { result ≡ follows_word words.now w.0 w.1 }
{
    4 <= w.1 && words.contains(&(w.0, w.1 - 4))
}

/// Adds where data begins with a word, and where code begins behind it.
fn add_word_marks(
    list: &mut Vec<(u32, u32)>,
    words: &BTreeSet<(u32, u32)>,
    begins: &BTreeSet<(u32, u32)>,
    w: (u32, u32),
) -> Result<(), AllocError>
    requires { w.1 + 4 < 2 ^ 32 }
    ensures { OnOk result (list.new.items ≡ list.old.items ++ (data_mark words.now w ++ code_mark begins.now w)) }
{
    if !follows(words, w) {
        list.push(w)?;
    }
    if begins.contains(&(w.0, w.1 + 4)) {
        list.push((w.0, w.1 + 4))?;
    }
    Ok(())
}

/// Where data begins with words, and where code begins behind them.
fn marks_of_words(
    alloc: Global,
    words: &BTreeSet<(u32, u32)>,
    begins: &BTreeSet<(u32, u32)>,
    all: &[(u32, u32)],
) -> Result<Vec<(u32, u32)>, AllocError>
    requires { All (λ w. w.1 + 4 < 2 ^ 32) all.now }
    ensures { IfOk result (λ list. list.items ≡ word_marks words.now begins.now all.now) }
{
    let mut list = Vec::new(alloc);
    for w in all {
        add_word_marks(&mut list, words, begins, *w)?;
    }
    Ok(list)
}

/// The size of a hardened section of code; 0 where none is listed.
fn size_of(sizes: &[u32], j: u32) -> u32
    ensures { result ≡ slice_index sizes.now j }
{
    match sizes.get(j as usize) {
        Some(size) => *size,
        None => 0,
    }
}

/// Whether code begins with a section.
fn is_first(words: &BTreeSet<(u32, u32)>, sizes: &[u32], j: u32, s: &Section) -> bool
    ensures { result ≡ is_first_mark words.now sizes.now j s.now }
{
    is_code(s) && 0 < size_of(sizes, j) && !words.contains(&(j, 0))
}

/// Adds where code begins with sections.
fn add_first_marks(
    list: &mut Vec<(u32, u32)>,
    words: &BTreeSet<(u32, u32)>,
    sizes: &[u32],
    sections: &[Section],
) -> Result<(), AllocError>
    requires { length sections.now < 2 ^ 32 }
    ensures { OnOk result (list.new.items ≡ list.old.items ++ first_marks words.now sizes.now 0 sections.now) }
{
    let mut j: u32 = 0;
    for s in sections {
        if is_first(words, sizes, j, s) {
            list.push((j, 0))?;
        }
        j += 1;
    }
    Ok(())
}

/// Where mapping symbols stand, in order.
pub(crate) fn marks(
    alloc: Global,
    words: &BTreeSet<(u32, u32)>,
    begins: &BTreeSet<(u32, u32)>,
    all: &[(u32, u32)],
    sizes: &[u32],
    sections: &[Section],
) -> Result<Vec<(u32, u32)>, AllocError>
    requires words { All (λ w. w.1 + 4 < 2 ^ 32) all.now }
    requires sections { length sections.now < 2 ^ 32 }
    ensures exact { IfOk result (λ list. (p : ℕ × ℕ) → Contains list.items p ↔ Contains (word_marks words.now begins.now all.now ++ first_marks words.now sizes.now 0 sections.now) p) }
    ensures rise { IfOk result (λ list. IsStrictlySortedBy place_cmp list.items) }
{
    let mut list = marks_of_words(alloc, words, begins, all)?;
    add_first_marks(&mut list, words, sizes, sections)?;
    let set = set_of(alloc, &list)?;
    let places = listed(alloc, &set)?;
    Ok(places)
}
