//! The tables that a flow is found by.

ghost use Rattle.std.specs.Prelude.{◌≡◌, IfOk, IsTrue};
ghost use Rattle.std.specs.BTreeMap.{get};
ghost use Rattle.elf_model.specs.Objects.{is_within};
ghost use Rattle.code_ranges.specs.Spans.{place_cmp};
ghost use Rattle.code_ranges.specs.CodeRanges.{AreRanges};
ghost use Rattle.flow_recover.specs.Charts.{IsChart};

use code_ranges::Range;
use elf_model::{Limit, Object};
use reloc_places::{Placed, code_starts, data_words, function_places, relocs_by_place};
use std::alloc::{AllocError, Global};
use std::collections::{BTreeMap, BTreeSet};

/// By section and offset: instruction starts, with the end of their range; words of data in code
/// sections; functions; and relocations.
#[derive(Drop)]
pub(crate) struct Chart {
    pub(crate) starts: BTreeMap<(u32, u32), u32>,
    pub(crate) words: BTreeSet<(u32, u32)>,
    pub(crate) functions: BTreeSet<(u32, u32)>,
    pub(crate) relocs: BTreeMap<(u32, u32), Placed>,
}

/// The end of the range of the start at an offset.
pub(crate) fn end_at(chart: &Chart, section: u32, offset: u32) -> Option<u32>
    ensures { result ≡ get place_cmp chart.now.starts (section, offset) }
{
    chart.starts.get(&(section, offset)).copied()
}

/// The tables of an object with these ranges.
pub(crate) fn chart_of(alloc: Global, o: &Object, ranges: &[Range]) -> Result<Chart, AllocError>
    requires within { IsTrue (is_within o.now Limit.ANY) }
    requires ranges { AreRanges o.now ranges.now }
    ensures { IfOk result (λ c. IsChart o.now c) }
{
    let starts = code_starts(alloc, o, ranges)?;
    let words = data_words(alloc, o, ranges)?;
    let functions = function_places(alloc, o)?;
    let relocs = relocs_by_place(alloc, o, &starts, &words)?;
    Ok(Chart {
        starts,
        words,
        functions,
        relocs,
    })
}
