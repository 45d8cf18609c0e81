//! What is placed, and at which addresses.

ghost use Rattle.std.specs.Prelude.{◌≡◌, ◌<◌, ◌≤◌, ◌+◌, ◌^◌, IsTrue};
ghost use Rattle.elf_model.specs.Objects.{is_section};
ghost use Rattle.elf_model.specs.Canonical.{round_up};
ghost use Rattle.flat_link.specs.Placing.{is_of, alignment_of};

use elf_model::{Section, is_code, is_data};

/// What is placed: code, or data.
#[derive(Clone, Copy)]
pub(crate) enum Sort {
    Code,
    Data,
}

/// Whether a section is of a sort.
pub(crate) fn is_of(sort: Sort, s: &Section) -> bool
    ensures { result ≡ is_of sort s.now }
{
    match sort {
        Sort::Code => is_code(s),
        Sort::Data => is_data(s),
    }
}

fn alignment_of(sort: Sort, s: &Section) -> u32
    ensures { result ≡ alignment_of sort s.now }
{
    match sort {
        Sort::Code => s.align.max(4),
        Sort::Data => s.align,
    }
}

/// The next multiple of an alignment.
pub(crate) fn round_up(at: u64, align: u32) -> u64
    requires above_zero { 0 < align }
    requires low { at < 2 ^ 62 }
    ensures { result ≡ round_up at align }
{
    elf_model::round_up(at, align as u64)
}

/// Where a section of a sort starts, if those before it end here.
pub(crate) fn start_of(sort: Sort, from: u64, s: &Section) -> u64
    requires section { IsTrue (is_section s.now) }
    requires low { from < 2 ^ 62 }
    ensures placed { result ≡ round_up from (alignment_of sort s.now) }
    ensures above { from ≤ result }
    ensures near { result < from + 4096 }
{
    round_up(from, alignment_of(sort, s))
}
