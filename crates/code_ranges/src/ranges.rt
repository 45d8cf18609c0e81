//! The ranges of code and data.

ghost use Rattle.std.specs.Prelude.{◌≡◌, IfOk, IfErr, IsTrue, map};
ghost use Rattle.elf_model.specs.Objects.{is_within};
ghost use Rattle.code_ranges.specs.Spans.{range_of};
ghost use Rattle.code_ranges.specs.AllRanges.{AreAllRanges};
ghost use Rattle.code_ranges.specs.CodeRanges.{AreRanges, IsRangeDenial};

use crate::faults::{first_of, spots_of};
use crate::spans::{Span, kinds_by_place, marks_of, spans_of};
use elf_model::{Deny, Limit, Object, RangeKind};
use std::alloc::{AllocError, Global};

/// A range of a code section, from `start` to before `end`. Offsets are in bytes. `code` says that it
/// has Thumb code, else it has data (ELF for the Arm Architecture, mapping symbols).
#[derive(Clone, Copy, Debug, PartialEq, Eq)]
pub struct Range {
    pub section: u32,
    pub start: u32,
    pub end: u32,
    pub code: bool,
}

/// A span as a range of Thumb code or of data.
fn range_of(s: Span) -> Range
    ensures { result ≡ range_of s }
{
    Range {
        section: s.section,
        start: s.start,
        end: s.end,
        code: match s.kind {
            RangeKind::Code => true,
            RangeKind::Arm => false,
            RangeKind::Data => false,
        },
    }
}

/// Spans as ranges.
fn ranges_of(alloc: Global, spans: &[Span]) -> Result<Vec<Range>, AllocError>
    ensures { IfOk result (λ ranges. ranges.items ≡ map range_of spans.now) }
{
    spans.iter().map(|s| range_of(*s)).collect(alloc)
}

/// The ranges of all kinds that have bytes, by section and start. None is refused.
pub fn all_ranges(alloc: Global, o: &Object) -> Result<Vec<Span>, AllocError>
    ensures { IfOk result (λ spans. AreAllRanges o.now spans.items) }
{
    o.sound();
    let starts = kinds_by_place(alloc, o.symbols())?;
    let marks = marks_of(alloc, &starts)?;
    spans_of(alloc, o.sections(), &marks)
}

/// The ranges that have bytes, by section and start. Refuses `NoMapping` and `ArmCode`: a code section
/// with bytes that does not begin with a mapping symbol, at its beginning; Arm code, where its range
/// begins; and a function in code with bit 0 clear, at its value. The file is 0.
pub fn code_ranges(alloc: Global, o: &Object) -> Result<Vec<Range>, Deny>
    requires { IsTrue (is_within o.now Limit.ANY) }
    ensures ranges { IfOk result (λ ranges. AreRanges o.now ranges.items) }
    ensures refused { IfErr result (λ why. IsRangeDenial o.now why) }
{
    o.sound();
    let starts = kinds_by_place(alloc, o.symbols())?;
    let marks = marks_of(alloc, &starts)?;
    let spans = spans_of(alloc, o.sections(), &marks)?;
    let spots = spots_of(alloc, o.sections(), o.symbols(), &starts, &spans)?;
    match first_of(&spots) {
        Some(spot) => Err(Deny::Refused(spot)),
        None => Ok(ranges_of(alloc, &spans)?),
    }
}
