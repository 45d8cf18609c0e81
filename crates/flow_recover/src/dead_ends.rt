//! Whether a call returns.

ghost use Rattle.std.specs.Prelude.{◌≡◌, ◌≤◌, ◌+◌, ◌↔◌, IsTrue, length};
ghost use Rattle.std.specs.BTreeSet.{contains};
ghost use Rattle.elf_model.specs.Fields.{half_at};
ghost use Rattle.elf_model.specs.Objects.{is_within};
ghost use Rattle.code_ranges.specs.Spans.{place_cmp};
ghost use Rattle.reloc_places.specs.Starts.{is_nop};
ghost use Rattle.flow_recover.specs.Reach.{IsDeadEnd};
ghost use Rattle.flow_recover.specs.Charts.{IsChart};
ghost use Rattle.flow_recover.specs.DeadEnds.{IsLimit, IsNopAt};

use crate::charts::{Chart, end_at};
use byteorder::{ByteOrder, LittleEndian};
use elf_model::{Limit, Object};
use reloc_places::bytes_of;

/// NOP, and MOV r8, r8.
fn is_nop(h: u16) -> bool
    ensures { result ≡ is_nop h }
{
    h == 0xBF00 || h == 0x46C0
}

/// The halfword at an offset.
fn half_at(bytes: &[u8], at: u32) -> u16
    requires { at + 2 ≤ length bytes.now }
    ensures { result ≡ half_at bytes.now at }
{
    LittleEndian::read_u16(&bytes[at as usize..])
}

/// Whether a function begins at an offset.
fn is_function_at(chart: &Chart, section: u32, offset: u32) -> bool
    ensures { result ≡ contains place_cmp chart.now.functions (section, offset) }
{
    chart.functions.contains(&(section, offset))
}

/// Whether a function begins at an offset, or no code is there.
fn is_limit(o: &Object, chart: &Chart, section: u32, offset: u32) -> bool
    requires { IsChart o.now chart.now }
    ensures { IsTrue result ↔ IsLimit o.now section offset }
{
    match end_at(chart, section, offset) {
        None => true,
        Some(_) => is_function_at(chart, section, offset),
    }
}

/// Whether a whole NOP starts at an offset.
fn is_nop_at(o: &Object, chart: &Chart, section: u32, offset: u32) -> bool
    requires within { IsTrue (is_within o.now Limit.ANY) }
    requires chart { IsChart o.now chart.now }
    ensures { IsTrue result ↔ IsNopAt o.now section offset }
{
    o.sound();
    match end_at(chart, section, offset) {
        None => false,
        Some(end) => offset + 2 <= end && is_nop(half_at(bytes_of(o, section), offset)),
    }
}

/// Whether there are only NOPs from an offset on up to a function or to where no code is.
pub(crate) fn is_dead_end(o: &Object, chart: &Chart, section: u32, offset: u32) -> bool
    requires within { IsTrue (is_within o.now Limit.ANY) }
    requires chart { IsChart o.now chart.now }
    ensures { IsTrue result ↔ IsDeadEnd o.now section offset }
{
    o.sound();
    let mut at = offset;
    while !is_limit(o, chart, section, at) && is_nop_at(o, chart, section, at) {
        at += 2;
    }
    is_limit(o, chart, section, at)
}
