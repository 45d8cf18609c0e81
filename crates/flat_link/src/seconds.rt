//! Names that are defined twice.

ghost use Rattle.std.specs.Prelude.{◌≡◌, ◌↔◌, ◌==◌, ◌&&◌, map, Contains, IsTrue};
ghost use Rattle.thumb_table.specs.Names.{all_symbols};
ghost use Rattle.thumb_table.specs.LinkFaults.{home_section, IsSecond};
ghost use Rattle.flat_link.specs.Known.{defined_of, is_lower as is_lower_by, lower as lower_of, AreNames, IsFirstSecond};

use crate::known::Known;
use crate::names::{Binding, Names, is_bound};
use elf_model::Home;

/// The section that a definition is counted to.
pub(crate) fn home_section(home: Home) -> u32
    ensures { result ≡ home_section home }
{
    match home {
        Home::Undefined => 0,
        Home::Absolute => 0,
        Home::Section(j) => j,
    }
}

/// Whether two are one symbol.
pub(crate) fn is_itself(a: &Known, b: &Known) -> bool
    ensures { result ≡ ((a.now.object == b.now.object) && (a.now.index == b.now.index)) }
{
    a.object == b.object && a.index == b.index
}

/// Whether a symbol is a global definition of a name that has one before it.
fn is_second<'a>(names: &Names<'a>, known: &Known<'a>) -> bool
    requires names { AreNames names.now }
    requires known { Contains (all_symbols 0 names.now.objects.now) (defined_of known.now) }
    ensures { IsTrue result ↔ IsSecond names.now.objects.now (defined_of known.now) }
{
    let name = known.symbol.name.bytes();
    match names.globals.get(&name) {
        None => false,
        Some(first) => if is_itself(first, known) {
            false
        } else {
            is_bound(Binding::Global, known.symbol)
        },
    }
}

fn is_lower(known: &Known, first: &Known) -> bool
    ensures { result ≡ is_lower_by known.now first.now }
{
    known.object == first.object
        && home_section(known.symbol.home) < home_section(first.symbol.home)
}

fn lower<'a>(first: Option<Known<'a>>, known: &Known<'a>) -> Known<'a>
    ensures { result ≡ lower_of first.entry known.now }
{
    match first {
        None => *known,
        Some(first) => if is_lower(known, &first) {
            *known
        } else {
            first
        },
    }
}

/// The second global definition of a name that is refused, if there is one.
pub(crate) fn second_of<'a>(names: &Names<'a>, all: &[Known<'a>]) -> Option<Known<'a>>
    requires names { AreNames names.now }
    requires all { map defined_of all.now ≡ all_symbols 0 names.now.objects.now }
    ensures { IsFirstSecond names.now.objects.now (all_symbols 0 names.now.objects.now) result }
{
    let mut first: Option<Known<'a>> = None;
    for known in all {
        if is_second(names, known) {
            first = Some(lower(first, known));
        }
    }
    first
}
