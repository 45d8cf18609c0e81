//! What is counted of objects and layouts.

ghost use Rattle.std.specs.Prelude.{◌≡◌, ◌≤◌, All, length, count_by, IsTrue};
ghost use Rattle.std.specs.List.{sum_by};
ghost use Rattle.elf_model.specs.Objects.{is_within};
ghost use Rattle.pair_parts.specs.Made.{IsFactor, count_of};
ghost use Rattle.harden_core.specs.Hardening.{is_function_of};

use elf_model::numbers::FUNC;
use elf_model::{Limit, Object, Symbol};
use reloc_places::is_in_code;
use seq_core::{Layout, PlacedUnit};

/// The instructions of the longest unit, 1 at least.
pub(crate) fn factor_of(l: &Layout) -> u32
    requires { All (λ u. count_of u ≤ 32) l.now.units }
    ensures { IsFactor l.now result }
{
    let mut most: u32 = 1;
    for u in l.units() {
        let count = u.codes().len() as u32;
        if most < count {
            most = count;
        }
    }
    most
}

/// The instructions of all units.
pub(crate) fn emitted(units: &[PlacedUnit]) -> u32
    requires short { All (λ u. count_of u ≤ 32) units.now }
    requires few { length units.now ≤ 65536 }
    ensures { result ≡ sum_by count_of units.now }
{
    let mut sum: u32 = 0;
    for u in units {
        sum += u.codes().len() as u32;
    }
    sum
}

/// Whether a symbol is a function in code.
fn is_function(o: &Object, s: &Symbol) -> bool
    ensures { result ≡ is_function_of o.now s.now }
{
    s.kind == FUNC && is_in_code(o, s.home)
}

/// The functions in code.
pub(crate) fn function_count(o: &Object) -> u32
    requires { IsTrue (is_within o.now Limit.INPUT) }
    ensures { result ≡ count_by (is_function_of o.now) o.now.symbols }
{
    let mut count: u32 = 0;
    for s in o.symbols() {
        if is_function(o, s) {
            count += 1;
        }
    }
    count
}
