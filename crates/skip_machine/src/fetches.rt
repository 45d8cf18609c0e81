//! Instructions as they lie in code.

ghost use Rattle.std.specs.Prelude.{◌≡◌, ◌+◌, ◌<◌, ◌^◌, length};
ghost use Rattle.std.specs.Prelude.{option_map};
ghost use Rattle.skip_machine.specs.Fetches.{as_fetched};
ghost use Rattle.thumb_table.specs.Steps.{fetch};

use thumb_decode::is_wide;
use thumb_table::CodeBytes;

/// The halfwords of an instruction, and whether there are two.
#[derive(Clone, Copy)]
pub(crate) struct Fetched {
    pub(crate) first: u16,
    pub(crate) second: u16,
    pub(crate) wide: bool,
}

/// The whole instruction at an address, if one lies there.
pub(crate) fn fetch(code: &CodeBytes, pc: u32) -> Option<Fetched>
    requires { code.now.base + length code.now.bytes < 2 ^ 32 }
    ensures { option_map as_fetched result ≡ fetch code.now pc }
{
    let first = code.half(pc)?;
    if !is_wide(first) {
        return Some(Fetched {
            first,
            second: 0,
            wide: false,
        });
    }
    if !code.holds(pc, 4) {
        return None;
    }
    let second = code.half(pc + 2)?;
    Some(Fetched {
        first,
        second,
        wide: true,
    })
}
