//! Numbers in texts.

ghost use Rattle.std.specs.Prelude.{◌≡◌, ℕ, List, map, IfOk, MatchOption, All, ◌<◌, ◌^◌};
ghost use Rattle.std.specs.Fmt.{decimal};
ghost use Rattle.skip_machine.specs.Plans.{IsNumber, AreNumbers, parts_of};

use crate::decimals::decimal_of;
use std::alloc::{AllocError, Global};

/// The number below 2^63 that a text is.
fn number(text: &str) -> Option<u64>
    ensures { IsNumber text.now result }
{
    let n = decimal_of(text)?;
    if n < 0x8000_0000_0000_0000 {
        Some(n)
    } else {
        None
    }
}

/// The numbers that a text has between its commas.
pub(crate) fn numbers(alloc: Global, text: &str) -> Result<Option<Vec<u64>>, AllocError>
    ensures { IfOk result (λ o. MatchOption o ((s : List ℕ) → AreNumbers text.now s → ⊥) (λ v. AreNumbers text.now v.items)) }
{
    let mut read = Vec::new(alloc);
    let mut rest = text;
    'parts: loop {
        match rest.split_once(',') {
            None => match number(rest) {
                None => return Ok(None),
                Some(n) => {
                    read.push(n)?;
                    return Ok(Some(read));
                }
            },
            Some((part, later)) => match number(part) {
                None => return Ok(None),
                Some(n) => {
                    read.push(n)?;
                    rest = later;
                }
            },
        }
    }
}
