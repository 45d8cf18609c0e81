//! Encoding: the candidates that the decoder takes for the instruction.

ghost use Rattle.std.specs.Prelude.{◌≡◌, ◌<◌, ◌≤◌, ◌+◌, ◌*◌, ◌^◌, ℕ, ◌↔◌, IsTrue, IfSome, IfNone, Some, is_some};
ghost use Rattle.thumb_instr.specs.HalfRows.{half_rows};
ghost use Rattle.thumb_instr.specs.FullRows.{full_rows};
ghost use Rattle.thumb_encode.specs.declared.codes.Code.{Code};
ghost use Rattle.thumb_encode.specs.declared.codes.Code.TheVariants as code;
ghost use Rattle.thumb_encode.specs.declared.codes.Width.TheVariants as width;
ghost use Rattle.thumb_encode.specs.declared.codes.Width.TheVariants.{Full};
ghost use Rattle.thumb_encode.specs.Encoding.{StandsFor, IsCodeOf, row_number};
ghost use Rattle.thumb_encode.specs.HasFull.{has_full};

use crate::full_candidates::full_candidate;
use crate::given::given;
use crate::half_candidates::{half_candidate, later_half};
use crate::{Code, Width};
use thumb_decode::{ItPlace, decode, is_wide};
use thumb_instr::{Instr, same};

/// Whether the halfword stands for the instruction.
fn is_half(h: u16, i: &Instr) -> bool
    ensures { IsTrue result ↔ StandsFor (code.Half h) i.now }
{
    match decode(h, None, ItPlace::Outside) {
        Ok(found) => same(&found, i),
        Err(_) => false,
    }
}

/// Whether two halfwords stand for the instruction.
fn is_full(first: u16, second: u16, i: &Instr) -> bool
    ensures { IsTrue result ↔ StandsFor (code.Full first second) i.now }
{
    if is_wide(first) {
        match decode(first, Some(second), ItPlace::Outside) {
            Ok(found) => same(&found, i),
            Err(_) => false,
        }
    } else {
        false
    }
}

/// The candidate, if it stands for the instruction.
fn checked_half(candidate: Option<u16>, i: &Instr) -> Option<u16>
    ensures gives { IfSome result (λ h. (candidate ≡ Some h) × StandsFor (code.Half h) i.now) }
    ensures none { IfNone result ((h : ℕ) → candidate ≡ Some h → ¬ StandsFor (code.Half h) i.now) }
{
    match candidate {
        Some(h) if is_half(h, i) => Some(h),
        _ => None,
    }
}

/// The first code of one halfword.
fn encode_half(i: &Instr) -> Option<Code>
    ensures gives { IfSome result (λ c. IsCodeOf i.now width.Half c) }
    ensures none { IfNone result ((c : Code) → ¬ IsCodeOf i.now width.Half c) }
    ensures first { IfSome result (λ c. (other : Code) → IsCodeOf i.now width.Half other → row_number c ≤ row_number other) }
    ensures only { IfSome result (λ c. (other : Code) → IsCodeOf i.now width.Half other → row_number other ≡ row_number c → other ≡ c) }
{
    match checked_half(half_candidate(i), i) {
        Some(h) => Some(Code::Half(h)),
        None => match checked_half(later_half(i), i) {
            Some(h) => Some(Code::Half(h)),
            None => None,
        },
    }
}

/// The code of two halfwords, of which each instruction has one at most.
fn encode_full(i: &Instr) -> Option<Code>
    ensures gives { IfSome result (λ c. IsCodeOf i.now width.Full c) }
    ensures none { IfNone result ((c : Code) → ¬ IsCodeOf i.now width.Full c) }
    ensures only { IfSome result (λ c. (other : Code) → IsCodeOf i.now width.Full other → other ≡ c) }
    ensures told { is_some result ≡ has_full i.now }
{
    given(i);
    match full_candidate(i) {
        Some(number) => {
            let first = (number / 65536) as u16;
            let second = (number % 65536) as u16;
            if is_full(first, second, i) {
                Some(Code::Full(first, second))
            } else {
                None
            }
        }
        None => None,
    }
}

/// The halfwords of an instruction outside of an IT block, in the width that is asked for; `None`
/// where no halfwords of that width stand for it. Where there are several, the first row of the
/// table has it (ARMv7-M ARM, A5.2 and A5.3), and no row has it twice. Decoding the code gives the
/// instruction back.
pub fn encode(i: &Instr, width: Width) -> Option<Code>
    ensures gives { IfSome result (λ c. IsCodeOf i.now width c) }
    ensures none { IfNone result ((c : Code) → ¬ IsCodeOf i.now width c) }
    ensures first { IfSome result (λ c. (other : Code) → IsCodeOf i.now width other → row_number c ≤ row_number other) }
    ensures only { IfSome result (λ c. (other : Code) → IsCodeOf i.now width other → row_number other ≡ row_number c → other ≡ c) }
    ensures full { width ≡ Full → is_some result ≡ has_full i.now }
{
    match width {
        Width::Half => encode_half(i),
        Width::Full => encode_full(i),
    }
}
