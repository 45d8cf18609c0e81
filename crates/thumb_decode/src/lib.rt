//! What halfwords stand for: Thumb-2 code to instructions (ARMv7-M ARM, A5.2 and A5.3).
#![tactic(auto)]

ghost use Rattle.std.specs.Prelude.{◌≡◌};
ghost use Rattle.thumb_instr.specs.Rows.{is_wide, decode_given};

mod branches;
mod control;
mod data_processing;
mod fulls;
mod half_accesses;
mod half_arithmetic;
mod half_branches;
mod half_others;
mod halves;
mod laws;
mod making;
mod memory;
mod multiple;
mod operand_tests;
mod products;
mod registers;
mod wide_fields;

use fulls::decode_full;
use halves::decode_half;
pub use laws::constants_are_values;
pub use operand_tests::{has_odd_sp, is_copy, is_rrx, names_sp, sums_with_carry, takes_sp};
pub use registers::is_sp;
use thumb_instr::Instr;
pub use thumb_instr::{BadInstr, ItPlace};

/// Whether a halfword begins an instruction of two (ARMv7-M ARM, A5.1).
pub fn is_wide(h1: u16) -> bool
    ensures { result ≡ is_wide h1 }
{
    h1 >> 11 >= 29
}

/// The instruction that halfwords stand for at a place, or why they are none. The second halfword
/// counts only where the first begins an instruction of two, and without it that is none.
pub fn decode(h1: u16, h2: Option<u16>, place: ItPlace) -> Result<Instr, BadInstr>
    ensures { result ≡ decode_given place h1 h2 }
{
    match h2 {
        Some(h2) => {
            if is_wide(h1) {
                decode_full(h1, h2, place)
            } else {
                decode_half(h1, place)
            }
        }
        None => {
            if is_wide(h1) {
                Err(BadInstr::Unknown)
            } else {
                decode_half(h1, place)
            }
        }
    }
}
