//! Registers by their numbers, and first bits, in instructions of two halfwords.

ghost use Rattle.std.specs.Prelude.{◌≡◌, ℕ, ◌-◌, ◌/◌, ◌%◌, ◌^◌, ◌<◌, ◌==◌, Ok, Err, if◌then◌else◌};

use thumb_instr::{BadInstr, Reg};

/// The register of a number of 4 bits, which is not pc.
pub(crate) fn register(number: u16) -> Result<Reg, BadInstr>
    requires { number < 16 }
    ensures { result ≡ (if number == 15 then Err BadInstr.PcOperand else Ok number) }
{
    match Reg::new(number as u8) {
        Some(r) => Ok(r),
        None => Err(BadInstr::PcOperand),
    }
}

/// Whether a register is sp.
pub fn is_sp(r: Reg) -> bool
    ensures { result ≡ (r == 13) }
{
    r.number() == 13
}

/// The bits of a pair of halfwords from bit `low` up.
pub(crate) fn first_bits(h: u32, low: u32) -> u32
    requires some { 0 < low }
    requires low { low < 32 }
    ensures { result ≡ h / 2 ^ low % 2 ^ (32 - low) }
{
    (h >> low) % (1 << (32 - low))
}
