//! Sums with addresses, modulo 2^32.

ghost use Rattle.std.specs.Prelude.{◌≡◌, ◌≤◌, ◌<◌, ◌+◌, ◌*◌, ◌/◌, ◌^◌};
ghost use Rattle.thumb_table.specs.Values.{moved as moved_of, away as away_of};

/// A number above or below an address that may be 2^32 or a little more.
pub(crate) fn moved(up: bool, address: u64, by: u32) -> u32
    requires { address ≤ 2 ^ 33 }
    ensures { result ≡ moved_of up address by }
{
    let sum = if up {
        address + u64::from(by)
    } else {
        address + 0x1_0000_0000 - u64::from(by)
    };
    (sum % 0x1_0000_0000) as u32
}

/// A signed offset from an address.
pub(crate) fn away(address: u64, offset: i32) -> u32
    requires { address ≤ 2 ^ 33 }
    ensures { result ≡ away_of address offset }
{
    if offset >= 0 {
        moved(true, address, offset as u32)
    } else {
        moved(false, address, offset.unsigned_abs())
    }
}

/// The address behind an instruction's, rounded down, from which literals are counted
/// (ARMv7-M ARM, A7.7.43).
pub(crate) fn literal_base(pc: u32) -> u64
    ensures value { result ≡ (pc + 4) / 4 * 4 }
    ensures range { result ≤ 2 ^ 33 }
{
    (u64::from(pc) + 4) / 4 * 4
}
