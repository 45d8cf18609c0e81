//! Products and quotients of numbers of 32 bits (ARMv7-M ARM, A7.7).

ghost use Rattle.std.specs.Prelude.{◌≡◌, ◌≤◌, ◌<◌, ◌+◌, ◌*◌, ◌^◌, if◌then◌else◌};
ghost use Rattle.thumb_table.specs.Values.{as_64, long_product, quotient, magnitude, negated_if, signed_quotient};

use crate::values::is_negative;
use thumb_instr::LongMulOp;

/// A number of 32 bits, with its sign, as one of 64.
fn as_64(n: u32) -> u64
    ensures { result ≡ as_64 n }
{
    if is_negative(n) {
        u64::from(n) + 0xffff_ffff_0000_0000
    } else {
        u64::from(n)
    }
}

/// A product of numbers with no sign.
fn product(n: u32, m: u32) -> u64
    ensures { result ≡ n * m }
{
    u64::from(n) * u64::from(m)
}

/// A product of 64 bits, added to a number of 64 bits or alone.
pub(crate) fn long_product(op: LongMulOp, n: u32, m: u32, old: u64) -> u64
    ensures { result ≡ long_product op n m old }
{
    match op {
        LongMulOp::Smull => as_64(n).wrapping_mul(as_64(m)),
        LongMulOp::Umull => product(n, m),
        LongMulOp::Smlal => as_64(n).wrapping_mul(as_64(m)).wrapping_add(old),
        LongMulOp::Umlal => product(n, m).wrapping_add(old),
    }
}

/// A quotient; 0 where the divisor is.
fn quotient(n: u32, m: u32) -> u32
    ensures { result ≡ quotient n m }
{
    if m == 0 { 0 } else { n / m }
}

/// A signed number without its sign.
fn magnitude(n: u32) -> u32
    ensures { result ≡ magnitude n }
{
    if is_negative(n) { u32::MAX - n + 1 } else { n }
}

/// A number with the other sign, where it is to have it.
fn negated_if(negative: bool, n: u32) -> u32
    ensures { result ≡ negated_if negative n }
{
    if negative { 0u32.wrapping_sub(n) } else { n }
}

/// The quotient of signed numbers, towards 0; 0 where the divisor is.
fn signed_quotient(n: u32, m: u32) -> u32
    ensures { result ≡ signed_quotient n m }
{
    let negative = is_negative(n) != is_negative(m);
    negated_if(negative, quotient(magnitude(n), magnitude(m)))
}

/// The quotient of signed or other numbers.
pub(crate) fn divided(signed: bool, n: u32, m: u32) -> u32
    ensures { result ≡ (if signed then signed_quotient n m else quotient n m) }
{
    if signed {
        signed_quotient(n, m)
    } else {
        quotient(n, m)
    }
}
