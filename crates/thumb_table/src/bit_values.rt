//! Fields of bits of numbers of 32 bits, and orders of their bytes and bits (ARMv7-M ARM, A7.7).

ghost use Rattle.std.specs.Prelude.{◌≡◌, ◌≤◌, ◌<◌, ◌+◌, ◌%◌, ◌^◌};
ghost use Rattle.thumb_instr.specs.declared.operations.UnaryOp.TheVariants as unary_op;
ghost use Rattle.thumb_table.specs.Values.{extended, field_of, with_field, reversed, leading_zeros, of_bytes, unary, rotated};

use mark_word::{Shift, shift_c};
use thumb_instr::UnaryOp;

/// A power of 2.
fn power(k: u8) -> u64
    requires { k ≤ 32 }
    ensures value { result ≡ 2 ^ k }
    ensures low { 0 < result }
    ensures high { result ≤ 2 ^ 32 }
{
    1 << k
}

/// The lowest bits of a number.
pub(crate) fn lowest(width: u8, n: u32) -> u32
    requires { width ≤ 32 }
    ensures value { result ≡ n % 2 ^ width }
    ensures range { result < 2 ^ width }
{
    (u64::from(n) % power(width)) as u32
}

/// The lowest bits of a number, with their sign.
pub(crate) fn extended(width: u8, n: u32) -> u32
    requires some { 1 ≤ width }
    requires within { width ≤ 32 }
    ensures { result ≡ extended width n }
{
    let low = lowest(width, n);
    if u64::from(low) / power(width - 1) == 1 {
        (u64::from(low) + (0x1_0000_0000 - power(width))) as u32
    } else {
        low
    }
}

/// The bits from one on.
pub(crate) fn field_of(lsb: u8, width: u8, n: u32) -> u32
    requires { lsb + width ≤ 32 }
    ensures { result ≡ field_of lsb width n }
{
    (u64::from(n) / power(lsb) % power(width)) as u32
}

/// A number with other bits from one on.
pub(crate) fn with_field(lsb: u8, width: u8, bits: u32, n: u32) -> u32
    requires within { lsb + width ≤ 32 }
    requires fits { bits < 2 ^ width }
    ensures { result ≡ with_field lsb width bits n }
{
    let top = power(lsb + width);
    let low = power(lsb);
    (u64::from(n) / top * top + u64::from(bits) * low + u64::from(n) % low) as u32
}

/// The last bit first.
fn reversed(n: u32) -> u32
    ensures { result ≡ reversed 32 n }
{
    n.reverse_bits()
}

/// How many bits are 0, from the highest on.
fn leading_zeros(n: u32) -> u32
    ensures { result ≡ leading_zeros 32 n }
{
    n.leading_zeros()
}

/// Four bytes, the lowest first.
fn of_bytes(a: u32, b: u32, c: u32, d: u32) -> u32
    requires a { a < 256 }
    requires b { b < 256 }
    requires c { c < 256 }
    requires d { d < 256 }
    ensures { result ≡ of_bytes a b c d }
{
    a + 256 * b + 65536 * c + 16_777_216 * d
}

/// The last byte first.
fn swapped(n: u32) -> u32
    ensures { result ≡ unary unary_op.Rev n }
{
    let first = n / 256;
    let second = first / 256;
    let third = second / 256;
    of_bytes(third % 256, second % 256, first % 256, n % 256)
}

/// The last byte of each half first.
fn swapped_halves(n: u32) -> u32
    ensures { result ≡ unary unary_op.Rev16 n }
{
    let first = n / 256;
    let second = first / 256;
    let third = second / 256;
    of_bytes(first % 256, n % 256, third % 256, second % 256)
}

/// A number turned right.
pub(crate) fn rotated(n: u32, by: u8) -> u32
    ensures { result ≡ rotated n by }
{
    shift_c(n, Shift::Ror, by, false).value
}

/// The result of an operation on one register.
pub(crate) fn unary(op: UnaryOp, n: u32) -> u32
    ensures { result ≡ unary op n }
{
    match op {
        UnaryOp::Sxth => extended(16, n),
        UnaryOp::Sxtb => extended(8, n),
        UnaryOp::Uxth => n % 0x1_0000,
        UnaryOp::Uxtb => n % 0x100,
        UnaryOp::Rev => swapped(n),
        UnaryOp::Rev16 => swapped_halves(n),
        UnaryOp::Revsh => extended(16, 256 * (n % 256) + n / 256 % 256),
        UnaryOp::Rbit => reversed(n),
        UnaryOp::Clz => leading_zeros(n),
    }
}
