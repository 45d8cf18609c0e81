//! Codes of the constants by which bases move.

ghost use Rattle.std.specs.Prelude.{◌≡◌, true};
ghost use Rattle.thumb_instr.specs.Meanings.{constant_of};
ghost use Rattle.thumb_instr.specs.Operands.{has_constant};
ghost use Rattle.seq_core.specs.Constants.{MovesAreConstants, is_move};

/// The code of a number as a constant of ADD and SUB: of a byte, or of a multiple of 4 up to 1,020.
pub fn code_of_move(n: u16) -> u16
    requires { is_move n ≡ true }
    ensures value { result ≡ constant_of n }
    ensures constant { has_constant result ≡ true }
{
    if n < 256 {
        n
    } else if n < 512 {
        31 * 128 + (n / 2 - 128)
    } else {
        30 * 128 + (n / 4 - 128)
    }
}

/// The numbers by which bases move are constants of ADD and SUB.
pub fn moves_are_constants()
    ensures { MovesAreConstants }
{}
