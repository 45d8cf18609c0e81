//! Laws of the table. The functions do nothing: their contracts are the laws.

ghost use Rattle.std.specs.Prelude.{◌≡◌, ◌≤◌, ◌%◌, ℕ, Bool, Some};
ghost use Rattle.std.specs.Option.{option_map};
ghost use Rattle.mark_word.specs.Formulas.{expand_imm};
ghost use Rattle.thumb_instr.specs.Meanings.{constant_of};

/// The operand that stands for a multiple of 4 up to 1,020 has that value (ARMv7-M ARM, A5.3.2).
pub fn constants_are_values()
    ensures { (k : ℕ) (carry : Bool) → k ≤ 1020 → k % 4 ≡ 0 → option_map (λ x. x.value) (expand_imm (constant_of k) carry) ≡ Some k }
{}
