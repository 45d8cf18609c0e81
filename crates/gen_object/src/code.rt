//! The code of the functions.

ghost use Rattle.std.specs.Prelude.{◌≡◌, ◌≤◌, ◌++◌, IfOk, OnOk};
ghost use Rattle.std.specs.List.{flat_map};
ghost use Rattle.elf_model.specs.Fields.{half};
ghost use Rattle.skip_machine.specs.Draws.{next_draw, draws};
ghost use Rattle.gen_object.specs.Generated.{choice, function_halves, code_bytes};

use std::alloc::{AllocError, Global};

/// The instructions among which a draw chooses: adds r0, #1; movs r1, #7; muls r0, r1, r0; eors r0, r1;
/// lsls r2, r0, #3; adds r0, r0, r2; rsbs r0, r0, #0; mvns r2, r1.
const CHOICES: [u16; 8] = [
    0x3001, 0x2107, 0x4348, 0x4048, 0x00C2, 0x1880, 0x4240, 0x43CA,
];

/// push {r4, lr}
const PUSH: u16 = 0xB510;

/// The two halfwords of a bl whose symbol is left to the linker.
const CALL: [u16; 2] = [0xF7FF, 0xFFFE];

/// pop {r4, pc}
const POP: u16 = 0xBD10;

/// The bytes of so many functions.
pub(crate) fn code_bytes(alloc: Global, seed: u32, count: u32) -> Result<Vec<u8>, AllocError>
    requires { count ≤ 4000 }
    ensures { IfOk result (λ code. code.items ≡ code_bytes seed count) }
{
    let mut code = Vec::new(alloc);
    let mut x = seed;
    for k in 0..count {
        x = push_function(&mut code, x, k + 1 < count)?;
    }
    Ok(code)
}

/// Appends a function whose instructions are drawn from a number on, and gives the last number drawn.
fn push_function(code: &mut Vec<u8>, x: u32, calls: bool) -> Result<u32, AllocError>
    ensures appends { OnOk result (code.new.items ≡ code.old.items ++ flat_map half (function_halves x calls)) }
    ensures last { IfOk result (λ last. last ≡ draws x 3) }
{
    let first = next_draw(x);
    let second = next_draw(first);
    let third = next_draw(second);
    push_half(code, PUSH)?;
    push_half(code, choice(first))?;
    push_half(code, choice(second))?;
    push_half(code, choice(third))?;
    if calls {
        push_half(code, CALL[0])?;
        push_half(code, CALL[1])?;
    }
    push_half(code, POP)?;
    Ok(third)
}

/// The number that is drawn behind another, as for a plan.
fn next_draw(x: u32) -> u32
    ensures { result ≡ next_draw x }
{
    x.wrapping_mul(1_664_525).wrapping_add(1_013_904_223)
}

/// The instruction that the top three bits of a number choose.
fn choice(x: u32) -> u16
    ensures { result ≡ choice x }
{
    CHOICES[(x / 0x2000_0000) as usize]
}

/// Appends a halfword, its low byte first.
fn push_half(code: &mut Vec<u8>, halfword: u16) -> Result<(), AllocError>
    ensures { OnOk result (code.new.items ≡ code.old.items ++ half halfword) }
{
    code.extend_from_slice(&halfword.to_le_bytes())
}
