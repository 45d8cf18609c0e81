//! Plans that are drawn.

ghost use Rattle.std.specs.Prelude.{◌≡◌, ◌≤◌, IfOk};
ghost use Rattle.skip_machine.specs.Draws.{next_draw, IsDrawn};

use std::alloc::{AllocError, Global};

/// The number that is drawn behind another.
fn next_draw(x: u32) -> u32
    ensures { result ≡ next_draw x }
{
    x.wrapping_mul(1_664_525).wrapping_add(1_013_904_223)
}

/// The steps that are skipped of a drawn plan.
pub(crate) fn drawn_steps(
    alloc: Global,
    seed: u32,
    steps: u64,
    copies: u8,
) -> Result<Vec<u64>, AllocError>
    requires { 2 ≤ copies }
    ensures { IfOk result (λ v. IsDrawn seed steps copies v.items) }
{
    let mut skipped = Vec::new(alloc);
    let mut x = seed;
    let mut row = 0;
    for step in 0..steps {
        x = next_draw(x);
        if x >= 0x8000_0000 && row < copies - 1 {
            skipped.push(step)?;
            row += 1;
        } else {
            row = 0;
        }
    }
    Ok(skipped)
}
