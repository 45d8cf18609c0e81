//! Calls of the first function, which return.

ghost use Rattle.std.specs.Prelude.{◌≡◌, ◌≤◌, ◌^◌, ℕ, [], ◌∷◌, IfOk};
ghost use Rattle.thumb_table.specs.Images.{IsImage};
ghost use Rattle.skip_machine.specs.Machines.{CanRun};
ghost use Rattle.gen_object.specs.Generated.{generated};
ghost use Rattle.gen_image.specs.GeneratedImages.{placement};
ghost use Rattle.make_run.specs.Making.{skipped_of};
ghost use Rattle.make_run.specs.MakeSteps.{CanReturn, HasReturned, HasReturnedPlainly};

use crate::phases::PLACEMENT;
use gen_image::generated_images_are_known;
use gen_runs::generated_calls_return;
use skip_machine::{Machine, Outcome, Plan};
use std::alloc::{AllocError, Global};
use thumb_table::Image;

/// The machine in which the call of `f0` with 3 has returned, within so many steps, without those of a plan.
pub(crate) fn returned(
    alloc: Global,
    image: &Image,
    most: u64,
    plan: &Plan,
) -> Result<Machine, AllocError>
    requires run { CanRun image.now placement.stack }
    requires few { most ≤ 2 ^ 63 }
    requires returns { CanReturn image.now plan.now most }
    ensures { IfOk result (HasReturned image.now plan.now most) }
{
    let Some(entry) = image.entry(b"f0") else {
        unreachable!();
    };
    let mut machine = Machine::new(alloc, image, PLACEMENT.stack)?;
    machine.start(entry, &[3]);
    match machine.run(most, plan) {
        Outcome::Returned => Ok(machine),
        _ => unreachable!(),
    }
}

/// The same of the image of a generated object of so many functions, of which no step is skipped.
pub(crate) fn returned_plainly(
    alloc: Global,
    image: &Image,
    count: u32,
) -> Result<Machine, AllocError>
    requires low { 1 ≤ count }
    requires high { count ≤ 4000 }
    requires image { (seed : ℕ) × IsImage (generated seed count ∷ []) placement image.now }
    ensures { IfOk result (HasReturnedPlainly image.now count) }
{
    generated_images_are_known();
    generated_calls_return();
    let plan = no_skips(alloc)?;
    returned(alloc, image, 6 * count as u64 - 1, &plan)
}

/// The plan by which no step is skipped: none is drawn.
fn no_skips(alloc: Global) -> Result<Plan, AllocError>
    ensures { IfOk result (λ plan. plan ≡ []) }
{
    Plan::drawn(alloc, 0, 0, 2)
}

/// How many of the first steps a plan skips.
pub(crate) fn skips_of(plan: &Plan, steps: u64) -> u64
    ensures { result ≡ skipped_of plan.now steps }
{
    let mut skips = 0;
    for i in 0..steps {
        if plan.holds(i) {
            skips += 1;
        }
    }
    skips
}
