//! From a seed to the report on two runs.

ghost use Rattle.std.specs.Prelude.{◌≡◌, ◌≤◌, ◌^◌, [], ◌∷◌, length, IfOk, IsTrue, string_bytes};
ghost use Rattle.elf_model.specs.Maps.{HasMap};
ghost use Rattle.elf_model.specs.Objects.{code_size, is_within};
ghost use Rattle.thumb_table.specs.Images.{IsImage};
ghost use Rattle.thumb_table.specs.States.{read};
ghost use Rattle.skip_machine.specs.Machines.{state};
ghost use Rattle.gen_object.specs.Generated.{generated};
ghost use Rattle.gen_image.specs.GeneratedImages.{placement};
ghost use Rattle.make_run.specs.Making.{IsMade};
ghost use Rattle.make_run.specs.MakeTexts.{same_line};
ghost use Rattle.make_run.specs.MakeSteps.{IsAllMade, EndAlike, HasRows};

use crate::calls::{returned, returned_plainly, skips_of};
use crate::lines::{Tally, report_text};
use crate::phases::{hard_image, hardened_of, is_hardened, plain_image};
use elf_model::{Deny, Limit, MapRow, Object, Section, is_code};
use elf_read::read_map;
use gen_object::generated;
use harden_core::Hardened;
use sim_relation::laws::same_by_rows;
use sim_relation::{AddressMap, same};
use skip_machine::{Machine, Plan};
use std::alloc::{AllocError, Global};
use thumb_table::Image;

/// Makes the object of `count` functions from a seed, hardens it, runs it as it is and its hardened form under drawn
/// skips, and says in five lines what came of it.
///
/// # Errors
///
/// Where memory runs out.
pub fn make(alloc: Global, seed: u32, count: u32) -> Result<String, AllocError>
    requires low { 1 ≤ count }
    requires high { count ≤ 4000 }
    ensures { IfOk result (λ text. IsMade seed count (string_bytes text)) }
{
    let object = generated(alloc, seed, count)?;
    let hardened = hardened_of(alloc, &object)?;
    let plain = plain_image(alloc, &object)?;
    let hard = hard_image(alloc, &object, &hardened, &plain)?;
    let made = Made {
        seed,
        count,
        object,
        hardened,
        plain,
        hard,
    };
    report_on(alloc, &made)
}

/// A generated object and its hardened form, with the image of each.
#[derive(Drop)]
struct Made {
    seed: u32,
    count: u32,
    object: Object,
    hardened: Hardened,
    plain: Image,
    hard: Image,
}

/// The report on the runs of both.
fn report_on(alloc: Global, made: &Made) -> Result<String, AllocError>
    requires { IsAllMade made.now }
    ensures { IfOk result (λ text. IsMade made.now.seed made.now.count (string_bytes text)) }
{
    let plain = returned_plainly(alloc, &made.plain, made.count)?;
    is_hardened(&made.object, &made.hardened);
    let most = made.hardened.factor as u64 * plain.steps();
    let plan = Plan::drawn(alloc, made.seed, most, 2)?;
    let hard = returned(alloc, &made.hard, most, &plan)?;
    let last = same_text(alloc, made, &plain, &hard)?;
    let tally = Tally {
        functions: made.count,
        old_bytes: code_bytes_of(made.object.sections()),
        new_bytes: code_bytes_of(made.hardened.object.sections()),
        factor: made.hardened.factor,
        steps: plain.steps(),
        r0: r0_of(&plain),
        hard_steps: hard.steps(),
        skips: skips_of(&plan, hard.steps()),
        hard_r0: r0_of(&hard),
    };
    report_text(alloc, &tally, last)
}

/// The last line, from a comparison of both ends by the map in the hardened object: that they are alike is promised.
fn same_text(
    alloc: Global,
    made: &Made,
    plain: &Machine,
    hard: &Machine,
) -> Result<&'static str, AllocError>
    requires made { IsAllMade made.now }
    requires alike { EndAlike made.now plain.now hard.now }
    ensures { IfOk result (λ text. text.now ≡ same_line) }
{
    same_by_rows();
    let rows = rows_of(alloc, made)?;
    let map = AddressMap::of(alloc, &made.plain, &made.hard, std::slice::from_ref(&rows))?;
    if same(plain, hard, &map) {
        Ok("same yes\n")
    } else {
        unreachable!()
    }
}

/// The rows of the map in the hardened object, which has one.
fn rows_of(alloc: Global, made: &Made) -> Result<Vec<MapRow>, AllocError>
    requires { HasRows made.now.hardened.object }
    ensures { IfOk result (λ rows. HasMap made.now.hardened.object rows.items) }
{
    match read_map(alloc, &made.hardened.object) {
        Ok(rows) => Ok(rows),
        Err(Deny::NoMemory) => Err(AllocError),
        Err(Deny::Refused(_)) => unreachable!(),
    }
}

/// How many bytes the sections of code have.
fn code_bytes_of(sections: &[Section]) -> u64
    requires { length sections.now ≤ 1024 }
    ensures { result ≡ code_size sections.now }
{
    let mut sum = 0;
    for section in sections {
        if is_code(section) {
            sum += section.size as u64;
        }
    }
    sum
}

/// The number in r0.
fn r0_of(machine: &Machine) -> u32
    ensures { result ≡ (read (state machine.now).core 0).bits }
{
    machine.registers().r[0].bits()
}
