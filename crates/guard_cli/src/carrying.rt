//! A command from its load to its end.

ghost use Rattle.std.specs.Prelude.{◌≡◌, ◌≤◌, ℕ, List, length, map, All, IsTrue, IsSome, string_bytes};
ghost use Rattle.guard_cli.specs.Moments.{files_seen, screen_seen, IsHandedOn, CountsStay};
ghost use Rattle.guard_cli.specs.Endings.{EndsAs};
ghost use Rattle.guard_cli.specs.Steps.{names_by, work_by, HasFewInputs, IsSound};
ghost use Rattle.guard_cli.specs.Works.{input_named, inputs_of};

use crate::Ending;
use crate::finishing::{finish, give_up, turn_away};
use crate::loading::load_all;
use crate::tasks::{decide, limit_of, names_of};
use elf_model::Deny;
use guard_io::{Shelf, Sink};
use guard_words::Task;
use std::alloc::Global;

/// Carries out a command. All is decided before anything is saved.
pub(crate) fn carry_out<S: Shelf, K: Sink>(
    alloc: Global,
    task: &Task<'_>,
    shelf: &mut S,
    out: &mut K,
) -> Ending
    requires sound { IsSound task.now }
    requires inputs { HasFewInputs task.now }
    ensures ends { let files = files_seen S.tells S.file S.steady S.load_faults S.save_faults in
        let screen = screen_seen K.tells K.written K.steady K.faults K.wants in
        EndsAs (work_by task.now) (files shelf.old) (files shelf.new) (screen out.old) (screen out.new) result }
    ensures handed_on { let files = files_seen S.tells S.file S.steady S.load_faults S.save_faults in
        let screen = screen_seen K.tells K.written K.steady K.faults K.wants in
        IsHandedOn (files shelf.old) (files shelf.new) (screen out.old) (screen out.new) }
    ensures calm { let files = files_seen S.tells S.file S.steady S.load_faults S.save_faults in
        let screen = screen_seen K.tells K.written K.steady K.faults K.wants in
        IsTrue (S.steady shelf.old) → IsTrue (K.steady out.old) → All (λ (name : List ℕ). IsSome (S.file shelf.old name)) (names_by task.now) →
        CountsStay (files shelf.old) (files shelf.new) (screen out.old) (screen out.new) }
{
    let Ok(names) = names_of(alloc, task) else {
        return give_up(out);
    };
    let mut loaded = Vec::new(alloc);
    match load_all(alloc, &names, limit_of(task), &mut loaded, shelf, out) {
        Ok(()) => {}
        Err(ending) => return ending,
    }
    match decide(alloc, task, &loaded) {
        Ok(made) => finish(&made, shelf, out),
        Err(Deny::Refused(spot)) => turn_away(alloc, name_at(&names, spot.file), spot, out),
        Err(Deny::NoMemory) => give_up(out),
    }
}

/// The name of this number, or else the last, or else none.
fn name_at(names: &[String], number: u32) -> &str
    ensures { (limit : ℕ) → result.now ≡ input_named (inputs_of limit (map string_bytes names.now)) number }
{
    if (number as usize) < names.len() {
        names[number as usize].as_str()
    } else if names.is_empty() {
        ""
    } else {
        names[names.len() - 1].as_str()
    }
}
