//! The commands of `skipguard`, from their words to what they save and print.
#![tactic(auto)]

mod carrying;
mod endings;
mod finishing;
mod harden;
mod link;
mod list;
mod loading;
mod make;
mod outputs;
mod run;
mod tasks;
mod texts;

ghost use Rattle.std.specs.Prelude.{◌≡◌, ◌↔◌, List, ℕ, map, All, IsTrue, IsSome, string_bytes};
ghost use Rattle.guard_words.specs.Meanings.{Meaning, Means};
ghost use Rattle.guard_cli.specs.Meant.{work_of};
ghost use Rattle.guard_cli.specs.Moments.{files_seen, screen_seen, IsHandedOn, CountsStay, IsUndisturbed};
ghost use Rattle.guard_cli.specs.Works.{Input, AreLoaded};
ghost use Rattle.guard_cli.specs.Endings.{EndsAs, IsMisused, IsDoneOrNoMemory};

use crate::carrying::carry_out;
use crate::finishing::{give_up, tell};
use crate::texts::usage_text;
pub use endings::Ending;
use guard_io::{Shelf, Sink};
use guard_words::{Command, command_of};
use std::alloc::Global;

/// Carries out a command. Each output is decided before any is saved, and no other file is touched.
pub fn guard_main<S: Shelf, K: Sink>(
    alloc: Global,
    words: &[String],
    shelf: &mut S,
    out: &mut K,
) -> Ending
    // The words alone decide whether they mean a command. Misused words touch nothing.
    ensures usage { (result ≡ Ending.Usage) ↔ ((m : Meaning) → Means (map string_bytes words.now) m → ⊥) }
    ensures misused { let files = files_seen S.tells S.file S.steady S.load_faults S.save_faults in
        let screen = screen_seen K.tells K.written K.steady K.faults K.wants in
        result ≡ Ending.Usage → IsMisused (files shelf.old) (files shelf.new) (screen out.old) (screen out.new) }

    // Each command ends as its work says: the ending with its cause, what was saved and what was said.
    ensures ends { let files = files_seen S.tells S.file S.steady S.load_faults S.save_faults in
        let screen = screen_seen K.tells K.written K.steady K.faults K.wants in
        (m : Meaning) → Means (map string_bytes words.now) m →
        EndsAs (work_of m) (files shelf.old) (files shelf.new) (screen out.old) (screen out.new) result }

    // Where nothing outside is in the way, and the work accepts its inputs, it is done, unless memory runs out.
    ensures completes { let files = files_seen S.tells S.file S.steady S.load_faults S.save_faults in
        let screen = screen_seen K.tells K.written K.steady K.faults K.wants in
        (m : Meaning) (loaded : List (List ℕ)) → Means (map string_bytes words.now) m → let w = work_of m in
        IsTrue (S.tells shelf.old) → AreLoaded (S.file shelf.old) w.inputs loaded → w.Accepts loaded →
        IsUndisturbed (files shelf.old) (files shelf.new) (screen out.old) (screen out.new) → IsDoneOrNoMemory result }

    // Counts never fall, and what is steady stays so. Those of faults stay where all is steady and the inputs are there.
    ensures counts { let files = files_seen S.tells S.file S.steady S.load_faults S.save_faults in
        let screen = screen_seen K.tells K.written K.steady K.faults K.wants in
        IsHandedOn (files shelf.old) (files shelf.new) (screen out.old) (screen out.new) }
    ensures calm { let files = files_seen S.tells S.file S.steady S.load_faults S.save_faults in
        let screen = screen_seen K.tells K.written K.steady K.faults K.wants in
        IsTrue (S.steady shelf.old) → IsTrue (K.steady out.old) →
        ((m : Meaning) → Means (map string_bytes words.now) m → let w = work_of m in All (λ (i : Input). IsSome (S.file shelf.old i.name)) w.inputs) →
        CountsStay (files shelf.old) (files shelf.new) (screen out.old) (screen out.new) }
{
    match command_of(alloc, words) {
        Command::Unknown => {
            tell(out, usage_text().as_bytes());
            Ending::Usage
        }
        Command::Task(task) => carry_out(alloc, &task, shelf, out),
        Command::NoMemory => give_up(out),
    }
}
