//! The end of a command: its outputs are saved, and then it says what it did.

ghost use Rattle.std.specs.Prelude.{◌≡◌, ◌≤◌, IfErr, OnOk, IsTrue};
ghost use Rattle.guard_cli.specs.Moments.{files_seen, screen_seen, IsToldOf, IsHandedOn, CountsStay};
ghost use Rattle.guard_cli.specs.Endings.{AreSaved, IsTurnedAwayAs};
ghost use Rattle.guard_cli.specs.Steps.{saves_of, MadeEndsAs, SaveFailsAs, ReportEndsAs};
ghost use Rattle.guard_cli.specs.Texts.{no_memory_line};

use crate::Ending;
use crate::outputs::Output;
use crate::tasks::Made;
use crate::texts::{no_memory_text, refused_text};
use elf_model::Spot;
use guard_io::{PutErr, SaveErr, Shelf, Sink};
use std::alloc::Global;

/// Saves the outputs, and then prints the report; or says how a run stopped.
pub(crate) fn finish<S: Shelf, K: Sink>(made: &Made, shelf: &mut S, out: &mut K) -> Ending
    ensures ends { let files = files_seen S.tells S.file S.steady S.load_faults S.save_faults in
        let screen = screen_seen K.tells K.written K.steady K.faults K.wants in
        MadeEndsAs made.now (files shelf.old) (files shelf.new) (screen out.old) (screen out.new) result }
    ensures handed_on { let files = files_seen S.tells S.file S.steady S.load_faults S.save_faults in
        let screen = screen_seen K.tells K.written K.steady K.faults K.wants in
        IsHandedOn (files shelf.old) (files shelf.new) (screen out.old) (screen out.new) }
    ensures calm { let files = files_seen S.tells S.file S.steady S.load_faults S.save_faults in
        let screen = screen_seen K.tells K.written K.steady K.faults K.wants in
        IsTrue (S.steady shelf.old) → IsTrue (K.steady out.old) →
        CountsStay (files shelf.old) (files shelf.new) (screen out.old) (screen out.new) }
{
    match made.stopped {
        Some(outcome) => {
            tell(out, &made.report);
            Ending::Stopped(outcome)
        }
        None => match save_all(&made.outputs, shelf, out) {
            Ok(()) => print(out, &made.report),
            Err(ending) => ending,
        },
    }
}

/// Saves the outputs in their order, or says why one of them is not saved.
fn save_all<S: Shelf, K: Sink>(outputs: &[Output], shelf: &mut S, out: &mut K) -> Result<(), Ending>
    ensures saved { let files = files_seen S.tells S.file S.steady S.load_faults S.save_faults in
        OnOk result (AreSaved (saves_of outputs.now) (files shelf.old) (files shelf.new)) }
    ensures silent { OnOk result (out.new ≡ out.old) }
    ensures failed { let files = files_seen S.tells S.file S.steady S.load_faults S.save_faults in
        let screen = screen_seen K.tells K.written K.steady K.faults K.wants in
        IfErr result (SaveFailsAs (saves_of outputs.now) (files shelf.old) (files shelf.new) (screen out.old) (screen out.new)) }
    ensures handed_on { let files = files_seen S.tells S.file S.steady S.load_faults S.save_faults in
        let screen = screen_seen K.tells K.written K.steady K.faults K.wants in
        IsHandedOn (files shelf.old) (files shelf.new) (screen out.old) (screen out.new) }
    ensures calm { let files = files_seen S.tells S.file S.steady S.load_faults S.save_faults in
        let screen = screen_seen K.tells K.written K.steady K.faults K.wants in
        IsTrue (S.steady shelf.old) → IsTrue (K.steady out.old) →
        CountsStay (files shelf.old) (files shelf.new) (screen out.old) (screen out.new) }
{
    let [output, later @ ..] = outputs else {
        return Ok(());
    };
    match shelf.save(&output.name, &output.bytes) {
        Ok(()) => save_all(later, shelf, out),
        Err(SaveErr::Failed) => {
            tell(out, output.fault.as_bytes());
            Err(Ending::WriteFault)
        }
        Err(SaveErr::Memory) => Err(give_up(out)),
    }
}

/// Prints what a command has to say when it has done all else.
fn print<K: Sink>(out: &mut K, report: &[u8]) -> Ending
    ensures ending { let screen = screen_seen K.tells K.written K.steady K.faults K.wants in
        ReportEndsAs report.now (screen out.old) (screen out.new) result }
    ensures count { K.faults out.old ≤ K.faults out.new }
    ensures wants { K.wants out.old ≤ K.wants out.new }
    ensures steady { IsTrue (K.steady out.old) → IsTrue (K.steady out.new) }
    ensures calm { IsTrue (K.steady out.old) → K.faults out.new ≡ K.faults out.old }
{
    match out.put(report) {
        Ok(()) => Ending::Done,
        Err(PutErr::Failed) => Ending::PrintFault,
        Err(PutErr::Memory) => give_up(out),
    }
}

/// Says that an input is refused. Where there is no memory for the line, that is how the command ends.
pub(crate) fn turn_away<K: Sink>(alloc: Global, input: &str, spot: Spot, out: &mut K) -> Ending
    ensures ending { let screen = screen_seen K.tells K.written K.steady K.faults K.wants in
        IsTurnedAwayAs input.now spot (screen out.old) (screen out.new) result }
    ensures count { K.faults out.old ≤ K.faults out.new }
    ensures wants { K.wants out.old ≤ K.wants out.new }
    ensures steady { IsTrue (K.steady out.old) → IsTrue (K.steady out.new) }
    ensures calm { IsTrue (K.steady out.old) → K.faults out.new ≡ K.faults out.old }
{
    match refused_text(alloc, input, &spot) {
        Ok(line) => {
            tell(out, line.as_bytes());
            Ending::Refused(spot)
        }
        Err(_) => give_up(out),
    }
}

/// Says that memory ran out.
pub(crate) fn give_up<K: Sink>(out: &mut K) -> Ending
    ensures ending { result ≡ Ending.NoMemory }
    ensures told { let screen = screen_seen K.tells K.written K.steady K.faults K.wants in
        IsToldOf no_memory_line (screen out.old) (screen out.new) }
    ensures count { K.faults out.old ≤ K.faults out.new }
    ensures wants { K.wants out.old ≤ K.wants out.new }
    ensures steady { IsTrue (K.steady out.old) → IsTrue (K.steady out.new) }
    ensures calm { IsTrue (K.steady out.old) → K.faults out.new ≡ K.faults out.old }
{
    tell(out, no_memory_text().as_bytes());
    Ending::NoMemory
}

/// Says how a command ends. An output that fails changes nothing of that.
pub(crate) fn tell<K: Sink>(out: &mut K, line: &[u8])
    ensures told { let screen = screen_seen K.tells K.written K.steady K.faults K.wants in
        IsToldOf line.now (screen out.old) (screen out.new) }
    ensures count { K.faults out.old ≤ K.faults out.new }
    ensures wants { K.wants out.old ≤ K.wants out.new }
    ensures steady { IsTrue (K.steady out.old) → IsTrue (K.steady out.new) }
    ensures calm { IsTrue (K.steady out.old) → K.faults out.new ≡ K.faults out.old }
{
    let _ = out.put(line);
}
