//! The machine.

ghost use Rattle.std.specs.Prelude.{◌≡◌, ◌↔◌, ◌+◌, ◌^◌, ◌<◌, ◌≤◌, true, false, length, IfOk, IfErr};
ghost use Rattle.thumb_table.specs.Calls.{argument, start_regs, run_memory, started};
ghost use Rattle.thumb_table.specs.Schedules.{is_in};
ghost use Rattle.skip_machine.specs.Machines.{CanRun, state};
ghost use Rattle.skip_machine.specs.Runs.{Steps, Faulted, Ran};

use crate::Plan;
use crate::moves::make_move;
use mark_word::{Cell, Word};
use std::alloc::{AllocError, Global};
use std::marker::Model;
use thumb_table::{CodeBytes, Core, FaultKind, Image, Memory};

/// The address that a call ends at.
const EXIT: u32 = 0x7fff_fffe;

/// How a step ends: the call goes on, or has returned.
#[derive(Clone, Copy, Debug, PartialEq, Eq)]
pub enum Moved {
    On,
    Returned,
}

/// How a run ends: the call has returned, a step at an address faulted, or all steps were made.
#[derive(Clone, Copy, Debug, PartialEq, Eq)]
pub enum Outcome {
    Returned,
    Fault(FaultKind, u32),
    Unfinished,
}

/// An image that is run: its code, registers, and memory with the stack behind the data.
#[derive(Debug, Drop)]
pub struct Machine {
    code: CodeBytes,
    core: Core,
    memory: Memory,
    steps: u64,
    running: bool,
    ordinary: bool,
}

impl Model for Machine {
    ghost use Rattle.skip_machine.specs.Machines.{Machine, IsSound};

    ghost Value = { Machine };

    ghost view = { λ m. record { code = m.code; core = m.core; memory = m.memory; steps = m.steps; running = m.running; ordinary = m.ordinary } };

    ghost invariant = { λ m. IsSound m.code m.memory };
}

/// A copy of code.
fn copied(alloc: Global, code: &CodeBytes) -> Result<CodeBytes, AllocError>
    ensures { IfOk result (λ c. c ≡ code.now) }
{
    let mut bytes = Vec::new(alloc);
    bytes.extend_from_slice(code.bytes())?;
    let mut marks = Vec::new(alloc);
    marks.extend_from_slice(code.marks())?;
    let mut stops = Vec::new(alloc);
    stops.extend_from_slice(code.stops())?;
    Ok(CodeBytes::new(code.base(), bytes, marks, stops))
}

/// The memory of a run.
fn with_stack(alloc: Global, image: &Image, stack: u32) -> Result<Memory, AllocError>
    requires { CanRun image.now stack }
    ensures { IfOk result (λ m. m ≡ run_memory image.now stack) }
{
    let data = image.memory().cells();
    let rounded = (data.len() + 7) / 8 * 8;
    let mut cells = Vec::new(alloc);
    cells.extend_from_slice(data)?;
    cells.resize(rounded, Cell::bare(0))?;
    cells.resize(rounded + stack as usize, Cell::bare(0))?;
    Ok(Memory::new(image.memory().base(), cells))
}

fn argument(args: &[u32], k: usize) -> Word
    ensures { result ≡ argument args.now k }
{
    if k < args.len() {
        Word::plain(args[k])
    } else {
        Word::plain(0)
    }
}

/// The registers that a call starts with.
fn start_registers(args: &[u32], top: u32) -> [Word; 15]
    ensures { result ≡ start_regs args.now top }
{
    let zero = Word::plain(0);
    [
        argument(args, 0),
        argument(args, 1),
        argument(args, 2),
        argument(args, 3),
        zero,
        zero,
        zero,
        zero,
        zero,
        zero,
        zero,
        zero,
        zero,
        Word::plain(top),
        Word::returning(0x7fff_ffff),
    ]
}

impl Machine {
    /// A machine for an image, which isn't started. No later call takes memory.
    pub fn new(alloc: Global, image: &Image, stack: u32) -> Result<Machine, AllocError>
        requires { CanRun image.now stack }
        ensures { IfOk result (λ m. (m.code ≡ image.now.code) × (m.memory ≡ run_memory image.now stack) × (m.steps ≡ 0) × (m.running ≡ false)) }
    {
        let code = copied(alloc, image.code())?;
        let memory = with_stack(alloc, image, stack)?;
        let core = Core {
            r: start_registers(&[], 0),
            pc: 0,
            n: false,
            z: false,
            c: false,
            v: false,
            it: 0,
        };
        Ok(Machine {
            code,
            core,
            memory,
            steps: 0,
            running: false,
            ordinary: true,
        })
    }

    /// Starts a call; memory stays.
    pub fn start(&mut self, entry: u32, args: &[u32])
        requires { length args.now ≤ 4 }
        ensures state { state self.new ≡ started self.old.memory entry args.now }
        ensures fresh { (self.new.code ≡ self.old.code) × (self.new.steps ≡ 0) × (self.new.running ≡ true) × (self.new.ordinary ≡ true) }
    {
        let top = self.memory.base() + self.memory.cells().len() as u32;
        self.core = Core {
            r: start_registers(args, top),
            pc: entry - entry % 2,
            n: false,
            z: false,
            c: false,
            v: false,
            it: 0,
        };
        self.steps = 0;
        self.running = true;
        self.ordinary = true;
    }

    /// Whether a call was started and has neither returned nor faulted since.
    pub fn is_running(&self) -> bool
        ensures { result ≡ self.now.running }
    {
        self.running
    }

    /// One step, executed or skipped. A fault leaves registers and memory as they were.
    pub fn step(&mut self, skipped: bool) -> Result<Moved, FaultKind>
        requires running { self.old.running ≡ true }
        requires room { self.old.steps < 2 ^ 63 }
        ensures ok { IfOk result (Steps skipped self.old self.new) }
        ensures err { IfErr result (Faulted skipped self.old self.new) }
    {
        match make_move(skipped, &self.code, &mut self.core, &mut self.memory) {
            Err(kind) => {
                self.running = false;
                Err(kind)
            }
            Ok(ordinary) => {
                self.ordinary = self.ordinary && ordinary;
                self.steps += 1;
                self.running = self.core.pc != EXIT;
                Ok(if self.running {
                    Moved::On
                } else {
                    Moved::Returned
                })
            }
        }
    }

    /// At most so many steps, without those of the plan, until the call returns or a step faults.
    pub fn run(&mut self, steps: u64, plan: &Plan) -> Outcome
        requires running { self.old.running ≡ true }
        requires room { self.old.steps + steps ≤ 2 ^ 63 }
        ensures { Ran (is_in plan.now) steps self.old self.new result }
    {
        for i in 0..steps {
            let skipped = plan.holds(self.steps());
            let pc = self.registers().pc;
            match self.step(skipped) {
                Ok(Moved::On) => {}
                Ok(Moved::Returned) => return Outcome::Returned,
                Err(kind) => return Outcome::Fault(kind, pc),
            }
        }
        Outcome::Unfinished
    }

    /// The registers and flags.
    pub fn registers(&self) -> &Core
        ensures { result.now ≡ self.now.core }
    {
        &self.core
    }

    /// Data and stack.
    pub fn memory(&self) -> &Memory
        ensures { result.now ≡ self.now.memory }
    {
        &self.memory
    }

    /// How many steps were made since the start, skipped ones too.
    pub fn steps(&self) -> u64
        ensures { result ≡ self.now.steps }
    {
        self.steps
    }

    /// Whether each executed step since the start was ordinary.
    pub fn is_ordinary(&self) -> bool
        ensures { result ≡ self.now.ordinary }
    {
        self.ordinary
    }
}
