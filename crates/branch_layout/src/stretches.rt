//! Stretches: the code of a unit as widths and a place.

ghost use Rattle.std.specs.Prelude.{◌≡◌, ◌≤◌, ◌<◌, ◌+◌, ◌^◌, All, length, IfOk};
ghost use Rattle.seq_core.specs.declared.steps.Step.{Step as StepValue};
ghost use Rattle.branch_layout.specs.Copies.{copies_of as copies_in};
ghost use Rattle.branch_layout.specs.Widths.{AreLong};
ghost use Rattle.branch_layout.specs.Placings.{IsStretch, landing_of as landing_index};

use crate::copies::{copies_of, length_of, long_widths};
use seq_core::Unit;
use std::alloc::{AllocError, Global};
use std::marker::Model;
use thumb_encode::Width;

/// The widths of a unit's copies, and where it begins, where it ends and where a call in it comes back to.
#[derive(Drop)]
pub struct Stretch {
    widths: Vec<Width>,
    start: u32,
    end: u32,
    back: u32,
}

impl Model for Stretch {
    ghost use Rattle.std.specs.Prelude.{None};
    ghost use Rattle.branch_layout.specs.Placings.{Stretch};

    ghost Value = { Stretch };

    ghost view = { λ s. record { widths = s.widths.items; place = record { start = s.start; end = s.end; back = s.back; island = None } } };
}

impl Stretch {
    /// The widths of its copies.
    pub fn widths(&self) -> &[Width]
        ensures { result.now ≡ self.now.widths }
    {
        &self.widths
    }

    /// Its offset.
    pub fn start(&self) -> u32
        ensures { result ≡ self.now.place.start }
    {
        self.start
    }

    /// Where it ends.
    pub fn end(&self) -> u32
        ensures { result ≡ self.now.place.end }
    {
        self.end
    }

    /// Where a call in it comes back to: its landing, or its end where it has none.
    pub fn back(&self) -> u32
        ensures { result ≡ self.now.place.back }
    {
        self.back
    }
}

/// The number of copies before the landing.
fn landing_of(alloc: Global, unit: &Unit) -> Result<usize, AllocError>
    ensures { IfOk result (λ n. n ≡ landing_index unit.now) }
{
    let steps = unit.seq.steps();
    let landing = unit.seq.landing() as usize;
    Ok(copies_of(alloc, &steps[..landing])?.len())
}

/// The stretch of a unit that begins at an offset, in the long layout.
pub(crate) fn stretch_of(alloc: Global, unit: &Unit, start: u32) -> Result<Stretch, AllocError>
    requires copies { All (λ (s : StepValue). s.copies ≤ 4) unit.now.seq.steps }
    requires room { start < 2 ^ 31 }
    ensures is { IfOk result (λ s. IsStretch unit.now s) }
    ensures long { IfOk result (λ s. AreLong (copies_in unit.now.seq.steps) s.widths) }
    ensures start { IfOk result (λ s. s.place.start ≡ start) }
    ensures small { IfOk result (λ s. s.place.end ≤ start + 128) }
{
    let copies = copies_of(alloc, unit.seq.steps())?;
    let landing = landing_of(alloc, unit)?;
    let widths = long_widths(alloc, &copies)?;
    let end = start + length_of(&widths);
    let back = start + length_of(&widths[..landing]);
    Ok(Stretch {
        widths,
        start,
        end,
        back,
    })
}
