//! Builders of sequences.

ghost use Rattle.std.specs.Prelude.{◌≡◌, ◌≤◌, length};
ghost use Rattle.seq_core.specs.Builders.{HasRow, CanBuild, Do, AreCoded, loses, own_test};
ghost use Rattle.seq_core.specs.Classes.{IsOf};
ghost use Rattle.seq_core.specs.Needs.{need_of};
ghost use Rattle.seq_core.specs.Replaced.{replaced};

use crate::{Class, Need, Seq};
use thumb_instr::{Instr, Reg};

/// Builds the sequences of a class: each does its instruction under every schedule that executes one of any
/// `copies` steps in a row.
pub trait Builder {
    ghost use Rattle.seq_core.specs.declared.classes.Class.{Class};

    /// The class whose sequences it builds.
    ghost builds: { Self → Class };

    /// The class.
    fn class(&self) -> Class
        ensures { result ≡ builds self.now };

    /// What the sequence of an instruction of the class needs.
    fn need(&self, i: &Instr) -> Need
        requires row { HasRow i.now }
        requires class { IsOf (builds self.now) i.now }
        ensures { result ≡ need_of (builds self.now) i.now };

    /// The sequence of an instruction of the class, by way of free registers, each step `copies` times.
    fn build(&self, i: &Instr, scratch: &[Reg], copies: u8) -> Seq
        requires { CanBuild (builds self.now) i.now scratch.now copies }
        ensures steps { result ≡ record { steps = replaced (builds self.now) copies i.now scratch.now; landing = length (replaced (builds self.now) copies i.now scratch.now) } }
        ensures works { Do (own_test i.now) i.now (loses i.now scratch.now) copies result.steps }
        ensures coded { AreCoded result.steps };
}
