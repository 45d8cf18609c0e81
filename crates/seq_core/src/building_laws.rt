//! Laws of the instructions by which others are replaced. The functions do nothing: their contracts are the laws.

ghost use Rattle.seq_core.specs.Built.{ThroughOneWorks, ThroughTwoWorks};

/// Each instruction of class Through that halfwords stand for is done by way of as many free registers as it needs.
pub fn scratch_registers_suffice()
    ensures one { ThroughOneWorks }
    ensures two { ThroughTwoWorks }
{}
