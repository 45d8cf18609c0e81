//! Halfwords of code.

ghost use Rattle.std.specs.Prelude.{◌≡◌, Some, None, if◌then◌else◌};
ghost use Rattle.thumb_table.specs.Effects.{lies, half_of};

use crate::CodeBytes;
use byteorder::{ByteOrder, LittleEndian};

impl CodeBytes {
    /// Whether so many bytes from an address on lie in the code.
    pub fn holds(&self, address: u32, count: u32) -> bool
        ensures { result ≡ lies self.now address count }
    {
        let length = self.bytes().len();
        let wanted = count as usize;
        let base = self.base();
        base <= address && wanted <= length && (address - base) as usize <= length - wanted
    }

    /// The halfword at an address; `None` where it doesn't lie in the code.
    pub fn half(&self, address: u32) -> Option<u16>
        ensures { result ≡ (if lies self.now address 2 then Some (half_of self.now address) else None) }
    {
        if self.holds(address, 2) {
            let at = (address - self.base()) as usize;
            Some(LittleEndian::read_u16(&self.bytes()[at..]))
        } else {
            None
        }
    }
}
