//! What an image says of its entries and its bytes.

ghost use Rattle.std.specs.Prelude.{◌≡◌, ◌≤◌, ◌+◌, ◌<◌, ◌^◌, length, IfOk};
ghost use Rattle.thumb_table.specs.Images.{entry_of, image_bytes};

use crate::Image;
use std::alloc::{AllocError, Global};

impl Image {
    /// The address that a function's call starts at, with bit 0 set; `None` where the name is none.
    pub fn entry(&self, name: &[u8]) -> Option<u32>
        ensures { result ≡ entry_of self.now.entries name.now }
    {
        for e in self.entries() {
            if e.name.bytes() == name {
                return Some(e.address);
            }
        }
        None
    }

    /// The code, zeros up to its room, and the bytes of the data.
    pub fn bytes(&self, alloc: Global) -> Result<Vec<u8>, AllocError>
        requires { length self.now.code.bytes ≤ self.now.room }
        ensures { IfOk result (λ v. v.items ≡ image_bytes self.now) }
    {
        let code = self.code().bytes();
        let mut bytes = Vec::new(alloc);
        bytes.extend_from_slice(code)?;
        let room = self.room() as usize;
        bytes.resize(room, 0)?;
        for cell in self.memory().cells() {
            bytes.push(cell.byte())?;
        }
        Ok(bytes)
    }
}
