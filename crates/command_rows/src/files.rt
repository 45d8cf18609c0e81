//! Files of the rows: those of other tools with other code or other bytes.

use sample_files::{FIVE, PLAIN};

/// The file of other code: so many of these bytes, where instructions begin at `start` and data before it.
pub(crate) fn of_code(bytes: [u8; 10], size: u8, start: u8) -> [u8; 352] {
    let mut file = FIVE;
    file[52..62].copy_from_slice(&bytes);
    file[84] = start;
    file[212] = size;
    file
}

/// The plain file with other bytes from a place on.
pub(crate) fn plain_with(place: usize, bytes: &[u8]) -> [u8; 344] {
    let mut file = PLAIN;
    if place <= 344 && bytes.len() <= 344 - place {
        file[place..place + bytes.len()].copy_from_slice(bytes);
    }
    file
}

/// The header of the plain file alone, with no sections.
pub(crate) fn without_sections() -> [u8; 52] {
    let mut header = [0; 52];
    header.copy_from_slice(&PLAIN[..52]);
    header[48] = 0;
    header
}
