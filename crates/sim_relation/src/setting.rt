//! For how much an object is hardened.

/// How often each step of a sequence stands, and how many of r0 to r3 hold results of a function (AAPCS, 6.1).
#[derive(Clone, Copy, Debug, PartialEq, Eq)]
pub struct Setting {
    pub copies: u8,
    pub results: u8,
}
