//! Why a call on a shelf or a sink fails.

use thiserror::Error;

/// Why a file was not loaded.
#[derive(Clone, Copy, Debug, PartialEq, Eq, Error)]
pub enum LoadErr {
    #[error("no memory")]
    Memory,
    #[error("the file could not be read")]
    Failed,
}

/// Why a file was not saved, or only a part of it.
#[derive(Clone, Copy, Debug, PartialEq, Eq, Error)]
pub enum SaveErr {
    #[error("no memory")]
    Memory,
    #[error("the file could not be written")]
    Failed,
}

/// Why bytes were not put out, or only a part of them.
#[derive(Clone, Copy, Debug, PartialEq, Eq, Error)]
pub enum PutErr {
    #[error("no memory")]
    Memory,
    #[error("the output could not be written")]
    Failed,
}
