//! Why a file does not set options.
ghost use Rattle.std.specs.Prelude.{◌≡◌};
ghost use Rattle.option_file.specs.declared.error.FileError.TheVariants as wrong;

use std::alloc::{AllocError, AllocFailed};

/// Why a file does not set options.
#[derive(Drop)]
pub enum FileError {
    /// The file is not TOML: the number of the line, from 1, and what is wrong with it.
    NotToml(usize, String),
    /// The key is not the name of an option that a file may set.
    Unknown(String),
    /// The option may not have this value: the name of the option, and which values it may have.
    WrongValue(String, String),
    /// Out of memory.
    NoMemory,
}

impl From<AllocError> for FileError {
    ghost from_gives = { λ _ error. error ≡ wrong.NoMemory };

    fn from(_refused: AllocError) -> FileError {
        FileError::NoMemory
    }
}

impl<T: Drop> From<AllocFailed<T>> for FileError {
    ghost from_gives = { λ _ error. error ≡ wrong.NoMemory };

    fn from(_refused: AllocFailed<T>) -> FileError {
        FileError::NoMemory
    }
}
