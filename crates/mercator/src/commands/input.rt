//! Reads an input to its end.
ghost use Rattle.std.specs.Prelude.{◌≡◌, ◌<◌, ◌≤◌, length, vec_len, Err, IfOk, IfSome};
ghost use Rattle.mercator.specs.Input.{input_limits, IsBeyond};
ghost use Rattle.mercator.specs.declared.commands.input.Unread.TheVariants as unread;

use std::alloc::{AllocError, AllocFailed, Global};
use std::io::Read;

/// The most bytes of an input: 2^30.
pub const INPUT_LIMIT: usize = 1_073_741_824;

/// The most reads of an input: 2^30, including the one that finds its end.
pub const READ_LIMIT: u32 = 1_073_741_824;

/// How many bytes one read asks for.
const READ_SIZE: usize = 65_536;

/// The limits of an input.
#[derive(Clone, Copy)]
pub struct InputLimits {
    /// The most bytes.
    pub bytes: usize,
    /// The most reads, including the one that finds the end.
    pub reads: u32,
}

/// Why an input was not read to its end.
#[derive(Clone, Copy, Debug, PartialEq, Eq)]
pub enum Unread {
    /// A read failed.
    Failed,
    /// The input has more bytes than the limit, or takes more reads.
    Beyond,
    /// Out of memory.
    NoMemory,
}

impl From<AllocError> for Unread {
    ghost from_gives = { λ _ why. why ≡ unread.NoMemory };

    fn from(_refused: AllocError) -> Unread {
        Unread::NoMemory
    }
}

impl<T: Drop> From<AllocFailed<T>> for Unread {
    ghost from_gives = { λ _ why. why ≡ unread.NoMemory };

    fn from(_refused: AllocFailed<T>) -> Unread {
        Unread::NoMemory
    }
}

/// Returns the limits of the program's inputs.
pub fn input_limits() -> InputLimits
    ensures { result ≡ input_limits }
{
    InputLimits {
        bytes: INPUT_LIMIT,
        reads: READ_LIMIT,
    }
}

/// Reads the input from its current position to its end.
///
/// # Errors
/// `Failed` if a read fails for any reason. `Beyond` if there are more bytes than the limit, or if none of the allowed reads
/// finds the end. `NoMemory`.
///
/// # Example
///
/// At most 1,000 bytes, in at most 10 reads:
///
/// ```rust
/// fn short_input<I: Read>(alloc: Global, input: &mut I) -> Option<Vec<u8>> {
///     let limits = InputLimits {
///         bytes: 1_000,
///         reads: 10,
///     };
///     read_input(alloc, input, limits).ok()
/// }
/// ```
pub fn read_input<I: Read>(
    alloc: Global,
    input: &mut I,
    limits: InputLimits,
) -> Result<Vec<u8>, Unread>
    ensures whole { IfOk result (λ bytes. IfSome (I.remaining input.old) (λ known. bytes.items ≡ known)) }
    ensures within { IfOk result (λ bytes. vec_len bytes ≤ limits.bytes) }
    ensures beyond { result ≡ Err unread.Beyond → IfSome (I.remaining input.old) (IsBeyond limits) }
{
    let mut buffer = vec![in alloc; 0u8; READ_SIZE]?;
    read_by(alloc, input, limits, &mut buffer)
}

/// Like [`read_input`], with this buffer, which must not be empty.
fn read_by<I: Read>(
    alloc: Global,
    input: &mut I,
    limits: InputLimits,
    buffer: &mut [u8],
) -> Result<Vec<u8>, Unread>
    requires { 0 < length buffer.old }
    ensures whole { IfOk result (λ bytes. IfSome (I.remaining input.old) (λ known. bytes.items ≡ known)) }
    ensures within { IfOk result (λ bytes. vec_len bytes ≤ limits.bytes) }
    ensures beyond { result ≡ Err unread.Beyond → IfSome (I.remaining input.old) (IsBeyond limits) }
{
    let mut bytes = Vec::new(alloc);
    for _turn in 0..limits.reads {
        let Ok(count) = input.read(buffer) else {
            return Err(Unread::Failed);
        };
        if count == 0 {
            return Ok(bytes);
        }
        if count > limits.bytes - bytes.len() {
            return Err(Unread::Beyond);
        }
        bytes.extend_from_slice(&buffer[..count])?;
    }
    Err(Unread::Beyond)
}
