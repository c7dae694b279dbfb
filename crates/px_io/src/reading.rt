//! Reading to the end.
ghost use Rattle.std.specs.Prelude.{◌≡◌, ◌≤◌, ◌<◌, ◌+◌, false, IfOk, IsErrOf, length, List, ℕ};
ghost use Rattle.std.specs.Io.KnownBytes.{Consumes};
ghost use Rattle.px_io.specs.Causes.{Rose};
ghost use Rattle.px_io.specs.Reading.{ReadToEnd};
ghost use Rattle.px_io.specs.declared.reading.ReadErr.TheVariants.{NoMemory};

use crate::Source;
use std::alloc::{AllocError, Global};
use thiserror::Error;

/// Why a source wasn't read to its end.
#[derive(Clone, Copy, Debug, PartialEq, Eq, Error)]
pub enum ReadErr {
    /// A read failed before more bytes than the limit came.
    #[error("the source failed")]
    Fault,
    /// More bytes than the limit came, and no read failed before.
    #[error("too many bytes came")]
    TooLong,
    /// There was no memory for the bytes.
    #[error("out of memory")]
    NoMemory,
}

impl From<AllocError> for ReadErr {
    ghost from_gives = { λ _ error. error ≡ NoMemory };

    fn from(_: AllocError) -> Self {
        ReadErr::NoMemory
    }
}

// How many bytes are asked for at once.
pub const PIECE: usize = 4096;

/// Returns all bytes up to the end of the source, where there are at most `limit` of them.
/// Whatever the answer, the bytes that were read are gone from the source.
///
/// # Errors
/// - `Fault` where a read failed before more than `limit` bytes came; only where the source's count of faults rose.
/// - `TooLong` where more than `limit` bytes came and no read failed before.
/// - `NoMemory` where there is no memory for the bytes; only where no read failed and at most `limit` bytes came.
pub fn read_all<S: Source>(alloc: Global, source: &mut S, limit: usize) -> Result<Vec<u8>, ReadErr>
    ensures all { IfOk result (λ bytes. ReadToEnd limit bytes.items (S.left source.old) (S.left source.new)
        (S.taken source.old) (S.taken source.new) (S.faults source.old) (S.faults source.new)) }
    ensures fault { IsErrOf result ReadErr.Fault → Rose (S.faults source.old) (S.faults source.new) }
    ensures fault_first { IsErrOf result ReadErr.Fault → S.taken source.new ≤ S.taken source.old + limit }
    ensures fault_possible { IsErrOf result ReadErr.Fault → S.never_fails source.old ≡ false }
    ensures no_memory { IsErrOf result ReadErr.NoMemory → S.faults source.new ≡ S.faults source.old }
    ensures no_memory_short { IsErrOf result ReadErr.NoMemory → S.taken source.new ≤ S.taken source.old + limit }
    ensures too_long { IsErrOf result ReadErr.TooLong → S.taken source.old + limit < S.taken source.new }
    ensures too_long_first { IsErrOf result ReadErr.TooLong → S.faults source.new ≡ S.faults source.old }
    ensures gone { (came : List ℕ) × Consumes (S.left source.old) (S.left source.new) came
        × (S.taken source.new ≡ S.taken source.old + length came) }
    ensures later { S.faults source.old ≤ S.faults source.new }
    ensures nature { S.never_fails source.new ≡ S.never_fails source.old }
{
    let mut bytes = Vec::new(alloc);
    let mut piece = [0; PIECE];
    loop {
        let Ok(count) = source.read(&mut piece) else {
            return Err(ReadErr::Fault);
        };
        if count == 0 {
            return Ok(bytes);
        }
        if limit - bytes.len() < count {
            return Err(ReadErr::TooLong);
        }
        bytes.extend_from_slice(&piece[..count])?;
    }
}
