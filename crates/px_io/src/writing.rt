//! Writing a text whole.
ghost use Rattle.std.specs.Prelude.{◌≡◌, OnOk, OnErr};
ghost use Rattle.std.specs.Io.KnownBytes.{Appends};
ghost use Rattle.px_io.specs.Causes.{HasCause};
ghost use Rattle.px_io.specs.Writing.{AppendsProperPrefix, HasNoRoomFor};

use crate::{Fault, Sink};

/// Writes all of the bytes. Does not allocate.
///
/// # Errors
/// `Fault` where a write failed; only where the sink's count of faults rose. A part of the bytes from their start was written then, and
/// not all of them: so there is no fault where there are no bytes.
pub fn put<K: Sink>(sink: &mut K, bytes: &[u8]) -> Result<(), Fault>
    ensures whole { OnOk result (Appends (K.written sink.old) (K.written sink.new) bytes.now) }
    ensures part { OnErr result (AppendsProperPrefix (K.written sink.old) (K.written sink.new) bytes.now) }
    ensures cause { HasCause (K.faults sink.old) (K.faults sink.new) result }
    ensures room { OnErr result (HasNoRoomFor (K.sure sink.old) (K.written sink.old) bytes.now) }
    ensures nature { K.sure sink.new ≡ K.sure sink.old }
{
    let mut rest = bytes;
    while !rest.is_empty() {
        match sink.write(rest) {
            Ok(count) => rest = &rest[count..],
            Err(_) => return Err(Fault),
        }
    }
    Ok(())
}
