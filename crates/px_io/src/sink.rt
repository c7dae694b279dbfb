//! Where bytes go.
ghost use Rattle.std.specs.Prelude.{◌≡◌, ◌<◌, List, Option, ℕ, length, IfOk, OnErr};
ghost use Rattle.std.specs.Io.{WritesAtMost};
ghost use Rattle.std.specs.Io.KnownBytes.{WriteAppends};
ghost use Rattle.px_io.specs.Causes.{HasCause};
ghost use Rattle.px_io.specs.Writing.{FillsItsRoom};

use crate::Failed;

/// A sink of bytes that counts the writes that failed.
pub trait Sink {
    /// The bytes that were written, where the sink shows them.
    ghost written: { Self → Option (List ℕ) };

    /// How often a write failed, up to the last value of 64 bits.
    ghost faults: { Self → ℕ };

    /// How many bytes the sink is sure to take, where it is sure of any: a write then fails only where that many are held.
    ghost sure: { Self → Option ℕ };

    /// Writes a prefix of `bytes`, and returns its length, which is 0 only for no bytes.
    ///
    /// # Errors
    /// `Failed` only where the count of faults rose. Nothing is appended then.
    fn write(&mut self, bytes: &[u8]) -> Result<usize, Failed>
        ensures within { WritesAtMost result bytes.now }
        ensures bytes { WriteAppends (written self.old) (written self.new) result bytes.now }
        ensures progress { IfOk result (λ count. 0 < length bytes.now → 0 < count) }
        ensures cause { HasCause (faults self.old) (faults self.new) result }
        ensures full { OnErr result (FillsItsRoom (sure self.old) (written self.old)) }
        ensures nature { sure self.new ≡ sure self.old };
}
