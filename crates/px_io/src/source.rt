//! Where bytes come from.
ghost use Rattle.std.specs.Prelude.{◌≡◌, ◌+◌, List, Option, ℕ, Bool, false, OnErr};
ghost use Rattle.std.specs.Result.{result_unwrap_or};
ghost use Rattle.std.specs.Io.{ReadsAtMost};
ghost use Rattle.std.specs.Io.KnownBytes.{ReadConsumes};
ghost use Rattle.px_io.specs.Causes.{HasCause};

use crate::Failed;

/// A source of bytes that counts the bytes that were taken and the reads that failed.
pub trait Source {
    /// The bytes that are left, where the source shows them.
    ghost left: { Self → Option (List ℕ) };

    /// How many bytes were taken.
    ghost taken: { Self → ℕ };

    /// How often a read failed, up to the last value of 64 bits.
    ghost faults: { Self → ℕ };

    /// No read fails.
    ghost never_fails: { Self → Bool };

    /// Reads into the front of `into`, and returns how many bytes came.
    /// The answer 0 for a piece that isn't empty is the end of the input.
    ///
    /// # Errors
    /// `Failed` only where the count of faults rose. No byte is taken then, and the piece is as it was.
    fn read(&mut self, into: &mut [u8]) -> Result<usize, Failed>
        ensures within { ReadsAtMost result into.new }
        ensures bytes { ReadConsumes (left self.old) (left self.new) result into.new }
        ensures taken { taken self.new ≡ taken self.old + result_unwrap_or result 0 }
        ensures cause { HasCause (faults self.old) (faults self.new) result }
        ensures fails { OnErr result (never_fails self.old ≡ false) }
        ensures nature { never_fails self.new ≡ never_fails self.old }
        ensures piece { OnErr result (into.new ≡ into.old) };
}
