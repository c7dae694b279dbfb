//! A source in memory, whose listed calls fail.
ghost use Rattle.std.specs.Prelude.{◌≡◌, ◌≤◌, ◌+◌, ◌-◌, ◌^◌, ◌↔◌, ℕ, length, drop, take, min, Contains, IsErr, IfOk, OnErr, Some, false};
ghost use Rattle.std.specs.Result.{result_unwrap_or};
ghost use Rattle.std.specs.Io.{ReadsAtMost};
ghost use Rattle.std.specs.Io.KnownBytes.{ReadConsumes};
ghost use Rattle.px_base.specs.Bounds.{u32_max};
ghost use Rattle.px_base.specs.Counting.{next_count};
ghost use Rattle.px_io.specs.Causes.{HasCause};
ghost use Rattle.px_io.specs.Memory.{next_call, lists_none};

use crate::{Failed, Source};
use std::marker::Model;

/// A source in memory. It gives at most a certain number of bytes at a read.
#[derive(Drop)]
pub struct MemSource {
    bytes: Vec<u8>,
    at: usize,
    most: usize,
    failing: Vec<u32>,
    call: u32,
    faults: u64,
}

impl Model for MemSource {
    ghost use Rattle.std.specs.Prelude.{◌≤◌, drop, vec_len};
    ghost use Rattle.px_io.specs.Memory.{SourceValue};

    ghost Value = { SourceValue };

    ghost view = { λ s. record {
      left = drop s.at s.bytes.items;
      taken = s.at;
      most = s.most;
      failing = s.failing.items;
      call =
          s.call;
      faults = s.faults;
    } };

    ghost invariant = { λ s. (s.at ≤ vec_len s.bytes) × (1 ≤ s.most) };
}

impl MemSource {
    /// Returns a source of `bytes` that gives at most `most` of them at a read. A read fails if its number, counted from 0, stands in
    /// `failing`; the counting stops at the last number of 32 bits, which can't be listed. Does not allocate.
    pub fn new(bytes: Vec<u8>, most: usize, failing: Vec<u32>) -> MemSource
        requires most { 1 ≤ most }
        requires failing { ¬ Contains failing.items u32_max }
        ensures { result ≡ record { left = bytes.items; taken = 0; most = most; failing = failing.items; call = 0; faults = 0 } }
    {
        MemSource {
            bytes,
            at: 0,
            most,
            failing,
            call: 0,
            faults: 0,
        }
    }
}

impl Source for MemSource {
    ghost left = { λ s. Some s.left };

    ghost taken = { λ s. s.taken };

    ghost faults = { λ s. s.faults };

    ghost never_fails = { λ s. lists_none s.failing };

    fn read(&mut self, into: &mut [u8]) -> Result<usize, Failed>
        ensures within { ReadsAtMost result into.new }
        ensures bytes { ReadConsumes (Some self.old.left) (Some self.new.left) result into.new }
        ensures taken { self.new.taken ≡ self.old.taken + result_unwrap_or result 0 }
        ensures cause { HasCause self.old.faults self.new.faults result }
        ensures fails { OnErr result (lists_none self.old.failing ≡ false) }
        ensures nature { lists_none self.new.failing ≡ lists_none self.old.failing }
        ensures listed { IsErr result ↔ Contains self.old.failing self.old.call }
        ensures amount { IfOk result (λ count. count ≡ min (min (length self.old.left) (length into.old)) self.old.most) }
        ensures ok { IfOk result (λ count. self.new ≡ record self.old
            { left = drop count self.old.left; taken = self.old.taken + count; call = next_call self.old.call }) }
        ensures err { OnErr result (self.new ≡ record self.old { call = next_call self.old.call; faults = next_count self.old.faults }) }
        ensures piece { OnErr result (into.new ≡ into.old) }
    {
        let call = self.call;
        self.call = call.saturating_add(1);
        if self.failing.contains(&call) {
            self.faults = self.faults.saturating_add(1);
            return Err(Failed);
        }
        let count = copy_prefix(&self.bytes[self.at..], into, self.most);
        self.at += count;
        Ok(count)
    }
}

// Copies as much as fits, but at most `most` bytes, and returns how many.
fn copy_prefix(from: &[u8], into: &mut [u8], most: usize) -> usize
    ensures count { result ≡ min (min (length from.now) (length into.old)) most }
    ensures copied { take result into.new ≡ take result from.now }
{
    let count = from.len().min(into.len()).min(most);
    into[..count].copy_from_slice(&from[..count]);
    count
}
