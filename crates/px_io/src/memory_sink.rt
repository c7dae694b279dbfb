//! A sink in memory, whose listed calls fail.
ghost use Rattle.std.specs.Prelude.{◌≡◌, ◌≤◌, ◌<◌, ◌+◌, ◌-◌, ◌^◌, ◌++◌, ◌↔◌, ◌⊎◌, [], ℕ, length, take, min, Contains, IsErr, IsTrue, IfOk, OnErr, Some};
ghost use Rattle.std.specs.Io.{WritesAtMost};
ghost use Rattle.std.specs.Io.KnownBytes.{WriteAppends};
ghost use Rattle.px_base.specs.Bounds.{u32_max};
ghost use Rattle.px_base.specs.Counting.{next_count};
ghost use Rattle.px_io.specs.Causes.{HasCause};
ghost use Rattle.px_io.specs.Writing.{FillsItsRoom};
ghost use Rattle.px_io.specs.Memory.{next_call, sure_room, WriteFails};

use crate::{Failed, NoMemory, Sink};
use std::alloc::Global;
use std::marker::Model;

// Alike: `MemSource` keeps the calls that fail in the same way, but here a full sink fails, too.

/// A sink in memory, with room for a number of bytes.
#[derive(Drop)]
pub struct MemSink {
    bytes: Vec<u8>,
    room: usize,
    failing: Vec<u32>,
    call: u32,
    faults: u64,
}

impl Model for MemSink {
    ghost use Rattle.std.specs.Prelude.{◌≤◌, vec_len, vec_capacity};
    ghost use Rattle.px_io.specs.Memory.{SinkValue};

    ghost Value = { SinkValue };

    ghost view = { λ s. record { written = s.bytes.items; room = s.room; failing = s.failing.items; call = s.call; faults = s.faults } };

    ghost invariant = { λ s. (vec_len s.bytes ≤ s.room) × (s.room ≤ vec_capacity s.bytes) };
}

impl MemSink {
    /// Returns an empty sink with room for `room` bytes. A write fails if its number, counted from 0, stands in `failing`; the counting
    /// stops at the last number of 32 bits, which can't be listed.
    ///
    /// # Errors
    /// `NoMemory` where there is no memory for the room.
    pub fn new(alloc: Global, room: usize, failing: Vec<u32>) -> Result<MemSink, NoMemory>
        requires { ¬ Contains failing.items u32_max }
        ensures { IfOk result (λ sink. sink ≡ record { written = []; room = room; failing = failing.items; call = 0; faults = 0 }) }
    {
        Ok(MemSink {
            bytes: Vec::with_capacity(alloc, room)?,
            room,
            failing,
            call: 0,
            faults: 0,
        })
    }

    // Returns whether the next write of `len` bytes fails.
    fn fails(&self, len: usize) -> bool
        ensures { IsTrue result ↔ WriteFails self.now len }
    {
        self.failing.contains(&self.call) || (self.room <= self.bytes.len() && len > 0)
    }

    /// Returns what was written. Does not allocate.
    pub fn bytes(&self) -> &[u8]
        ensures written { result.now ≡ self.now.written }
        ensures room { length self.now.written ≤ self.now.room }
    {
        &self.bytes
    }
}

impl Sink for MemSink {
    ghost written = { λ s. Some s.written };

    ghost faults = { λ s. s.faults };

    ghost sure = { sure_room };

    fn write(&mut self, bytes: &[u8]) -> Result<usize, Failed>
        ensures within { WritesAtMost result bytes.now }
        ensures bytes { WriteAppends (Some self.old.written) (Some self.new.written) result bytes.now }
        ensures progress { IfOk result (λ count. 0 < length bytes.now → 0 < count) }
        ensures cause { HasCause self.old.faults self.new.faults result }
        ensures full { OnErr result (FillsItsRoom (sure_room self.old) (Some self.old.written)) }
        ensures nature { sure_room self.new ≡ sure_room self.old }
        ensures listed { IsErr result ↔ WriteFails self.old (length bytes.now) }
        ensures amount { IfOk result (λ count. count ≡ min (length bytes.now) (self.old.room - length self.old.written)) }
        ensures ok { IfOk result (λ count. self.new ≡ record self.old
            { written = self.old.written ++ take count bytes.now; call = next_call self.old.call }) }
        ensures err { OnErr result (self.new ≡ record self.old { call = next_call self.old.call; faults = next_count self.old.faults }) }
    {
        let fails = self.fails(bytes.len());
        self.call = self.call.saturating_add(1);
        if fails {
            self.faults = self.faults.saturating_add(1);
            return Err(Failed);
        }
        let count = bytes.len().min(self.room - self.bytes.len());
        match self.bytes.extend_from_slice(&bytes[..count]) {
            Ok(()) => Ok(count),
            Err(_) => unreachable!(),
        }
    }
}
