//! Stacks by number.
ghost use Rattle.std.specs.Prelude.{◌≡◌, ◌<◌, ◌≤◌, [], Some, length, slice_get, IfOk, OnErr};
ghost use Rattle.px_base.specs.Bounds.{u32_max};
ghost use Rattle.px_ops.specs.Keeping.{Keeps};

use indexmap::IndexSet;
use px_base::NoMemory;
use px_ops::keep;
use std::alloc::Global;
use std::marker::Model;

/// A stack that isn't empty: the number of its top entry, and that of the stack below.
#[derive(Clone, Copy, PartialEq, Eq, Hash)]
pub struct Frame {
    /// The number of the top entry.
    pub entry: u32,
    /// The number of the stack below.
    pub below: u32,
}

/// Stacks, each kept once and numbered. The empty one has number 0, and the others the number after their place.
#[derive(Drop)]
pub struct StackIndex {
    frames: IndexSet<Frame>,
}

impl Model for StackIndex {
    ghost use Rattle.std.specs.Prelude.{◌≤◌, List, length};
    ghost use Rattle.px_base.specs.Bounds.{u32_max};
    ghost use Rattle.px_numbers.specs.declared.stacks.Frame.{Frame};

    ghost Value = { List Frame };

    ghost view = { λ s. s.frames.keys };

    ghost invariant = { λ s. length s.frames.keys ≤ u32_max };
}

impl StackIndex {
    /// Returns the empty stack alone.
    pub fn new(alloc: Global) -> StackIndex
        ensures { result ≡ [] }
    {
        StackIndex {
            frames: IndexSet::new(alloc),
        }
    }

    /// Returns the place of the stack. A new one is put last, and nothing else changes.
    ///
    /// # Errors
    /// `NoMemory` where there is no memory for the stack. The index is then as it was.
    pub fn intern(&mut self, frame: Frame) -> Result<u32, NoMemory>
        ensures kept { IfOk result (Keeps self.old self.new frame) }
        ensures few { length self.new ≤ u32_max }
        ensures err { OnErr result (self.new ≡ self.old) }
    {
        keep(&mut self.frames, frame)
    }

    /// Returns the stack at the place. Does not allocate.
    pub fn frame(&self, place: u32) -> Frame
        requires { place < length self.now }
        ensures { slice_get self.now place ≡ Some result }
    {
        match self.frames.get_index(place as usize) {
            Some(frame) => *frame,
            None => unreachable!(),
        }
    }
}
