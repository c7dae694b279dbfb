//! Lists of numbers by number.
ghost use Rattle.std.specs.Prelude.{◌≡◌, ◌<◌, [], Some, length, slice_get, IfOk, OnErr};
ghost use Rattle.px_ops.specs.Keeping.{Keeps};

use indexmap::IndexSet;
use px_base::{NoMemory, Sequence};
use px_ops::keep;
use std::alloc::Global;
use std::marker::Model;

/// Lists of numbers, each kept once and numbered: of a model, those of its atoms, in their order.
#[derive(Drop)]
pub struct NumberLists {
    lists: IndexSet<Sequence<u32>>,
}

impl Model for NumberLists {
    ghost use Rattle.std.specs.Prelude.{◌≤◌, ℕ, List, length};
    ghost use Rattle.px_base.specs.Bounds.{u32_max};

    ghost Value = { List (List ℕ) };

    ghost view = { λ s. s.lists.keys };

    ghost invariant = { λ s. length s.lists.keys ≤ u32_max };
}

impl NumberLists {
    /// Returns an index without lists.
    pub fn new(alloc: Global) -> NumberLists
        ensures { result ≡ [] }
    {
        NumberLists {
            lists: IndexSet::new(alloc),
        }
    }

    /// Returns the number of the list. A new one is put last, and nothing else changes.
    ///
    /// # Errors
    /// `NoMemory` where there is no memory for the list. The lists are then as they were.
    pub fn intern(&mut self, list: Sequence<u32>) -> Result<u32, NoMemory>
        ensures kept { IfOk result (Keeps self.old self.new list) }
        ensures err { OnErr result (self.new ≡ self.old) }
    {
        keep(&mut self.lists, list)
    }

    /// Returns the list of the number. Does not allocate.
    pub fn list(&self, number: u32) -> &[u32]
        requires { number < length self.now }
        ensures { slice_get self.now number ≡ Some result.now }
    {
        match self.lists.get_index(number as usize) {
            Some(list) => list.as_slice(),
            None => unreachable!(),
        }
    }
}
