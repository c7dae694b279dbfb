//! Entries by number.
ghost use Rattle.std.specs.Prelude.{◌≡◌, ◌<◌, [], Some, length, slice_get, IfOk, OnErr};
ghost use Rattle.px_ops.specs.Keeping.{Keeps};

use indexmap::IndexSet;
use px_base::NoMemory;
use px_ops::keep;
use px_table::Entry;
use std::alloc::Global;
use std::marker::Model;

/// Entries of stacks, each kept once and numbered.
#[derive(Drop)]
pub struct EntryIndex {
    entries: IndexSet<Entry>,
}

impl Model for EntryIndex {
    ghost use Rattle.std.specs.Prelude.{◌≤◌, List, length};
    ghost use Rattle.px_base.specs.Bounds.{u32_max};
    ghost use Rattle.px_table.specs.declared.entry.Entry.{Entry};

    ghost Value = { List Entry };

    ghost view = { λ s. s.entries.keys };

    ghost invariant = { λ s. length s.entries.keys ≤ u32_max };
}

impl EntryIndex {
    /// Returns an index without entries.
    pub fn new(alloc: Global) -> EntryIndex
        ensures { result ≡ [] }
    {
        EntryIndex {
            entries: IndexSet::new(alloc),
        }
    }

    /// Returns the number of the entry. A new one is put last, and nothing else changes.
    ///
    /// # Errors
    /// `NoMemory` where there is no memory for the entry. The index is then as it was.
    pub fn intern(&mut self, entry: Entry) -> Result<u32, NoMemory>
        ensures kept { IfOk result (Keeps self.old self.new entry) }
        ensures err { OnErr result (self.new ≡ self.old) }
    {
        keep(&mut self.entries, entry)
    }

    /// Returns the entry of the number. Does not allocate.
    pub fn entry(&self, number: u32) -> &Entry
        requires { number < length self.now }
        ensures { slice_get self.now number ≡ Some result.now }
    {
        match self.entries.get_index(number as usize) {
            Some(entry) => entry,
            None => unreachable!(),
        }
    }
}
