//! Lists that contracts can name.
ghost use Rattle.std.specs.Prelude.{◌≡◌, length, IfOk};

use crate::no_memory::NoMemory;
use std::alloc::Global;
use std::marker::Model;

/// A `Vec` that contracts see as the list of its items.
#[derive(Drop)]
pub struct Sequence<T> {
    items: Vec<T>,
}

impl<T> Model for Sequence<T> {
    ghost use Rattle.std.specs.Prelude.{List};
    ghost use Rattle.std.specs.Coded.{coded_list};

    ghost Value = { List T };

    ghost coded = { coded_list T.code };

    ghost view = { λ s. s.items.items };
}

impl<T> Sequence<T> {
    /// Returns the sequence of the items of `items`. Does not allocate.
    pub fn from_vec(items: Vec<T>) -> Sequence<T>
        ensures { result ≡ items.items }
    {
        Sequence { items }
    }

    /// Returns the items. Does not allocate.
    pub fn into_vec(self) -> Vec<T>
        ensures { result.items ≡ self }
    {
        let Sequence { items } = self;
        items
    }

    /// Returns the items, borrowed.
    pub fn as_slice(&self) -> &[T]
        ensures { result.now ≡ self.now }
    {
        &self.items
    }

    /// Returns the allocator of the items.
    pub fn allocator(&self) -> &Global {
        self.items.allocator()
    }

    /// Returns the number of items.
    pub fn len(&self) -> usize
        ensures { result ≡ length self.now }
    {
        self.items.len()
    }
}

impl<T: Copy> Sequence<T> {
    /// Returns a sequence of copies of the items.
    ///
    /// # Errors
    /// `NoMemory` where there is no memory for the copies.
    pub fn from_slice(alloc: Global, items: &[T]) -> Result<Sequence<T>, NoMemory>
        ensures { IfOk result (λ copy. copy ≡ items.now) }
    {
        let mut copies = Vec::new(alloc);
        copies.extend_from_slice(items)?;
        Ok(Sequence { items: copies })
    }

    /// Returns a sequence of the same items, in memory of the same allocator.
    ///
    /// # Errors
    /// `NoMemory` where there is no memory for the copy.
    pub fn try_copy(&self) -> Result<Sequence<T>, NoMemory>
        ensures { IfOk result (λ copy. copy ≡ self.now) }
    {
        Sequence::from_slice(*self.items.allocator(), &self.items)
    }
}
