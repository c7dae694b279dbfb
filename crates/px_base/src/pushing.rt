//! Adding an item to a `Vec`.
ghost use Rattle.std.specs.Prelude.{◌≡◌, ◌<◌, ◌≤◌, ◌++◌, ◌∷◌, [], OnOk, OnErr, vec_len, vec_capacity};

use crate::no_memory::NoMemory;

/// Puts the item at the end of the list.
///
/// # Errors
/// `NoMemory` where the list has no room for the item and there is no memory for more. The list is then as it was, and the
/// item is dropped.
pub fn push<T: Drop>(items: &mut Vec<T>, item: T) -> Result<(), NoMemory>
    ensures ok { OnOk result (items.new.items ≡ items.old.items ++ item ∷ []) }
    ensures err { OnErr result (items.new.items ≡ items.old.items) }
{
    match items.push(item) {
        Ok(()) => Ok(()),
        Err(_refused) => Err(NoMemory),
    }
}

/// Puts the item at the end of the list, which has room for it. Does not allocate.
pub fn push_within<T: Drop>(items: &mut Vec<T>, item: T)
    requires room { vec_len items.old < vec_capacity items.old }
    ensures put { items.new.items ≡ items.old.items ++ item ∷ [] }
    ensures capacity { vec_capacity items.old ≤ vec_capacity items.new }
{
    match items.push(item) {
        Ok(()) => {}
        Err(_) => unreachable!(),
    }
}
