//! Keeping a thing once, with a number.
ghost use Rattle.std.specs.Prelude.{◌≡◌, ◌<◌, ◌≤◌, true, Some, length, slice_get, IsOk, OnOk, OnErr, IfOk};
ghost use Rattle.std.specs.List.{list_any};
ghost use Rattle.px_base.specs.Bounds.{u32_max};
ghost use Rattle.indexmap.specs.IndexSet.{insert_key};

use indexmap::IndexSet;
use px_terms::NoMemory;
use std::hash::Hash;

/// How many things of a kind may be kept, since each has a number of 32 bits.
const MOST_KEPT: usize = u32::MAX as usize;

/// Returns the number of the item: its place, where the set has it, and else the last place, where it is put.
///
/// # Errors
/// `NoMemory` where the set does not have the item and there is no memory or no number for it. The set is then as it was.
pub fn keep<T: Eq + Hash + Drop>(set: &mut IndexSet<T>, item: T) -> Result<u32, NoMemory>
    requires few { length set.old.keys ≤ u32_max }
    ensures keys { OnOk result (set.new.keys ≡ insert_key T.eq set.old.keys item) }
    ensures stored { IfOk result (λ number. (k : T) × (slice_get set.new.keys number ≡ Some k) × (T.eq item k ≡ true)) }
    ensures few { length set.new.keys ≤ u32_max }
    ensures there { list_any (T.eq item) set.old.keys ≡ true → IsOk result }
    ensures err { OnErr result (set.new.keys ≡ set.old.keys) }
{
    let is_full = set.len() == MOST_KEPT;
    if is_full && !set.contains(&item) {
        return Err(NoMemory);
    }
    let (number, _) = set.insert_full(item)?;
    Ok(number as u32)
}
