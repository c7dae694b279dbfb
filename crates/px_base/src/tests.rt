//! Each public call once, with memory.
use crate::{NoMemory, Sequence, push};
use std::collections::HashSet;
use std::rt::HostRuntime;

#[test]
fn a_sequence_is_made_lent_copied_and_given_back(rt: HostRuntime) -> Result<(), NoMemory> {
    let mut items = Vec::new(rt.alloc());
    items.extend_from_slice(&[1u32, 2, 3])?;
    push(&mut items, 4)?;
    let numbers = Sequence::from_vec(items);
    let copy = numbers.try_copy()?;
    assert!(&rt; copy.as_slice() == [1, 2, 3, 4].as_slice());
    assert!(&rt; Sequence::from_slice(rt.alloc(), &[1u32, 2, 3, 4])? == numbers);
    assert!(&rt; numbers.len() == 4);
    assert!(&rt; numbers.into_vec().len() == 4);
    Ok(())
}

#[test]
fn sequences_are_compared_as_lists(rt: HostRuntime) -> Result<(), NoMemory> {
    let few = Sequence::from_vec(Vec::from_array(rt.alloc(), [1u32, 2])?);
    let more = Sequence::from_vec(Vec::from_array(*few.allocator(), [1u32, 3])?);
    assert!(&rt; few == few.try_copy()?);
    assert!(&rt; few != more);
    assert!(&rt; few < more);
    assert!(&rt; more.cmp(&few).is_gt());
    let mut seen = HashSet::new(rt.alloc());
    seen.insert(few)?;
    assert!(&rt; !seen.contains(&more));
    Ok(())
}
