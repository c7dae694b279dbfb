//! All lists of a given number of objects.
ghost use Rattle.std.specs.Prelude.{◌≡◌, ◌++◌, ◌∷◌, [], IfOk};
ghost use Rattle.px_prover.specs.Tuples.{longer_by, all_longer_by, tuples_of};

use px_base::{NoMemory, Sequence, push};
use std::alloc::Global;

/// Returns the list with one more object at its end.
fn longer(tuple: &Sequence<u32>, object: u32) -> Result<Sequence<u32>, NoMemory>
    ensures { IfOk result (λ more. more ≡ tuple.now ++ object ∷ []) }
{
    let mut items = tuple.try_copy()?.into_vec();
    push(&mut items, object)?;
    Ok(Sequence::from_vec(items))
}

/// Appends the list with each object at its end.
fn push_longer(
    made: &mut Vec<Sequence<u32>>,
    tuple: &Sequence<u32>,
    objects: u32,
) -> Result<(), NoMemory>
    ensures { IfOk result (λ _. made.new.items ≡ made.old.items ++ longer_by tuple.now objects) }
{
    for object in 0..objects {
        let more = longer(tuple, object)?;
        push(made, more)?;
    }
    Ok(())
}

/// Returns each of the lists with each object at its end.
fn all_longer(
    alloc: Global,
    tuples: &[Sequence<u32>],
    objects: u32,
) -> Result<Vec<Sequence<u32>>, NoMemory>
    ensures { IfOk result (λ made. made.items ≡ all_longer_by objects tuples.now) }
{
    let mut made = Vec::new(alloc);
    for tuple in tuples {
        push_longer(&mut made, tuple, objects)?;
    }
    Ok(made)
}

/// Returns all lists of `count` objects.
pub(crate) fn tuples(
    alloc: Global,
    objects: u32,
    count: usize,
) -> Result<Vec<Sequence<u32>>, NoMemory>
    ensures { IfOk result (λ made. made.items ≡ tuples_of objects count) }
{
    let mut made = Vec::new(alloc);
    push(&mut made, Sequence::from_vec(Vec::new(alloc)))?;
    for _place in 0..count {
        made = all_longer(alloc, &made, objects)?;
    }
    Ok(made)
}
