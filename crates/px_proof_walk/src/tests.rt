//! A walk over one list, which ends in each way and is gathered from.
ghost use Rattle.std.specs.Prelude.{◌≡◌, [], length, true};
ghost use Rattle.px_proof_walk.specs.OneList.{IsStart, start-shorter};

use crate::{End, Gather, Visit, Walk, advance, walk_to_end, walk_to_finished};
use px_base::NoMemory;
use px_proof::Tick;
use std::rt::HostRuntime;

/// A walk that stands at the empty list, and goes nowhere else. The question says whether a place is open there.
#[derive(Drop)]
struct OneList;

impl Walk<bool> for OneList {
    ghost ticks = { λ _. [] };

    ghost stands = { λ _ _. Unit {0} };

    ghost possible = { λ _. IsStart };

    ghost shorter = { λ _. start-shorter };

    ghost finished = { λ finished _. finished ≡ true };

    ghost places = { λ _ _. 1 };

    ghost most = { λ _. 1000 };

    fn try_after(&mut self, _question: &bool, _last: Option<Tick>) -> Result<bool, NoMemory> {
        Ok(false)
    }

    fn retract(&mut self, _question: &bool) -> Option<Tick> {
        None
    }

    fn is_finished(&self, question: &bool) -> bool {
        *question
    }

    fn visit(&self, _question: &bool) -> Visit {
        Visit {
            kept: 0,
            last: None,
            places: 1,
        }
    }
}

/// How often it was called.
#[derive(Drop)]
struct Count {
    calls: u32,
}

impl Gather<bool, OneList> for Count {
    ghost gathered = { λ _ count seen. count.calls ≡ length seen };

    fn gather(&mut self, _question: &bool, _walk: &mut OneList) -> Result<(), NoMemory> {
        match self.calls.checked_add(1) {
            Some(calls) => {
                self.calls = calls;
                Ok(())
            }
            None => Err(NoMemory),
        }
    }
}

/// The one list is the first finished proof, or there is no finished proof, or it is one too many.
#[test]
fn a_walk_ends_in_three_ways(rt: HostRuntime) -> Result<(), NoMemory> {
    let alloc = rt.alloc();
    let mut walk = OneList;
    assert!(&rt; !advance(&false, &mut walk)?);
    assert!(&rt; matches!(walk_to_finished(alloc, &true, &mut walk, 1)?, End::Found));
    assert!(&rt; matches!(walk_to_finished(alloc, &false, &mut walk, 2)?, End::NoMore));
    match walk_to_finished(alloc, &false, &mut walk, 1)? {
        End::Limit(shapes) => assert!(&rt;
            shapes.len() == 1 && shapes[0].ticks() == [Tick::Open].as_slice()
        ),
        _ => assert!(&rt; false),
    }
    Ok(())
}

/// Something is gathered at the one list, unless it is one too many.
#[test]
fn a_walk_to_the_end_gathers(rt: HostRuntime) -> Result<(), NoMemory> {
    let alloc = rt.alloc();
    let mut walk = OneList;
    let mut count = Count { calls: 0 };
    assert!(&rt; walk_to_end(alloc, &false, &mut walk, &mut count, 2)?.is_none());
    assert!(&rt; count.calls == 1);
    let mut none = Count { calls: 0 };
    assert!(&rt; walk_to_end(alloc, &false, &mut walk, &mut none, 1)?.is_some());
    assert!(&rt; none.calls == 0);
    Ok(())
}
