//! What is kept of the lists that a walk visits, and the shapes that it gives back.
ghost use Rattle.std.specs.Prelude.{◌≡◌, ℕ, List, map, IfOk};
ghost use Rattle.px_proof.specs.declared.shape.Tick.{Tick as TickValue};
ghost use Rattle.px_proof_walk.specs.Possible.{shape_with};
ghost use Rattle.px_proof_walk.specs.Trail.{AreVisits, moved_to};

use px_base::{NoMemory, push};
use px_proof::{Shape, Tick};
use std::alloc::Global;

/// A list of ticks that is visited, as it differs from the one before, with which it has all ticks but its last one in common.
#[derive(Clone, Copy)]
pub struct Visit {
    /// How many ticks come before the last one.
    pub kept: usize,
    /// The last tick, unless the list is empty.
    pub last: Option<Tick>,
    /// How many places are open.
    pub places: usize,
}

/// Turns the list that was visited before into the one that is visited.
fn move_to(ticks: &mut Vec<Tick>, visit: &Visit) -> Result<(), NoMemory>
    ensures { IfOk result (λ _. ticks.new.items ≡ moved_to ticks.old.items visit.now) }
{
    ticks.truncate(visit.kept);
    match visit.last {
        Some(tick) => push(ticks, tick),
        None => Ok(()),
    }
}

/// Returns the shape of the ticks and that many open places.
fn shape_of(alloc: Global, ticks: &[Tick], places: usize) -> Result<Shape, NoMemory>
    ensures { IfOk result (λ shape. shape ≡ shape_with ticks.now places) }
{
    let mut all = Vec::with_capacity(alloc, ticks.len().saturating_add(places))?;
    all.extend_from_slice(ticks)?;
    for _ in 0..places {
        push(&mut all, Tick::Open)?;
    }
    Ok(Shape::from_ticks(all))
}

/// Returns the shapes of the lists that were visited, from the empty list on.
pub(crate) fn shapes_of(alloc: Global, trail: &[Visit]) -> Result<Vec<Shape>, NoMemory>
    ensures { IfOk result (λ shapes. (places : List TickValue → ℕ) (seen : List (List TickValue)) → AreVisits places seen trail.now
        → shapes.items ≡ map (λ ticks. shape_with ticks (places ticks)) seen) }
{
    let mut ticks = Vec::new(alloc);
    let mut shapes = Vec::with_capacity(alloc, trail.len())?;
    for visit in trail {
        move_to(&mut ticks, visit)?;
        let shape = shape_of(alloc, &ticks, visit.places)?;
        push(&mut shapes, shape)?;
    }
    Ok(shapes)
}
