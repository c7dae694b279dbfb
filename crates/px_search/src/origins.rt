//! The moves that lead to a node.
ghost use Rattle.std.specs.Prelude.{◌≡◌, ◌<◌, ◌≤◌, List, length, slice_get, Some, IfOk};
ghost use Rattle.px_table.specs.declared.entry.Move.{Move};
ghost use Rattle.px_search.specs.Steps.{AreEarlier, DescribesMove, Trace};

use crate::step::{Origin, Step};
use px_numbers::Numbers;
use px_table::Move;
use px_terms::NoMemory;
use std::alloc::Global;

/// Returns the move of the step.
fn move_of(numbers: &Numbers, step: &Step) -> Result<Move, NoMemory>
    requires { (m : Move) × DescribesMove numbers.now step.now m }
    ensures { IfOk result (λ made. (m : Move) → DescribesMove numbers.now step.now m → made ≡ m) }
{
    match step {
        Step::Apply => Ok(Move::Apply),
        Step::Push(entry) => Ok(Move::Push(numbers.entry(*entry).try_copy()?)),
    }
}

/// Returns the origin at the place.
pub fn origin_at(origins: &[Origin], place: usize) -> Origin
    requires { place < length origins.now }
    ensures { slice_get origins.now place ≡ Some result }
{
    origins[place]
}

/// Returns the moves to the node at the place, where `origins` has the origins of all nodes but the first.
pub fn moves_to(
    alloc: Global,
    numbers: &Numbers,
    origins: &[Origin],
    place: usize,
) -> Result<Vec<Move>, NoMemory>
    requires place { place ≤ length origins.now }
    requires earlier { AreEarlier origins.now }
    requires traced { (found : List (List Move)) × Trace numbers.now origins.now found }
    ensures trace { IfOk result (λ moves. (found : List (List Move)) → Trace numbers.now origins.now found
        → slice_get found place ≡ Some moves.items) }
    ensures few { IfOk result (λ moves. length moves.items ≤ place) }
{
    let mut moves = Vec::new(alloc);
    let mut here = place;
    while here > 0 {
        let origin = origin_at(origins, here - 1);
        let last = move_of(numbers, &origin.last)?;
        moves.push(last)?;
        here = origin.parent;
    }
    moves.reverse();
    Ok(moves)
}
