//! How many facts there are about the robot and the things of a building.
ghost use Rattle.std.specs.Prelude.{◌≡◌, ◌<◌, ◌≤◌, ◌*◌, ◌∷◌, ℕ, length};
ghost use Rattle.px_base.specs.Bounds.{u32_max};
ghost use Rattle.px_terms.specs.declared.term.Term.TheVariants.{Obj};
ghost use Rattle.px_rooms.specs.Domain.{in_room};
ghost use Rattle.px_rooms.specs.States.{atoms_from, beside_atoms, thing_atoms};

use crate::standing::Standing;

/// Returns the number of facts about where something is, in a room and perhaps beside something.
pub(crate) fn count_placed(beside: Option<u32>) -> usize
    ensures count { (number room : ℕ) → result ≡ length (in_room (Obj number) (Obj room) ∷ beside_atoms number beside) }
    ensures few { result ≤ 2 }
{
    match beside {
        None => 1,
        Some(_) => 2,
    }
}

/// Returns the number of facts about the thing.
fn count_thing(standing: &Standing) -> usize
    ensures count { (number : ℕ) → result ≡ length (thing_atoms number standing.now) }
    ensures few { result ≤ 4 }
{
    match *standing {
        Standing::Room => 1,
        Standing::Door { .. } => 4,
        Standing::Box { beside, .. } => 1 + count_placed(beside),
    }
}

/// Returns the number of facts about the things.
pub(crate) fn count_things(things: &[Standing]) -> usize
    requires few { length things.now < u32_max }
    ensures count { result ≡ length (atoms_from 1 things.now) }
    ensures few { result ≤ 4 * length things.now }
{
    let mut count = 0;
    for standing in things {
        count += count_thing(standing);
    }
    count
}
