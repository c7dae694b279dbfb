//! Adding the facts of a building to a model, predicate by predicate. Only atoms of the predicate are made.
ghost use Rattle.std.specs.Prelude.{◌≤◌, ◌<◌, ◌+◌, [], ◌∷◌, length};
ghost use Rattle.px_terms.specs.Limits.{most_arguments};
ghost use Rattle.px_base.specs.Bounds.{u32_max};
ghost use Rattle.px_terms.specs.declared.term.Term.TheVariants.{Obj};
ghost use Rattle.px_terms.specs.Instances.{IsGround};
ghost use Rattle.px_rooms.specs.declared.standing.Standing.TheVariants.{Door as a_door};
ghost use Rattle.px_rooms.specs.Added.{AreAdded, of_pred};
ghost use Rattle.px_rooms.specs.Domain.{in_room};
ghost use Rattle.px_rooms.specs.States.{atoms_from, beside_atoms, thing_atoms};

use crate::facts::{CLOSED, CONNECTS, IN_ROOM, IS_BOX, IS_DOOR, IS_ROOM, NEXT_TO, OPENED};
use crate::standing::Standing;
use px_ops::Model;
use px_terms::{Atom, Term};

/// Adds a ground atom to a model that has room for it, if its predicate is the wanted one.
fn add_one(kind: u32, args: &[Term], pred: u32, into: &mut Model)
    requires short { length args.now ≤ most_arguments }
    requires is_ground { IsGround (record { pred = kind; args = args.now }) }
    requires room { length (of_pred pred (record { pred = kind; args = args.now } ∷ [])) ≤ into.old.spare }
    ensures atoms { AreAdded (of_pred pred (record { pred = kind; args = args.now } ∷ [])) into.old.atoms into.new.atoms }
    ensures spare { into.old.spare ≤ into.new.spare + length (of_pred pred (record { pred = kind; args = args.now } ∷ [])) }
{
    if kind == pred {
        into.insert_spare(Atom::of(kind, args));
    }
}

/// Adds the facts of the predicate about where something is, in a room and perhaps beside something, to a model that has room
/// for them.
pub(crate) fn add_placed(number: u32, room: u32, beside: Option<u32>, pred: u32, into: &mut Model)
    requires room { length (of_pred pred (in_room (Obj number) (Obj room) ∷ beside_atoms number beside)) ≤ into.old.spare }
    ensures atoms { AreAdded (of_pred pred (in_room (Obj number) (Obj room) ∷ beside_atoms number beside)) into.old.atoms into.new.atoms }
    ensures spare { into.old.spare ≤ into.new.spare + length (of_pred pred (in_room (Obj number) (Obj room) ∷ beside_atoms number beside)) }
{
    let thing = Term::Obj(number);
    add_one(IN_ROOM, &[thing, Term::Obj(room)], pred, into);
    match beside {
        None => {}
        Some(other) => add_one(NEXT_TO, &[thing, Term::Obj(other)], pred, into),
    }
}

/// Adds the facts of the predicate about a door to a model that has room for them.
fn add_door(number: u32, a: u32, b: u32, is_open: bool, pred: u32, into: &mut Model)
    requires room { length (of_pred pred (thing_atoms number (a_door a b is_open))) ≤ into.old.spare }
    ensures atoms { AreAdded (of_pred pred (thing_atoms number (a_door a b is_open))) into.old.atoms into.new.atoms }
    ensures spare { into.old.spare ≤ into.new.spare + length (of_pred pred (thing_atoms number (a_door a b is_open))) }
{
    let (door, one, other) = (Term::Obj(number), Term::Obj(a), Term::Obj(b));
    add_one(IS_DOOR, &[door], pred, into);
    add_one(CONNECTS, &[door, one, other], pred, into);
    add_one(CONNECTS, &[door, other, one], pred, into);
    if is_open {
        add_one(OPENED, &[door], pred, into);
    } else {
        add_one(CLOSED, &[door], pred, into);
    }
}

/// Adds the facts of the predicate about the thing of that number to a model that has room for them.
fn add_thing(number: u32, standing: &Standing, pred: u32, into: &mut Model)
    requires room { length (of_pred pred (thing_atoms number standing.now)) ≤ into.old.spare }
    ensures atoms { AreAdded (of_pred pred (thing_atoms number standing.now)) into.old.atoms into.new.atoms }
    ensures spare { into.old.spare ≤ into.new.spare + length (of_pred pred (thing_atoms number standing.now)) }
{
    match *standing {
        Standing::Room => add_one(IS_ROOM, &[Term::Obj(number)], pred, into),
        Standing::Door { a, b, is_open } => add_door(number, a, b, is_open, pred, into),
        Standing::Box { room, beside } => {
            add_one(IS_BOX, &[Term::Obj(number)], pred, into);
            add_placed(number, room, beside, pred, into);
        }
    }
}

/// Adds the facts of the predicate about the things to a model that has room for them.
pub(crate) fn add_things(things: &[Standing], pred: u32, into: &mut Model)
    requires few { length things.now < u32_max }
    requires room { length (of_pred pred (atoms_from 1 things.now)) ≤ into.old.spare }
    ensures atoms { AreAdded (of_pred pred (atoms_from 1 things.now)) into.old.atoms into.new.atoms }
    ensures spare { into.old.spare ≤ into.new.spare + length (of_pred pred (atoms_from 1 things.now)) }
{
    for (place, standing) in things.iter().enumerate() {
        add_thing(place as u32 + 1, standing, pred, into);
    }
}
