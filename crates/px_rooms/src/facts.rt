//! The facts of buildings.
ghost use Rattle.std.specs.Prelude.{◌≡◌, ◌≤◌, length};
ghost use Rattle.px_terms.specs.declared.term.Term.TheVariants.{Obj};
ghost use Rattle.px_rooms.specs.Domain.{closed as closed_of, connects as connects_of, in_room as in_room_of, is_box as box_of, is_door as door_of, is_room as room_of, next_to as next_to_of, opened_door as opened_of, robot};
ghost use Rattle.px_rooms.specs.States.{door_atom as atom_of_door, thing_atoms as atoms_of_thing};

use crate::standing::Standing;
use px_terms::{Atom, Term};
use std::marker::Model;

/// The robot as an object.
pub(crate) const ROBOT: Term = Term::Obj(0);

/// The predicate that something is in a room.
pub(crate) const IN_ROOM: u32 = 0;
/// The predicate that something is beside something.
pub(crate) const NEXT_TO: u32 = 1;
/// The predicate that a door connects two rooms.
pub(crate) const CONNECTS: u32 = 2;
/// The predicate that a door is open.
pub(crate) const OPENED: u32 = 3;
/// The predicate that a door is closed.
pub(crate) const CLOSED: u32 = 4;
/// The predicate that a thing is a room.
pub(crate) const IS_ROOM: u32 = 5;
/// The predicate that a thing is a door.
pub(crate) const IS_DOOR: u32 = 6;
/// The predicate that a thing is a box.
pub(crate) const IS_BOX: u32 = 7;

// Alike: the functions of this part are one for each predicate, as in `specs/Domain`, so that facts are written in the domain's words.

/// Returns the atom that something is in a room.
pub(crate) fn in_room(thing: Term, room: Term) -> Atom
    ensures { result ≡ in_room_of thing room }
{
    Atom::of(IN_ROOM, &[thing, room])
}

/// Returns the atom that something is beside something.
pub(crate) fn next_to(thing: Term, other: Term) -> Atom
    ensures { result ≡ next_to_of thing other }
{
    Atom::of(NEXT_TO, &[thing, other])
}

/// Returns the atom that a door connects a room with another.
pub(crate) fn connects(door: Term, room: Term, other: Term) -> Atom
    ensures { result ≡ connects_of door room other }
{
    Atom::of(CONNECTS, &[door, room, other])
}

/// Returns the atom that a door is open.
pub(crate) fn opened(door: Term) -> Atom
    ensures { result ≡ opened_of door }
{
    Atom::of(OPENED, &[door])
}

/// Returns the atom that a door is closed.
pub(crate) fn closed(door: Term) -> Atom
    ensures { result ≡ closed_of door }
{
    Atom::of(CLOSED, &[door])
}

/// Returns the atom that a thing is a room.
pub(crate) fn is_room(thing: Term) -> Atom
    ensures { result ≡ room_of thing }
{
    Atom::of(IS_ROOM, &[thing])
}

/// Returns the atom that a thing is a door.
pub(crate) fn is_door(thing: Term) -> Atom
    ensures { result ≡ door_of thing }
{
    Atom::of(IS_DOOR, &[thing])
}

/// Returns the atom that a thing is a box.
pub(crate) fn is_box(thing: Term) -> Atom
    ensures { result ≡ box_of thing }
{
    Atom::of(IS_BOX, &[thing])
}

/// At most four atoms. Contracts see them as a list.
#[derive(Drop)]
pub(crate) struct FewAtoms {
    atoms: [Atom; 4],
    count: usize,
}

impl Model for FewAtoms {
    ghost use Rattle.std.specs.Prelude.{List, take, ◌≤◌};
    ghost use Rattle.px_terms.specs.declared.atom.Atom.{Atom};

    ghost Value = { List Atom };

    ghost view = { λ few. take few.count few.atoms };

    ghost invariant = { λ few. few.count ≤ 4 };
}

impl FewAtoms {
    /// Returns these atoms.
    pub(crate) fn of(given: &[Atom]) -> FewAtoms
        requires { length given.now ≤ 4 }
        ensures { result ≡ given.now }
    {
        let mut atoms = [is_room(ROBOT); 4];
        atoms[..given.len()].copy_from_slice(given);
        FewAtoms {
            atoms,
            count: given.len(),
        }
    }

    /// Returns the atoms.
    pub(crate) fn as_slice(&self) -> &[Atom]
        ensures value { result.now ≡ self.now }
        ensures few { length self.now ≤ 4 }
    {
        &self.atoms[..self.count]
    }
}

/// Returns the facts about the thing of that number.
pub(crate) fn thing_atoms(number: u32, standing: &Standing) -> FewAtoms
    ensures { result ≡ atoms_of_thing number standing.now }
{
    let thing = Term::Obj(number);
    match *standing {
        Standing::Room => FewAtoms::of(&[is_room(thing)]),
        Standing::Door { a, b, is_open } => {
            let (one, other) = (Term::Obj(a), Term::Obj(b));
            let way = connects(thing, one, other);
            let back = connects(thing, other, one);
            FewAtoms::of(&[is_door(thing), way, back, door_atom(number, is_open)])
        }
        Standing::Box { room, beside } => {
            let kind = is_box(thing);
            let place = in_room(thing, Term::Obj(room));
            match beside {
                None => FewAtoms::of(&[kind, place]),
                Some(door) => FewAtoms::of(&[kind, place, next_to(thing, Term::Obj(door))]),
            }
        }
    }
}

/// Returns the fact that says whether a door is open.
fn door_atom(number: u32, is_open: bool) -> Atom
    ensures { result ≡ atom_of_door number is_open }
{
    if is_open {
        opened(Term::Obj(number))
    } else {
        closed(Term::Obj(number))
    }
}
