//! Changes that come from outside an executor.
use px_terms::Atom;

/// A change of one fact. Adding an atom that is there, and removing one that isn't, change nothing.
#[derive(Clone, Copy, PartialEq, Eq, Debug)]
pub enum AtomEdit {
    /// The atom comes.
    Add(Atom),
    /// The atom goes.
    Remove(Atom),
}

/// A change in a building. The numbers are those of objects.
#[derive(Clone, Copy, PartialEq, Eq, Debug)]
pub enum RoomEdit {
    /// The robot is put into the room.
    Robot(u32),
    /// The box, which is the first of the two, is put into the room.
    Box(u32, u32),
    /// The door is opened or closed.
    Door(u32, bool),
}
