//! Edits of a session's world.
use px_world::{AtomEdit, RoomEdit};

/// A change from outside, in a script without a building or in one with a building.
#[derive(Clone, Copy, PartialEq, Eq, Debug)]
pub enum Edit {
    /// An edit of an atom.
    OfAtoms(AtomEdit),
    /// An edit of a building.
    OfRooms(RoomEdit),
}
