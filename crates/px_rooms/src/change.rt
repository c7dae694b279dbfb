//! What may change of a thing.

/// What may change of a thing of one kind. A thing of another kind stays as it is.
#[derive(Clone, Copy)]
pub(crate) enum ThingChange {
    /// A door is opened or closed.
    Turned(bool),
    /// A box is put beside a door.
    Beside(u32),
    /// A box is put into a room, beside no door.
    Into(u32),
}
