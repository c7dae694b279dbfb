//! Buildings as they stand at first.
use px_terms::Sequence;
use px_world::Thing;

/// Rooms, doors, boxes and a robot. The things other than the robot have the numbers from 1 on as objects, in this order; the robot
/// is object 0, wherever it stands in the list.
#[derive(Drop)]
pub struct Building {
    /// The things.
    pub things: Sequence<Thing>,
}
