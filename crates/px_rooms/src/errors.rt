//! Why things and edits of buildings are refused.
use thiserror::Error;

/// Why a list of things is no world.
#[derive(Clone, Copy, PartialEq, Eq, Debug, Error)]
pub enum RoomErr {
    /// A number names no thing of the kind that is wanted, a door has one room on both sides, or there isn't one robot.
    #[error("a number names no thing of the kind that is wanted, a door has one room on both sides, or there isn't one robot")]
    NoSuchThing,
    /// Out of memory.
    #[error("out of memory")]
    NoMemory,
}

/// A number of an edit names no thing of the kind that is wanted.
#[derive(Clone, Copy, PartialEq, Eq, Debug, Error)]
#[error("a number names no thing of the kind that is wanted")]
pub struct NoSuchThing;
