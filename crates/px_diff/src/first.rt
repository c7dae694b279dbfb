//! The first of the entries that may be pushed.
use px_table::Entry;

/// The first of the entries that may be pushed, in order, each once.
#[derive(Drop)]
pub struct First {
    pub entries: Vec<Entry>,
    /// Whether they are all that may be pushed. If not, the others come after these, if there are any.
    pub is_all: bool,
}
