//! What `relevant` returns, with the number of questions that it took.
use px_table::Entry;

/// The entries that `relevant` returns, and how many questions that took.
#[derive(Drop)]
pub struct Measured {
    /// The entries that may be pushed, in order, each once.
    pub entries: Vec<Entry>,
    /// How many questions the prover was asked, but for those about each entry by itself.
    pub questions: u64,
}
