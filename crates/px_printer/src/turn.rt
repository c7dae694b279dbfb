//! The turns of a run.
use px_terms::OpInst;

/// How a turn ends (after PLANEX: Fikes, Hart and Nilsson 1972).
#[derive(Clone, Copy, PartialEq, Eq, Debug)]
pub enum TurnEnd {
    /// The step was taken.
    Acted,
    /// The step was not taken, since a mark of its row was not true.
    Slipped,
    /// The goal is reached.
    Goal,
    /// No kernel fits.
    NoKernel,
}

/// A turn of a run.
#[derive(Clone, Copy, PartialEq, Eq, Debug)]
pub struct Turn {
    /// The number of the kernel that was sensed, or 0 if no kernel was.
    pub kernel: u32,
    /// The step that was tried, where one was.
    pub op: Option<OpInst>,
    /// How the turn ended.
    pub end: TurnEnd,
}
