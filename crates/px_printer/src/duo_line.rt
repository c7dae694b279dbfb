//! What happens to two executors.
use px_terms::OpInst;

/// What came of what one of two executors did.
#[derive(Clone, Copy, PartialEq, Eq, Debug)]
pub enum DuoEnd {
    /// It sensed the kernel of that number, counted from 1, below the goal's.
    Sensed(u32),
    /// It took the step.
    Acted,
    /// It didn't take the step, since a mark of its row was not true.
    Slipped,
    /// It sensed that its goal is reached.
    Goal,
    /// It sensed that no kernel fits.
    NoKernel,
}

/// What one of two executors did.
#[derive(Clone, Copy, PartialEq, Eq, Debug)]
pub struct DuoLine {
    /// Which executor it was, 1 or 2.
    pub who: u32,
    /// What came of it.
    pub end: DuoEnd,
    /// The step of the kernel that was sensed, where one was.
    pub op: Option<OpInst>,
}
