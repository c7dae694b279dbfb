//! Operator instances whose arguments are known in part.
use px_terms::OpInst;

/// An operator instance with variables, numbered from 0, for arguments that aren't known yet.
#[derive(Clone, Copy, PartialEq, Eq, PartialOrd, Ord)]
pub struct PartialInstance {
    /// The instance, over objects and the variables.
    pub inst: OpInst,
    /// How many variables there are.
    pub variable_count: u32,
}
