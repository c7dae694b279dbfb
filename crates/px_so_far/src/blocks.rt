//! Blocks that are open.
ghost use Rattle.std.specs.Prelude.{◌≡◌, ℕ};
ghost use Rattle.px_so_far.specs.Common.{kind_of_block, kind_view};

use crate::open_tables::OpenTable;
use px_script::Block;
use px_terms::Atom;

/// An operator's parameters by name, and its lists so far.
#[derive(Drop)]
pub struct OpenOperator {
    /// The names of its parameters, in their order.
    pub parameters: Vec<String>,
    /// The sort of each parameter; 0 is no sort.
    pub sorts: Vec<u32>,
    /// The atoms of its precondition.
    pub pre: Vec<Atom>,
    /// The atoms of its delete list.
    pub delete: Vec<Atom>,
    /// The atoms of its add list.
    pub add: Vec<Atom>,
}

/// What an open block is of.
#[derive(Drop)]
pub enum BlockKind {
    /// An operator.
    Operator(OpenOperator),
    /// The building of the script, whose things `SoFar` has.
    Building,
    /// A table.
    Table(OpenTable),
}

/// A block that isn't closed, and the line that opened it.
#[derive(Drop)]
pub struct OpenBlock {
    /// The number of that line, from 1.
    pub line: u32,
    /// What it is of.
    pub kind: BlockKind,
}

impl BlockKind {
    /// Returns which lines may stand in the block.
    pub fn block(&self) -> Block
        ensures { (number : ℕ) → result ≡ kind_of_block (kind_view number self.now) }
    {
        match self {
            BlockKind::Operator(_) => Block::Operator,
            BlockKind::Building => Block::Building,
            BlockKind::Table(table) => table.block(),
        }
    }
}
