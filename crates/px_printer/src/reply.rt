//! What commands answer.
ghost use Rattle.std.specs.Prelude.{◌≡◌};

use crate::duo_line::DuoLine;
use crate::pursue_end::PursueEnd;
use crate::turn::Turn;
use px_base::Sequence;
use px_gaps::MetLimit;
use px_numbers::FirstNodes;
use px_table::{Node, Table};
use px_terms::{Atom, OpInst};
use px_tree::Tree;

/// Why a plan isn't learned.
#[derive(Clone, Copy, PartialEq, Eq, Debug)]
pub enum Why {
    /// It has more than 64 steps.
    TooLong,
    /// A proof in its table is higher than 56.
    TooDeep,
    /// Generalising it would take more than 1,000,000 variables.
    TooWide,
    /// There are 32 learned tables.
    Full,
}

impl Why {
    ghost use Rattle.px_printer.specs.Whys.{why_text};

    /// Returns the word for it.
    pub(crate) fn text(self) -> &'static str
        ensures { result.now ≡ why_text self }
    {
        match self {
            Why::TooLong => "toolong",
            Why::TooDeep => "toodeep",
            Why::TooWide => "toowide",
            Why::Full => "full",
        }
    }
}

/// Why a table isn't saved or certified.
#[derive(Clone, Copy, PartialEq, Eq, Debug)]
pub enum SaveWhy {
    /// It has more than 64 steps.
    TooLong,
    /// A proof in it is higher than 56.
    TooDeep,
    /// It has more than 9,999 parameters.
    TooMany,
}

impl SaveWhy {
    ghost use Rattle.px_printer.specs.Whys.{save_why_text};

    /// Returns the word for it.
    pub(crate) fn text(self) -> &'static str
        ensures { result.now ≡ save_why_text self }
    {
        match self {
            SaveWhy::TooLong => "toolong",
            SaveWhy::TooDeep => "toodeep",
            SaveWhy::TooMany => "toomany",
        }
    }
}

/// Why a table isn't edited.
#[derive(Clone, Copy, PartialEq, Eq, Debug)]
pub enum EditWhy {
    /// It has no prefix of so many steps.
    Prefix,
    /// One of the pairs names no add of a step of the prefix, or stands twice.
    Want,
    /// More than 64 steps would be kept.
    TooLong,
    /// A proof in the row of a kept step is higher than 56.
    TooDeep,
    /// There are 32 learned tables.
    Full,
}

impl EditWhy {
    ghost use Rattle.px_printer.specs.Whys.{edit_why_text};

    /// Returns the word for it.
    pub(crate) fn text(self) -> &'static str
        ensures { result.now ≡ edit_why_text self }
    {
        match self {
            EditWhy::Prefix => "prefix",
            EditWhy::Want => "want",
            EditWhy::TooLong => "toolong",
            EditWhy::TooDeep => "toodeep",
            EditWhy::Full => "full",
        }
    }
}

/// What a command answers.
#[derive(Drop)]
pub enum Reply {
    /// The search found a plan.
    Plan {
        /// The number of the plan's name.
        name: u32,
        /// The length of its list of moves.
        moves: u32,
        /// The operator instances of the plan, in order.
        steps: Sequence<OpInst>,
    },
    /// All nodes were searched, and no node is solved.
    Exhausted {
        /// The number of the plan's name.
        name: u32,
    },
    /// The search kept as many nodes as it may, and no node is solved.
    NodeLimit {
        /// The number of the plan's name.
        name: u32,
        /// The kept nodes, in the order in which they were found.
        nodes: FirstNodes,
        /// How many moves lead to the node after them.
        moves: u32,
    },
    /// The search met the limit of shapes.
    ShapeLimit {
        /// The number of the plan's name.
        name: u32,
        /// The node at which it was met.
        node: Node,
        /// The question that met it there, and the first shapes.
        limit: MetLimit,
    },
    /// The plan's general table was learned.
    Learned {
        /// The number of the table's name.
        name: u32,
        /// How many parameters it has.
        params: u32,
        /// How many steps it has.
        steps: u32,
    },
    /// The plan isn't learned.
    LearnRefused {
        /// The number of the table's name.
        name: u32,
        /// Why it isn't learned.
        why: Why,
    },
    /// The table of a plan, or a learned table.
    Shown {
        /// The number of its name.
        name: u32,
        /// The table.
        table: Table,
    },
    /// A disturbance was recorded.
    Noted {
        /// How many are recorded now.
        count: u32,
    },
    /// A table was run.
    Ran {
        /// The number of its name.
        name: u32,
        /// The turns, from the first to the last.
        turns: Sequence<Turn>,
    },
    /// The facts, in the model's order.
    FactsAre {
        /// The ground atoms that hold.
        atoms: Sequence<Atom>,
    },
    /// The name has no table.
    Unknown {
        /// The number of the name.
        name: u32,
    },
    /// The table has no such parameter.
    UnknownParam {
        /// The parameter, counted from 1.
        param: u32,
    },
    /// A table is saved: its block can be read back.
    Saved {
        /// The number of the table's name.
        name: u32,
        /// The table.
        table: Table,
    },
    /// The table isn't saved.
    SaveRefused {
        /// The number of the table's name.
        name: u32,
        /// Why it isn't saved.
        why: SaveWhy,
    },
    /// A table was made of the steps of another that are needed.
    Edited {
        /// The number of the new table's name.
        name: u32,
        /// How many parameters it has.
        params: u32,
        /// How many steps it has.
        steps: u32,
    },
    /// The table isn't edited.
    EditRefused {
        /// The number of the new table's name.
        name: u32,
        /// Why it isn't made.
        why: EditWhy,
    },
    /// The certificate of a table.
    Certified {
        /// The number of the table's name.
        name: u32,
        /// The certificate's bytes.
        bytes: Sequence<u8>,
    },
    /// The table has no certificate.
    CertifyRefused {
        /// The number of the table's name.
        name: u32,
        /// Why it has none.
        why: SaveWhy,
    },
    /// Two tables were executed in one world.
    DuoRan {
        /// The number of the first table's name.
        first: u32,
        /// The number of the second table's name.
        second: u32,
        /// What the executors did, in order.
        lines: Sequence<DuoLine>,
    },
    /// A goal was pursued.
    Pursuit {
        /// The number of the pursuit's name.
        name: u32,
        /// How many searches were made.
        searches: u32,
        /// The turns of all runs, from the first to the last.
        turns: Sequence<Turn>,
        /// How it ended.
        end: PursueEnd,
    },
    /// The tree of a search.
    Tree {
        /// The number of the tree's name.
        name: u32,
        /// The numbers of the names of the learned tables, in the order in which they were learned: a move says a table by its place here.
        tables: Sequence<u32>,
        /// The tree.
        tree: Tree,
    },
}
