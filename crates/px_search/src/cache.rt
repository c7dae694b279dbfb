//! What a search keeps of what it has learned.
ghost use Rattle.std.specs.Prelude.{IsTrue};
ghost use Rattle.px_entries.specs.Unlimited.{IsNeverLimited};
ghost use Rattle.px_ends.specs.Tasks.{Task};
ghost use Rattle.px_search.specs.Cache.{AreRight};

use crate::step::Step;
use indexmap::IndexMap;
use px_numbers::Numbers;
use px_terms::{Atom, Sequence};
use std::alloc::Global;

/// An entry in a model, by the numbers of both.
#[derive(Clone, Copy, PartialEq, Eq, Hash)]
pub struct EntryPlace {
    pub model: u32,
    pub entry: u32,
}

/// A wanted atom, in the models of which that of this number is the part that decides (`IsAlike`).
#[derive(Clone, Copy, PartialEq, Eq, Hash)]
pub struct Want {
    pub part: u32,
    pub atom: Atom,
}

/// The first of the steps that are allowed, in order.
#[derive(Drop)]
pub struct Offer {
    pub steps: Sequence<Step>,
    /// Whether they are all that are allowed. `false` says nothing.
    pub is_all: bool,
}

/// What an operator's instance changes in the model of this number. Instances that differ elsewhere alone leave the same model.
#[derive(PartialEq, Eq, Hash, Drop)]
pub struct Alteration {
    pub model: u32,
    /// The patterns of what it deletes.
    pub deleted: Sequence<Atom>,
    /// What it adds.
    pub added: Sequence<Atom>,
}

/// The models, entries and stacks of a search by number, and what it has learned of them.
#[derive(Drop)]
pub struct Cache {
    pub numbers: Numbers,
    /// For entries in models, the first moves that are allowed where the entry stands on the stack alone.
    pub tops: IndexMap<EntryPlace, Offer>,
    /// For wanted atoms, the first pushes that are allowed over the empty stack.
    pub wants: IndexMap<Want, Offer>,
    /// For entries in models, the number of the model that applying the entry leaves.
    pub results: IndexMap<EntryPlace, u32>,
    /// For what operators change, the number of the model that is left.
    pub altered: IndexMap<Alteration, u32>,
    /// Whether it is known that no question about an entry meets the limit of shapes, whatever the facts are.
    pub is_never_limited: bool,
}

impl Cache {
    /// Returns an empty cache, with whether questions about entries may meet the limit of shapes.
    pub fn new(alloc: Global, is_never_limited: bool) -> Cache
        ensures { (task : Task) → (IsTrue is_never_limited → IsNeverLimited task.problem task.tables) → AreRight task result }
    {
        let numbers = Numbers::new(alloc);
        let tops = IndexMap::new(alloc);
        let wants = IndexMap::new(alloc);
        let results = IndexMap::new(alloc);
        let altered = IndexMap::new(alloc);
        Cache {
            numbers,
            tops,
            wants,
            results,
            altered,
            is_never_limited,
        }
    }
}
