//! What nodes lack, counted once for each entry in each model.
ghost use Rattle.std.specs.Prelude.{◌≡◌, ◌+◌, List, All, IfOk, OnOk};
ghost use Rattle.px_terms.specs.declared.atom.Atom.{Atom};
ghost use Rattle.px_table.specs.declared.entry.Move.{Move};
ghost use Rattle.px_table.specs.declared.node.Node.{Node};
ghost use Rattle.px_entries.specs.Entries.{IsEntry};
ghost use Rattle.px_numbers.specs.Numbers.{Kept, IsKeyOf, IsModelAt};
ghost use Rattle.px_ends.specs.Lacks.{needs as needs_of};
ghost use Rattle.px_ends.specs.Tasks.{Task, after};
ghost use Rattle.px_support.specs.Asking.{IsAskable, task_for};
ghost use Rattle.px_search.specs.Estimating.{AreCounted, IsCountAt, IsGoalCountAt};
ghost use Rattle.px_search.specs.Cache.{IsEntryAt};
ghost use Rattle.px_search.specs.Steps.{DescribesMove};

use crate::cache::EntryPlace;
use crate::step::Step;
use indexmap::IndexMap;
use px_lacks::{lacks, lacks_of};
use px_numbers::{NodeKey, Numbers};
use px_support::Asked;
use px_terms::NoMemory;
use std::alloc::Global;

/// What was counted.
#[derive(Drop)]
pub struct Estimates {
    /// For entries in models, how much they lack.
    pub entries: IndexMap<EntryPlace, u32>,
    /// For models, how much the goal lacks.
    pub goals: IndexMap<u32, u32>,
}

/// Returns the number in 32 bits.
pub fn narrowed(count: usize) -> Result<u32, NoMemory>
    ensures { IfOk result (λ n. n ≡ count) }
{
    if count > u32::MAX as usize {
        return Err(NoMemory);
    }
    Ok(count as u32)
}

/// Returns the sum.
pub fn sum(a: u32, b: u32) -> Result<u32, NoMemory>
    ensures { IfOk result (λ n. n ≡ a + b) }
{
    a.checked_add(b).ok_or(NoMemory)
}

/// Returns how much the goal lacks in the model.
fn goal_anew(asked: &Asked, numbers: &Numbers, model: u32) -> Result<u32, NoMemory>
    requires model { (facts : List Atom) × IsModelAt numbers.now model facts }
    ensures { IfOk result (IsGoalCountAt (task_for asked.now) numbers.now model) }
{
    let facts = numbers.model(asked.alloc, model)?;
    let count = lacks_of(asked.goal, &facts);
    narrowed(count)
}

/// Returns how much the entry lacks in the model.
fn entry_anew(asked: &Asked, numbers: &Numbers, place: EntryPlace) -> Result<u32, NoMemory>
    requires asked { IsAskable asked.now }
    requires place { IsEntryAt (task_for asked.now) numbers.now place }
    ensures { IfOk result (IsCountAt (task_for asked.now) numbers.now place) }
{
    let facts = numbers.model(asked.alloc, place.model)?;
    let entry = numbers.entry(place.entry);
    let count = lacks(asked.alloc, asked.problem, asked.tables, entry, &facts)?;
    narrowed(count)
}

impl Estimates {
    /// Returns that nothing was counted.
    pub fn new(alloc: Global) -> Estimates
        ensures { (task : Task) (kept : Kept) → AreCounted task kept result }
    {
        let entries = IndexMap::new(alloc);
        let goals = IndexMap::new(alloc);
        Estimates { entries, goals }
    }

    /// Returns how much the goal lacks in the model.
    fn goal(&mut self, asked: &Asked, numbers: &Numbers, model: u32) -> Result<u32, NoMemory>
        requires counted { AreCounted (task_for asked.now) numbers.now self.old }
        requires model { (facts : List Atom) × IsModelAt numbers.now model facts }
        ensures counted { OnOk result (AreCounted (task_for asked.now) numbers.now self.new) }
        ensures count { IfOk result (IsGoalCountAt (task_for asked.now) numbers.now model) }
    {
        match self.goals.get(&model) {
            Some(count) => Ok(*count),
            None => {
                let count = goal_anew(asked, numbers, model)?;
                self.goals.insert(model, count)?;
                Ok(count)
            }
        }
    }

    /// Returns how much the entry lacks in the model.
    pub fn entry(
        &mut self,
        asked: &Asked,
        numbers: &Numbers,
        place: EntryPlace,
    ) -> Result<u32, NoMemory>
        requires asked { IsAskable asked.now }
        requires counted { AreCounted (task_for asked.now) numbers.now self.old }
        requires place { IsEntryAt (task_for asked.now) numbers.now place }
        ensures counted { OnOk result (AreCounted (task_for asked.now) numbers.now self.new) }
        ensures count { IfOk result (IsCountAt (task_for asked.now) numbers.now place) }
    {
        match self.entries.get(&place) {
            Some(count) => Ok(*count),
            None => {
                let count = entry_anew(asked, numbers, place)?;
                self.entries.insert(place, count)?;
                Ok(count)
            }
        }
    }

    /// Returns how much the node lacks: the goal, and all entries of its stack.
    pub fn needs(&mut self, asked: &Asked, numbers: &Numbers, key: NodeKey) -> Result<u32, NoMemory>
        requires asked { IsAskable asked.now }
        requires counted { AreCounted (task_for asked.now) numbers.now self.old }
        requires node { (node : Node) × IsKeyOf numbers.now key node
            × All (IsEntry asked.now.problem.now asked.now.tables.now) node.stack }
        ensures counted { OnOk result (AreCounted (task_for asked.now) numbers.now self.new) }
        ensures needs { IfOk result (λ n. (node : Node) → IsKeyOf numbers.now key node → n ≡ needs_of (task_for asked.now) node) }
    {
        let mut count = self.goal(asked, numbers, key.model)?;
        let mut rest = key.stack;
        while let Some(frame) = numbers.top(rest) {
            let place = EntryPlace {
                model: key.model,
                entry: frame.entry,
            };
            let lacks = self.entry(asked, numbers, place)?;
            let total = sum(count, lacks)?;
            count = total;
            rest = frame.below;
        }
        Ok(count)
    }

    /// Returns how much the node lacks that the move leads to, where the node before it lacks so much.
    pub fn needs_after(
        &mut self,
        asked: &Asked,
        numbers: &Numbers,
        before: u32,
        last: Step,
        there: NodeKey,
    ) -> Result<u32, NoMemory>
        requires asked { IsAskable asked.now }
        requires counted { AreCounted (task_for asked.now) numbers.now self.old }
        requires node { (node : Node) × (m : Move) × DescribesMove numbers.now last m
            × IsKeyOf numbers.now there (after (task_for asked.now) node m)
            × All (IsEntry asked.now.problem.now asked.now.tables.now) (after (task_for asked.now) node m).stack }
        ensures counted { OnOk result (AreCounted (task_for asked.now) numbers.now self.new) }
        ensures needs { IfOk result (λ n. (node : Node) (m : Move) → before ≡ needs_of (task_for asked.now) node
            → DescribesMove numbers.now last m → IsKeyOf numbers.now there (after (task_for asked.now) node m)
            → n ≡ needs_of (task_for asked.now) (after (task_for asked.now) node m)) }
    {
        match last {
            Step::Apply => self.needs(asked, numbers, there),
            Step::Push(entry) => {
                let place = EntryPlace {
                    model: there.model,
                    entry,
                };
                let lacks = self.entry(asked, numbers, place)?;
                sum(before, lacks)
            }
        }
    }
}
