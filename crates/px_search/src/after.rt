//! The nodes that moves lead to.
ghost use Rattle.std.specs.Prelude.{◌≡◌, ◌∷◌, Some, slice_get, All, IfOk, OnOk};
ghost use Rattle.px_table.specs.declared.entry.Entry.{Entry};
ghost use Rattle.px_table.specs.declared.entry.Move.{Move};
ghost use Rattle.px_table.specs.declared.entry.Move.TheVariants.{Apply};
ghost use Rattle.px_table.specs.declared.node.Node.{Node};
ghost use Rattle.px_entries.specs.Entries.{IsEntry};
ghost use Rattle.px_numbers.specs.Numbers.{IsKeyOf, KeepsAll};
ghost use Rattle.px_support.specs.Asking.{IsAskable, task_for};
ghost use Rattle.px_search.specs.Cache.{AreRight, HaveGrown};
ghost use Rattle.px_search.specs.CurrentModels.{IsCurrent};
ghost use Rattle.px_search.specs.Steps.{DescribesMove};
ghost use Rattle.px_ends.specs.Tasks.{after};

use crate::cache::{Cache, EntryPlace};
use crate::current::CurrentModel;
use crate::step::Step;
use px_numbers::{NodeKey, Numbers};
use px_support::Asked;
use px_terms::NoMemory;

/// Returns the node with the entry on top of its stack.
fn pushed(numbers: &mut Numbers, key: NodeKey, entry: u32) -> Result<NodeKey, NoMemory>
    requires node { (node : Node) × IsKeyOf numbers.old key node }
    ensures keeps { KeepsAll numbers.old numbers.new }
    ensures there { IfOk result (λ there. (node : Node) (top : Entry) → IsKeyOf numbers.old key node
        → slice_get numbers.old.entries entry ≡ Some top → IsKeyOf numbers.new there
        (record { model = node.model; stack = top ∷ node.stack })) }
{
    let stack = numbers.pushed(entry, key.stack)?;
    Ok(NodeKey {
        model: key.model,
        stack,
    })
}

impl Cache {
    /// Returns the node whose top entry is applied.
    fn applied(
        &mut self,
        asked: &Asked,
        current: &CurrentModel,
        key: NodeKey,
    ) -> Result<NodeKey, NoMemory>
        requires asked { IsAskable asked.now }
        requires cache { AreRight (task_for asked.now) self.old }
        requires current { IsCurrent (task_for asked.now) self.old.numbers current.now }
        requires node { (node : Node) × IsKeyOf self.old.numbers key node
            × All (IsEntry asked.now.problem.now asked.now.tables.now) node.stack }
        ensures cache { OnOk result (HaveGrown (task_for asked.now) self.old self.new) }
        ensures there { IfOk result (λ there. (node : Node) → IsKeyOf self.old.numbers key node
            → IsKeyOf self.new.numbers there (after (task_for asked.now) node Apply)) }
    {
        let Some(frame) = self.numbers.top(key.stack) else {
            return Ok(key);
        };
        let place = EntryPlace {
            model: key.model,
            entry: frame.entry,
        };
        let model = self.result_at(asked, current, place)?;
        Ok(NodeKey {
            model,
            stack: frame.below,
        })
    }

    /// Returns the node that the move leads to.
    pub fn after(
        &mut self,
        asked: &Asked,
        current: &CurrentModel,
        key: NodeKey,
        step: Step,
    ) -> Result<NodeKey, NoMemory>
        requires asked { IsAskable asked.now }
        requires cache { AreRight (task_for asked.now) self.old }
        requires current { IsCurrent (task_for asked.now) self.old.numbers current.now }
        requires node { (node : Node) × IsKeyOf self.old.numbers key node
            × All (IsEntry asked.now.problem.now asked.now.tables.now) node.stack }
        ensures cache { OnOk result (HaveGrown (task_for asked.now) self.old self.new) }
        ensures there { IfOk result (λ there. (node : Node) (m : Move) → IsKeyOf self.old.numbers key node
            → DescribesMove self.old.numbers step m → IsKeyOf self.new.numbers there (after (task_for asked.now) node m)) }
    {
        match step {
            Step::Apply => self.applied(asked, current, key),
            Step::Push(entry) => pushed(&mut self.numbers, key, entry),
        }
    }
}
