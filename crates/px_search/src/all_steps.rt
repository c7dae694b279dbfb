//! All moves that are allowed at a node, found by its own questions.
ghost use Rattle.std.specs.Prelude.{◌≡◌, ◌∷◌, [], IfOk};
ghost use Rattle.px_entries.specs.Entries.{IsEntry, obligations_of};
ghost use Rattle.px_gaps.specs.Known.{IsKnownOf, IsOpenWith};
ghost use Rattle.px_diff.specs.Outcomes.{IfStopped};
ghost use Rattle.px_numbers.specs.Numbers.{IsKeyOf, IsModelAt, KeepsAll};
ghost use Rattle.px_ends.specs.Tasks.{needs_at, needs_with};
ghost use Rattle.px_support.specs.Asking.{IsAskable, task_for};
ghost use Rattle.px_search.specs.Going.{IsAskedAt, IsGoneOn, LimitsAt, LimitsNode};
ghost use Rattle.px_search.specs.Cache.{AreRight, HaveGrown, OnAnswer};
ghost use Rattle.px_search.specs.declared.step.Step.{Step};
ghost use Rattle.px_table.specs.declared.node.Node.{Node};

use crate::cache::Cache;
use crate::picks::numbered;
use crate::step::Step;
use px_diff::{MoveErr, relevant};
use px_entries::{known_below, known_entry};
use px_gaps::{Known, known_formula};
use px_numbers::{NodeKey, Numbers, stack_at};
use px_ops::Model;
use px_support::Asked;
use px_table::Entry;
use px_terms::{Atom, NoMemory};
use std::alloc::Global;

/// Returns the one move that applies the top entry.
pub fn only_apply(alloc: Global) -> Result<Vec<Step>, NoMemory>
    ensures { IfOk result (λ steps. steps.items ≡ Step.Apply ∷ []) }
{
    let mut steps = Vec::new(alloc);
    steps.extend_from_slice(&[Step::Apply])?;
    Ok(steps)
}

/// Returns the pushes of the node with these gaps, in order.
pub fn pushes(
    asked: &Asked,
    numbers: &mut Numbers,
    model: &Model,
    stack: &[Entry],
    gaps: &[Atom],
) -> Result<Vec<Step>, MoveErr>
    requires asked { IsAskable asked.now }
    requires gaps { IsOpenWith asked.now.problem.now (needs_with (task_for asked.now) model.now.atoms stack.now) gaps.now }
    ensures keeps { KeepsAll numbers.old numbers.new }
    ensures steps { IfOk result (λ steps. IsGoneOn (task_for asked.now) numbers.new (record { model = model.now.atoms; stack = stack.now })
        steps.items) }
    ensures limited { IfStopped result (LimitsNode (task_for asked.now) (record { model = model.now.atoms; stack = stack.now })) }
{
    match relevant(asked.alloc, asked.problem, gaps, stack, model, asked.tables) {
        Ok(entries) => {
            let steps = numbered(asked.alloc, numbers, &entries)?;
            Ok(steps)
        }
        Err(error) => Err(error),
    }
}

impl Cache {
    /// Returns what is known of the entry in the model.
    pub fn known_top(&self, asked: &Asked, entry: &Entry, model: &Model) -> Result<Known, NoMemory>
        requires asked { IsAskable asked.now }
        requires cache { AreRight (task_for asked.now) self.now }
        requires entry { IsEntry asked.now.problem.now asked.now.tables.now entry.now }
        ensures { IfOk result (IsKnownOf asked.now.problem.now
            (obligations_of asked.now.problem.now asked.now.tables.now model.now.atoms entry.now)) }
    {
        if self.is_never_limited {
            return known_below(asked.alloc, asked.problem, asked.tables, entry, model);
        }
        known_entry(asked.alloc, asked.problem, asked.tables, entry, model)
    }

    /// Returns what is known of what the node needs.
    fn known_at(&self, asked: &Asked, model: &Model, key: NodeKey) -> Result<Known, NoMemory>
        requires asked { IsAskable asked.now }
        requires cache { AreRight (task_for asked.now) self.now }
        requires node { IsAskedAt (task_for asked.now) self.now.numbers key }
        requires model { IsModelAt self.now.numbers key.model model.now.atoms }
        ensures { IfOk result (λ known. (node : Node) → IsKeyOf self.now.numbers key node
            → IsKnownOf asked.now.problem.now (needs_at (task_for asked.now) node) known) }
    {
        match self.numbers.top(key.stack) {
            None => known_formula(
                asked.alloc,
                asked.problem,
                asked.goal,
                asked.variable_count,
                model,
            ),
            Some(frame) => self.known_top(asked, self.numbers.entry(frame.entry), model),
        }
    }

    /// Returns the moves that are allowed at the node, in order.
    ///
    /// # Errors
    /// `ShapeLimit` where a question of the node meets the limit. `NoMemory` where there is no memory.
    pub fn all_steps_from(&mut self, asked: &Asked, key: NodeKey) -> Result<Vec<Step>, MoveErr>
        requires asked { IsAskable asked.now }
        requires cache { AreRight (task_for asked.now) self.old }
        requires node { IsAskedAt (task_for asked.now) self.old.numbers key }
        ensures cache { OnAnswer result (HaveGrown (task_for asked.now) self.old self.new) }
        ensures steps { IfOk result (λ steps. (node : Node) → IsKeyOf self.old.numbers key node
            → IsGoneOn (task_for asked.now) self.new.numbers node steps.items) }
        ensures limited { IfStopped result (LimitsAt (task_for asked.now) self.old.numbers key) }
    {
        let model = self.numbers.model(asked.alloc, key.model)?;
        let stack = stack_at(asked.alloc, &self.numbers, key.stack)?;
        let known = self.known_at(asked, &model, key)?;
        match known {
            Known::Limited(limit) => Err(MoveErr::ShapeLimit(limit)),
            Known::Closed => Ok(Vec::new(asked.alloc)),
            Known::Applicable => {
                let only = only_apply(asked.alloc)?;
                Ok(only)
            }
            Known::Open(gaps) => {
                pushes(
                    asked,
                    &mut self.numbers,
                    &model,
                    stack.as_slice(),
                    gaps.as_slice(),
                )
            }
        }
    }
}
