//! The first moves that are allowed at a node, by what is kept of others.
ghost use Rattle.std.specs.Prelude.{◌≡◌, [], Some, All, IfOk, IfSome, OnOk};
ghost use Rattle.px_gaps.specs.Known.{IsOpenWith};
ghost use Rattle.px_gaps.specs.declared.known.Tried.TheVariants.{Unanswered};
ghost use Rattle.px_table.specs.declared.entry.Entry.{Entry};
ghost use Rattle.px_table.specs.declared.node.Node.{Node};
ghost use Rattle.px_entries.specs.Entries.{IsEntry};
ghost use Rattle.px_diff.specs.Outcomes.{IfStopped};
ghost use Rattle.px_numbers.specs.Numbers.{IsKeyOf, IsTopOf, KeepsAll};
ghost use Rattle.px_support.specs.Asking.{IsAskable, task_for};
ghost use Rattle.px_search.specs.Asking.{IsTriedAt};
ghost use Rattle.px_search.specs.Cache.{AreRight, HaveGrown, OnAnswer};
ghost use Rattle.px_search.specs.Offers.{IsPartAt};
ghost use Rattle.px_search.specs.CurrentModels.{IsHere, IsCurrent, IsCurrentAt, alone_here, node_here};
ghost use Rattle.px_search.specs.Going.{BeginsAt, IsAskedAt, AreFirstSuccessors, LimitsAt, LimitsNode};
ghost use Rattle.px_ends.specs.Tasks.{needs_at, needs_with};

use crate::all_steps::{only_apply, pushes};
use crate::cache::{Cache, EntryPlace, Offer};
use crate::current::CurrentModel;
use crate::picks::struck;
use crate::step::Step;
use crate::successors::Successors;
use px_diff::MoveErr;
use px_gaps::{Known, known_formula};
use px_numbers::{Frame, NodeKey, Numbers, stack_at};
use px_ops::Model;
use px_support::Asked;
use px_table::Entry;
use px_terms::{Atom, NoMemory, Sequence};

/// A node with an entry on top: the entry in its model, the stack below, and the current model.
#[derive(Clone, Copy)]
pub struct Here<'a> {
    pub place: EntryPlace,
    pub below: u32,
    pub current: &'a CurrentModel,
    pub stack: &'a [Entry],
}

/// Returns all pushes of the node with these gaps, found by its own questions.
fn all_pushes(
    asked: &Asked,
    numbers: &mut Numbers,
    model: &Model,
    stack: &[Entry],
    gaps: &[Atom],
) -> Result<Successors, MoveErr>
    requires asked { IsAskable asked.now }
    requires gaps { IsOpenWith asked.now.problem.now (needs_with (task_for asked.now) model.now.atoms stack.now) gaps.now }
    ensures keeps { KeepsAll numbers.old numbers.new }
    ensures steps { IfOk result (λ successors. AreFirstSuccessors (task_for asked.now) numbers.new
        (record { model = model.now.atoms; stack = stack.now })
        successors.steps.items successors.is_all) }
    ensures limited { IfStopped result (LimitsNode (task_for asked.now) (record { model = model.now.atoms; stack = stack.now })) }
{
    match pushes(asked, numbers, model, stack, gaps) {
        Ok(steps) => Ok(Successors {
            steps,
            is_all: true,
        }),
        Err(error) => Err(error),
    }
}

impl Cache {
    /// Returns the first moves that are allowed at the node, in order.
    ///
    /// # Errors
    /// `ShapeLimit` where a question of the node meets the limit. `NoMemory` where there is no memory.
    pub fn successors_of(
        &mut self,
        asked: &Asked,
        current: &mut CurrentModel,
        key: NodeKey,
    ) -> Result<Successors, MoveErr>
        requires asked { IsAskable asked.now }
        requires cache { AreRight (task_for asked.now) self.old }
        requires current { IsCurrent (task_for asked.now) self.old.numbers current.old }
        requires node { IsAskedAt (task_for asked.now) self.old.numbers key }
        ensures cache { OnAnswer result (HaveGrown (task_for asked.now) self.old self.new) }
        ensures current { OnAnswer result (IsCurrent (task_for asked.now) self.new.numbers current.new) }
        ensures steps { IfOk result (BeginsAt (task_for asked.now) self.old.numbers self.new.numbers key) }
        ensures limited { IfStopped result (LimitsAt (task_for asked.now) self.old.numbers key) }
    {
        let kept = self.kept_steps(asked, key)?;
        if let Some(successors) = kept {
            return Ok(successors);
        }
        self.show(asked, current, key.model)?;
        self.steps_anew(asked, current, key)
    }

    /// Returns the first moves of the node, if those are kept where its top entry stands on the stack alone.
    fn kept_steps(&self, asked: &Asked, key: NodeKey) -> Result<Option<Successors>, NoMemory>
        requires cache { AreRight (task_for asked.now) self.now }
        requires node { (node : Node) × IsKeyOf self.now.numbers key node }
        ensures { IfOk result (λ kept. IfSome kept (BeginsAt (task_for asked.now) self.now.numbers self.now.numbers key)) }
    {
        let Some(frame) = self.numbers.top(key.stack) else {
            return Ok(None);
        };
        let place = EntryPlace {
            model: key.model,
            entry: frame.entry,
        };
        let Some(offer) = self.tops.get(&place) else {
            return Ok(None);
        };
        let is_all = offer.is_all;
        let steps = struck(
            asked.alloc,
            &self.numbers,
            frame.below,
            offer.steps.as_slice(),
        )?;
        Ok(Some(Successors { steps, is_all }))
    }

    /// Returns the first moves of a node of which nothing is kept, whose model is the current one.
    fn steps_anew(
        &mut self,
        asked: &Asked,
        current: &CurrentModel,
        key: NodeKey,
    ) -> Result<Successors, MoveErr>
        requires asked { IsAskable asked.now }
        requires cache { AreRight (task_for asked.now) self.old }
        requires current { IsCurrentAt (task_for asked.now) self.old.numbers key.model current.now }
        requires node { IsAskedAt (task_for asked.now) self.old.numbers key }
        ensures cache { OnAnswer result (HaveGrown (task_for asked.now) self.old self.new) }
        ensures steps { IfOk result (BeginsAt (task_for asked.now) self.old.numbers self.new.numbers key) }
        ensures limited { IfStopped result (LimitsAt (task_for asked.now) self.old.numbers key) }
    {
        match self.numbers.top(key.stack) {
            None => self.goal_steps(asked, current, key),
            Some(frame) => self.top_steps(asked, current, key, frame),
        }
    }

    /// Returns the first moves of a node without a stack, whose goal has no answer.
    fn goal_steps(
        &mut self,
        asked: &Asked,
        current: &CurrentModel,
        key: NodeKey,
    ) -> Result<Successors, MoveErr>
        requires asked { IsAskable asked.now }
        requires cache { AreRight (task_for asked.now) self.old }
        requires current { IsCurrentAt (task_for asked.now) self.old.numbers key.model current.now }
        requires node { (node : Node) × IsKeyOf self.old.numbers key node × (node.stack ≡ [])
            × IsTriedAt (task_for asked.now) node Unanswered }
        ensures cache { OnAnswer result (HaveGrown (task_for asked.now) self.old self.new) }
        ensures steps { IfOk result (BeginsAt (task_for asked.now) self.old.numbers self.new.numbers key) }
        ensures limited { IfStopped result (LimitsAt (task_for asked.now) self.old.numbers key) }
    {
        let known = known_formula(
            asked.alloc,
            asked.problem,
            asked.goal,
            asked.variable_count,
            &current.model,
        )?;
        match known {
            Known::Limited(limit) => Err(MoveErr::ShapeLimit(limit)),
            Known::Applicable => unreachable!(),
            Known::Closed => Ok(Successors {
                steps: Vec::new(asked.alloc),
                is_all: true,
            }),
            Known::Open(gaps) => self.pushes_to_goal(asked, current, gaps.as_slice()),
        }
    }

    /// Returns the first moves of a node with this frame on top.
    fn top_steps(
        &mut self,
        asked: &Asked,
        current: &CurrentModel,
        key: NodeKey,
        frame: Frame,
    ) -> Result<Successors, MoveErr>
        requires asked { IsAskable asked.now }
        requires cache { AreRight (task_for asked.now) self.old }
        requires current { IsCurrentAt (task_for asked.now) self.old.numbers key.model current.now }
        requires node { (node : Node) × IsKeyOf self.old.numbers key node
            × All (IsEntry asked.now.problem.now asked.now.tables.now) node.stack × IsTopOf self.old.numbers node.stack (Some frame) }
        ensures cache { OnAnswer result (HaveGrown (task_for asked.now) self.old self.new) }
        ensures steps { IfOk result (BeginsAt (task_for asked.now) self.old.numbers self.new.numbers key) }
        ensures limited { IfStopped result (LimitsAt (task_for asked.now) self.old.numbers key) }
    {
        let stack = stack_at(asked.alloc, &self.numbers, key.stack)?;
        let top = self.numbers.entry(frame.entry);
        let known = self.known_top(asked, top, &current.model)?;
        let here = Here {
            place: EntryPlace {
                model: key.model,
                entry: frame.entry,
            },
            below: frame.below,
            current,
            stack: stack.as_slice(),
        };
        match known {
            Known::Limited(limit) => Err(MoveErr::ShapeLimit(limit)),
            Known::Closed => {
                let nothing = Vec::new(asked.alloc);
                let none = self.kept_over(asked, &here, nothing, true)?;
                Ok(none)
            }
            Known::Applicable => {
                let only = only_apply(asked.alloc)?;
                let apply = self.kept_over(asked, &here, only, true)?;
                Ok(apply)
            }
            Known::Open(gaps) => self.pushes_over(asked, &here, gaps.as_slice()),
        }
    }

    /// Keeps the first moves over the top entry alone, with whether they are all, and returns them without the pushes of entries that
    /// stand below.
    fn kept_over(
        &mut self,
        asked: &Asked,
        here: &Here,
        alone: Vec<Step>,
        is_all: bool,
    ) -> Result<Successors, NoMemory>
        requires cache { AreRight (task_for asked.now) self.old }
        requires here { IsHere (task_for asked.now) self.old.numbers here.now }
        requires alone { AreFirstSuccessors (task_for asked.now) self.old.numbers (alone_here here.now) alone.items is_all }
        ensures cache { OnOk result (HaveGrown (task_for asked.now) self.old self.new) }
        ensures steps { IfOk result (λ successors. AreFirstSuccessors (task_for asked.now) self.new.numbers (node_here here.now)
            successors.steps.items
            successors.is_all) }
    {
        let kept = Sequence::from_vec(alone);
        let steps = struck(asked.alloc, &self.numbers, here.below, kept.as_slice())?;
        let offer = Offer {
            steps: kept,
            is_all,
        };
        self.tops.insert(here.place, offer)?;
        Ok(Successors { steps, is_all })
    }

    /// Returns the first pushes for the gaps of the goal.
    fn pushes_to_goal(
        &mut self,
        asked: &Asked,
        current: &CurrentModel,
        gaps: &[Atom],
    ) -> Result<Successors, MoveErr>
        requires asked { IsAskable asked.now }
        requires cache { AreRight (task_for asked.now) self.old }
        requires part { IsPartAt (task_for asked.now) self.old.numbers current.now.part current.now.model.atoms }
        requires gaps { IsOpenWith asked.now.problem.now (needs_with (task_for asked.now) current.now.model.atoms []) gaps.now }
        ensures cache { OnAnswer result (HaveGrown (task_for asked.now) self.old self.new) }
        ensures steps { IfOk result (λ successors. AreFirstSuccessors (task_for asked.now) self.new.numbers
            (record { model = current.now.model.atoms; stack = [] }) successors.steps.items successors.is_all) }
        ensures limited { IfStopped result (LimitsNode (task_for asked.now) (record { model = current.now.model.atoms; stack = [] })) }
    {
        match self.pushes_offered(asked, current, 0, gaps) {
            Ok(successors) => Ok(successors),
            Err(MoveErr::ShapeLimit(_)) => {
                all_pushes(asked, &mut self.numbers, &current.model, &[], gaps)
            }
            Err(MoveErr::NoMemory) => Err(MoveErr::NoMemory),
        }
    }

    /// Returns the first pushes for the gaps of the top entry. Those over the entry alone are kept. Where a question about these meets the
    /// limit, one about the node's may still not: an entry on its stack isn't asked about.
    fn pushes_over(
        &mut self,
        asked: &Asked,
        here: &Here,
        gaps: &[Atom],
    ) -> Result<Successors, MoveErr>
        requires asked { IsAskable asked.now }
        requires cache { AreRight (task_for asked.now) self.old }
        requires here { IsHere (task_for asked.now) self.old.numbers here.now }
        requires gaps { IsOpenWith asked.now.problem.now (needs_at (task_for asked.now) (node_here here.now)) gaps.now }
        ensures cache { OnAnswer result (HaveGrown (task_for asked.now) self.old self.new) }
        ensures steps { IfOk result (λ successors. AreFirstSuccessors (task_for asked.now) self.new.numbers (node_here here.now)
            successors.steps.items
            successors.is_all) }
        ensures limited { IfStopped result (LimitsNode (task_for asked.now) (node_here here.now)) }
    {
        let alone = self.numbers.pushed(here.place.entry, 0)?;
        match self.pushes_offered(asked, here.current, alone, gaps) {
            Ok(successors) => {
                let over = self.kept_over(asked, here, successors.steps, successors.is_all)?;
                Ok(over)
            }
            Err(MoveErr::ShapeLimit(_)) => {
                all_pushes(
                    asked,
                    &mut self.numbers,
                    &here.current.model,
                    here.stack,
                    gaps,
                )
            }
            Err(MoveErr::NoMemory) => Err(MoveErr::NoMemory),
        }
    }
}
