//! The pushes for wanted atoms over the empty stack, and over a node's.
ghost use Rattle.std.specs.Prelude.{◌≡◌, ◌∷◌, List, [], IfOk, IfSome};
ghost use Rattle.px_terms.specs.AtomSets.{IsAtomSet};
ghost use Rattle.px_table.specs.declared.entry.Entry.{Entry};
ghost use Rattle.px_gaps.specs.Known.{IsOpenWith};
ghost use Rattle.px_diff.specs.Stacks.{AreUnlimitedOver};
ghost use Rattle.px_numbers.specs.Numbers.{IsStackAt};
ghost use Rattle.px_ends.specs.Tasks.{needs_with};
ghost use Rattle.px_support.specs.Asking.{IsAskable, task_for};
ghost use Rattle.px_search.specs.Going.{AreFirstSuccessors};
ghost use Rattle.px_search.specs.Cache.{AreRight, HaveGrown, OnAnswer};
ghost use Rattle.px_search.specs.Offers.{AreFirstOffers, IsOffered, IsOfferedWhole, IsPartAt};

use crate::cache::{Cache, Offer, Want};
use crate::current::CurrentModel;
use crate::merging::merged;
use crate::picks::{numbered, struck};
use crate::step::Step;
use crate::successors::Successors;
use px_diff::{
    First, MoveErr, relevance_over_models, relevance_over_stacks, relevant, relevant_first,
};
use px_ops::Model;
use px_support::Asked;
use px_terms::{Atom, NoMemory, Sequence};
use std::alloc::Global;

/// Returns a copy of what is kept.
fn copy_of(alloc: Global, offer: &Offer) -> Result<Successors, NoMemory>
    ensures steps { IfOk result (λ copy. copy.steps.items ≡ offer.now.steps) }
    ensures is_all { IfOk result (λ copy. copy.is_all ≡ offer.now.is_all) }
{
    let mut steps = Vec::new(alloc);
    steps.extend_from_slice(offer.steps.as_slice())?;
    Ok(Successors {
        steps,
        is_all: offer.is_all,
    })
}

/// The most first moves of a node that are found before the others are asked for.
const MOST_FIRST: u32 = 50_000;

/// Returns how many first moves of a node are found before the others are asked for: as many as there may be room for, and no more than
/// `MOST_FIRST`.
fn enough_of(asked: &Asked) -> usize {
    if asked.nodes < MOST_FIRST {
        asked.nodes as usize
    } else {
        MOST_FIRST as usize
    }
}

/// Returns all entries that may be pushed for one of the atoms over the empty stack, in order.
fn all_entries_for(asked: &Asked, model: &Model, wanted: &[Atom]) -> Result<First, MoveErr>
    requires asked { IsAskable asked.now }
    ensures first { IfOk result (λ first. AreFirstOffers (task_for asked.now) model.now.atoms wanted.now first.entries.items first.is_all) }
    ensures unlimited { IfOk result (λ first. AreUnlimitedOver asked.now.problem.now asked.now.tables.now wanted.now model.now.atoms []) }
{
    match relevant(asked.alloc, asked.problem, wanted, &[], model, asked.tables) {
        Ok(entries) => Ok(First {
            entries,
            is_all: true,
        }),
        Err(error) => Err(error),
    }
}

impl Cache {
    /// Returns the first of the entries that may be pushed for one of the atoms over the empty stack, in order: as many as a node may have
    /// room for.
    fn entries_for(&self, asked: &Asked, model: &Model, wanted: &[Atom]) -> Result<First, MoveErr>
        requires asked { IsAskable asked.now }
        requires cache { AreRight (task_for asked.now) self.now }
        requires model { IsAtomSet model.now.atoms }
        ensures first { IfOk result (λ first. AreFirstOffers (task_for asked.now) model.now.atoms wanted.now first.entries.items
            first.is_all) }
        ensures unlimited { IfOk result (λ first. AreUnlimitedOver asked.now.problem.now asked.now.tables.now wanted.now model.now.atoms
            []) }
    {
        if self.is_never_limited {
            let enough = enough_of(asked);
            let first = relevant_first(
                asked.alloc,
                asked.problem,
                wanted,
                model,
                asked.tables,
                enough,
            )?;
            return Ok(first);
        }
        all_entries_for(asked, model, wanted)
    }

    /// Returns the first pushes for one of the atoms over the empty stack, which are found for all atoms at once, and aren't kept.
    fn offered_anew(
        &mut self,
        asked: &Asked,
        model: &Model,
        wanted: &[Atom],
    ) -> Result<Successors, MoveErr>
        requires asked { IsAskable asked.now }
        requires cache { AreRight (task_for asked.now) self.old }
        requires model { IsAtomSet model.now.atoms }
        ensures cache { OnAnswer result (HaveGrown (task_for asked.now) self.old self.new) }
        ensures steps { IfOk result (λ successors. IsOffered (task_for asked.now) self.new.numbers model.now.atoms wanted.now
            successors.steps.items
            successors.is_all) }
    {
        let first = match self.entries_for(asked, model, wanted) {
            Ok(first) => first,
            Err(error) => return Err(error),
        };
        let steps = numbered(asked.alloc, &mut self.numbers, &first.entries)?;
        let is_all = first.is_all;
        Ok(Successors { steps, is_all })
    }

    // Alike: `offer` below, which promises the same and finds only what isn't kept.
    /// Returns the first pushes for the atom, after finding and keeping them.
    fn offer_anew(
        &mut self,
        asked: &Asked,
        current: &CurrentModel,
        want: &Want,
    ) -> Result<Successors, MoveErr>
        requires asked { IsAskable asked.now }
        requires cache { AreRight (task_for asked.now) self.old }
        requires part { IsPartAt (task_for asked.now) self.old.numbers want.now.part current.now.model.atoms }
        ensures cache { OnAnswer result (HaveGrown (task_for asked.now) self.old self.new) }
        ensures steps { IfOk result (λ successors. IsOffered (task_for asked.now) self.new.numbers current.now.model.atoms
            (want.now.atom ∷ [])
            successors.steps.items successors.is_all) }
    {
        let successors = match self.offered_anew(asked, &current.model, &[want.atom]) {
            Ok(successors) => successors,
            Err(error) => return Err(error),
        };
        let steps = Sequence::from_slice(asked.alloc, successors.steps.as_slice())?;
        let offer = Offer {
            steps,
            is_all: successors.is_all,
        };
        relevance_over_models();
        match self.wants.insert(*want, offer) {
            Ok(_) => Ok(successors),
            Err(_) => Err(MoveErr::NoMemory),
        }
    }

    /// Returns the first pushes for the atom, as they are kept, or found and then kept.
    fn offer(
        &mut self,
        asked: &Asked,
        current: &CurrentModel,
        want: &Want,
    ) -> Result<Successors, MoveErr>
        requires asked { IsAskable asked.now }
        requires cache { AreRight (task_for asked.now) self.old }
        requires part { IsPartAt (task_for asked.now) self.old.numbers want.now.part current.now.model.atoms }
        ensures cache { OnAnswer result (HaveGrown (task_for asked.now) self.old self.new) }
        ensures steps { IfOk result (λ successors. IsOffered (task_for asked.now) self.new.numbers current.now.model.atoms
            (want.now.atom ∷ [])
            successors.steps.items successors.is_all) }
    {
        match self.wants.get(want) {
            Some(offer) => {
                let copy = copy_of(asked.alloc, offer)?;
                Ok(copy)
            }
            None => self.offer_anew(asked, current, want),
        }
    }

    /// Returns all pushes for the atom over the empty stack, in order, by what is kept for it; or `None` where that isn't all.
    fn offered_for(
        &mut self,
        asked: &Asked,
        current: &CurrentModel,
        atom: Atom,
    ) -> Result<Option<Vec<Step>>, MoveErr>
        requires asked { IsAskable asked.now }
        requires cache { AreRight (task_for asked.now) self.old }
        requires part { IsPartAt (task_for asked.now) self.old.numbers current.now.part current.now.model.atoms }
        ensures cache { OnAnswer result (HaveGrown (task_for asked.now) self.old self.new) }
        ensures whole { IfOk result (λ whole. IfSome whole (λ steps. IsOfferedWhole (task_for asked.now) self.new.numbers
            current.now.model.atoms (atom ∷ []) steps.items)) }
    {
        let part = current.part;
        let want = Want { part, atom };
        let successors = match self.offer(asked, current, &want) {
            Ok(successors) => successors,
            Err(error) => return Err(error),
        };
        if !successors.is_all {
            return Ok(None);
        }
        Ok(Some(successors.steps))
    }

    /// Returns all pushes for one of the atoms over the empty stack, in order, by what is kept for each of them; or `None` where that
    /// isn't all, or where they are many. Each recursive call has half of the atoms, so that a push is compared in few joins.
    fn offered_each(
        &mut self,
        asked: &Asked,
        current: &CurrentModel,
        gaps: &[Atom],
    ) -> Result<Option<Vec<Step>>, MoveErr>
        requires asked { IsAskable asked.now }
        requires cache { AreRight (task_for asked.now) self.old }
        requires part { IsPartAt (task_for asked.now) self.old.numbers current.now.part current.now.model.atoms }
        ensures cache { OnAnswer result (HaveGrown (task_for asked.now) self.old self.new) }
        ensures whole { IfOk result (λ whole. IfSome whole (λ steps. IsOfferedWhole (task_for asked.now) self.new.numbers
            current.now.model.atoms gaps.now steps.items)) }
    {
        if gaps.len() == 0 {
            return Ok(Some(Vec::new(asked.alloc)));
        }
        if gaps.len() == 1 {
            return self.offered_for(asked, current, gaps[0]);
        }
        let half = gaps.len() / 2;
        let before = match self.offered_each(asked, current, &gaps[..half]) {
            Ok(before) => before,
            Err(error) => return Err(error),
        };
        let Some(first) = before else {
            return Ok(None);
        };
        if first.len() >= enough_of(asked) {
            return Ok(None);
        }
        let after = match self.offered_each(asked, current, &gaps[half..]) {
            Ok(after) => after,
            Err(error) => return Err(error),
        };
        let Some(second) = after else {
            return Ok(None);
        };
        let steps = merged(asked.alloc, &self.numbers, &first, &second)?;
        Ok(Some(steps))
    }

    /// Returns the first pushes for one of the atoms over the empty stack, in order.
    fn offered(
        &mut self,
        asked: &Asked,
        current: &CurrentModel,
        gaps: &[Atom],
    ) -> Result<Successors, MoveErr>
        requires asked { IsAskable asked.now }
        requires cache { AreRight (task_for asked.now) self.old }
        requires part { IsPartAt (task_for asked.now) self.old.numbers current.now.part current.now.model.atoms }
        ensures cache { OnAnswer result (HaveGrown (task_for asked.now) self.old self.new) }
        ensures steps { IfOk result (λ successors. IsOffered (task_for asked.now) self.new.numbers current.now.model.atoms gaps.now
            successors.steps.items successors.is_all) }
    {
        if gaps.len() == 1 {
            let want = Want {
                part: current.part,
                atom: gaps[0],
            };
            return self.offer(asked, current, &want);
        }
        let each = match self.offered_each(asked, current, gaps) {
            Ok(each) => each,
            Err(error) => return Err(error),
        };
        match each {
            None => self.offered_anew(asked, &current.model, gaps),
            Some(steps) => Ok(Successors {
                steps,
                is_all: true,
            }),
        }
    }

    /// Returns the first pushes of the node with the current model and the stack of this number, and these gaps, in order.
    ///
    /// # Errors
    /// `ShapeLimit` where a question meets the limit about an entry that may be relevant over the empty stack: this says nothing of the
    /// node's own questions. `NoMemory` where there is no memory.
    pub fn pushes_offered(
        &mut self,
        asked: &Asked,
        current: &CurrentModel,
        stack: u32,
        gaps: &[Atom],
    ) -> Result<Successors, MoveErr>
        requires asked { IsAskable asked.now }
        requires cache { AreRight (task_for asked.now) self.old }
        requires part { IsPartAt (task_for asked.now) self.old.numbers current.now.part current.now.model.atoms }
        requires stack { (entries : List Entry) × IsStackAt self.old.numbers stack entries }
        ensures cache { OnAnswer result (HaveGrown (task_for asked.now) self.old self.new) }
        ensures successors { IfOk result (λ successors. (entries : List Entry) → IsStackAt self.old.numbers stack entries
            → IsOpenWith asked.now.problem.now (needs_with (task_for asked.now) current.now.model.atoms entries) gaps.now
            → AreFirstSuccessors (task_for asked.now) self.new.numbers (record { model = current.now.model.atoms; stack = entries })
            successors.steps.items
            successors.is_all) }
    {
        let successors = match self.offered(asked, current, gaps) {
            Ok(successors) => successors,
            Err(error) => return Err(error),
        };
        let steps = struck(
            asked.alloc,
            &self.numbers,
            stack,
            successors.steps.as_slice(),
        )?;
        let is_all = successors.is_all;
        relevance_over_stacks();
        Ok(Successors { steps, is_all })
    }
}
