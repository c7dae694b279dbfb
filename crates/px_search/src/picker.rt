//! Which of the found nodes the search goes on from next.
ghost use Rattle.std.specs.Prelude.{◌≡◌, ◌<◌, ◌++◌, ◌∷◌, [], ℕ, List, Some, length, slice_get, Contains, IfSome, IfNone, OnOk};
ghost use Rattle.px_table.specs.declared.entry.Move.{Move};
ghost use Rattle.px_order.specs.Runs.{Comes, IsNext};
ghost use Rattle.px_numbers.specs.Numbers.{IsKeyOf, Kept};
ghost use Rattle.px_ends.specs.ByValue.{space_of};
ghost use Rattle.px_ends.specs.Tasks.{Task, initial_node};
ghost use Rattle.px_support.specs.Asking.{IsAskable, task_for};
ghost use Rattle.px_search.specs.Picking.{AreWithin, IsFirstPicker, IsFirstRanking, IsOnward, IsPickerOf, IsPut, IsRanking};
ghost use Rattle.px_search.specs.Searching.{order_of};

use crate::estimates::{Estimates, narrowed, sum};
use crate::step::Origin;
use px_numbers::{NodeKey, Numbers};
use px_order::{Agenda, value_of};
use px_support::Asked;
use px_terms::NoMemory;
use std::alloc::Global;

/// What was reckoned of a found node.
#[derive(Clone, Copy)]
pub struct Reckoned {
    /// How much it lacks.
    pub needs: u32,
    /// How many moves it was found by.
    pub moves: u32,
}

/// The nodes by their values.
#[derive(Drop)]
pub struct Ranking {
    /// The places that weren't picked yet.
    pub agenda: Agenda,
    /// What was reckoned of each found node, in the order in which they were found.
    pub reckoned: Vec<Reckoned>,
    /// What was counted on the way.
    pub estimates: Estimates,
}

/// What says which place is picked next.
#[derive(Drop)]
pub enum Picker {
    /// Without a weight, places are picked as they were found. Nothing is reckoned.
    InOrder {
        /// The place that is picked next.
        next: usize,
    },
    /// With a weight, the place of the least value is.
    ByValue(Ranking),
}

/// Returns what was reckoned of the node at the place.
fn reckoned_at(reckoned: &Vec<Reckoned>, place: usize) -> Reckoned
    requires { place < length reckoned.now.items }
    ensures { slice_get reckoned.now.items place ≡ Some result }
{
    reckoned[place]
}

impl Ranking {
    /// Returns the ranking of no nodes.
    fn new(alloc: Global) -> Ranking
        ensures { (task : Task) → IsFirstRanking task result }
    {
        let agenda = Agenda::new(alloc);
        let reckoned = Vec::new(alloc);
        let estimates = Estimates::new(alloc);
        Ranking {
            agenda,
            reckoned,
            estimates,
        }
    }

    /// Puts the node behind those that were found before.
    fn put(&mut self, weight: u32, node: Reckoned) -> Result<(), NoMemory>
        ensures { OnOk result (IsPut weight node self.old self.new) }
    {
        let place = narrowed(self.reckoned.len())?;
        let value = value_of(node.moves as u64, node.needs as u64, weight as u64).ok_or(NoMemory)?;
        self.reckoned.push(node)?;
        self.agenda.add(value, place)
    }

    /// Puts the first node.
    fn start(&mut self, asked: &Asked, numbers: &Numbers, key: NodeKey) -> Result<(), NoMemory>
        requires asked { IsAskable asked.now }
        requires first { IsFirstRanking (task_for asked.now) self.old }
        requires node { IsKeyOf numbers.now key (initial_node (task_for asked.now)) }
        ensures { OnOk result (IsRanking (task_for asked.now) numbers.now ([] ∷ []) [] self.new) }
    {
        let needs = self.estimates.needs(asked, numbers, key)?;
        self.put(asked.problem.weight, Reckoned { needs, moves: 0 })
    }

    /// Puts the node that was found from another, as the origin says.
    fn go_on(
        &mut self,
        asked: &Asked,
        numbers: &Numbers,
        origin: Origin,
        there: NodeKey,
    ) -> Result<(), NoMemory>
        requires asked { IsAskable asked.now }
        requires onward { (found : List (List Move)) × (picked : List ℕ) × (moves : List Move)
            × IsRanking (task_for asked.now) numbers.now found picked self.old
            × IsOnward (task_for asked.now) numbers.now found origin there moves }
        ensures { OnOk result ((found : List (List Move)) (picked : List ℕ) (moves : List Move)
            → IsRanking (task_for asked.now) numbers.now found picked self.old
            → IsOnward (task_for asked.now) numbers.now found origin there moves → AreWithin found picked
            → IsRanking (task_for asked.now) numbers.now (found ++ moves ∷ []) picked self.new) }
    {
        let parent = reckoned_at(&self.reckoned, origin.parent);
        let needs = self
            .estimates
            .needs_after(asked, numbers, parent.needs, origin.last, there)?;
        let moves = sum(parent.moves, 1)?;
        self.put(asked.problem.weight, Reckoned { needs, moves })
    }
}

impl Picker {
    /// Returns the picker of a search that has found nothing yet.
    pub fn new(alloc: Global, weight: u32) -> Picker
        ensures { (task : Task) → task.problem.weight ≡ weight → IsFirstPicker task result }
    {
        if weight == 0 {
            return Picker::InOrder { next: 0 };
        }
        Picker::ByValue(Ranking::new(alloc))
    }

    /// Puts the first node.
    pub fn start(&mut self, asked: &Asked, numbers: &Numbers, key: NodeKey) -> Result<(), NoMemory>
        requires asked { IsAskable asked.now }
        requires first { IsFirstPicker (task_for asked.now) self.old }
        requires node { IsKeyOf numbers.now key (initial_node (task_for asked.now)) }
        ensures { OnOk result (IsPickerOf (task_for asked.now) numbers.now ([] ∷ []) [] self.new) }
    {
        match self {
            Picker::InOrder { .. } => Ok(()),
            Picker::ByValue(ranking) => ranking.start(asked, numbers, key),
        }
    }

    /// Puts the node that was found from another, as the origin says.
    pub fn go_on(
        &mut self,
        asked: &Asked,
        numbers: &Numbers,
        origin: Origin,
        there: NodeKey,
    ) -> Result<(), NoMemory>
        requires asked { IsAskable asked.now }
        requires onward { (found : List (List Move)) × (picked : List ℕ) × (moves : List Move)
            × IsPickerOf (task_for asked.now) numbers.now found picked self.old
            × IsOnward (task_for asked.now) numbers.now found origin there moves }
        ensures { OnOk result ((found : List (List Move)) (picked : List ℕ) (moves : List Move)
            → IsPickerOf (task_for asked.now) numbers.now found picked self.old
            → IsOnward (task_for asked.now) numbers.now found origin there moves → AreWithin found picked
            → IsPickerOf (task_for asked.now) numbers.now (found ++ moves ∷ []) picked self.new) }
    {
        match self {
            Picker::InOrder { .. } => Ok(()),
            Picker::ByValue(ranking) => ranking.go_on(asked, numbers, origin, there),
        }
    }

    /// Returns the place that is picked next, where there are this many. `None` where all were picked.
    pub fn pick(&mut self, found: usize) -> Option<usize>
        ensures next { IfSome result (λ place. (task : Task) (kept : Kept) (lists : List (List Move)) (picked : List ℕ)
            → IsPickerOf task kept lists picked self.old → length lists ≡ found → Comes (space_of task) (order_of task) lists picked
            → IsNext (space_of task) (order_of task) lists picked place) }
        ensures left { IfSome result (λ place. (task : Task) (kept : Kept) (lists : List (List Move)) (picked : List ℕ)
            → IsPickerOf task kept lists picked self.old → IsPickerOf task kept lists (place ∷ picked) self.new) }
        ensures over { IfNone result ((task : Task) (kept : Kept) (lists : List (List Move)) (picked : List ℕ)
            → IsPickerOf task kept lists picked self.old → length lists ≡ found
            → (k : ℕ) (moves : List Move) → slice_get lists k ≡ Some moves → Contains picked k) }
    {
        match self {
            Picker::InOrder { next } => {
                if *next < found {
                    let place = *next;
                    *next += 1;
                    Some(place)
                } else {
                    None
                }
            }
            Picker::ByValue(ranking) => match ranking.agenda.pick() {
                Some((_, place)) => Some(place as usize),
                None => None,
            },
        }
    }
}
