//! The search, best first.
ghost use Rattle.std.specs.Prelude.{◌≡◌, ◌+◌, ◌<◌, ◌≤◌, ◌∷◌, [], ℕ, Bool, List, length, slice_get, Some, IfOk, IfErr, IsTrue, OnOk};
ghost use Rattle.px_base.specs.Bounds.{u32_max};
ghost use Rattle.px_table.specs.declared.entry.Move.{Move};
ghost use Rattle.px_entries.specs.Unlimited.{IsNeverLimited};
ghost use Rattle.px_numbers.specs.Numbers.{IsKeyOf, KeepsAll};
ghost use Rattle.px_ends.specs.ByValue.{IsFound};
ghost use Rattle.px_ends.specs.Tasks.{Task, initial_node};
ghost use Rattle.px_support.specs.Asking.{IsAskable, task_for};
ghost use Rattle.px_search.specs.Asking.{IsTriedAt};
ghost use Rattle.px_search.specs.Looping.{GoesOn, IsEnd, IsExploring, IsFull, IsGone, IsLimitedAt, IsReached, IsStarted, IsUnexplored, Picked, StopsAt, TriesAt};
ghost use Rattle.px_search.specs.Steps.{AreEarlier, Trace};
ghost use Rattle.px_search.specs.declared.step.Step.{Step};

use crate::cache::Cache;
use crate::current::CurrentModel;
use crate::ends::SearchErr;
use crate::origins::moves_to;
use crate::picker::Picker;
use crate::picks::step_at;
use crate::step::{Origin, Step};
use crate::stop::{Limit, Stop};
use crate::tried::try_node;
use px_diff::MoveErr;
use px_gaps::Tried;
use px_numbers::{FirstNodes, NodeKey, NodeSet, Numbers, node_at};
use px_support::Asked;
use px_table::Move;
use px_terms::{NoMemory, Sequence};
use std::alloc::Global;

/// Returns the node of the initial model.
fn start_key(asked: &Asked, numbers: &mut Numbers) -> Result<NodeKey, NoMemory>
    ensures keeps { KeepsAll numbers.old numbers.new }
    ensures start { IfOk result (λ key. IsKeyOf numbers.new key (initial_node (task_for asked.now))) }
{
    let model = numbers.model_number(asked.alloc, asked.initial)?;
    Ok(NodeKey { model, stack: 0 })
}

/// Returns the moves to the last of the nodes.
fn path_to(
    alloc: Global,
    numbers: &Numbers,
    origins: &Vec<Origin>,
) -> Result<Sequence<Move>, NoMemory>
    requires earlier { AreEarlier origins.now.items }
    requires traced { (found : List (List Move)) × Trace numbers.now origins.now.items found }
    ensures trace { IfOk result (λ path. (found : List (List Move)) → Trace numbers.now origins.now.items found
        → slice_get found (length origins.now.items) ≡ Some path) }
    ensures few { IfOk result (λ path. length path ≤ length origins.now.items) }
{
    let moves = moves_to(alloc, numbers, origins, origins.len())?;
    Ok(Sequence::from_vec(moves))
}

/// Returns how many moves reach the last of the nodes.
fn count_to(alloc: Global, numbers: &Numbers, origins: &Vec<Origin>) -> Result<u32, NoMemory>
    requires earlier { AreEarlier origins.now.items }
    requires traced { (found : List (List Move)) × Trace numbers.now origins.now.items found }
    requires few { length origins.now.items ≤ u32_max }
    ensures { IfOk result (λ count. (moves : List Move) × (count ≡ length moves)
        × ((found : List (List Move)) → Trace numbers.now origins.now.items found
        → slice_get found (length origins.now.items) ≡ Some moves)) }
{
    let path = path_to(alloc, numbers, origins)?;
    Ok(path.len() as u32)
}

/// The nodes that a search has found, and what it keeps.
#[derive(Drop)]
pub struct Explored {
    pub cache: Cache,
    /// The model that was looked at last.
    pub current: CurrentModel,
    /// The nodes, in the order in which they were found.
    pub nodes: NodeSet,
    /// Where all nodes but the first come from, in order.
    pub origins: Vec<Origin>,
    /// What says which of them is gone through next.
    pub picker: Picker,
}

impl Explored {
    /// Makes the move from the node at the place `next`, and keeps the node that it leads to, if that is new.
    fn make_move(&mut self, asked: &Asked, next: usize, step: Step) -> Result<(), Stop>
        requires asked { IsAskable asked.now }
        requires explored { IsExploring (task_for asked.now) self.old }
        requires trying { (picked : List ℕ) × (steps : List Step) × (is_all : Bool) × (i : ℕ)
            × TriesAt (task_for asked.now) self.old picked next steps is_all i × (slice_get steps i ≡ Some step) }
        ensures explored { OnOk result (IsExploring (task_for asked.now) self.new) }
        ensures made { OnOk result ((picked : List ℕ) (steps : List Step) (is_all : Bool) (i : ℕ)
            → TriesAt (task_for asked.now) self.old picked next steps is_all i
            → slice_get steps i ≡ Some step → TriesAt (task_for asked.now) self.new picked next steps is_all (i + 1)) }
        ensures stops { IfErr result (StopsAt (task_for asked.now) self.new) }
    {
        let key = self.nodes.node(next);
        let there = self.cache.after(asked, &self.current, key, step)?;
        self.cache.numbers.sound();
        let count = self.nodes.count();
        let place = self.nodes.intern(there)?;
        if (place as usize) < count {
            return Ok(());
        }
        let origin = Origin {
            parent: next,
            last: step,
        };
        self.origins.push(origin)?;
        if count >= asked.nodes as usize {
            let moves = count_to(asked.alloc, &self.cache.numbers, &self.origins)?;
            return Err(Stop::Full { moves });
        }
        let tried = try_node(asked, &self.cache.numbers, there)?;
        match tried {
            Tried::Answered => Err(Stop::Solved),
            Tried::Unanswered => {
                self.picker
                    .go_on(asked, &self.cache.numbers, origin, there)?;
                Ok(())
            }
            Tried::Limited(met) => Err(Stop::Limited(Limit { key: there, met })),
        }
    }

    /// Makes the moves from the node at the place `next`, from the one at the place `from` on, or those up to the first that stops the
    /// search: it leads to a solved node, to one without room, or to one where the question of the goal meets the limit of shapes.
    fn make_all(
        &mut self,
        asked: &Asked,
        next: usize,
        steps: &Vec<Step>,
        from: usize,
    ) -> Result<(), Stop>
        requires asked { IsAskable asked.now }
        requires explored { IsExploring (task_for asked.now) self.old }
        requires trying { (picked : List ℕ) × (is_all : Bool)
            × TriesAt (task_for asked.now) self.old picked next steps.now.items is_all from }
        requires from { from ≤ length steps.now.items }
        ensures explored { OnOk result (IsExploring (task_for asked.now) self.new) }
        ensures made { OnOk result ((picked : List ℕ) (is_all : Bool)
            → TriesAt (task_for asked.now) self.old picked next steps.now.items is_all from
            → TriesAt (task_for asked.now) self.new picked next steps.now.items is_all (length steps.now.items)) }
        ensures stops { IfErr result (StopsAt (task_for asked.now) self.new) }
    {
        for turn in from..steps.len() {
            let step = step_at(steps, turn);
            self.make_move(asked, next, step)?;
        }
        Ok(())
    }

    // Alike: the head of `top_steps` in moves.rt, by the number of arguments alone.
    /// Makes the moves from the node at the place `next` that come after the first ones, which are as many as `from` and were made, or
    /// those up to the first that stops the search.
    fn make_others(&mut self, asked: &Asked, next: usize, from: usize) -> Result<(), Stop>
        requires asked { IsAskable asked.now }
        requires explored { IsExploring (task_for asked.now) self.old }
        requires trying { (picked : List ℕ) × (steps : List Step) × (is_all : Bool) × (from ≡ length steps)
            × TriesAt (task_for asked.now) self.old picked next steps is_all from }
        ensures explored { OnOk result (IsExploring (task_for asked.now) self.new) }
        ensures gone { OnOk result ((picked : List ℕ) (steps : List Step) (is_all : Bool)
            → from ≡ length steps → TriesAt (task_for asked.now) self.old picked next steps is_all from
            → GoesOn (task_for asked.now) self.new (next ∷ picked)) }
        ensures stops { IfErr result (StopsAt (task_for asked.now) self.new) }
    {
        let key = self.nodes.node(next);
        let steps = match self.cache.all_steps_from(asked, key) {
            Ok(steps) => steps,
            Err(MoveErr::ShapeLimit(_)) => unreachable!(),
            Err(MoveErr::NoMemory) => return Err(Stop::NoMemory),
        };
        self.make_all(asked, next, &steps, from)?;
        Ok(())
    }

    /// Makes all moves from the node at the place `next`, or those up to the first that stops the search. None is made where a question
    /// about them meets the limit of shapes. The moves after the first ones are asked for only where none of these stops the search.
    fn expand(&mut self, asked: &Asked, next: usize) -> Result<(), Stop>
        requires asked { IsAskable asked.now }
        requires explored { IsExploring (task_for asked.now) self.old }
        requires picked { (picked : List ℕ) × Picked (task_for asked.now) self.old picked next }
        requires next { next < length self.old.nodes }
        ensures explored { OnOk result (IsExploring (task_for asked.now) self.new) }
        ensures gone { OnOk result ((picked : List ℕ) → Picked (task_for asked.now) self.old picked next
            → GoesOn (task_for asked.now) self.new (next ∷ picked)) }
        ensures stops { IfErr result (StopsAt (task_for asked.now) self.new) }
    {
        let key = self.nodes.node(next);
        let successors = match self.cache.successors_of(asked, &mut self.current, key) {
            Ok(successors) => successors,
            Err(MoveErr::ShapeLimit(met)) => return Err(Stop::Limited(Limit { key, met })),
            Err(MoveErr::NoMemory) => return Err(Stop::NoMemory),
        };
        self.make_all(asked, next, &successors.steps, 0)?;
        if successors.is_all {
            return Ok(());
        }
        self.make_others(asked, next, successors.steps.len())?;
        Ok(())
    }

    /// Expands the nodes as they are picked, until none is left or the search stops.
    fn walk(&mut self, asked: &Asked) -> Result<(), Stop>
        requires asked { IsAskable asked.now }
        requires explored { IsExploring (task_for asked.now) self.old }
        requires going { GoesOn (task_for asked.now) self.old [] }
        ensures gone { OnOk result (IsGone (task_for asked.now) self.new) }
        ensures stops { IfErr result (StopsAt (task_for asked.now) self.new) }
    {
        let mut picks: u32 = 0;
        while let Some(place) = self.picker.pick(self.nodes.count()) {
            self.expand(asked, place)?;
            picks += 1;
        }
        Ok(())
    }
}

impl Explored {
    /// Returns the nodes of a search with this weight that has found nothing yet.
    pub fn new(alloc: Global, weight: u32, is_never_limited: bool) -> Explored
        ensures { (task : Task) → task.problem.weight ≡ weight
            → (IsTrue is_never_limited → IsNeverLimited task.problem task.tables) → IsUnexplored task result }
    {
        let cache = Cache::new(alloc, is_never_limited);
        let current = CurrentModel::new(alloc);
        let nodes = NodeSet::new(alloc);
        let origins = Vec::new(alloc);
        let picker = Picker::new(alloc, weight);
        Explored {
            cache,
            current,
            nodes,
            origins,
            picker,
        }
    }

    /// Expands the nodes from the start on, which isn't solved.
    fn walk_from(&mut self, asked: &Asked, start: NodeKey) -> Result<(), Stop>
        requires asked { IsAskable asked.now }
        requires explored { IsExploring (task_for asked.now) self.old }
        requires start { IsStarted (task_for asked.now) self.old start }
        requires tried { IsTriedAt (task_for asked.now) (initial_node (task_for asked.now)) Tried.Unanswered }
        ensures gone { OnOk result (IsGone (task_for asked.now) self.new) }
        ensures stops { IfErr result (StopsAt (task_for asked.now) self.new) }
    {
        self.picker.start(asked, &self.cache.numbers, start)?;
        self.walk(asked)
    }

    /// Expands the nodes from the initial one on, until none is left or the search stops.
    pub fn explore(&mut self, asked: &Asked) -> Result<(), Stop>
        requires asked { IsAskable asked.now }
        requires explored { IsUnexplored (task_for asked.now) self.old }
        ensures gone { OnOk result (IsGone (task_for asked.now) self.new) }
        ensures stops { IfErr result (StopsAt (task_for asked.now) self.new) }
    {
        let start = start_key(asked, &mut self.cache.numbers)?;
        self.nodes.intern(start)?;
        let tried = try_node(asked, &self.cache.numbers, start)?;
        match tried {
            Tried::Answered => Err(Stop::Solved),
            Tried::Unanswered => self.walk_from(asked, start),
            Tried::Limited(met) => Err(Stop::Limited(Limit { key: start, met })),
        }
    }

    /// Returns the end where a question meets the limit.
    fn shape_limit(&self, asked: &Asked, limit: Limit) -> SearchErr
        requires limited { IsLimitedAt (task_for asked.now) self.now.cache.numbers self.now.nodes self.now.origins.items limit }
        ensures { IsEnd (task_for asked.now) result }
    {
        let Limit { key, met } = limit;
        match node_at(asked.alloc, &self.cache.numbers, key) {
            Ok(node) => SearchErr::ShapeLimit { node, limit: met },
            Err(_) => SearchErr::NoMemory,
        }
    }

    /// Returns the end where there is no room for the last node, which this number of moves reaches.
    fn node_limit(self, asked: &Asked, moves: u32) -> SearchErr
        requires full { IsFull (task_for asked.now) self.cache.numbers self.nodes self.origins.items moves }
        ensures { IsEnd (task_for asked.now) result }
    {
        let Explored { cache, nodes, .. } = self;
        let Cache { numbers, .. } = cache;
        let firsts = FirstNodes::new(numbers, nodes, asked.nodes as usize);
        SearchErr::NodeLimit {
            nodes: firsts,
            moves,
        }
    }

    /// Returns the moves to the last node, which is solved.
    fn path(&self, asked: &Asked) -> Result<Sequence<Move>, NoMemory>
        requires reached { IsReached (task_for asked.now) self.now.cache.numbers self.now.nodes self.now.origins.items }
        ensures { IfOk result (IsFound (task_for asked.now) asked.now.problem.now.weight) }
    {
        path_to(asked.alloc, &self.cache.numbers, &self.origins)
    }
}

/// Searches for a plan, best first: the moves to the first solved node. `is_never_limited` is whether it is known that no question about
/// an entry meets the limit of shapes, whatever the facts are.
///
/// # Errors
/// Those of `SearchErr`.
pub fn found_by_moves(asked: &Asked, is_never_limited: bool) -> Result<Sequence<Move>, SearchErr>
    requires asked { IsAskable asked.now }
    requires never_limited { IsTrue is_never_limited → IsNeverLimited asked.now.problem.now asked.now.tables.now }
    ensures found { IfOk result (IsFound (task_for asked.now) asked.now.problem.now.weight) }
    ensures ends { IfErr result (IsEnd (task_for asked.now)) }
{
    let mut explored = Explored::new(asked.alloc, asked.problem.weight, is_never_limited);
    // `drop` is called by name: at the end of a block the drop of all its maps would be a part of this function's proof.
    match explored.explore(asked) {
        Ok(()) => {
            drop(explored);
            Err(SearchErr::Exhausted)
        }
        Err(Stop::Solved) => {
            let moves = explored.path(asked);
            drop(explored);
            Ok(moves?)
        }
        Err(Stop::Full { moves }) => Err(explored.node_limit(asked, moves)),
        Err(Stop::Limited(limit)) => {
            let end = explored.shape_limit(asked, limit);
            drop(explored);
            Err(end)
        }
        Err(Stop::NoMemory) => {
            drop(explored);
            Err(SearchErr::NoMemory)
        }
    }
}
