//! The tree of a search.
ghost use Rattle.std.specs.Prelude.{◌≡◌, ◌<◌, ◌≤◌, List, length, slice_get, take, All, Some, Err, IfOk, IfErr, IsTrue, OnOk};
ghost use Rattle.px_terms.specs.Limits.{most_formula_variables, most_nodes};
ghost use Rattle.px_terms.specs.Validity.{IsAtomOf, IsValid};
ghost use Rattle.px_table.specs.declared.entry.Move.{Move};
ghost use Rattle.px_table.specs.declared.node.Node.{Node};
ghost use Rattle.px_entries.specs.Entries.{IsEntry};
ghost use Rattle.px_entries.specs.Learned.{AreLearned};
ghost use Rattle.px_entries.specs.Unlimited.{IsNeverLimited};
ghost use Rattle.px_numbers.specs.Numbers.{IsKeyOf};
ghost use Rattle.px_ends.specs.Tasks.{IsAllowed, task_with};
ghost use Rattle.px_support.specs.Asking.{IsAskable, task_for};
ghost use Rattle.px_search.specs.Estimating.{AreCounted};
ghost use Rattle.px_search.specs.Looping.{AreFound, EndsAs, IsUnexplored};
ghost use Rattle.px_search.specs.Steps.{DescribesMove};
ghost use Rattle.px_search.specs.declared.stop.Stop.TheVariants.{NoMemory as OutOfMemory};
ghost use Rattle.px_ends.specs.Trees.{IsTree, TellsMove, TellsNode, TellsNodes, entry_told, table_in};

use crate::best_first::Explored;
use crate::effects::effect;
use crate::estimates::Estimates;
use crate::origins::origin_at;
use crate::step::{Origin, Step};
use crate::stop::Stop;
use px_base::push;
use px_entries::never_limited;
use px_numbers::{NodeKey, Numbers};
use px_ops::Model;
use px_support::Asked;
use px_table::{Entry, Table};
use px_terms::{Atom, NoMemory, Problem, Sequence};
use px_tree::{MoveKind, Tree, TreeEnd, TreeMove, TreeNode, TreeOrigin};
use std::alloc::Global;

/// Returns how a search ended that came to this, where this many shapes are the limit. `NoMemory` says that memory ran out in the search.
/// Does not allocate.
fn end_of(shapes: u32, came_to: Result<(), Stop>) -> Result<TreeEnd, NoMemory>
    ensures end { IfOk result (EndsAs shapes came_to) }
    ensures no_memory { IfErr result (λ e. came_to ≡ Err OutOfMemory) }
{
    match came_to {
        Ok(()) => Ok(TreeEnd::Exhausted),
        Err(Stop::Solved) => Ok(TreeEnd::Solved),
        Err(Stop::Full { moves }) => Ok(TreeEnd::More { moves }),
        Err(Stop::Limited(_)) => Ok(TreeEnd::ShapeLimit { shapes }),
        Err(Stop::NoMemory) => Err(NoMemory),
    }
}

/// Returns the learned table of which the entry has the first steps.
fn table_of(entry: &Entry) -> Option<u32>
    ensures { result ≡ table_in entry.now }
{
    match entry {
        Entry::Op(_) => None,
        Entry::Macro { number, .. } => Some(*number),
    }
}

/// Returns the entry as a tree tells it, with what is done with it.
fn tree_move(asked: &Asked, kind: MoveKind, entry: &Entry) -> Result<TreeMove, NoMemory>
    requires asked { IsAskable asked.now }
    requires entry { IsEntry asked.now.problem.now asked.now.tables.now entry.now }
    ensures { IfOk result (λ told. told ≡ entry_told (task_for asked.now) kind entry.now) }
{
    let steps = effect(asked, entry)?;
    let table = table_of(entry);
    Ok(TreeMove {
        kind,
        table,
        steps: Sequence::from_vec(steps),
    })
}

/// Returns what the move does that is made at the node.
fn move_at(asked: &Asked, numbers: &Numbers, key: NodeKey, step: Step) -> Result<TreeMove, NoMemory>
    requires asked { IsAskable asked.now }
    requires made { (node : Node) × (m : Move) × IsKeyOf numbers.now key node × DescribesMove numbers.now step m
        × IsAllowed (task_for asked.now) node m × All (IsEntry asked.now.problem.now asked.now.tables.now) node.stack }
    ensures { IfOk result (λ told. (node : Node) (m : Move) → IsKeyOf numbers.now key node → DescribesMove numbers.now step m
        → TellsMove (task_for asked.now) node m told) }
{
    match step {
        Step::Push(entry) => {
            let pushed = tree_move(asked, MoveKind::Push, numbers.entry(entry))?;
            Ok(pushed)
        }
        Step::Apply => {
            let Some(frame) = numbers.top(key.stack) else {
                unreachable!()
            };
            let applied = tree_move(asked, MoveKind::Apply, numbers.entry(frame.entry))?;
            Ok(applied)
        }
    }
}

/// Returns the node at the place, and adds to what is counted.
fn tree_node(
    asked: &Asked,
    explored: &Explored,
    estimates: &mut Estimates,
    place: usize,
) -> Result<TreeNode, NoMemory>
    requires asked { IsAskable asked.now }
    requires numbered { (found : List (List Move)) × AreFound (task_for asked.now) explored.now found }
    requires place { place < length explored.now.nodes }
    requires counted { AreCounted (task_for asked.now) explored.now.cache.numbers estimates.old }
    ensures counted { OnOk result (AreCounted (task_for asked.now) explored.now.cache.numbers estimates.new) }
    ensures node { IfOk result (λ node. (found : List (List Move)) (moves : List Move) → AreFound (task_for asked.now) explored.now found
        → slice_get found place ≡ Some moves → TellsNode (task_for asked.now) (take place found) moves node) }
{
    let key = explored.nodes.node(place);
    let numbers = &explored.cache.numbers;
    let needs = estimates.needs(asked, numbers, key)?;
    if place == 0 {
        return Ok(TreeNode {
            origin: None,
            needs,
        });
    }
    let Origin { parent, last } = origin_at(&explored.origins, place - 1);
    let last = move_at(asked, numbers, explored.nodes.node(parent), last)?;
    Ok(TreeNode {
        origin: Some(TreeOrigin { parent, last }),
        needs,
    })
}

/// Returns the first nodes, as many as `count`.
fn tree_nodes(asked: &Asked, explored: &Explored, count: usize) -> Result<Vec<TreeNode>, NoMemory>
    requires asked { IsAskable asked.now }
    requires numbered { (found : List (List Move)) × AreFound (task_for asked.now) explored.now found }
    requires count { count ≤ length explored.now.nodes }
    ensures count { IfOk result (λ nodes. length nodes.items ≡ count) }
    ensures nodes { IfOk result (λ nodes. (found : List (List Move)) → AreFound (task_for asked.now) explored.now found
        → TellsNodes (task_for asked.now) found nodes.items) }
{
    let mut estimates = Estimates::new(asked.alloc);
    let mut nodes = Vec::new(asked.alloc);
    for place in 0..count {
        let node = tree_node(asked, explored, &mut estimates, place)?;
        push(&mut nodes, node)?;
    }
    Ok(nodes)
}

impl Explored {
    /// Searches from the initial model, and returns the tree.
    fn tree(&mut self, asked: &Asked) -> Result<Tree, NoMemory>
        requires asked { IsAskable asked.now }
        requires explored { IsUnexplored (task_for asked.now) self.old }
        ensures { IfOk result (IsTree (task_for asked.now) asked.now.problem.now.weight) }
    {
        let came_to = self.explore(asked);
        let end = end_of(asked.problem.shapes, came_to)?;
        let count = self.nodes.count().min(asked.nodes as usize);
        let nodes = tree_nodes(asked, self, count)?;
        Ok(Tree {
            nodes: Sequence::from_vec(nodes),
            end,
        })
    }
}

/// Searches, and returns the tree. `is_never_limited` is whether it is known that no question about an entry meets the limit of shapes,
/// whatever the facts are.
fn tree_for(asked: &Asked, is_never_limited: bool) -> Result<Tree, NoMemory>
    requires asked { IsAskable asked.now }
    requires never_limited { IsTrue is_never_limited → IsNeverLimited asked.now.problem.now asked.now.tables.now }
    ensures { IfOk result (IsTree (task_for asked.now) asked.now.problem.now.weight) }
{
    let mut explored = Explored::new(asked.alloc, asked.problem.weight, is_never_limited);
    let tree = explored.tree(asked);
    drop(explored);
    tree
}

// Alike: `search`, since each asks the same of the problem and its goal.
/// Searches as `search` does, but with room for this many nodes, and returns the tree of the search: the nodes that were found, and how the
/// search ended.
///
/// # Errors
/// `NoMemory` where there is no memory for the search or its tree.
pub fn search_tree(
    alloc: Global,
    problem: &Problem,
    nodes: u32,
    initial: &Model,
    goal: &[Atom],
    variable_count: u32,
    tables: &[Table],
) -> Result<Tree, NoMemory>
    requires problem { IsValid problem.now }
    requires nodes { (1 ≤ nodes) × (nodes ≤ most_nodes) }
    requires goal { All (IsAtomOf problem.now variable_count) goal.now }
    requires few_variables { variable_count ≤ most_formula_variables }
    requires some_object { 0 < variable_count → 0 < problem.now.objects }
    requires tables { AreLearned problem.now tables.now }
    ensures { IfOk result (IsTree (task_with problem.now nodes tables.now initial.now.atoms goal.now variable_count) problem.now.weight) }
{
    let asked = Asked {
        alloc,
        problem,
        nodes,
        tables,
        initial,
        goal,
        variable_count,
    };
    let is_never_limited = never_limited(alloc, problem, tables)?;
    tree_for(&asked, is_never_limited)
}
