//! Trees of searches in the rooms, where a box is to be in room 1.
ghost use Rattle.std.specs.Prelude.{◌≤◌};
ghost use Rattle.px_terms.specs.Limits.{most_nodes};
ghost use Rattle.px_terms.specs.Validity.{IsValid};

use crate::samples::{learned, rooms_within, weighted_rooms};
use px_entries::are_learned;
use px_samples::{ROBOT, box_in_first_room, is_box, opening};
use px_search::search_tree;
use px_table::Table;
use px_terms::{Atom, Problem, are_atoms_of};
use px_tree::{MoveKind, Tree, TreeEnd, TreeNode};
use std::alloc::Global;
use std::process::Abort;
use std::rt::HostRuntime;

/// Returns the tree of the search from the opening model, with room for this many nodes.
fn tree(
    alloc: Global,
    rt: &impl Abort,
    problem: &Problem,
    nodes: u32,
    goal: &[Atom],
    tables: &[Table],
) -> Tree
    requires problem { IsValid problem.now }
    requires nodes { (1 ≤ nodes) × (nodes ≤ most_nodes) }
{
    let initial = opening(alloc).expect(rt, "memory");
    assert!(rt; are_atoms_of(problem, 1, goal));
    assert!(rt; are_learned(problem, tables));
    assert!(rt; problem.objects > 0);
    search_tree(alloc, problem, nodes, &initial, goal, 1, tables).expect(rt, "memory")
}

/// Returns the tree with room for this many nodes and with this limit of shapes, of a problem that has room for one node, without tables.
fn tree_within(alloc: Global, rt: &impl Abort, nodes: u32, shapes: u32, goal: &[Atom]) -> Tree
    requires { (1 ≤ nodes) × (nodes ≤ most_nodes) }
{
    let problem = rooms_within(alloc, rt, (1, shapes));
    tree(alloc, rt, &problem, nodes, goal, &[])
}

/// Returns the place of the parent, whether the entry is pushed, how many steps it has and how many atoms are lacking: of the first node
/// no place and no steps.
fn in_short(node: &TreeNode) -> (Option<usize>, bool, usize, u32) {
    match &node.origin {
        None => (None, false, 0, node.needs),
        Some(origin) => (
            Some(origin.parent),
            origin.last.kind == MoveKind::Push,
            origin.last.steps.len(),
            node.needs,
        ),
    }
}

#[test]
fn a_tree_ends_at_a_solved_node(rt: HostRuntime) {
    let alloc = rt.alloc();
    let problem = weighted_rooms(alloc, &rt, 16, 20);
    let made = tree(alloc, &rt, &problem, 20, &box_in_first_room(), &[]);
    assert!(&rt; made.end == TreeEnd::Solved);
    assert!(&rt; made.nodes.len() == 20);
    assert!(&rt; in_short(&made.nodes.as_slice()[19]) == (Some(18), false, 1, 0));
}

#[test]
fn a_tree_ends_where_there_is_no_room(rt: HostRuntime) {
    let made = tree_within(rt.alloc(), &rt, 88, 10000, &box_in_first_room());
    assert!(&rt; made.end == TreeEnd::More { moves: 4 });
    assert!(&rt; made.nodes.len() == 88);
}

#[test]
fn a_tree_ends_at_the_limit_of_shapes(rt: HostRuntime) {
    let made = tree_within(rt.alloc(), &rt, 89, 2, &box_in_first_room());
    assert!(&rt; made.end == TreeEnd::ShapeLimit { shapes: 2 });
    assert!(&rt; made.nodes.len() == 1);
}

#[test]
fn a_tree_may_have_no_more_nodes(rt: HostRuntime) {
    let made = tree_within(rt.alloc(), &rt, 1, 10000, &[is_box(ROBOT)]);
    assert!(&rt; made.end == TreeEnd::Exhausted);
    assert!(&rt; made.nodes.len() == 1);
}

/// Both steps of the learned table are pushed and applied as one entry.
#[test]
fn a_tree_names_the_learned_table(rt: HostRuntime) {
    let alloc = rt.alloc();
    let problem = rooms_within(alloc, &rt, (100, 10000));
    let tables = [learned(alloc, &rt)];
    let made = tree(alloc, &rt, &problem, 100, &box_in_first_room(), &tables);
    assert!(&rt;
        matches!(
            made.nodes.as_slice().last().map(in_short),
            Some((Some(2), false, 2, 0))
        )
    );
}
