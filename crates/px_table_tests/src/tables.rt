//! Tables and their parts are made and copied.
ghost use Rattle.std.specs.Prelude.{◌≡◌};
ghost use Rattle.px_terms.specs.Validity.{IsValid};

use px_base::Sequence;
use px_general::generalise;
use px_samples::{
    atom, fact, instance, is_in, model_of, moving, o, objects, parameters, problem_of, sorted_rooms,
};
use px_table::{
    Entry, Move, Node, Row, Table, check_table, kernel, marks, rows_make_table, sorts_by_places,
};
use px_terms::{Atom, ClauseArena, Problem, is_valid};
use std::alloc::Global;
use std::process::Abort;
use std::rt::HostRuntime;

/// How many facts a row rests on.
const MANY: u32 = 40_000;

/// Returns whether the table has the steps and the marks of what the plan of 1972 generalises to.
fn is_general(alloc: Global, rt: &impl Abort, general: &Table) -> bool {
    let wanted = moving(alloc, 6, parameters()).expect(rt, "memory");
    general.steps == wanted.steps && general.marks == wanted.marks
}

/// Returns whether a copy of that table has the sorts that its steps' places ask for, and a kernel of two atoms before the goal.
fn is_copied(alloc: Global, rt: &impl Abort, problem: &Problem, general: &Table) -> bool {
    let copy = general.try_copy().expect(rt, "memory");
    let sorts = sorts_by_places(alloc, problem, copy.steps.as_slice(), 6).expect(rt, "memory");
    assert!(rt; sorts == copy.param_sorts && sorts.as_slice() == [0, 0, 0, 1, 0, 0].as_slice());
    kernel(alloc, &copy, 3).expect(rt, "memory").len() == 2
}

/// The box has a sort, so the parameter that is pushed has it.
#[test]
fn the_plan_of_1972_is_generalised(rt: HostRuntime) {
    let alloc = rt.alloc();
    let problem = sorted_rooms(alloc, 0).expect(&rt, "memory");
    let plan = moving(alloc, 0, objects()).expect(&rt, "memory");
    assert!(&rt; is_valid(&problem) && check_table(&problem, &plan) && plan.params == 0);
    let general = generalise(alloc, &problem, &plan).expect(&rt, "memory");
    assert!(&rt; is_general(alloc, &rt, &general) && is_copied(alloc, &rt, &problem, &general));
}

/// Returns whether a copy of the move is equal to it.
fn is_move_copied(rt: &impl Abort, one: &Move) -> bool {
    one.try_copy().expect(rt, "memory") == *one
}

/// Returns whether a copy of the node is equal to it.
fn is_node_copied(rt: &impl Abort, node: &Node) -> bool {
    node.try_copy().expect(rt, "memory") == *node
}

#[test]
fn nodes_and_moves_are_copied(rt: HostRuntime) {
    let alloc = rt.alloc();
    let sigma = Sequence::from_slice(alloc, &[1]).expect(&rt, "memory");
    let entry = Entry::Macro {
        number: 0,
        prefix: 2,
        sigma,
    };
    let push = Move::Push(entry.try_copy().expect(&rt, "memory"));
    assert!(&rt; is_move_copied(&rt, &push) && is_move_copied(&rt, &Move::Apply));
    let model = model_of(alloc, &[is_in(o(0), o(1))]).expect(&rt, "memory");
    let stack = Vec::from_array(alloc, [entry, Entry::Op(instance(0, &[]))]).expect(&rt, "memory");
    let node = Node::new(model, Sequence::from_vec(stack));
    assert!(&rt; is_node_copied(&rt, &node));
}

/// Returns an atom of each of very many objects.
fn many_atoms(alloc: Global) -> Option<Vec<Atom>> {
    let mut atoms = Vec::new(alloc);
    for number in 0..MANY {
        atoms.push(atom(0, &[o(number)])).ok()?;
    }
    Some(atoms)
}

/// Returns the row of these facts.
fn row_of(alloc: Global, atoms: &[Atom]) -> Option<Row> {
    let mut proofs = Vec::new(alloc);
    for given in atoms {
        proofs.push(fact(0, 0, *given)).ok()?;
    }
    Some(Row::from_proofs(proofs))
}

/// Marks are made of a row with very many leaves, and the row is tested.
#[test]
fn many_marks_in_a_row(rt: HostRuntime) {
    let alloc = rt.alloc();
    let axioms = ClauseArena::new(alloc);
    let problem = problem_of(alloc, MANY, &[1], axioms, []).expect(&rt, "memory");
    let goal = many_atoms(alloc).expect(&rt, "memory");
    let rows = [row_of(alloc, &goal).expect(&rt, "memory")];
    let made = marks(alloc, &rows).expect(&rt, "memory");
    assert!(&rt; made.len() == MANY as usize && is_valid(&problem));
    assert!(&rt; rows_make_table(&problem, 0, &[], &[], &goal, 0, &rows));
}
