//! The goal of the example of 1972, whose box is in another room; and the patterns of a transitive relation.
ghost use Rattle.std.specs.Prelude.{◌<◌, ◌≤◌, All};
ghost use Rattle.px_terms.specs.Validity.{IsValid, IsAtomOf};

use px_ops::Model;
use px_prover::{
    ProveErr, count_shapes, gap_closings, gap_lists, gap_patterns, patterns_are_lists, prove,
};
use px_samples::{
    add_axiom, atom, box_in_first_room, is_box, is_in, model_of, no, o, opening, problem_of, rooms,
    schema, v, yes,
};
use px_terms::{Atom, ClauseArena, Problem, are_atoms_of, is_valid};
use std::alloc::Global;
use std::process::Abort;
use std::rt::HostRuntime;

/// Stops unless the problem and the formula may be asked about.
fn assert_asked(rt: &impl Abort, problem: &Problem, formula: &[Atom], variable_count: u32)
    ensures problem { IsValid problem.now }
    ensures formula { All (IsAtomOf problem.now variable_count) formula.now }
    ensures few { variable_count ≤ 12 }
    ensures some_object { 0 < problem.now.objects }
{
    assert!(rt; is_valid(problem) && problem.objects > 0);
    assert!(rt; are_atoms_of(problem, u64::from(variable_count), formula) && variable_count <= 12);
}

#[test]
fn the_box_is_in_another_room(rt: HostRuntime) {
    patterns_are_lists();
    let alloc = rt.alloc();
    let mut problem = rooms(alloc).expect(&rt, "memory");
    let model = opening(alloc).expect(&rt, "memory");
    let there = [is_box(v(0)), is_in(v(0), o(2))];
    assert_asked(&rt, &problem, &there, 1);
    let found = prove(alloc, &problem, &there, 1, &model);
    assert!(&rt; matches!(&found, Ok(answer) if answer.objects.as_slice() == [6].as_slice()));
    let here = box_in_first_room();
    assert_asked(&rt, &problem, &here, 1);
    let found = prove(alloc, &problem, &here, 1, &model);
    assert!(&rt; matches!(&found, Err(ProveErr::Unprovable)));
    let lists = gap_lists(alloc, &problem, &here, 1, &model);
    assert!(&rt; matches!(&lists, Ok(lists) if lists.len() == 1));
    problem.shapes = 2;
    assert_asked(&rt, &problem, &here, 1);
    let found = prove(alloc, &problem, &here, 1, &model);
    assert!(&rt; matches!(&found, Err(ProveErr::ShapeLimit(shapes)) if shapes.len() == 2));
}

/// Returns the problem of what stands on what: an axiom says that it is transitive, and one operator adds any atom of it.
fn standing(alloc: Global, rt: &impl Abort, objects: u32) -> Problem {
    let mut axioms = ClauseArena::new(alloc);
    let whole = atom(0, &[v(0), v(2)]);
    let upper = atom(0, &[v(0), v(1)]);
    let lower = atom(0, &[v(1), v(2)]);
    add_axiom(&mut axioms, 3, &[yes(whole), no(upper), no(lower)]).expect(rt, "an axiom");
    let put = schema(alloc, (0, 2), &[], &[], &[upper]).expect(rt, "memory");
    problem_of(alloc, objects, &[2], axioms, [put]).expect(rt, "memory")
}

/// Ten and thirty objects make no more patterns than two.
#[test]
fn patterns_are_few(rt: HostRuntime) {
    let alloc = rt.alloc();
    let formula = [atom(0, &[o(0), o(1)])];
    for objects in [2, 10, 30] {
        let problem = standing(alloc, &rt, objects);
        assert_asked(&rt, &problem, &formula, 0);
        let found = gap_patterns(alloc, &problem, &formula, 0, &Model::new(alloc));
        assert!(&rt; matches!(&found, Ok(patterns) if patterns.len() == 8));
    }
}

/// Three facts are three answers, and close nothing: they are one closing. The gap is the other.
#[test]
fn closings_leave_out_what_is_chosen(rt: HostRuntime) {
    let alloc = rt.alloc();
    let put = schema(alloc, (0, 1), &[], &[], &[atom(0, &[v(0)])]).expect(&rt, "memory");
    let axioms = ClauseArena::new(alloc);
    let problem = problem_of(alloc, 3, &[1], axioms, [put]).expect(&rt, "memory");
    let facts = [atom(0, &[o(0)]), atom(0, &[o(1)]), atom(0, &[o(2)])];
    let model = model_of(alloc, &facts).expect(&rt, "memory");
    let formula = [atom(0, &[v(0)])];
    assert_asked(&rt, &problem, &formula, 1);
    let found = gap_patterns(alloc, &problem, &formula, 1, &model);
    assert!(&rt; matches!(&found, Ok(patterns) if patterns.len() == 4));
    let found = gap_closings(alloc, &problem, &formula, 1, &model);
    assert!(&rt; matches!(&found, Ok(closings) if closings.len() == 2));
}

/// The atom may be closed by a fact or by a gap, or be open. Three shapes are too many where the limit is three.
#[test]
fn shapes_are_counted(rt: HostRuntime) {
    let alloc = rt.alloc();
    let put = schema(alloc, (0, 1), &[], &[], &[atom(0, &[v(0)])]).expect(&rt, "memory");
    let axioms = ClauseArena::new(alloc);
    let mut problem = problem_of(alloc, 3, &[1], axioms, [put]).expect(&rt, "memory");
    let formula = [atom(0, &[o(0)])];
    let model = model_of(alloc, &formula).expect(&rt, "memory");
    assert_asked(&rt, &problem, &formula, 0);
    let counted = count_shapes(alloc, &problem, &formula, 0, &model);
    assert!(&rt;
        matches!(&counted, Ok(Some(count)) if count.unfinished == 1 && count.finished == 2)
    );
    problem.shapes = 3;
    assert_asked(&rt, &problem, &formula, 0);
    let counted = count_shapes(alloc, &problem, &formula, 0, &model);
    assert!(&rt; matches!(&counted, Ok(None)));
}
