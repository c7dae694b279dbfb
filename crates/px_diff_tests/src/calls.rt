//! What is asked about the example of 1972.
ghost use Rattle.px_terms.specs.Validity.{IsValid};

use px_diff::{relevance_over_models, relevance_over_stacks, relevant, relevant_first};
use px_entries::{
    answers_support, are_learned, deciding_part, is_entry, known_below, known_entry, never_limited,
};
use px_gaps::{Bounds, Known, Tried, addable_alike, known_formula, try_formula};
use px_samples::{ROBOT, box_in_first_room, connects, instance, is_in, o, opening, rooms};
use px_table::Entry;
use px_terms::{NoMemory, Problem, are_atoms_of, is_valid};
use std::alloc::Global;
use std::process::Abort;
use std::rt::HostRuntime;

#[test]
fn laws_are_calls(_rt: HostRuntime) {
    addable_alike();
    answers_support();
    relevance_over_stacks();
    relevance_over_models();
}

/// Returns the rooms of 1972, with that limit of shapes.
fn valid_rooms(alloc: Global, rt: &impl Abort, shapes: u32) -> Problem
    ensures { IsValid result }
{
    let mut problem = rooms(alloc).expect(rt, "memory");
    problem.shapes = shapes;
    assert!(rt; is_valid(&problem));
    problem
}

/// What pushing a box needs: the box and the robot in a room, and a door from there. CONNECTS has the four unfinished shapes of
/// turning the door round up to three times; each place of a thing is open, a fact or a gap. So there are 1 + 2 (1 + 2 · 4) shapes.
#[test]
fn pushing_a_box_has_nineteen_shapes(rt: HostRuntime) {
    let alloc = rt.alloc();
    let push = [
        is_in(o(6), o(2)),
        is_in(ROBOT, o(2)),
        connects(o(4), o(2), o(3)),
    ];
    for (shapes, is_known) in [(20, true), (19, false)] {
        let problem = valid_rooms(alloc, &rt, shapes);
        let bounds = Bounds::of(alloc, &problem).expect(&rt, "memory");
        assert!(&rt; bounds.has_few(&problem, &push) == is_known);
    }
}

/// The box isn't in room 1, and that it is there is the gap.
#[test]
fn a_formula_is_open(rt: HostRuntime) {
    let alloc = rt.alloc();
    let problem = valid_rooms(alloc, &rt, 10_000);
    let model = opening(alloc).expect(&rt, "memory");
    let goal = box_in_first_room();
    assert!(&rt; problem.objects > 0 && are_atoms_of(&problem, 1, &goal));
    match try_formula(alloc, &problem, &goal, 1, &model).expect(&rt, "memory") {
        Tried::Unanswered => {
            let known = known_formula(alloc, &problem, &goal, 1, &model).expect(&rt, "memory");
            let missing = [is_in(o(6), o(1))];
            assert!(&rt;
                matches!(&known, Known::Open(gaps) if gaps.as_slice() == missing.as_slice())
            );
        }
        Tried::Answered | Tried::Limited(_) => assert!(&rt; false),
    }
}

/// Returns the entry by which the robot goes from where it is to room 2.
fn going() -> Entry {
    Entry::Op(instance(0, &[o(4), o(1), o(2)]))
}

#[test]
fn an_entry_is_applicable(rt: HostRuntime) -> Result<(), NoMemory> {
    let alloc = rt.alloc();
    let problem = valid_rooms(alloc, &rt, 10_000);
    let model = opening(alloc).expect(&rt, "memory");
    let entry = going();
    assert!(&rt; are_learned(&problem, &[]));
    assert!(&rt; is_entry(&problem, &[], &entry));
    let known = known_entry(alloc, &problem, &[], &entry, &model).expect(&rt, "memory");
    assert!(&rt; matches!(&known, Known::Applicable));
    assert!(&rt; never_limited(alloc, &problem, &[])?);
    let known = known_below(alloc, &problem, &[], &entry, &model).expect(&rt, "memory");
    assert!(&rt; matches!(&known, Known::Applicable));
    assert!(&rt;
        deciding_part(alloc, &problem, &model)
            .expect(&rt, "memory")
            .atoms()
            .len()
            == 3
    );
    Ok(())
}

#[test]
fn an_entry_is_the_first_of_sixteen(rt: HostRuntime) -> Result<(), NoMemory> {
    let alloc = rt.alloc();
    let problem = valid_rooms(alloc, &rt, 10_000);
    let model = opening(alloc).expect(&rt, "memory");
    let wanted = [is_in(ROBOT, o(2))];
    assert!(&rt; are_learned(&problem, &[]));
    assert!(&rt; never_limited(alloc, &problem, &[])?);
    let first = relevant_first(alloc, &problem, &wanted, &model, &[], 1).expect(&rt, "memory");
    assert!(&rt; matches!(first.entries.as_slice(), [found, ..] if *found == going()));
    let all = relevant(alloc, &problem, &wanted, &[], &model, &[]).expect(&rt, "no limit");
    assert!(&rt; all.len() == 16);
    Ok(())
}
