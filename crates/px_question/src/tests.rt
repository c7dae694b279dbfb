//! The laws are called, and gap lists are compared.
use crate::{
    GapList, answers_make_rows, few_or_limited, fewer_facts_have_no_more, first_is_of_each,
    first_is_one, gap_lists_are_one, gap_lists_are_ordered, limits_are_one, questions_are_decided,
};
use px_terms::{Atom, NoMemory, Sequence, Term};
use std::alloc::Global;
use std::rt::HostRuntime;

#[test]
fn laws_are_calls(_rt: HostRuntime) {
    first_is_one();
    first_is_of_each();
    answers_make_rows();
    fewer_facts_have_no_more();
    limits_are_one();
    few_or_limited();
    questions_are_decided();
    gap_lists_are_one();
    gap_lists_are_ordered();
}

/// Returns the gap list of one object and one atom.
fn gap_list(alloc: Global, object: u32, gap: Atom) -> Result<GapList, NoMemory> {
    let objects = Sequence::from_vec(Vec::from_array(alloc, [object])?);
    let gaps = Sequence::from_vec(Vec::from_array(alloc, [gap])?);
    Ok(GapList { objects, gaps })
}

#[test]
fn gap_lists_ascend_by_objects_and_then_by_atoms(rt: HostRuntime) -> Result<(), NoMemory> {
    let alloc = rt.alloc();
    let low = Atom::new(0, &[Term::Obj(5)]).expect(&rt, "one argument");
    let high = Atom::new(1, &[Term::Obj(3)]).expect(&rt, "one argument");
    let first = gap_list(alloc, 3, high)?;
    let second = gap_list(alloc, 5, low)?;
    let third = gap_list(alloc, 5, high)?;
    assert!(&rt; first < second);
    assert!(&rt; second < third);
    assert!(&rt; third == gap_list(alloc, 5, high)?);
    Ok(())
}
