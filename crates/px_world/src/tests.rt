//! A switch in a world of atoms: actions, edits and the guard.
ghost use Rattle.std.specs.Prelude.{◌≡◌, IfOk, length, slice_index_or};
ghost use Rattle.px_terms.specs.Operators.{no_schema};
ghost use Rattle.px_terms.specs.Validity.{IsValid};

use crate::{AtomEdit, AtomWorld, Regrow, World, atom_edits_add_one, worked_guard};
use px_ops::Model;
use px_terms::{Atom, ClauseArena, Limits, NoMemory, OpInst, Problem, Schema, Sequence};
use std::alloc::Global;
use std::process::Abort;
use std::rt::HostRuntime;

// Alike: `moving_problem` of the tests of `px_ops`, since tests can't use those of other crates.

/// Returns the problem without objects whose operator needs OFF, deletes it and adds ON.
fn switch_problem(alloc: Global, rt: &impl Abort) -> Result<Problem, NoMemory>
    ensures valid { IfOk result IsValid }
    ensures shape { IfOk result (λ p. (length p.schemas ≡ 1) × ((slice_index_or p.schemas 0 no_schema).params ≡ 0)
        × (length (slice_index_or p.schemas 0 no_schema).add ≡ 1)) }
{
    let off = Atom::new(0, &[]).expect(rt, "no arguments");
    let on = Atom::new(1, &[]).expect(rt, "no arguments");
    let schema = Schema::without_sorts(alloc, 0, 0, &[off], &[off], &[on])?;
    let schemas = Sequence::from_vec(Vec::from_array(alloc, [schema])?);
    let limits = Limits {
        height: 4,
        nodes: 10000,
        shapes: 10000,
    };
    Problem::without_sorts(alloc, 0, &[0, 0], ClauseArena::new(alloc), schemas, limits)
}

#[test]
fn a_world_of_atoms(rt: HostRuntime) -> Result<(), NoMemory> {
    let problem = switch_problem(rt.alloc(), &rt)?;
    let off = Atom::new(0, &[]).expect(&rt, "no arguments");
    let on = Atom::new(1, &[]).expect(&rt, "no arguments");
    let switch = OpInst::new(0, &[]).expect(&rt, "no arguments");
    let mut facts = Model::new(rt.alloc());
    facts.insert(off)?;
    let mut world = AtomWorld::new(rt.alloc(), &problem, &facts, 4)?;
    let mut sensed = Model::new(rt.alloc());
    sensed.reserve(facts.atoms().len())?;
    world.sense(&mut sensed);
    assert!(&rt; sensed == facts);
    assert!(&rt; world.act(&switch).is_ok());
    assert!(&rt; world.holds(&on) & !world.holds(&off));
    assert!(&rt; world.act(&switch).is_ok());
    world.disturb(&AtomEdit::Remove(on));
    world.disturb(&AtomEdit::Add(off));
    assert!(&rt; world.holds(&off) & !world.holds(&on));
    world.regrow(9)?;
    assert!(&rt; world.atom_count() == 1 && world.holds(&off));
    Ok(())
}

#[test]
fn laws_are_calls(_rt: HostRuntime) {
    worked_guard();
    atom_edits_add_one();
}
