//! Models, steps and atom indices on small examples.
ghost use Rattle.std.specs.Prelude.{◌≡◌, IfOk, length, slice_index_or};
ghost use Rattle.px_terms.specs.Operators.{no_schema};
ghost use Rattle.px_terms.specs.Validity.{IsValid};

use crate::{
    AtomIndex, Model, adds, apply_op, deletes, is_addable, pre, precondition_of, schema_of,
};
use px_terms::{Atom, ClauseArena, Limits, NoMemory, OpInst, Problem, Schema, Sequence, Term};
use std::alloc::Global;
use std::process::Abort;
use std::rt::HostRuntime;

#[test]
fn models_are_sets(rt: HostRuntime) -> Result<(), NoMemory> {
    let first = Atom::new(0, &[Term::Obj(1)]).expect(&rt, "one argument");
    let second = Atom::new(0, &[Term::Obj(2)]).expect(&rt, "one argument");
    let mut model = Model::new(rt.alloc());
    assert!(&rt; model.insert(second)?);
    assert!(&rt; model.insert(first)?);
    assert!(&rt; !model.insert(second)?);
    assert!(&rt; model.atoms() == [first, second].as_slice());
    model.reserve(1)?;
    assert!(&rt; model.remove(&second));
    assert!(&rt; model.insert_spare(second));
    let copy = model.try_copy()?;
    model.clear();
    assert!(&rt; copy.holds(&second));
    assert!(&rt; !model.holds(&second));
    Ok(())
}

/// Returns the problem of two objects with the operator MOVE(x,y), which needs AT(x), deletes AT($) and adds AT(y).
fn moving_problem(alloc: Global, rt: &impl Abort) -> Result<Problem, NoMemory>
    ensures valid { IfOk result IsValid }
    ensures shape { IfOk result (λ p. (length p.schemas ≡ 1) × ((slice_index_or p.schemas 0 no_schema).params ≡ 2) × (p.objects ≡ 2)) }
{
    let here = Atom::new(0, &[Term::Var(0)]).expect(rt, "one argument");
    let there = Atom::new(0, &[Term::Var(1)]).expect(rt, "one argument");
    let any = Atom::new(0, &[Term::Any]).expect(rt, "one argument");
    let schema = Schema::without_sorts(alloc, 0, 2, &[here], &[any], &[there])?;
    let schemas = Sequence::from_vec(Vec::from_array(alloc, [schema])?);
    let limits = Limits {
        height: 4,
        nodes: 10000,
        shapes: 10000,
    };
    Problem::without_sorts(alloc, 2, &[1], ClauseArena::new(alloc), schemas, limits)
}

#[test]
fn a_move(rt: HostRuntime) -> Result<(), NoMemory> {
    let problem = moving_problem(rt.alloc(), &rt)?;
    let start = Atom::new(0, &[Term::Obj(0)]).expect(&rt, "one argument");
    let end = Atom::new(0, &[Term::Obj(1)]).expect(&rt, "one argument");
    let step = OpInst::new(0, &[Term::Obj(0), Term::Obj(1)]).expect(&rt, "two arguments");
    let schema = schema_of(&problem, &step);
    assert!(&rt; deletes(schema, &step, &start));
    assert!(&rt; schema.pre.len() == 1 && pre(schema, &step, 0) == start);
    assert!(&rt; schema.add.len() == 1 && adds(schema, &step, 0) == end);
    let mut facts = Model::new(rt.alloc());
    facts.insert(start)?;
    let after = apply_op(rt.alloc(), &problem, &facts, &step)?;
    assert!(&rt; after.atoms() == [end].as_slice());
    assert!(&rt; precondition_of(rt.alloc(), &problem, &step)?.as_slice() == [start].as_slice());
    assert!(&rt; is_addable(&problem, &start));
    Ok(())
}

#[test]
fn atoms_have_the_numbers_of_their_first_use(rt: HostRuntime) -> Result<(), NoMemory> {
    let first = Atom::new(0, &[Term::Obj(0)]).expect(&rt, "one argument");
    let second = Atom::new(1, &[Term::Obj(1)]).expect(&rt, "one argument");
    let mut index = AtomIndex::new(rt.alloc());
    assert!(&rt; index.intern(&first)? == 0);
    assert!(&rt; index.intern(&second)? == 1);
    assert!(&rt; index.intern(&first)? == 0);
    assert!(&rt; index.count() == 2);
    assert!(&rt; index.atom(1) == second);
    Ok(())
}
