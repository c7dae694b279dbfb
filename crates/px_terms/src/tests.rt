//! Each public call once, with memory.
use crate::{
    ArenaErr, Atom, ClauseArena, Limits, Lit, NoMemory, OpInst, Problem, Schema, Sequence, Term,
    apply, apply_inst, are_atoms_of, are_plain_below, are_variables_below, atoms_are_ordered,
    contradiction, drop_plan, equal, instance_of, is_atom_of, is_ground, is_instance_of, is_valid,
    lit_lamp, merged_names,
};
use std::alloc::Global;
use std::rt::HostRuntime;

#[test]
fn the_laws_are_calls(_rt: HostRuntime) {
    merged_names();
    drop_plan();
    lit_lamp();
    contradiction();
    atoms_are_ordered();
}

#[test]
fn atoms_and_instances(rt: HostRuntime) {
    let objects = [Term::Obj(3), Term::Obj(5)];
    let pattern = Atom::new(7, &[Term::Var(1), Term::Any]).expect(&rt, "two arguments");
    let under = apply(&objects, &pattern);
    let ground = Atom::new(7, &[Term::Obj(5), Term::Obj(9)]).expect(&rt, "two arguments");
    let other = Atom::new(7, &[Term::Obj(3), Term::Obj(9)]).expect(&rt, "two arguments");
    assert!(&rt; instance_of(&ground, &under));
    assert!(&rt; !instance_of(&other, &under));
    assert!(&rt; other < ground);
    assert!(&rt; !equal(&other, &ground));
    let inst = OpInst::new(0, &[Term::Var(0)]).expect(&rt, "one argument");
    assert!(&rt; apply_inst(&objects, &inst).args() == [Term::Obj(3)].as_slice());
}

/// One to six literals are taken, 64 times; a wrong length is refused first, also by a full arena.
#[test]
fn clauses_are_numbered_up_to_sixty_four(rt: HostRuntime) -> Result<(), ArenaErr> {
    let atom = Atom::new(0, &[]).expect(&rt, "no argument");
    let lit = Lit {
        positive: true,
        atom,
    };
    let mut arena = ClauseArena::new(rt.alloc());
    assert!(&rt; matches!(arena.push(0, &[]), Err(ArenaErr::BadLength)));
    assert!(&rt; matches!(arena.push(0, &[lit; 7]), Err(ArenaErr::BadLength)));
    assert!(&rt; arena.count() == 0);
    for _ in 0..64 {
        arena.push(0, &[lit; 6])?;
    }
    assert!(&rt; arena.count() == 64);
    assert!(&rt; matches!(arena.push(0, &[lit]), Err(ArenaErr::Full)));
    assert!(&rt; matches!(arena.push(0, &[lit; 7]), Err(ArenaErr::BadLength)));
    assert!(&rt; arena.count() == 64);
    Ok(())
}

/// A clause keeps its variables and its literals in their order.
#[test]
fn a_clause_is_kept_as_it_was_pushed(rt: HostRuntime) -> Result<(), ArenaErr> {
    let arg = [Term::Var(1)];
    let first = Lit {
        positive: true,
        atom: Atom::new(3, &arg).expect(&rt, "one argument"),
    };
    let second = Lit {
        positive: false,
        ..first
    };
    let mut arena = ClauseArena::new(rt.alloc());
    assert!(&rt; arena.push(2, &[first, second])? == 0);
    assert!(&rt; arena.push(2, &[second])? == 1);
    assert!(&rt; arena.variable_count(0) == 2);
    assert!(&rt; arena.lits(0) == [first, second].as_slice());
    assert!(&rt; arena.lits(1) == [second].as_slice());
    Ok(())
}

/// Returns the problem of two objects without axioms in which `DROP(x)` needs `AT(x)` and deletes it.
fn dropping(alloc: Global, at: Atom) -> Result<Problem, NoMemory> {
    let schema = Schema::without_sorts(alloc, 0, 1, &[at], &[at], &[])?;
    let schemas = Sequence::from_vec(Vec::from_array(alloc, [schema])?);
    let limits = Limits {
        height: 1,
        nodes: 1,
        shapes: 2,
    };
    Problem::without_sorts(alloc, 2, &[1], ClauseArena::new(alloc), schemas, limits)
}

#[test]
fn what_belongs_to_a_problem(rt: HostRuntime) -> Result<(), NoMemory> {
    let at = Atom::new(0, &[Term::Var(0)]).expect(&rt, "one argument");
    let mut problem = dropping(rt.alloc(), at)?;
    assert!(&rt; is_valid(&problem));
    assert!(&rt; is_atom_of(&problem, 1, &at));
    assert!(&rt; !are_atoms_of(&problem, 0, &[at]));
    assert!(&rt; !is_ground(&at) && !are_variables_below(0, at.args()));
    assert!(&rt;
        are_plain_below(
            1,
            &[Lit {
                positive: false,
                atom: at
            }]
        )
    );
    let first = OpInst::new(0, &[Term::Obj(1)]).expect(&rt, "one argument");
    let third = OpInst::new(0, &[Term::Obj(2)]).expect(&rt, "one argument");
    assert!(&rt; is_instance_of(&problem, &first));
    assert!(&rt; !is_instance_of(&problem, &third));
    problem.objects = 0;
    assert!(&rt; !is_valid(&problem));
    Ok(())
}
