//! Clashes, chains of bindings, and the most variables.
use crate::{Bind, BindErr, MOST_VARIABLES, unify};
use px_terms::{Atom, Term};
use std::rt::HostRuntime;

/// A variable that stands twice can't be two objects, and the clash leaves it unbound.
#[test]
fn one_variable_is_not_two_objects(rt: HostRuntime) -> Result<(), BindErr> {
    let mut bind = Bind::new(rt.alloc());
    assert!(&rt; bind.fresh(1)? == 0);
    let twice = [Term::Var(0), Term::Var(0)];
    let two_objects = [Term::Obj(3), Term::Obj(5)];
    let before = bind.mark();
    let pattern = Atom::new(0, &twice).expect(&rt, "two arguments");
    let atom = Atom::new(0, &two_objects).expect(&rt, "two arguments");
    assert!(&rt; unify(&mut bind, &pattern, &atom).is_err());
    assert!(&rt; bind.mark() == before);
    assert!(&rt; bind.resolve(Term::Var(0)) == Term::Var(0));
    Ok(())
}

/// Chains of bindings are followed, and undoing takes back what came after the mark.
#[test]
fn chains_are_followed_and_taken_back(rt: HostRuntime) -> Result<(), BindErr> {
    let mut bind = Bind::new(rt.alloc());
    assert!(&rt; bind.fresh(3)? == 0);
    let pairs = [Term::Var(0), Term::Var(1)];
    let others = [Term::Var(1), Term::Var(2)];
    let first = Atom::new(0, &pairs).expect(&rt, "two arguments");
    let second = Atom::new(0, &others).expect(&rt, "two arguments");
    assert!(&rt; unify(&mut bind, &first, &second).is_ok());
    assert!(&rt; bind.resolve(Term::Var(2)) == Term::Var(0));
    let before = bind.mark();
    let objects = [Term::Obj(7), Term::Var(2)];
    let third = Atom::new(0, &objects).expect(&rt, "two arguments");
    assert!(&rt; unify(&mut bind, &first, &third).is_ok());
    assert!(&rt; bind.resolve(Term::Var(2)) == Term::Obj(7));
    bind.undo_to(before);
    assert!(&rt; bind.resolve(Term::Var(2)) == Term::Var(0));
    Ok(())
}

/// A million variables are made, and not one more.
#[test]
fn a_million_variables_at_most(rt: HostRuntime) -> Result<(), BindErr> {
    let mut bind = Bind::new(rt.alloc());
    for _ in 0..1000 {
        bind.fresh(1000)?;
    }
    assert!(&rt; bind.variables() == MOST_VARIABLES);
    assert!(&rt; matches!(bind.fresh(1), Err(BindErr::Full)));
    assert!(&rt; matches!(bind.fresh(4_294_967_295), Err(BindErr::Full)));
    assert!(&rt; bind.fresh(0)? == MOST_VARIABLES);
    Ok(())
}
