//! Tests on small proofs.
ghost use Rattle.std.specs.Prelude.{◌≡◌, [], ◌∷◌, IfOk};
ghost use Rattle.px_proof.specs.Derivation as derivation;
ghost use Rattle.px_proof.specs.Derivation.{also, none};
ghost use Rattle.px_proof.specs.ProofTerm.{derivation_of};

use crate::{
    Leaf, Proof, Shape, Tick, check, graft, higher_than, is_tree, leaves, same_shape, substitute,
};
use px_base::{NoMemory, Sequence, push};
use px_terms::{Atom, ClauseArena, Lit, Term};
use std::alloc::Global;
use std::process::Abort;
use std::rt::HostRuntime;

/// Returns the atom of a predicate without arguments.
fn plain(rt: &impl Abort, pred: u32) -> Atom
    ensures { result.args ≡ [] }
{
    Atom::new(pred, &[]).expect(rt, "no argument")
}

/// Returns the atom of a predicate with one argument.
fn of(rt: &impl Abort, pred: u32, term: Term) -> Atom
    ensures { result.args ≡ term ∷ [] }
{
    Atom::new(pred, &[term]).expect(rt, "one argument")
}

fn yes(atom: Atom) -> Lit
    ensures { result.atom ≡ atom }
{
    Lit {
        positive: true,
        atom,
    }
}

fn no(atom: Atom) -> Lit
    ensures { result.atom ≡ atom }
{
    Lit {
        positive: false,
        atom,
    }
}

fn leaf(column: u32, index: u32, atom: Atom) -> Leaf
    ensures { result ≡ record { column = column; index = index; atom = atom } }
{
    Leaf {
        column,
        index,
        atom,
    }
}

/// Returns a step with a clause without variables.
fn step(alloc: Global, clause: u32, place: u32, sub: Proof) -> Result<Proof, NoMemory> {
    step_at(alloc, clause, &[], place, sub)
}

fn step_at(
    alloc: Global,
    clause: u32,
    theta: &[Term],
    place: u32,
    sub: Proof,
) -> Result<Proof, NoMemory>
    ensures { IfOk result (λ proof. derivation_of proof ≡ derivation.step clause theta.now place (also (derivation_of sub) none)) }
{
    let mut terms = Vec::new(alloc);
    terms.extend_from_slice(theta)?;
    let mut subs = Vec::new(alloc);
    match subs.push(sub) {
        Ok(()) => Ok(Proof::Step {
            clause,
            theta: Sequence::from_vec(terms),
            place,
            subs: Sequence::from_vec(subs),
        }),
        Err(_) => Err(NoMemory),
    }
}

/// Returns the axioms `P Q` and `~Q P`.
fn two_axioms(rt: &impl Abort, alloc: Global) -> ClauseArena {
    let p = plain(rt, 0);
    let q = plain(rt, 1);
    let mut arena = ClauseArena::new(alloc);
    arena.push(0, &[yes(p), yes(q)]).expect(rt, "two literals");
    arena.push(0, &[no(q), yes(p)]).expect(rt, "two literals");
    arena
}

#[test]
fn a_proof_by_cases(rt: HostRuntime) -> Result<(), NoMemory> {
    let arena = two_axioms(&rt, rt.alloc());
    let goal = yes(plain(&rt, 0));
    for (ancestor, clause, is_proof) in [
        (1, 1, true),
        (2, 1, false),
        (u32::MAX, 1, false),
        (1, 2, false),
    ] {
        let inner = step(rt.alloc(), clause, 0, Proof::Anc(ancestor))?;
        let proof = step(rt.alloc(), 0, 0, inner)?;
        assert!(&rt; check(&arena, &[], &goal, &proof) == is_proof);
        assert!(&rt; is_tree(&arena, 0, 0, &goal, &proof) == is_proof);
    }
    Ok(())
}

#[test]
fn a_chain_of_any_length(rt: HostRuntime) -> Result<(), NoMemory> {
    let p = plain(&rt, 0);
    let mut arena = ClauseArena::new(rt.alloc());
    arena.push(0, &[yes(p), no(p)]).expect(&rt, "two literals");
    for steps in [8, 1000] {
        let mut proof = Proof::Fact(Leaf {
            column: 0,
            index: 0,
            atom: p,
        });
        for _ in 0..steps {
            proof = step(rt.alloc(), 0, 0, proof)?;
        }
        assert!(&rt; check(&arena, &[p], &yes(p), &proof));
        assert!(&rt; !check(&arena, &[], &yes(p), &proof));
        assert!(&rt; is_tree(&arena, 0, 0, &yes(p), &proof));
        assert!(&rt; higher_than(&proof, steps));
        assert!(&rt; !higher_than(&proof, steps + 1));
    }
    Ok(())
}

#[test]
fn a_step_under_objects_and_parameters(rt: HostRuntime) -> Result<(), NoMemory> {
    let v = Term::Var(0);
    let mut arena = ClauseArena::new(rt.alloc());
    arena
        .push(1, &[yes(of(&rt, 0, v)), no(of(&rt, 1, v))])
        .expect(&rt, "two literals");
    let leaf = Leaf {
        column: 2,
        index: 1,
        atom: of(&rt, 1, v),
    };
    let proof = step_at(rt.alloc(), 0, &[v], 0, Proof::Fact(leaf))?;
    let goal = yes(of(&rt, 0, v));
    assert!(&rt; is_tree(&arena, 0, 1, &goal, &proof));
    assert!(&rt; !is_tree(&arena, 3, 0, &goal, &proof));
    assert!(&rt; !check(&arena, &[leaf.atom], &goal, &proof));
    assert!(&rt; leaves(rt.alloc(), &proof)?.as_slice() == [leaf].as_slice());
    let map = [Term::Obj(5)];
    let made = substitute(rt.alloc(), &proof, &map)?;
    assert!(&rt; same_shape(&proof, &made));
    assert!(&rt; !same_shape(&proof, &Proof::Fact(leaf)));
    let copy = made.try_copy()?;
    let facts = [of(&rt, 1, Term::Obj(5))];
    assert!(&rt; check(&arena, &facts, &yes(of(&rt, 0, Term::Obj(5))), &copy));
    Ok(())
}

/// Returns a step by the first clause from three facts.
fn step_from_three(alloc: Global, a: Leaf, b: Leaf, c: Leaf) -> Result<Proof, NoMemory>
    ensures { IfOk result (λ proof. derivation_of proof ≡ derivation.step 0 [] 0
        (also (derivation.fact a) (also (derivation.fact b) (also (derivation.fact c) none)))) }
{
    let mut subs = Vec::new(alloc);
    push(&mut subs, Proof::Fact(a))?;
    push(&mut subs, Proof::Fact(b))?;
    push(&mut subs, Proof::Fact(c))?;
    Ok(Proof::Step {
        clause: 0,
        theta: Sequence::from_vec(Vec::new(alloc)),
        place: 0,
        subs: Sequence::from_vec(subs),
    })
}

#[test]
fn parts_in_the_places_of_leaves(rt: HostRuntime) -> Result<(), NoMemory> {
    let (p, q, r) = (plain(&rt, 0), plain(&rt, 1), plain(&rt, 2));
    let (s, t) = (plain(&rt, 3), plain(&rt, 4));
    let mut arena = ClauseArena::new(rt.alloc());
    arena
        .push(0, &[yes(p), no(q), no(r), no(s)])
        .expect(&rt, "four literals");
    arena.push(0, &[yes(s), no(t)]).expect(&rt, "two literals");
    let proof = step_from_three(rt.alloc(), leaf(0, 0, q), leaf(2, 1, r), leaf(0, 0, s))?;
    let mut parts = Vec::new(rt.alloc());
    push(&mut parts, Proof::Fact(leaf(3, 1, q)))?;
    push(
        &mut parts,
        step(rt.alloc(), 1, 0, Proof::Fact(leaf(0, 0, t)))?,
    )?;
    let made = graft(rt.alloc(), &proof, &parts, 4)?;
    let wanted = [leaf(3, 1, q), leaf(6, 1, r), leaf(0, 0, t)];
    assert!(&rt; leaves(rt.alloc(), &made)?.as_slice() == wanted.as_slice());
    assert!(&rt; check(&arena, &[q, r, t], &yes(p), &made));
    assert!(&rt; is_tree(&arena, 0, 0, &yes(p), &made));
    Ok(())
}

#[test]
fn a_shape_is_copied(rt: HostRuntime) -> Result<(), NoMemory> {
    let mut ticks = Vec::new(rt.alloc());
    ticks.extend_from_slice(&[Tick::Step(0, 1), Tick::Open])?;
    let copy = Shape::from_ticks(ticks).try_copy()?;
    assert!(&rt; copy.ticks() == [Tick::Step(0, 1), Tick::Open].as_slice());
    Ok(())
}
