//! The replay of one proof.
ghost use Rattle.std.specs.Prelude.{◌<◌, ◌+◌, List, ◌∷◌, map, length, All};
ghost use Rattle.px_terms.specs.Clauses.{ArePlainBelow};
ghost use Rattle.px_terms.specs.declared.term.Term.{Term};
ghost use Rattle.px_terms.specs.Language.{IsPlainBelow};
ghost use Rattle.px_unify.specs.Changes.{Binds, Fits, HasSolutions, MakesEqual, NarrowedBy, variables_of};
ghost use Rattle.px_proof.specs.Derivation.{derivations, step};
ghost use Rattle.px_proof.specs.ProofTerm.{derivation_of};
ghost use Rattle.px_proof.specs.Proves.{parts_of};
ghost use Rattle.px_proof.specs.Path.{path_literals};
ghost use Rattle.px_replay.specs.Replay.{all_pairs_of, pairs_of};
ghost use Rattle.px_replay.specs.Replaying.{CanReplay, CanReplayEach, IsReplayOf};

use px_proof::{Path, Proof, literal_at, part_at};
use px_terms::{Atom, ClauseArena, Lit, Term, apply};
use px_unify::{Bind, Clash, unify};

/// Makes the two atoms equal, which some substitution that fits does.
fn make_equal(bind: &mut Bind, a: &Atom, b: &Atom)
    requires a_below { All (IsPlainBelow (variables_of bind.old)) a.now.args }
    requires b_below { All (IsPlainBelow (variables_of bind.old)) b.now.args }
    requires solved { (sigma : List Term) × Fits sigma bind.old × MakesEqual a.now b.now sigma }
    ensures narrowed { NarrowedBy bind.old bind.new (MakesEqual a.now b.now) }
    ensures grows { Binds bind.old bind.new }
    ensures solvable { HasSolutions bind.new }
{
    match unify(bind, a, b) {
        Ok(()) => {}
        Err(Clash) => unreachable!(),
    }
}

/// Makes the pairs of the proof equal.
#[cycle(replays)]
pub fn replay(proof: &Proof, bind: &mut Bind, arena: &ClauseArena, path: &Path, lit: &Lit)
    requires { CanReplay arena.now (path_literals path.now) lit.now (derivation_of proof.now) bind.old }
    ensures { IsReplayOf bind.old bind.new (pairs_of arena.now (path_literals path.now) lit.now (derivation_of proof.now)) }
{
    match proof {
        Proof::Fact(leaf) => make_equal(bind, &lit.atom, &leaf.atom),
        Proof::Anc(place) => match literal_at(path, *place) {
            Some(above) => make_equal(bind, &lit.atom, &above.atom),
            None => unreachable!(),
        },
        Proof::Step {
            clause,
            theta,
            place,
            subs,
        } => replay_step(
            subs.as_slice(),
            bind,
            arena,
            path,
            lit,
            *clause,
            theta.as_slice(),
            *place,
        ),
        Proof::Gap(_) => unreachable!(),
    }
}

/// Makes the pairs of a step equal.
#[cycle(replays)]
fn replay_step(
    subs: &[Proof],
    bind: &mut Bind,
    arena: &ClauseArena,
    path: &Path,
    lit: &Lit,
    clause: u32,
    theta: &[Term],
    place: u32,
)
    requires { CanReplay arena.now (path_literals path.now) lit.now (step clause theta.now place (derivations (map derivation_of subs.now)))
        bind.old }
    ensures { IsReplayOf bind.old bind.new (pairs_of arena.now (path_literals path.now) lit.now
        (step clause theta.now place (derivations (map derivation_of subs.now)))) }
{
    let lits = arena.lits(clause);
    make_equal(bind, &lit.atom, &apply(theta, &lits[place as usize].atom));
    let below = Path::Under(&*lit, &*path);
    replay_each(subs, bind, arena, &below, lits, theta, place)
}

/// Makes the pairs of the parts of a step equal, in order.
#[cycle(replays)]
fn replay_each(
    subs: &[Proof],
    bind: &mut Bind,
    arena: &ClauseArena,
    path: &Path,
    lits: &[Lit],
    theta: &[Term],
    place: u32,
)
    requires place { place < length lits.now }
    requires plain { ArePlainBelow (length theta.now) lits.now }
    requires can { CanReplayEach arena.now (path_literals path.now) (parts_of lits.now theta.now place)
        (derivations (map derivation_of subs.now)) bind.old }
    ensures { IsReplayOf bind.old bind.new (all_pairs_of arena.now (path_literals path.now) (parts_of lits.now theta.now place)
        (derivations (map derivation_of subs.now))) }
{
    for (k, sub) in subs.iter().enumerate() {
        let part = part_at(lits, theta, place, k);
        replay(sub, bind, arena, path, &part);
    }
}
