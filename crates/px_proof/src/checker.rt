//! The tests that a proof term proves a literal.
ghost use Rattle.std.specs.Prelude.{◌≡◌, ◌↔◌, ◌<◌, ◌+◌, IsTrue, Some, [], ◌∷◌, length, slice_get, All, map};
ghost use Rattle.px_terms.specs.Clauses.{ArePlainBelow};
ghost use Rattle.px_terms.specs.Language.{IsObject};
ghost use Rattle.px_terms.specs.declared.clause.Clause.{Clause};
ghost use Rattle.px_proof.specs.Basis.{rules_of};
ghost use Rattle.px_proof.specs.Derivation.{derivations, step, leaves_of, leaf_atoms, terms_of};
ghost use Rattle.px_proof.specs.Path.{path_literals};
ghost use Rattle.px_proof.specs.ProofTerm.{derivation_of};
ghost use Rattle.px_proof.specs.Proves.{Proves, ProvesEach, UsesClause, IsObjectOrParameter, IsTree, from_facts, instance_of, parts_of};
ghost use Rattle.px_proof.specs.Truth.{Follows, FollowsUnder};

use crate::basis::{Basis, are_choices, is_leaf};
use crate::literal::{apply_literal, complement, same_literal};
use crate::path::{Path, literal_at};
use crate::proof::Proof;
use px_terms::{Atom, ClauseArena, Lit, Term, equal};

/// Returns whether the proof term proves the literal under the path.
#[cycle(proves)]
fn proves(proof: &Proof, arena: &ClauseArena, basis: &Basis, path: &Path, lit: &Lit) -> bool
    ensures { IsTrue result ↔ Proves (rules_of basis.now) arena.now (path_literals path.now) lit.now (derivation_of proof.now) }
{
    match proof {
        Proof::Fact(leaf) => lit.positive && equal(&lit.atom, &leaf.atom) && is_leaf(basis, leaf),
        Proof::Anc(place) => match literal_at(path, *place) {
            Some(above) => same_literal(&above, &complement(lit)),
            None => false,
        },
        Proof::Step {
            clause,
            theta,
            place,
            subs,
        } => step_proves(
            subs.as_slice(),
            arena,
            basis,
            path,
            lit,
            *clause,
            theta.as_slice(),
            *place,
        ),
        Proof::Gap(_) => false,
    }
}

/// Returns whether the step with the clause at that place is a proof of the literal under the path.
#[cycle(proves)]
fn step_proves(
    subs: &[Proof],
    arena: &ClauseArena,
    basis: &Basis,
    path: &Path,
    lit: &Lit,
    clause: u32,
    theta: &[Term],
    place: u32,
) -> bool
    ensures { IsTrue result ↔ Proves (rules_of basis.now) arena.now (path_literals path.now) lit.now
        (step clause theta.now place (derivations (map derivation_of subs.now))) }
{
    if !uses_clause(arena, basis, lit, clause, theta, place) {
        return false;
    }
    let below = Path::Under(&*lit, &*path);
    each_proves(subs, arena, basis, &below, arena.lits(clause), theta, place)
}

/// Returns whether the proof terms prove, in order, the complements of the other literals of the clause.
#[cycle(proves)]
fn each_proves(
    subs: &[Proof],
    arena: &ClauseArena,
    basis: &Basis,
    path: &Path,
    lits: &[Lit],
    theta: &[Term],
    place: u32,
) -> bool
    requires place { place < length lits.now }
    requires plain { ArePlainBelow (length theta.now) lits.now }
    ensures { IsTrue result ↔ ProvesEach (rules_of basis.now) arena.now (path_literals path.now) (parts_of lits.now theta.now place)
        (derivations (map derivation_of subs.now)) }
{
    if subs.len() != lits.len() - 1 {
        return false;
    }
    for (k, sub) in subs.iter().enumerate() {
        let part = part_at(lits, theta, place, k);
        if !proves(sub, arena, basis, path, &part) {
            return false;
        }
    }
    true
}

/// Returns what the part of that number of a step has to prove: the complement of the clause's literal that it answers, under
/// `theta`. The literal at `place` has no part. Does not allocate.
pub fn part_at(lits: &[Lit], theta: &[Term], place: u32, part: usize) -> Lit
    requires place { place < length lits.now }
    requires part { part + 1 < length lits.now }
    requires plain { ArePlainBelow (length theta.now) lits.now }
    ensures { slice_get (parts_of lits.now theta.now place) part ≡ Some result }
{
    let other = if part < place as usize {
        part
    } else {
        part + 1
    };
    complement(&apply_literal(theta, &lits[other]))
}

/// Returns whether the clause of that number, under `theta`, has the literal at that place.
fn uses_clause(
    arena: &ClauseArena,
    basis: &Basis,
    lit: &Lit,
    number: u32,
    theta: &[Term],
    place: u32,
) -> bool
    ensures { IsTrue result ↔ ((clause : Clause) × UsesClause (rules_of basis.now).IsChoice arena.now lit.now number theta.now place
        clause) }
{
    if number >= arena.count() || theta.len() != arena.variable_count(number) as usize {
        return false;
    }
    are_choices(basis, theta) && is_literal_at(arena.lits(number), theta, place, lit)
}

/// Returns whether `lit` is the literal at that place under `theta`.
fn is_literal_at(lits: &[Lit], theta: &[Term], place: u32, lit: &Lit) -> bool
    requires { ArePlainBelow (length theta.now) lits.now }
    ensures { IsTrue result ↔ (slice_get (instance_of lits.now theta.now) place ≡ Some lit.now) }
{
    if place as usize >= lits.len() {
        return false;
    }
    same_literal(&apply_literal(theta, &lits[place as usize]), lit)
}

/// Returns whether `proof` is a proof of `lit` from the facts, without variables and gaps. A fact with a variable counts for nothing. The
/// answer is false where the number of a clause, a place or an ancestor isn't there, and where lists have wrong lengths.
///
/// The proofs are those of linear resolution with ancestors. Does not allocate; it calls itself once for each level.
pub fn check(arena: &ClauseArena, facts: &[Atom], lit: &Lit, proof: &Proof) -> bool
    ensures exact { IsTrue result ↔ Proves (from_facts facts.now) arena.now [] lit.now (derivation_of proof.now) }
    ensures terms { IsTrue result → All IsObject (terms_of (derivation_of proof.now)) }
    ensures sound { IsTrue result → Follows arena.now facts.now lit.now }
{
    proves(proof, arena, &Basis::Facts(facts), &Path::Root, lit)
}

/// Returns whether `proof` is a proof of `lit` without gaps from the atoms of its own leaves, over the first `objects` objects and
/// `params` parameters. `Var(v)` with `v` below `params` is a parameter, and counts as one more object. The answer is false for each
/// number and length for which that of `check` is, and where another term stands in `lit` or `proof`.
///
/// Does not allocate; it calls itself once for each level.
pub fn is_tree(arena: &ClauseArena, objects: u32, params: u32, lit: &Lit, proof: &Proof) -> bool
    ensures exact { IsTrue result ↔ IsTree arena.now objects params lit.now (derivation_of proof.now) }
    ensures terms { IsTrue result → All (IsObjectOrParameter objects params) (terms_of (derivation_of proof.now)) }
    ensures sound { IsTrue result → FollowsUnder arena.now params (leaf_atoms (leaves_of (derivation_of proof.now))) lit.now }
{
    let names = Basis::Names { objects, params };
    are_choices(&names, lit.atom.args()) && proves(proof, arena, &names, &Path::Root, lit)
}
