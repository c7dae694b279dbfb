//! Proof terms and their leaves.
ghost use Rattle.std.specs.Prelude.{◌≡◌, IfOk};

use px_base::{NoMemory, Sequence, push};
use px_terms::{Atom, Term};
use std::alloc::Global;

/// A fact that a proof rests on: its atom, and where the fact comes from.
#[derive(Clone, Copy, PartialEq, Eq, Debug)]
pub struct Leaf {
    /// The step that adds the atom, counted from 1, or 0 where it is there at first.
    pub column: u32,
    /// The atom's place in the add list of that step, or in the model.
    pub index: u32,
    pub atom: Atom,
}

/// A proof of a literal under a path of literals, which are those that stand above it.
#[derive(Drop)]
pub enum Proof {
    /// The literal is the atom of a fact.
    Fact(Leaf),
    /// The literal is the complement of the path's literal of that number, counted from the nearest.
    Anc(u32),
    /// The literal stands at `place` of the clause under `theta`, and each other literal's complement is proved.
    Step {
        clause: u32,
        theta: Sequence<Term>,
        place: u32,
        subs: Sequence<Proof>,
    },
    /// The literal is an atom that isn't proved.
    Gap(Atom),
}

impl Proof {
    /// Returns an equal proof, each list of it in memory of the allocator of the list that it copies.
    ///
    /// # Errors
    /// `NoMemory` where there is no memory for the copy.
    // Alike: `graft`, `substitute` and `open_plan` of `px_replay`, since one walk for all would call a closure in its cycle.
    #[cycle(copies)]
    pub fn try_copy(&self) -> Result<Proof, NoMemory>
        ensures { IfOk result (λ copy. copy ≡ self.now) }
    {
        match self {
            Proof::Fact(leaf) => Ok(Proof::Fact(*leaf)),
            Proof::Anc(place) => Ok(Proof::Anc(*place)),
            Proof::Step {
                clause,
                theta,
                place,
                subs,
            } => {
                let theta = theta.try_copy()?;
                let subs = copy_each(*subs.allocator(), subs.as_slice())?;
                Ok(Proof::Step {
                    clause: *clause,
                    theta,
                    place: *place,
                    subs: Sequence::from_vec(subs),
                })
            }
            Proof::Gap(atom) => Ok(Proof::Gap(*atom)),
        }
    }
}

/// Returns a copy of each of the proofs.
#[cycle(copies)]
fn copy_each(alloc: Global, proofs: &[Proof]) -> Result<Vec<Proof>, NoMemory>
    ensures { IfOk result (λ copies. copies.items ≡ proofs.now) }
{
    let mut copies = Vec::new(alloc);
    for proof in proofs {
        let copy = proof.try_copy()?;
        push(&mut copies, copy)?;
    }
    Ok(copies)
}
