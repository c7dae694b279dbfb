//! What is known of two lists of needed formulas together.
ghost use Rattle.std.specs.Prelude.{◌≡◌, ◌↔◌, ◌⊎◌, ◌++◌, Contains, IfOk, IsTrue};
ghost use Rattle.px_terms.specs.AtomSets.{IsAtomSet};
ghost use Rattle.px_terms.specs.declared.atom.Atom.{Atom};
ghost use Rattle.px_entries.specs.Joined.{IsAtLimit, Joins};

use px_gaps::Known;
use px_terms::{Atom, NoMemory, Sequence};
use std::alloc::Global;

/// Returns whether it is the limit.
pub fn is_limited(known: &Known) -> bool
    ensures { IsTrue result ↔ IsAtLimit known.now }
{
    matches!(known, Known::Limited(_))
}

/// Returns the atoms of both lists, one after the other.
fn both_of(alloc: Global, first: &[Atom], second: &[Atom]) -> Result<Vec<Atom>, NoMemory>
    ensures { IfOk result (λ both. both.items ≡ first.now ++ second.now) }
{
    let mut both = Vec::new(alloc);
    both.extend_from_slice(first)?;
    both.extend_from_slice(second)?;
    Ok(both)
}

/// Returns the atoms of both lists, ascending, each once.
fn union_of(alloc: Global, first: &[Atom], second: &[Atom]) -> Result<Sequence<Atom>, NoMemory>
    ensures order { IfOk result IsAtomSet }
    ensures members { IfOk result (λ union. (atom : Atom) → Contains union atom ↔ (Contains first.now atom ⊎ Contains second.now atom)) }
{
    let mut union = both_of(alloc, first, second)?;
    union.sort_unstable();
    union.dedup();
    Ok(Sequence::from_vec(union))
}

/// Returns what is known of both parts, where the first is open with these gaps.
fn open_beside(alloc: Global, gaps: Sequence<Atom>, others: Known) -> Result<Known, NoMemory>
    ensures { IfOk result (Joins (Known.Open gaps) others) }
{
    match others {
        Known::Applicable => Ok(Known::Open(gaps)),
        Known::Open(more) => {
            let all = union_of(alloc, gaps.as_slice(), more.as_slice())?;
            Ok(Known::Open(all))
        }
        Known::Closed => Ok(Known::Closed),
        Known::Limited(limit) => Ok(Known::Limited(limit)),
    }
}

/// Returns what is known of both parts, where the first is closed.
fn closed_beside(others: Known) -> Known
    ensures { Joins Known.Closed others result }
{
    match others {
        Known::Applicable => Known::Closed,
        Known::Open(_) => Known::Closed,
        Known::Closed => Known::Closed,
        Known::Limited(limit) => Known::Limited(limit),
    }
}

/// Returns what is known of the one list followed by the other.
pub fn joined(alloc: Global, first: Known, second: Known) -> Result<Known, NoMemory>
    ensures { IfOk result (Joins first second) }
{
    match first {
        Known::Applicable => Ok(second),
        Known::Open(gaps) => open_beside(alloc, gaps, second),
        Known::Closed => Ok(closed_beside(second)),
        Known::Limited(limit) => Ok(Known::Limited(limit)),
    }
}
