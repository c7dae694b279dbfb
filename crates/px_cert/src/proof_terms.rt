//! Proofs at the front of bytes.
ghost use Rattle.px_cert.specs.Limits.{greatest_written_height};
ghost use Rattle.px_cert.specs.Reading.{Reads, ancestor_at, fact_at, list_at, many_at, proof_at, row_items, step_at};
ghost use Rattle.px_cert.specs.Sound.{IsSound};

use crate::draft::Draft;
use crate::limits::{GREATEST_WRITTEN_HEIGHT, MOST_ATOMS, MOST_PLACES, TABLE_VARIABLES};
use crate::refused::Refused;
use crate::terms::{atom, fill};
use crate::words::{after, number};
use px_base::{Sequence, push};
use px_proof::{Leaf, Proof};
use px_terms::Term;
use std::alloc::Global;

/// Reads the rest of a fact leaf.
#[tactic(auto, unfolding(crate::specs::Reading::fact_at))]
fn fact<'a>(draft: &Draft, bytes: &'a [u8]) -> Result<(Proof, &'a [u8]), Refused>
    requires { IsSound draft.now }
    ensures { Reads (λ x. (x.0, x.1.now)) result (fact_at draft.now bytes.now) }
{
    let (column, rest) = number(bytes, MOST_PLACES + 1)?;
    let (index, rest) = number(rest, MOST_PLACES + 1)?;
    match atom(draft, rest, TABLE_VARIABLES, true) {
        Ok((atom, rest)) => Ok((
            Proof::Fact(Leaf {
                column,
                index,
                atom,
            }),
            rest,
        )),
        Err(refused) => Err(refused),
    }
}

/// Reads the rest of an ancestor.
#[tactic(auto, unfolding(crate::specs::Reading::ancestor_at))]
fn ancestor(bytes: &[u8]) -> Result<(Proof, &[u8]), Refused>
    ensures { Reads (λ x. (x.0, x.1.now)) result (ancestor_at bytes.now) }
{
    let (place, rest) = number(bytes, MOST_PLACES + 1)?;
    Ok((Proof::Anc(place), rest))
}

/// Reads a proof of at most so many levels.
#[cycle(levels)]
fn proof<'a>(
    alloc: Global,
    draft: &Draft,
    bytes: &'a [u8],
    levels: u32,
) -> Result<(Proof, &'a [u8]), Refused>
    requires { IsSound draft.now }
    ensures { Reads (λ x. (x.0, x.1.now)) result (proof_at draft.now levels bytes.now) }
{
    if levels == 0 {
        return Err(Refused::Bad);
    }
    match after(bytes, b" f") {
        Some(rest) => fact(draft, rest),
        None => match after(bytes, b" a") {
            Some(rest) => ancestor(rest),
            None => match after(bytes, b" s") {
                Some(rest) => step(alloc, draft, rest, levels - 1),
                None => Err(Refused::Bad),
            },
        },
    }
}

/// Reads the rest of a step by an axiom, whose parts have at most so many levels.
#[cycle(levels)]
fn step<'a>(
    alloc: Global,
    draft: &Draft,
    bytes: &'a [u8],
    levels: u32,
) -> Result<(Proof, &'a [u8]), Refused>
    requires { IsSound draft.now }
    ensures { Reads (λ x. (x.0, x.1.now)) result (step_at draft.now (proof_at draft.now levels) bytes.now) }
{
    let axioms = &draft.axioms;
    let (clause, rest) = number(bytes, axioms.count())?;
    let (place, rest) = number(rest, MOST_PLACES + 1)?;
    let mut theta = vec![in alloc; Term::Any; axioms.variable_count(clause) as usize]?;
    let objects = draft.objects.len() as u32;
    let rest = fill(&mut theta, rest, objects, TABLE_VARIABLES, true)?;
    let count = axioms.lits(clause).len() as u32 - 1;
    let (subs, rest) = many_proofs(alloc, draft, rest, count, levels)?;
    let made = Proof::Step {
        clause,
        theta: Sequence::from_vec(theta),
        place,
        subs: Sequence::from_vec(subs),
    };
    Ok((made, rest))
}

/// Reads so many proofs, of at most so many levels.
#[cycle(levels)]
fn many_proofs<'a>(
    alloc: Global,
    draft: &Draft,
    bytes: &'a [u8],
    count: u32,
    levels: u32,
) -> Result<(Vec<Proof>, &'a [u8]), Refused>
    requires { IsSound draft.now }
    ensures { Reads (λ x. (x.0.items, x.1.now)) result (many_at (proof_at draft.now levels) count bytes.now) }
{
    let mut proofs = Vec::new(alloc);
    let mut rest = bytes;
    for _ in 0..count {
        let (next, more) = match proof(alloc, draft, rest, levels) {
            Ok(read) => read,
            Err(refused) => return Err(refused),
        };
        push(&mut proofs, next)?;
        rest = more;
    }
    Ok((proofs, rest))
}

/// Reads the proofs of a row.
#[tactic(auto, unfolding(crate::specs::Reading::list_at))]
pub(crate) fn row_proofs<'a>(
    alloc: Global,
    draft: &Draft,
    bytes: &'a [u8],
) -> Result<(Vec<Proof>, &'a [u8]), Refused>
    requires { IsSound draft.now }
    ensures { Reads (λ x. (x.0.items, x.1.now)) result (row_items draft.now bytes.now) }
{
    let (count, rest) = number(bytes, MOST_ATOMS + 1)?;
    many_proofs(alloc, draft, rest, count, GREATEST_WRITTEN_HEIGHT)
}
