//! Terms, atoms and literals at the front of bytes.
ghost use Rattle.std.specs.Prelude.{◌≡◌, IfOk, length};
ghost use Rattle.px_terms.specs.Limits.{most_literals};
ghost use Rattle.px_cert.specs.Reading.{Reads, ReadsWhole, atom_at, atoms_at, list_at, literal_at, many_at, object_at, sign_at, term_at, variable_at, wild_card_at};
ghost use Rattle.px_cert.specs.Sound.{IsSound};

use crate::draft::Draft;
use crate::limits::MOST_ATOMS;
use crate::refused::Refused;
use crate::words::{after, digits, expect, number};
use px_base::push;
use px_terms::{Atom, Lit, MOST_ARGUMENTS, MOST_LITERALS, Term};
use std::alloc::Global;

/// Reads the digits of an object below the limit.
fn object(bytes: &[u8], objects: u32) -> Result<(Term, &[u8]), Refused>
    ensures { Reads (λ x. (x.0, x.1.now)) result (object_at objects bytes.now) }
{
    let (number, rest) = digits(bytes, objects)?;
    Ok((Term::Obj(number), rest))
}

/// Reads the digits of a variable below the limit.
fn variable(bytes: &[u8], variable_count: u32) -> Result<(Term, &[u8]), Refused>
    ensures { Reads (λ x. (x.0, x.1.now)) result (variable_at variable_count bytes.now) }
{
    let (number, rest) = digits(bytes, variable_count)?;
    Ok((Term::Var(number), rest))
}

/// Reads the wild card, where it may stand.
fn wild_card(bytes: &[u8], wild: bool) -> Result<(Term, &[u8]), Refused>
    ensures { Reads (λ x. (x.0, x.1.now)) result (wild_card_at wild bytes.now) }
{
    let rest = expect(bytes, b" $")?;
    if wild {
        Ok((Term::Any, rest))
    } else {
        Err(Refused::Bad)
    }
}

/// Reads a term: an object or a variable below its limit, or the wild card where it may stand.
#[tactic(auto, unfolding(crate::specs::Reading::term_at))]
fn term(
    bytes: &[u8],
    objects: u32,
    variable_count: u32,
    wild: bool,
) -> Result<(Term, &[u8]), Refused>
    ensures { Reads (λ x. (x.0, x.1.now)) result (term_at objects variable_count wild bytes.now) }
{
    match after(bytes, b" o") {
        Some(rest) => object(rest, objects),
        None => match after(bytes, b" v") {
            Some(rest) => variable(rest, variable_count),
            None => wild_card(bytes, wild),
        },
    }
}

/// Reads as many terms as there is room for, and returns what is left of the bytes.
pub(crate) fn fill<'a>(
    terms: &mut [Term],
    bytes: &'a [u8],
    objects: u32,
    variable_count: u32,
    wild: bool,
) -> Result<&'a [u8], Refused>
    ensures read { ReadsWhole terms.new result (many_at (term_at objects variable_count wild) (length terms.old) bytes.now) }
    ensures count { length terms.new ≡ length terms.old }
{
    let mut rest = bytes;
    for place in 0..terms.len() {
        let (value, more) = term(rest, objects, variable_count, wild)?;
        terms[place] = value;
        rest = more;
    }
    Ok(rest)
}

/// Reads an atom over the draft's objects and some variables.
#[tactic(auto, unfolding(crate::specs::Reading::atom_at))]
pub(crate) fn atom<'a>(
    draft: &Draft,
    bytes: &'a [u8],
    variable_count: u32,
    wild: bool,
) -> Result<(Atom, &'a [u8]), Refused>
    requires { IsSound draft.now }
    ensures { Reads (λ x. (x.0, x.1.now)) result (atom_at draft.now variable_count wild bytes.now) }
{
    let (pred, rest) = number(bytes, draft.arities.len() as u32)?;
    let arity = usize::from(draft.arities.as_slice()[pred as usize]);
    let mut terms = [Term::Any; MOST_ARGUMENTS];
    let rest = fill(
        &mut terms[..arity],
        rest,
        draft.objects.len() as u32,
        variable_count,
        wild,
    )?;
    Ok((Atom::of(pred, &terms[..arity]), rest))
}

/// Reads so many atoms.
fn many_atoms<'a>(
    alloc: Global,
    draft: &Draft,
    bytes: &'a [u8],
    count: u32,
    variable_count: u32,
    wild: bool,
) -> Result<(Vec<Atom>, &'a [u8]), Refused>
    requires { IsSound draft.now }
    ensures { Reads (λ x. (x.0.items, x.1.now)) result (many_at (atom_at draft.now variable_count wild) count bytes.now) }
{
    let mut atoms = Vec::new(alloc);
    let mut rest = bytes;
    for _ in 0..count {
        let (next, more) = match atom(draft, rest, variable_count, wild) {
            Ok(read) => read,
            Err(refused) => return Err(refused),
        };
        push(&mut atoms, next)?;
        rest = more;
    }
    Ok((atoms, rest))
}

/// Reads a list of atoms, of an operator or of a goal.
#[tactic(auto, unfolding(crate::specs::Reading::list_at))]
pub(crate) fn atoms<'a>(
    alloc: Global,
    draft: &Draft,
    bytes: &'a [u8],
    variable_count: u32,
    wild: bool,
) -> Result<(Vec<Atom>, &'a [u8]), Refused>
    requires { IsSound draft.now }
    ensures { Reads (λ x. (x.0.items, x.1.now)) result (atoms_at draft.now variable_count wild bytes.now) }
{
    let (count, rest) = number(bytes, MOST_ATOMS + 1)?;
    many_atoms(alloc, draft, rest, count, variable_count, wild)
}

/// Reads the sign of a literal: whether its atom is asserted.
#[tactic(auto, unfolding(crate::specs::Reading::sign_at))]
fn sign(bytes: &[u8]) -> Result<(bool, &[u8]), Refused>
    ensures { Reads (λ x. (x.0, x.1.now)) result (sign_at bytes.now) }
{
    let (sign, rest) = number(bytes, 2)?;
    Ok((sign == 1, rest))
}

/// Reads a literal over the draft's objects and some variables.
#[tactic(auto, unfolding(crate::specs::Reading::literal_at))]
fn literal<'a>(
    draft: &Draft,
    bytes: &'a [u8],
    variable_count: u32,
) -> Result<(Lit, &'a [u8]), Refused>
    requires { IsSound draft.now }
    ensures { Reads (λ x. (x.0, x.1.now)) result (literal_at draft.now variable_count bytes.now) }
{
    let (positive, rest) = sign(bytes)?;
    match atom(draft, rest, variable_count, false) {
        Ok((atom, rest)) => Ok((Lit { positive, atom }, rest)),
        Err(refused) => Err(refused),
    }
}

/// Reads so many literals.
fn many_literals<'a>(
    alloc: Global,
    draft: &Draft,
    bytes: &'a [u8],
    count: u32,
    variable_count: u32,
) -> Result<(Vec<Lit>, &'a [u8]), Refused>
    requires { IsSound draft.now }
    ensures { Reads (λ x. (x.0.items, x.1.now)) result (many_at (literal_at draft.now variable_count) count bytes.now) }
{
    let mut lits = Vec::new(alloc);
    let mut rest = bytes;
    for _ in 0..count {
        let (next, more) = match literal(draft, rest, variable_count) {
            Ok(read) => read,
            Err(refused) => return Err(refused),
        };
        push(&mut lits, next)?;
        rest = more;
    }
    Ok((lits, rest))
}

/// Reads the literals of an axiom.
#[tactic(auto, unfolding(crate::specs::Reading::list_at))]
pub(crate) fn literals<'a>(
    alloc: Global,
    draft: &Draft,
    bytes: &'a [u8],
    variable_count: u32,
) -> Result<(Vec<Lit>, &'a [u8]), Refused>
    requires { IsSound draft.now }
    ensures { Reads (λ x. (x.0.items, x.1.now)) result (list_at (literal_at draft.now variable_count) most_literals bytes.now) }
{
    let (count, rest) = number(bytes, MOST_LITERALS as u32 + 1)?;
    many_literals(alloc, draft, rest, count, variable_count)
}
