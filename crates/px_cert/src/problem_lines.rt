//! The lines of a certificate's problem.
ghost use Rattle.std.specs.Prelude.{◌≡◌, ◌+◌, ◌++◌, ◌∷◌, [], ◌<◌, IfErr, IfOk, OnOk, codes, length};
ghost use Rattle.px_base.specs.Bounds.{u32_max};
ghost use Rattle.px_terms.specs.Clauses.{IsClause};
ghost use Rattle.px_cert.specs.declared.refused.Refused.TheVariants as refused;
ghost use Rattle.px_cert.specs.declared.draft.Due.TheVariants as due;
ghost use Rattle.px_terms.specs.Limits.{most_arguments, most_clauses, most_parameters};
ghost use Rattle.px_cert.specs.Drafts.{after_line, axioms_then, operators_then};
ghost use Rattle.px_cert.specs.Limits.{most_objects, most_operators, most_predicates};
ghost use Rattle.px_cert.specs.Lines.{add, axioms, clause, delete, heading, objects, operator, operators, pre, predicates};
ghost use Rattle.px_cert.specs.Reading.{Leaves, Reads, atoms_at, clause_items, has_object, heading_items, line_of, list_at, number_at, operator_items, sorts_at, then_at};
ghost use Rattle.px_cert.specs.Sound.{IsSound};

use crate::draft::{Draft, Due};
use crate::limits::{GREATEST_SORT, MOST_OBJECTS, MOST_OPERATORS, MOST_PREDICATES};
use crate::numbers::{numbers, small_numbers};
use crate::refused::Refused;
use crate::terms::{atoms, literals};
use crate::words::{expect, number};
use px_base::{NoMemory, Sequence, push};
use px_terms::{
    Clause, Lit, MOST_ARGUMENTS, MOST_CLAUSES, MOST_FORMULA_VARIABLES, MOST_PARAMETERS, Schema,
};
use std::alloc::Global;

/// Returns what is due where so many axioms come.
#[tactic(auto, using(crate::proofs::LineRooms::axioms_next))]
fn axioms_then(more: u32) -> Due
    ensures { result ≡ axioms_then more }
{
    if more == 0 {
        Due::Operators
    } else {
        Due::Axiom(more - 1)
    }
}

/// Returns what is due where so many operators come.
#[tactic(auto, using(crate::proofs::LineRooms::operators_next))]
pub(crate) fn operators_then(more: u32) -> Due
    ensures { result ≡ operators_then more }
{
    if more == 0 {
        Due::Table
    } else {
        Due::Operator(more - 1)
    }
}

/// Reads the first line.
#[tactic(auto, unfolding(crate::specs::Reading::line_of))]
pub(crate) fn heading_line<'a>(draft: &mut Draft, bytes: &'a [u8]) -> Result<&'a [u8], Refused>
    ensures { Leaves draft.new result
        (then_at (line_of (codes "planex") heading_items bytes.now) (λ read. after_line draft.old heading)) }
{
    let rest = expect(bytes, b"planex")?;
    let rest = expect(rest, b" certificate 1")?;
    let rest = expect(rest, b"\n")?;
    draft.due = Due::Objects;
    Ok(rest)
}

/// Reads a line of sorts.
#[tactic(auto, unfolding(crate::specs::Reading::line_of))]
pub(crate) fn sorts_line<'a>(
    alloc: Global,
    bytes: &'a [u8],
    word: &[u8],
    most: u32,
) -> Result<(Vec<u32>, &'a [u8]), Refused>
    requires { most < u32_max }
    ensures { Reads (λ x. (x.0.items, x.1.now)) result (line_of word.now (sorts_at most) bytes.now) }
{
    let rest = expect(bytes, word)?;
    let (sorts, rest) = numbers(alloc, rest, most, GREATEST_SORT + 1)?;
    let rest = expect(rest, b"\n")?;
    Ok((sorts, rest))
}

/// Reads a line of one number.
#[tactic(auto, unfolding(crate::specs::Reading::line_of))]
pub(crate) fn number_line<'a>(
    bytes: &'a [u8],
    word: &[u8],
    limit: u32,
) -> Result<(u32, &'a [u8]), Refused>
    ensures read { Reads (λ x. (x.0, x.1.now)) result (line_of word.now (number_at limit) bytes.now) }
    ensures below { IfOk result (λ x. x.0 < limit) }
{
    let rest = expect(bytes, word)?;
    let (count, rest) = number(rest, limit)?;
    let rest = expect(rest, b"\n")?;
    Ok((count, rest))
}

/// Reads the line of the objects.
pub(crate) fn objects_line<'a>(
    alloc: Global,
    draft: &mut Draft,
    bytes: &'a [u8],
) -> Result<&'a [u8], Refused>
    ensures { Leaves draft.new result
        (then_at (line_of (codes "objects") (sorts_at most_objects) bytes.now) (λ read. after_line draft.old (objects read))) }
{
    let (sorts, rest) = sorts_line(alloc, bytes, b"objects", MOST_OBJECTS)?;
    draft.objects = Sequence::from_vec(sorts);
    draft.due = Due::Predicates;
    Ok(rest)
}

/// Reads the line of the predicates.
#[tactic(auto, unfolding(crate::specs::Reading::line_of))]
pub(crate) fn predicates_line<'a>(
    alloc: Global,
    draft: &mut Draft,
    bytes: &'a [u8],
) -> Result<&'a [u8], Refused>
    ensures { Leaves draft.new result
        (then_at (line_of (codes "predicates") (list_at (number_at (most_arguments + 1)) most_predicates) bytes.now)
        (λ read. after_line draft.old (predicates read))) }
{
    let rest = expect(bytes, b"predicates")?;
    let (arities, rest) = small_numbers(alloc, rest, MOST_PREDICATES, MOST_ARGUMENTS as u8 + 1)?;
    let rest = expect(rest, b"\n")?;
    draft.arities = Sequence::from_vec(arities);
    draft.due = Due::Axioms;
    Ok(rest)
}

/// Reads the line of the number of axioms.
pub(crate) fn axioms_line<'a>(draft: &mut Draft, bytes: &'a [u8]) -> Result<&'a [u8], Refused>
    ensures { Leaves draft.new result
        (then_at (line_of (codes "axioms") (number_at (most_clauses + 1)) bytes.now) (λ read. after_line draft.old (axioms read))) }
{
    let (count, rest) = number_line(bytes, b"axioms", MOST_CLAUSES as u32 + 1)?;
    draft.due = axioms_then(count);
    Ok(rest)
}

/// Returns whether there is an object for so many variables or parameters.
pub(crate) fn has_object_for(draft: &Draft, count: usize) -> bool
    ensures { result ≡ has_object draft.now count }
{
    count == 0 || draft.objects.len() >= 1
}

/// Reads the items of an axiom: how many variables it has, and its literals.
#[tactic(auto, unfolding(crate::specs::Reading::clause_items))]
fn clause_items<'a>(
    alloc: Global,
    draft: &Draft,
    bytes: &'a [u8],
) -> Result<(Clause, &'a [u8]), Refused>
    requires { IsSound draft.now }
    ensures { Reads (λ x. (x.0, x.1.now)) result (clause_items draft.now bytes.now) }
{
    let (variable_count, rest) = number(bytes, MOST_FORMULA_VARIABLES as u32 + 1)?;
    let (lits, rest) = literals(alloc, draft, rest, variable_count)?;
    if lits.is_empty() || !has_object_for(draft, variable_count as usize) {
        return Err(Refused::Bad);
    }
    let made = Clause {
        variable_count,
        lits: Sequence::from_vec(lits),
    };
    Ok((made, rest))
}

/// Adds the axiom to those of the draft.
fn add_axiom(draft: &mut Draft, made: &Clause) -> Result<(), Refused>
    requires room { length draft.old.axioms < most_clauses }
    requires clause { IsClause made.now }
    ensures ok { OnOk result (draft.new ≡ record draft.old { axioms = draft.old.axioms ++ made.now ∷ [] }) }
    ensures err { IfErr result (λ e. e ≡ refused.NoMemory) }
{
    match draft.axioms.push(made.variable_count, made.lits.as_slice()) {
        Ok(_) => Ok(()),
        Err(_) => Err(Refused::NoMemory),
    }
}

/// Reads the line of an axiom, after which so many come.
#[tactic(auto, unfolding(crate::specs::Reading::line_of))]
pub(crate) fn axiom_line<'a>(
    alloc: Global,
    draft: &mut Draft,
    bytes: &'a [u8],
    more: u32,
) -> Result<&'a [u8], Refused>
    requires due { draft.old.due ≡ due.Axiom more }
    requires sound { IsSound draft.old }
    ensures { Leaves draft.new result
        (then_at (line_of (codes "axiom") (clause_items draft.old) bytes.now) (λ read. after_line draft.old (clause read))) }
{
    let rest = expect(bytes, b"axiom")?;
    let (made, rest) = clause_items(alloc, draft, rest)?;
    let rest = expect(rest, b"\n")?;
    add_axiom(draft, &made)?;
    draft.due = axioms_then(more);
    Ok(rest)
}

/// Reads the line of the number of operators.
pub(crate) fn operators_line<'a>(draft: &mut Draft, bytes: &'a [u8]) -> Result<&'a [u8], Refused>
    ensures { Leaves draft.new result
        (then_at (line_of (codes "operators") (number_at (most_operators + 1)) bytes.now) (λ read. after_line draft.old (operators read))) }
{
    let (count, rest) = number_line(bytes, b"operators", MOST_OPERATORS + 1)?;
    draft.due = operators_then(count);
    Ok(rest)
}
