//! Objects for a table's parameters, chosen one after the other.
ghost use Rattle.std.specs.Prelude.{◌≡◌, ◌<◌, ℕ, List, [], Some, length, slice_get, All, IfSome, IfNone, IfOk, IsSomeAnd, IsTrue, OnOk};
ghost use Rattle.px_terms.specs.Language.{IsObject};
ghost use Rattle.px_terms.specs.declared.term.Term.{Term as TermValue};
ghost use Rattle.px_terms.specs.declared.term.Term.TheVariants.{Var};
ghost use Rattle.px_gaps.specs.Bindings.{ExtendsTerms, IsBinding, first_values};
ghost use Rattle.px_gaps.specs.Closings.{OneOf};
ghost use Rattle.px_entries.specs.Parameters.{AreFirstTerms, FitsTerms, IsClash, IsFirstTerm, Matches, merged_term as merged_by};

use px_base::push;
use px_gaps::first_variable;
use px_table::{Table, is_used};
use px_terms::{NoMemory, Sequence, Term, object_of};
use std::alloc::Global;

/// Returns the parameter itself where the first steps use it, else object 0.
fn first_term(table: &Table, prefix: u32, parameter: u32) -> Term
    ensures { IsFirstTerm table.now prefix parameter result }
{
    if is_used(table, prefix, parameter) {
        return Term::Var(parameter);
    }
    Term::Obj(0)
}

/// Returns a term for each parameter of the table: the parameter itself where the first `prefix` steps use it, else object 0.
///
/// # Errors
/// `NoMemory` if there isn't enough memory.
pub fn first_terms(alloc: Global, table: &Table, prefix: u32) -> Result<Vec<Term>, NoMemory>
    ensures { IfOk result (λ terms. AreFirstTerms table.now prefix terms.items) }
{
    let mut terms = Vec::new(alloc);
    for parameter in 0..table.params {
        terms.push(first_term(table, prefix, parameter))?;
    }
    Ok(terms)
}

/// Returns the first parameter that has no object, or `None` if each has one.
pub fn first_unbound(terms: &[Term]) -> Option<u32>
    requires binding { (limit : ℕ) × IsBinding limit terms.now }
    ensures some { IfSome result (λ parameter. slice_get terms.now parameter ≡ Some (Var parameter)) }
    ensures none { IfNone result (All IsObject terms.now) }
{
    first_variable(terms)
}

/// Returns the objects that the parameters have.
///
/// # Errors
/// `NoMemory` if there isn't enough memory.
pub fn objects_of(alloc: Global, terms: &[Term]) -> Result<Vec<u32>, NoMemory>
    ensures { IfOk result (λ objects. objects.items ≡ first_values terms.now) }
{
    let mut objects = Vec::new(alloc);
    for term in terms {
        objects.push(object_of(*term))?;
    }
    Ok(objects)
}

/// Returns the object of both terms, or of the one that has one. `None` where they have two, or one that is no object of the problem.
pub fn merged_term(limit: u32, term: Term, other: Term) -> Option<Term>
    ensures { result ≡ merged_by limit term other }
{
    match term {
        Term::Any => Some(term),
        Term::Obj(object) => match other {
            Term::Obj(second) => { if object == second { Some(term) } else { None } }
            Term::Var(_) | Term::Any => Some(term),
        },
        Term::Var(_) => match other {
            Term::Obj(second) => { if second < limit { Some(other) } else { None } }
            Term::Var(_) | Term::Any => Some(term),
        },
    }
}

/// Returns whether no object of the problem fits both terms at the place.
fn clashes_at(limit: u32, terms: &[Term], others: &[Term], place: usize) -> bool
    requires long { length others.now ≡ length terms.now }
    requires within { place < length terms.now }
    ensures clash { IsTrue result → IsClash limit terms.now others.now place }
    ensures apart { IsTrue result → (sigma : List ℕ) → ExtendsTerms limit terms.now sigma → ¬ FitsTerms others.now sigma }
{
    merged_term(limit, terms[place], others[place]).is_none()
}

/// Returns a place at which the terms and the others clash, so that no objects of the problem fit both. `None` alone doesn't say that some
/// do. The place `first`, where there is one, is tried before all others, as a hint. Does not allocate.
pub fn clash(limit: u32, terms: &[Term], others: &[Term], first: usize) -> Option<usize>
    requires { length others.now ≡ length terms.now }
    ensures within { IfSome result (λ place. place < length terms.now) }
    ensures clash { IfSome result (IsClash limit terms.now others.now) }
    ensures apart { IfSome result (λ place. (sigma : List ℕ) → ExtendsTerms limit terms.now sigma → ¬ FitsTerms others.now sigma) }
{
    if first < terms.len() && clashes_at(limit, terms, others, first) {
        return Some(first);
    }
    for place in 0..terms.len() {
        if clashes_at(limit, terms, others, place) {
            return Some(place);
        }
    }
    None
}

/// Returns the terms with the objects of the others besides their own, or `None` if no objects of the problem fit both.
///
/// # Errors
/// `NoMemory` if there isn't enough memory.
pub fn merged(
    alloc: Global,
    limit: u32,
    terms: &[Term],
    others: &[Term],
) -> Result<Option<Vec<Term>>, NoMemory>
    requires { length others.now ≡ length terms.now }
    ensures binding { IfOk result (λ merged. IfSome merged (λ next. IsBinding limit terms.now → IsBinding limit next.items)) }
    ensures long { IfOk result (λ merged. IfSome merged (λ next. length next.items ≡ length terms.now)) }
    ensures fits { IfOk result (λ merged. (sigma : List ℕ) → ExtendsTerms limit terms.now sigma → FitsTerms others.now sigma
        → IsSomeAnd merged (λ next. ExtendsTerms limit next.items sigma)) }
{
    if clash(limit, terms, others, 0).is_some() {
        return Ok(None);
    }
    let mut next = Vec::new(alloc);
    next.reserve(terms.len())?;
    for place in 0..terms.len() {
        let term = match merged_term(limit, terms[place], others[place]) {
            Some(term) => term,
            None => return Ok(None),
        };
        next.push(term)?;
    }
    Ok(Some(next))
}

/// Appends the terms with the objects of the choice besides their own, where some objects may fit both.
fn push_merged(
    found: &mut Vec<Sequence<Term>>,
    alloc: Global,
    limit: u32,
    terms: &[Term],
    choice: &[Term],
) -> Result<(), NoMemory>
    requires long { length choice.now ≡ length terms.now }
    requires binding { IsBinding limit terms.now }
    ensures { OnOk result (Matches limit (length terms.now) terms.now (FitsTerms choice.now) found.old.items found.new.items) }
{
    match merged(alloc, limit, terms, choice)? {
        Some(next) => push(found, Sequence::from_vec(next)),
        None => Ok(()),
    }
}

/// Returns the terms with the objects of each of the choices besides their own, but for choices that fit no objects that they have. No clause
/// says which ones.
///
/// # Errors
/// `NoMemory` if there isn't enough memory.
pub fn merged_with_each(
    alloc: Global,
    limit: u32,
    terms: &[Term],
    choices: &[Sequence<Term>],
) -> Result<Vec<Sequence<Term>>, NoMemory>
    requires long { All (λ (choice : List TermValue). length choice ≡ length terms.now) choices.now }
    requires binding { IsBinding limit terms.now }
    ensures { IfOk result (λ found. Matches limit (length terms.now) terms.now
        (λ sigma. OneOf choices.now (λ (choice : List TermValue). FitsTerms choice sigma)) [] found.items) }
{
    let mut found = Vec::new(alloc);
    // most choices clash where the one before does
    let mut first = 0;
    for choice in choices {
        match clash(limit, terms, choice.as_slice(), first) {
            Some(place) => first = place,
            None => push_merged(&mut found, alloc, limit, terms, choice.as_slice())?,
        }
    }
    Ok(found)
}
