//! From bindings to names: what each fresh variable is bound to, and the parameters in order.
ghost use Rattle.std.specs.Prelude.{◌≡◌, ◌≤◌, ◌+◌, ◌++◌, ◌∷◌, [], List, IfOk, length, All, replicate};
ghost use Rattle.px_terms.specs.declared.term.Term.TheVariants.{Any as WildCard};
ghost use Rattle.px_terms.specs.declared.term.Term.{Term};
ghost use Rattle.px_terms.specs.Language.{IsVariableBelow};
ghost use Rattle.px_general.specs.Naming.{AreLabels, HasRootsBelow, IsResolved, unlabelled};

use px_base::{NoMemory, push};
use px_terms::{Term, apply_term};
use px_unify::{Bind, MOST_VARIABLES};
use std::alloc::Global;

/// Returns what each variable is bound to in the end.
pub fn resolve_all(alloc: Global, bind: &Bind) -> Result<Vec<Term>, NoMemory>
    ensures { IfOk result (λ resolved. IsResolved bind.now resolved.items) }
{
    let count = bind.variables();
    let mut resolved = Vec::new(alloc);
    for v in 0..count {
        push(&mut resolved, bind.resolve(Term::Var(v)))?;
    }
    Ok(resolved)
}

/// Gives the root of the term the next label, if it is a variable without one. Returns the label that is then next.
fn label(labels: &mut [Term], next: u32, resolved: &[Term], term: Term) -> u32
    requires room { next + unlabelled labels.old ≤ MOST_VARIABLES }
    requires roots { HasRootsBelow (length labels.old) resolved.now }
    requires inside { IsVariableBelow (length resolved.now) term }
    ensures long { length labels.new ≡ length labels.old }
    ensures left { result + unlabelled labels.new ≡ next + unlabelled labels.old }
    ensures labels { (walked : List Term) → AreLabels resolved.now labels.old next walked
        → AreLabels resolved.now labels.new result (walked ++ term ∷ []) }
{
    match apply_term(resolved, term) {
        Term::Var(root) => match labels[root as usize] {
            Term::Var(_) => next,
            Term::Obj(_) | Term::Any => {
                labels[root as usize] = Term::Var(next);
                next + 1
            }
        },
        Term::Obj(_) | Term::Any => next,
    }
}

/// Gives the roots of the terms their labels, in order. Returns the label that is then next.
fn label_each(labels: &mut [Term], next: u32, resolved: &[Term], terms: &[Term]) -> u32
    requires room { next + unlabelled labels.old ≤ MOST_VARIABLES }
    requires roots { HasRootsBelow (length labels.old) resolved.now }
    requires inside { All (IsVariableBelow (length resolved.now)) terms.now }
    ensures long { length labels.new ≡ length labels.old }
    ensures left { result + unlabelled labels.new ≡ next + unlabelled labels.old }
    ensures labels { (walked : List Term) → AreLabels resolved.now labels.old next walked
        → AreLabels resolved.now labels.new result (walked ++ terms.now) }
{
    let mut given = next;
    for term in terms {
        given = label(labels, given, resolved, *term);
    }
    given
}

/// Returns `count` wild cards.
fn no_labels(alloc: Global, count: usize) -> Result<Vec<Term>, NoMemory>
    ensures { IfOk result (λ labels. labels.items ≡ replicate count WildCard) }
{
    let labels = vec![in alloc; Term::Any; count]?;
    Ok(labels)
}

/// The parameters that stand for what variables are bound to.
#[derive(Drop)]
pub struct Labels {
    /// How many parameters there are.
    pub params: u32,
    /// For each variable its parameter, or the wild card where it has none.
    pub terms: Vec<Term>,
}

/// Numbers the variables that the terms are bound to in the order in which they first occur.
pub fn labels_along(alloc: Global, resolved: &[Term], walked: &[Term]) -> Result<Labels, NoMemory>
    requires few { length resolved.now ≤ MOST_VARIABLES }
    requires roots { HasRootsBelow (length resolved.now) resolved.now }
    requires inside { All (IsVariableBelow (length resolved.now)) walked.now }
    ensures few { IfOk result (λ labels. labels.params ≤ length resolved.now) }
    ensures long { IfOk result (λ labels. length labels.terms.items ≡ length resolved.now) }
    ensures labels { IfOk result (λ labels. AreLabels resolved.now labels.terms.items labels.params walked.now) }
{
    let mut terms = no_labels(alloc, resolved.len())?;
    let params = label_each(&mut terms, 0, resolved, walked);
    Ok(Labels { params, terms })
}
