//! Names for the parameters that are left: parameters, in the order in which they first occur.
ghost use Rattle.std.specs.Prelude.{◌≡◌, ◌<◌, ◌≤◌, ◌+◌, ◌++◌, ◌∷◌, [], List, IfOk, length, replicate};
ghost use Rattle.px_base.specs.Bounds.{u32_max};
ghost use Rattle.px_terms.specs.declared.term.Term.{Term};
ghost use Rattle.px_terms.specs.declared.term.Term.TheVariants.{Any as WildCard};
ghost use Rattle.px_edit.specs.Parts.{AreNamesAlong, unnamed};

use px_base::NoMemory;
use px_terms::Term;
use std::alloc::Global;

/// Gives the term the next name, if it is a parameter without one. Returns the number that is then next.
fn name_term(names: &mut [Term], next: u32, term: Term) -> u32
    requires room { next + unnamed names.old ≤ u32_max }
    ensures long { length names.new ≡ length names.old }
    ensures left { result + unnamed names.new ≡ next + unnamed names.old }
    ensures names { (walked : List Term) → AreNamesAlong (length names.old) walked names.old next
        → AreNamesAlong (length names.old) (walked ++ term ∷ []) names.new result }
{
    let Term::Var(parameter) = term else {
        return next;
    };
    if parameter as usize >= names.len() {
        return next;
    }
    match names[parameter as usize] {
        Term::Any => {
            names[parameter as usize] = Term::Var(next);
            next + 1
        }
        Term::Obj(_) | Term::Var(_) => next,
    }
}

/// Gives the parameters among the terms their names, in order. Returns the number that is then next.
fn name_each(names: &mut [Term], terms: &[Term]) -> u32
    requires room { unnamed names.old ≤ u32_max }
    requires start { AreNamesAlong (length names.old) [] names.old 0 }
    ensures long { length names.new ≡ length names.old }
    ensures names { AreNamesAlong (length names.old) terms.now names.new result }
{
    let mut next = 0;
    for term in terms {
        next = name_term(names, next, *term);
    }
    next
}

/// The names of parameters.
#[derive(Drop)]
pub struct Names {
    /// How many parameters are left.
    pub params: u32,
    /// For each parameter its name, or the wild card where it isn't left.
    pub terms: Vec<Term>,
}

/// Returns that many wild cards.
fn no_names(alloc: Global, count: usize) -> Result<Vec<Term>, NoMemory>
    ensures { IfOk result (λ names. names.items ≡ replicate count WildCard) }
{
    let names = vec![in alloc; Term::Any; count]?;
    Ok(names)
}

/// Returns names for that many parameters, by the order in which they first occur among the terms.
pub fn names_along(alloc: Global, params: u32, walked: &[Term]) -> Result<Names, NoMemory>
    ensures { IfOk result (λ names. AreNamesAlong params walked.now names.terms.items names.params) }
{
    let mut terms = no_names(alloc, params as usize)?;
    let left = name_each(&mut terms, walked);
    Ok(Names {
        params: left,
        terms,
    })
}
