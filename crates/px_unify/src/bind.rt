//! Variables and their bindings, which can be taken back, and the unification of two atoms.
ghost use Rattle.std.specs.Prelude.{◌≡◌, ◌+◌, ◌<◌, ◌≤◌, ◌↔◌, [], ◌++◌, ◌∷◌, ◌-◌, length, take, replicate, All, OnOk, OnErr, IfOk, IsErr};
ghost use Rattle.px_terms.specs.Language.{IsPlainBelow, substitute};
ghost use Rattle.px_terms.specs.declared.term.Term.{Term};
ghost use Rattle.px_unify.specs.Changes.{variables_of, AreOneUnder, Binds, HasSolutions, IsRoot, IsUnbound, MakesEqual, NarrowedBy, NoneFits};

use crate::change::{BindErr, Change, Clash, MOST_VARIABLES};
use crate::room::add_variables;
use px_terms::{Atom, Term};
use std::alloc::Global;
use std::marker::Model;

/// Variables and their bindings, seen as the list of the changes that made them.
#[derive(Drop)]
pub struct Bind {
    changes: Vec<Change>,
    slots: Vec<Option<Term>>,
}

impl Model for Bind {
    ghost use Rattle.std.specs.Prelude.{List, vec_capacity};
    ghost use Rattle.px_unify.specs.declared.change.Change.{Change};
    ghost use Rattle.px_unify.specs.Changes.{IsConsistent};

    ghost Value = { List Change };

    ghost view = { λ b. b.changes.items };

    ghost invariant = { λ b. IsConsistent b.changes.items b.slots.items (vec_capacity b.changes) };
}

/// A place in the list of changes, seen as the length of the list before it.
#[derive(Clone, Copy, PartialEq, Eq, PartialOrd, Ord, Debug)]
pub struct TrailMark(usize);

impl Model for TrailMark {
    ghost use Rattle.std.specs.Prelude.{ℕ};

    ghost Value = { ℕ };

    ghost view = { λ m. m.0 };

    ghost inverse = { λ n. record { 0 = n } };
}

impl Bind {
    /// Returns bindings without variables. Takes no memory until `fresh` does.
    pub fn new(alloc: Global) -> Bind
        ensures { result ≡ [] }
    {
        Bind {
            changes: Vec::new(alloc),
            slots: Vec::new(alloc),
        }
    }

    /// Returns how many variables there are.
    pub fn variables(&self) -> u32
        ensures count { result ≡ variables_of self.now }
        ensures most { variables_of self.now ≤ MOST_VARIABLES }

        // Whatever the variables that are not bound stand for, some substitution fits.
        ensures solvable { HasSolutions self.now }
    {
        self.slots.len() as u32
    }

    /// Returns the place after the changes so far.
    pub fn mark(&self) -> TrailMark
        ensures place { result ≡ length self.now }

        // Whatever the variables that are not bound stand for, some substitution fits.
        ensures solvable { HasSolutions self.now }
    {
        TrailMark(self.changes.len())
    }

    /// Returns where the bindings of a term lead: to an object, or to a variable that is not bound.
    pub fn resolve(&self, term: Term) -> Term
        requires { IsPlainBelow (variables_of self.now) term }
        // Each substitution that fits gives the two one value, and there is nothing to follow further.
        ensures value { AreOneUnder self.now term result }
        ensures root { IsRoot self.now result }

        // Whatever the variables that are not bound stand for, some substitution fits.
        ensures solvable { HasSolutions self.now }
    {
        let mut at = term;
        while let Term::Var(v) = at {
            match self.slots[v as usize] {
                None => return at,
                Some(next) => at = next,
            }
        }
        at
    }

    /// Adds `count` variables that are not bound, with room to bind each, and returns the number of the first.
    ///
    /// # Errors
    /// `Full` where there would be more than [`MOST_VARIABLES`] variables, and `NoMemory`.
    pub fn fresh(&mut self, count: u32) -> Result<u32, BindErr>
        ensures first { IfOk result (λ first. first ≡ variables_of self.old) }
        ensures ok { OnOk result (self.new ≡ self.old ++ replicate count Change.Fresh) }
        ensures full { (result ≡ Err BindErr.Full) ↔ (MOST_VARIABLES < variables_of self.old + count) }
        ensures err { OnErr result (self.new ≡ self.old) }

        // Whatever the variables that are not bound stand for, some substitution fits.
        ensures solvable { HasSolutions self.new }
    {
        let first = self.variables();
        if count > MOST_VARIABLES - first {
            return Err(BindErr::Full);
        }
        match add_variables(&mut self.changes, &mut self.slots, count as usize) {
            Ok(()) => {}
            Err(_) => return Err(BindErr::NoMemory),
        }
        Ok(first)
    }

    /// Takes back the changes after the mark.
    pub fn undo_to(&mut self, mark: TrailMark)
        requires { mark ≤ length self.old }
        ensures { self.new ≡ take mark self.old }
    {
        while self.changes.len() > mark.0 {
            self.undo_last();
        }
    }

    /// Takes back the last change.
    fn undo_last(&mut self)
        requires { 0 < length self.old }
        ensures { self.new ≡ take (length self.old - 1) self.old }
    {
        match self.changes.pop() {
            Some(Change::Fresh) => {
                let _ = self.slots.pop();
            }
            Some(Change::Bound(variable, _)) => self.slots[variable as usize] = None,
            None => unreachable!(),
        }
    }

    /// Binds a variable that is not bound to an object or to an earlier variable.
    fn bind_variable(&mut self, variable: u32, term: Term)
        requires unbound { IsUnbound self.old variable }
        requires earlier { IsPlainBelow variable term }
        ensures bound { self.new ≡ self.old ++ Change.Bound variable term ∷ [] }

        // Whatever the variables that are not bound stand for, some substitution fits.
        ensures solvable { HasSolutions self.new }
    {
        match self.changes.push(Change::Bound(variable, term)) {
            Ok(()) => {}
            Err(_) => unreachable!(),
        }
        self.slots[variable as usize] = Some(term);
    }

    /// Binds as little as makes the two terms equal.
    fn unify_terms(&mut self, s: Term, t: Term) -> Result<(), Clash>
        requires s_below { IsPlainBelow (variables_of self.old) s }
        requires t_below { IsPlainBelow (variables_of self.old) t }
        ensures ok { OnOk result (NarrowedBy self.old self.new (λ sigma. substitute sigma s ≡ substitute sigma t)) }
        ensures clash { OnErr result (NoneFits self.old (λ sigma. substitute sigma s ≡ substitute sigma t)) }
        ensures err { OnErr result (self.new ≡ self.old) }
        ensures grows { Binds self.old self.new }

        // Whatever the variables that are not bound stand for, some substitution fits.
        ensures solvable { HasSolutions self.new }
    {
        let s_root = self.resolve(s);
        let t_root = self.resolve(t);
        match (s_root, t_root) {
            (Term::Obj(a), Term::Obj(b)) => { if a == b { Ok(()) } else { Err(Clash) } }
            (Term::Var(v), Term::Obj(_)) => {
                self.bind_variable(v, t_root);
                Ok(())
            }
            (Term::Obj(_), Term::Var(w)) => {
                self.bind_variable(w, s_root);
                Ok(())
            }
            (Term::Var(v), Term::Var(w)) => {
                if v < w {
                    self.bind_variable(w, s_root);
                } else if w < v {
                    self.bind_variable(v, t_root);
                }
                Ok(())
            }
            _ => unreachable!(),
        }
    }
}

/// Binds as little as makes the two atoms equal. Takes no memory.
///
/// The bindings then are a most general unifier of the two, over the old ones (Robinson 1965, without function
/// symbols).
///
/// # Errors
/// `Clash` where no substitution that fits the bindings makes the two atoms equal. Nothing has changed then.
pub fn unify(bind: &mut Bind, a: &Atom, b: &Atom) -> Result<(), Clash>
    requires a_below { All (IsPlainBelow (variables_of bind.old)) a.now.args }
    requires b_below { All (IsPlainBelow (variables_of bind.old)) b.now.args }
    // What fits the new bindings is what fitted the old ones and makes the atoms equal.
    ensures ok { OnOk result (NarrowedBy bind.old bind.new (MakesEqual a.now b.now)) }

    // No substitution that fits makes them equal.
    ensures clash { IsErr result ↔ NoneFits bind.old (MakesEqual a.now b.now) }
    ensures err { OnErr result (bind.new ≡ bind.old) }
    ensures grows { Binds bind.old bind.new }

    // Whatever the variables that are not bound stand for, some substitution fits.
    ensures solvable { HasSolutions bind.new }
{
    let mark = bind.mark();
    let (xs, ys) = (a.args(), b.args());
    if a.pred() != b.pred() || xs.len() != ys.len() {
        return Err(Clash);
    }
    for (i, x) in xs.iter().enumerate() {
        match bind.unify_terms(*x, ys[i]) {
            Ok(()) => {}
            Err(Clash) => {
                bind.undo_to(mark);
                return Err(Clash);
            }
        }
    }
    Ok(())
}
