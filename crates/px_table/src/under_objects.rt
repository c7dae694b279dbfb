//! Atoms and operator instances, with objects for parameters.
// Alike: `apply` and `apply_inst` of `px_terms`, which replace variables by terms: a list of those would have to be allocated here.
ghost use Rattle.std.specs.Prelude.{◌≡◌, ◌≤◌, ◌++◌, All, map, drop, length};
ghost use Rattle.px_terms.specs.declared.term.Term.TheVariants.{Obj};
ghost use Rattle.px_terms.specs.Language.{IsVariableBelow, substitute};
ghost use Rattle.px_table.specs.Kernels.{atom_under, instance_under};

use px_terms::{Atom, OpInst, Term};

/// Returns the term, with the object of its number for a parameter.
fn term_under(sigma: &[u32], term: Term) -> Term
    requires { IsVariableBelow (length sigma.now) term }
    ensures { result ≡ substitute (map Obj sigma.now) term }
{
    match term {
        Term::Var(number) => Term::Obj(sigma[number as usize]),
        Term::Obj(_) | Term::Any => term,
    }
}

/// Writes the terms, with objects for parameters, to the front of `into`.
fn write_under(sigma: &[u32], terms: &[Term], into: &mut [Term])
    requires room { length terms.now ≤ length into.old }
    requires variables { All (IsVariableBelow (length sigma.now)) terms.now }
    ensures { into.new ≡ map (substitute (map Obj sigma.now)) terms.now ++ drop (length terms.now) into.old }
{
    for (i, term) in terms.iter().enumerate() {
        into[i] = term_under(sigma, *term);
    }
}

/// Returns the atom with the objects of `sigma` for the parameters.
pub fn atom_with(sigma: &[u32], atom: &Atom) -> Atom
    requires { All (IsVariableBelow (length sigma.now)) atom.now.args }
    ensures { result ≡ atom_under sigma.now atom.now }
{
    let args = atom.args();
    let mut terms = [Term::Any; 6];
    write_under(sigma, args, &mut terms);
    Atom::of(atom.pred(), &terms[..args.len()])
}

/// Returns the operator instance with the objects of `sigma` for the parameters.
pub fn instance_with(sigma: &[u32], inst: &OpInst) -> OpInst
    requires { All (IsVariableBelow (length sigma.now)) inst.now.args }
    ensures { result ≡ instance_under sigma.now inst.now }
{
    let args = inst.args();
    let mut terms = [Term::Any; 8];
    write_under(sigma, args, &mut terms);
    match OpInst::new(inst.op(), &terms[..args.len()]) {
        Some(made) => made,
        None => unreachable!(),
    }
}
