//! What sample problems are made of.
ghost use Rattle.std.specs.Prelude.{◌≤◌, length};
ghost use Rattle.px_terms.specs.Limits.{most_arguments, most_parameters};

use px_base::Sequence;
use px_ops::Model;
use px_terms::{
    Atom, ClauseArena, Limits, Lit, OpInst, Problem, Schema, Term, are_plain_below, is_ground,
};
use std::alloc::Global;

/// Returns the object of that number.
pub fn o(number: u32) -> Term {
    Term::Obj(number)
}

/// Returns the variable of that number, or the parameter.
pub fn v(number: u32) -> Term {
    Term::Var(number)
}

/// Returns the predicate of that number with these terms.
pub fn atom(pred: u32, args: &[Term]) -> Atom
    requires { length args.now ≤ most_arguments }
{
    Atom::of(pred, args)
}

/// Returns the operator of that number with these terms.
pub fn instance(op: u32, args: &[Term]) -> OpInst
    requires { length args.now ≤ most_parameters }
{
    match OpInst::new(op, args) {
        Some(inst) => inst,
        None => unreachable!(),
    }
}

/// Returns the literal that asserts the atom.
pub fn yes(atom: Atom) -> Lit {
    Lit {
        positive: true,
        atom,
    }
}

/// Returns the literal that denies the atom.
pub fn no(atom: Atom) -> Lit {
    Lit {
        positive: false,
        atom,
    }
}

/// Adds the axiom of these literals, over that many variables. Returns `None` where it isn't one.
pub fn add_axiom(axioms: &mut ClauseArena, variable_count: u32, lits: &[Lit]) -> Option<()> {
    if !are_plain_below(variable_count, lits) {
        return None;
    }
    match axioms.push(variable_count, lits) {
        Ok(_) => Some(()),
        Err(_) => None,
    }
}

/// Returns the operator of that number and that many parameters, with its preconditions, deletions and additions.
pub fn schema(
    alloc: Global,
    (op, params): (u32, u32),
    pre: &[Atom],
    del: &[Atom],
    add: &[Atom],
) -> Option<Schema> {
    Schema::without_sorts(alloc, op, params, pre, del, add).ok()
}

/// Returns the problem of that many objects, with predicates of these numbers of arguments, these axioms and these operators.
pub fn problem_of<const N: usize>(
    alloc: Global,
    objects: u32,
    arities: &[u8],
    axioms: ClauseArena,
    schemas: [Schema; N],
) -> Option<Problem> {
    let schemas = Sequence::from_vec(Vec::from_array(alloc, schemas).ok()?);
    let limits = Limits {
        height: 4,
        nodes: 1,
        shapes: 10_000,
    };
    Problem::without_sorts(alloc, objects, arities, axioms, schemas, limits).ok()
}

/// Returns the model of the atoms, or `None` where one has a variable.
pub fn model_of(alloc: Global, atoms: &[Atom]) -> Option<Model> {
    let mut model = Model::new(alloc);
    for atom in atoms {
        if !is_ground(atom) {
            return None;
        }
        model.insert(*atom).ok()?;
    }
    Some(model)
}
