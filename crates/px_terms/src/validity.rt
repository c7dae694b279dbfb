//! Tests of terms, atoms, operator instances and problems, each of a condition that calls have. None of them allocates.
ghost use Rattle.std.specs.Prelude.{◌≡◌, ◌<◌, ◌≤◌, ◌↔◌, length, slice_index_or, All, EachIndex, IsTrue};
ghost use Rattle.px_terms.specs.Clauses.{ArePlainBelow, IsArena};
ghost use Rattle.px_terms.specs.Instances.{IsGround};
ghost use Rattle.px_terms.specs.Language.{IsObject, IsObjectBelow, IsPlainBelow, IsVariableBelow};
ghost use Rattle.px_terms.specs.Limits.{most_height, most_nodes, most_parameters, most_shapes, most_weight};
ghost use Rattle.px_terms.specs.Operators.{no_schema};
ghost use Rattle.px_terms.specs.Validity.{AreSortsOf, HasArity, IsAtomOf, IsAxiomOf, IsInstanceOf, IsPatternOf, IsPatternTermOf, IsSchemaOf, IsShort, IsTermOf, IsValid};

use crate::atom::Atom;
use crate::clause::{Clause, Lit};
use crate::instance::OpInst;
use crate::limits::{
    MOST_FORMULA_VARIABLES, MOST_HEIGHT, MOST_NODES, MOST_PARAMETERS, MOST_SHAPES, MOST_WEIGHT,
};
use crate::problem::{Problem, Schema};
use crate::term::Term;

/// Returns whether the term is an object.
fn is_object(term: &Term) -> bool
    ensures { IsTrue result ↔ IsObject term.now }
{
    match *term {
        Term::Obj(_) => true,
        Term::Var(_) | Term::Any => false,
    }
}

/// Returns whether all arguments of the atom are objects.
pub fn is_ground(atom: &Atom) -> bool
    ensures { IsTrue result ↔ IsGround atom.now }
{
    atom.args().iter().all(|term| is_object(term))
}

/// Returns whether the term is an object below the limit.
fn is_object_below(limit: u32, term: &Term) -> bool
    ensures { IsTrue result ↔ IsObjectBelow limit term.now }
{
    match *term {
        Term::Obj(number) => number < limit,
        Term::Var(_) | Term::Any => false,
    }
}

/// Returns whether the terms are objects below the limit.
pub fn are_objects_below(limit: u32, terms: &[Term]) -> bool
    ensures { IsTrue result ↔ All (IsObjectBelow limit) terms.now }
{
    terms.iter().all(|term| is_object_below(limit, term))
}

/// Returns whether the term, if it is a variable, has a number below the count.
fn is_variable_below(count: usize, term: &Term) -> bool
    ensures { IsTrue result ↔ IsVariableBelow count term.now }
{
    match *term {
        Term::Var(number) => (number as usize) < count,
        Term::Obj(_) | Term::Any => true,
    }
}

/// Returns whether each variable among the terms has a number below the count.
pub fn are_variables_below(count: usize, terms: &[Term]) -> bool
    ensures { IsTrue result ↔ All (IsVariableBelow count) terms.now }
{
    terms.iter().all(|term| is_variable_below(count, term))
}

/// Returns whether the term is an object, or a variable whose number is below the count.
fn is_plain_below(count: u32, term: &Term) -> bool
    ensures { IsTrue result ↔ IsPlainBelow count term.now }
{
    match *term {
        Term::Obj(_) => true,
        Term::Var(number) => number < count,
        Term::Any => false,
    }
}

/// Returns whether the literal has no wild card, and only variables below the count.
fn is_plain_literal(count: u32, lit: &Lit) -> bool
    ensures { IsTrue result ↔ All (IsPlainBelow count) lit.now.atom.args }
{
    lit.atom
        .args()
        .iter()
        .all(|term| is_plain_below(count, term))
}

/// Returns whether the literals have no wild card, and each variable a number below the count, as an axiom's have.
pub fn are_plain_below(count: u32, lits: &[Lit]) -> bool
    ensures { IsTrue result ↔ ArePlainBelow count lits.now }
{
    lits.iter().all(|lit| is_plain_literal(count, lit))
}

/// Returns whether the term is an object of the problem or one of the first `variable_count` variables.
pub fn is_term_of(problem: &Problem, variable_count: u64, term: &Term) -> bool
    ensures { IsTrue result ↔ IsTermOf problem.now variable_count term.now }
{
    match *term {
        Term::Obj(number) => number < problem.objects,
        Term::Var(number) => u64::from(number) < variable_count,
        Term::Any => false,
    }
}

/// Returns whether the term is an object of the problem, one of the first `variable_count` variables, or the wild card.
fn is_pattern_term_of(problem: &Problem, variable_count: u64, term: &Term) -> bool
    ensures { IsTrue result ↔ IsPatternTermOf problem.now variable_count term.now }
{
    match *term {
        Term::Any => true,
        Term::Obj(_) | Term::Var(_) => is_term_of(problem, variable_count, term),
    }
}

/// Returns whether the predicate is the problem's, and the atom has its number of arguments.
fn has_arity(problem: &Problem, atom: &Atom) -> bool
    ensures { IsTrue result ↔ HasArity problem.now atom.now }
{
    let arities = problem.arities.as_slice();
    let pred = atom.pred() as usize;
    pred < arities.len() && atom.args().len() == arities[pred] as usize
}

/// Returns whether the atom is one of the problem over its objects and the first `variable_count` variables: it has a predicate of the
/// problem, that predicate's number of arguments, and no wild card.
pub fn is_atom_of(problem: &Problem, variable_count: u64, atom: &Atom) -> bool
    ensures { IsTrue result ↔ IsAtomOf problem.now variable_count atom.now }
{
    has_arity(problem, atom)
        && atom
            .args()
            .iter()
            .all(|term| is_term_of(problem, variable_count, term))
}

/// Returns whether each of the atoms is one of the problem over its objects and the first `variable_count` variables.
pub fn are_atoms_of(problem: &Problem, variable_count: u64, atoms: &[Atom]) -> bool
    ensures { IsTrue result ↔ All (IsAtomOf problem.now variable_count) atoms.now }
{
    atoms
        .iter()
        .all(|atom| is_atom_of(problem, variable_count, atom))
}

// Alike: `is_atom_of`. One function with a test of terms as a parameter would hide what each asks for.
/// Returns whether the atom is one of the problem over its objects, the first `variable_count` variables and the wild card.
fn is_pattern_of(problem: &Problem, variable_count: u64, atom: &Atom) -> bool
    ensures { IsTrue result ↔ IsPatternOf problem.now variable_count atom.now }
{
    has_arity(problem, atom)
        && atom
            .args()
            .iter()
            .all(|term| is_pattern_term_of(problem, variable_count, term))
}

/// Returns whether all atoms are patterns of the problem: atoms in which the wild card may stand, too.
fn are_patterns_of(problem: &Problem, variable_count: u64, atoms: &[Atom]) -> bool
    ensures { IsTrue result ↔ All (IsPatternOf problem.now variable_count) atoms.now }
{
    atoms
        .iter()
        .all(|atom| is_pattern_of(problem, variable_count, atom))
}

/// Returns whether the instance is of an operator of the problem, with an object of the problem for each parameter.
pub fn is_instance_of(problem: &Problem, inst: &OpInst) -> bool
    ensures { IsTrue result ↔ IsInstanceOf problem.now inst.now }
{
    let schemas = problem.schemas.as_slice();
    let op = inst.op() as usize;
    op < schemas.len()
        && inst.args().len() == schemas[op].params as usize
        && inst.args().iter().all(|term| is_term_of(problem, 0, term))
}

/// Returns whether the axiom has at most [`MOST_FORMULA_VARIABLES`] variables, and its atoms are the problem's.
fn is_axiom_of(problem: &Problem, clause: &Clause) -> bool
    ensures { IsTrue result ↔ IsAxiomOf problem.now clause.now }
{
    let variable_count = clause.variable_count;
    variable_count as usize <= MOST_FORMULA_VARIABLES
        && clause.lits.as_slice().iter().all(|lit| is_atom_of(
            problem,
            u64::from(variable_count),
            &lit.atom,
        ))
}

/// A length that no list of a problem reaches.
const TOO_LONG: usize = u32::MAX as usize;

/// Returns whether the schema's lists are short.
fn has_short_lists(schema: &Schema) -> bool
    ensures { IsTrue result ↔ (IsShort schema.now.pre × IsShort schema.now.del × IsShort schema.now.add) }
{
    schema.pre.len() < TOO_LONG && schema.del.len() < TOO_LONG && schema.add.len() < TOO_LONG
}

/// Returns whether the schema's atoms are the problem's.
fn has_atoms_of(problem: &Problem, schema: &Schema) -> bool
    ensures { IsTrue result ↔ (All (IsAtomOf problem.now schema.now.params) schema.now.pre
        × All (IsPatternOf problem.now schema.now.params) schema.now.del
        × All (IsAtomOf problem.now schema.now.params) schema.now.add) }
{
    let variable_count = u64::from(schema.params);
    are_atoms_of(problem, variable_count, schema.pre.as_slice())
        && are_patterns_of(problem, variable_count, schema.del.as_slice())
        && are_atoms_of(problem, variable_count, schema.add.as_slice())
}

/// Returns whether the schema has the number of the place, and at most [`MOST_PARAMETERS`] parameters.
fn is_numbered(place: usize, schema: &Schema) -> bool
    ensures { IsTrue result ↔ ((schema.now.op ≡ place) × (schema.now.params ≤ most_parameters)) }
{
    schema.op as usize == place && schema.params as usize <= MOST_PARAMETERS
}

/// Returns whether the numbers are sorts of the problem, or 0, which is no sort.
pub fn are_sorts_of(problem: &Problem, sorts: &[u32]) -> bool
    ensures { IsTrue result ↔ AreSortsOf problem.now sorts.now }
{
    let most = problem.sorts;
    sorts.iter().all(|sort| *sort <= most)
}

/// Returns whether the schema has a sort of the problem for each parameter.
fn has_sorts_of(problem: &Problem, schema: &Schema) -> bool
    ensures { IsTrue result ↔ ((length schema.now.param_sorts ≡ schema.now.params) × AreSortsOf problem.now schema.now.param_sorts) }
{
    schema.param_sorts.len() == schema.params as usize
        && are_sorts_of(problem, schema.param_sorts.as_slice())
}

/// Returns whether the problem has one of its sorts for each object, and their list is short.
fn has_sorts(problem: &Problem) -> bool
    ensures { IsTrue result ↔ ((length problem.now.object_sorts ≡ problem.now.objects)
        × AreSortsOf problem.now problem.now.object_sorts × IsShort problem.now.object_sorts) }
{
    problem.object_sorts.len() == problem.objects as usize
        && are_sorts_of(problem, problem.object_sorts.as_slice())
        && problem.object_sorts.len() < TOO_LONG
}

/// Returns whether the schema is the operator at the place of the problem.
fn is_schema_of(problem: &Problem, place: usize, schema: &Schema) -> bool
    ensures { IsTrue result ↔ IsSchemaOf problem.now place schema.now }
{
    is_numbered(place, schema)
        && has_atoms_of(problem, schema)
        && has_short_lists(schema)
        && has_sorts_of(problem, schema)
}

/// Returns whether the schema at the place is the operator of that number.
fn is_schema_at(problem: &Problem, place: usize) -> bool
    requires { place < length problem.now.schemas }
    ensures { IsTrue result ↔ IsSchemaOf problem.now place (slice_index_or problem.now.schemas place no_schema) }
{
    is_schema_of(problem, place, &problem.schemas.as_slice()[place])
}

/// Returns whether each schema is the operator at its place.
fn are_schemas_of(problem: &Problem) -> bool
    ensures { IsTrue result ↔ EachIndex problem.now.schemas (λ k. IsSchemaOf problem.now k
        (slice_index_or problem.now.schemas k no_schema)) }
{
    for place in 0..problem.schemas.len() {
        if !is_schema_at(problem, place) {
            return false;
        }
    }
    true
}

/// Returns whether the axioms are the problem's. Those of any arena are clauses.
fn are_axioms_of(problem: &Problem) -> bool
    ensures axioms { IsTrue result ↔ All (IsAxiomOf problem.now) problem.now.axioms }
    ensures arena { IsArena problem.now.axioms }
{
    problem
        .axioms
        .clauses()
        .iter()
        .all(|clause| is_axiom_of(problem, clause))
}

/// Returns whether there is an object, or nothing that one could be put for.
fn has_objects(problem: &Problem) -> bool
    ensures { IsTrue result ↔ (problem.now.objects ≡ 0 → All (λ schema. schema.params ≡ 0) problem.now.schemas
        × All (λ clause. clause.variable_count ≡ 0) problem.now.axioms) }
{
    problem.objects > 0
        || (problem
            .schemas
            .as_slice()
            .iter()
            .all(|schema| schema.params == 0)
            && problem
                .axioms
                .clauses()
                .iter()
                .all(|clause| clause.variable_count == 0))
}

/// Returns whether the problem has one of its sorts for each object, and an object where it needs one.
fn are_objects_sorted(problem: &Problem) -> bool
    ensures { IsTrue result ↔ (((length problem.now.object_sorts ≡ problem.now.objects)
        × AreSortsOf problem.now problem.now.object_sorts × IsShort problem.now.object_sorts)
        × (problem.now.objects ≡ 0 → All (λ schema. schema.params ≡ 0) problem.now.schemas
        × All (λ clause. clause.variable_count ≡ 0) problem.now.axioms)) }
{
    has_sorts(problem) && has_objects(problem)
}

/// Returns whether the problem's limits are in range, and its lists short.
fn is_limited(problem: &Problem) -> bool
    ensures { IsTrue result ↔ ((IsShort problem.now.arities × IsShort problem.now.schemas)
        × ((1 ≤ problem.now.height) × (problem.now.height ≤ most_height))
        × ((1 ≤ problem.now.nodes) × (problem.now.nodes ≤ most_nodes)) × ((2 ≤ problem.now.shapes) × (problem.now.shapes ≤ most_shapes))
        × (problem.now.weight ≤ most_weight)) }
{
    problem.arities.len() < TOO_LONG
        && problem.schemas.len() < TOO_LONG
        && 1 <= problem.height
        && problem.height <= MOST_HEIGHT
        && 1 <= problem.nodes
        && problem.nodes <= MOST_NODES
        && 2 <= problem.shapes
        && problem.shapes <= MOST_SHAPES
        && problem.weight <= MOST_WEIGHT
}

/// Returns whether the problem is valid: all its numbers are in range, its limits too, its lists are short, there is a sort for each
/// object and each parameter, and there is an object where an operator has a parameter or an axiom a variable.
pub fn is_valid(problem: &Problem) -> bool
    ensures { IsTrue result ↔ IsValid problem.now }
{
    let has_axioms = are_axioms_of(problem);
    has_axioms && are_schemas_of(problem) && is_limited(problem) && are_objects_sorted(problem)
}
