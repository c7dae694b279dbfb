//! Matches: the partial instances of operators that add a wanted atom. A match of an add of an operator with the atom has
//! objects for those parameters that the atom determines, and variables for the others, so it stands for all instances
//! whose add is the atom, and for no others.
ghost use Rattle.std.specs.Prelude.{◌≡◌, ◌<◌, ℕ, List, [], length, All, Contains, IfSome, IsSomeAnd, OnOk, IfOk};
ghost use Rattle.px_question.specs.Answers.{object_terms};
ghost use Rattle.px_terms.specs.declared.atom.Atom.{Atom};
ghost use Rattle.px_terms.specs.declared.instance.OpInst.{OpInst};
ghost use Rattle.px_terms.specs.Language.{IsPlainBelow, IsVariableBelow, substitute};
ghost use Rattle.px_terms.specs.Operators.{IsSchemaAt, adds, atoms_of};
ghost use Rattle.px_terms.specs.Substitution.{substitute_atom};
ghost use Rattle.px_terms.specs.Validity.{IsValid};
ghost use Rattle.px_gaps.specs.Closings.{OneOf};
ghost use Rattle.px_entries.specs.Instances.{Covers, Fills, IsPartialInstance, StandsFor};

use crate::instances::{bound_instance, unbound_instance};
use crate::partial::PartialInstance;
use px_terms::{Atom, NoMemory, Problem, Schema, Term};
use std::alloc::Global;

/// Returns the instance with the wanted term for the variable. `None` where that isn't an object of the problem.
fn with_object(
    problem: &Problem,
    partial: &PartialInstance,
    variable: u32,
    wanted: Term,
) -> Option<PartialInstance>
    requires partial { IsPartialInstance problem.now partial.now }
    requires variable { variable < partial.now.variable_count }
    ensures form { IfSome result (IsPartialInstance problem.now) }
    ensures count { IfSome result (λ next. length next.inst.args ≡ length partial.now.inst.args) }
    ensures stands { (full : OpInst) (objects : List ℕ) → Fills problem.now partial.now full objects
        → substitute (object_terms objects) (Term.Var variable) ≡ wanted → IsSomeAnd result (λ next. StandsFor problem.now next full) }
    ensures only { IfSome result (λ next. (full : OpInst) → StandsFor problem.now next full → (objects : List ℕ)
        × Fills problem.now partial.now full objects × (substitute (object_terms objects) (Term.Var variable) ≡ wanted)) }
{
    match wanted {
        Term::Obj(object) => {
            if object < problem.objects {
                Some(bound_instance(partial, variable, object))
            } else {
                None
            }
        }
        Term::Var(_) | Term::Any => None,
    }
}

/// Returns the instance, with an object for a variable so that the known term becomes the wanted one. `None` where no instance over the
/// problem's objects does this.
fn with_known(
    problem: &Problem,
    partial: &PartialInstance,
    known: Term,
    wanted: Term,
) -> Option<PartialInstance>
    requires partial { IsPartialInstance problem.now partial.now }
    requires known { IsVariableBelow partial.now.variable_count known }
    ensures form { IfSome result (IsPartialInstance problem.now) }
    ensures count { IfSome result (λ next. length next.inst.args ≡ length partial.now.inst.args) }
    ensures stands { (full : OpInst) (objects : List ℕ) → Fills problem.now partial.now full objects
        → substitute (object_terms objects) known ≡ wanted → IsSomeAnd result (λ next. StandsFor problem.now next full) }
    ensures only { IfSome result (λ next. (full : OpInst) → StandsFor problem.now next full → (objects : List ℕ)
        × Fills problem.now partial.now full objects × (substitute (object_terms objects) known ≡ wanted)) }
{
    match known {
        Term::Var(variable) => with_object(problem, partial, variable, wanted),
        Term::Obj(_) | Term::Any => {
            if known == wanted {
                Some(*partial)
            } else {
                None
            }
        }
    }
}

/// Returns such an instance, where the term may be one of the instance's parameters.
fn with_term(
    problem: &Problem,
    partial: &PartialInstance,
    term: Term,
    wanted: Term,
) -> Option<PartialInstance>
    requires partial { IsPartialInstance problem.now partial.now }
    requires term { IsPlainBelow (length partial.now.inst.args) term }
    ensures form { IfSome result (IsPartialInstance problem.now) }
    ensures count { IfSome result (λ next. length next.inst.args ≡ length partial.now.inst.args) }
    ensures stands { (full : OpInst) → StandsFor problem.now partial.now full → substitute full.args term ≡ wanted
        → IsSomeAnd result (λ next. StandsFor problem.now next full) }
    ensures only { IfSome result (λ next. (full : OpInst) → StandsFor problem.now next full → StandsFor problem.now partial.now full
        × (substitute full.args term ≡ wanted)) }
{
    match term {
        Term::Var(parameter) => {
            let known = partial.inst.args()[parameter as usize];
            with_known(problem, partial, known, wanted)
        }
        Term::Obj(_) | Term::Any => with_known(problem, partial, term, wanted),
    }
}

/// Returns the instance, with objects for variables so that the pattern becomes the wanted atom. `None` where no instance over the
/// problem's objects does this.
fn with_atom(
    problem: &Problem,
    partial: &PartialInstance,
    pattern: &Atom,
    wanted: &Atom,
) -> Option<PartialInstance>
    requires partial { IsPartialInstance problem.now partial.now }
    requires pattern { All (IsPlainBelow (length partial.now.inst.args)) pattern.now.args }
    ensures form { IfSome result (IsPartialInstance problem.now) }
    ensures stands { (full : OpInst) → StandsFor problem.now partial.now full → substitute_atom full.args pattern.now ≡ wanted.now
        → IsSomeAnd result (λ next. StandsFor problem.now next full) }
    ensures only { IfSome result (λ next. (full : OpInst) → StandsFor problem.now next full → StandsFor problem.now partial.now full
        × (substitute_atom full.args pattern.now ≡ wanted.now)) }
{
    let terms = pattern.args();
    let objects = wanted.args();
    if pattern.pred() != wanted.pred() || terms.len() != objects.len() {
        return None;
    }
    let mut matched = *partial;
    for (k, term) in terms.iter().enumerate() {
        matched = with_term(problem, &matched, *term, objects[k])?;
    }
    Some(matched)
}

/// Adds the match of the pattern with the wanted atom.
fn match_pattern(
    found: &mut Vec<PartialInstance>,
    problem: &Problem,
    start: &PartialInstance,
    pattern: &Atom,
    wanted: &Atom,
) -> Result<(), NoMemory>
    requires start { IsPartialInstance problem.now start.now }
    requires pattern { All (IsPlainBelow (length start.now.inst.args)) pattern.now.args }
    ensures { OnOk result (Covers problem.now (λ full. StandsFor problem.now start.now full
        × (substitute_atom full.args pattern.now ≡ wanted.now)) found.old.items found.new.items) }
{
    match with_atom(problem, start, pattern, wanted) {
        Some(matched) => {
            found.extend_from_slice(&[matched])?;
            Ok(())
        }
        None => Ok(()),
    }
}

/// Adds the matches of what the schema adds with the wanted atom.
fn match_schema(
    found: &mut Vec<PartialInstance>,
    problem: &Problem,
    schema: &Schema,
    wanted: &Atom,
) -> Result<(), NoMemory>
    requires problem { IsValid problem.now }
    requires schema { IsSchemaAt problem.now schema.now }
    ensures { OnOk result (Covers problem.now (λ full. (full.op ≡ schema.now.op) × Contains (atoms_of schema.now.add full) wanted.now)
        found.old.items found.new.items) }
{
    let start = unbound_instance(problem, schema);
    let patterns = schema.add.as_slice();
    for pattern in patterns {
        match_pattern(found, problem, &start, pattern, wanted)?;
    }
    Ok(())
}

/// Adds the matches of what the operators add with the wanted atom.
fn match_atom(
    found: &mut Vec<PartialInstance>,
    problem: &Problem,
    wanted: &Atom,
) -> Result<(), NoMemory>
    requires { IsValid problem.now }
    ensures { OnOk result (Covers problem.now (λ full. Contains (adds problem.now full) wanted.now) found.old.items found.new.items) }
{
    let schemas = problem.schemas.as_slice();
    for schema in schemas {
        match_schema(found, problem, schema, wanted)?;
    }
    Ok(())
}

/// Returns the matches of what the operators add with the wanted atoms: instances with variables for the arguments that no wanted
/// atom determines.
///
/// # Errors
/// `NoMemory` if there isn't enough memory.
pub fn matches_of(
    alloc: Global,
    problem: &Problem,
    wanted: &[Atom],
) -> Result<Vec<PartialInstance>, NoMemory>
    requires { IsValid problem.now }
    ensures { IfOk result (λ found. Covers problem.now (λ full. OneOf wanted.now (Contains (adds problem.now full))) [] found.items) }
{
    let mut found = Vec::new(alloc);
    for atom in wanted {
        match_atom(&mut found, problem, atom)?;
    }
    Ok(found)
}
