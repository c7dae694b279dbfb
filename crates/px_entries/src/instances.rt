//! The instances of a schema as entries that may be pushed: from a match with variables to all its objects.
ghost use Rattle.std.specs.Prelude.{◌≡◌, ◌+◌, ◌<◌, ◌≤◌, ℕ, List, length, slice_index, All};
ghost use Rattle.px_terms.specs.Limits.{most_parameters};
ghost use Rattle.px_question.specs.Answers.{object_terms};
ghost use Rattle.px_terms.specs.declared.problem.Problem.{Problem};
ghost use Rattle.px_terms.specs.declared.instance.OpInst.{OpInst};
ghost use Rattle.px_terms.specs.Language.{IsVariableBelow};
ghost use Rattle.px_terms.specs.Operators.{IsSchemaAt};
ghost use Rattle.px_terms.specs.Substitution.{substitute_instance};
ghost use Rattle.px_terms.specs.Validity.{IsValid, IsInstanceOf};
ghost use Rattle.px_entries.specs.Instances.{IsPartialInstance, Fills, StandsFor, IsRenamed};

use crate::partial::PartialInstance;
use px_terms::{MOST_PARAMETERS, OpInst, Problem, Schema, Term, apply_inst};

// Alike: px_table_tests (`limits`) writes out six of them, as the arguments of an atom.
const VARIABLES: [Term; MOST_PARAMETERS] = [
    Term::Var(0),
    Term::Var(1),
    Term::Var(2),
    Term::Var(3),
    Term::Var(4),
    Term::Var(5),
    Term::Var(6),
    Term::Var(7),
];

/// Returns the instance of the schema whose arguments are all variables.
pub fn unbound_instance(problem: &Problem, schema: &Schema) -> PartialInstance
    requires problem { IsValid problem.now }
    requires schema { IsSchemaAt problem.now schema.now }
    ensures op { result.inst.op ≡ schema.now.op }
    ensures form { IsPartialInstance problem.now result }
    ensures all { (full : OpInst) → IsInstanceOf problem.now full → full.op ≡ schema.now.op → StandsFor problem.now result full }
{
    // what stands behind a reference is known to be in range once it is read
    let _objects = problem.objects;
    match OpInst::new(schema.op, &VARIABLES[..schema.params as usize]) {
        Some(inst) => PartialInstance {
            inst,
            variable_count: schema.params,
        },
        None => unreachable!(),
    }
}

/// Returns what stands for variable `k` where the object is put for the variable: the variables after it are numbered one less.
fn renamed_term(variable: u32, object: u32, k: u32) -> Term
    ensures { IsRenamed variable object k result }
{
    if k < variable {
        return Term::Var(k);
    }
    if k == variable {
        return Term::Obj(object);
    }
    Term::Var(k - 1)
}

/// Returns the instance with the object for the variable. The variables after it are numbered one less, so that no number is left
/// out.
pub fn bound_instance(partial: &PartialInstance, variable: u32, object: u32) -> PartialInstance
    requires few { partial.now.variable_count ≤ most_parameters }
    requires terms { All (IsVariableBelow partial.now.variable_count) partial.now.inst.args }
    requires variable { variable < partial.now.variable_count }
    ensures variable_count { result.variable_count + 1 ≡ partial.now.variable_count }
    ensures count { length result.inst.args ≡ length partial.now.inst.args }
    ensures form { (problem : Problem) → IsPartialInstance problem partial.now → object < problem.objects
        → IsPartialInstance problem result }
    ensures fills { (problem : Problem) (full : OpInst) (objects : List ℕ) → Fills problem partial.now full objects
        → slice_index objects variable ≡ object → StandsFor problem result full }
    ensures only { (problem : Problem) (full : OpInst) → object < problem.objects → StandsFor problem result full → (objects : List ℕ)
        × Fills problem partial.now full objects × (slice_index objects variable ≡ object) }
{
    let mut terms = [Term::Any; MOST_PARAMETERS];
    for k in 0..partial.variable_count {
        terms[k as usize] = renamed_term(variable, object, k);
    }
    PartialInstance {
        inst: apply_inst(&terms[..partial.variable_count as usize], &partial.inst),
        variable_count: partial.variable_count - 1,
    }
}

/// Returns the instance with these objects for its variables.
pub fn filled(partial: &PartialInstance, objects: &[u32]) -> OpInst
    requires few { length objects.now ≤ most_parameters }
    requires terms { All (IsVariableBelow (length objects.now)) partial.now.inst.args }
    ensures { result ≡ substitute_instance (object_terms objects.now) partial.now.inst }
{
    let mut terms = [Term::Any; MOST_PARAMETERS];
    for (k, object) in objects.iter().enumerate() {
        terms[k] = Term::Obj(*object);
    }
    apply_inst(&terms[..objects.len()], &partial.inst)
}
