//! Operator instances, and replacing variables in them.
ghost use Rattle.std.specs.Prelude.{◌≡◌, ◌≤◌, ◌↔◌, length, All, IsSome, IfSome};
ghost use Rattle.std.proofs.Common.{refl};
ghost use Rattle.std.specs.Cmp.{partial_equiv_from_equiv};
ghost use Rattle.std.specs.Ordering.{as_partial_cmp};
ghost use Rattle.px_terms.specs.Language.{IsVariableBelow};
ghost use Rattle.px_terms.specs.Limits.{most_parameters};
ghost use Rattle.px_terms.specs.Substitution.{substitute_instance};
ghost use Rattle.px_terms.specs.Order.{instance_eq, instance_cmp, instance_hash_input};
ghost use Rattle.px_terms.specs.OrderLaws.{instance_eq-equivalence, instance_cmp-total, instance_cmp-matches_eq, instance_cmp-partial, instance_hash-alike};

use crate::limits::MOST_PARAMETERS;
use crate::substitution::substitute_all;
use crate::term::Term;
use std::cmp::Ordering;
use std::hash::{Hash, Hasher};
use std::marker::Model;

/// An operator with an argument for each of its parameters, at most eight: a step of a plan, where all arguments are
/// objects (Fikes and Nilsson 1971).
///
/// Contracts see it as its operator's number and the list of its terms.
#[derive(Clone, Copy, Debug)]
pub struct OpInst {
    op: u32,
    len: usize,
    terms: [Term; MOST_PARAMETERS],
}

impl Model for OpInst {
    ghost use Rattle.std.specs.Prelude.{take, length};
    ghost use Rattle.px_terms.specs.Limits.{most_parameters};
    ghost use Rattle.px_terms.specs.Padding.{IsPadded, padded};
    ghost use Rattle.px_terms.specs.Language.{InstanceValue};

    ghost Value = { InstanceValue };

    ghost view = { λ a. record { op = a.op; args = take a.len a.terms } };

    ghost invariant = { λ a. IsPadded most_parameters a.len a.terms };

    ghost inverse = { λ v. record { op = v.op; len = length v.args; terms = padded most_parameters v.args } };
}

impl OpInst {
    /// Returns the operator with these arguments; `None` exactly where there are more than eight. Does not allocate.
    pub fn new(op: u32, args: &[Term]) -> Option<OpInst>
        ensures fits { IsSome result ↔ (length args.now ≤ most_parameters) }
        ensures value { IfSome result (λ inst. inst ≡ record { op = op; args = args.now }) }
    {
        if args.len() > MOST_PARAMETERS {
            return None;
        }
        let mut terms = [Term::Any; MOST_PARAMETERS];
        terms[..args.len()].copy_from_slice(args);
        Some(OpInst {
            op,
            len: args.len(),
            terms,
        })
    }

    /// Returns the number of the operator.
    pub fn op(&self) -> u32
        ensures { result ≡ self.now.op }
    {
        self.op
    }

    /// Returns the arguments, by parameter.
    pub fn args(&self) -> &[Term]
        ensures value { result.now ≡ self.now.args }
        ensures at_most { length self.now.args ≤ most_parameters }
    {
        &self.terms[..self.len]
    }
}

impl PartialEq for OpInst {
    ghost eq = { instance_eq };

    ghost laws = { partial_equiv_from_equiv instance_eq-equivalence };

    fn eq(&self, other: &OpInst) -> bool {
        self.op == other.op && self.args() == other.args()
    }
}

impl Eq for OpInst {
    ghost laws = { instance_eq-equivalence };
}

impl Ord for OpInst {
    ghost cmp = { instance_cmp };

    ghost total = { instance_cmp-total };

    ghost matches_partial_cmp = { λ _ _. refl };

    ghost matches_eq = { instance_cmp-matches_eq };

    fn cmp(&self, other: &OpInst) -> Ordering {
        self.op.cmp(&other.op).then(self.args().cmp(other.args()))
    }
}

impl PartialOrd for OpInst {
    ghost partial_cmp = { as_partial_cmp instance_cmp };

    ghost laws = { instance_cmp-partial };

    fn partial_cmp(&self, other: &OpInst) -> Option<Ordering> {
        Some(self.cmp(other))
    }
}

impl Hash for OpInst {
    ghost hash_input = { instance_hash_input };

    ghost respects_eq = { instance_hash-alike.fed };

    fn hash<H: Hasher>(&self, state: &mut H) {
        self.op.hash(state);
        self.args().hash(state);
    }
}

/// Returns the instance with each variable replaced by the map's term of its number.
pub fn apply_inst(map: &[Term], inst: &OpInst) -> OpInst
    requires { All (IsVariableBelow (length map.now)) inst.now.args }
    ensures { result ≡ substitute_instance map.now inst.now }
{
    let args = inst.args();
    let mut terms = [Term::Any; MOST_PARAMETERS];
    substitute_all(map, args, &mut terms);
    OpInst {
        op: inst.op(),
        len: args.len(),
        terms,
    }
}
