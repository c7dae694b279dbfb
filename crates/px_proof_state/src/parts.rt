//! The goals that a formula or a use of a clause opens.
ghost use Rattle.std.specs.Prelude.{◌≡◌, ◌+◌, ◌-◌, ◌≤◌, ◌++◌, ◌∷◌, [], ℕ, List, Some, IfOk, All, length, suc, take, map};
ghost use Rattle.px_terms.specs.Language.{IsVariableBelow};
ghost use Rattle.px_terms.specs.Limits.{most_formula_variables};
ghost use Rattle.px_terms.specs.declared.clause.Lit.{Lit as LitValue};
ghost use Rattle.px_terms.specs.Substitution.{variables_from};
ghost use Rattle.px_proof.specs.Literals.{positive_of};
ghost use Rattle.px_proof.specs.Proves.{parts_of};
ghost use Rattle.px_proof_state.specs.declared.open.OpenGoal.{OpenGoal as GoalValue};
ghost use Rattle.px_proof_state.specs.Arena.{goals_at, path_at, AreOlder};
ghost use Rattle.px_proof_state.specs.Parts.{goals_under};

use crate::open::OpenGoal;
use px_proof::{apply_literal, complement};
use px_terms::{Atom, Lit, MOST_FORMULA_VARIABLES, NoMemory, Term};
use px_unify::MOST_VARIABLES;

/// Returns the variables from number `first` on: the first `count` terms of the array.
pub(crate) fn variables_after(first: u32, count: u32) -> [Term; MOST_FORMULA_VARIABLES]
    requires few { count ≤ most_formula_variables }
    requires small { first + count ≤ MOST_VARIABLES }
    ensures { take count result ≡ variables_from first count }
{
    let mut terms = [Term::Any; MOST_FORMULA_VARIABLES];
    for k in 0..count {
        terms[k as usize] = Term::Var(first + k);
    }
    terms
}

/// Appends a goal and returns its place.
fn push_goal(goals: &mut Vec<OpenGoal>, goal: OpenGoal) -> Result<usize, NoMemory>
    ensures items { IfOk result (λ place. goals.new.items ≡ goals.old.items ++ goal ∷ []) }
    ensures place { IfOk result (λ place. place ≡ suc (length goals.old.items)) }
{
    match goals.push(goal) {
        Ok(()) => Ok(goals.len()),
        Err(_) => Err(NoMemory),
    }
}

/// Opens the parts of a clause that is used at its literal `place` under `theta`, before the goals that follow `goal`,
/// which has place `at`. Returns the place of the first part.
pub(crate) fn push_parts(
    goals: &mut Vec<OpenGoal>,
    lits: &[Lit],
    theta: &[Term],
    place: usize,
    at: usize,
    goal: &OpenGoal,
) -> Result<usize, NoMemory>
    requires lits_below { All (λ (lit : LitValue). All (IsVariableBelow (length theta.now)) lit.atom.args) lits.now }
    requires next_older { goal.now.next ≤ length goals.old.items }
    requires at_older { at ≤ length goals.old.items }
    ensures grown { IfOk result (λ _. (more : List GoalValue) × (goals.new.items ≡ goals.old.items ++ more)) }
    ensures older { IfOk result (λ first. first ≤ length goals.new.items) }
    ensures arena { IfOk result (λ _. AreOlder goals.old.items → AreOlder goals.new.items) }
    ensures opened { IfOk result (λ first. goals_at goals.new.items first ≡ goals_under (path_at goals.old.items at) (goal.now.budget - 1)
        (parts_of lits.now theta.now place) ++ goals_at goals.old.items goal.now.next) }
{
    let mut first = goal.next;
    for done in 0..lits.len() {
        let k = lits.len() - 1 - done;
        if k != place {
            let lit = apply_literal(theta, &lits[k]);
            let opposite = complement(&lit);
            let part = OpenGoal {
                lit: opposite,
                above: at,
                next: first,
                budget: goal.budget.saturating_sub(1),
            };
            match push_goal(goals, part) {
                Ok(newest) => first = newest,
                Err(NoMemory) => return Err(NoMemory),
            }
        }
    }
    Ok(first)
}

/// Opens a place for each atom of the formula, from the last to the first, and returns the place of the first.
pub(crate) fn open_formula(
    goals: &mut Vec<OpenGoal>,
    formula: &[Atom],
    height: u32,
) -> Result<usize, NoMemory>
    requires { goals.old.items ≡ [] }
    ensures older { IfOk result (λ first. first ≤ length goals.new.items) }
    ensures arena { IfOk result (λ _. AreOlder goals.new.items) }
    ensures opened { IfOk result (λ first. goals_at goals.new.items first ≡ goals_under [] height (map positive_of formula.now)) }
{
    let mut first = 0;
    for done in 0..formula.len() {
        let lit = Lit {
            positive: true,
            atom: formula[formula.len() - 1 - done],
        };
        let goal = OpenGoal {
            lit,
            above: 0,
            next: first,
            budget: height,
        };
        match push_goal(goals, goal) {
            Ok(newest) => first = newest,
            Err(NoMemory) => return Err(NoMemory),
        }
    }
    Ok(first)
}
