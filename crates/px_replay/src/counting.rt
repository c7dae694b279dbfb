//! How many variables opening a table takes.
ghost use Rattle.std.specs.Prelude.{◌≡◌, ◌≤◌, ◌-◌, ◌^◌, length, min, sum_by, count_by};
ghost use Rattle.px_terms.specs.Limits.{most_arguments};
ghost use Rattle.px_base.specs.Bounds.{u64_max};
ghost use Rattle.px_proof.specs.Derivation.{fact};
ghost use Rattle.px_replay.specs.FreshOf.{fresh_of_proof, row_fresh};
ghost use Rattle.px_replay.specs.FreshVariables.{fresh_in, fresh_variables, is_object};
ghost use Rattle.px_replay.specs.Opened.{goal_objects, step_variables};

use px_proof::{Leaf, Proof};
use px_table::{Row, Table};
use px_terms::{Atom, OpInst, Term};

/// Returns how many fresh variables the plan takes, or the greatest number there is where there are more. Does not allocate.
pub fn fresh_count(table: &Table) -> usize
    ensures { result ≡ min (fresh_variables table.now) u64_max }
{
    count_steps(table.steps.as_slice())
        .saturating_add(count_goal(table.goal.as_slice()))
        .saturating_add(table.goal_variable_count as usize)
        .saturating_add(count_rows(table.proofs.as_slice()))
}

/// Returns how many arguments the steps have.
pub fn count_steps(steps: &[OpInst]) -> usize
    ensures { result ≡ min (step_variables steps.now) u64_max }
{
    let mut count: usize = 0;
    for inst in steps {
        count = count.saturating_add(inst.args().len());
    }
    count
}

/// Returns how many objects stand in the goal.
pub fn count_goal(goal: &[Atom]) -> usize
    ensures { result ≡ min (goal_objects goal.now) u64_max }
{
    let mut count: usize = 0;
    for atom in goal {
        count = count.saturating_add(count_objects(atom.args()) as usize);
    }
    count
}

/// Returns how many of the arguments are objects.
pub fn count_objects(args: &[Term]) -> u32
    requires { length args.now ≤ most_arguments }
    ensures { result ≡ count_by is_object args.now }
{
    args.iter()
        .filter(|term| matches!(term, Term::Obj(_)))
        .count() as u32
}

/// Returns how many variables the rows take.
fn count_rows(rows: &[Row]) -> usize
    ensures { result ≡ min (sum_by row_fresh rows.now) u64_max }
{
    let mut count: usize = 0;
    for row in rows {
        count = count.saturating_add(count_each(row.proofs()));
    }
    count
}

/// Returns how many variables the leaf takes.
fn count_leaf(leaf: &Leaf) -> usize
    ensures { result ≡ fresh_in (fact leaf.now) }
{
    if leaf.column == 0 {
        leaf.atom.args().len()
    } else {
        0
    }
}

/// Returns how many variables the proof takes.
#[cycle(counts)]
fn count_proof(proof: &Proof) -> usize
    ensures { result ≡ min (fresh_of_proof proof.now) u64_max }
{
    match proof {
        Proof::Fact(leaf) => count_leaf(leaf),
        Proof::Anc(_) | Proof::Gap(_) => 0,
        Proof::Step { theta, subs, .. } => {
            theta
                .as_slice()
                .len()
                .saturating_add(count_each(subs.as_slice()))
        }
    }
}

/// Returns how many variables the proofs take together.
#[cycle(counts)]
fn count_each(proofs: &[Proof]) -> usize
    ensures { result ≡ min (row_fresh proofs.now) u64_max }
{
    let mut count: usize = 0;
    for proof in proofs {
        count = count.saturating_add(count_proof(proof));
    }
    count
}
