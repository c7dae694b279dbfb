//! The first of the instances of operators that may be pushed.
ghost use Rattle.std.specs.Prelude.{◌↔◌, All, Contains, IfOk, IsTrue, MatchBool};
ghost use Rattle.std.specs.List.Sorted.{IsStrictlySortedBy};
ghost use Rattle.px_terms.specs.Order.{instance_cmp};
ghost use Rattle.px_terms.specs.declared.instance.OpInst.{OpInst as InstanceValue};
ghost use Rattle.px_terms.specs.Validity.{IsValid};
ghost use Rattle.px_gaps.specs.Bounds.{AreBounds};
ghost use Rattle.px_diff.specs.Firsts.{AreEnough, BringsFirstInstances, ComeBefore, IsNotAfter};
ghost use Rattle.px_entries.specs.Learned.{AreLearned};
ghost use Rattle.px_entries.specs.Instances.{IsCovered, IsPartialInstance, StandsFor};
ghost use Rattle.px_diff.specs.Outcomes.{IfStopped};
ghost use Rattle.px_diff.specs.Requests.{GathersFor, LimitsFor};

use crate::move_err::MoveErr;
use crate::pushes::gather;
use crate::request::Request;
use px_entries::{PartialInstance, filled};
use px_gaps::{Asker, Bounds};
use px_terms::{MOST_PARAMETERS, OpInst, Problem};

/// Returns the least of the instances that the partial one stands for: object 0 for each variable.
fn least_of(problem: &Problem, partial: &PartialInstance) -> OpInst
    requires partial { IsPartialInstance problem.now partial.now }
    ensures { (full : InstanceValue) → StandsFor problem.now partial.now full → IsNotAfter result full }
{
    // what stands behind a reference is known to be in range once it is read
    let _objects = problem.objects;
    filled(
        partial,
        &[0; MOST_PARAMETERS][..partial.variable_count as usize],
    )
}

/// Returns the lesser of the two.
fn lesser(first: OpInst, second: OpInst) -> OpInst
    ensures first { IsNotAfter result first }
    ensures second { IsNotAfter result second }
{
    if first < second { first } else { second }
}

/// Returns the least of the instance and of all that the partial ones stand for.
fn least_of_all(problem: &Problem, inst: OpInst, partials: &[PartialInstance]) -> OpInst
    requires partials { All (IsPartialInstance problem.now) partials.now }
    ensures inst { IsNotAfter result inst }
    ensures partials { (full : InstanceValue) → IsCovered problem.now partials.now full → IsNotAfter result full }
{
    let mut least = inst;
    for partial in partials {
        least = lesser(least, least_of(problem, partial));
    }
    least
}

/// Returns whether all of the instances come before the other one.
fn come_before(insts: &[OpInst], other: &OpInst) -> bool
    ensures { IsTrue result → ComeBefore insts.now other.now }
{
    insts.iter().all(|inst| inst < other)
}

/// Returns whether all of the instances come before each that one of the partial ones stands for.
fn come_before_all(problem: &Problem, insts: &[OpInst], later: &[PartialInstance]) -> bool
    requires later { All (IsPartialInstance problem.now) later.now }
    ensures { IsTrue result → (full : InstanceValue) → IsCovered problem.now later.now full → ComeBefore insts.now full }
{
    if later.is_empty() {
        return true;
    }
    let first = least_of(problem, &later[0]);
    let least = least_of_all(problem, first, later);
    come_before(insts, &least)
}

/// Puts the instances in order, each once.
fn order_instances(found: &mut Vec<OpInst>)
    ensures members { (inst : InstanceValue) → Contains found.new.items inst ↔ Contains found.old.items inst }
    ensures ordered { IsStrictlySortedBy instance_cmp found.new.items }
{
    found.sort_unstable();
    found.dedup();
}

/// Returns whether there are enough instances, and all come before each that one of the partial ones stands for. If so, they are in order,
/// each once.
fn can_leave_off_matches(
    found: &mut Vec<OpInst>,
    problem: &Problem,
    later: &[PartialInstance],
    enough: usize,
) -> bool
    requires later { All (IsPartialInstance problem.now) later.now }
    ensures members { (inst : InstanceValue) → Contains found.new.items inst ↔ Contains found.old.items inst }
    ensures enough { IsTrue result → AreEnough instance_cmp enough found.new.items }
    ensures after { IsTrue result → (full : InstanceValue) → IsCovered problem.now later.now full → ComeBefore found.new.items full }
{
    if found.len() < enough || !come_before_all(problem, found, later) {
        return false;
    }
    order_instances(found);
    found.len() >= enough && come_before_all(problem, found, later)
}

/// Adds the instances that the matches stand for and that may be pushed, match by match. It stops where there are enough, and each that a
/// later match stands for comes after them. Returns whether it gets to the end.
pub fn gather_first(
    asker: &mut Asker,
    found: &mut Vec<OpInst>,
    request: &Request,
    bounds: &Bounds,
    matches: &[PartialInstance],
    enough: usize,
) -> Result<bool, MoveErr>
    requires problem { IsValid request.now.problem.now }
    requires tables { AreLearned request.now.problem.now request.now.tables.now }
    requires bounds { AreBounds request.now.problem.now request.now.problem.now.height bounds.now.table }
    requires matches { All (IsPartialInstance request.now.problem.now) matches.now }
    ensures gathers { IfOk result (λ is_all. MatchBool is_all
        (GathersFor request.now (IsCovered request.now.problem.now matches.now) found.old.items found.new.items)
        (BringsFirstInstances request.now enough (IsCovered request.now.problem.now matches.now) found.old.items found.new.items)) }
    ensures limited { IfStopped result (LimitsFor request.now) }
{
    for place in 0..matches.len() {
        if can_leave_off_matches(found, request.problem, &matches[place..], enough) {
            return Ok(false);
        }
        gather(asker, found, request, bounds, &matches[place])?;
    }
    Ok(true)
}
