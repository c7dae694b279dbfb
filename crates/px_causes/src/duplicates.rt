//! Names that are declared already or twice, and what stands a second time where it may stand once.
ghost use Rattle.std.specs.Prelude.{◌≡◌, [], map, IfOk};
ghost use Rattle.px_script.specs.Causes.{repeats_name, taken_here};
ghost use Rattle.px_script.specs.Faults.{repeats_itself, sorts_twice, has_sort};
ghost use Rattle.px_script.specs.Items.{declared_in};
ghost use Rattle.px_lines.specs.ItemViews.{rest_view, said_view};
ghost use Rattle.px_lines.specs.LineViews.{line_view};
ghost use Rattle.px_causes.specs.Common.{flat_map, group_repeats, list_any, has_name, line_of, text_cmp, repeats, binds_twice, has_duplicate, declared_of, binding_view, statement_view, text_of, operator_here};
ghost use Rattle.std.specs.BTreeSet.{IsFromIterResult};
ghost use Rattle.std.specs.Ordering.{nat_cmp};

use crate::naming::is_among;
use crate::order::has_robot;
use px_base::NoMemory;
use px_lines::{Line, Rest, Said, WrittenBinding};
use px_names::Kind;
use px_script::Named;
use px_so_far::{SoFar, place_of};
use px_statements::Statement;
use px_terms::sort_at;
use std::alloc::{AllocError, Global};
use std::collections::BTreeSet;

fn different<'a>(alloc: Global, names: &[&'a str]) -> Result<BTreeSet<&'a str>, AllocError>
    ensures { IfOk result (IsFromIterResult text_cmp names.now) }
{
    names.iter().copied().collect(alloc)
}

fn different_parameters(
    alloc: Global,
    bindings: &[WrittenBinding<'_>],
) -> Result<BTreeSet<u32>, AllocError>
    ensures { IfOk result (IsFromIterResult nat_cmp (map (λ binding. binding.parameter) bindings.now)) }
{
    bindings.iter().map(|b| b.parameter).collect(alloc)
}

/// Returns whether some parameter is bound more than once.
#[tactic(auto, using(crate::proofs::Twice::fewer_different))]
fn binds_twice(alloc: Global, bindings: &[WrittenBinding<'_>]) -> Result<bool, NoMemory>
    ensures { IfOk result (λ found. found ≡ binds_twice (map binding_view bindings.now)) }
{
    let different = different_parameters(alloc, bindings)?;
    Ok(different.len() < bindings.len())
}

/// Returns whether one of the names stands twice.
#[tactic(auto, using(crate::proofs::Twice::fewer_alone))]
fn stand_twice(alloc: Global, names: &[&str]) -> Result<bool, NoMemory>
    ensures { IfOk result (λ found. found ≡ repeats [] (map text_of names.now)) }
{
    let different = different(alloc, names)?;
    Ok(different.len() < names.len())
}

/// Returns whether the line declares what is declared already, or a name twice.
pub fn has_duplicate(
    so_far: &SoFar,
    line: &Line<'_>,
    statement: Statement<'_, '_>,
) -> Result<bool, NoMemory>
    requires { line_of (statement_view statement) ≡ line_view line.now }
    ensures { IfOk result (λ found. found ≡ has_duplicate (declared_of so_far.now) (statement_view statement.entry)) }
{
    Ok(repeats_name(so_far, line)? || repeats_itself(so_far, statement)?)
}

/// Returns whether the line declares a name that its kind has, or a name twice.
#[tactic(auto, using(crate::proofs::LineTests::declared))]
fn repeats_name(so_far: &SoFar, line: &Line<'_>) -> Result<bool, NoMemory>
    ensures { IfOk result (λ found. found ≡ repeats_name (declared_of so_far.now) (line_view line.now)) }
{
    Ok(ones_repeat(so_far, &line.ones) || rest_repeats(so_far, &line.last)?)
}

fn ones_repeat(so_far: &SoFar, ones: &[Said<'_>]) -> bool
    ensures { result ≡ list_any (λ one. list_any (group_repeats (declared_of so_far.now)) (declared_in (said_view one))) ones.now }
{
    ones.iter().any(|one| one_repeats(so_far, one))
}

#[tactic(auto, using(crate::proofs::Twice::one_group))]
fn one_repeats(so_far: &SoFar, one: &Said<'_>) -> bool
    ensures { result ≡ list_any (group_repeats (declared_of so_far.now)) (declared_in (said_view one.now)) }
{
    match one {
        Said::New(kind, name) => is_taken(so_far, *kind, name),
        _ => false,
    }
}

#[tactic(auto, using(crate::proofs::LineTests::single))]
fn rest_repeats(so_far: &SoFar, last: &Rest<'_>) -> Result<bool, NoMemory>
    ensures { IfOk result (λ found. found ≡ list_any (group_repeats (declared_of so_far.now)) (flat_map declared_in (rest_view last.now))) }
{
    match last {
        Rest::Declared(kind, names) => repeats(so_far, *kind, names),
        Rest::Listed(kind, names) => repeats(so_far, *kind, names),
        _ => Ok(false),
    }
}

/// Returns whether one of the names may not be declared in the kind, or stands twice.
#[tactic(auto, using(crate::proofs::Twice::fewer_different))]
fn repeats(so_far: &SoFar, kind: Named, names: &[&str]) -> Result<bool, NoMemory>
    ensures { IfOk result (λ found. found ≡ repeats (taken_here (declared_of so_far.now) kind) (map text_of names.now)) }
{
    if are_taken(so_far, kind, names) {
        return Ok(true);
    }
    let different = different(so_far.alloc, names)?;
    Ok(different.len() < names.len())
}

fn are_taken(so_far: &SoFar, kind: Named, names: &[&str]) -> bool
    ensures { result ≡ list_any (λ name. has_name name.now (taken_here (declared_of so_far.now) kind)) names.now }
{
    names.iter().any(|name| is_taken(so_far, kind, name))
}

/// Returns whether the name may not be declared in the kind, since it is taken.
fn is_taken(so_far: &SoFar, kind: Named, name: &str) -> bool
    ensures { result ≡ has_name name.now (taken_here (declared_of so_far.now) kind) }
{
    match kind {
        Named::Object | Named::Parameter | Named::Room | Named::Door | Named::Box => {
            so_far.has(Kind::Object, name)
        }
        Named::Predicate => so_far.has(Kind::Predicate, name),
        Named::Operator => so_far.has(Kind::Operator, name),
        Named::Result | Named::Plan | Named::Table => so_far.has(Kind::Result, name),
        Named::Sort => is_among(name, &so_far.sorts),
    }
}

/// Returns whether one of the parameters has a sort, or stands twice.
#[tactic(auto, using(crate::proofs::LineTests::seen))]
fn sorts_twice(so_far: &SoFar, names: &[&str]) -> Result<bool, NoMemory>
    ensures { IfOk result (λ found. found ≡ sorts_twice (declared_of so_far.now) (map text_of names.now)) }
{
    Ok(have_sort(so_far, names) || stand_twice(so_far.alloc, names)?)
}

/// Returns whether what stands in the line may stand once, and stands a second time.
fn repeats_itself(so_far: &SoFar, statement: Statement<'_, '_>) -> Result<bool, NoMemory>
    ensures { IfOk result (λ found. found ≡ repeats_itself (declared_of so_far.now) (statement_view statement.entry)) }
{
    match statement {
        Statement::Building => Ok(so_far.has_building()),
        Statement::Door(_, one, other, _) => Ok(one == other),
        Statement::Robot(_) => Ok(has_robot(so_far)),
        Statement::Height(_) => Ok(so_far.height.is_some()),
        Statement::Nodes(_) => Ok(so_far.nodes.is_some()),
        Statement::Shapes(_) => Ok(so_far.shapes.is_some()),
        Statement::Weight(_) => Ok(so_far.weight.is_some()),
        Statement::Run(_, bindings) => binds_twice(so_far.alloc, bindings),
        Statement::Param(_, names) => sorts_twice(so_far, names),
        _ => Ok(false),
    }
}

/// Returns whether one of the parameters has a sort.
#[tactic(auto, using(crate::proofs::LineTests::seen))]
pub fn have_sort(so_far: &SoFar, names: &[&str]) -> bool
    ensures { result ≡ list_any (has_sort (operator_here (declared_of so_far.now).block)) (map text_of names.now) }
{
    any_sorted(so_far, names)
}

fn any_sorted(so_far: &SoFar, names: &[&str]) -> bool
    ensures { result ≡ list_any (λ name. has_sort (operator_here (declared_of so_far.now).block) name.now) names.now }
{
    names.iter().any(|name| has_sort(so_far, name))
}

/// Returns whether a parameter of the open operator has a sort.
#[tactic(auto, using(crate::proofs::AtomTests::positions))]
fn has_sort(so_far: &SoFar, name: &str) -> bool
    ensures { result ≡ has_sort (operator_here (declared_of so_far.now).block) name.now }
{
    let Some(operator) = so_far.open_operator() else {
        return false;
    };
    let place = place_of(name, &operator.parameters).unwrap_or(0);
    sort_at(&operator.sorts, place) != 0
}
