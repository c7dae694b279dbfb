//! Sorts: what their lines add.
ghost use Rattle.std.specs.Prelude.{◌≡◌, ◌≤◌, ◌++◌, length, map, replicate, if◌then◌else◌, IfOk, OnOk};
ghost use Rattle.px_names.specs.Name.{IsName};
ghost use Rattle.px_script.specs.Declarations.{with_sort};
ghost use Rattle.px_script.specs.Statements as spec;
ghost use Rattle.px_script.specs.declared.limits.TheConstants.{SORTS as most_sorts};
ghost use Rattle.px_so_far.specs.Problems.{HasFewSorts};
ghost use Rattle.px_effects.specs.Common.{AllByRecursion, AreOfKind, declared_of, has_name, leaves, number_in, string_bytes, text_of};

use crate::declaring::declare_names;
use px_base::NoMemory;
use px_names::Kind;
use px_so_far::{BlockKind, SoFar, fill_up, is_one_of, place_of};
use px_terms::sort_at;
use std::alloc::Global;

/// Returns the sort of a parameter, where the parameters of these names get one.
fn sort_after(sort: u32, names: &[&str], parameter: &str, old: u32) -> u32
    ensures { result ≡ (if has_name parameter.now (map text_of names.now) then sort else old) }
{
    if is_one_of(names, parameter) {
        sort
    } else {
        old
    }
}

/// Returns the sorts of parameters, where those of these names get one.
fn sorts_with(
    alloc: Global,
    sort: u32,
    names: &[&str],
    parameters: &[String],
    old: &[u32],
) -> Result<Vec<u32>, NoMemory>
    ensures { IfOk result (λ sorts. sorts.items ≡ with_sort sort (map text_of names.now) (map string_bytes parameters.now) old.now) }
{
    let mut sorts = Vec::new(alloc);
    for (place, parameter) in parameters.iter().enumerate() {
        sorts.push(sort_after(sort, names, parameter.as_str(), sort_at(old, place)))?;
    }
    Ok(sorts)
}

/// Returns the sort 0, which is no sort, for each of these parameters.
#[tactic(auto, using(crate::proofs::Sorting::lengths))]
pub fn without_sorts(alloc: Global, parameters: &[&str]) -> Result<Vec<u32>, NoMemory>
    ensures { IfOk result (λ sorts. sorts.items ≡ replicate (length (map text_of parameters.now)) 0) }
{
    Ok(vec![in alloc; 0; parameters.len()]?)
}

/// Appends the sort for each of these objects.
#[tactic(auto, using(crate::proofs::Sorting::lengths))]
fn push_each(
    alloc: Global,
    sorts: &mut Vec<u32>,
    sort: u32,
    objects: &[&str],
) -> Result<(), NoMemory>
    ensures { OnOk result (sorts.new.items ≡ sorts.old.items ++ replicate (length (map text_of objects.now)) sort) }
{
    let new = vec![in alloc; sort; objects.len()]?;
    sorts.extend_from_slice(&new)?;
    Ok(())
}

/// Adds a sort, and objects that have it.
pub fn add_sort(so_far: &mut SoFar, name: &str, objects: &[&str]) -> Result<(), NoMemory>
    requires few_sorts { HasFewSorts (declared_of so_far.old) }
    requires named { AllByRecursion (λ name. IsName name.now) objects.now }
    requires fresh { AreOfKind Kind.Object (so_far.old.names.objects ++ map text_of objects.now) }
    ensures { OnOk result (declared_of so_far.new ≡ leaves 0 (declared_of so_far.old) (spec.sort name.now (map text_of objects.now))) }
{
    let count = so_far.names.count(Kind::Object);
    let sort = so_far.sort_count() + 1;
    fill_up(so_far.alloc, &mut so_far.object_sorts, count)?;
    push_each(so_far.alloc, &mut so_far.object_sorts, sort, objects)?;
    so_far.sorts.push(String::from_str(so_far.alloc, name)?)?;
    declare_names(so_far, Kind::Object, objects)
}

/// Gives the sort to these parameters of the open operator.
pub fn give_sort(so_far: &mut SoFar, sort: &str, names: &[&str]) -> Result<(), NoMemory>
    requires few_sorts { HasFewSorts (declared_of so_far.old) }
    ensures { OnOk result (declared_of so_far.new ≡ leaves 0 (declared_of so_far.old) (spec.param sort.now (map text_of names.now))) }
{
    let alloc = so_far.alloc;
    let sort = sort_number(so_far, sort) + 1;
    if let Some(block) = &mut so_far.block {
        if let BlockKind::Operator(operator) = &mut block.kind {
            operator.sorts = sorts_with(alloc, sort, names, &operator.parameters, &operator.sorts)?;
        }
    }
    Ok(())
}

/// Returns the place of a sort, counted from 0.
#[tactic(auto, using(crate::proofs::Sorting::positions))]
fn sort_number(so_far: &SoFar, name: &str) -> u32
    requires few_sorts { HasFewSorts (declared_of so_far.now) }
    ensures number { result ≡ number_in name.now (declared_of so_far.now).sorts }
    ensures few { result ≤ most_sorts }
{
    place_of(name, &so_far.sorts).unwrap_or(0) as u32
}
