//! Tests of sorts: which objects fit a place, and which instances are well-sorted. None of them allocates.
ghost use Rattle.std.specs.Prelude.{◌≡◌, ◌↔◌, ◌<◌, length, slice_index, slice_index_or, IsTrue};
ghost use Rattle.px_terms.specs.Language.{object_of};
ghost use Rattle.px_terms.specs.Sorts.{AreOfSorts, FitsSort, IsWellSorted, ObjectsFit};
ghost use Rattle.px_terms.specs.Validity.{IsInstanceOf};
ghost use Rattle.px_terms.specs.declared.term.Term.TheVariants.{Any};

use crate::instance::OpInst;
use crate::problem::Problem;
use crate::term::{Term, object_of};

/// Returns the sort at the place, and 0, which is no sort, past the end.
pub fn sort_at(sorts: &[u32], place: usize) -> u32
    ensures { result ≡ slice_index sorts.now place }
{
    if place < sorts.len() { sorts[place] } else { 0 }
}

/// Returns whether the object fits a place of the wanted sort, where the objects have these sorts: whether the wanted sort is 0, or the
/// object's.
pub fn fits_sort(sorts: &[u32], wanted: u32, object: u32) -> bool
    ensures { IsTrue result ↔ FitsSort sorts.now wanted object }
{
    wanted == 0 || sort_at(sorts, object as usize) == wanted
}

/// Returns whether each object fits the place of its number, where the objects have these sorts and the places want these.
pub fn objects_fit(sorts: &[u32], wanted: &[u32], objects: &[u32]) -> bool
    ensures { IsTrue result ↔ ObjectsFit sorts.now wanted.now objects.now }
{
    for place in 0..objects.len() {
        if !fits_sort(sorts, sort_at(wanted, place), objects[place]) {
            return false;
        }
    }
    true
}

/// Returns whether the argument at the place fits it.
fn fits_at(sorts: &[u32], wanted: &[u32], args: &[Term], place: usize) -> bool
    requires { place < length args.now }
    ensures { IsTrue result ↔ FitsSort sorts.now (slice_index wanted.now place) (object_of (slice_index_or args.now place Any)) }
{
    fits_sort(sorts, sort_at(wanted, place), object_of(args[place]))
}

/// Returns whether each argument fits its place.
fn are_of_sorts(sorts: &[u32], wanted: &[u32], args: &[Term]) -> bool
    ensures { IsTrue result ↔ AreOfSorts sorts.now wanted.now args.now }
{
    for place in 0..args.len() {
        if !fits_at(sorts, wanted, args, place) {
            return false;
        }
    }
    true
}

/// Returns whether each argument of the instance fits its parameter: whether the parameter has no sort, or the object's.
pub fn fits(problem: &Problem, inst: &OpInst) -> bool
    requires { IsInstanceOf problem.now inst.now }
    ensures { IsTrue result ↔ IsWellSorted problem.now inst.now }
{
    let schema = &problem.schemas.as_slice()[inst.op() as usize];
    let wanted = schema.param_sorts.as_slice();
    are_of_sorts(problem.object_sorts.as_slice(), wanted, inst.args())
}
