//! Which objects fit the variables of a formula, by the sorts of the places at which they stand.
ghost use Rattle.std.specs.Prelude.{◌≡◌, ◌<◌, ℕ, List, length, map as map_list, slice_index};
ghost use Rattle.px_prover.specs.Patterns.{object_under};
ghost use Rattle.px_terms.specs.Sorts.{FitsSort, ObjectsFit};

use px_table::sort_in_step;
use px_terms::Term;

/// The sorts of the objects, and those that are wanted at some places. Where a list is short, the sort past its end is 0, which is none.
#[derive(Clone, Copy)]
pub struct Sorting<'a> {
    /// The sort of each object.
    pub object_sorts: &'a [u32],
    /// The sort that is wanted at each place; 0 is no sort.
    pub wanted: &'a [u32],
}

/// Returns the sort that a variable has to have which stands at these places, of terms whose objects fit: the first sort other than 0 that
/// is wanted at one of them, or 0.
pub fn sort_of(sorting: &Sorting, terms: &[Term], variable: u32) -> u32
    ensures { (values : List ℕ) → variable < length values
        → ObjectsFit sorting.now.object_sorts.now sorting.now.wanted.now (map_list (object_under values) terms.now)
        → FitsSort sorting.now.object_sorts.now result (slice_index values variable) }
{
    sort_in_step(sorting.wanted, terms, variable)
}
