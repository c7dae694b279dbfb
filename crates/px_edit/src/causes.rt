//! Whether the prefix is there, and which wanted pair is the first bad one.
ghost use Rattle.std.specs.Prelude.{◌≡◌, ◌↔◌, ◌<◌, ◌≤◌, ℕ, None, Some, Contains, IsTrue, length, slice_index_or, take};
ghost use Rattle.px_base.specs.Bounds.{u32_max};
ghost use Rattle.px_terms.specs.Validity.{IsValid};
ghost use Rattle.px_table.specs.Tables.{IsTable};
ghost use Rattle.px_edit.specs.EditCauses.{IsAddOf, IsBadPrefix, IsBadWantAt, IsFirstBadWant};

use px_ops::schema_of;
use px_table::Table;
use px_terms::Problem;

/// Returns whether the table has no prefix of that many steps.
pub fn is_bad_prefix(table: &Table, prefix: u32) -> bool
    ensures { IsTrue result ↔ IsBadPrefix table.now prefix }
{
    prefix == 0 || prefix as usize > table.steps.len()
}

/// Returns whether the pair names an add of one of the first steps.
fn is_add_of(problem: &Problem, table: &Table, prefix: u32, step: u32, index: u32) -> bool
    requires problem { IsValid problem.now }
    requires table { IsTable problem.now table.now }
    requires most { prefix ≤ length table.now.steps }
    ensures { IsTrue result ↔ IsAddOf problem.now table.now prefix (step, index) }
{
    if step == 0 || step > prefix {
        return false;
    }
    let schema = schema_of(problem, &table.steps.as_slice()[step as usize - 1]);
    (index as usize) < schema.add.len()
}

/// Returns whether the pairs at these places are the same.
fn same_pair(wanted: &[(u32, u32)], one: usize, other: usize) -> bool
    requires one { one < length wanted.now }
    requires other { other < length wanted.now }
    ensures { IsTrue result ↔ (slice_index_or wanted.now one (0, 0) ≡ slice_index_or wanted.now other (0, 0)) }
{
    let (step, index) = wanted[one];
    let (other_step, other_index) = wanted[other];
    step == other_step && index == other_index
}

/// Returns whether the pair at the place stands there before.
fn stands_before(wanted: &[(u32, u32)], place: usize) -> bool
    requires { place < length wanted.now }
    ensures { IsTrue result ↔ Contains (take place wanted.now) (slice_index_or wanted.now place (0, 0)) }
{
    for earlier in 0..place {
        if same_pair(wanted, earlier, place) {
            return true;
        }
    }
    false
}

/// Returns whether the pair at the place names no add of the first steps, or stands there before.
fn is_bad_at(
    problem: &Problem,
    table: &Table,
    prefix: u32,
    wanted: &[(u32, u32)],
    place: usize,
) -> bool
    requires problem { IsValid problem.now }
    requires table { IsTable problem.now table.now }
    requires most { prefix ≤ length table.now.steps }
    requires place { place < length wanted.now }
    ensures { IsTrue result ↔ IsBadWantAt problem.now table.now prefix wanted.now place }
{
    let (step, index) = wanted[place];
    !is_add_of(problem, table, prefix, step, index) || stands_before(wanted, place)
}

/// Returns the place of the first pair that names no add of the first steps, or stands there before.
pub fn first_bad_want(
    problem: &Problem,
    table: &Table,
    prefix: u32,
    wanted: &[(u32, u32)],
) -> Option<u32>
    requires problem { IsValid problem.now }
    requires table { IsTable problem.now table.now }
    requires most { prefix ≤ length table.now.steps }
    requires short { length wanted.now < u32_max }
    ensures first { (place : ℕ) → (result ≡ Some place) → IsFirstBadWant problem.now table.now prefix wanted.now place }
    ensures none { result ≡ None → (place : ℕ) → ¬ IsBadWantAt problem.now table.now prefix wanted.now place }
{
    for place in 0..wanted.len() {
        if is_bad_at(problem, table, prefix, wanted, place) {
            return Some(place as u32);
        }
    }
    None
}
