//! Which steps are kept: those of the pairs, and those that the rows of kept steps rest on.
ghost use Rattle.std.specs.Prelude.{◌≡◌, ◌↔◌, ◌⊎◌, ◌<◌, ◌≤◌, ◌+◌, ℕ, List, [], false, All, Contains, IfOk, Some, length, replicate, slice_get};
ghost use Rattle.std.specs.List.Sorted.{IsStrictlyIncreasing};
ghost use Rattle.px_base.specs.Bounds.{u32_max};
ghost use Rattle.px_table.specs.declared.mark.Mark.{Mark};
ghost use Rattle.px_table.specs.Tables.{IsTable};
ghost use Rattle.px_terms.specs.declared.problem.Problem.{Problem};
ghost use Rattle.px_edit.specs.Editing.{AreKeptSteps, IsNeededStep};
ghost use Rattle.px_edit.specs.Keeping.{AreAsked, AreFlagged, AreMarksBelow, HasFlag};

use px_base::NoMemory;
use px_table::{Mark, Table};
use std::alloc::Global;

/// Sets the flags of the pairs' steps.
fn set_asked(flags: &mut [bool], wanted: &[(u32, u32)])
    requires within { All (λ (pair : ℕ × ℕ). pair.0 < length flags.old) wanted.now }
    requires start { AreAsked (length flags.old) [] flags.old }
    ensures { AreAsked (length flags.old) wanted.now flags.new }
{
    for place in 0..wanted.len() {
        let (step, _) = wanted[place];
        flags[step as usize] = true;
    }
}

/// Returns that many flags, none of which is set.
fn no_flags(alloc: Global, count: usize) -> Result<Vec<bool>, NoMemory>
    ensures { IfOk result (λ flags. flags.items ≡ replicate count false) }
{
    let flags = vec![in alloc; false; count]?;
    Ok(flags)
}

/// Sets the flag of the mark's column, if that of its row is set.
fn flag_column(flags: &mut [bool], mark: &Mark)
    requires row { mark.now.row < length flags.old }
    requires earlier { mark.now.column < mark.now.row }
    ensures long { length flags.new ≡ length flags.old }
    ensures exact { (k : ℕ) → HasFlag flags.new k ↔ (HasFlag flags.old k ⊎ (HasFlag flags.old mark.now.row × (k ≡ mark.now.column))) }
{
    if flags[mark.row as usize] {
        flags[mark.column as usize] = true;
    }
}

/// Returns the mark at the place.
fn mark_at(marks: &[Mark], place: usize) -> Mark
    requires { place < length marks.now }
    ensures { slice_get marks.now place ≡ Some result }
{
    marks[place]
}

/// Sets the flags of all that a flagged row rests on, row by row, from the last mark to the first.
fn flag_columns(flags: &mut [bool], marks: &[Mark])
    requires { AreMarksBelow (length flags.old) marks.now }
    ensures long { length flags.new ≡ length flags.old }
    ensures more { (k : ℕ) → HasFlag flags.old k → HasFlag flags.new k }
    ensures closed { (mark : Mark) → Contains marks.now mark → HasFlag flags.new mark.row → HasFlag flags.new mark.column }
    ensures least { (k : ℕ) → HasFlag flags.new k → HasFlag flags.old k
        ⊎ ((mark : Mark) × Contains marks.now mark × (mark.column ≡ k) × HasFlag flags.new mark.row) }
{
    let mut at = marks.len();
    while at > 0 {
        at -= 1;
        let mark = mark_at(marks, at);
        flag_column(flags, &mark);
    }
}

/// Appends the number, if its flag is set.
fn push_flagged(numbers: &mut Vec<u32>, flags: &[bool], k: usize) -> Result<(), NoMemory>
    requires least { 1 ≤ k }
    requires within { k < length flags.now }
    requires short { length flags.now ≤ u32_max + 1 }
    ensures { IfOk result (λ _. AreFlagged flags.now k numbers.old.items → AreFlagged flags.now (k + 1) numbers.new.items) }
{
    if !flags[k] {
        return Ok(());
    }
    numbers.push(k as u32)?;
    Ok(())
}

/// Returns the numbers from 1 on whose flags are set, ascending.
fn flagged(alloc: Global, flags: &[bool]) -> Result<Vec<u32>, NoMemory>
    requires { length flags.now ≤ u32_max + 1 }
    ensures in_order { IfOk result (λ numbers. IsStrictlyIncreasing numbers.items) }
    ensures exact { IfOk result (λ numbers. (k : ℕ) → Contains numbers.items k ↔ ((1 ≤ k) × HasFlag flags.now k)) }
{
    let mut numbers = Vec::new(alloc);
    for k in 1..flags.len() {
        push_flagged(&mut numbers, flags, k)?;
    }
    Ok(numbers)
}

/// Sets the flags of the steps that are needed for the wanted adds.
fn flag_needed(flags: &mut [bool], table: &Table, wanted: &[(u32, u32)])
    requires table { (problem : Problem) × IsTable problem table.now }
    requires within { All (λ (pair : ℕ × ℕ). (1 ≤ pair.0) × (pair.0 ≤ length table.now.steps)) wanted.now }
    requires long { length flags.old ≡ length table.now.steps + 2 }
    requires start { AreAsked (length flags.old) [] flags.old }
    ensures long { length flags.new ≡ length flags.old }
    ensures exact { (k : ℕ) → ((1 ≤ k) × HasFlag flags.new k) ↔ IsNeededStep table.now wanted.now k }
{
    set_asked(flags, wanted);
    flag_columns(flags, table.marks.as_slice());
}

/// Returns the numbers of the steps that are needed for the wanted adds, ascending.
pub fn kept_numbers(
    alloc: Global,
    table: &Table,
    wanted: &[(u32, u32)],
) -> Result<Vec<u32>, NoMemory>
    requires table { (problem : Problem) × IsTable problem table.now }
    requires within { All (λ (pair : ℕ × ℕ). (1 ≤ pair.0) × (pair.0 ≤ length table.now.steps)) wanted.now }
    ensures { IfOk result (λ kept. AreKeptSteps table.now wanted.now kept.items) }
{
    let mut flags = no_flags(alloc, table.steps.len() + 2)?;
    flag_needed(&mut flags, table, wanted);
    flagged(alloc, &flags)
}
