//! Pushes of entries, by their numbers.
ghost use Rattle.std.specs.Prelude.{◌≡◌, ◌<◌, ◌++◌, ◌∷◌, List, [], Some, length, map, slice_get, MatchBool, IfOk, OnOk};
ghost use Rattle.px_table.specs.declared.entry.Entry.{Entry};
ghost use Rattle.px_table.specs.declared.entry.Move.{Move};
ghost use Rattle.px_table.specs.declared.entry.Move.TheVariants as move;
ghost use Rattle.px_numbers.specs.Numbers.{IsStackAt, KeepsAll};
ghost use Rattle.px_search.specs.Steps.{AreStepsOf, DescribesMove, is_push_on, unstruck};

use crate::step::Step;
use px_numbers::Numbers;
use px_table::Entry;
use px_terms::NoMemory;
use std::alloc::Global;

/// Returns the pushes of the entries, in their order.
pub fn numbered(
    alloc: Global,
    numbers: &mut Numbers,
    entries: &Vec<Entry>,
) -> Result<Vec<Step>, NoMemory>
    ensures keeps { KeepsAll numbers.old numbers.new }
    ensures steps { IfOk result (λ steps. AreStepsOf numbers.new steps.items (map move.Push entries.now.items)) }
{
    let mut steps = Vec::new(alloc);
    for place in 0..entries.len() {
        let entry = &entries[place];
        let copy = entry.try_copy()?;
        let number = numbers.entry_number(copy)?;
        steps.push(Step::Push(number))?;
    }
    Ok(steps)
}

/// Returns the step at the place.
pub fn step_at(steps: &[Step], place: usize) -> Step
    requires { place < length steps.now }
    ensures { slice_get steps.now place ≡ Some result }
{
    steps[place]
}

/// Returns whether it is the push of an entry on the stack.
fn is_struck(numbers: &Numbers, stack: u32, step: Step) -> bool
    requires { (entries : List Entry) × IsStackAt numbers.now stack entries }
    ensures { (entries : List Entry) (m : Move) → IsStackAt numbers.now stack entries → DescribesMove numbers.now step m
        → result ≡ is_push_on entries m }
{
    match step {
        Step::Apply => false,
        Step::Push(entry) => numbers.is_stacked(stack, entry),
    }
}

/// Appends the step, unless it is struck out.
fn put_unless(left: &mut Vec<Step>, step: Step, is_out: bool) -> Result<(), NoMemory>
    ensures { OnOk result (MatchBool is_out (left.new.items ≡ left.old.items) (left.new.items ≡ left.old.items ++ step ∷ [])) }
{
    if is_out {
        return Ok(());
    }
    left.push(step)?;
    Ok(())
}

/// Returns the steps but for the pushes of entries on the stack.
pub fn struck(
    alloc: Global,
    numbers: &Numbers,
    stack: u32,
    steps: &[Step],
) -> Result<Vec<Step>, NoMemory>
    requires { (entries : List Entry) × IsStackAt numbers.now stack entries }
    ensures { IfOk result (λ left. (entries : List Entry) (moves : List Move) → IsStackAt numbers.now stack entries
        → AreStepsOf numbers.now steps.now moves → AreStepsOf numbers.now left.items (unstruck entries moves)) }
{
    let mut left = Vec::new(alloc);
    for place in 0..steps.len() {
        let step = step_at(steps, place);
        let is_out = is_struck(numbers, stack, step);
        put_unless(&mut left, step, is_out)?;
    }
    Ok(left)
}
