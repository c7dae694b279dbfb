//! Pushes in order, joined into one list.
ghost use Rattle.std.specs.Prelude.{◌≡◌, List, IfOk};
ghost use Rattle.px_table.specs.declared.entry.Entry.{Entry};
ghost use Rattle.px_table.specs.declared.entry.Move.TheVariants as move;
ghost use Rattle.px_table.specs.EntryOrder.{order_of_entries};
ghost use Rattle.px_search.specs.Offers.{AreJoined, ArePushes};
ghost use Rattle.px_search.specs.Steps.{DescribesMove};

use crate::picks::step_at;
use crate::step::Step;
use px_numbers::Numbers;
use px_table::Entry;
use px_terms::NoMemory;
use std::alloc::Global;
use std::cmp::Ordering;

/// Returns the entry that the step pushes.
fn entry_of(numbers: &Numbers, step: Step) -> &Entry
    requires { (entry : Entry) × DescribesMove numbers.now step (move.Push entry) }
    ensures { (entry : Entry) → DescribesMove numbers.now step (move.Push entry) → result.now ≡ entry }
{
    match step {
        Step::Apply => unreachable!(),
        Step::Push(number) => numbers.entry(number),
    }
}

/// Returns how the entries that the steps push compare.
fn compared(numbers: &Numbers, one: Step, other: Step) -> Ordering
    requires one { (entry : Entry) × DescribesMove numbers.now one (move.Push entry) }
    requires other { (entry : Entry) × DescribesMove numbers.now other (move.Push entry) }
    ensures { (first second : Entry) → DescribesMove numbers.now one (move.Push first) → DescribesMove numbers.now other (move.Push second)
        → result ≡ order_of_entries first second }
{
    entry_of(numbers, one).cmp(entry_of(numbers, other))
}

/// Returns the pushes that stand in one of the lists, in order, each once.
pub fn merged(
    alloc: Global,
    numbers: &Numbers,
    first: &[Step],
    second: &[Step],
) -> Result<Vec<Step>, NoMemory>
    requires first { (entries : List Entry) × ArePushes numbers.now entries first.now }
    requires second { (entries : List Entry) × ArePushes numbers.now entries second.now }
    ensures { IfOk result (λ merged. (firsts seconds : List Entry) → ArePushes numbers.now firsts first.now
        → ArePushes numbers.now seconds second.now → AreJoined numbers.now firsts seconds merged.items) }
{
    let mut merged = Vec::new(alloc);
    let mut here = 0;
    let mut there = 0;
    while here < first.len() && there < second.len() {
        let one = step_at(first, here);
        let other = step_at(second, there);
        match compared(numbers, one, other) {
            Ordering::Less => {
                merged.push(one)?;
                here += 1;
            }
            Ordering::Equal => {
                merged.push(one)?;
                here += 1;
                there += 1;
            }
            Ordering::Greater => {
                merged.push(other)?;
                there += 1;
            }
        }
    }
    merged.extend_from_slice(&first[here..])?;
    merged.extend_from_slice(&second[there..])?;
    Ok(merged)
}
