//! The heights and the numbers of the proofs of a table's row.
ghost use Rattle.std.specs.Prelude.{◌≡◌, ◌<◌, ◌^◌, drop, fold, map, max, nat_lt, reverse, take, IfOk, OnOk};
ghost use Rattle.px_script.specs.Faults.{heights_of, highest, numbers_of_part};
ghost use Rattle.px_lines.specs.ItemViews.{part_view};
ghost use Rattle.px_so_far.specs.Common.{AllByRecursion, flat_map, list_any};
ghost use Rattle.px_so_far.specs.Heights.{with_height};

use px_base::NoMemory;
use px_lines::Part;
use px_script::LAST_NUMBER;
use std::alloc::Global;

/// Returns whether some number of the parts is greater than a line of a table's block may have, [`LAST_NUMBER`].
pub fn any_part_great(parts: &[Part<'_>]) -> bool
    ensures { result ≡ list_any (nat_lt LAST_NUMBER) (flat_map numbers_of_part (map part_view parts.now)) }
{
    each_part_great(parts)
}

fn each_part_great(parts: &[Part<'_>]) -> bool
    ensures { result ≡ list_any (λ part. list_any (nat_lt LAST_NUMBER) (numbers_of_part (part_view part))) parts.now }
{
    parts.iter().any(|part| is_great(part))
}

fn is_great(part: &Part<'_>) -> bool
    ensures { result ≡ list_any (nat_lt LAST_NUMBER) (numbers_of_part (part_view part.now)) }
{
    match part {
        Part::Fact(column, index, _) => are_great(&[*column, *index]),
        Part::Ancestor(number) => are_great(&[*number]),
        Part::Axiom(number, place, proofs, _) => are_great(&[*number, *place, *proofs]),
    }
}

fn are_great(numbers: &[u32]) -> bool
    ensures { result ≡ list_any (nat_lt LAST_NUMBER) numbers.now }
{
    numbers.iter().any(|number| *number > LAST_NUMBER)
}

/// Takes the last height off, if there is one, and returns the higher one of it and another.
fn pop_highest(heights: &mut Vec<usize>, other: usize) -> usize
    ensures highest { result ≡ fold max other (take 1 (reverse heights.old.items)) }
    ensures rest { reverse heights.new.items ≡ drop 1 (reverse heights.old.items) }
{
    match heights.pop() {
        Some(height) => other.max(height),
        None => other,
    }
}

/// Takes so many heights off the end, and returns the highest of them, or 0.
fn take_highest(heights: &mut Vec<usize>, count: usize) -> usize
    ensures highest { result ≡ highest (take count (reverse heights.old.items)) }
    ensures rest { reverse heights.new.items ≡ drop count (reverse heights.old.items) }
{
    let mut highest = 0;
    for taken in 0..count {
        highest = pop_highest(heights, highest);
    }
    highest
}

/// Puts the height of the proof that begins with the part in the place of those of the proofs that it takes.
fn add_height(heights: &mut Vec<usize>, part: &Part<'_>) -> Result<(), NoMemory>
    requires { AllByRecursion (λ height. height < 2 ^ 63) (reverse heights.old.items) }
    ensures { OnOk result (reverse heights.new.items ≡ with_height (part_view part.now) (reverse heights.old.items)) }
{
    let height = match part {
        Part::Axiom(_, _, proofs, _) => take_highest(heights, *proofs as usize) + 1,
        Part::Fact(_, _, _) | Part::Ancestor(_) => 1,
    };
    heights.push(height)?;
    Ok(())
}

/// Returns the heights of the proofs that the parts are, the last one first.
fn heights(alloc: Global, parts: &[Part<'_>]) -> Result<Vec<usize>, NoMemory>
    ensures { IfOk result (λ made. reverse made.items ≡ heights_of (map part_view parts.now)) }
{
    let mut made = Vec::new(alloc);
    for done in 0..parts.len() {
        let part = &parts[parts.len() - 1 - done];
        add_height(&mut made, part)?;
    }
    Ok(made)
}

/// Returns the height of the highest of the proofs that the parts are, or 0 where there is none.
///
/// # Errors
/// `NoMemory` where there is no memory for their heights.
pub fn greatest_height(alloc: Global, parts: &[Part<'_>]) -> Result<usize, NoMemory>
    ensures { IfOk result (λ height. height ≡ highest (heights_of (map part_view parts.now))) }
{
    let mut made = heights(alloc, parts)?;
    let count = made.len();
    Ok(take_highest(&mut made, count))
}
