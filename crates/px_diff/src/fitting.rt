//! Choices of terms for the parameters of a table, where each row has its own: which row to take next.
ghost use Rattle.std.specs.Prelude.{◌≡◌, ◌<◌, ◌++◌, ◌+◌, List, length, take, drop, All, IfSome, IfOk};
ghost use Rattle.px_terms.specs.declared.term.Term.{Term as TermValue};

use px_entries::clash;
use px_terms::{NoMemory, Sequence, Term};
use std::alloc::Global;

/// Returns how many of the choices can fit the terms, counted no further than the limit.
fn count_fitting(objects: u32, terms: &[Term], choices: &[Sequence<Term>], most: usize) -> usize
    requires long { All (λ (choice : List TermValue). length choice ≡ length terms.now) choices.now }
{
    let mut count = 0;
    // most choices clash where the one before does
    let mut first = 0;
    for choice in choices {
        if count >= most {
            return count;
        }
        match clash(objects, terms, choice.as_slice(), first) {
            Some(place) => first = place,
            None => count += 1,
        }
    }
    count
}

/// Fewer choices than this are few.
const FEW: usize = 5;

/// Returns the place of the first row with few choices that can fit the terms, or else of one with the fewest, among the rows of these
/// numbers. `None` where there is no number.
pub fn fewest(
    objects: u32,
    terms: &[Term],
    rows: &[Sequence<Sequence<Term>>],
    numbers: &[usize],
) -> Option<usize>
    requires long { All (All (λ (choice : List TermValue). length choice ≡ length terms.now)) rows.now }
    requires numbers { All (λ number. number < length rows.now) numbers.now }
    ensures { IfSome result (λ place. place < length numbers.now) }
{
    if numbers.is_empty() {
        return None;
    }
    for first in 0..numbers.len() {
        let row = rows[numbers[first]].as_slice();
        if count_fitting(objects, terms, row, FEW) < FEW {
            return Some(first);
        }
    }
    let mut least = 0;
    let mut count = usize::MAX;
    for place in 0..numbers.len() {
        let row = rows[numbers[place]].as_slice();
        let fitting = count_fitting(objects, terms, row, count);
        if fitting < count {
            least = place;
            count = fitting;
        }
    }
    Some(least)
}

/// Returns the numbers below this one, ascending.
pub fn numbers_below(alloc: Global, count: usize) -> Result<Vec<usize>, NoMemory>
    ensures { IfOk result (λ numbers. All (λ number. number < count) numbers.items) }
{
    let mut numbers = Vec::new(alloc);
    for number in 0..count {
        numbers.push(number)?;
    }
    Ok(numbers)
}

/// Returns the numbers but the one at this place.
pub fn without_place(alloc: Global, numbers: &[usize], place: usize) -> Result<Vec<usize>, NoMemory>
    requires { place < length numbers.now }
    ensures { IfOk result (λ others. others.items ≡ take place numbers.now ++ drop (place + 1) numbers.now) }
{
    let mut others = Vec::new(alloc);
    others.extend_from_slice(&numbers[..place])?;
    others.extend_from_slice(&numbers[place + 1..])?;
    Ok(others)
}
