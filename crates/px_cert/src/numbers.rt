//! Lists of numbers at the front of bytes.
ghost use Rattle.std.specs.Prelude.{◌<◌};
ghost use Rattle.px_base.specs.Bounds.{u32_max};
ghost use Rattle.px_cert.specs.Reading.{Reads, list_at, many_at, number_at};

use crate::refused::Refused;
use crate::words::number;
use px_base::push;
use std::alloc::Global;

/// Reads so many numbers below the limit.
fn many_numbers(
    alloc: Global,
    bytes: &[u8],
    count: u32,
    limit: u32,
) -> Result<(Vec<u32>, &[u8]), Refused>
    ensures { Reads (λ x. (x.0.items, x.1.now)) result (many_at (number_at limit) count bytes.now) }
{
    let mut numbers = Vec::new(alloc);
    let mut rest = bytes;
    for _ in 0..count {
        let (next, more) = number(rest, limit)?;
        push(&mut numbers, next)?;
        rest = more;
    }
    Ok((numbers, rest))
}

/// Reads a list of numbers, at most so many, each below the limit.
#[tactic(auto, unfolding(crate::specs::Reading::list_at))]
pub(crate) fn numbers(
    alloc: Global,
    bytes: &[u8],
    most: u32,
    limit: u32,
) -> Result<(Vec<u32>, &[u8]), Refused>
    requires { most < u32_max }
    ensures { Reads (λ x. (x.0.items, x.1.now)) result (list_at (number_at limit) most bytes.now) }
{
    let (count, rest) = number(bytes, most + 1)?;
    many_numbers(alloc, rest, count, limit)
}

/// Reads so many small numbers.
fn many_small_numbers(
    alloc: Global,
    bytes: &[u8],
    count: u32,
    limit: u8,
) -> Result<(Vec<u8>, &[u8]), Refused>
    ensures { Reads (λ x. (x.0.items, x.1.now)) result (many_at (number_at limit) count bytes.now) }
{
    let mut numbers = Vec::new(alloc);
    let mut rest = bytes;
    for _ in 0..count {
        let (next, more) = number(rest, u32::from(limit))?;
        push(&mut numbers, next as u8)?;
        rest = more;
    }
    Ok((numbers, rest))
}

// Alike: `numbers`, for lists of bytes.
/// Reads a list of small numbers, at most so many, each below the limit.
#[tactic(auto, unfolding(crate::specs::Reading::list_at))]
pub(crate) fn small_numbers(
    alloc: Global,
    bytes: &[u8],
    most: u32,
    limit: u8,
) -> Result<(Vec<u8>, &[u8]), Refused>
    requires { most < u32_max }
    ensures { Reads (λ x. (x.0.items, x.1.now)) result (list_at (number_at limit) most bytes.now) }
{
    let (count, rest) = number(bytes, most + 1)?;
    many_small_numbers(alloc, rest, count, limit)
}
