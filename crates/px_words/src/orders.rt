//! What the words order.
ghost use Rattle.std.specs.Prelude.{◌≡◌, IfErr, IfOk, Some, is_some, map, option_map, true};
ghost use Rattle.px_words.specs.Orders.{HasRanges, demo_order, lone_order, order_of};
ghost use Rattle.px_words.specs.Reading.{order_in};

use crate::numbers::number_within;
use crate::reading::{read, read_order};
use px_base::NoMemory;
use px_demo::{LEAST_ROOMS, MOST_ROOMS, MOST_SEED};
use std::alloc::Global;

/// What the words order.
#[derive(Clone, Copy, Debug, PartialEq, Eq)]
pub enum Order {
    /// A script is to be read and run.
    Run,
    /// A certificate is to be read and checked.
    Check,
    /// The demo is to be made and run.
    Demo {
        /// How many rooms.
        rooms: u32,
        /// The number from which the errands are made.
        seed: u32,
    },
}

/// Returns what the words order, or `None` where they aren't taken.
///
/// # Errors
/// `NoMemory` where there is no memory for reading words that are taken.
#[tactic(auto, using(crate::proofs::Ranges::order_ranges, crate::proofs::Ranges::ranges_of))]
pub fn order_of<'a>(alloc: Global, words: &'a [&'a str]) -> Result<Option<Order>, NoMemory>
    ensures order { IfOk result (λ order. order ≡ order_of (map (λ word. word.now) words.now)) }
    ensures ranges { IfOk result HasRanges }
    ensures taken { IfErr result (λ error. is_some (order_of (map (λ word. word.now) words.now)) ≡ true) }
{
    let Some(_) = plain_order(words) else {
        return Ok(None);
    };
    match read(alloc, words) {
        Ok(matches) => Ok(read_order(&matches)),
        Err(_) => Err(NoMemory),
    }
}

/// Returns what the words order, without `clap`.
fn plain_order(words: &[&str]) -> Option<Order>
    ensures { result ≡ order_of (map (λ word. word.now) words.now) }
{
    match words {
        [word] => order_in(word, None, None),
        [word, rooms, seed] => order_in(word, Some(rooms), Some(seed)),
        _ => None,
    }
}

/// Returns what a first word orders, with the two words that may follow it.
pub(crate) fn order_in(word: &str, rooms: Option<&str>, seed: Option<&str>) -> Option<Order>
    ensures { result ≡ order_in word.now (option_map (λ text. text.now) rooms.entry) (option_map (λ text. text.now) seed.entry) }
{
    match (rooms, seed) {
        (None, None) => lone_order(word),
        (Some(rooms), Some(seed)) if word == "demo" => demo_order(rooms, seed),
        _ => None,
    }
}

/// Returns what a word orders that stands alone.
fn lone_order(word: &str) -> Option<Order>
    ensures { result ≡ lone_order word.now }
{
    if word == "run" {
        Some(Order::Run)
    } else if word == "check" {
        Some(Order::Check)
    } else {
        None
    }
}

/// Returns what `demo` orders with two words.
fn demo_order(rooms: &str, seed: &str) -> Option<Order>
    ensures { result ≡ demo_order rooms.now seed.now }
{
    let rooms = number_within(LEAST_ROOMS, MOST_ROOMS, rooms)?;
    let seed = number_within(0, MOST_SEED, seed)?;
    Some(Order::Demo { rooms, seed })
}
