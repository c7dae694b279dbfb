//! The words of the command line.
//!
//! # Calling it
//!
//! - Three lists of words are taken: `run`, `check`, and `demo ROOMS SEED` with numbers of one to ten digits, ROOMS from 3 to 12 and
//!   SEED from 0 to 2147483647. [`order_of`] returns what they order, and `None` for every other list (`order_of` in `specs/Orders.antt`).
//! - Whether words are taken is found first, and takes no memory. So `NoMemory` comes only where they are.
//! - Words that are taken are read by `clap`, as a command with a first word and two that may be left out. By what `clap` states of
//!   itself it gives these words back, and fails only where there is no memory.
//! - No public clause cites `specs/Reading`.
#![tactic(auto)]

mod laws;
mod numbers;
mod orders;
mod reading;
#[cfg(test)]
mod tests;

pub use laws::worked_words;
pub use orders::{Order, order_of};
