//! Words that are taken, read by `clap`.
ghost use Rattle.std.specs.Prelude.{◌≡◌, IfErr, IfOk, codes, is_some, map, true};
ghost use Rattle.clap.specs.Words.{app_of, first_value, found_of, kind_of};
ghost use Rattle.px_words.specs.Orders.{order_of};
ghost use Rattle.px_words.specs.Reading.{order_read, planex};

use crate::orders::{Order, order_in};
use clap::error::ErrorKind;
use clap::{Arg, ArgMatches, Command, Error};
use std::alloc::{AllocError, Global};

/// Returns the command: a first word, and two that may be left out.
fn command<'a>(alloc: Global) -> Result<Command<'a>, AllocError>
    ensures { IfOk result (λ command. app_of command ≡ planex) }
{
    let word = Arg::new(alloc, "WORD").required(true);
    let rooms = Arg::new(alloc, "ROOMS");
    let seed = Arg::new(alloc, "SEED");
    let command = Command::new(alloc, "planex")
        .no_binary_name(true)
        .arg(word)?;
    let wider = command.arg(rooms)?;
    wider.arg(seed)
}

/// Reads words that are taken. Fails only where memory runs out.
pub(crate) fn read<'a>(alloc: Global, words: &'a [&'a str]) -> Result<ArgMatches<'a>, Error>
    requires taken { is_some (order_of (map (λ word. word.now) words.now)) ≡ true }
    ensures read { IfOk result (λ matches. order_read (found_of matches) ≡ order_of (map (λ word. word.now) words.now)) }
    ensures memory { IfErr result (λ error. kind_of error ≡ ErrorKind.OutOfMemory) }
{
    let command = command(alloc)?;
    command.try_get_matches_from(words)
}

/// Returns what the words order that were read.
pub(crate) fn read_order(matches: &ArgMatches) -> Option<Order>
    ensures { result ≡ order_read (found_of matches.now) }
{
    let word = matches.get_str("WORD")?;
    order_in(word, matches.get_str("ROOMS"), matches.get_str("SEED"))
}
