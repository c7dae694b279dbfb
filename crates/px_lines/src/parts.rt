//! The proofs of one row of a table, as they are written: what each begins with, one after another.
ghost use Rattle.std.specs.Prelude.{◌≡◌, ◌<◌, ◌^◌, map, IfOk};
ghost use Rattle.px_script.specs.Items.{are_proofs, atoms_of_part, owed, terms_of_part};
ghost use Rattle.px_script.specs.Parsing.{ancestor_at, axiom_at, fact_at, part_at, part_for, terms_after, terms_at};
ghost use Rattle.px_lines.specs.Common.{ReadsFirst, argument_view, if_whole, items_view, lexemes_in, option_map, part_view, rest_view, signed_view};
ghost use Rattle.px_script.specs.Rows.{last_at};
ghost use Rattle.px_script.specs.declared.kinds.Last.TheVariants as last;

use crate::items::{Argument, Rest, SignedAtom};
use crate::lists::arguments_after;
use crate::series::atom;
use crate::token::{after_sign, ends, name, number};
use px_base::NoMemory;
use std::alloc::Global;

/// What a proof of a table begins with.
#[derive(Drop)]
pub enum Part<'a> {
    /// A fact, with its column and its index.
    Fact(u32, u32, SignedAtom<'a>),
    /// An ancestor, by its number.
    Ancestor(u32),
    /// A step of an axiom at a place, with how many proofs follow it, and its terms.
    Axiom(u32, u32, u32, Vec<Argument<'a>>),
}

impl Part<'_> {
    /// Returns how many proofs are owed after this part, where so many were owed before it.
    fn owed(&self, before: usize) -> usize
        requires { before < 2 ^ 63 }
        ensures { result ≡ owed before (part_view self.now) }
    {
        let others = before.saturating_sub(1);
        match self {
            Part::Axiom(_, _, proofs, _) => others + *proofs as usize,
            Part::Fact(_, _, _) | Part::Ancestor(_) => others,
        }
    }
}

/// Returns whether the parts are whole proofs: each step is followed by as many as it says. Does not allocate.
pub fn are_whole(parts: &[Part<'_>]) -> bool
    ensures { result ≡ are_proofs (map part_view parts.now) }
{
    let mut owed = 0;
    for (place, part) in parts.iter().enumerate() {
        if owed > parts.len() - place {
            return false;
        }
        owed = part.owed(owed);
    }
    owed == 0
}

/// Returns the terms in parentheses in front, and what follows them.
fn terms<'a>(alloc: Global, text: &'a str) -> Result<Option<(Vec<Argument<'a>>, &'a str)>, NoMemory>
    ensures { IfOk result (ReadsFirst (items_view argument_view) text.now (terms_at (lexemes_in text.now))) }
{
    let Some(rest) = after_sign(text, '(') else {
        return Ok(None);
    };
    match after_sign(rest, ')') {
        Some(after) => Ok(Some((Vec::new(alloc), after))),
        None => arguments_after(alloc, rest),
    }
}

/// Returns the fact after `f`, and what follows it.
fn fact<'a>(alloc: Global, text: &'a str) -> Result<Option<(Part<'a>, &'a str)>, NoMemory>
    ensures { IfOk result (ReadsFirst part_view text.now (fact_at (lexemes_in text.now))) }
{
    let Some((column, rest)) = number(text) else {
        return Ok(None);
    };
    let Some((index, rest)) = number(rest) else {
        return Ok(None);
    };
    match atom(alloc, rest)? {
        Some((atom, rest)) => Ok(Some((Part::Fact(column, index, atom), rest))),
        None => Ok(None),
    }
}

/// Returns the ancestor after `a`, and what follows it.
fn ancestor(text: &str) -> Option<(Part<'_>, &str)>
    ensures { ReadsFirst part_view text.now (ancestor_at (lexemes_in text.now)) result }
{
    let (number, rest) = number(text)?;
    Some((Part::Ancestor(number), rest))
}

/// Returns the step of an axiom after `s`, and what follows it.
fn axiom<'a>(alloc: Global, text: &'a str) -> Result<Option<(Part<'a>, &'a str)>, NoMemory>
    ensures { IfOk result (ReadsFirst part_view text.now (axiom_at (lexemes_in text.now))) }
{
    let Some((axiom, rest)) = number(text) else {
        return Ok(None);
    };
    let Some((place, rest)) = number(rest) else {
        return Ok(None);
    };
    let Some((proofs, rest)) = number(rest) else {
        return Ok(None);
    };
    match terms(alloc, rest)? {
        Some((terms, rest)) => Ok(Some((Part::Axiom(axiom, place, proofs, terms), rest))),
        None => Ok(None),
    }
}

/// Returns the part of this word, and what follows it.
fn part_for<'a>(
    alloc: Global,
    word: &str,
    text: &'a str,
) -> Result<Option<(Part<'a>, &'a str)>, NoMemory>
    ensures { IfOk result (ReadsFirst part_view text.now (part_for word.now (lexemes_in text.now))) }
{
    match word {
        "f" => fact(alloc, text),
        "a" => Ok(ancestor(text)),
        "s" => axiom(alloc, text),
        _ => Ok(None),
    }
}

/// Returns the part in front, and what follows it.
fn next_part<'a>(alloc: Global, text: &'a str) -> Result<Option<(Part<'a>, &'a str)>, NoMemory>
    ensures { IfOk result (ReadsFirst part_view text.now (part_at (lexemes_in text.now))) }
{
    match name(text) {
        Some((word, rest)) => part_for(alloc, word, rest),
        None => Ok(None),
    }
}

/// Returns the parts of the proofs that a text is.
pub fn proofs<'a>(alloc: Global, text: &'a str) -> Result<Option<Rest<'a>>, NoMemory>
    ensures { IfOk result (λ found. option_map rest_view found ≡ if_whole text.now (last_at last.Proofs (lexemes_in text.now))) }
{
    let mut parts = Vec::new(alloc);
    let mut rest = text;
    'things: while let Some((part, after)) = next_part(alloc, rest)? {
        parts.push(part)?;
        rest = after;
    }
    if ends(rest) {
        Ok(Some(Rest::Proofs(parts)))
    } else {
        Ok(None)
    }
}
