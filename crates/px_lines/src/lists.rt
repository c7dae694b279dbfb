//! Lists: names or numbers to the end of a line, and items between parentheses.
ghost use Rattle.std.specs.Prelude.{◌≡◌, IfOk, map};
ghost use Rattle.px_script.specs.Parsing.{names_of};
ghost use Rattle.px_script.specs.Rows.{last_at};
ghost use Rattle.px_script.specs.declared.kinds.Last.TheVariants as last;
ghost use Rattle.px_lines.specs.Common.{at_end, option_and_then, option_map, argument_of, names_among, names_at, item_at, items_after, items_at, lexeme_of, lexemes_in, if_whole, ReadsFirst, ReadsItemFirst, argument_view, text_of, list_view, items_view, rest_view};

use crate::items::{Argument, Rest};
use crate::token::{Token, after_sign, ends, name, next, number, sign};
use px_base::NoMemory;
use std::alloc::Global;

/// Returns the argument that a token is.
fn argument_of(token: Token<'_>) -> Option<Argument<'_>>
    ensures { option_map argument_view result ≡ argument_of (lexeme_of token.entry) }
{
    match token {
        Token::Name(name) => Some(Argument::Named(name)),
        Token::Variable(name) => Some(Argument::Variable(name)),
        Token::Sign('$') => Some(Argument::Anything),
        _ => None,
    }
}

// Alike: `numbers`, which takes numbers in place of names.
/// Returns the names that a text is.
pub fn names<'a>(alloc: Global, text: &'a str) -> Result<Option<Vec<&'a str>>, NoMemory>
    ensures { IfOk result (λ found. list_view text_of found ≡ if_whole text.now (names_of (lexemes_in text.now))) }
{
    let mut names = Vec::new(alloc);
    let mut rest = text;
    'things: while let Some((name, after)) = name(rest) {
        names.push(name)?;
        rest = after;
    }
    if ends(rest) {
        Ok(Some(names))
    } else {
        Ok(None)
    }
}

/// Returns the numbers that a text is.
pub fn numbers<'a>(alloc: Global, text: &'a str) -> Result<Option<Rest<'a>>, NoMemory>
    ensures { IfOk result (λ found. option_map rest_view found ≡ if_whole text.now (last_at last.Numbers (lexemes_in text.now))) }
{
    let mut numbers = Vec::new(alloc);
    let mut rest = text;
    'things: while let Some((number, after)) = number(rest) {
        numbers.push(number)?;
        rest = after;
    }
    if ends(rest) {
        Ok(Some(Rest::Numbers(numbers)))
    } else {
        Ok(None)
    }
}

/// Returns an argument in front, the sign after it, and what follows.
fn argument_and_sign(text: &str) -> Option<(Argument<'_>, char, &str)>
    ensures { ReadsItemFirst argument_view text.now (item_at argument_of (lexemes_in text.now)) result }
{
    let (token, rest) = next(text)?;
    let argument = argument_of(token)?;
    let (sign, rest) = sign(rest)?;
    Some((argument, sign, rest))
}

/// Returns the arguments in front, between commas and up to a closing parenthesis, and what follows it.
pub fn arguments_after<'a>(
    alloc: Global,
    text: &'a str,
) -> Result<Option<(Vec<Argument<'a>>, &'a str)>, NoMemory>
    ensures { IfOk result (ReadsFirst (items_view argument_view) text.now (items_after argument_of (lexemes_in text.now))) }
{
    let mut arguments = Vec::new(alloc);
    let mut rest = text;
    while let Some((argument, sign, after)) = argument_and_sign(rest) {
        arguments.push(argument)?;
        rest = after;
        if sign == ')' {
            return Ok(Some((arguments, rest)));
        }
        if sign != ',' {
            return Ok(None);
        }
    }
    Ok(None)
}

/// Returns the arguments in parentheses in front, or no arguments, and what follows them.
pub fn arguments<'a>(
    alloc: Global,
    text: &'a str,
) -> Result<Option<(Vec<Argument<'a>>, &'a str)>, NoMemory>
    ensures { IfOk result (ReadsFirst (items_view argument_view) text.now (items_at argument_of (lexemes_in text.now))) }
{
    match after_sign(text, '(') {
        Some(rest) => arguments_after(alloc, rest),
        None => Ok(Some((Vec::new(alloc), text))),
    }
}

/// Returns the arguments in parentheses, or no arguments, where the text ends after them.
pub fn listed_arguments<'a>(
    alloc: Global,
    text: &'a str,
) -> Result<Option<Vec<Argument<'a>>>, NoMemory>
    ensures { IfOk result (λ found. list_view argument_view found
        ≡ if_whole text.now (option_and_then at_end (items_at argument_of (lexemes_in text.now)))) }
{
    let Some((arguments, rest)) = arguments(alloc, text)? else {
        return Ok(None);
    };
    if ends(rest) {
        Ok(Some(arguments))
    } else {
        Ok(None)
    }
}

/// Returns the names that arguments are, where they are all names.
fn names_among<'a>(
    alloc: Global,
    arguments: &[Argument<'a>],
) -> Result<Option<Vec<&'a str>>, NoMemory>
    ensures { IfOk result (λ found. list_view text_of found ≡ names_among (map argument_view arguments.now)) }
{
    let mut names = Vec::new(alloc);
    for argument in arguments {
        let Argument::Named(name) = *argument else {
            return Ok(None);
        };
        names.push(name)?;
    }
    Ok(Some(names))
}

/// Returns the names in parentheses, or no names, where the text ends after them.
pub fn listed_names<'a>(alloc: Global, text: &'a str) -> Result<Option<Vec<&'a str>>, NoMemory>
    ensures { IfOk result (λ found. list_view text_of found
        ≡ if_whole text.now (option_and_then at_end (names_at (lexemes_in text.now)))) }
{
    let Some(arguments) = listed_arguments(alloc, text)? else {
        return Ok(None);
    };
    names_among(alloc, &arguments)
}
