//! The tokens of a line.
ghost use Rattle.std.specs.Prelude.{◌≡◌, ◌<◌, ◌++◌, ℕ, List, true, length, IfNone, IfOk, IfSome, MatchBool, OnErr};
ghost use Rattle.std.specs.Char.{is_ascii_digit};
ghost use Rattle.px_script.specs.Lexemes.{Lexeme, Lexes, Begins, IsIgnored, is_sign, number_value, goes_on};
ghost use Rattle.px_script.specs.Scanning.{prefix_while, after_while, first_at, first_number, first_variable};
ghost use Rattle.px_lines.specs.Common.{IsUtf8, chars, all_ascii_digits, is_of, text_of, Skips, Scans, NameAt, IsLexed, IsNext, ReadsFirst, Follow, is_end, lexeme_of, lexemes_in, name_in, number_in, sign_in, rest_after};

use px_names::{split_first, starts_name};

/// A token of a line.
#[derive(Clone, Copy)]
pub enum Token<'a> {
    /// A name or a word.
    Name(&'a str),
    /// A variable, without its question mark.
    Variable(&'a str),
    /// A number; of one above 32 bits the greatest of 32 bits.
    Number(u32),
    /// One of `( ) , ~ $ + - =`.
    Sign(char),
}

/// A character begins no token.
#[derive(Clone, Copy)]
pub struct BadToken;

/// Returns whether a text is tokens: no character begins none. Does not allocate.
pub fn are_tokens(text: &str) -> bool
    ensures { MatchBool result (IsLexed (chars text.now)) ((all : List Lexeme) → ¬ Lexes (chars text.now) all) }
{
    let mut rest = text;
    loop {
        match first_token(rest) {
            Ok(Some((_, after))) => rest = after,
            Ok(None) => return true,
            Err(_) => return false,
        }
    }
}

/// Returns the first token of a text, and what follows it. Does not allocate.
///
/// # Errors
/// `BadToken` where the first character after blanks begins no token.
pub fn first_token(text: &str) -> Result<Option<(Token<'_>, &str)>, BadToken>
    ensures token { IfOk result (λ found. IfSome found (λ both. Begins (chars text.now) (lexeme_of both.0) (chars both.1.now))) }
    ensures rest { IfOk result (λ found. IfSome found (λ both. IsUtf8 both.1.now)) }
    ensures ignored { IfOk result (λ found. IfNone found (IsIgnored (chars text.now))) }
    ensures no_token { OnErr result ((lexeme : Lexeme) (rest : List ℕ) → ¬ Begins (chars text.now) lexeme rest) }
    ensures not_lexed { OnErr result ((all : List Lexeme) → ¬ Lexes (chars text.now) all) }
{
    token_at(skip_while(text, Class::Blank))
}

/// Returns the first token of a text, and what follows it.
pub fn next(text: &str) -> Option<(Token<'_>, &str)>
    ensures { IsNext text.now result }
{
    match first_token(text) {
        Ok(found) => found,
        Err(_) => None,
    }
}

/// Returns the name in front, and what follows it.
pub fn name(text: &str) -> Option<(&str, &str)>
    ensures { ReadsFirst text_of text.now (name_in (lexemes_in text.now)) result }
{
    let (token, rest) = next(text)?;
    match token {
        Token::Name(name) => Some((name, rest)),
        _ => None,
    }
}

/// Returns the number in front, and what follows it.
pub fn number(text: &str) -> Option<(u32, &str)>
    ensures { ReadsFirst (λ number. number) text.now (number_in (lexemes_in text.now)) result }
{
    let (token, rest) = next(text)?;
    match token {
        Token::Number(number) => Some((number, rest)),
        _ => None,
    }
}

/// Returns the sign in front, and what follows it.
pub fn sign(text: &str) -> Option<(char, &str)>
    ensures { ReadsFirst (λ sign. sign) text.now (sign_in (lexemes_in text.now)) result }
{
    let (first, rest) = split_first(skip_while(text, Class::Blank))?;
    if is_sign(first) {
        Some((first, rest))
    } else {
        None
    }
}

/// Returns what follows this sign.
pub fn after_sign(text: &str, wanted: char) -> Option<&str>
    ensures { Follow text.now (rest_after wanted (lexemes_in text.now)) result }
{
    let (sign, rest) = sign(text)?;
    if sign == wanted { Some(rest) } else { None }
}

/// Returns whether no token and no bad character follows.
pub fn ends(text: &str) -> bool
    ensures { result ≡ is_end text.now }
{
    matches!(first_token(text), Ok(None))
}

/// Returns the token at the front of a text.
fn token_at(text: &str) -> Result<Option<(Token<'_>, &str)>, BadToken>
    ensures { Scans result (first_at (chars text.now)) }
{
    if let Some((name, rest)) = name_at(text) {
        return Ok(Some((Token::Name(name), rest)));
    }
    let Some((first, rest)) = split_first(text) else {
        return Ok(None);
    };
    if first == '#' {
        Ok(None)
    } else if first == '?' {
        variable_at(rest)
    } else if first.is_ascii_digit() {
        number_at(text)
    } else if is_sign(first) {
        Ok(Some((Token::Sign(first), rest)))
    } else {
        Err(BadToken)
    }
}

fn is_sign(ch: char) -> bool
    ensures { result ≡ is_sign ch }
{
    matches!(ch, '(' | ')' | ',' | '~' | '$' | '+' | '-' | '=')
}

/// Returns the name at the front of a text.
fn name_at(text: &str) -> Option<(&str, &str)>
    ensures { NameAt (chars text.now) result }
{
    let (first, others) = split_first(text)?;
    if starts_name(first) {
        let rest = skip_while(others, Class::Continues);
        Some((&text[..text.len() - rest.len()], rest))
    } else {
        None
    }
}

/// Returns the variable whose question mark stands before a text.
fn variable_at(text: &str) -> Result<Option<(Token<'_>, &str)>, BadToken>
    ensures { Scans result (first_variable (chars text.now)) }
{
    match name_at(text) {
        Some((name, rest)) => Ok(Some((Token::Variable(name), rest))),
        None => Err(BadToken),
    }
}

/// Returns the number at the front of a text, which no name may follow.
#[tactic(auto, using(crate::proofs::Numbers::digits))]
fn number_at(text: &str) -> Result<Option<(Token<'_>, &str)>, BadToken>
    requires { 0 < length (prefix_while is_ascii_digit (chars text.now)) }
    ensures { Scans result (first_number (chars text.now)) }
{
    let (digits, rest) = split_while(text, Class::Digit);
    if goes_on(rest) {
        Err(BadToken)
    } else {
        Ok(Some((Token::Number(number_value(digits)), rest)))
    }
}

/// Returns whether a name could go on with this text.
fn goes_on(text: &str) -> bool
    ensures { result ≡ goes_on (chars text.now) }
{
    matches!(split_first(text), Some((first, _)) if unicode_ident::is_xid_continue(first))
}

/// Returns the number that digits stand for, up to 32 bits.
#[tactic(auto, using(crate::proofs::Numbers::digits))]
fn number_value(digits: &str) -> u32
    requires some { 0 < length (chars digits.now) }
    requires digits { all_ascii_digits (chars digits.now) ≡ true }
    ensures { result ≡ number_value (chars digits.now) }
{
    digits.parse().unwrap_or(u32::MAX)
}

#[derive(Clone, Copy)]
enum Class {
    Blank,
    Continues,
    Digit,
}

impl Class {
    fn has(self, ch: char) -> bool
        ensures { result ≡ is_of self ch }
    {
        match self {
            Class::Blank => ch == ' ' || ch == '\t',
            Class::Continues => unicode_ident::is_xid_continue(ch),
            Class::Digit => ch.is_ascii_digit(),
        }
    }
}

/// Returns what follows the longest prefix that is of a class.
fn skip_while(text: &str, class: Class) -> &str
    ensures { Skips (is_of class) text.now result.now }
{
    let mut rest = text;
    while let Some((first, after)) = split_first(rest) {
        if !class.has(first) {
            return rest;
        }
        rest = after;
    }
    rest
}

/// Returns the longest prefix of a text that is of a class, and what follows it.
fn split_while(text: &str, class: Class) -> (&str, &str)
    ensures whole { text.now ≡ result.0.now ++ result.1.now }
    ensures prefix { chars result.0.now ≡ prefix_while (is_of class) (chars text.now) }
    ensures prefix_text { IsUtf8 result.0.now }
    ensures rest_text { IsUtf8 result.1.now }
    ensures after { chars result.1.now ≡ after_while (is_of class) (chars text.now) }
{
    let rest = skip_while(text, class);
    (&text[..text.len() - rest.len()], rest)
}
