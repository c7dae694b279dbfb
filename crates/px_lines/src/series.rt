//! What is written one after another to the end of a line: atoms, edits and bindings.
ghost use Rattle.std.specs.Prelude.{◌≡◌, ◌∷◌, IfOk};
ghost use Rattle.px_lines.specs.Common.{option_map, atom_at, atom_after, sign_of, room_edit_at, room_edit_for, binding_at, open_of, pair_at, parameter_of, lexemes_in, if_whole, ReadsFirst, signed_view, room_edit_view, rest_view, binding_view};
ghost use Rattle.px_script.specs.Rows.{last_at};
ghost use Rattle.px_script.specs.declared.kinds.Last.TheVariants as last;
ghost use Rattle.px_script.specs.Lexemes.{name as name_lexeme, sign as sign_lexeme};

use crate::items::{Rest, SignedAtom, WrittenBinding, WrittenRoomEdit};
use crate::lists::arguments;
use crate::token::{Token, after_sign, ends, name, next, number};
use px_base::NoMemory;
use px_script::{LAST_PARAMETER, Sign};
use std::alloc::Global;

/// Returns the sign of an atom that a character is.
fn sign_of(character: char) -> Option<Sign>
    ensures { result ≡ sign_of character }
{
    match character {
        '~' => Some(Sign::Negated),
        '+' => Some(Sign::Added),
        '-' => Some(Sign::Removed),
        _ => None,
    }
}

/// Returns the atom of a sign and a predicate, and what follows it.
fn atom_of<'a>(
    alloc: Global,
    sign: Sign,
    predicate: &'a str,
    text: &'a str,
) -> Result<Option<(SignedAtom<'a>, &'a str)>, NoMemory>
    ensures { IfOk result (ReadsFirst signed_view text.now (atom_after sign (name_lexeme predicate.now ∷ lexemes_in text.now))) }
{
    let Some((arguments, rest)) = arguments(alloc, text)? else {
        return Ok(None);
    };
    let atom = SignedAtom {
        sign,
        predicate,
        arguments,
    };
    Ok(Some((atom, rest)))
}

/// Returns the atom in front, with a sign or without, and what follows it.
pub fn atom<'a>(alloc: Global, text: &'a str) -> Result<Option<(SignedAtom<'a>, &'a str)>, NoMemory>
    ensures { IfOk result (ReadsFirst signed_view text.now (atom_at (lexemes_in text.now))) }
{
    match next(text) {
        Some((Token::Name(predicate), rest)) => atom_of(alloc, Sign::Bare, predicate, rest),
        Some((Token::Sign(character), rest)) => signed_atom(alloc, character, rest),
        _ => Ok(None),
    }
}

/// Returns the atom after a sign, and what follows it.
fn signed_atom<'a>(
    alloc: Global,
    character: char,
    text: &'a str,
) -> Result<Option<(SignedAtom<'a>, &'a str)>, NoMemory>
    ensures { IfOk result (ReadsFirst signed_view text.now (atom_at (sign_lexeme character ∷ lexemes_in text.now))) }
{
    let Some(sign) = sign_of(character) else {
        return Ok(None);
    };
    match name(text) {
        Some((predicate, rest)) => atom_of(alloc, sign, predicate, rest),
        None => Ok(None),
    }
}

/// Returns whether the word says that a door is open, or that it is closed. Does not allocate.
pub fn open_of(word: &str) -> Option<bool>
    ensures { result ≡ open_of word.now }
{
    match word {
        "open" => Some(true),
        "closed" => Some(false),
        _ => None,
    }
}

/// Returns the edit of a building that a word and the name after it begin, and what follows it.
fn room_edit_for<'a>(
    word: &str,
    thing: &'a str,
    text: &'a str,
) -> Option<(WrittenRoomEdit<'a>, &'a str)>
    ensures { ReadsFirst room_edit_view text.now (room_edit_for word.now thing.now (lexemes_in text.now)) result }
{
    match word {
        "robot" => Some((WrittenRoomEdit::RobotTo(thing), text)),
        "box" => {
            let (room, rest) = name(text)?;
            Some((WrittenRoomEdit::BoxTo(thing, room), rest))
        }
        "door" => {
            let (state, rest) = name(text)?;
            Some((WrittenRoomEdit::DoorTo(thing, open_of(state)?), rest))
        }
        _ => None,
    }
}

/// Returns the edit of a building in front, and what follows it.
fn room_edit(text: &str) -> Option<(WrittenRoomEdit<'_>, &str)>
    ensures { ReadsFirst room_edit_view text.now (room_edit_at (lexemes_in text.now)) result }
{
    let (word, rest) = name(text)?;
    let (thing, rest) = name(rest)?;
    room_edit_for(word, thing, rest)
}

/// Returns the number of a parameter by its name, which is the letter p and the number from 1 to [`LAST_PARAMETER`].
fn parameter_of(name: &str) -> Option<u32>
    ensures { result ≡ parameter_of name.now }
{
    let digits = name.strip_prefix('p')?;
    if digits.starts_with('0') || digits.starts_with('+') {
        return None;
    }
    match digits.parse() {
        Ok(number) if number <= LAST_PARAMETER => Some(number),
        _ => None,
    }
}

/// Returns the binding in front, and what follows it.
fn binding(text: &str) -> Option<(WrittenBinding<'_>, &str)>
    ensures { ReadsFirst binding_view text.now (binding_at (lexemes_in text.now)) result }
{
    let (parameter, rest) = name(text)?;
    let (object, rest) = name(after_sign(rest, '=')?)?;
    let parameter = parameter_of(parameter)?;
    Some((WrittenBinding { parameter, object }, rest))
}

/// Returns the pair of numbers in front, and what follows it.
fn pair(text: &str) -> Option<((u32, u32), &str)>
    ensures { ReadsFirst (λ pair. pair) text.now (pair_at (lexemes_in text.now)) result }
{
    let (one, rest) = number(text)?;
    let (other, rest) = number(after_sign(rest, '=')?)?;
    Some(((one, other), rest))
}

// Alike: the four functions below, one for each kind of thing, since each reads another type of things.

/// Returns the atoms that a text is.
pub fn atoms<'a>(alloc: Global, text: &'a str) -> Result<Option<Rest<'a>>, NoMemory>
    ensures { IfOk result (λ found. option_map rest_view found ≡ if_whole text.now (last_at last.Atoms (lexemes_in text.now))) }
{
    let mut atoms = Vec::new(alloc);
    let mut rest = text;
    'things: while let Some((atom, after)) = atom(alloc, rest)? {
        atoms.push(atom)?;
        rest = after;
    }
    if ends(rest) {
        Ok(Some(Rest::Atoms(atoms)))
    } else {
        Ok(None)
    }
}

/// Returns the edits of a building that a text is.
pub fn room_edits<'a>(alloc: Global, text: &'a str) -> Result<Option<Rest<'a>>, NoMemory>
    ensures { IfOk result (λ found. option_map rest_view found ≡ if_whole text.now (last_at last.RoomEdits (lexemes_in text.now))) }
{
    let mut edits = Vec::new(alloc);
    let mut rest = text;
    'things: while let Some((edit, after)) = room_edit(rest) {
        edits.push(edit)?;
        rest = after;
    }
    if ends(rest) {
        Ok(Some(Rest::RoomEdits(edits)))
    } else {
        Ok(None)
    }
}

/// Returns the bindings that a text is.
pub fn bindings<'a>(alloc: Global, text: &'a str) -> Result<Option<Rest<'a>>, NoMemory>
    ensures { IfOk result (λ found. option_map rest_view found ≡ if_whole text.now (last_at last.Bindings (lexemes_in text.now))) }
{
    let mut bindings = Vec::new(alloc);
    let mut rest = text;
    'things: while let Some((binding, after)) = binding(rest) {
        bindings.push(binding)?;
        rest = after;
    }
    if ends(rest) {
        Ok(Some(Rest::Bindings(bindings)))
    } else {
        Ok(None)
    }
}

/// Returns the pairs of numbers that a text is.
pub fn pairs<'a>(alloc: Global, text: &'a str) -> Result<Option<Rest<'a>>, NoMemory>
    ensures { IfOk result (λ found. option_map rest_view found ≡ if_whole text.now (last_at last.Pairs (lexemes_in text.now))) }
{
    let mut pairs = Vec::new(alloc);
    let mut rest = text;
    'things: while let Some((pair, after)) = pair(rest) {
        pairs.push(pair)?;
        rest = after;
    }
    if ends(rest) {
        Ok(Some(Rest::Pairs(pairs)))
    } else {
        Ok(None)
    }
}
