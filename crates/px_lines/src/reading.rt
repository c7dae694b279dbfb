//! The line that a text is, by the row of its word.
ghost use Rattle.std.specs.Prelude.{◌≡◌, ◌++◌, ◌∷◌, ℕ, List, true, length, map, IfNone, IfOk, IfSome};
ghost use Rattle.std.specs.List.{flat_map, list_all, list_any};
ghost use Rattle.px_script.specs.Rows.{chosen, last_at, line_at, one_of, row_items};
ghost use Rattle.px_script.specs.Lexemes.{Lexeme, Lexes, name as name_lexeme};
ghost use Rattle.px_script.specs.Declarations.{Declared, has_building};
ghost use Rattle.px_script.specs.Forms.{Forms, is_formed, is_signed, line_atoms};
ghost use Rattle.px_script.specs.Items.{atoms_of_part, has_parameter, is_filled};
ghost use Rattle.px_script.specs.Limits.{is_word};
ghost use Rattle.px_script.specs.Statements.{Statement};
ghost use Rattle.px_lines.specs.Common.{ReadsFirst, IsLexed, argument_view, chars, if_whole, items_view, lexeme_of, lexemes_in, ones_front, option_map, part_view, parts_view, rest_arguments, rest_atoms, rest_parts, rest_view, said_view, signed_view};
ghost use Rattle.px_lines.specs.LineViews.{IsShaped, IsStatementLine, line_view, row_view};

use crate::items::{Argument, Rest, Said, SignedAtom};
use crate::lists::{listed_arguments, listed_names, names, numbers};
use crate::parts::{Part, proofs};
use crate::rows::{Row, row_for};
use crate::series::{atoms, bindings, pairs, room_edits};
use crate::token::{Token, ends, next};
use px_base::NoMemory;
use px_script::{Choice, Last, Manner, One};
use std::alloc::Global;

/// A line by its items: what its first tokens after the word say, and what those to its end say.
#[derive(Drop)]
pub struct Line<'a> {
    /// The row of its word.
    pub row: Row,
    /// What the first tokens after the word say.
    pub ones: Vec<Said<'a>>,
    /// What the others say.
    pub last: Rest<'a>,
}

fn has_word(choice: Choice, word: &str) -> bool
    ensures { result ≡ chosen choice word.now }
{
    match choice {
        Choice::Source => word == "from",
        Choice::State => word == "open" || word == "closed",
        Choice::Time => word == "between" || word == "before",
    }
}

/// Returns what one token says.
fn one_item<'a>(one: One, token: Token<'a>) -> Option<Said<'a>>
    ensures { option_map said_view result ≡ one_of one (lexeme_of token.entry) }
{
    match (one, token) {
        (One::Word(choice), Token::Name(word)) => {
            if has_word(choice, word) {
                Some(Said::The(word))
            } else {
                None
            }
        }
        (One::Number, Token::Number(number)) => Some(Said::Number(number)),
        (One::New(kind), Token::Name(name)) => Some(Said::New(kind, name)),
        (One::Known(kind), Token::Name(name)) => Some(Said::Known(kind, name)),
        _ => None,
    }
}

/// Returns what the first tokens say, one token each, and what follows them.
fn one_items<'a>(
    alloc: Global,
    ones: &[One],
    text: &'a str,
) -> Result<Option<(Vec<Said<'a>>, &'a str)>, NoMemory>
    ensures found { IfOk result (ReadsFirst (items_view said_view) text.now (ones_front ones.now (lexemes_in text.now))) }
    ensures as_many { IfOk result (λ found. IfSome found (λ prefix. length prefix.0.items ≡ length ones.now)) }
{
    let mut items = Vec::new(alloc);
    let mut rest = text;
    for one in ones {
        let Some((token, after)) = next(rest) else {
            return Ok(None);
        };
        let Some(item) = one_item(*one, token) else {
            return Ok(None);
        };
        items.push(item)?;
        rest = after;
    }
    Ok(Some((items, rest)))
}

/// Returns what the text to the end of a line says.
fn last_item<'a>(alloc: Global, last: Last, text: &'a str) -> Result<Option<Rest<'a>>, NoMemory>
    ensures { IfOk result (λ found. option_map rest_view found ≡ if_whole text.now (last_at last (lexemes_in text.now))) }
{
    match last {
        Last::Nothing => Ok(nothing(text)),
        Last::New(kind) => Ok(names(alloc, text)?.map(|names| Rest::Declared(kind, names))),
        Last::Listed(kind) => {
            Ok(listed_names(alloc, text)?.map(|names| Rest::Listed(kind, names)))
        }
        Last::Known(kind) => Ok(names(alloc, text)?.map(|names| Rest::Wanted(kind, names))),
        Last::Numbers => numbers(alloc, text),
        Last::Atoms => atoms(alloc, text),
        Last::Bindings => bindings(alloc, text),
        Last::Pairs => pairs(alloc, text),
        Last::Arguments => {
            Ok(listed_arguments(alloc, text)?.map(|arguments| Rest::Arguments(arguments)))
        }
        Last::Proofs => proofs(alloc, text),
        Last::RoomEdits => room_edits(alloc, text),
    }
}

fn nothing<'a>(text: &str) -> Option<Rest<'a>>
    ensures { option_map rest_view result ≡ if_whole text.now (last_at Last.Nothing (lexemes_in text.now)) }
{
    if ends(text) {
        Some(Rest::Nothing)
    } else {
        None
    }
}

/// Returns what the text after a word says, by its row.
fn parts<'a>(
    alloc: Global,
    row: &Row,
    text: &'a str,
) -> Result<Option<(Vec<Said<'a>>, Rest<'a>)>, NoMemory>
    ensures found { IfOk result (λ found. option_map parts_view found
        ≡ if_whole text.now (row_items (row_view row.now) (lexemes_in text.now))) }
    ensures as_many { IfOk result (λ found. IfSome found (λ parts. length parts.0.items ≡ length row.now.ones.now)) }
{
    let Some((ones, rest)) = one_items(alloc, row.ones, text)? else {
        return Ok(None);
    };
    match last_item(alloc, row.last, rest)? {
        Some(last) => Ok(Some((ones, last))),
        None => Ok(None),
    }
}

/// Returns the line that a word and a text are, in a script with or without a building so far.
#[tactic(auto, using(crate::proofs::Views::known_rows))]
fn whole_line<'a>(
    alloc: Global,
    with_building: bool,
    word: &str,
    text: &'a str,
) -> Result<Option<Line<'a>>, NoMemory>
    ensures found { IfOk result (λ found. option_map line_view found
        ≡ if_whole text.now (line_at with_building (name_lexeme word.now ∷ lexemes_in text.now))) }
    ensures shaped { IfOk result (λ found. IfSome found (λ line. IsShaped with_building line)) }
    ensures word { (version : ℕ) → is_word version word.now ≡ true
        → IfOk result (λ found. IfSome found (λ line. is_word version line.row.word.now ≡ true)) }
{
    let Some(row) = row_for(with_building, word) else {
        return Ok(None);
    };
    match parts(alloc, &row, text)? {
        Some((ones, last)) => Ok(Some(Line { row, ones, last })),
        None => Ok(None),
    }
}

/// Returns the line in its form that a word of the script's version and the text after it are, in a script with or without a building
/// so far. There is none where a character of the text begins no token.
///
/// # Errors
/// `NoMemory` where there is no memory for it.
pub fn formed_line<'a>(
    alloc: Global,
    with_building: bool,
    word: &str,
    text: &'a str,
) -> Result<Option<Line<'a>>, NoMemory>
    ensures line { (d : Declared) (lexemes : List Lexeme) → has_building d ≡ with_building → is_word d.version word.now ≡ true
        → Lexes (chars text.now) lexemes
        → IfOk result (λ found. IfSome found (IsStatementLine d (name_lexeme word.now ∷ lexemes))) }
    ensures none { (d : Declared) (lexemes : List Lexeme) → has_building d ≡ with_building → is_word d.version word.now ≡ true
        → Lexes (chars text.now) lexemes
        → IfOk result (λ found. IfNone found ((s : Statement) → ¬ Forms d (name_lexeme word.now ∷ lexemes) s)) }
    ensures lexed { IfOk result (λ found. IfSome found (λ line. IsLexed (chars text.now))) }
    ensures shaped { IfOk result (λ found. IfSome found (λ line. IsShaped with_building line)) }
{
    let Some(line) = whole_line(alloc, with_building, word, text)? else {
        return Ok(None);
    };
    if line.is_formed(with_building) {
        Ok(Some(line))
    } else {
        Ok(None)
    }
}

impl<'a> Line<'a> {
    /// Returns whether a line of one of the version's words has its form, in a script with or without a building so far.
    #[tactic(auto, using(crate::proofs::Views::of_line))]
    fn is_formed(&self, with_building: bool) -> bool
        ensures { (d : Declared) → is_word d.version self.now.row.word.now ≡ true → has_building d ≡ with_building
            → result ≡ is_formed d (line_view self.now) }
    {
        let manner = self.row.manner;
        self.last.is_filled() && self.has_signs(manner) && manner.is_of_script(with_building)
    }

    /// Returns whether the signs of the line's atoms are those of the manner.
    fn has_signs(&self, manner: Manner) -> bool
        ensures { result ≡ list_all (λ x. is_signed manner x.sign) (line_atoms (line_view self.now)) }
    {
        let (atoms, parts) = (self.last.atoms(), self.last.parts());
        are_signed(manner, atoms) && have_signs(manner, parts)
    }

    /// Returns whether the line has a parameter of an operator, or of a table in a binding. Does not allocate.
    #[tactic(auto, using(crate::proofs::Views::of_line))]
    pub fn has_parameter(&self) -> bool
        ensures { result ≡ list_any has_parameter (line_view self.now).items }
    {
        self.last.has_parameter()
    }

    /// Returns the atoms of the line, but for those of proofs. Does not allocate.
    pub fn atoms(&self) -> &[SignedAtom<'a>]
        ensures { map signed_view result.now ≡ rest_atoms self.now.last }
    {
        self.last.atoms()
    }

    /// Returns the arguments of the line that stand in no atom and in no proof. Does not allocate.
    pub fn arguments(&self) -> &[Argument<'a>]
        ensures { map argument_view result.now ≡ rest_arguments self.now.last }
    {
        self.last.arguments()
    }

    /// Returns the parts of proofs of the line. Does not allocate.
    pub fn parts(&self) -> &[Part<'a>]
        ensures { map part_view result.now ≡ rest_parts self.now.last }
    {
        self.last.parts()
    }
}

#[tactic(auto, using(crate::proofs::Views::all_maps))]
fn are_signed(manner: Manner, atoms: &[SignedAtom<'_>]) -> bool
    ensures { result ≡ list_all (λ x. is_signed manner x.sign) (map signed_view atoms.now) }
{
    each_signed(manner, atoms)
}

fn each_signed(manner: Manner, atoms: &[SignedAtom<'_>]) -> bool
    ensures { result ≡ list_all (λ x. is_signed manner x.sign) atoms.now }
{
    atoms.iter().all(|atom| manner.is_signed(atom.sign))
}

fn has_sign(manner: Manner, part: &Part<'_>) -> bool
    ensures { result ≡ list_all (λ x. is_signed manner x.sign) (atoms_of_part (part_view part.now)) }
{
    match part {
        Part::Fact(_, _, atom) => manner.is_signed(atom.sign),
        Part::Ancestor(_) | Part::Axiom(_, _, _, _) => true,
    }
}

fn have_signs(manner: Manner, parts: &[Part<'_>]) -> bool
    ensures { result ≡ list_all (λ part. list_all (λ x. is_signed manner x.sign) (atoms_of_part (part_view part))) parts.now }
{
    parts.iter().all(|part| has_sign(manner, part))
}
