//! The variables of lines, and their numbers.
ghost use Rattle.std.specs.Prelude.{◌≡◌, ◌≤◌, ◌<◌, length, map, max, fold, position, IfSome};
ghost use Rattle.px_terms.specs.Limits.{most_formula_variables};
ghost use Rattle.px_script.specs.Declarations.{Declared, goal_variables, letter_numbers};
ghost use Rattle.px_script.specs.declared.limits.TheConstants.{LAST_NUMBER as last_number};
ghost use Rattle.px_so_far.specs.Common.{argument_view, bytes_eq, has_name, number_in, signed_view, text_of};
ghost use Rattle.px_so_far.specs.LineVariables.{AreFew, IsPlaceAmong, goal_names, goal_number_of, table_names, variables_view};

use px_lines::{Argument, SignedAtom};

/// The variables that the arguments of a line may be.
#[derive(Clone, Copy)]
pub enum Variables<'names, 'text> {
    /// These, in the order of their numbers, which begin with 0.
    Named(&'names [&'text str]),
    /// The parameters of a table with so many, and then the variables of its goal.
    OfTable(u32),
}

fn position_among(names: &[&str], name: &str) -> Option<usize>
    ensures number { result ≡ position (λ other. bytes_eq name.now other.now) names.now }
    ensures within { IfSome result (λ number. number < length names.now) }
{
    names.iter().position(|other| name == *other)
}

/// Returns where a name stands among these.
#[tactic(auto, using(crate::proofs::AtomTests::positions))]
fn place_among(names: &[&str], name: &str) -> Option<usize>
    ensures number { result ≡ position (bytes_eq name.now) (map text_of names.now) }
    ensures within { IfSome result (λ number. number < length names.now) }
{
    position_among(names, name)
}

/// Returns whether the name is one of these.
#[tactic(auto, using(crate::proofs::AtomTests::positions))]
pub fn is_one_of(names: &[&str], name: &str) -> bool
    ensures { result ≡ has_name name.now (map text_of names.now) }
{
    place_among(names, name).is_some()
}

#[tactic(auto, using(crate::proofs::AtomTests::positions))]
fn number_among(names: &[&str], name: &str) -> u32
    requires { length names.now ≤ most_formula_variables }
    ensures { result ≡ number_in name.now (map text_of names.now) }
{
    match place_among(names, name) {
        Some(number) => number as u32,
        None => 0,
    }
}

/// Returns the place of a parameter of a table with so many, counted from 0, or `None` where the name is none: its name is the letter p
/// and a number from 1, without a leading zero.
pub fn parameter_place(parameters: u32, name: &str) -> Option<u32>
    ensures { IsPlaceAmong (letter_numbers 112 parameters) name.now result }
{
    let digits = name.strip_prefix('p')?;
    if digits.starts_with('0') || digits.starts_with('+') {
        return None;
    }
    match digits.parse::<u32>() {
        Ok(number) if number <= parameters => Some(number - 1),
        _ => None,
    }
}

/// The variables that the goal of a table's block may have.
const GOAL_VARIABLES: [&str; 12] = [
    "g1", "g2", "g3", "g4", "g5", "g6", "g7", "g8", "g9", "g10", "g11", "g12",
];

/// Returns the place of a variable of a table's goal, counted from 0, or `None` where the name is none of g1 to g12.
pub fn goal_place(name: &str) -> Option<usize>
    ensures place { IsPlaceAmong goal_names name.now result }
    ensures within { IfSome result (λ place. place < most_formula_variables) }
{
    place_among(&GOAL_VARIABLES, name)
}

fn number_of_table(parameters: u32, name: &str) -> u32
    requires { parameters ≤ last_number }
    ensures { result ≡ number_in name.now (table_names parameters) }
{
    match parameter_place(parameters, name) {
        Some(place) => place,
        None => match goal_place(name) {
            Some(place) => parameters + place as u32,
            None => 0,
        },
    }
}

/// Returns the number of a variable of a table's goal from 1, or 0 for what is none.
fn goal_number(argument: &Argument<'_>) -> u32
    ensures { result ≡ goal_number_of (argument_view argument.now) }
{
    match argument {
        Argument::Variable(name) => match goal_place(name) {
            Some(place) => place as u32 + 1,
            None => 0,
        },
        Argument::Named(_) | Argument::Anything => 0,
    }
}

fn greater(one: u32, other: u32) -> u32
    ensures { result ≡ max one other }
{
    if one < other { other } else { one }
}

/// Returns the greatest of the numbers of a goal's variables among the arguments, and of another number.
fn greatest_among(arguments: &[Argument<'_>], other: u32) -> u32
    ensures { result ≡ fold max other (map (λ a. goal_number_of (argument_view a)) arguments.now) }
{
    let mut greatest = other;
    for argument in arguments {
        greatest = greater(greatest, goal_number(argument));
    }
    greatest
}

/// Returns the greatest number of a variable of a table's goal, or 0 where there is none.
pub fn goal_variables(atoms: &[SignedAtom<'_>]) -> u32
    ensures { (d : Declared) → result ≡ goal_variables d (map signed_view atoms.now) }
{
    let mut greatest = 0;
    for atom in atoms {
        greatest = greatest_among(&atom.arguments, greatest);
    }
    greatest
}

impl Variables<'_, '_> {
    /// Returns the number of one of them, or 0 where the name is none.
    pub fn number(&self, name: &str) -> u32
        requires few { AreFew self.now }
        ensures { result ≡ number_in name.now (variables_view self.now) }
    {
        match self {
            Variables::Named(names) => number_among(names, name),
            Variables::OfTable(parameters) => number_of_table(*parameters, name),
        }
    }
}
