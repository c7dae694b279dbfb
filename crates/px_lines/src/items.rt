//! What stands in a line after its word.
ghost use Rattle.std.specs.Prelude.{◌≡◌, ◌++◌, ◌∷◌, [], map};
ghost use Rattle.std.specs.List.{flat_map, list_all, list_any};
ghost use Rattle.px_script.specs.Items.{arguments_in, atoms_in, has_parameter, is_filled, is_parameter_number, is_variable};
ghost use Rattle.px_lines.specs.Common.{argument_view, atom_varies, part_view, rest_arguments, rest_atoms, rest_parts, rest_view, signed_view};

use crate::parts::{Part, are_whole};
use px_script::{LAST_PARAMETER, Named, Sign};

/// An argument of an atom.
#[derive(Clone, Copy)]
pub enum Argument<'a> {
    Named(&'a str),
    Variable(&'a str),
    Anything,
}

/// An atom by names, with its sign.
#[derive(Drop)]
pub struct SignedAtom<'a> {
    pub sign: Sign,
    pub predicate: &'a str,
    pub arguments: Vec<Argument<'a>>,
}

/// An edit of a building: the robot to a room, a box to a room, a door open or not.
#[derive(Clone, Copy)]
pub enum WrittenRoomEdit<'a> {
    RobotTo(&'a str),
    BoxTo(&'a str, &'a str),
    DoorTo(&'a str, bool),
}

/// A parameter of a learned table, by its number from 1, and an object's name.
#[derive(Clone, Copy)]
pub struct WrittenBinding<'a> {
    pub parameter: u32,
    pub object: &'a str,
}

/// What one token says.
#[derive(Clone, Copy)]
pub enum Said<'a> {
    /// One of the words that may stand there.
    The(&'a str),
    Number(u32),
    /// A name that the line declares.
    New(Named, &'a str),
    /// A name that an earlier line declared.
    Known(Named, &'a str),
}

/// What the tokens to the end of a line say.
#[derive(Drop)]
pub enum Rest<'a> {
    Nothing,
    /// Names that the line declares.
    Declared(Named, Vec<&'a str>),
    /// Names that the line declares, in parentheses with commas, or no names.
    Listed(Named, Vec<&'a str>),
    /// Names that an earlier line declared.
    Wanted(Named, Vec<&'a str>),
    /// One or more numbers.
    Numbers(Vec<u32>),
    Atoms(Vec<SignedAtom<'a>>),
    Bindings(Vec<WrittenBinding<'a>>),
    RoomEdits(Vec<WrittenRoomEdit<'a>>),
    /// Pairs of numbers.
    Pairs(Vec<(u32, u32)>),
    /// Arguments in parentheses with commas, or no arguments.
    Arguments(Vec<Argument<'a>>),
    /// The proofs of one row of a table.
    Proofs(Vec<Part<'a>>),
}

impl Argument<'_> {
    /// Returns whether it is a variable. Does not allocate.
    pub fn is_variable(&self) -> bool
        ensures { result ≡ is_variable (argument_view self.now) }
    {
        matches!(self, Argument::Variable(_))
    }
}

impl SignedAtom<'_> {
    /// Returns whether one of its arguments is a variable. Does not allocate.
    pub fn has_variable(&self) -> bool
        ensures { result ≡ atom_varies self.now }
    {
        self.arguments.iter().any(|argument| argument.is_variable())
    }
}

/// Returns whether the parameters of the bindings have their numbers.
fn are_numbered(bindings: &[WrittenBinding<'_>]) -> bool
    ensures { result ≡ list_all (λ b. is_parameter_number b.parameter) bindings.now }
{
    bindings.iter().all(|binding| binding.parameter > 0 && binding.parameter < LAST_PARAMETER + 1)
}

impl<'a> Rest<'a> {
    /// Returns whether there is one thing where there are one or more, and parameters have their numbers. Does not allocate.
    #[tactic(auto, using(crate::proofs::Views::all_maps))]
    pub fn is_filled(&self) -> bool
        ensures { result ≡ list_all is_filled (rest_view self.now) }
    {
        match self {
            Rest::Declared(_, names) => !names.is_empty(),
            Rest::Wanted(_, names) => !names.is_empty(),
            Rest::Numbers(numbers) => !numbers.is_empty(),
            Rest::Atoms(atoms) => !atoms.is_empty(),
            Rest::RoomEdits(edits) => !edits.is_empty(),
            Rest::Pairs(pairs) => !pairs.is_empty(),
            Rest::Bindings(bindings) => are_numbered(bindings),
            Rest::Proofs(parts) => are_whole(parts),
            Rest::Nothing | Rest::Listed(_, _) | Rest::Arguments(_) => true,
        }
    }

    /// Returns whether it has a parameter of an operator, or of a table in a binding. Does not allocate.
    pub fn has_parameter(&self) -> bool
        ensures { result ≡ list_any has_parameter (rest_view self.now) }
    {
        match self {
            Rest::Listed(_, names) => !names.is_empty(),
            Rest::Bindings(bindings) => !bindings.is_empty(),
            Rest::Nothing
            | Rest::Declared(_, _)
            | Rest::Wanted(_, _)
            | Rest::Numbers(_)
            | Rest::Atoms(_)
            | Rest::RoomEdits(_)
            | Rest::Pairs(_)
            | Rest::Arguments(_)
            | Rest::Proofs(_) => false,
        }
    }

    /// Returns the atoms, but for those of proofs. Does not allocate.
    #[tactic(auto, using(crate::proofs::Views::whole))]
    pub fn atoms(&self) -> &[SignedAtom<'a>]
        ensures { map signed_view result.now ≡ rest_atoms self.now }
    {
        match self {
            Rest::Atoms(atoms) => atoms,
            _ => &[],
        }
    }

    /// Returns the arguments that stand in no atom and in no proof. Does not allocate.
    pub fn arguments(&self) -> &[Argument<'a>]
        ensures { map argument_view result.now ≡ rest_arguments self.now }
    {
        match self {
            Rest::Arguments(arguments) => arguments,
            _ => &[],
        }
    }

    /// Returns the parts of proofs. Does not allocate.
    pub fn parts(&self) -> &[Part<'a>]
        ensures { map part_view result.now ≡ rest_parts self.now }
    {
        match self {
            Rest::Proofs(parts) => parts,
            _ => &[],
        }
    }
}
