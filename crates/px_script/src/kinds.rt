//! What kinds of things stand in lines. None holds a text, so the definitions cite them as they stand here.
ghost use Rattle.std.specs.Prelude.{◌≡◌};
ghost use Rattle.px_script.specs.Causes.{same_block};
ghost use Rattle.px_script.specs.Declarations.{Declared, excludes_building, has_building};
ghost use Rattle.px_script.specs.Forms.{is_of_script, is_signed};

/// What a name is the name of. Rooms, doors and boxes are objects; a plan is a table, and a table is a result.
#[derive(Clone, Copy)]
pub enum Named {
    Object,
    Predicate,
    Operator,
    Result,
    Parameter,
    Sort,
    Room,
    Door,
    Box,
    Plan,
    Table,
}

/// What stands before an atom: nothing, `~` of a literal, `+` or `-` of an edit.
#[derive(Clone, Copy)]
pub enum Sign {
    Bare,
    Negated,
    Added,
    Removed,
}

/// What a block is of. A table's block, of version 2, is one of steps up to its goal, and one of rows after it.
#[derive(Clone, Copy)]
pub enum Block {
    Operator,
    Building,
    TableSteps,
    TableRows,
}

/// Where a line may stand.
#[derive(Clone, Copy)]
pub enum Place {
    /// Only as the first line with tokens.
    First,
    /// Among the lines of the script's own domain, which a building excludes.
    Domain,
    Setting,
    Opens(Block),
    Inside(Block),
    Closes,
    Command,
}

/// What the atoms of a line may be, and of which scripts its edits are.
#[derive(Clone, Copy)]
pub enum Manner {
    /// Names as arguments.
    Plain,
    /// Those of a delete list: names and `$`.
    Patterns,
    /// Those of an axiom: with or without `~`, names and variables.
    Literals,
    /// Those of a goal: names and variables.
    Goals,
    /// Edits, with `+` or `-`, of a script without a building; names.
    AtomChanges,
    /// Edits of a building.
    RoomChanges,
    /// Those of the steps and proofs of a table's block: names and the parameters of the table.
    TableTerms,
    /// Those of the goal of a table's block: with variables of the goal, too.
    TableGoals,
}

/// Words of which one has to stand in a place.
#[derive(Clone, Copy)]
pub enum Choice {
    /// `from`
    Source,
    /// `open` or `closed`
    State,
    /// `between` or `before`
    Time,
}

/// What one token of a line is there for.
#[derive(Clone, Copy)]
pub enum One {
    Word(Choice),
    Number,
    New(Named),
    Known(Named),
}

/// What the tokens to the end of a line are there for.
#[derive(Clone, Copy)]
pub enum Last {
    Nothing,
    New(Named),
    /// New names in parentheses with commas, or no names.
    Listed(Named),
    /// Names that an earlier line declared.
    Known(Named),
    /// One or more numbers.
    Numbers,
    Atoms,
    Bindings,
    RoomEdits,
    /// Pairs of numbers, each N=N.
    Pairs,
    /// Arguments in parentheses with commas, or no arguments.
    Arguments,
    /// The proofs of one row of a table, possibly none.
    Proofs,
}

impl Block {
    /// Returns whether both are blocks of the same kind. Does not allocate.
    pub fn is_same(self, other: Block) -> bool
        ensures { result ≡ same_block self other }
    {
        matches!(
            (self, other),
            (Block::Operator, Block::Operator)
                | (Block::Building, Block::Building)
                | (Block::TableSteps, Block::TableSteps)
                | (Block::TableRows, Block::TableRows)
        )
    }
}

impl Place {
    /// Returns whether the line is one that a building excludes. Does not allocate.
    pub fn excludes_building(self) -> bool
        ensures { result ≡ excludes_building self }
    {
        matches!(self, Place::Domain | Place::Opens(Block::Operator))
    }
}

impl Manner {
    /// Returns whether the sign may stand before the line's atoms. Does not allocate.
    pub fn is_signed(self, sign: Sign) -> bool
        ensures { result ≡ is_signed self sign }
    {
        match self {
            Manner::AtomChanges => matches!(sign, Sign::Added | Sign::Removed),
            Manner::Literals => matches!(sign, Sign::Bare | Sign::Negated),
            _ => matches!(sign, Sign::Bare),
        }
    }

    /// Returns whether edits of the line are of the script's kind, in a script with or without a building so far. Does not allocate.
    pub fn is_of_script(self, with_building: bool) -> bool
        ensures { (d : Declared) → has_building d ≡ with_building → result ≡ is_of_script d self }
    {
        match self {
            Manner::AtomChanges => !with_building,
            Manner::RoomChanges => with_building,
            _ => true,
        }
    }
}
