//! What a line says, by its word.
ghost use Rattle.std.specs.Prelude.{◌≡◌};
ghost use Rattle.px_statements.specs.Common.{is_fact, statement_view};

use px_lines::{Argument, Part, SignedAtom, WrittenBinding, WrittenRoomEdit};
use px_script::About;

/// What a line says. It borrows the line's lists.
#[derive(Clone, Copy)]
pub enum Statement<'line, 'text> {
    /// The version of the language.
    Script(u32),
    /// Objects.
    Object(&'line [&'text str]),
    /// A predicate, and how many arguments it has.
    Predicate(&'text str, u32),
    /// The literals of an axiom.
    Axiom(&'line [SignedAtom<'text>]),
    /// An operator and its parameters; then the lines of its block.
    Operator(&'text str, &'line [&'text str]),
    /// Atoms of the open operator's precondition.
    Pre(&'line [SignedAtom<'text>]),
    /// Atoms of its delete list.
    Delete(&'line [SignedAtom<'text>]),
    /// Atoms of its add list.
    Add(&'line [SignedAtom<'text>]),
    /// A building; then the lines of its block.
    Building,
    /// A room.
    Room(&'text str),
    /// Its name, its two rooms, and whether it is open.
    Door(&'text str, &'text str, &'text str, bool),
    /// A box, and its room.
    Box(&'text str, &'text str),
    /// The room of the robot.
    Robot(&'text str),
    /// The end of the open block.
    End,
    /// Facts.
    Fact(&'line [SignedAtom<'text>]),
    /// The greatest height of a proof.
    Height(u32),
    /// How many nodes a search may have.
    Nodes(u32),
    /// How many shapes of questions a proof may have.
    Shapes(u32),
    /// How much the search goes by what its nodes lack.
    Weight(u32),
    /// The name of a plan, and its goal.
    Plan(&'text str, &'line [SignedAtom<'text>]),
    /// The name of a learned table, and the plan that it is made from.
    Learn(&'text str, &'text str),
    /// A command that only names a table.
    Ask(About, &'text str),
    /// The turn, whether the edits come between sensing and acting, and the edits.
    DisturbAtoms(u32, bool, &'line [SignedAtom<'text>]),
    /// The same in a script with a building.
    DisturbRooms(u32, bool, &'line [WrittenRoomEdit<'text>]),
    /// A table that is run, and the bindings of its parameters.
    Run(&'text str, &'line [WrittenBinding<'text>]),
    /// Two tables, and the numbers of whoever is next.
    Duo(&'text str, &'text str, &'line [u32]),
    /// The facts of now are printed.
    Facts,
    /// A sort, and its objects.
    Sort(&'text str, &'line [&'text str]),
    /// A sort, and the parameters of the open operator that have it.
    Param(&'text str, &'line [&'text str]),
    /// The name of a table and how many parameters it has; then the lines of its block.
    Table(&'text str, u32),
    /// The operator of a step of the open table, and its terms.
    Step(&'text str, &'line [Argument<'text>]),
    /// The goal of the open table.
    Goal(&'line [SignedAtom<'text>]),
    /// The parts of the proofs of a row of the open table.
    Proof(&'line [Part<'text>]),
    /// The name of an edited table, the table that it is made from, how many of its steps, and the wanted adds.
    Edit(&'text str, &'text str, u32, &'line [(u32, u32)]),
    /// The name of a pursuit, and its goal.
    Pursue(&'text str, &'line [SignedAtom<'text>]),
    /// The name of a tree, how many nodes its search may have, and its goal.
    Tree(&'text str, u32, &'line [SignedAtom<'text>]),
}

impl Statement<'_, '_> {
    /// Returns whether the line is one of facts.
    pub fn is_fact(self) -> bool
        ensures { result ≡ is_fact (statement_view self.entry) }
    {
        matches!(self, Statement::Fact(_))
    }
}
