//! The limits of a script: each number stands here, and the definitions cite it.
ghost use Rattle.std.specs.Prelude.{◌≡◌};
ghost use Rattle.px_script.specs.Limits.{by_version, default_nodes, default_weight, from_three, greatest, most_script_nodes, most_script_weight, number_of};

use px_terms::{
    MOST_ARGUMENTS, MOST_CLAUSES, MOST_FORMULA_VARIABLES, MOST_LITERALS, MOST_NODES,
    MOST_PARAMETERS, MOST_WEIGHT,
};

/// What a script has limits of, in the order of their numbers.
#[derive(Clone, Copy)]
pub enum Limit {
    /// Bytes of a name that has a number in its kind.
    NameBytes = 1,
    Objects,
    Predicates,
    Arity,
    Axioms,
    /// Literals of an axiom.
    Literals,
    /// Variables of an axiom or of a goal.
    Variables,
    Operators,
    Parameters,
    /// Atoms of a precondition, of a delete list or of an add list.
    OperatorAtoms,
    /// Different facts of the lines `fact`.
    Facts,
    GoalAtoms,
    Commands,
    /// Disturbances since the last `run`, or since the start.
    Disturbs,
    /// Edits of a disturbance.
    Edits,
    /// Sorts, which version 2 is the first to have. The number before is that of the limit of numbers.
    Sorts = 17,
    /// Tables that stand in the script.
    Tables,
    /// Steps of such a table.
    TableSteps,
    /// The height of a proof of such a table.
    ProofHeight,
    /// Pairs of an edit of a table.
    Pairs,
    /// Events of two executors in one world.
    Events,
}

// How many there may be of each, but for what each problem has limits of. Where the versions from 2 on allow more, they have a number of
// their own.

/// Bytes of a name that has a number in its kind.
pub const NAME_BYTES: u32 = 64;
/// Objects of the script.
pub const OBJECTS: u32 = 256;
/// Objects of a script from version 2 on.
pub const OBJECTS_OF_TWO: u32 = 1024;
/// Predicates of the script.
pub const PREDICATES: u32 = 64;
/// Operators of the script.
pub const OPERATORS: u32 = 32;
/// Atoms of a list of an operator.
pub const OPERATOR_ATOMS: u32 = 16;
/// Different facts of the script.
pub const FACTS: u32 = 512;
/// Different facts of a script from version 2 on.
pub const FACTS_OF_TWO: u32 = 1024;
/// Atoms of a goal.
pub const GOAL_ATOMS: u32 = 16;
/// Commands of the script.
pub const COMMANDS: u32 = 512;
/// Commands of a script from version 2 on.
pub const COMMANDS_OF_TWO: u32 = 1024;
/// Disturbances since the last run.
pub const DISTURBS: u32 = 64;
/// Edits of a disturbance.
pub const EDITS: u32 = 16;
/// Sorts of the script.
pub const SORTS: u32 = 32;
/// Tables that stand in the script.
pub const TABLES: u32 = 32;
/// Steps of a table that stands in the script.
pub const TABLE_STEPS: u32 = 64;
/// The height of a proof of a table that stands in the script.
pub const PROOF_HEIGHT: u32 = 56;
/// Pairs of an edit of a table.
pub const PAIRS: u32 = 16;
/// Events of two executors in one world.
pub const EVENTS: u32 = 256;

/// The last version of the language.
pub const LAST_VERSION: u32 = 3;
/// The number of the limit of numbers, those that a script may give.
pub const NUMBER_OF_NUMBERS: u8 = 16;
/// The most nodes that a script before version 3 may ask for, which are fewer than a problem may have.
pub const MOST_OLD_NODES: u32 = 50_000;
/// The most nodes of a search tree.
pub const MOST_TREE_NODES: u32 = 1_000;
/// The last turn that a disturbance may name.
pub const LAST_TURN: u32 = 9999;
/// The greatest number of a table's block, and of an edit of a table.
pub const LAST_NUMBER: u32 = 9999;
/// How many executors share a world: they have the numbers from 1 on.
pub const EXECUTORS: u32 = 2;
/// The greatest number of a parameter.
pub const LAST_PARAMETER: u32 = 9999;
/// The greatest height of a proof where no line gives it.
pub const DEFAULT_HEIGHT: u32 = 4;
/// How many nodes a search may find where no line says it, before version 3.
pub const DEFAULT_OLD_NODES: u32 = 10_000;
/// How many nodes a search may find where no line says it, from version 3 on.
pub const DEFAULT_NODES: u32 = 100_000;
/// The weight of a search where no line says it, from version 3 on.
pub const DEFAULT_WEIGHT: u32 = 16;
/// How many shapes a question may meet where no line says it.
pub const DEFAULT_SHAPES: u32 = 10_000;

impl Limit {
    /// Returns the limit's number. Does not allocate.
    pub fn number(self) -> u8
        ensures { result ≡ number_of self }
    {
        self as u8
    }
}

/// Returns how many there may be in a script of a version. Does not allocate.
pub fn greatest(version: u32, limit: Limit) -> u32
    ensures { result ≡ greatest version limit }
{
    match limit {
        Limit::NameBytes => NAME_BYTES,
        Limit::Objects => by_version(version, OBJECTS, OBJECTS_OF_TWO),
        Limit::Predicates => PREDICATES,
        Limit::Arity => MOST_ARGUMENTS as u32,
        Limit::Axioms => MOST_CLAUSES as u32,
        Limit::Literals => MOST_LITERALS as u32,
        Limit::Variables => MOST_FORMULA_VARIABLES as u32,
        Limit::Operators => OPERATORS,
        Limit::Parameters => MOST_PARAMETERS as u32,
        Limit::OperatorAtoms => OPERATOR_ATOMS,
        Limit::Facts => by_version(version, FACTS, FACTS_OF_TWO),
        Limit::GoalAtoms => GOAL_ATOMS,
        Limit::Commands => by_version(version, COMMANDS, COMMANDS_OF_TWO),
        Limit::Disturbs => DISTURBS,
        Limit::Edits => EDITS,
        Limit::Sorts => SORTS,
        Limit::Tables => TABLES,
        Limit::TableSteps => TABLE_STEPS,
        Limit::ProofHeight => PROOF_HEIGHT,
        Limit::Pairs => PAIRS,
        Limit::Events => EVENTS,
    }
}

/// Returns how many nodes a script of a version may ask for. Does not allocate.
pub fn most_script_nodes(version: u32) -> u32
    ensures { result ≡ most_script_nodes version }
{
    from_three(version, MOST_OLD_NODES, MOST_NODES)
}

/// Returns how many nodes a search may find where no line says it, in a script of a version. Does not allocate.
pub fn default_nodes(version: u32) -> u32
    ensures { result ≡ default_nodes version }
{
    from_three(version, DEFAULT_OLD_NODES, DEFAULT_NODES)
}

/// Returns the greatest weight that a search may have in a script of a version. Does not allocate.
pub fn most_script_weight(version: u32) -> u32
    ensures { result ≡ most_script_weight version }
{
    from_three(version, 0, MOST_WEIGHT)
}

/// Returns the weight of a search where no line says it, in a script of a version. Does not allocate.
pub fn default_weight(version: u32) -> u32
    ensures { result ≡ default_weight version }
{
    from_three(version, 0, DEFAULT_WEIGHT)
}

fn by_version(version: u32, one: u32, two: u32) -> u32
    ensures { result ≡ by_version version one two }
{
    if version <= 1 { one } else { two }
}

fn from_three(version: u32, old: u32, three: u32) -> u32
    ensures { result ≡ from_three version old three }
{
    if version <= 2 { old } else { three }
}
