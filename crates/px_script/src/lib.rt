//! What a script is: the definitions of lines, lexemes, forms, faults and content, and the law that bytes read one way.
//!
//! # Reading it
//!
//! The definition of a script stands in `specs`, and reads in this order:
//!
//! 1. `Lines` and `Lexemes`: the lines of the bytes, and the lexemes of a line.
//! 2. `Items` and `Statements`: what may stand in a line after its word, and each line described once (`line_of`): its word, its
//!    place, what its atoms may be, and its items.
//! 3. `Limits`: the words and the limits of each version (`greatest`).
//! 4. `Commands` (those of the code) and `Declarations`: what a line adds to what the lines before it declared (`declares`, `after_line`),
//!    the problem that lines so far give (`problem_here`), and the table that the block of a table gives at its end (`table_made`).
//! 5. `Forms`: which statement the lexemes of a line are.
//! 6. `Stages`, `Causes` and `Faults`: what is built; the causes to refuse a line that follow from its description alone; and all
//!    causes in their order (`causes`), of which the first that is there is the fault (`fault_at`).
//! 7. `Content` and `Scripts`: what a script is about, which bytes are a script (`IsScript`), and which fault is the first
//!    (`FirstFault`). A building gives its script the names, the problem and the first facts that `px_rooms` defines.
//!
//! Beside it stand small lines and small texts with what the definition says of them (`Worked..`), and what each script keeps
//! (`Ranges`; `RangeLaws` has that these are facts with one proof at most, so that a type can keep them).
//!
//! # Calling it
//!
//! The definitions cite the kinds of things that stand in lines, and the commands, as the code has them (`kinds`, [`Command`]), and
//! each number of the limits (`limits`). Beside these there are laws, as functions without a body. `px_lines` and `px_reader` read
//! what is defined here.
//!
//! - [`Script`] is a script that was read, by its parts. It keeps that what it is about is in range.
//! - [`reads_one_way`]: bytes are a script (`Spells`, and `IsScript` with what it is about), or they have a first fault
//!   (`FirstFault`), never both, and there is at most one of each. Each of these takes the stage, which is how much is built
//!   (`stage_now`), and the law holds for every stage, so for all that is described (`whole_language`), too.
//! - [`only_takes_away`]: where only some words are built, a line is refused as where all are, or as not built, and a
//!   script is a script of the whole of it.
//! - [`is_in_range`]: what a script is about is in range, and of the language as far as it is built (`IsOfStage`), so a caller may
//!   hand its numbers on. What is built is one list of words, `stage_now`: all that are described; all laws hold of any list.
//! - [`worked_lines`] and [`worked_texts`]: what the definition says of small lines, and of small texts from their bytes, to be
//!   compared with what a reader expects.
//!
//! `Scanning`, `Parsing`, `Rows`, `Faultless` and `States` aren't part of what a script is: they are a plain reader of lines, by a table of
//! the words, a line without a fault, and what the lines so far keep. Public calls of px_lines, px_statements, px_causes and px_effects
//! speak of them, but of `Scanning` none does. The modules of `proofs` that the crates of the reader and px_saved cite have lemmas alone.
#![tactic(auto)]

ghost use Rattle.std.specs.Prelude.{List, ℕ};
ghost use Rattle.px_script.specs.Content.{ScriptValue};
ghost use Rattle.px_script.specs.Declarations.{Declared};
ghost use Rattle.px_script.specs.Faults.{OnlyTakesAway};
ghost use Rattle.px_script.specs.Ranges.{IsInRange, IsOfStage};
ghost use Rattle.px_script.specs.Stages.{Stage, whole_language};
ghost use Rattle.px_script.specs.Statements.{Statement};
ghost use Rattle.px_script.specs.Scripts.{ReadsOneWay, IsScript};
ghost use Rattle.px_script.specs.Worked.{WorkedScripts, WorkedRefusals};
ghost use Rattle.px_script.specs.WorkedLines.{WorkedBuildings, WorkedCommands, WorkedDomains, WorkedDuos, WorkedEdits, WorkedLimits, WorkedSorts, WorkedSpellings};
ghost use Rattle.px_script.specs.WorkedTables.{WorkedAsking, WorkedTables};
ghost use Rattle.px_script.specs.WorkedThree.{WorkedTrees, WorkedWeights};
ghost use Rattle.px_script.specs.WorkedLater.{WorkedLater, WorkedPursuits};

mod command;
mod kinds;
mod limits;
mod script;

pub use command::{About, Binding, Command};
pub use kinds::{Block, Choice, Last, Manner, Named, One, Place, Sign};
pub use limits::{
    DEFAULT_HEIGHT, DEFAULT_NODES, DEFAULT_OLD_NODES, DEFAULT_SHAPES, DEFAULT_WEIGHT, EXECUTORS,
    LAST_NUMBER, LAST_PARAMETER, LAST_TURN, LAST_VERSION, Limit, MOST_OLD_NODES, MOST_TREE_NODES,
    NAME_BYTES, NUMBER_OF_NUMBERS, default_nodes, default_weight, greatest, most_script_nodes,
    most_script_weight,
};
pub use script::Script;

/// Small lines of all words, each after lines without a fault: what it leaves, or its first fault; how lines are written; the
/// greatest numbers allowed, and the least of the limits that are passed; and what follows from the description of lines of version 2.
pub fn worked_lines()
    ensures domains { WorkedDomains }
    ensures buildings { WorkedBuildings }
    ensures commands { WorkedCommands }
    ensures spellings { WorkedSpellings }
    ensures limits { WorkedLimits }
    ensures sorts { WorkedSorts }
    ensures duos { WorkedDuos }
    ensures edits { WorkedEdits }
    ensures pursuits { WorkedPursuits }
    ensures tables { WorkedTables }
    ensures asking { WorkedAsking }
    ensures weights { WorkedWeights }
    ensures trees { WorkedTrees }
    ensures later { WorkedLater }
{}

/// All bytes are a script or have a first fault, and never both; each determines what it names. That holds whatever is built, so also of
/// all words.
pub fn reads_one_way()
    ensures { (stage : Stage) (bytes : List ℕ) → ReadsOneWay stage bytes }
{}

/// A stage only takes away: where less is built, a line either is refused or passes as where all is built, or is refused as
/// not built. A script stays one, and about the same.
#[tactic(auto, using(crate::proofs::Kept::stages_take_away))]
pub fn only_takes_away()
    ensures lines { (stage : Stage) (d : Declared) (s : Statement) → OnlyTakesAway stage d s }
    ensures scripts { (stage : Stage) (bytes : List ℕ) (script : ScriptValue)
        → IsScript stage bytes script → IsScript whole_language bytes script }
{}

/// The problem of a script is valid, each of its numbers has a name and no name stands twice in its kind, the facts, the building and
/// the commands are over its numbers, each table that stands in it is a table of the problem, all is within the limits, and each result is
/// given once and named only by later commands. With a building the problem is the building's, and the facts are those of its first
/// state. Whatever is built, its commands are of words that are built, and it has a building only where buildings are built.
pub fn is_in_range()
    ensures range { (stage : Stage) (bytes : List ℕ) (script : ScriptValue) → IsScript stage bytes script → IsInRange script }
    ensures stage { (stage : Stage) (bytes : List ℕ) (script : ScriptValue) → IsScript stage bytes script → IsOfStage stage script }
{}

/// Small texts, from their bytes: what some scripts are about, and the first faults of texts that aren't scripts.
pub fn worked_texts()
    ensures scripts { WorkedScripts }
    ensures refusals { WorkedRefusals }
{}
