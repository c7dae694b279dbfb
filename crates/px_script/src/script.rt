//! What a script is about, by its parts.
ghost use Rattle.px_script.specs.Ranges.{IsInRange};
ghost use Rattle.px_script.specs.RangeLaws.{IsInRange-prop};
ghost use Rattle.px_script.specs.ScriptParts.{script_of};

use crate::command::Command;
use px_base::Sequence;
use px_names::Names;
use px_ops::Model;
use px_rooms::Building;
use px_table::Table;
use px_terms::Problem;

/// A script that was read. It keeps that its problem is valid, that each of its numbers has a name and no name stands twice in
/// its kind, that the facts and the commands are over its numbers, that each table is a table of its problem, that all is within the
/// limits, that no result is given twice, and that with a building the problem is the building's and the facts are those of its first
/// state (`in_range`). That each name is one is kept by `Names`.
#[derive(Drop)]
pub struct Script {
    /// The version of the language.
    pub version: u32,
    /// The names of objects, predicates, operators and results, by their numbers.
    pub names: Names,
    /// The problem, with the script's limits.
    pub problem: Problem,
    /// The facts at first.
    pub facts: Model,
    /// The building, if the script has one.
    pub building: Option<Building>,
    /// The tables that stand in the script, in their order, each with the number of its name. Each is a table of the problem.
    pub tables: Sequence<(u32, Table)>,
    /// The commands, in their order.
    pub commands: Sequence<Command>,
    pub ghost in_range: { IsInRange (script_of version names problem facts building tables commands) } by { IsInRange-prop _ },
}
