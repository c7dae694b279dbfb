//! The commands that lines add.
ghost use Rattle.std.specs.Prelude.{◌≡◌, ◌≤◌, ◌<◌, ◌∷◌, [], length, map, IfOk, OnOk};
ghost use Rattle.px_terms.specs.Limits.{most_formula_variables};
ghost use Rattle.px_script.specs.declared.limits.Limit.TheVariants as limit;
ghost use Rattle.px_script.specs.Limits.{greatest};
ghost use Rattle.px_script.specs.Statements as spec;
ghost use Rattle.px_effects.specs.Common.{IsFresh, atom_of, variable_names_of, with_command, with_names, a_plan, a_result, a_table, AreReadable, declared_of, leaves, signed_view, room_edit_view, binding_view};

use crate::declaring::add_name;
use px_base::{NoMemory, Sequence};
use px_lines::{SignedAtom, WrittenBinding, WrittenRoomEdit};
use px_names::Kind;
use px_script::{About, Command};
use px_so_far::{SoFar, Variables, variables};
use px_terms::Atom;

/// A goal by numbers.
#[derive(Drop)]
struct NumberedGoal {
    atoms: Sequence<Atom>,
    /// How many variables it has.
    variable_count: u32,
}

/// Returns the goal by numbers, with its variables by first occurrence.
#[tactic(auto, using(crate::proofs::Facts::map_map))]
fn numbered(so_far: &SoFar, goal: &[SignedAtom<'_>]) -> Result<NumberedGoal, NoMemory>
    requires few_variables { length (variable_names_of (map signed_view goal.now)) ≤ most_formula_variables }
    requires readable { AreReadable (declared_of so_far.now) goal.now }
    ensures atoms { IfOk result (λ numbered. numbered.atoms
        ≡ map (atom_of (declared_of so_far.now) (variable_names_of (map signed_view goal.now))) (map signed_view goal.now)) }
    ensures variable_count { IfOk result (λ numbered. numbered.variable_count ≡ length (variable_names_of (map signed_view goal.now))) }
{
    let variables = variables(so_far.alloc, goal)?;
    let atoms = so_far.atoms(&Variables::Named(&variables), goal)?;
    Ok(NumberedGoal {
        atoms: Sequence::from_vec(atoms),
        variable_count: variables.len() as u32,
    })
}

/// Adds a command.
pub fn add_command(so_far: &mut SoFar, command: Command) -> Result<(), NoMemory>
    ensures { OnOk result (declared_of so_far.new ≡ with_command command (declared_of so_far.old)) }
{
    so_far.commands.push(command)?;
    Ok(())
}

/// Adds a search for a plan, whose name is then one of a plan.
pub fn add_plan(so_far: &mut SoFar, name: &str, goal: &[SignedAtom<'_>]) -> Result<(), NoMemory>
    requires few_variables { length (variable_names_of (map signed_view goal.now)) ≤ most_formula_variables }
    requires readable { AreReadable (declared_of so_far.old) goal.now }
    requires fresh { IsFresh Kind.Result so_far.old.names name.now }
    ensures { OnOk result (declared_of so_far.new ≡ leaves 0 (declared_of so_far.old) (spec.plan name.now (map signed_view goal.now))) }
{
    let goal = numbered(so_far, goal)?;
    let name = add_plan_name(so_far, name)?;
    add_command(
        so_far,
        Command::Plan {
            name,
            goal: goal.atoms,
            variable_count: goal.variable_count,
        },
    )
}

/// Adds the name of a table, and returns its number.
pub fn add_table_name(so_far: &mut SoFar, name: &str) -> Result<u32, NoMemory>
    requires fresh { IsFresh Kind.Result so_far.old.names name.now }
    ensures number { IfOk result (λ number. number ≡ length so_far.old.names.results) }
    ensures declared { OnOk result (declared_of so_far.new ≡ with_names a_table (name.now ∷ []) (declared_of so_far.old)) }
{
    let number = add_name(so_far, Kind::Result, name)?;
    so_far.tables.push(String::from_str(so_far.alloc, name)?)?;
    Ok(number)
}

/// Adds the name of a plan, and returns its number.
fn add_plan_name(so_far: &mut SoFar, name: &str) -> Result<u32, NoMemory>
    requires fresh { IsFresh Kind.Result so_far.old.names name.now }
    ensures number { IfOk result (λ number. number ≡ length so_far.old.names.results) }
    ensures declared { OnOk result (declared_of so_far.new ≡ with_names a_plan (name.now ∷ []) (declared_of so_far.old)) }
{
    let number = add_table_name(so_far, name)?;
    so_far.plans.push(String::from_str(so_far.alloc, name)?)?;
    Ok(number)
}

/// Adds a pursuit of a goal, whose name is then one of a result that is no table.
pub fn add_pursuit(so_far: &mut SoFar, name: &str, goal: &[SignedAtom<'_>]) -> Result<(), NoMemory>
    requires few_variables { length (variable_names_of (map signed_view goal.now)) ≤ most_formula_variables }
    requires readable { AreReadable (declared_of so_far.old) goal.now }
    requires fresh { IsFresh Kind.Result so_far.old.names name.now }
    ensures { OnOk result (declared_of so_far.new ≡ leaves 0 (declared_of so_far.old) (spec.pursue name.now (map signed_view goal.now))) }
{
    let goal = numbered(so_far, goal)?;
    let name = add_result_name(so_far, name)?;
    add_command(
        so_far,
        Command::Pursue {
            name,
            goal: goal.atoms,
            variable_count: goal.variable_count,
        },
    )
}

/// Adds a tree of a search with so many nodes, whose name is then one of a result that is no table.
pub fn add_tree(
    so_far: &mut SoFar,
    name: &str,
    nodes: u32,
    goal: &[SignedAtom<'_>],
) -> Result<(), NoMemory>
    requires few_variables { length (variable_names_of (map signed_view goal.now)) ≤ most_formula_variables }
    requires readable { AreReadable (declared_of so_far.old) goal.now }
    requires fresh { IsFresh Kind.Result so_far.old.names name.now }
    ensures { OnOk result (declared_of so_far.new
        ≡ leaves 0 (declared_of so_far.old) (spec.tree name.now nodes (map signed_view goal.now))) }
{
    let goal = numbered(so_far, goal)?;
    let name = add_result_name(so_far, name)?;
    add_command(
        so_far,
        Command::Tree {
            name,
            nodes,
            goal: goal.atoms,
            variable_count: goal.variable_count,
        },
    )
}

/// Adds the name of a result that is no table, and returns its number.
fn add_result_name(so_far: &mut SoFar, name: &str) -> Result<u32, NoMemory>
    requires fresh { IsFresh Kind.Result so_far.old.names name.now }
    ensures number { IfOk result (λ number. number ≡ length so_far.old.names.results) }
    ensures declared { OnOk result (declared_of so_far.new ≡ with_names a_result (name.now ∷ []) (declared_of so_far.old)) }
{
    add_name(so_far, Kind::Result, name)
}

/// Adds the learning of a table from a plan.
pub fn add_learned(so_far: &mut SoFar, name: &str, source: &str) -> Result<(), NoMemory>
    requires fresh { IsFresh Kind.Result so_far.old.names name.now }
    ensures { OnOk result (declared_of so_far.new ≡ leaves 0 (declared_of so_far.old) (spec.learn name.now source.now)) }
{
    let source = so_far.number(Kind::Result, source);
    let name = add_table_name(so_far, name)?;
    add_command(so_far, Command::Learn { name, source })
}

/// Adds a command that only names a table.
pub fn add_asked(so_far: &mut SoFar, about: About, name: &str) -> Result<(), NoMemory>
    ensures { OnOk result (declared_of so_far.new ≡ leaves 0 (declared_of so_far.old) (spec.ask about name.now)) }
{
    let name = so_far.number(Kind::Result, name);
    add_command(so_far, Command::asking(about, name))
}

/// Adds a disturbance of a script without a building, and counts it.
#[tactic(auto, using(crate::proofs::Facts::map_map))]
pub fn disturb_atoms(
    so_far: &mut SoFar,
    turn: u32,
    between: bool,
    edits: &[SignedAtom<'_>],
) -> Result<(), NoMemory>
    requires readable { AreReadable (declared_of so_far.old) edits.now }
    requires room { so_far.old.disturbs < greatest 1 limit.Disturbs }
    ensures { OnOk result (declared_of so_far.new
        ≡ leaves 0 (declared_of so_far.old) (spec.disturb_atoms turn between (map signed_view edits.now))) }
{
    let edits = so_far.atom_edits(edits)?;
    so_far.disturbs += 1;
    add_command(
        so_far,
        Command::DisturbAtoms {
            turn,
            between,
            edits: Sequence::from_vec(edits),
        },
    )
}

/// Adds a disturbance of a building, and counts it.
#[tactic(auto, using(crate::proofs::Facts::map_map))]
pub fn disturb_rooms(
    so_far: &mut SoFar,
    turn: u32,
    between: bool,
    edits: &[WrittenRoomEdit<'_>],
) -> Result<(), NoMemory>
    requires room { so_far.old.disturbs < greatest 1 limit.Disturbs }
    ensures { OnOk result (declared_of so_far.new
        ≡ leaves 0 (declared_of so_far.old) (spec.disturb_rooms turn between (map room_edit_view edits.now))) }
{
    let edits = so_far.room_edits(edits)?;
    so_far.disturbs += 1;
    add_command(
        so_far,
        Command::DisturbRooms {
            turn,
            between,
            edits: Sequence::from_vec(edits),
        },
    )
}

/// Adds a run of a table, before which no disturbance is counted any more.
#[tactic(auto, using(crate::proofs::Facts::map_map))]
pub fn add_run(
    so_far: &mut SoFar,
    name: &str,
    bindings: &[WrittenBinding<'_>],
) -> Result<(), NoMemory>
    ensures { OnOk result (declared_of so_far.new ≡ leaves 0 (declared_of so_far.old) (spec.run name.now (map binding_view bindings.now))) }
{
    let name = so_far.number(Kind::Result, name);
    let bindings = so_far.bindings(bindings)?;
    so_far.disturbs = 0;
    add_command(
        so_far,
        Command::Run {
            name,
            bindings: Sequence::from_vec(bindings),
        },
    )
}

/// Adds a run of two tables by turns.
pub fn add_duo(so_far: &mut SoFar, one: &str, other: &str, numbers: &[u32]) -> Result<(), NoMemory>
    ensures { OnOk result (declared_of so_far.new ≡ leaves 0 (declared_of so_far.old) (spec.duo one.now other.now numbers.now)) }
{
    let first = so_far.number(Kind::Result, one);
    let second = so_far.number(Kind::Result, other);
    let events = Sequence::from_slice(so_far.alloc, numbers)?;
    add_command(
        so_far,
        Command::Duo {
            first,
            second,
            events,
        },
    )
}

/// Adds the editing of a table, which gives a new one.
pub fn add_edited(
    so_far: &mut SoFar,
    name: &str,
    source: &str,
    prefix: u32,
    pairs: &[(u32, u32)],
) -> Result<(), NoMemory>
    requires fresh { IsFresh Kind.Result so_far.old.names name.now }
    ensures { OnOk result (declared_of so_far.new ≡ leaves 0 (declared_of so_far.old) (spec.edit name.now source.now prefix pairs.now)) }
{
    let from = so_far.number(Kind::Result, source);
    let wanted = Sequence::from_slice(so_far.alloc, pairs)?;
    let name = add_table_name(so_far, name)?;
    add_command(
        so_far,
        Command::Edit {
            name,
            from,
            prefix,
            wanted,
        },
    )
}
