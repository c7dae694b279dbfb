//! What a line without a fault adds.
ghost use Rattle.std.specs.Prelude.{◌≡◌, ◌<◌, ◌≤◌, ◌++◌, [], true, false, Some, length, map, All, IfOk, IsOk, OnOk};
ghost use Rattle.px_terms.specs.Limits.{most_clauses, most_formula_variables};
ghost use Rattle.px_names.specs.Lists.{names_of};
ghost use Rattle.px_names.specs.Name.{IsName};
ghost use Rattle.px_terms.specs.AtomSets.{atom_set, with_atom, IsAtomSet};
ghost use Rattle.px_terms.specs.Clauses.{IsClause};
ghost use Rattle.px_terms.specs.Instances.{IsGround};
ghost use Rattle.px_script.specs.Statements as spec;
ghost use Rattle.px_script.specs.Faultless.{IsFaultless, IsRight};
ghost use Rattle.px_effects.specs.Common.{AllByRecursion, AreOfKind, AreOfKinds, IsFresh, IsNameLexeme, spelling, with_name, atom_of, clause_of, variable_names_of, is_formed, line_of, AreInRange, AreReadable, is_fact, declared_of, leaves, with_more, signed_view, statement_view, text_of};

use crate::blocks::{
    Role, add_box, add_door, add_robot, add_room, begin_operator, close_block, extend_operator,
    open_building,
};
use crate::commands::{
    add_asked, add_command, add_duo, add_edited, add_learned, add_plan, add_pursuit, add_run,
    add_tree, disturb_atoms, disturb_rooms,
};
use crate::sorts::{add_sort, give_sort};
use crate::tables::{add_row, add_step, begin_table, set_goal};
use px_base::NoMemory;
use px_lines::SignedAtom;
use px_names::{Kind, NameErr};
use px_script::Command;
use px_so_far::{SoFar, Variables, variables};
use px_statements::Statement;
use px_terms::{ArenaErr, Atom};

/// Sets a limit of the script. That takes no memory: the result is that of the other lines.
fn set(limit: &mut Option<u32>, number: u32) -> Result<(), NoMemory>
    ensures set { limit.new ≡ Some number }
    ensures ok { IsOk result }
{
    *limit = Some(number);
    Ok(())
}

/// Adds what the line says, where it has no fault, except that there may be too many facts.
///
/// # Errors
/// `NoMemory` where there is no memory for it. Part of the line may then be added, so that nothing more is to be read.
pub fn declare(so_far: &mut SoFar, line: u32, statement: Statement<'_, '_>) -> Result<(), NoMemory>
    requires range { AreInRange (declared_of so_far.old) }
    requires formed { is_formed (declared_of so_far.old) (line_of (statement_view statement)) ≡ true }
    requires right { IsRight (declared_of so_far.old) (statement_view statement) }
    requires faultless { is_fact (statement_view statement) ≡ false → IsFaultless (declared_of so_far.old) (statement_view statement) }
    requires named { AllByRecursion IsNameLexeme (spelling (statement_view statement)) }
    ensures { OnOk result (declared_of so_far.new ≡ leaves line (declared_of so_far.old) (statement_view statement.entry)) }
{
    add_line(so_far, line, statement)
}

/// Adds what the line says, whose names are new.
fn add_line(so_far: &mut SoFar, line: u32, statement: Statement<'_, '_>) -> Result<(), NoMemory>
    requires range { AreInRange (declared_of so_far.old) }
    requires formed { is_formed (declared_of so_far.old) (line_of (statement_view statement)) ≡ true }
    requires right { IsRight (declared_of so_far.old) (statement_view statement) }
    requires faultless { is_fact (statement_view statement) ≡ false → IsFaultless (declared_of so_far.old) (statement_view statement) }
    requires named { AllByRecursion IsNameLexeme (spelling (statement_view statement)) }
    requires fresh { is_fact (statement_view statement) ≡ false
        → AreOfKinds (leaves line (declared_of so_far.old) (statement_view statement)).names }
    ensures { OnOk result (declared_of so_far.new ≡ leaves line (declared_of so_far.old) (statement_view statement.entry)) }
{
    match statement {
        Statement::Script(version) => {
            so_far.version = version;
            Ok(())
        }
        Statement::Object(names) => declare_names(so_far, Kind::Object, names),
        Statement::Predicate(name, arity) => declare_predicate(so_far, name, arity as u8),
        Statement::Axiom(literals) => add_axiom(so_far, literals),
        Statement::Operator(name, parameters) => begin_operator(so_far, line, name, parameters),
        Statement::Pre(atoms) => extend_operator(so_far, Role::Pre, atoms),
        Statement::Delete(atoms) => extend_operator(so_far, Role::Delete, atoms),
        Statement::Add(atoms) => extend_operator(so_far, Role::Add, atoms),
        Statement::Building => open_building(so_far, line),
        Statement::Room(name) => add_room(so_far, name),
        Statement::Door(name, one, other, is_open) => add_door(so_far, name, one, other, is_open),
        Statement::Box(name, room) => add_box(so_far, name, room),
        Statement::Robot(room) => add_robot(so_far, room),
        Statement::End => close_block(so_far),
        Statement::Fact(atoms) => add_facts(so_far, atoms),
        Statement::Height(height) => set(&mut so_far.height, height),
        Statement::Nodes(nodes) => set(&mut so_far.nodes, nodes),
        Statement::Shapes(shapes) => set(&mut so_far.shapes, shapes),
        Statement::Weight(weight) => set(&mut so_far.weight, weight),
        Statement::Plan(name, goal) => add_plan(so_far, name, goal),
        Statement::Learn(name, source) => add_learned(so_far, name, source),
        Statement::Ask(about, name) => add_asked(so_far, about, name),
        Statement::DisturbAtoms(turn, late, edits) => disturb_atoms(so_far, turn, late, edits),
        Statement::DisturbRooms(turn, late, edits) => disturb_rooms(so_far, turn, late, edits),
        Statement::Run(name, bindings) => add_run(so_far, name, bindings),
        Statement::Duo(one, other, numbers) => add_duo(so_far, one, other, numbers),
        Statement::Edit(name, source, prefix, pairs) => {
            add_edited(so_far, name, source, prefix, pairs)
        }
        Statement::Facts => add_command(so_far, Command::Facts),
        Statement::Table(name, parameters) => begin_table(so_far, line, name, parameters),
        Statement::Step(operator, terms) => add_step(so_far, operator, terms),
        Statement::Goal(atoms) => set_goal(so_far, atoms),
        Statement::Proof(parts) => add_row(so_far, parts),
        Statement::Pursue(name, goal) => add_pursuit(so_far, name, goal),
        Statement::Tree(name, nodes, goal) => add_tree(so_far, name, nodes, goal),
        Statement::Sort(name, objects) => add_sort(so_far, name, objects),
        Statement::Param(sort, names) => give_sort(so_far, sort, names),
    }
}

/// Adds a name that is new to its kind, which has room for it, and returns its number.
#[tactic(auto, using(crate::proofs::Fresh::welcome))]
pub fn add_name(so_far: &mut SoFar, kind: Kind, name: &str) -> Result<u32, NoMemory>
    requires fresh { IsFresh kind so_far.old.names name.now }
    ensures number { IfOk result (λ number. number ≡ length (names_of kind so_far.old.names)) }
    ensures declared { OnOk result (so_far.new ≡ record so_far.old { names = with_name kind name.now so_far.old.names }) }
{
    match so_far.names.declare(kind, name) {
        Ok(number) => Ok(number),
        Err(NameErr::NoMemory) => Err(NoMemory),
        Err(NameErr::BadName | NameErr::Duplicate | NameErr::Full) => unreachable!(),
    }
}

/// Adds names that are new to their kind, which has room for them.
pub fn declare_names(so_far: &mut SoFar, kind: Kind, names: &[&str]) -> Result<(), NoMemory>
    requires named { AllByRecursion (λ name. IsName name.now) names.now }
    requires fresh { AreOfKind kind (names_of kind so_far.old.names ++ map text_of names.now) }
    ensures { OnOk result (so_far.new ≡ record so_far.old { names = with_more kind (map text_of names.now) so_far.old.names }) }
{
    for name in names {
        add_name(so_far, kind, name)?;
    }
    Ok(())
}

fn declare_predicate(so_far: &mut SoFar, name: &str, arity: u8) -> Result<(), NoMemory>
    requires fresh { IsFresh Kind.Predicate so_far.old.names name.now }
    ensures { OnOk result (declared_of so_far.new ≡ leaves 0 (declared_of so_far.old) (spec.predicate name.now arity)) }
{
    add_name(so_far, Kind::Predicate, name)?;
    so_far.arities.push(arity)?;
    Ok(())
}

fn add_axiom(so_far: &mut SoFar, literals: &[SignedAtom<'_>]) -> Result<(), NoMemory>
    requires few_variables { length (variable_names_of (map signed_view literals.now)) ≤ most_formula_variables }
    requires readable { AreReadable (declared_of so_far.old) literals.now }
    requires clause { IsClause (clause_of (declared_of so_far.old) (map signed_view literals.now)) }
    requires room { length so_far.old.axioms < most_clauses }
    ensures { OnOk result (declared_of so_far.new ≡ leaves 0 (declared_of so_far.old) (spec.«axiom» (map signed_view literals.now))) }
{
    let variables = variables(so_far.alloc, literals)?;
    let literals = so_far.literals(&Variables::Named(&variables), literals)?;
    match so_far.axioms.push(variables.len() as u32, &literals) {
        Ok(_) => Ok(()),
        Err(ArenaErr::NoMemory) => Err(NoMemory),
        Err(ArenaErr::BadLength) => unreachable!(),
        Err(ArenaErr::Full) => unreachable!(),
    }
}

fn add_facts(so_far: &mut SoFar, atoms: &[SignedAtom<'_>]) -> Result<(), NoMemory>
    requires readable { AreReadable (declared_of so_far.old) atoms.now }
    requires fact_set { IsAtomSet so_far.old.facts.atoms }
    requires all_ground { All (λ atom. IsGround (atom_of (declared_of so_far.old) [] (signed_view atom))) atoms.now }
    ensures same { OnOk result (so_far.new ≡ record so_far.old { facts = so_far.new.facts }) }
    ensures facts { OnOk result (so_far.new.facts.atoms
        ≡ atom_set (map (atom_of (declared_of so_far.old) []) (map signed_view atoms.now) ++ so_far.old.facts.atoms)) }
{
    for atom in atoms {
        add_fact(so_far, so_far.atom(&Variables::Named(&[]), atom))?;
    }
    Ok(())
}

fn add_fact(so_far: &mut SoFar, fact: Atom) -> Result<(), NoMemory>
    requires is_ground { IsGround fact }
    ensures same { OnOk result (so_far.new ≡ record so_far.old { facts = so_far.new.facts }) }
    ensures facts { OnOk result (so_far.new.facts.atoms ≡ with_atom fact so_far.old.facts.atoms) }
{
    so_far.facts.insert(fact)?;
    Ok(())
}
